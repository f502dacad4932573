//! Pieces of texts, and texts that are filled up with blanks.
ghost use Rattle.std.specs.Prelude.{◌≡◌, ◌++◌, IfOk, OnOk};
ghost use Rattle.std.specs.Fmt.{decimal};
ghost use Rattle.snoop_states.specs.Rows.{below, blanks, padded_text, to_the_right};

use snoop_trace::NoMemory;
use snoop_trace::streams::{push_byte, push_decimal, push_text};
use std::alloc::Global;

/// Appends bytes.
pub(crate) fn push_bytes(out: &mut Vec<u8>, text: &[u8]) -> Result<(), NoMemory>
    ensures { OnOk result (out.new.items ≡ out.old.items ++ text.now) }
{
    match out.extend_from_slice(text) {
        Ok(()) => Ok(()),
        Err(_) => Err(NoMemory),
    }
}

/// Appends `count` blanks.
pub(crate) fn push_blanks(out: &mut Vec<u8>, count: usize) -> Result<(), NoMemory>
    ensures { OnOk result (out.new.items ≡ out.old.items ++ blanks count) }
{
    for _ in 0..count {
        push_byte(out, b' ')?;
    }
    Ok(())
}

/// Appends a text, filled up with blanks to the width, and with one where it is as long.
pub(crate) fn push_padded(out: &mut Vec<u8>, width: usize, text: &[u8]) -> Result<(), NoMemory>
    ensures { OnOk result (out.new.items ≡ out.old.items ++ padded_text width text.now) }
{
    push_bytes(out, text)?;
    let left = width.saturating_sub(text.len());
    push_blanks(out, left.max(1))
}

/// Appends a text to the right of the width, and two blanks.
pub(crate) fn push_to_the_right(
    out: &mut Vec<u8>,
    width: usize,
    text: &[u8],
) -> Result<(), NoMemory>
    ensures { OnOk result (out.new.items ≡ out.old.items ++ to_the_right width text.now) }
{
    push_blanks(out, width.saturating_sub(text.len()))?;
    push_bytes(out, text)?;
    push_text(out, "  ")
}

/// Appends a cell below another, filled up: a dot where it is the same.
pub(crate) fn push_below(
    out: &mut Vec<u8>,
    width: usize,
    above: &[u8],
    cell: &[u8],
) -> Result<(), NoMemory>
    ensures { OnOk result (out.new.items ≡ out.old.items ++ padded_text width (below above.now cell.now)) }
{
    if above == cell {
        push_padded(out, width, b".")
    } else {
        push_padded(out, width, cell)
    }
}

/// A number in decimal digits.
pub(crate) fn decimal_text(alloc: Global, number: u64) -> Result<Vec<u8>, NoMemory>
    ensures { IfOk result (λ text. text.items ≡ decimal number) }
{
    let mut text = Vec::new(alloc);
    push_decimal(&mut text, number)?;
    Ok(text)
}
