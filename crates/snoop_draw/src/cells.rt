//! The cells of a line.
ghost use Rattle.std.specs.Prelude.{◌≡◌, ◌++◌, OnOk};
ghost use Rattle.snoop_draw.specs.Cells.{cell_text, field_text, left_text, link_text, or_wire, right_text};

use crate::marks::{Charset, Mark, push_mark, push_marks};
use crate::widths::Widths;
use snoop_trace::NoMemory;
use snoop_trace::streams::push_text;

/// How a drawing looks: its characters, and how wide its columns are.
#[derive(Clone, Copy)]
pub(crate) struct Style {
    pub(crate) charset: Charset,
    pub(crate) widths: Widths,
}

/// What stands around the words of a core: the mark to their left, the rail to their right, the wire that runs through
/// the cell, and the one that runs on from its rail.
#[derive(Clone, Copy)]
pub(crate) struct Cell {
    pub(crate) mark: Mark,
    pub(crate) rail: Mark,
    pub(crate) wire: Mark,
    pub(crate) next: Mark,
}

/// Which way a message goes between the bus and memory.
#[derive(Clone, Copy)]
pub(crate) enum Link {
    Nothing,
    FromMemory,
    ToMemory,
}

// Appends what a slice holds.
fn push_bytes(out: &mut Vec<u8>, words: &[u8]) -> Result<(), NoMemory>
    ensures { OnOk result (out.new.items ≡ out.old.items ++ words.now) }
{
    match out.extend_from_slice(words) {
        Ok(()) => Ok(()),
        Err(_) => Err(NoMemory),
    }
}

/// Appends words to the left of a field of this width, and the wire in what is left of it.
pub(crate) fn push_field(
    out: &mut Vec<u8>,
    charset: Charset,
    wire: Mark,
    width: usize,
    words: &[u8],
) -> Result<(), NoMemory>
    ensures { OnOk result (out.new.items ≡ out.old.items ++ field_text charset wire width words.now) }
{
    if words.is_empty() {
        push_marks(out, charset, wire, width)?;
        return push_marks(out, charset, wire, 2);
    }
    push_text(out, " ")?;
    push_bytes(out, words)?;
    push_text(out, " ")?;
    push_marks(out, charset, wire, width.saturating_sub(words.len()))
}

/// Appends words, and blanks up to this width.
pub(crate) fn push_left(out: &mut Vec<u8>, width: usize, words: &[u8]) -> Result<(), NoMemory>
    ensures { OnOk result (out.new.items ≡ out.old.items ++ left_text width words.now) }
{
    push_bytes(out, words)?;
    push_marks(
        out,
        Charset::Ascii,
        Mark::Blank,
        width.saturating_sub(words.len()),
    )
}

/// Appends words, and blanks before them up to this width.
pub(crate) fn push_right(out: &mut Vec<u8>, width: usize, words: &[u8]) -> Result<(), NoMemory>
    ensures { OnOk result (out.new.items ≡ out.old.items ++ right_text width words.now) }
{
    push_marks(
        out,
        Charset::Ascii,
        Mark::Blank,
        width.saturating_sub(words.len()),
    )?;
    push_bytes(out, words)
}

// The mark, or the wire where there is none.
fn or_wire(mark: Mark, wire: Mark) -> Mark
    ensures { result ≡ or_wire mark wire }
{
    match mark {
        Mark::Blank => wire,
        _ => mark,
    }
}

/// Appends the cell of a core.
pub(crate) fn push_cell(
    out: &mut Vec<u8>,
    charset: Charset,
    width: usize,
    cell: Cell,
    words: &[u8],
) -> Result<(), NoMemory>
    ensures { OnOk result (out.new.items ≡ out.old.items ++ cell_text charset width cell words.now) }
{
    push_mark(out, charset, or_wire(cell.mark, cell.wire))?;
    push_field(out, charset, cell.wire, width, words)?;
    push_mark(out, charset, or_wire(cell.rail, cell.wire))?;
    push_marks(out, charset, cell.next, 2)
}

/// Appends what stands between the bus and memory.
pub(crate) fn push_link(out: &mut Vec<u8>, charset: Charset, link: Link) -> Result<(), NoMemory>
    ensures { OnOk result (out.new.items ≡ out.old.items ++ link_text charset link) }
{
    match link {
        Link::Nothing => push_marks(out, charset, Mark::Blank, 2),
        Link::FromMemory => {
            push_mark(out, charset, Mark::Gets)?;
            push_mark(out, charset, Mark::Wire)
        }
        Link::ToMemory => {
            push_mark(out, charset, Mark::Wire)?;
            push_mark(out, charset, Mark::Tip)
        }
    }
}
