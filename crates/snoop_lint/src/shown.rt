//! How a field of a text is shown.
ghost use Rattle.std.specs.Prelude.{◌≡◌, ◌≤◌, ◌++◌, ◌<◌, OnOk, length, not};
ghost use Rattle.std.specs.Char.{digit_char};
ghost use Rattle.std.specs.List.{flat_map, prefix_len};
ghost use Rattle.snoop_lint.specs.Hints.{is_line_end};
ghost use Rattle.snoop_lint.specs.Shown as spec;

use crate::hints::is_line_end;
use snoop_trace::NoMemory;
use snoop_trace::streams::{push_byte, push_decimal, push_text};

/// The most bytes of a field that are shown.
const MOST: usize = 40;

/// Appends a field as it is shown: between quotes, what is not printable in hexadecimal, its first 40 bytes at most, and none from its first line end on.
#[tactic(auto, unfolding(crate::specs::Shown::shown))]
pub(crate) fn push_shown(out: &mut Vec<u8>, field: &[u8]) -> Result<(), NoMemory>
    ensures { OnOk result (out.new.items ≡ out.old.items ++ spec.shown field.now) }
{
    let front = front(field);
    push_text(out, "'")?;
    push_shown_bytes(out, front)?;
    push_text(out, "'")?;
    push_not_shown(out, field.len() - front.len())
}

#[tactic(auto, unfolding(crate::specs::Shown::front))]
fn front(field: &[u8]) -> &[u8]
    ensures value { result.now ≡ spec.front field.now }
    ensures within { length result.now ≤ length field.now }
{
    &field[..first_line_len(field).min(MOST)]
}

fn first_line_len(field: &[u8]) -> usize
    ensures value { result ≡ prefix_len (λ byte. not (is_line_end byte)) field.now }
    ensures within { result ≤ length field.now }
{
    field.iter().take_while(|byte| !is_line_end(**byte)).count()
}

fn push_shown_bytes(out: &mut Vec<u8>, bytes: &[u8]) -> Result<(), NoMemory>
    ensures { OnOk result (out.new.items ≡ out.old.items ++ flat_map spec.shown_byte bytes.now) }
{
    for byte in bytes {
        push_shown_byte(out, *byte)?;
    }
    Ok(())
}

fn push_shown_byte(out: &mut Vec<u8>, byte: u8) -> Result<(), NoMemory>
    ensures { OnOk result (out.new.items ≡ out.old.items ++ spec.shown_byte byte) }
{
    if byte == b'\\' {
        push_text(out, "\\\\")
    } else if byte >= 0x20 && byte < 0x7F {
        push_byte(out, byte)
    } else {
        push_text(out, "\\x")?;
        push_byte(out, hex_digit(byte / 16))?;
        push_byte(out, hex_digit(byte % 16))
    }
}

fn hex_digit(digit: u8) -> u8
    requires { digit < 16 }
    ensures { result ≡ digit_char digit }
{
    if digit < 10 {
        b'0' + digit
    } else {
        b'a' - 10 + digit
    }
}

#[tactic(auto, unfolding(crate::specs::Shown::not_shown))]
fn push_not_shown(out: &mut Vec<u8>, count: usize) -> Result<(), NoMemory>
    ensures { OnOk result (out.new.items ≡ out.old.items ++ spec.not_shown count) }
{
    if count > 0 {
        push_text(out, " and ")?;
        push_counted(out, count as u64, "more byte")
    } else {
        Ok(())
    }
}

/// Appends a number and what it counts, with an s unless it is 1.
#[tactic(auto, unfolding(crate::specs::Shown::counted))]
pub(crate) fn push_counted(out: &mut Vec<u8>, count: u64, thing: &str) -> Result<(), NoMemory>
    ensures { OnOk result (out.new.items ≡ out.old.items ++ spec.counted count thing.now) }
{
    push_decimal(out, count)?;
    push_text(out, " ")?;
    push_text(out, thing)?;
    push_text(out, if count == 1 { "" } else { "s" })
}

/// Appends bytes as they are.
pub(crate) fn push_bytes(out: &mut Vec<u8>, bytes: &[u8]) -> Result<(), NoMemory>
    ensures { OnOk result (out.new.items ≡ out.old.items ++ bytes.now) }
{
    out.extend_from_slice(bytes).map_err(|_| NoMemory)
}
