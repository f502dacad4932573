//! Numbers that are mostly small, in decimal digits.
ghost use Rattle.std.specs.Prelude.{◌≡◌, ◌<◌, ◌≤◌, ◌++◌, OnOk};
ghost use Rattle.std.specs.Fmt.{decimal};

use snoop_trace::NoMemory;
use snoop_trace::streams::{push_byte, push_decimal};

// Appends a number of two digits.
#[tactic(auto, using(std::proofs::lemmas::List::append_assoc, std::proofs::lemmas::Fmt::decimal_digit, std::proofs::lemmas::Fmt::decimal_step))]
#[inline(always)]
fn push_two(out: &mut Vec<u8>, number: u64) -> Result<(), NoMemory>
    requires low { 10 ≤ number }
    requires high { number < 100 }
    ensures { OnOk result (out.new.items ≡ out.old.items ++ decimal number) }
{
    push_byte(out, b'0' + (number / 10) as u8)?;
    push_byte(out, b'0' + (number % 10) as u8)
}

/// Appends a number in decimal digits, of which it mostly has one or two.
#[inline(always)]
pub(crate) fn push_short(out: &mut Vec<u8>, number: u64) -> Result<(), NoMemory>
    ensures { OnOk result (out.new.items ≡ out.old.items ++ decimal number) }
{
    if 10 <= number && number < 100 {
        return push_two(out, number);
    }
    push_decimal(out, number)
}
