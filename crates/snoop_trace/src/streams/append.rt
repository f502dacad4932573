//! Texts, numbers and steps at the end of a text.
ghost use Rattle.std.specs.Prelude.{◌≡◌, ◌≤◌, ◌<◌, ◌+◌, ◌++◌, ◌∷◌, [], OnOk, codes, length};
ghost use Rattle.std.specs.Fmt.{decimal};
ghost use Rattle.snoop_trace.specs.Output.{step_text};

use crate::fault::NoMemory;
use crate::shape::Shape;
use crate::step::{Op, Step};
use itoa::{Buffer, write_digits};
use std::marker::Model;

/// Appends a text. After `NoMemory` nothing is said of what stands there.
#[inline(always)]
pub fn push_text(out: &mut Vec<u8>, text: &str) -> Result<(), NoMemory>
    ensures ok { OnOk result (out.new.items ≡ out.old.items ++ text.now) }
{
    match out.extend_from_slice(text.as_bytes()) {
        Ok(()) => Ok(()),
        Err(_) => Err(NoMemory),
    }
}

/// Appends a byte. After `NoMemory` nothing is said of what stands there.
#[inline(always)]
pub fn push_byte(out: &mut Vec<u8>, byte: u8) -> Result<(), NoMemory>
    ensures ok { OnOk result (out.new.items ≡ out.old.items ++ byte ∷ []) }
{
    match out.push(byte) {
        Ok(()) => Ok(()),
        Err(_) => Err(NoMemory),
    }
}

// Appends a number in decimal digits, of which there may be many.
#[inline(never)]
fn push_digits(out: &mut Vec<u8>, number: u64) -> Result<(), NoMemory>
    ensures ok { OnOk result (out.new.items ≡ out.old.items ++ decimal number) }
{
    let mut digits = Buffer::new();
    push_text(out, digits.format(number))
}

/// Appends a number in decimal digits. After `NoMemory` nothing is said of what stands there.
#[tactic(auto, using(std::proofs::lemmas::Fmt::decimal_digit))]
#[inline(always)]
pub fn push_decimal(out: &mut Vec<u8>, number: u64) -> Result<(), NoMemory>
    ensures ok { OnOk result (out.new.items ≡ out.old.items ++ decimal number) }
{
    if number < 10 {
        return push_byte(out, b'0' + number as u8);
    }
    push_digits(out, number)
}

/// Appends a text and then a number, in decimal digits. After `NoMemory` nothing is said of what stands there.
pub fn push_numbered(out: &mut Vec<u8>, text: &str, number: u64) -> Result<(), NoMemory>
    ensures ok { OnOk result (out.new.items ≡ out.old.items ++ (text.now ++ decimal number)) }
{
    push_text(out, text)?;
    push_decimal(out, number)
}

// The most bytes of a `Back`.
const ROOM: usize = 64;

// A text of at most 64 bytes, which is written from its end.
#[derive(Drop)]
struct Back {
    bytes: [u8; ROOM],
    start: usize,
}

impl Model for Back {
    ghost use Rattle.std.specs.Prelude.{ℕ, ◌≤◌, List, drop};

    ghost Value = { List ℕ };

    ghost view = { λ b. drop b.start b.bytes };

    ghost invariant = { λ b. b.start ≤ 64 };
}

impl Back {
    // Puts a byte before the text.
    #[inline(always)]
    fn put(&mut self, byte: u8)
        requires { length self.old < 64 }
        ensures { self.new ≡ byte ∷ self.old }
    {
        self.start -= 1;
        self.bytes[self.start] = byte;
    }

    // Puts a comma and a number before the text.
    #[tactic(auto, using(std::proofs::lemmas::Fmt::decimal_digit, crate::proofs::NumeralLemmas::few_to_put))]
    #[inline(always)]
    fn put_field(&mut self, number: u64)
        requires { length self.old + 21 ≤ 64 }
        ensures text { self.new ≡ codes "," ++ decimal number ++ self.old }
        ensures short { length self.new ≤ length self.old + 21 }
    {
        if number < 10 {
            self.put(b'0' + number as u8);
        } else {
            self.start = write_digits(number, &mut self.bytes, self.start);
        }
        self.put(b',');
    }
}

/// Appends the text of a step, without a line end.
///
/// It is the step's record, with decimal numbers, and the first address of the word, or of the block, in the block's
/// place. After `NoMemory` nothing is said of what stands there.
#[inline(always)]
pub fn push_step(out: &mut Vec<u8>, shape: Shape, step: Step) -> Result<(), NoMemory>
    ensures ok { OnOk result (out.new.items ≡ out.old.items ++ step_text shape step) }
{
    let mut back = Back {
        bytes: [0; ROOM],
        start: ROOM,
    };
    let (letter, first) = match step {
        Step::Ask {
            core,
            block,
            word,
            op: Op::Load,
        } => {
            back.put_field(shape.word_address(block, word));
            (b'L', core as u64)
        }
        Step::Ask {
            core,
            block,
            word,
            op: Op::Store(value),
        } => {
            back.put_field(value);
            back.put_field(shape.word_address(block, word));
            (b'S', core as u64)
        }
        Step::Ask {
            core,
            block,
            word: _,
            op: Op::Evict,
        } => {
            back.put_field(shape.address_of(block));
            (b'E', core as u64)
        }
        Step::Order { core } => (b'O', core as u64),
        Step::Respond { block } => (b'R', shape.address_of(block)),
    };
    back.put_field(first);
    back.put(letter);
    match out.extend_from_slice(&back.bytes[back.start..]) {
        Ok(()) => Ok(()),
        Err(_) => Err(NoMemory),
    }
}
