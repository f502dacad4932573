//! On which lines of a text its records begin.
ghost use Rattle.std.specs.Prelude.{◌≡◌, ◌<◌, ◌+◌, ◌-◌, ◌^◌, ◌++◌, ◌∷◌, [], IfOk, OnOk, if◌then◌else◌, slice_get};
ghost use Rattle.csv.specs.declared.parser.State.TheVariants as st;
ghost use Rattle.csv.specs.Machine as csv_spec;
ghost use Rattle.csv.specs.Reading.{default_config, strip_bom};
ghost use Rattle.snoop_lint.specs.Lines as spec;
ghost use Rattle.snoop_lint.specs.Places.{state_at_place};

use snoop_trace::NoMemory;
use std::alloc::Global;

/// Where a reader of records stands.
#[derive(Clone, Copy, PartialEq, Eq)]
pub(crate) enum Place {
    /// Between two records.
    Between,
    /// After a carriage return that ended a record.
    Return,
    /// At the begin of a field.
    Field,
    /// In a field, after its first byte or its closing quote.
    Inside,
    /// Within quotes.
    Quoted,
    /// After a quote within quotes.
    Quote,
}

impl Place {
    /// The place after one byte more.
    fn after(self, byte: u8) -> Place
        ensures { state_at_place result ≡ (csv_spec.step default_config (state_at_place self) byte).0 }
    {
        match self {
            Place::Between => at_record(byte),
            Place::Return if byte == b'\n' => Place::Between,
            Place::Return => at_record(byte),
            Place::Field => at_field(byte),
            Place::Inside => in_field(byte),
            Place::Quoted if byte == b'"' => Place::Quote,
            Place::Quoted => Place::Quoted,
            Place::Quote if byte == b'"' => Place::Quoted,
            Place::Quote => in_field(byte),
        }
    }

    /// Whether a record begins at this byte.
    fn begins_record(self, byte: u8) -> bool
        ensures { result ≡ spec.begins_record (state_at_place self) byte }
    {
        let is_between = match self {
            Place::Between | Place::Return => true,
            _ => false,
        };
        is_between && byte != b'\n' && byte != b'\r'
    }
}

fn at_record(byte: u8) -> Place
    ensures { state_at_place result ≡ (csv_spec.start_record default_config byte).0 }
{
    if byte == b'\r' || byte == b'\n' {
        Place::Between
    } else {
        at_field(byte)
    }
}

fn at_field(byte: u8) -> Place
    ensures { state_at_place result ≡ (csv_spec.start_field default_config byte).0 }
{
    if byte == b'"' {
        Place::Quoted
    } else {
        in_field(byte)
    }
}

fn in_field(byte: u8) -> Place
    ensures { state_at_place result ≡ (csv_spec.in_field default_config byte).0 }
{
    match byte {
        b',' => Place::Field,
        b'\r' => Place::Return,
        b'\n' => Place::Between,
        _ => Place::Inside,
    }
}

/// Whether a line ends at a byte, before the next one.
fn ends_line(byte: u8, next: Option<u8>) -> bool
    ensures { result ≡ spec.ends_line byte next }
{
    match next {
        Some(next) => byte == b'\n' || (byte == b'\r' && next != b'\n'),
        None => byte == b'\n' || byte == b'\r',
    }
}

/// The lines on which the records of a text begin, counted from 1.
pub(crate) fn record_lines(alloc: Global, text: &[u8]) -> Result<Vec<u64>, NoMemory>
    ensures { IfOk result (λ lines. lines.items ≡ spec.record_lines text.now) }
{
    lines_from(alloc, without_mark(text))
}

/// The text without a byte order mark at its head.
#[tactic(auto, unfolding(csv::specs::Reading::strip_bom))]
fn without_mark(text: &[u8]) -> &[u8]
    ensures { result.now ≡ strip_bom text.now }
{
    match text {
        [0xEF, 0xBB, 0xBF, rest @ ..] => rest,
        _ => text,
    }
}

#[tactic(auto, using(crate::proofs::LineLemmas::reading))]
fn lines_from(alloc: Global, text: &[u8]) -> Result<Vec<u64>, NoMemory>
    ensures { IfOk result (λ lines. lines.items ≡ spec.lines_from st.StartRecord 1 text.now) }
{
    let mut lines = Vec::new(alloc);
    let mut place = Place::Between;
    let mut line = 1;
    for i in 0..text.len() {
        let byte = text[i];
        push_begin(&mut lines, place, line, byte)?;
        line = next_line(line, byte, byte_at(text, i + 1));
        place = place.after(byte);
    }
    Ok(lines)
}

// Appends the line, where a record begins at this byte of it.
fn push_begin(lines: &mut Vec<u64>, place: Place, line: u64, byte: u8) -> Result<(), NoMemory>
    ensures { OnOk result (lines.new.items ≡ lines.old.items ++ (if spec.begins_record (state_at_place place) byte then line ∷ [] else [])) }
{
    if place.begins_record(byte) {
        lines.push(line).map_err(|_| NoMemory)
    } else {
        Ok(())
    }
}

/// The line of the next byte.
fn next_line(line: u64, byte: u8, next: Option<u8>) -> u64
    requires { line < 2 ^ 64 - 1 }
    ensures { result ≡ (if spec.ends_line byte next then line + 1 else line) }
{
    if ends_line(byte, next) {
        line + 1
    } else {
        line
    }
}

fn byte_at(text: &[u8], i: usize) -> Option<u8>
    ensures { result ≡ slice_get text.now i }
{
    text.get(i).copied()
}
