//! From a record to a heading, a step or a row.
ghost use Rattle.std.specs.Prelude.{◌≡◌, ◌<◌, ◌≤◌, ◌==◌, ◌&&◌, ℕ, List, Result, IfErr, IfOk, length, option_map};
ghost use Rattle.csv.specs.Records.{fields_of};
ghost use Rattle.snoop_trace.specs.Asked.{IsAskedByRow, asked_in};
ghost use Rattle.snoop_trace.specs.Extent.{Extent};
ghost use Rattle.snoop_trace.specs.Grammar as spec;
ghost use Rattle.snoop_trace.specs.Grammar.{NamesRecord};
ghost use Rattle.snoop_trace.specs.Heading as heading;

use crate::fault::TextFault;
use crate::protocol::Protocol;
use crate::shape::Shape;
use crate::step::{Asked, Op, Row, Step, Work};
use csv::ByteRecord;

/// What a record of a text says.
pub(crate) trait Entry: Copy {
    ghost use Rattle.snoop_trace.specs.declared.fault.TextFault.{TextFault};

    // By the shape, the record's number and its fields.
    ghost says: { Extent → ℕ → List (List ℕ) → Result Self TextFault };

    // An entry of the shape.
    ghost within: { Extent → Self → Type 0 };

    /// The entry of record n.
    fn from_record(shape: Shape, n: u64, fields: &ByteRecord) -> Result<Self, TextFault>
        ensures entry { result ≡ says shape n (fields_of fields.now) }
        ensures within { IfOk result (within shape) }
        ensures fault { IfErr result NamesRecord };
}

impl Entry for Step {
    ghost says = { spec.step_in };

    ghost within = { spec.IsStepWithin };

    #[tactic(auto, using(std::proofs::lemmas::Bool::Decides::nat_tests, crate::proofs::WordPlaces::asked_of_few), unfolding(crate::specs::Grammar::step_in, crate::specs::Grammar::ask))]
    #[inline(always)]
    fn from_record(shape: Shape, n: u64, fields: &ByteRecord) -> Result<Self, TextFault> {
        match kind_of(fields).ok_or(TextFault::BadKind(n))? {
            b'O' => order(shape, n, fields),
            b'R' => respond(shape, n, fields),
            letter => {
                let row = row_by_letter(shape, n, letter, fields)?;
                let block = shape.block_of(row.address).ok_or(TextFault::NoBlock(n))?;
                prove!(shape.word_of(row.address) < shape.words());
                Ok(Step::Ask {
                    core: row.core,
                    block,
                    word: shape.word_asked(row.address, row.op),
                    op: row.op,
                })
            }
        }
    }
}

impl Entry for Row {
    ghost says = { spec.row_in };

    ghost within = { spec.IsRowWithin };

    #[tactic(auto, using(std::proofs::lemmas::Bool::Decides::nat_tests), unfolding(crate::specs::Grammar::row_in))]
    #[inline(always)]
    fn from_record(shape: Shape, n: u64, fields: &ByteRecord) -> Result<Self, TextFault> {
        let letter = kind_of(fields).ok_or(TextFault::BadKind(n))?;
        let row = row_by_letter(shape, n, letter, fields)?;
        shape.block_of(row.address).ok_or(TextFault::NoBlock(n))?;
        Ok(row)
    }
}

impl Entry for Asked {
    ghost says = { asked_in };

    ghost within = { IsAskedByRow };

    #[tactic(auto, using(std::proofs::lemmas::Bool::Decides::nat_tests, crate::proofs::AskedLemmas::asked_by), unfolding(crate::specs::Asked::asked_in, crate::specs::Grammar::row_in))]
    #[inline(always)]
    fn from_record(shape: Shape, n: u64, fields: &ByteRecord) -> Result<Self, TextFault> {
        let letter = kind_of(fields).ok_or(TextFault::BadKind(n))?;
        let row = row_by_letter(shape, n, letter, fields)?;
        let block = shape.block_of(row.address).ok_or(TextFault::NoBlock(n))?;
        let work = Work {
            block,
            word: shape.word_asked(row.address, row.op),
            op: row.op,
        };
        Ok(Asked {
            core: row.core,
            work,
        })
    }
}

/// What steps are for: a protocol, and the numbers of a shape.
#[derive(Clone, Copy, PartialEq, Eq)]
pub(crate) struct Heading {
    pub protocol: Protocol,
    pub cores: u64,
    pub blocks: u64,
    pub block_bytes: u64,
    pub words: u64,
}

impl Heading {
    /// Whether record n is a heading: the first record alone may be one.
    pub(crate) fn is_heading(n: u64, fields: &ByteRecord) -> bool
        ensures { result ≡ ((n == 1) && heading.is_heading (fields_of fields.now)) }
    {
        n == 1 && kind_of(fields) == Some(b'V')
    }

    // What record n says, which is a heading.
    #[tactic(auto, unfolding(crate::specs::Heading::heading_in))]
    fn from_record(n: u64, fields: &ByteRecord) -> Result<Heading, TextFault>
        ensures heading { result ≡ heading.heading_in n (fields_of fields.now) }
        ensures fault { IfErr result NamesRecord }
    {
        version_in(n, fields)?;
        let (protocol, cores, blocks, block_bytes, words) = five_of(fields).ok_or(
            TextFault::BadFields(n),
        )?;
        let protocol = protocol_named(protocol).ok_or(TextFault::BadKind(n))?;
        let cores = number_in(n, cores)?;
        let blocks = number_in(n, blocks)?;
        let block_bytes = number_in(n, block_bytes)?;
        let words = number_in(n, words)?;
        Ok(Heading {
            protocol,
            cores,
            blocks,
            block_bytes,
            words,
        })
    }

    /// What record n says, where that is the heading for the protocol and the shape; else why it is refused.
    #[tactic(auto, unfolding(crate::specs::Heading::heading_as))]
    pub(crate) fn check(
        protocol: Protocol,
        shape: Shape,
        n: u64,
        fields: &ByteRecord,
    ) -> Result<Heading, TextFault>
        ensures heading { result ≡ heading.heading_as (heading.heading_for protocol shape) n (fields_of fields.now) }
        ensures fault { IfErr result NamesRecord }
    {
        let heading = Heading::from_record(n, fields)?;
        let asked = Heading {
            protocol,
            cores: shape.cores() as u64,
            blocks: shape.blocks() as u64,
            block_bytes: shape.block_bytes() as u64,
            words: shape.words() as u64,
        };
        if heading == asked {
            Ok(heading)
        } else {
            Err(TextFault::OtherShape(n))
        }
    }
}

fn number_in(n: u64, field: &[u8]) -> Result<u64, TextFault>
    ensures { result ≡ spec.number_in n field.now }
{
    number_of(field).ok_or(TextFault::BadNumber(n))
}

fn core_in(shape: Shape, n: u64, core: u64) -> Result<u32, TextFault>
    ensures core { result ≡ spec.core_in shape n core }
    ensures within { IfOk result (λ core. core < shape.cores) }
{
    if core < shape.cores() as u64 {
        Ok(core as u32)
    } else {
        Err(TextFault::NoCore(n))
    }
}

#[tactic(auto, using(crate::proofs::FieldLemmas::version_at), unfolding(crate::specs::Heading::version_in))]
fn version_in(n: u64, fields: &ByteRecord) -> Result<u64, TextFault>
    ensures version { result ≡ heading.version_in n (fields_of fields.now) }
    ensures fault { IfErr result NamesRecord }
{
    let field = fields.get(1).ok_or(TextFault::BadFields(n))?;
    let version = number_in(n, field)?;
    if version == 2 {
        Ok(version)
    } else {
        Err(TextFault::BadVersion(n))
    }
}

#[tactic(auto, unfolding(crate::specs::Heading::protocol_named))]
fn protocol_named(name: &[u8]) -> Option<Protocol>
    ensures { result ≡ heading.protocol_named name.now }
{
    if name == b"msi".as_slice() {
        Some(Protocol::Msi)
    } else if name == b"mesi".as_slice() {
        Some(Protocol::Mesi)
    } else {
        None
    }
}

#[tactic(auto, unfolding(crate::specs::Grammar::without_value))]
#[inline(always)]
fn without_value(shape: Shape, n: u64, op: Op, fields: &ByteRecord) -> Result<Row, TextFault>
    ensures row { result ≡ spec.without_value shape n op (fields_of fields.now) }
    ensures within { IfOk result (λ row. row.core < shape.cores) }
    ensures fault { IfErr result NamesRecord }
{
    let (core, address) = two_of(fields).ok_or(TextFault::BadFields(n))?;
    let core = number_in(n, core)?;
    let address = number_in(n, address)?;
    let core = core_in(shape, n, core)?;
    Ok(Row { core, op, address })
}

#[tactic(auto, unfolding(crate::specs::Grammar::store))]
#[inline(always)]
fn store(shape: Shape, n: u64, fields: &ByteRecord) -> Result<Row, TextFault>
    ensures row { result ≡ spec.store shape n (fields_of fields.now) }
    ensures within { IfOk result (λ row. row.core < shape.cores) }
    ensures fault { IfErr result NamesRecord }
{
    let (core, address, value) = three_of(fields).ok_or(TextFault::BadFields(n))?;
    let core = number_in(n, core)?;
    let address = number_in(n, address)?;
    let value = number_in(n, value)?;
    let core = core_in(shape, n, core)?;
    Ok(Row {
        core,
        op: Op::Store(value),
        address,
    })
}

// What a core asks for in record n, by its letter.
#[tactic(auto, unfolding(crate::specs::Grammar::row_by_letter))]
#[inline(always)]
fn row_by_letter(shape: Shape, n: u64, letter: u8, fields: &ByteRecord) -> Result<Row, TextFault>
    ensures row { result ≡ spec.row_by_letter shape n letter (fields_of fields.now) }
    ensures within { IfOk result (λ row. row.core < shape.cores) }
    ensures fault { IfErr result NamesRecord }
{
    match letter {
        b'L' => without_value(shape, n, Op::Load, fields),
        b'S' => store(shape, n, fields),
        b'E' => without_value(shape, n, Op::Evict, fields),
        _ => Err(TextFault::BadKind(n)),
    }
}

#[tactic(auto, unfolding(crate::specs::Grammar::order))]
#[inline(always)]
fn order(shape: Shape, n: u64, fields: &ByteRecord) -> Result<Step, TextFault>
    ensures step { result ≡ spec.order shape n (fields_of fields.now) }
    ensures within { IfOk result (spec.IsStepWithin shape) }
    ensures fault { IfErr result NamesRecord }
{
    let core = one_of(fields).ok_or(TextFault::BadFields(n))?;
    let core = number_in(n, core)?;
    let core = core_in(shape, n, core)?;
    Ok(Step::Order { core })
}

#[tactic(auto, using(std::proofs::lemmas::Bool::Decides::nat_tests), unfolding(crate::specs::Grammar::respond))]
#[inline(always)]
fn respond(shape: Shape, n: u64, fields: &ByteRecord) -> Result<Step, TextFault>
    ensures step { result ≡ spec.respond shape n (fields_of fields.now) }
    ensures within { IfOk result (spec.IsStepWithin shape) }
    ensures fault { IfErr result NamesRecord }
{
    let address = one_of(fields).ok_or(TextFault::BadFields(n))?;
    let address = number_in(n, address)?;
    let block = shape.block_of(address).ok_or(TextFault::NoBlock(n))?;
    Ok(Step::Respond { block })
}

/// The letter of a record's kind: its first field, where that is one byte.
#[tactic(auto, using(crate::proofs::FieldLemmas::no_letter, crate::proofs::FieldLemmas::the_letter, crate::proofs::FieldLemmas::other_letter))]
pub fn kind_of(fields: &ByteRecord) -> Option<u8>
    ensures { result ≡ spec.letter_of (fields_of fields.now) }
{
    match fields.get(0)? {
        [letter] => Some(*letter),
        _ => None,
    }
}

// The field after the kind, where there is one alone.
#[tactic(auto, using(crate::proofs::FieldLemmas::field_there, crate::proofs::FieldLemmas::one_at))]
fn one_of(fields: &ByteRecord) -> Option<&[u8]>
    ensures { option_map (λ f. f.now) result ≡ spec.one_of (fields_of fields.now) }
{
    if fields.len() == 2 {
        fields.get(1)
    } else {
        None
    }
}

// The fields after the kind, where there are two.
#[tactic(auto, using(crate::proofs::FieldLemmas::field_there, crate::proofs::FieldLemmas::two_at))]
fn two_of(fields: &ByteRecord) -> Option<(&[u8], &[u8])>
    ensures { option_map (λ f. (f.0.now, f.1.now)) result ≡ spec.two_of (fields_of fields.now) }
{
    if fields.len() == 3 {
        Some((fields.get(1)?, fields.get(2)?))
    } else {
        None
    }
}

// The fields after the kind, where there are three.
#[tactic(auto, using(crate::proofs::FieldLemmas::field_there, crate::proofs::FieldLemmas::three_at))]
fn three_of(fields: &ByteRecord) -> Option<(&[u8], &[u8], &[u8])>
    ensures { option_map (λ f. (f.0.now, f.1.now, f.2.now)) result ≡ spec.three_of (fields_of fields.now) }
{
    if fields.len() == 4 {
        Some((fields.get(1)?, fields.get(2)?, fields.get(3)?))
    } else {
        None
    }
}

// The five fields after the kind and the one that follows it, where there are five.
#[tactic(auto, using(crate::proofs::FieldLemmas::field_there, crate::proofs::FieldLemmas::five_at))]
fn five_of(fields: &ByteRecord) -> Option<(&[u8], &[u8], &[u8], &[u8], &[u8])>
    ensures { option_map (λ f. (f.0.now, f.1.now, f.2.now, f.3.now, f.4.now)) result ≡ heading.five_of (fields_of fields.now) }
{
    if fields.len() == 7 {
        Some((
            fields.get(2)?,
            fields.get(3)?,
            fields.get(4)?,
            fields.get(5)?,
            fields.get(6)?,
        ))
    } else {
        None
    }
}

// One or more digits of the base, of a value up to 2^64 - 1.
fn numeral(base: u32, digits: &[u8]) -> Option<u64>
    requires low { 2 ≤ base }
    requires high { base ≤ 16 }
    ensures { result ≡ spec.numeral base digits.now }
{
    if digits.is_empty() {
        return None;
    }
    let mut value: u64 = 0;
    for byte in digits {
        let digit = (*byte as char).to_digit(base)?;
        value = value.checked_mul(base as u64)?.checked_add(digit as u64)?;
    }
    Some(value)
}

// The same of so few decimal digits that their value is below 2^64.
fn decimal(digits: &[u8]) -> Option<u64>
    requires { length digits.now ≤ 19 }
    ensures { result ≡ spec.numeral 10 digits.now }
{
    if digits.is_empty() {
        return None;
    }
    let mut value: u64 = 0;
    for byte in digits {
        let digit = (*byte as char).to_digit(10)?;
        value = value * 10 + digit as u64;
    }
    Some(value)
}

/// The number that a field says: decimal digits, or `0x` and hexadecimal digits, of a value up to 2^64 - 1; None where it says none.
#[inline(always)]
#[tactic(auto, using(crate::proofs::NumeralLemmas::after_mark), unfolding(crate::specs::Grammar::number))]
pub fn number_of(field: &[u8]) -> Option<u64>
    ensures { result ≡ spec.number field.now }
{
    if field.starts_with(b"0x") {
        numeral(16, &field[2..])
    } else if field.len() <= 19 {
        decimal(field)
    } else {
        numeral(10, field)
    }
}
