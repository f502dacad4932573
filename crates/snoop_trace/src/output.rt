//! Steps as a text of records.
ghost use Rattle.std.specs.Prelude.{◌≡◌, ◌≢◌, ◌<◌, ◌≤◌, ◌++◌, ◌∷◌, [], All, Some, Ok, Err, IfOk, OnOk, OnErr, codes, false, map, true};
ghost use Rattle.std.specs.Fmt.{decimal};
ghost use Rattle.std.specs.Io.KnownBytes.{Appends};
ghost use Rattle.csv.specs.Writing.{default_writer, needs_byte, row_text, text_written};
ghost use Rattle.snoop_trace.specs.Extent.{Extent};
ghost use Rattle.snoop_trace.specs.Heading.{heading_for, heading_text};
ghost use Rattle.snoop_trace.specs.Output.{AppendsFront, BlamesWriter, IsReadableStep, step_text, steps_text, text_of};
ghost use Rattle.snoop_trace.specs.Records.{IsReady, Writes, record_writer};
ghost use Rattle.snoop_trace.specs.Text.{steps_of};
ghost use Rattle.snoop_trace.specs.declared.fault.TextFault.TheVariants as TextFault;
ghost use Rattle.snoop_trace.specs.declared.step.Step.TheVariants.{Ask};

use crate::fault::{NoMemory, WriteFault};
use crate::protocol::Protocol;
use crate::shape::Shape;
use crate::step::{Op, Step};
use crate::streams::{Sink, write_whole};
use csv::{Writer, WriterBuilder};
use itoa::Buffer;
use std::alloc::Global;

/// How many records are gathered before they are written.
const BATCH: usize = 1024;

/// Writes steps as a text: first what they are for, then one step a line, each line ended by a line
/// feed.
///
/// Where the steps are within the shape and an eviction's word is 0, `read_steps` reads the same steps from the text for this
/// protocol and shape; for any other it answers `OtherShape`. After
/// `Write` and `NoMemory` the writer holds a beginning of the text after what it held, the failed
/// write's own bytes aside.
#[tactic(auto, using(crate::proofs::BackLemmas::all_read_again, crate::proofs::BackLemmas::other_refused, crate::proofs::OutputLemmas::on_err, crate::proofs::OutputLemmas::appends_none_of))]
pub fn write_steps<W: Sink>(
    alloc: Global,
    writer: &mut W,
    protocol: Protocol,
    shape: Shape,
    steps: &[Step],
) -> Result<(), WriteFault>
    ensures ok { OnOk result (Appends (W.contents writer.old) (W.contents writer.new) (text_of protocol shape steps.now)) }
    ensures front { OnErr result (AppendsFront (W.contents writer.old) (W.contents writer.new) (text_of protocol shape steps.now)) }
    ensures never_blamed { W.never_fails ≡ true → result ≢ Err WriteFault.Write }
    ensures blamed { BlamesWriter (W.failed writer.old) (W.failed writer.new) (result ≡ Err WriteFault.Write) }
    ensures read { All (IsReadableStep shape) steps.now → steps_of protocol shape (text_of protocol shape steps.now) ≡ Ok steps.now }
    ensures other { (other : Protocol) (extent : Extent) → ¬ ((other ≡ protocol) × (extent ≡ shape))
        → steps_of other extent (text_of protocol shape steps.now) ≡ Err (TextFault.OtherShape 1) }
{
    // `read` and `other` need a shape within the limits.
    shape.within_limits();
    let heading = heading_record(alloc, protocol, shape)?;
    write_whole(writer, &heading)?;
    write_records(alloc, writer, shape, steps)
}

// The record of what steps are for.
fn heading_record(alloc: Global, protocol: Protocol, shape: Shape) -> Result<Vec<u8>, NoMemory>
    ensures { IfOk result (λ text. text.items ≡ heading_text (heading_for protocol shape) ++ codes "\n") }
{
    let mut records = writer_of_records(alloc);
    write_heading(&mut records, protocol, shape)?;
    records.into_inner().map_err(|_| NoMemory)
}

// Writes the record of what steps are for.
#[tactic(auto, using(crate::proofs::BackLemmas::heading_written))]
fn write_heading(
    records: &mut Writer<Vec<u8>>,
    protocol: Protocol,
    shape: Shape,
) -> Result<(), NoMemory>
    requires { IsReady records.old }
    ensures ok { OnOk result (Writes records.old records.new (heading_text (heading_for protocol shape) ++ codes "\n")) }
    ensures ready { OnOk result (IsReady records.new) }
{
    // The numbers are below 2^64.
    shape.within_limits();
    let (mut of_cores, mut of_blocks) = (Buffer::new(), Buffer::new());
    let (mut of_bytes, mut of_words) = (Buffer::new(), Buffer::new());
    let cores = of_cores.format(shape.cores()).as_bytes();
    let blocks = of_blocks.format(shape.blocks()).as_bytes();
    let bytes = of_bytes.format(shape.block_bytes()).as_bytes();
    let words = of_words.format(shape.words()).as_bytes();
    let name = protocol.name().as_bytes();
    write_fields(records, &[b"V", b"2", name, cores, blocks, bytes, words])
}

// A writer of records, in none.
fn writer_of_records(alloc: Global) -> Writer<Vec<u8>>
    ensures ready { IsReady result }
    ensures empty { text_written (λ v. Some v.items) result ≡ Some [] }
{
    WriterBuilder::new()
        .flexible(true)
        .from_writer(Vec::new(alloc))
}

// Writes the records of steps, each ended by a line feed.
#[tactic(auto, using(crate::proofs::OutputLemmas::on_err, crate::proofs::OutputLemmas::batch_stop))]
fn write_records<W: Sink>(
    alloc: Global,
    writer: &mut W,
    shape: Shape,
    steps: &[Step],
) -> Result<(), WriteFault>
    ensures ok { OnOk result (Appends (W.contents writer.old) (W.contents writer.new) (steps_text shape steps.now)) }
    ensures front { OnErr result (AppendsFront (W.contents writer.old) (W.contents writer.new) (steps_text shape steps.now)) }
    ensures never_blamed { W.never_fails ≡ true → result ≢ Err WriteFault.Write }
    ensures blamed { BlamesWriter (W.failed writer.old) (W.failed writer.new) (result ≡ Err WriteFault.Write) }
{
    let mut at = 0;
    while at < steps.len() {
        let end = batch_end(at, steps.len());
        let text = records_text(alloc, shape, &steps[at..end])?;
        write_whole(writer, &text)?;
        at = end;
    }
    Ok(())
}

// Where the batch ends that begins at a place below the end of all.
fn batch_end(at: usize, len: usize) -> usize
    requires { at < len }
    ensures some { at < result }
    ensures within { result ≤ len }
{
    if len - at < BATCH { len } else { at + BATCH }
}

// The text of steps.
fn records_text(alloc: Global, shape: Shape, steps: &[Step]) -> Result<Vec<u8>, NoMemory>
    ensures { IfOk result (λ text. text.items ≡ steps_text shape steps.now) }
{
    let mut records = writer_of_records(alloc);
    for step in steps {
        write_record(&mut records, shape, *step)?;
    }
    records.into_inner().map_err(|_| NoMemory)
}

// Writes the record of a step.
fn write_record(records: &mut Writer<Vec<u8>>, shape: Shape, step: Step) -> Result<(), NoMemory>
    requires { IsReady records.old }
    ensures ok { OnOk result (Writes records.old records.new (step_text shape step ++ codes "\n")) }
    ensures ready { OnOk result (IsReady records.new) }
{
    match step {
        Step::Ask {
            core,
            block,
            word,
            op,
        } => write_ask(records, shape, core, block, word, op),
        Step::Order { core } => write_one(records, b'O', core as u64),
        Step::Respond { block } => write_one(records, b'R', shape.address_of(block)),
    }
}

// Writes the record of what a core asks for.
fn write_ask(
    records: &mut Writer<Vec<u8>>,
    shape: Shape,
    core: u32,
    block: u32,
    word: u32,
    op: Op,
) -> Result<(), NoMemory>
    requires { IsReady records.old }
    ensures ok { OnOk result (Writes records.old records.new (step_text shape (Ask core block word op) ++ codes "\n")) }
    ensures ready { OnOk result (IsReady records.new) }
{
    match op {
        Op::Load => write_two(records, b'L', core, shape.word_address(block, word)),
        Op::Evict => write_two(records, b'E', core, shape.address_of(block)),
        Op::Store(value) => {
            write_three(records, b'S', core, shape.word_address(block, word), value)
        }
    }
}

// Writes a letter and one number.
#[tactic(auto, using(crate::proofs::BackLemmas::one_written))]
fn write_one(records: &mut Writer<Vec<u8>>, letter: u8, number: u64) -> Result<(), NoMemory>
    requires ready { IsReady records.old }
    requires plain { needs_byte default_writer letter ≡ false }
    ensures ok { OnOk result (Writes records.old records.new (letter ∷ [] ++ codes "," ++ decimal number ++ codes "\n")) }
    ensures ready { OnOk result (IsReady records.new) }
{
    let mut digits = Buffer::new();
    let number = digits.format(number).as_bytes();
    write_fields(records, &[&[letter], number])
}

// Writes a letter and two numbers.
#[tactic(auto, using(crate::proofs::BackLemmas::two_written))]
fn write_two(
    records: &mut Writer<Vec<u8>>,
    letter: u8,
    core: u32,
    address: u64,
) -> Result<(), NoMemory>
    requires ready { IsReady records.old }
    requires plain { needs_byte default_writer letter ≡ false }
    ensures ok { OnOk result (Writes records.old records.new (letter ∷ [] ++ codes "," ++ decimal core ++ codes "," ++ decimal address ++ codes "\n")) }
    ensures ready { OnOk result (IsReady records.new) }
{
    let (mut of_core, mut of_address) = (Buffer::new(), Buffer::new());
    let core = of_core.format(core).as_bytes();
    let address = of_address.format(address).as_bytes();
    write_fields(records, &[&[letter], core, address])
}

// Writes a letter and three numbers.
#[tactic(auto, using(crate::proofs::BackLemmas::three_written))]
fn write_three(
    records: &mut Writer<Vec<u8>>,
    letter: u8,
    core: u32,
    address: u64,
    value: u64,
) -> Result<(), NoMemory>
    requires ready { IsReady records.old }
    requires plain { needs_byte default_writer letter ≡ false }
    ensures ok { OnOk result (Writes records.old records.new (letter ∷ [] ++ codes "," ++ decimal core ++ codes "," ++ decimal address ++ codes "," ++ decimal value ++ codes "\n")) }
    ensures ready { OnOk result (IsReady records.new) }
{
    let (mut of_core, mut of_address, mut of_value) = (Buffer::new(), Buffer::new(), Buffer::new());
    let core = of_core.format(core).as_bytes();
    let address = of_address.format(address).as_bytes();
    let value = of_value.format(value).as_bytes();
    write_fields(records, &[&[letter], core, address, value])
}

// Writes a record.
fn write_fields(records: &mut Writer<Vec<u8>>, fields: &[&[u8]]) -> Result<(), NoMemory>
    requires { IsReady records.old }
    ensures ok { OnOk result (Writes records.old records.new (row_text record_writer (map (λ f. f.now) fields.now))) }
    ensures ready { OnOk result (IsReady records.new) }
{
    records.write_fields(fields).map_err(|_| NoMemory)
}
