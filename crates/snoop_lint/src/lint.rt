//! The command `lint`: what is wrong with a text.
ghost use Rattle.std.specs.Prelude.{◌≡◌, ◌≢◌, ◌+◌, ◌++◌, ◌-◌, ◌<◌, ◌^◌, ◌⊎◌, ℕ, List, true, Err, IfOk, OnOk, length};
ghost use Rattle.csv.specs.Reading.{ReadRecord, reader_state, source_of};
ghost use Rattle.csv.specs.Records.{fields_of};
ghost use Rattle.snoop_trace.specs.Output.{BlamesWriter};
ghost use Rattle.snoop_trace.specs.Progress.{IsPlain};
ghost use Rattle.snoop_trace.specs.Text.{BlamesReader, records_of};
ghost use Rattle.snoop_lint.specs.Fewest.{AreFewest};
ghost use Rattle.snoop_lint.specs.Findings as found;
ghost use Rattle.snoop_lint.specs.Lines as line;
ghost use Rattle.snoop_lint.specs.Linted.{Lints, first_lines, lint_of};
ghost use Rattle.snoop_lint.specs.Looked.{line_if_faulty, line_if_room};
ghost use Rattle.snoop_lint.specs.Summary.{can_be_taken};
ghost use Rattle.snoop_lint.specs.Tallies.{one_more, tally_of};

use crate::explain::push_finding;
use crate::fault::LintFault;
use crate::form::{Form, Reading};
use crate::lines::record_lines;
use crate::summary::push_summary;
use crate::tally::Tally;
use crate::whole::read_whole;
use csv::{ByteRecord, Reader, ReaderBuilder};
use snoop_trace::streams::{Sink, Source, write_whole};
use snoop_trace::{NoMemory, Protocol, Shape, TextFault, row_fault, step_fault};
use std::alloc::Global;

/// Reads a text to its end as steps for the protocol and the shape, or as rows, and writes what is wrong with it: a line for each of the first
/// `most` faulty records, with its number, the line on which it begins, its fault and what was expected there; then how many records and how many
/// faults there are; then the fewest cores and blocks with which the text is taken, where nothing else is wrong with it; then whether
/// it looks like a text of the other form.
///
/// The answer is Ok where the text was read and all of this written, with faults in the text or without. After `Read` and `NoMemory` nothing was
/// written, after `Write` a beginning.
#[tactic(auto, using(crate::proofs::FindingLemmas::first_is_refusal, crate::proofs::FindingLemmas::fewest, crate::proofs::LineLemmas::as_many_lines))]
pub fn lint_text<R: Source, W: Sink>(
    alloc: Global,
    reader: &mut R,
    writer: &mut W,
    form: Form,
    most: u64,
    protocol: Protocol,
    shape: Shape,
) -> Result<(), LintFault>
    ensures does { Lints form most protocol shape (R.remaining reader.old) result (W.contents writer.old) (W.contents writer.new) }
    // The first fault is the one by which reading refuses the text, and there is none where reading takes it.
    ensures first { (bytes : List ℕ) → found.first_fault (found.findings form protocol shape (records_of bytes)) ≡ found.refusal form protocol shape bytes }
    // Each record has a line on which it begins.
    ensures lines { (bytes : List ℕ) → length (line.record_lines bytes) ≡ length (records_of bytes) }
    // Where enough cores and blocks are all that the text needs, those that are named are the fewest.
    ensures fewest { (bytes : List ℕ) → can_be_taken (tally_of form protocol shape (records_of bytes)) ≡ true
        → AreFewest form protocol shape bytes ((tally_of form protocol shape (records_of bytes)).core + 1) ((tally_of form protocol shape (records_of bytes)).block + 1) }
    // Where the text was not read, or not looked at, the writer is as it was.
    ensures unwritten { (result ≡ Err LintFault.Read) ⊎ (result ≡ Err LintFault.NoMemory) → writer.new ≡ writer.old }

    // A reader or a writer whose contract rules failure out is never blamed.
    ensures reads { R.never_fails ≡ true → result ≢ Err LintFault.Read }
    ensures writes { W.never_fails ≡ true → result ≢ Err LintFault.Write }
    // Where it is known that none of its reads or writes had failed, it is blamed exactly where one fails, and none is tried again.
    ensures read_blamed { BlamesReader (R.failed reader.old) (R.failed reader.new) (result ≡ Err LintFault.Read) }
    ensures blamed { BlamesWriter (W.failed writer.old) (W.failed writer.new) (result ≡ Err LintFault.Write) }
{
    let text = read_whole(alloc, reader)?;
    let report = report_of(alloc, form, most, protocol, shape, &text)?;
    match write_whole(writer, &report) {
        Ok(()) => Ok(()),
        Err(_) => Err(LintFault::Write),
    }
}

/// All that is said of a text.
#[tactic(auto, unfolding(crate::specs::Linted::lint_of))]
fn report_of(
    alloc: Global,
    form: Form,
    most: u64,
    protocol: Protocol,
    shape: Shape,
    text: &[u8],
) -> Result<Vec<u8>, NoMemory>
    ensures { IfOk result (λ report. report.items ≡ lint_of form most protocol shape text.now) }
{
    let reading = Reading {
        form,
        protocol,
        shape,
    };
    let lines = record_lines(alloc, text)?;
    let mut report = Vec::new(alloc);
    let tally = look(alloc, &mut report, &reading, most, &lines, text)?;
    push_summary(&mut report, form, most, tally)?;
    Ok(report)
}

/// Appends the lines of the first faulty records of a text, and counts all records.
#[tactic(auto, using(crate::proofs::LookedLemmas::looked_none))]
fn look(
    alloc: Global,
    out: &mut Vec<u8>,
    reading: &Reading,
    most: u64,
    lines: &[u64],
    text: &[u8],
) -> Result<Tally, NoMemory>
    ensures tally { IfOk result (λ tally. tally ≡ tally_of reading.now.form reading.now.protocol reading.now.shape (records_of text.now)) }
    ensures lines { OnOk result (out.new.items ≡ out.old.items ++ first_lines reading.now.form most reading.now.protocol reading.now.shape lines.now (records_of text.now)) }
{
    let mut records = ReaderBuilder::new()
        .has_headers(false)
        .flexible(true)
        .from_reader(alloc, text);
    let mut fields = ByteRecord::new(alloc);
    let mut tally = Tally::new();
    for i in 0..u64::MAX {
        if !next_record(&mut records, &mut fields)? {
            return Ok(tally);
        }
        tally = look_at(out, reading, most, lines, tally, i + 1, &fields)?;
    }
    // No text has so many records.
    Err(NoMemory)
}

/// Whether there is one more record, and its fields.
fn next_record<R: std::io::Read>(
    records: &mut Reader<R>,
    fields: &mut ByteRecord,
) -> Result<bool, NoMemory>
    requires { IsPlain records.old }
    ensures plain { IfOk result (λ found. found ≡ true → IsPlain records.new) }
    ensures reads { IfOk result (λ found. ReadRecord R.remaining records.old records.new found (fields_of fields.new)) }
{
    let Ok(found) = records.read_byte_record(fields) else {
        return Err(NoMemory);
    };
    Ok(found)
}

/// Appends the line of record n, if it is faulty and fewer than `most` lines stand there, and counts the record.
fn look_at(
    out: &mut Vec<u8>,
    reading: &Reading,
    most: u64,
    lines: &[u64],
    tally: Tally,
    n: u64,
    fields: &ByteRecord,
) -> Result<Tally, NoMemory>
    requires { tally.faults < 2 ^ 64 - 1 }
    ensures counted { IfOk result (λ next. next ≡ one_more reading.now.form reading.now.shape n (fields_of fields.now) (found.fault_at reading.now.form reading.now.protocol reading.now.shape n (fields_of fields.now)) tally) }
    ensures line { OnOk result (out.new.items ≡ out.old.items ++ line_if_room reading.now.form most reading.now.protocol reading.now.shape lines.now tally.faults n (fields_of fields.now)) }
{
    let fault = fault_at(reading, n, fields);
    if tally.faults < most {
        push_line(out, reading, lines, n, fields, fault)?;
    }
    Ok(tally.with_record(reading.form, reading.shape, n, fields, fault))
}

/// Appends the line of record n, if it is faulty.
fn push_line(
    out: &mut Vec<u8>,
    reading: &Reading,
    lines: &[u64],
    n: u64,
    fields: &ByteRecord,
    fault: Option<TextFault>,
) -> Result<(), NoMemory>
    requires { fault ≡ found.fault_at reading.now.form reading.now.protocol reading.now.shape n (fields_of fields.now) }
    ensures { OnOk result (out.new.items ≡ out.old.items ++ line_if_faulty reading.now.form reading.now.protocol reading.now.shape lines.now n (fields_of fields.now)) }
{
    match fault {
        Some(fault) => push_finding(out, reading, line_of(lines, n), n, fields, fault),
        None => Ok(()),
    }
}

/// Why record n is refused, where no record before it is.
fn fault_at(reading: &Reading, n: u64, fields: &ByteRecord) -> Option<TextFault>
    ensures { result ≡ found.fault_at reading.now.form reading.now.protocol reading.now.shape n (fields_of fields.now) }
{
    match reading.form {
        Form::Steps => step_fault(reading.protocol, reading.shape, n, fields),
        Form::Rows => row_fault(reading.shape, n, fields),
    }
}

/// The line on which record n begins, among the lines of all.
fn line_of(lines: &[u64], n: u64) -> u64
    ensures { result ≡ line.line_of lines.now n }
{
    let i = n.saturating_sub(1) as usize;
    lines.get(i).copied().unwrap_or(0)
}
