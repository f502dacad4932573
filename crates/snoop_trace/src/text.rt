//! Reading a text of steps or of rows.
ghost use Rattle.std.specs.Prelude.{◌≡◌, ◌≢◌, [], true, false, Bool, List, All, Option, Some, None, IfSome, IfOk, IfErr, Err};
ghost use Rattle.csv.specs.Reading.{default_config, reader_state, records, source_of};
ghost use Rattle.csv.specs.declared.parser.State.TheVariants as st;
ghost use Rattle.snoop_trace.specs.Asked.{AreAsked, step_of};
ghost use Rattle.snoop_trace.specs.Grammar.{IsRowWithin, IsStepWithin};
ghost use Rattle.snoop_trace.specs.Progress.{IsPlain, heading_asked};
ghost use Rattle.snoop_trace.specs.Text.{BlamesReader, Gives, entries_in, records_of, rows_of, steps_of};
ghost use Rattle.snoop_trace.specs.declared.step.Row.{Row as Given};

use crate::fault::TextFault;
use crate::protocol::Protocol;
use crate::record::{Entry, Heading};
use crate::shape::Shape;
use crate::step::{Asked, Row, Step};
use crate::streams::Source;
use crate::streams::entries::Entries;
use core::mem::replace_with;
use csv::{ByteRecord, Reader, ReaderBuilder};
use std::alloc::Global;
use std::io;
use std::io::{ErrorKind, Read};
use std::marker::{Brand, PhantomData};

// All entries of a text, after none. Where a protocol is asked for, the first record may be a heading.
fn take_text<E: Entry, C: Entries<E>, R: Read>(
    text: &mut Reader<R>,
    fields: &mut ByteRecord,
    protocol: Option<Protocol>,
    shape: Shape,
    entries: &mut C,
) -> Result<(), TextFault>
    requires plain { IsPlain text.old }
    requires begins { reader_state text.old ≡ st.StartRecord }
    requires empty { C.listed entries.old ≡ [] }
    requires fits { (entry : E) → E.within shape entry → C.fits entry }
    ensures read { IfSome (source_of R.remaining text.old)
        (λ xs. Gives (λ _. C.listed entries.new) result (entries_in (E.says shape) (heading_asked protocol shape) (records default_config xs))) }
    ensures within { IfOk result (λ _. All (E.within shape) (C.listed entries.new)) }
    ensures not_read { result ≢ Err TextFault.Read }
{
    for i in 0..u64::MAX {
        match text.read_byte_record(fields) {
            Ok(true) => {}
            Ok(false) => return Ok(()),
            // Out of memory, or a failed read: `read_known` tells the two apart.
            Err(_) => return Err(TextFault::NoMemory),
        }
        let n = i + 1;
        match &protocol {
            Some(asked) if Heading::is_heading(n, fields) => {
                Heading::check(*asked, shape, n, fields)?;
            }
            _ => entries.append(E::from_record(shape, n, fields)?)?,
        }
    }
    // No list holds so many.
    unreachable!()
}

// For the proof alone: whether a read of the reader had failed as a call began, as a type, so that the ghost fields of `Watched` can
// speak of it. Callers write `Brand`, for which the proof picks what is so; there is nothing of it in the program.
trait Begun {
    // Whether a read had failed, where that is known.
    ghost before: { Option Bool };
}

impl Begun for Brand {
    ghost before = { None };
}

// A reader, and whether a read of it has failed since a call has it; then it is read no more.
struct Watched<R: Source, K: Begun> {
    inner: R,
    failed: bool,
    begun: PhantomData<K>,
    ghost noted: { K.before ≡ Some false → R.failed inner ≡ Some failed },
    ghost told: { failed ≡ true → R.never_fails ≡ false },
}

impl<R: Source, K: Begun> Read for Watched<R, K> {
    ghost remaining = { λ r. R.remaining r.inner };

    fn read(&mut self, buf: &mut [u8]) -> io::Result<usize> {
        if self.failed {
            return Err(io::Error::from(ErrorKind::Other));
        }
        let read = self.inner.pull(buf);
        self.failed = read.is_err();
        read
    }
}

// The entries that a text gives, after none, or its first fault; and the reader back.
fn read_known<E: Entry, C: Entries<E> + Drop, R: Source, K: Begun>(
    reader: R,
    alloc: Global,
    protocol: Option<Protocol>,
    shape: Shape,
    mut entries: C,
) -> (R, Result<C, TextFault>)
    requires before { R.failed reader ≡ K.before }
    requires empty { C.listed entries ≡ [] }
    requires fits { (entry : E) → E.within shape entry → C.fits entry }
    ensures read { IfSome (R.remaining reader)
        (λ bytes. Gives C.listed result.1 (entries_in (E.says shape) (heading_asked protocol shape) (records_of bytes))) }
    ensures within { IfOk result.1 (λ entries. All (E.within shape) (C.listed entries)) }
    ensures never_blamed { R.never_fails ≡ true → result.1 ≢ Err TextFault.Read }
    ensures blamed { BlamesReader (R.failed reader) (R.failed result.0) (result.1 ≡ Err TextFault.Read) }
{
    let watched: Watched<R, K> = Watched {
        inner: reader,
        failed: false,
        begun: PhantomData,
    };
    let mut text = ReaderBuilder::new()
        .has_headers(false)
        .flexible(true)
        .from_reader(alloc, watched);
    let mut fields = ByteRecord::new(alloc);
    let taken = take_text(&mut text, &mut fields, protocol, shape, &mut entries);
    let Watched {
        inner,
        failed,
        begun: _,
    } = text.into_inner();
    let read = match taken {
        _ if failed => Err(TextFault::Read),
        Ok(()) => Ok(entries),
        Err(fault) => Err(fault),
    };
    (inner, read)
}

// The same, of a reader that is lent.
fn read_entries<E: Entry, C: Entries<E> + Drop, R: Source, K: Begun>(
    alloc: Global,
    reader: &mut R,
    protocol: Option<Protocol>,
    shape: Shape,
    entries: C,
) -> Result<C, TextFault>
    requires before { R.failed reader.old ≡ K.before }
    requires empty { C.listed entries ≡ [] }
    requires fits { (entry : E) → E.within shape entry → C.fits entry }
    ensures read { IfSome (R.remaining reader.old)
        (λ bytes. Gives C.listed result (entries_in (E.says shape) (heading_asked protocol shape) (records_of bytes))) }
    ensures within { IfOk result (λ entries. All (E.within shape) (C.listed entries)) }
    ensures never_blamed { R.never_fails ≡ true → result ≢ Err TextFault.Read }
    ensures blamed { BlamesReader (R.failed reader.old) (R.failed reader.new) (result ≡ Err TextFault.Read) }
{
    replace_with(
        reader,
        entries,
        |reader, entries| read_known::<E, C, R, K>(reader, alloc, protocol, shape, entries),
    )
}

/// The steps that a text gives for a protocol and a shape, or its first fault.
///
/// The text is a list of records as `csv` reads them: fields between commas, in double quotes or
/// not, no header row, no comments, no trimming. Lines end by LF, CRLF or CR, and blank ones are no
/// records; a byte order mark at the head is passed over. A step is one of
///
/// | Record | Step |
/// |---|---|
/// | `L,core,address` | the core asks for a load |
/// | `S,core,address,value` | the core asks for a store |
/// | `E,core,address` | the core asks for an eviction |
/// | `O,core` | the core's oldest request is ordered |
/// | `R,address` | the block's response comes |
///
/// The first record may say what the steps are for: `V,2,protocol,cores,blocks,block_bytes,words`,
/// with `msi` or `mesi`. It counts as record 1, is no step, and is refused where it says another
/// protocol or shape.
///
/// A number is decimal digits, or `0x` and hexadecimal digits of either case, of a value below
/// 2^64. An address stands for the block that it lies in, of a load or a store also for the word. `TextFault` says what is
/// refused; after
/// `Read` and `NoMemory` nothing is said of the text. The reader is read in pieces, so after a
/// fault it may stand well behind the record that is named.
pub fn read_steps<R: Source>(
    alloc: Global,
    reader: &mut R,
    protocol: Protocol,
    shape: Shape,
) -> Result<Vec<Step>, TextFault>
    ensures read { IfSome (R.remaining reader.old)
        (λ bytes. Gives (λ steps. steps.items) result (steps_of protocol shape bytes)) }
    ensures never_blamed { R.never_fails ≡ true → result ≢ Err TextFault.Read }
    ensures blamed { BlamesReader (R.failed reader.old) (R.failed reader.new) (result ≡ Err TextFault.Read) }
{
    gather_steps::<Vec<Step>, R>(alloc, reader, protocol, shape, Vec::new(alloc))
}

/// The same steps, or the same fault, gathered in another list, which is empty at first and fits every step of the shape.
pub fn gather_steps<C: Entries<Step> + Drop, R: Source>(
    alloc: Global,
    reader: &mut R,
    protocol: Protocol,
    shape: Shape,
    steps: C,
) -> Result<C, TextFault>
    requires empty { C.listed steps ≡ [] }
    requires fits { (step : Step) → IsStepWithin shape step → C.fits step }
    ensures read { IfSome (R.remaining reader.old)
        (λ bytes. Gives C.listed result (steps_of protocol shape bytes)) }
    ensures never_blamed { R.never_fails ≡ true → result ≢ Err TextFault.Read }
    ensures blamed { BlamesReader (R.failed reader.old) (R.failed reader.new) (result ≡ Err TextFault.Read) }
{
    read_entries::<Step, C, R, Brand>(alloc, reader, Some(protocol), shape, steps)
}

/// The rows that a text gives, or its first fault.
///
/// The text is as for `read_steps`, with the records `L`, `S` and `E` alone: `O`, `R` and `V`
/// are `BadKind`. A row keeps its address, which lies in a block of the shape.
pub fn read_rows<R: Source>(
    alloc: Global,
    reader: &mut R,
    shape: Shape,
) -> Result<Vec<Row>, TextFault>
    ensures read { IfSome (R.remaining reader.old)
        (λ bytes. Gives (λ rows. rows.items) result (rows_of shape bytes)) }
    ensures within { IfOk result (λ rows. All (IsRowWithin shape) rows.items) }
    ensures never_blamed { R.never_fails ≡ true → result ≢ Err TextFault.Read }
    ensures blamed { BlamesReader (R.failed reader.old) (R.failed reader.new) (result ≡ Err TextFault.Read) }
{
    read_entries::<Row, Vec<Row>, R, Brand>(alloc, reader, None, shape, Vec::new(alloc))
}

/// What the rows of a text ask for, in its order, or the fault of `read_rows`: gathered in another list, which is empty at first
/// and fits all that rows of the shape ask for.
#[tactic(auto, using(crate::proofs::AskedLemmas::are_asked))]
pub fn gather_asked<C: Entries<Asked> + Drop, R: Source>(
    alloc: Global,
    reader: &mut R,
    shape: Shape,
    asked: C,
) -> Result<C, TextFault>
    requires empty { C.listed asked ≡ [] }
    requires fits { (asked : Asked) → IsStepWithin shape (step_of asked) → C.fits asked }
    ensures read { IfOk result (λ asked. AreAsked shape (R.remaining reader.old) (C.listed asked)) }
    ensures fault { IfErr result (λ fault. IfSome (R.remaining reader.old)
        (λ bytes. Gives (λ (rows : List Given). rows) (Err fault) (rows_of shape bytes))) }
    ensures never_blamed { R.never_fails ≡ true → result ≢ Err TextFault.Read }
    ensures blamed { BlamesReader (R.failed reader.old) (R.failed reader.new) (result ≡ Err TextFault.Read) }
{
    shape.within_limits();
    read_entries::<Asked, C, R, Brand>(alloc, reader, None, shape, asked)
}
