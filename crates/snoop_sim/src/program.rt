//! What the program does with its words and streams, and the status that it ends with.
ghost use Rattle.std.specs.Prelude.{◌≡◌, ◌≢◌, ◌<◌, ℕ, List, map, string_bytes, false, true, Some, Err, IfErr, OnErr, OnOk};
ghost use Rattle.std.specs.IoError.{error_kind};
ghost use Rattle.std.specs.Io.KnownBytes.{Appends};
ghost use Rattle.snoop_trace.specs.Output.{AppendsFront, BlamesWriter};
ghost use Rattle.snoop_trace.specs.Text.{BlamesReader};
ghost use Rattle.snoop_trace.specs.declared.fault.TextFault.{TextFault};
ghost use Rattle.snoop_trace.specs.declared.fault.TextFault.TheVariants as text_fault;
ghost use Rattle.snoop_engine.specs.SimulatedView.{SimulatesView};
ghost use Rattle.snoop_sim.specs.Status.{status_of};
ghost use Rattle.snoop_sim.specs.Performed.{EndsWithStatus, IsBeforeOutput, IsFailedRead, PerformsTask, WritesText, grouped_counts, layout_text, status_of_ending};

use crate::failure::Failure;
use crate::options::{Grouping, Layout, Task, task_in};
use crate::threads::simulate_threads;
use snoop_counts::{
    simulate_counts_by_block, simulate_counts_by_core, simulate_counts_by_steps,
    simulate_counts_by_word,
};
use snoop_draw::simulate_drawing;
use snoop_engine::{
    Input, SimFault, simulate_counts, simulate_run, simulate_serial, simulate_states,
    simulate_steps,
};
use snoop_lint::lint_text;
use snoop_rules::{Protocol, Which, write_matrix, write_table};
use snoop_states::simulate_states_table;
use snoop_svg::simulate_svg;
use snoop_trace::streams::{Sink, Source, write_whole};
use snoop_trace::{Shape, WriteFault};
use std::alloc::Global;
use std::io;
use std::io::{ErrorKind, Write};
use std::sync::Wait;
use std::thread::Threads;

/// Does what the words ask for, the first of which is the program's own name, and returns the status that the program ends with:
///
/// - 0: it was done.
/// - 1: the text was refused.
/// - 2: the command line was not understood, the shape or the choice of what is shown was refused, or the drawing is too large.
/// - 3: out of memory.
/// - 4: a write failed.
/// - 5: the threads of `threads` were refused for another cause.
///
/// After 1, 2 and 5 nothing was written, after 3 and 4 a beginning of the output. A failure is reported to `errors` in one line, a
/// command line that is not understood in `clap`'s text. `does` has all of this, where `clap` says what the words ask for; what is
/// reported to `errors`, and the text of a help, are tested.
pub fn command<T: Threads + Wait + Sync, R: Source, W: Sink, E: Write>(
    rt: &T,
    alloc: Global,
    words: &[String],
    reader: &mut R,
    writer: &mut W,
    errors: &mut E,
) -> u8
    ensures does { EndsWithStatus (map string_bytes words.now) R.never_fails (R.failed reader.old) (R.failed reader.new) (R.remaining reader.old) result (W.contents writer.old) (W.contents writer.new) (writer.new ≡ writer.old) }
    ensures known { result < 6 }
    // A text, a command line or a shape is refused, and leaves the writer as it was.
    ensures unwritten { 0 < result → result < 3 → writer.new ≡ writer.old }
    // So do refused threads.
    ensures refused { result ≡ 5 → writer.new ≡ writer.old }
    ensures never_blamed { W.never_fails ≡ true → result ≢ 4 }
    // Where no read of the reader had failed, and one has failed since, the status is 1.
    ensures read_blamed { R.failed reader.old ≡ Some false → R.failed reader.new ≡ Some true → result ≡ 1 }
    // Where it is known that no write to the writer had failed, the status is 4 exactly where one fails, and none is tried again.
    ensures blamed { BlamesWriter (W.failed writer.old) (W.failed writer.new) (result ≡ 4) }
{
    let task = match task_in(alloc, words) {
        Ok(task) => task,
        Err(failure) => return report(errors, &failure),
    };
    match perform(rt, alloc, task, reader, writer) {
        Ok(()) => 0,
        Err(failure) => report(errors, &failure),
    }
}

/// Reports to `errors` in one line why the words of the process could not be read, and returns the status that the program
/// ends with: 3 for out of memory, and 2 for a word that is not UTF-8.
pub fn refuse_words<E: Write>(cause: io::Error, errors: &mut E) -> u8
    ensures memory { error_kind cause ≡ ErrorKind.OutOfMemory → result ≡ 3 }
    ensures other { error_kind cause ≢ ErrorKind.OutOfMemory → result ≡ 2 }
{
    report(errors, &Failure::of_words(cause))
}

/// Does the task that the words ask for.
fn perform<T: Threads + Wait + Sync, R: Source, W: Sink>(
    rt: &T,
    alloc: Global,
    task: Task,
    reader: &mut R,
    writer: &mut W,
) -> Result<(), Failure>
    ensures does { PerformsTask task (R.remaining reader.old) result (W.contents writer.old) (W.contents writer.new) }
    ensures reads { R.never_fails ≡ true → ¬ IsFailedRead result }
    ensures read_blamed { BlamesReader (R.failed reader.old) (R.failed reader.new) (IsFailedRead result) }
    ensures before { IfErr result (λ failure. IsBeforeOutput failure → writer.new ≡ writer.old) }
    ensures unwritten { IfErr result (λ failure. status_of failure < 3 → writer.new ≡ writer.old) }
    ensures refused { IfErr result (λ failure. status_of failure ≡ 5 → writer.new ≡ writer.old) }
    ensures never_blamed { IfErr result (λ failure. W.never_fails ≡ true → status_of failure ≢ 4) }
    ensures blamed { BlamesWriter (W.failed writer.old) (W.failed writer.new) (status_of_ending result ≡ 4) }
{
    match task {
        Task::Help(help) => write_help(alloc, writer, &help).map_err(Failure::Simulation),
        Task::Table(protocol, which, layout) => {
            write_layout(alloc, writer, protocol, which, layout)
                .map_err(SimFault::from)
                .map_err(Failure::Simulation)
        }
        Task::Steps(protocol, shape) => {
            simulate_steps(alloc, reader, writer, protocol, shape).map_err(Failure::Simulation)
        }
        Task::Run(protocol, shape) => {
            simulate_run(alloc, reader, writer, protocol, shape).map_err(Failure::Simulation)
        }
        Task::Serial(protocol, shape) => {
            simulate_serial(alloc, reader, writer, protocol, shape).map_err(Failure::Simulation)
        }
        Task::Threads(protocol, shape) => {
            simulate_threads(rt, alloc, reader, writer, protocol, shape).map_err(Failure::Threads)
        }
        Task::Counts(protocol, shape, input, grouping) => {
            simulate_counts_by(alloc, reader, writer, protocol, shape, input, grouping).map_err(
                Failure::Simulation,
            )
        }
        Task::Lint(protocol, shape, form, most) => {
            lint_text(alloc, reader, writer, form, most, protocol, shape).map_err(Failure::Lint)
        }
        Task::States(protocol, shape, input, choice) => {
            simulate_states_table(alloc, reader, writer, protocol, shape, input, choice).map_err(
                Failure::Simulation,
            )
        }
        Task::StateFields(protocol, shape, input, choice) => {
            simulate_states(alloc, reader, writer, protocol, shape, input, choice).map_err(
                Failure::Simulation,
            )
        }
        Task::Draw(protocol, shape, input, charset, choice) => {
            simulate_drawing(
                alloc, reader, writer, protocol, shape, input, charset, choice,
            )
            .map_err(Failure::Drawing)
        }
        Task::DrawSvg(protocol, shape, input, choice, paper) => {
            simulate_svg(alloc, reader, writer, protocol, shape, input, choice, paper).map_err(
                Failure::Drawing,
            )
        }
    }
}

/// Writes a table by rows or as a matrix.
fn write_layout<W: Sink>(
    alloc: Global,
    writer: &mut W,
    protocol: Protocol,
    which: Which,
    layout: Layout,
) -> Result<(), WriteFault>
    ensures ok { OnOk result (Appends (W.contents writer.old) (W.contents writer.new) (layout_text protocol which layout)) }
    ensures front { OnErr result (AppendsFront (W.contents writer.old) (W.contents writer.new) (layout_text protocol which layout)) }
    ensures no_memory { result ≡ Err WriteFault.NoMemory → W.contents writer.new ≡ W.contents writer.old }
    ensures never_blamed { W.never_fails ≡ true → result ≢ Err WriteFault.Write }
    ensures blamed { BlamesWriter (W.failed writer.old) (W.failed writer.new) (result ≡ Err WriteFault.Write) }
{
    match layout {
        Layout::Rows => write_table(alloc, writer, protocol, which),
        Layout::Matrix => write_matrix(alloc, writer, protocol, which),
    }
}

/// Counts as the grouping says.
fn simulate_counts_by<R: Source, W: Sink>(
    alloc: Global,
    reader: &mut R,
    writer: &mut W,
    protocol: Protocol,
    shape: Shape,
    input: Input,
    grouping: Grouping,
) -> Result<(), SimFault>
    ensures does { SimulatesView protocol shape input (grouped_counts protocol shape grouping) (R.remaining reader.old) result (W.contents writer.old) (W.contents writer.new) }
    ensures unwritten { (fault : TextFault) → result ≡ Err (SimFault.Text fault) → writer.new ≡ writer.old }
    ensures reads { R.never_fails ≡ true → result ≢ Err (SimFault.Text text_fault.Read) }
    ensures writes { W.never_fails ≡ true → result ≢ Err SimFault.Write }
    ensures read_blamed { BlamesReader (R.failed reader.old) (R.failed reader.new) (result ≡ Err (SimFault.Text text_fault.Read)) }
    ensures blamed { BlamesWriter (W.failed writer.old) (W.failed writer.new) (result ≡ Err SimFault.Write) }
{
    match grouping {
        Grouping::Row => simulate_counts(alloc, reader, writer, protocol, shape, input),
        Grouping::Core => simulate_counts_by_core(alloc, reader, writer, protocol, shape, input),
        Grouping::Block(top) => {
            simulate_counts_by_block(alloc, reader, writer, protocol, shape, input, top)
        }
        Grouping::Word => simulate_counts_by_word(alloc, reader, writer, protocol, shape, input),
        Grouping::Steps(every) => {
            simulate_counts_by_steps(alloc, reader, writer, protocol, shape, input, every)
        }
    }
}

fn write_help<W: Sink>(alloc: Global, writer: &mut W, help: &clap::Error) -> Result<(), SimFault>
    ensures does { (text : List ℕ) × WritesText text result (W.contents writer.old) (W.contents writer.new) }
    ensures never_blamed { IfErr result (λ fault. W.never_fails ≡ true → fault ≢ SimFault.Write) }
    ensures blamed { BlamesWriter (W.failed writer.old) (W.failed writer.new) (result ≡ Err SimFault.Write) }
{
    let Ok(text) = format!(in alloc; "{help}") else {
        return Err(SimFault::NoMemory);
    };
    write_whole(writer, text.as_bytes())?;
    Ok(())
}

/// Writes why the program failed, and returns the status. A failed write does not change the status.
fn report<E: Write>(errors: &mut E, failure: &Failure) -> u8
    ensures { result ≡ status_of failure.now }
{
    let mut errors = Once(errors);
    let _ = match failure {
        Failure::CommandLine(error) => write!(errors, "{error}"),
        _ => writeln!(errors, "snoop: {failure}"),
    };
    failure.status()
}

/// A stream whose failed write is not tried again.
#[derive(Drop)]
struct Once<'a, E>(&'a mut E);

impl<E: Write> Write for Once<'_, E> {
    fn write(&mut self, buf: &[u8]) -> io::Result<usize> {
        self.0
            .write(buf)
            .map_err(|_| io::Error::from(ErrorKind::Other))
    }

    fn flush(&mut self) -> io::Result<()> {
        self.0.flush()
    }
}
