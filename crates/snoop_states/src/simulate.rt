//! The call that reads a text and writes the tables of its run.
ghost use Rattle.std.specs.Prelude.{◌≡◌, ◌≢◌, true, Err, OnErr, OnOk};
ghost use Rattle.snoop_trace.specs.Output.{BlamesWriter};
ghost use Rattle.snoop_trace.specs.Text.{BlamesReader};
ghost use Rattle.snoop_trace.specs.declared.fault.TextFault.{TextFault};
ghost use Rattle.snoop_trace.specs.declared.fault.TextFault.TheVariants as text_fault;
ghost use Rattle.snoop_engine.specs.SimulatedView.{BeginsToShow, ShowsRun, SimulatesView};
ghost use Rattle.snoop_states.specs.Whole.{states_table_text};

use crate::tables::Tables;
use snoop_engine::{Choice, Input, SimFault, read_input, show_steps};
use snoop_trace::streams::{Sink, Source};
use snoop_trace::{Protocol, Shape, Step, WriteFault};
use std::alloc::Global;

/// Reads a text to its end, runs the steps that it gives, in order, on a machine at reset for the protocol and the shape, and
/// writes a table for each block that a chosen step is of, and then which cores still wait and which blocks have an open
/// transaction. A step that is refused for lack of memory ends the simulation. Faults are as `SimFault` says.
pub fn simulate_states_table<R: Source, W: Sink>(
    alloc: Global,
    reader: &mut R,
    writer: &mut W,
    protocol: Protocol,
    shape: Shape,
    input: Input,
    choice: Choice,
) -> Result<(), SimFault>
    ensures does { SimulatesView protocol shape input (states_table_text protocol shape choice) (R.remaining reader.old) result (W.contents writer.old) (W.contents writer.new) }
    // A refused text leaves the writer as it was.
    ensures unwritten { (fault : TextFault) → result ≡ Err (SimFault.Text fault) → writer.new ≡ writer.old }

    // A reader or a writer whose contract rules failure out is never blamed.
    ensures reads { R.never_fails ≡ true → result ≢ Err (SimFault.Text text_fault.Read) }
    ensures writes { W.never_fails ≡ true → result ≢ Err SimFault.Write }
    // Where it is known that none of its reads or writes had failed, it is blamed exactly where one fails, and none is tried again.
    ensures read_blamed { BlamesReader (R.failed reader.old) (R.failed reader.new) (result ≡ Err (SimFault.Text text_fault.Read)) }
    ensures blamed { BlamesWriter (W.failed writer.old) (W.failed writer.new) (result ≡ Err SimFault.Write) }
{
    let steps = read_input(alloc, reader, protocol, shape, input)?;
    write_tables(alloc, writer, protocol, shape, choice, &steps)?;
    Ok(())
}

/// Runs the steps on a machine at reset, and writes their tables.
fn write_tables<W: Sink>(
    alloc: Global,
    writer: &mut W,
    protocol: Protocol,
    shape: Shape,
    choice: Choice,
    steps: &[Step],
) -> Result<(), WriteFault>
    ensures ok { OnOk result (ShowsRun protocol shape (states_table_text protocol shape choice) steps.now (W.contents writer.old) (W.contents writer.new)) }
    ensures front { OnErr result (BeginsToShow protocol shape (states_table_text protocol shape choice) steps.now (W.contents writer.old) (W.contents writer.new)) }
    ensures never_blamed { W.never_fails ≡ true → result ≢ Err WriteFault.Write }
    ensures blamed { BlamesWriter (W.failed writer.old) (W.failed writer.new) (result ≡ Err WriteFault.Write) }
{
    let mut view = Tables::new(alloc, shape, choice, steps)?;
    show_steps(alloc, writer, protocol, shape, steps, &mut view)
}
