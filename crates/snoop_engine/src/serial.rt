//! The command `run --serial`: the rows of a text in its order, each served whole before the next one is asked.
ghost use Rattle.std.specs.Prelude.{◌≡◌, ◌≢◌, true, Err};
ghost use Rattle.snoop_trace.specs.Output.{BlamesWriter};
ghost use Rattle.snoop_trace.specs.Text.{BlamesReader};
ghost use Rattle.snoop_trace.specs.declared.fault.TextFault.TheVariants as text_fault;
ghost use Rattle.snoop_engine.specs.SimulatedSerial.{SimulatesSerial};

use crate::fault::SimFault;
use crate::serial_driver::SerialDriver;
use crate::steps::write_lines;
use snoop_rules::Protocol;
use snoop_trace::streams::{Sink, Source};
use snoop_trace::{Shape, TextFault, read_rows};
use std::alloc::Global;

/// Reads a text of rows to its end, and serves them in the order of the text on a machine at reset, each whole before the
/// next one is asked, whichever core's it is. Writes the line of each step and then the report.
///
/// Out of memory before the first step is `Text(NoMemory)`: nothing is written then. Faults are as
/// `SimFault` says.
pub fn simulate_serial<R: Source, W: Sink>(
    alloc: Global,
    reader: &mut R,
    writer: &mut W,
    protocol: Protocol,
    shape: Shape,
) -> Result<(), SimFault>
    ensures does { SimulatesSerial protocol shape (R.remaining reader.old) result (W.contents writer.old) (W.contents writer.new) }
    // After a fault of the text, or out of memory before the first step, the writer is as it was.
    ensures unwritten { (fault : TextFault) → result ≡ Err (SimFault.Text fault) → writer.new ≡ writer.old }

    // A reader or a writer whose contract rules failure out is never blamed.
    ensures reads { R.never_fails ≡ true → result ≢ Err (SimFault.Text text_fault.Read) }
    ensures writes { W.never_fails ≡ true → result ≢ Err SimFault.Write }
    // Where it is known that none of its reads or writes had failed, it is blamed exactly where one fails, and none is tried again.
    ensures read_blamed { BlamesReader (R.failed reader.old) (R.failed reader.new) (result ≡ Err (SimFault.Text text_fault.Read)) }
    ensures blamed { BlamesWriter (W.failed writer.old) (W.failed writer.new) (result ≡ Err SimFault.Write) }
{
    let rows = read_rows(alloc, reader, shape)?;
    let Ok(mut driver) = SerialDriver::new(alloc, protocol, shape, &rows) else {
        return Err(SimFault::Text(TextFault::NoMemory));
    };
    write_lines(alloc, writer, shape, &mut driver)?;
    Ok(())
}
