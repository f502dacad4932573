//! The command `threads`: the rows of a text, each core's in a thread of its own.
ghost use Rattle.std.specs.Prelude.{◌≡◌, ◌≢◌, true, All, Err, None, IfErr, IfOk, OnOk};
ghost use Rattle.snoop_cores.specs.Seats.{AreSeats};
ghost use Rattle.snoop_trace.specs.Grammar.{IsRowWithin};
ghost use Rattle.snoop_trace.specs.Output.{BlamesWriter};
ghost use Rattle.snoop_trace.specs.Text.{BlamesReader};
ghost use Rattle.snoop_trace.specs.declared.fault.TextFault.TheVariants as text_fault;
ghost use Rattle.snoop_sim.specs.Threaded.{SimulatesThreads, Threaded};
ghost use Rattle.snoop_cores.specs.Rows.{IsNotLate};
ghost use Rattle.snoop_sim.specs.ThreadsFault.{IsBeforeWriting, IsOfThreads, IsOfFirstStop};

use crate::fault::ThreadsFault;
use snoop_cores::{Free, Seat, Shared, Stop, end_seats, gather, run_seats};
use snoop_rules::Protocol;
use snoop_trace::streams::{Sink, Source};
use snoop_trace::{Row, Shape, Step, WriteFault, read_rows, write_steps};
use std::alloc::Global;
use std::sync::Wait;
use std::thread::Threads;

/// Reads a text of rows to its end, and lets each core do its rows in a thread of its own, in the order of the text, on a shared
/// machine at reset. Writes the steps that were taken as a text: first the protocol and the shape that they are for, then one step a
/// line. The order in which the threads took them is unspecified.
///
/// After `Write` the writer holds a beginning of the steps. After every other fault, where the text or the threads were refused,
/// it is as it was.
pub fn simulate_threads<T: Threads + Wait + Sync, R: Source, W: Sink>(
    rt: &T,
    alloc: Global,
    reader: &mut R,
    writer: &mut W,
    protocol: Protocol,
    shape: Shape,
) -> Result<(), ThreadsFault>
    ensures does { SimulatesThreads protocol shape (R.remaining reader.old) result (W.contents writer.old) (W.contents writer.new) }
    // A refused text and refused threads leave the writer as it was.
    ensures unwritten { IfErr result (λ fault. IsBeforeWriting fault → writer.new ≡ writer.old) }

    // A reader or a writer whose contract rules failure out is never blamed.
    ensures reads { R.never_fails ≡ true → result ≢ Err (ThreadsFault.Text text_fault.Read) }
    ensures writes { W.never_fails ≡ true → result ≢ Err (ThreadsFault.Write WriteFault.Write) }
    // Where it is known that none of its reads or writes had failed, it is blamed exactly where one fails, and none is tried again.
    ensures read_blamed { BlamesReader (R.failed reader.old) (R.failed reader.new) (result ≡ Err (ThreadsFault.Text text_fault.Read)) }
    ensures blamed { BlamesWriter (W.failed writer.old) (W.failed writer.new) (result ≡ Err (ThreadsFault.Write WriteFault.Write)) }
{
    let rows = read_rows(alloc, reader, shape).map_err(ThreadsFault::Text)?;
    let steps = take_rows(rt, alloc, protocol, shape, rows)?;
    write_steps(alloc, writer, protocol, shape, &steps).map_err(ThreadsFault::Write)
}

/// The steps that threads take for the rows.
fn take_rows<T: Threads + Wait + Sync>(
    rt: &T,
    alloc: Global,
    protocol: Protocol,
    shape: Shape,
    rows: Vec<Row>,
) -> Result<Vec<Step>, ThreadsFault>
    requires { All (IsRowWithin shape) rows.items }
    ensures ok { IfOk result (λ steps. Threaded protocol shape rows.items steps.items) }
    ensures err { IfErr result IsOfThreads }
{
    let (shared, mut seats, watches) = Shared::new(rt, alloc, protocol, shape, 0).map_err(
        ThreadsFault::Make,
    )?;
    watches.destroy_empty();
    let steps = take_seated(rt, alloc, &shared, &mut seats, &rows);
    end_seats(rt, seats);
    shared.end(rt);
    steps
}

/// Lets each seat do its rows, and gathers the steps that were taken.
fn take_seated<T: Threads + Wait + Sync>(
    rt: &T,
    alloc: Global,
    shared: &Shared,
    seats: &mut [Seat],
    rows: &[Row],
) -> Result<Vec<Step>, ThreadsFault>
    requires seats { AreSeats shared.now.shape seats.old }
    requires rows { All (IsRowWithin shared.now.shape) rows.now }
    ensures ok { IfOk result (λ steps. Threaded shared.now.protocol shared.now.shape rows.now steps.items) }
    ensures err { IfErr result IsOfThreads }
{
    shared.shape().within_limits();
    let stops = run_seats(rt, alloc, seats, rows, &Free).map_err(ThreadsFault::Run)?;
    check_stops(&stops)?;
    let gathered = gather(rt, alloc, shared, seats).map_err(ThreadsFault::Gather)?;
    Ok(gathered.steps)
}

/// The fault of the first seat that stopped, which a gate did not stop.
fn check_stops(stops: &[Option<Stop>]) -> Result<(), ThreadsFault>
    requires { All IsNotLate stops.now }
    ensures ok { OnOk result (All (λ stop. stop ≡ None) stops.now) }
    ensures err { IfErr result (λ fault. IsOfFirstStop stops.now fault) }
{
    for stop in stops {
        match *stop {
            None => {}
            Some(Stop::Fault(_, fault)) => return Err(ThreadsFault::Seat(fault)),
            Some(Stop::Late(_)) => unreachable!(),
        }
    }
    Ok(())
}
