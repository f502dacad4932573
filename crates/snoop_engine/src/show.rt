//! The loop that shows a run to a view.
ghost use Rattle.std.specs.Prelude.{◌≡◌, ◌≢◌, ◌+◌, true, Err, IfOk, OnOk, OnErr};
ghost use Rattle.snoop_trace.specs.Output.{BlamesWriter};
ghost use Rattle.snoop_trace.specs.Text.{BlamesReader};
ghost use Rattle.snoop_trace.specs.declared.fault.TextFault.{TextFault};
ghost use Rattle.snoop_trace.specs.declared.fault.TextFault.TheVariants as text_fault;
ghost use Rattle.snoop_model.specs.Pictures.Situation.{reset};
ghost use Rattle.snoop_engine.specs.Courses.{CanEnd, LeadsToEndWith};
ghost use Rattle.snoop_engine.specs.SimulatedView.{BeginsToShow, ShowsRun, SimulatesView};
ghost use Rattle.snoop_engine.specs.Views.{view_text};

use crate::course::Course;
use crate::fault::SimFault;
use crate::gather::read_driver;
use crate::input::Input;
use crate::packed::StepQueue;
use crate::possible_holders::PossibleHolders;
use crate::script::Script;
use crate::seen::Seen;
use crate::serial_driver::SerialDriver;
use crate::steps::Listed;
use crate::taken::{block_of, head_for, take_step};
use crate::view::View;
use snoop_machine::Machine;
use snoop_rules::Protocol;
use snoop_trace::streams::{Sink, Source, gather_steps, spill, write_whole};
use snoop_trace::{NoMemory, Shape, Step, TextFault, WriteFault, read_rows};
use std::alloc::Global;

/// Reads a text to its end, runs the steps that it gives, in order, on a machine at reset for the protocol and the shape, and
/// writes what the view shows of them. A step that is refused for lack of memory ends the simulation. Faults are as `SimFault`
/// says.
pub fn simulate_view<R: Source, W: Sink, V: View>(
    alloc: Global,
    reader: &mut R,
    writer: &mut W,
    protocol: Protocol,
    shape: Shape,
    input: Input,
    view: &mut V,
) -> Result<(), SimFault>
    ensures does { SimulatesView protocol shape input (view_text (V.heading view.old protocol shape) (V.shows view.old protocol shape) (V.ending view.old protocol shape)) (R.remaining reader.old) result (W.contents writer.old) (W.contents writer.new) }
    // A refused text leaves the writer as it was.
    ensures unwritten { (fault : TextFault) → result ≡ Err (SimFault.Text fault) → writer.new ≡ writer.old }

    // A reader or a writer whose contract rules failure out is never blamed.
    ensures reads { R.never_fails ≡ true → result ≢ Err (SimFault.Text text_fault.Read) }
    ensures writes { W.never_fails ≡ true → result ≢ Err SimFault.Write }
    // Where it is known that none of its reads or writes had failed, it is blamed exactly where one fails, and none is tried again.
    ensures read_blamed { BlamesReader (R.failed reader.old) (R.failed reader.new) (result ≡ Err (SimFault.Text text_fault.Read)) }
    ensures blamed { BlamesWriter (W.failed writer.old) (W.failed writer.new) (result ≡ Err SimFault.Write) }
{
    match input {
        Input::Steps => view_steps(alloc, reader, writer, protocol, shape, view),
        Input::Rows => view_rows(alloc, reader, writer, protocol, shape, view),
        Input::SerialRows => view_serial_rows(alloc, reader, writer, protocol, shape, view),
    }
}

/// Shows the steps of a text.
#[tactic(auto, using(crate::proofs::ShownLemmas::view_faulted))]
fn view_steps<R: Source, W: Sink, V: View>(
    alloc: Global,
    reader: &mut R,
    writer: &mut W,
    protocol: Protocol,
    shape: Shape,
    view: &mut V,
) -> Result<(), SimFault>
    ensures does { SimulatesView protocol shape Input.Steps (view_text (V.heading view.old protocol shape) (V.shows view.old protocol shape) (V.ending view.old protocol shape)) (R.remaining reader.old) result (W.contents writer.old) (W.contents writer.new) }
    ensures unwritten { (fault : TextFault) → result ≡ Err (SimFault.Text fault) → writer.new ≡ writer.old }
    ensures reads { R.never_fails ≡ true → result ≢ Err (SimFault.Text text_fault.Read) }
    ensures writes { W.never_fails ≡ true → result ≢ Err SimFault.Write }
    ensures read_blamed { BlamesReader (R.failed reader.old) (R.failed reader.new) (result ≡ Err (SimFault.Text text_fault.Read)) }
    ensures blamed { BlamesWriter (W.failed writer.old) (W.failed writer.new) (result ≡ Err SimFault.Write) }
{
    let script = gather_steps(alloc, reader, protocol, shape, StepQueue::new(alloc))?;
    show_script(alloc, writer, protocol, shape, script, view)?;
    Ok(())
}

/// Shows the steps that serve the rows of a text, whose cores go side by side.
fn view_rows<R: Source, W: Sink, V: View>(
    alloc: Global,
    reader: &mut R,
    writer: &mut W,
    protocol: Protocol,
    shape: Shape,
    view: &mut V,
) -> Result<(), SimFault>
    ensures does { SimulatesView protocol shape Input.Rows (view_text (V.heading view.old protocol shape) (V.shows view.old protocol shape) (V.ending view.old protocol shape)) (R.remaining reader.old) result (W.contents writer.old) (W.contents writer.new) }
    ensures unwritten { (fault : TextFault) → result ≡ Err (SimFault.Text fault) → writer.new ≡ writer.old }
    ensures reads { R.never_fails ≡ true → result ≢ Err (SimFault.Text text_fault.Read) }
    ensures writes { W.never_fails ≡ true → result ≢ Err SimFault.Write }
    ensures read_blamed { BlamesReader (R.failed reader.old) (R.failed reader.new) (result ≡ Err (SimFault.Text text_fault.Read)) }
    ensures blamed { BlamesWriter (W.failed writer.old) (W.failed writer.new) (result ≡ Err SimFault.Write) }
{
    let mut driver = read_driver(alloc, reader, protocol, shape)?;
    show(alloc, writer, shape, &mut driver, view)?;
    Ok(())
}

/// Shows the steps that serve the rows of a text one after another.
fn view_serial_rows<R: Source, W: Sink, V: View>(
    alloc: Global,
    reader: &mut R,
    writer: &mut W,
    protocol: Protocol,
    shape: Shape,
    view: &mut V,
) -> Result<(), SimFault>
    ensures does { SimulatesView protocol shape Input.SerialRows (view_text (V.heading view.old protocol shape) (V.shows view.old protocol shape) (V.ending view.old protocol shape)) (R.remaining reader.old) result (W.contents writer.old) (W.contents writer.new) }
    ensures unwritten { (fault : TextFault) → result ≡ Err (SimFault.Text fault) → writer.new ≡ writer.old }
    ensures reads { R.never_fails ≡ true → result ≢ Err (SimFault.Text text_fault.Read) }
    ensures writes { W.never_fails ≡ true → result ≢ Err SimFault.Write }
    ensures read_blamed { BlamesReader (R.failed reader.old) (R.failed reader.new) (result ≡ Err (SimFault.Text text_fault.Read)) }
    ensures blamed { BlamesWriter (W.failed writer.old) (W.failed writer.new) (result ≡ Err SimFault.Write) }
{
    let rows = read_rows(alloc, reader, shape)?;
    let Ok(mut driver) = SerialDriver::new(alloc, protocol, shape, &rows) else {
        return Err(SimFault::Text(TextFault::NoMemory));
    };
    show(alloc, writer, shape, &mut driver, view)?;
    Ok(())
}

/// Runs the steps in order on a machine at reset, and writes what the view shows of them. A step that is refused for lack of
/// memory ends the simulation. After a fault a beginning of that output was written, which may be empty.
pub fn show_steps<W: Sink, V: View>(
    alloc: Global,
    writer: &mut W,
    protocol: Protocol,
    shape: Shape,
    steps: &[Step],
    view: &mut V,
) -> Result<(), WriteFault>
    ensures ok { OnOk result (ShowsRun protocol shape (view_text (V.heading view.old protocol shape) (V.shows view.old protocol shape) (V.ending view.old protocol shape)) steps.now (W.contents writer.old) (W.contents writer.new)) }
    ensures front { OnErr result (BeginsToShow protocol shape (view_text (V.heading view.old protocol shape) (V.shows view.old protocol shape) (V.ending view.old protocol shape)) steps.now (W.contents writer.old) (W.contents writer.new)) }
    // A writer whose contract rules failure out is never blamed.
    ensures never_blamed { W.never_fails ≡ true → result ≢ Err WriteFault.Write }
    // Where it is known that no write had failed, it is blamed exactly where one fails, and none is tried again.
    ensures blamed { BlamesWriter (W.failed writer.old) (W.failed writer.new) (result ≡ Err WriteFault.Write) }
{
    show_script(alloc, writer, protocol, shape, steps, view)
}

/// Takes the steps of a script on a machine at reset, and writes what the view shows of them.
fn show_script<W: Sink, S: Script + Drop, V: View>(
    alloc: Global,
    writer: &mut W,
    protocol: Protocol,
    shape: Shape,
    script: S,
    view: &mut V,
) -> Result<(), WriteFault>
    ensures ok { OnOk result (ShowsRun protocol shape (view_text (V.heading view.old protocol shape) (V.shows view.old protocol shape) (V.ending view.old protocol shape)) (S.steps script) (W.contents writer.old) (W.contents writer.new)) }
    ensures front { OnErr result (BeginsToShow protocol shape (view_text (V.heading view.old protocol shape) (V.shows view.old protocol shape) (V.ending view.old protocol shape)) (S.steps script) (W.contents writer.old) (W.contents writer.new)) }
    ensures never_blamed { W.never_fails ≡ true → result ≢ Err WriteFault.Write }
    ensures blamed { BlamesWriter (W.failed writer.old) (W.failed writer.new) (result ≡ Err WriteFault.Write) }
{
    let machine = Machine::reset(alloc, protocol, shape)?;
    let mut course = Listed { machine, script };
    show(alloc, writer, shape, &mut course, view)
}

/// Takes the steps of a course from reset to its end, on a machine of this shape, and writes what the view shows of them.
fn show<W: Sink, C: Course, V: View>(
    alloc: Global,
    writer: &mut W,
    shape: Shape,
    course: &mut C,
    view: &mut V,
) -> Result<(), WriteFault>
    requires reset { let s = C.situation course.old in s ≡ reset s.protocol shape }
    requires can_end { CanEnd (C.leads course.old) }
    ensures ok { let s = C.situation course.old in OnOk result (LeadsToEndWith (C.leads course.old) (λ steps _ _. ShowsRun s.protocol shape (view_text (V.heading view.old s.protocol shape) (V.shows view.old s.protocol shape) (V.ending view.old s.protocol shape)) steps (W.contents writer.old) (W.contents writer.new))) }
    ensures front { let s = C.situation course.old in OnErr result (LeadsToEndWith (C.leads course.old) (λ steps _ _. BeginsToShow s.protocol shape (view_text (V.heading view.old s.protocol shape) (V.shows view.old s.protocol shape) (V.ending view.old s.protocol shape)) steps (W.contents writer.old) (W.contents writer.new))) }
    ensures never_blamed { W.never_fails ≡ true → result ≢ Err WriteFault.Write }
    ensures blamed { BlamesWriter (W.failed writer.old) (W.failed writer.new) (result ≡ Err WriteFault.Write) }
{
    let mut possible_holders = PossibleHolders::new(alloc, shape.blocks())?;
    let mut chunk = Vec::new(alloc);
    let mut lines = Vec::new(alloc);
    let mut number = 0;
    view.begin(&mut chunk, course.machine())?;
    while let Some(step) = course.find() {
        number = next_number(number)?;
        lines.clear();
        let head = head_for(course.machine(), step);
        let block = block_of(step, head);
        let outcome = take_step(&mut lines, course, &mut possible_holders, step, head)?;
        let seen = Seen {
            number,
            step,
            block,
            outcome,
            lines: &lines,
        };
        view.see(&mut chunk, course.machine(), seen)?;
        spill(writer, &mut chunk)?;
    }
    view.end(&mut chunk, course.machine())?;
    write_whole(writer, &chunk)?;
    Ok(())
}

/// The number of the next step; `NoMemory` past the largest `u64`, which no run reaches.
fn next_number(number: u64) -> Result<u64, NoMemory>
    ensures { IfOk result (λ next. next ≡ number + 1) }
{
    number.checked_add(1).ok_or(NoMemory)
}
