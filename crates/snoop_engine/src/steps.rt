//! The command `steps`, the loop that writes the lines of a course and then the report, and the course of steps that are all known
//! before the first is taken.
ghost use Rattle.std.specs.Prelude.{◌≡◌, ◌≢◌, length, true, Err, OnErr, OnOk};
ghost use Rattle.std.specs.Io.KnownBytes.{Appends};
ghost use Rattle.snoop_trace.specs.Output.{AppendsFront, BlamesWriter};
ghost use Rattle.snoop_trace.specs.Text.{BlamesReader};
ghost use Rattle.snoop_trace.specs.declared.fault.TextFault.{TextFault};
ghost use Rattle.snoop_trace.specs.declared.fault.TextFault.TheVariants as text_fault;
ghost use Rattle.snoop_model.specs.Pictures.Situation.{reset};
ghost use Rattle.snoop_engine.specs.Courses.{CanEnd, FindsListed, LeadsListed, LeadsToEndWith};
ghost use Rattle.snoop_engine.specs.Simulated.{Simulates};
ghost use Rattle.snoop_engine.specs.Written.{run_text};

use crate::course::Course;
use crate::fault::SimFault;
use crate::lines::push_line;
use crate::packed::StepQueue;
use crate::script::Script;
use snoop_history::write_report;
use snoop_machine::{Machine, Refused, Reply};
use snoop_rules::Protocol;
use snoop_trace::streams::{Sink, Source, gather_steps, spill, write_whole};
use snoop_trace::{NoMemory, Shape, Step, WriteFault};
use std::alloc::Global;

/// Reads a text of steps for the protocol and the shape to its end, runs them in order on a machine at reset, and writes the
/// line of each and then the report. A step that is refused for lack of memory ends the simulation. Faults are as `SimFault`
/// says.
pub fn simulate_steps<R: Source, W: Sink>(
    alloc: Global,
    reader: &mut R,
    writer: &mut W,
    protocol: Protocol,
    shape: Shape,
) -> Result<(), SimFault>
    ensures does { Simulates protocol shape (R.remaining reader.old) result (W.contents writer.old) (W.contents writer.new) }
    // A refused text leaves the writer as it was.
    ensures unwritten { (fault : TextFault) → result ≡ Err (SimFault.Text fault) → writer.new ≡ writer.old }

    // A reader or a writer whose contract rules failure out is never blamed.
    ensures reads { R.never_fails ≡ true → result ≢ Err (SimFault.Text text_fault.Read) }
    ensures writes { W.never_fails ≡ true → result ≢ Err SimFault.Write }
    // Where it is known that none of its reads or writes had failed, it is blamed exactly where one fails, and none is tried again.
    ensures read_blamed { BlamesReader (R.failed reader.old) (R.failed reader.new) (result ≡ Err (SimFault.Text text_fault.Read)) }
    ensures blamed { BlamesWriter (W.failed writer.old) (W.failed writer.new) (result ≡ Err SimFault.Write) }
{
    let steps = gather_steps(alloc, reader, protocol, shape, StepQueue::new(alloc))?;
    let Ok(machine) = Machine::reset(alloc, protocol, shape) else {
        return Err(SimFault::NoMemory);
    };
    let mut course = Listed {
        machine,
        script: steps,
    };
    write_lines(alloc, writer, shape, &mut course)?;
    Ok(())
}

/// Takes the steps of a course from reset to its end, on a machine of this shape, and writes the line of each and then the report.
pub(crate) fn write_lines<W: Sink, C: Course>(
    alloc: Global,
    writer: &mut W,
    shape: Shape,
    course: &mut C,
) -> Result<(), WriteFault>
    requires reset { let s = C.situation course.old in s ≡ reset s.protocol shape }
    requires can_end { CanEnd (C.leads course.old) }
    ensures ok { OnOk result (LeadsToEndWith (C.leads course.old) (λ steps outcomes final. Appends (W.contents writer.old) (W.contents writer.new) (run_text shape steps outcomes final))) }
    ensures front { OnErr result (LeadsToEndWith (C.leads course.old) (λ steps outcomes final. AppendsFront (W.contents writer.old) (W.contents writer.new) (run_text shape steps outcomes final))) }
    ensures never_blamed { W.never_fails ≡ true → result ≢ Err WriteFault.Write }
    ensures blamed { BlamesWriter (W.failed writer.old) (W.failed writer.new) (result ≡ Err WriteFault.Write) }
{
    let mut chunk = Vec::new(alloc);
    while let Some(step) = course.find() {
        let outcome = course.take(step)?;
        push_line(&mut chunk, shape, step, outcome)?;
        spill(writer, &mut chunk)?;
    }
    write_whole(writer, &chunk)?;
    write_report(alloc, writer, course.machine().log())?;
    Ok(())
}

/// Steps that are all known before the first is taken.
#[derive(Drop)]
pub(crate) struct Listed<S> {
    pub(crate) machine: Machine,
    pub(crate) script: S,
}

impl<S: Script + Drop> Course for Listed<S> {
    ghost situation = { λ l. l.machine.situation };

    ghost leads = { λ l steps outcomes final. LeadsListed (S.steps l.script) l.machine.situation steps outcomes final };

    ghost left = { λ l. length (S.steps l.script) };

    ghost finds = { λ before step now. FindsListed (S.steps before.script) before.machine.situation step (S.steps now.script) now.machine.situation };

    fn machine(&self) -> &Machine {
        &self.machine
    }

    fn find(&mut self) -> Option<Step> {
        self.script.take_first()
    }

    #[inline(always)]
    fn take(&mut self, step: Step) -> Result<Result<Reply, Refused>, NoMemory> {
        match self.machine.step(step) {
            Err(Refused::NoMemory) => Err(NoMemory),
            outcome => Ok(outcome),
        }
    }
}
