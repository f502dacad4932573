//! The command `states`: the steps of a text, and the states that each controller went through.
ghost use Rattle.std.specs.Prelude.{◌≡◌, ◌≢◌, ◌+◌, ◌++◌, [], true, Err, OnOk, length};
ghost use Rattle.std.specs.List.{flat_map};
ghost use Rattle.snoop_trace.specs.Output.{BlamesWriter};
ghost use Rattle.snoop_trace.specs.Text.{BlamesReader};
ghost use Rattle.snoop_trace.specs.declared.fault.TextFault.{TextFault};
ghost use Rattle.snoop_trace.specs.declared.fault.TextFault.TheVariants as text_fault;
ghost use Rattle.snoop_engine.specs.SimulatedView.{SimulatesView};
ghost use Rattle.snoop_engine.specs.States.{header_text, shown_text, states_text, step_fields, taken_text};

use crate::choice::Choice;
use crate::fault::SimFault;
use crate::input::Input;
use crate::seen::Seen;
use crate::show::simulate_view;
use crate::taken::Taken;
use crate::taken_text::{push_step_fields, push_taken};
use crate::view::View;
use snoop_machine::Machine;
use snoop_rules::Protocol;
use snoop_trace::streams::{Sink, Source, push_text};
use snoop_trace::{NoMemory, Shape};
use std::alloc::Global;

/// Reads a text to its end, runs the steps that it gives, in order, on a machine at reset for the protocol and the shape, and
/// writes a line for each controller that takes a row of its table at one of the steps that are shown, but for cores in I at an
/// Order, and a line for a step at which no controller takes one. A step that is refused for lack of memory ends the simulation.
/// Faults are as `SimFault` says.
pub fn simulate_states<R: Source, W: Sink>(
    alloc: Global,
    reader: &mut R,
    writer: &mut W,
    protocol: Protocol,
    shape: Shape,
    input: Input,
    choice: Choice,
) -> Result<(), SimFault>
    ensures does { SimulatesView protocol shape input (λ frames final. states_text shape choice frames) (R.remaining reader.old) result (W.contents writer.old) (W.contents writer.new) }
    // A refused text leaves the writer as it was.
    ensures unwritten { (fault : TextFault) → result ≡ Err (SimFault.Text fault) → writer.new ≡ writer.old }

    // A reader or a writer whose contract rules failure out is never blamed.
    ensures reads { R.never_fails ≡ true → result ≢ Err (SimFault.Text text_fault.Read) }
    ensures writes { W.never_fails ≡ true → result ≢ Err SimFault.Write }
    // Where it is known that none of its reads or writes had failed, it is blamed exactly where one fails, and none is tried again.
    ensures read_blamed { BlamesReader (R.failed reader.old) (R.failed reader.new) (result ≡ Err (SimFault.Text text_fault.Read)) }
    ensures blamed { BlamesWriter (W.failed writer.old) (W.failed writer.new) (result ≡ Err SimFault.Write) }
{
    let mut view = States {
        choice,
        fields: Vec::new(alloc),
    };
    simulate_view(alloc, reader, writer, protocol, shape, input, &mut view)
}

/// The view of a run as its states: the names of the fields, and then the lines of each step that is shown.
#[derive(Drop)]
struct States {
    choice: Choice,
    // The fields of the step itself, which stand in each of its lines.
    fields: Vec<u8>,
}

impl States {
    // Appends the lines of a step, as the machine is after it.
    fn push_seen(
        &mut self,
        out: &mut Vec<u8>,
        machine: &Machine,
        seen: Seen<'_>,
    ) -> Result<(), NoMemory>
        ensures choice { self.new.choice ≡ self.old.choice }
        ensures lines { OnOk result (out.new.items ≡ out.old.items
            ++ flat_map (λ taken. step_fields machine.now.situation.shape seen.entry.number seen.entry.step seen.entry.outcome ++ taken_text machine.now.situation taken) seen.entry.lines.now) }
    {
        self.fields.clear();
        let shape = machine.shape();
        push_step_fields(
            &mut self.fields,
            shape,
            seen.number,
            seen.step,
            seen.outcome,
        )?;
        push_lines(out, machine, &self.fields, seen.lines)
    }
}

impl View for States {
    ghost has_seen = { λ first protocol shape frames now. now.choice ≡ first.choice };

    ghost heading = { λ view protocol shape. header_text };

    ghost shows = { λ view protocol shape frames frame. shown_text shape view.choice (1 + length frames) frame };

    ghost ending = { λ view protocol shape frames final. [] };

    fn begin(&mut self, out: &mut Vec<u8>, _: &Machine) -> Result<(), NoMemory> {
        push_text(
            out,
            "step,record,reply,block,controller,event,before,action,after,value,place\n",
        )
    }

    #[tactic(auto, using(crate::proofs::ViewLemmas::text_shown, crate::proofs::ViewLemmas::text_hidden))]
    fn see(
        &mut self,
        out: &mut Vec<u8>,
        machine: &Machine,
        seen: Seen<'_>,
    ) -> Result<(), NoMemory> {
        if self.choice.has_step(seen.block, seen.number) {
            self.push_seen(out, machine, seen)
        } else {
            Ok(())
        }
    }

    fn end(&mut self, _: &mut Vec<u8>, _: &Machine) -> Result<(), NoMemory> {
        Ok(())
    }
}

/// Appends the lines of a step, each with these fields before its own, as the machine is after the step.
fn push_lines(
    out: &mut Vec<u8>,
    machine: &Machine,
    fields: &[u8],
    lines: &[Taken],
) -> Result<(), NoMemory>
    ensures { OnOk result (out.new.items ≡ out.old.items ++ flat_map (λ taken. fields.now ++ taken_text machine.now.situation taken) lines.now) }
{
    for taken in lines {
        out.extend_from_slice(fields).map_err(|_| NoMemory)?;
        push_taken(out, machine, *taken)?;
    }
    Ok(())
}
