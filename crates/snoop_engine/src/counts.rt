//! The command `counts`: the steps of a text, and how often each row of the tables was taken.
ghost use Rattle.std.specs.Prelude.{◌≡◌, ◌≢◌, [], true, Err};
ghost use Rattle.snoop_trace.specs.Output.{BlamesWriter};
ghost use Rattle.snoop_trace.specs.Text.{BlamesReader};
ghost use Rattle.snoop_trace.specs.declared.fault.TextFault.{TextFault};
ghost use Rattle.snoop_trace.specs.declared.fault.TextFault.TheVariants as text_fault;
ghost use Rattle.snoop_engine.specs.Counts.{all_lines, frames_counts_text};
ghost use Rattle.snoop_engine.specs.SimulatedView.{SimulatesView};
ghost use Rattle.snoop_engine.specs.Tallies.{Tallies};

use crate::counts_text::push_counts;
use crate::fault::SimFault;
use crate::input::Input;
use crate::seen::Seen;
use crate::show::simulate_view;
use crate::tally::Tally;
use crate::view::View;
use snoop_machine::Machine;
use snoop_rules::Protocol;
use snoop_trace::streams::{Sink, Source};
use snoop_trace::{NoMemory, Shape};
use std::alloc::Global;

/// Reads a text to its end, runs the steps that it gives, in order, on a machine at reset for the protocol and the shape, and
/// writes how often each row of the tables was taken, but for the rows of I at another core's request. A step that is refused
/// for lack of memory ends the simulation. Faults are as `SimFault` says.
pub fn simulate_counts<R: Source, W: Sink>(
    alloc: Global,
    reader: &mut R,
    writer: &mut W,
    protocol: Protocol,
    shape: Shape,
    input: Input,
) -> Result<(), SimFault>
    ensures does { SimulatesView protocol shape input (λ frames final. frames_counts_text protocol frames) (R.remaining reader.old) result (W.contents writer.old) (W.contents writer.new) }
    // A refused text leaves the writer as it was.
    ensures unwritten { (fault : TextFault) → result ≡ Err (SimFault.Text fault) → writer.new ≡ writer.old }

    // A reader or a writer whose contract rules failure out is never blamed.
    ensures reads { R.never_fails ≡ true → result ≢ Err (SimFault.Text text_fault.Read) }
    ensures writes { W.never_fails ≡ true → result ≢ Err SimFault.Write }
    // Where it is known that none of its reads or writes had failed, it is blamed exactly where one fails, and none is tried again.
    ensures read_blamed { BlamesReader (R.failed reader.old) (R.failed reader.new) (result ≡ Err (SimFault.Text text_fault.Read)) }
    ensures blamed { BlamesWriter (W.failed writer.old) (W.failed writer.new) (result ≡ Err SimFault.Write) }
{
    let mut tally = Tally::new();
    simulate_view(alloc, reader, writer, protocol, shape, input, &mut tally)
}

/// The view of a run as counts: nothing is written before its end.
impl View for Tally {
    ghost has_seen = { λ first protocol shape frames now. Tallies now.counters (all_lines frames) };

    ghost heading = { λ view protocol shape. [] };

    ghost shows = { λ view protocol shape frames frame. [] };

    ghost ending = { λ view protocol shape frames final. frames_counts_text protocol frames };

    fn begin(&mut self, _: &mut Vec<u8>, _: &Machine) -> Result<(), NoMemory> {
        *self = Tally::new();
        Ok(())
    }

    fn see(&mut self, _: &mut Vec<u8>, _: &Machine, seen: Seen<'_>) -> Result<(), NoMemory> {
        self.add_all(seen.lines);
        Ok(())
    }

    #[tactic(auto, using(crate::proofs::ViewLemmas::text_of_frames))]
    fn end(&mut self, out: &mut Vec<u8>, machine: &Machine) -> Result<(), NoMemory> {
        push_counts(out, machine.protocol(), self)
    }
}
