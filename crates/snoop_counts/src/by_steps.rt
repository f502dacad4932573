//! The counts of each group of `every` steps.
ghost use Rattle.std.specs.Prelude.{◌≡◌, ◌≢◌, ◌-◌, ◌++◌, ◌∷◌, [], true, Err, List, OnOk};
ghost use Rattle.std.specs.Int.NonZero.{non_zero_u64_get};
ghost use Rattle.snoop_trace.specs.Output.{BlamesWriter};
ghost use Rattle.snoop_trace.specs.Text.{BlamesReader};
ghost use Rattle.snoop_trace.specs.declared.fault.TextFault.{TextFault};
ghost use Rattle.snoop_trace.specs.declared.fault.TextFault.TheVariants as text_fault;
ghost use Rattle.snoop_engine.specs.SimulatedView.{SimulatesView};
ghost use Rattle.snoop_counts.specs.BySteps.{counts_by_steps, steps_fields};
ghost use Rattle.snoop_counts.specs.Tally.{HasCounted};
ghost use Rattle.snoop_counts.specs.declared.count.Happening.{Happening};
ghost use Rattle.snoop_counts.specs.declared.count.Subjects.TheVariants.{Machine as Whole};

use crate::core_table::{push_counts, push_header};
use crate::count::{MACHINE_COUNTS, Subjects};
use crate::counts::add_all;
use crate::tally::Tally;
use crate::watch::Watch;
use snoop_engine::{Input, Seen, SimFault, View, simulate_view};
use snoop_machine::Machine;
use snoop_rules::Protocol;
use snoop_trace::streams::{Sink, Source, push_byte, push_decimal};
use snoop_trace::{NoMemory, Shape};
use std::alloc::Global;
use std::num::NonZeroU64;

/// Counts each group of `every` steps; there are no counters before the run begins.
#[derive(Drop)]
struct BySteps {
    every: NonZeroU64,
    /// How many steps were seen.
    steps: u64,
    watch: Watch,
    /// What was counted of the steps since the last line.
    tally: Option<Tally>,
}

// The number of the first of `size` steps, by that of the last.
fn first_of(last: u64, size: u64) -> u64
    ensures { result ≡ last - (size - 1) }
{
    last.saturating_sub(size.saturating_sub(1))
}

// Appends the line of the steps from the first to the last.
fn push_steps(out: &mut Vec<u8>, tally: &Tally, first: u64, last: u64) -> Result<(), NoMemory>
    ensures { (seen : List Happening) → HasCounted Whole 1 seen tally.now
        → OnOk result (out.new.items ≡ out.old.items ++ steps_fields first last seen) }
{
    match tally.row(0) {
        None => Ok(()),
        Some(row) => {
            push_decimal(out, first)?;
            push_byte(out, b',')?;
            push_decimal(out, last)?;
            push_counts(out, &row, &MACHINE_COUNTS)?;
            push_byte(out, b'\n')
        }
    }
}

impl View for BySteps {
    ghost use Rattle.std.specs.Int.NonZero.{non_zero_u64_get};
    ghost use Rattle.snoop_counts.specs.BySteps.{steps_header, steps_left, steps_shown};
    ghost use Rattle.snoop_counts.specs.Views.{HasBegunBySteps};

    ghost has_seen = { λ first protocol shape frames now. HasBegunBySteps protocol shape frames first now };

    ghost heading = { λ first protocol shape. steps_header };

    ghost shows = { λ first protocol shape frames frame. steps_shown (non_zero_u64_get first.every) frames frame };

    ghost ending = { λ first protocol shape frames final. steps_left (non_zero_u64_get first.every) frames final };

    fn begin(&mut self, out: &mut Vec<u8>, _machine: &Machine) -> Result<(), NoMemory> {
        let alloc = *out.allocator();
        self.steps = 0;
        self.watch = Watch::new(alloc);
        self.tally = Some(Tally::new(alloc, Subjects::Machine, 1)?);
        push_header(out, "first,last", &MACHINE_COUNTS)
    }

    fn see(
        &mut self,
        out: &mut Vec<u8>,
        machine: &Machine,
        seen: Seen<'_>,
    ) -> Result<(), NoMemory> {
        self.watch.see(machine.log(), seen)?;
        self.steps = seen.number;
        let every = self.every.get();
        match &mut self.tally {
            None => Ok(()),
            Some(tally) => {
                add_all(tally, self.watch.happenings());
                if seen.number % every != 0 {
                    return Ok(());
                }
                push_steps(out, tally, first_of(seen.number, every), seen.number)?;
                tally.restart();
                Ok(())
            }
        }
    }

    fn end(&mut self, out: &mut Vec<u8>, _machine: &Machine) -> Result<(), NoMemory> {
        let left = self.steps % self.every.get();
        match &self.tally {
            Some(tally) if left > 0 => {
                push_steps(out, tally, first_of(self.steps, left), self.steps)
            }
            _ => Ok(()),
        }
    }
}

/// Reads a text to its end, runs the steps that it gives, in order, on a machine at reset for the protocol and the shape, and
/// writes the counts of the whole machine for each group of `every` steps; the last group may have fewer. A step that is refused
/// for lack of memory ends the simulation. Faults are as `SimFault` says.
pub fn simulate_counts_by_steps<R: Source, W: Sink>(
    alloc: Global,
    reader: &mut R,
    writer: &mut W,
    protocol: Protocol,
    shape: Shape,
    input: Input,
    every: NonZeroU64,
) -> Result<(), SimFault>
    ensures does { SimulatesView protocol shape input (counts_by_steps (non_zero_u64_get every)) (R.remaining reader.old) result (W.contents writer.old) (W.contents writer.new) }
    // A refused text leaves the writer as it was.
    ensures unwritten { (fault : TextFault) → result ≡ Err (SimFault.Text fault) → writer.new ≡ writer.old }

    // A reader or a writer whose contract rules failure out is never blamed.
    ensures reads { R.never_fails ≡ true → result ≢ Err (SimFault.Text text_fault.Read) }
    ensures writes { W.never_fails ≡ true → result ≢ Err SimFault.Write }
    // Where it is known that none of its reads or writes had failed, it is blamed exactly where one fails, and none is tried again.
    ensures read_blamed { BlamesReader (R.failed reader.old) (R.failed reader.new) (result ≡ Err (SimFault.Text text_fault.Read)) }
    ensures blamed { BlamesWriter (W.failed writer.old) (W.failed writer.new) (result ≡ Err SimFault.Write) }
{
    let mut view = BySteps {
        every,
        steps: 0,
        watch: Watch::new(alloc),
        tally: None,
    };
    simulate_view(alloc, reader, writer, protocol, shape, input, &mut view)
}
