//! The view of the counts of a whole run, which are written as a table at its end.
ghost use Rattle.std.specs.Prelude.{◌≡◌, ◌≢◌, ◌++◌, [], true, Err, IfOk, List, OnOk, ℕ};
ghost use Rattle.snoop_trace.specs.Extent.{Extent};
ghost use Rattle.snoop_trace.specs.Output.{BlamesWriter};
ghost use Rattle.snoop_trace.specs.Text.{BlamesReader};
ghost use Rattle.snoop_trace.specs.declared.fault.TextFault.{TextFault};
ghost use Rattle.snoop_trace.specs.declared.fault.TextFault.TheVariants as text_fault;
ghost use Rattle.snoop_engine.specs.SimulatedView.{SimulatesView};
ghost use Rattle.snoop_counts.specs.Happenings.{happenings};
ghost use Rattle.snoop_counts.specs.declared.count.Happening.{Happening};

use crate::counts::{Counts, add_all};
use crate::watch::Watch;
use snoop_engine::{Input, Seen, SimFault, View, simulate_view};
use snoop_machine::Machine;
use snoop_rules::Protocol;
use snoop_trace::streams::{Sink, Source};
use snoop_trace::{NoMemory, Shape};
use std::alloc::Global;

/// A table of counts: what counts for it, and what is written.
pub(crate) trait Table<C: Counts> {
    // The text of the table.
    ghost text: { Self → Extent → List Happening → List ℕ };

    /// Nothing is counted yet.
    fn start(&self, alloc: Global, shape: Shape) -> Result<C, NoMemory>
        ensures { IfOk result (C.has_counted (C.of_shape shape) []) };

    /// Appends the table.
    fn push(&self, out: &mut Vec<u8>, counts: &C, shape: Shape) -> Result<(), NoMemory>
        ensures { (seen : List Happening) → C.has_counted (C.of_shape shape) seen counts.now → OnOk result (out.new.items ≡ out.old.items ++ Self.text self.now shape seen) };
}

/// Counts a run for a table; there are no counters before the run begins.
#[derive(Drop)]
struct WholeRun<T, C> {
    table: T,
    watch: Watch,
    counts: Option<C>,
}

impl<C: Counts + Drop, T: Table<C> + Drop> View for WholeRun<T, C> {
    ghost use Rattle.std.specs.Prelude.{◌≡◌, [], IsSomeAnd};
    ghost use Rattle.snoop_counts.specs.Happenings.{happenings};
    ghost use Rattle.snoop_counts.specs.Views.{HasWatched};

    ghost has_seen = { λ first protocol shape frames now.
        (now.table ≡ first.table) × (HasWatched protocol shape frames now.watch × IsSomeAnd now.counts (C.has_counted (C.of_shape shape) (happenings frames))) };

    ghost heading = { λ first protocol shape. [] };

    ghost shows = { λ first protocol shape frames frame. [] };

    ghost ending = { λ first protocol shape frames final. T.text first.table shape (happenings frames) };

    fn begin(&mut self, out: &mut Vec<u8>, machine: &Machine) -> Result<(), NoMemory> {
        let alloc = *out.allocator();
        self.watch = Watch::new(alloc);
        self.counts = Some(self.table.start(alloc, machine.shape())?);
        Ok(())
    }

    fn see(
        &mut self,
        _out: &mut Vec<u8>,
        machine: &Machine,
        seen: Seen<'_>,
    ) -> Result<(), NoMemory> {
        self.watch.see(machine.log(), seen)?;
        if let Some(counts) = &mut self.counts {
            add_all(counts, self.watch.happenings());
        }
        Ok(())
    }

    fn end(&mut self, out: &mut Vec<u8>, machine: &Machine) -> Result<(), NoMemory> {
        match &self.counts {
            None => Ok(()),
            Some(counts) => self.table.push(out, counts, machine.shape()),
        }
    }
}

/// Reads a text to its end, runs the steps that it gives, in order, on a machine at reset for the protocol and the shape, and
/// writes the table of their counts. A step that is refused for lack of memory ends the simulation. Faults are as `SimFault`
/// says.
pub(crate) fn simulate_table<R: Source, W: Sink, C: Counts + Drop, T: Table<C> + Drop>(
    alloc: Global,
    reader: &mut R,
    writer: &mut W,
    protocol: Protocol,
    shape: Shape,
    input: Input,
    table: T,
) -> Result<(), SimFault>
    ensures does { SimulatesView protocol shape input (λ frames final. T.text table shape (happenings frames)) (R.remaining reader.old) result (W.contents writer.old) (W.contents writer.new) }
    ensures unwritten { (fault : TextFault) → result ≡ Err (SimFault.Text fault) → writer.new ≡ writer.old }
    ensures reads { R.never_fails ≡ true → result ≢ Err (SimFault.Text text_fault.Read) }
    ensures writes { W.never_fails ≡ true → result ≢ Err SimFault.Write }
    ensures read_blamed { BlamesReader (R.failed reader.old) (R.failed reader.new) (result ≡ Err (SimFault.Text text_fault.Read)) }
    ensures blamed { BlamesWriter (W.failed writer.old) (W.failed writer.new) (result ≡ Err SimFault.Write) }
{
    let mut view: WholeRun<T, C> = WholeRun {
        table,
        watch: Watch::new(alloc),
        counts: None,
    };
    simulate_view(alloc, reader, writer, protocol, shape, input, &mut view)
}
