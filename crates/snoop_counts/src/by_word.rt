//! The counts of each word of the blocks that cores share in a run.
ghost use Rattle.std.specs.Prelude.{◌≡◌, ◌≢◌, true, Err};
ghost use Rattle.snoop_trace.specs.Output.{BlamesWriter};
ghost use Rattle.snoop_trace.specs.Text.{BlamesReader};
ghost use Rattle.snoop_trace.specs.declared.fault.TextFault.{TextFault};
ghost use Rattle.snoop_trace.specs.declared.fault.TextFault.TheVariants as text_fault;
ghost use Rattle.snoop_engine.specs.SimulatedView.{SimulatesView};
ghost use Rattle.snoop_counts.specs.ByWord.{counts_by_word};

use crate::whole_run::{Table, simulate_table};
use crate::word_table::push_word_table;
use crate::word_tally::WordTally;
use snoop_engine::{Input, SimFault};
use snoop_rules::Protocol;
use snoop_trace::streams::{Sink, Source};
use snoop_trace::{NoMemory, Shape};
use std::alloc::Global;

/// The table of the counts of each word.
#[derive(Clone, Copy)]
struct ByWord;

impl Table<WordTally> for ByWord {
    ghost use Rattle.snoop_counts.specs.ByWord.{word_table};

    ghost text = { λ table shape seen. word_table shape seen };

    fn start(&self, alloc: Global, shape: Shape) -> Result<WordTally, NoMemory> {
        WordTally::new(alloc, shape)
    }

    fn push(&self, out: &mut Vec<u8>, counts: &WordTally, shape: Shape) -> Result<(), NoMemory> {
        push_word_table(out, counts, shape)
    }
}

/// Reads a text to its end, runs the steps that it gives, in order, on a machine at reset for the protocol and the shape, and
/// writes the counts of each word of the blocks on which at least two cores performed a load or a store. A step that is refused
/// for lack of memory ends the simulation. Faults are as `SimFault` says.
pub fn simulate_counts_by_word<R: Source, W: Sink>(
    alloc: Global,
    reader: &mut R,
    writer: &mut W,
    protocol: Protocol,
    shape: Shape,
    input: Input,
) -> Result<(), SimFault>
    ensures does { SimulatesView protocol shape input (counts_by_word shape) (R.remaining reader.old) result (W.contents writer.old) (W.contents writer.new) }
    // A refused text leaves the writer as it was.
    ensures unwritten { (fault : TextFault) → result ≡ Err (SimFault.Text fault) → writer.new ≡ writer.old }

    // A reader or a writer whose contract rules failure out is never blamed.
    ensures reads { R.never_fails ≡ true → result ≢ Err (SimFault.Text text_fault.Read) }
    ensures writes { W.never_fails ≡ true → result ≢ Err SimFault.Write }
    // Where it is known that none of its reads or writes had failed, it is blamed exactly where one fails, and none is tried again.
    ensures read_blamed { BlamesReader (R.failed reader.old) (R.failed reader.new) (result ≡ Err (SimFault.Text text_fault.Read)) }
    ensures blamed { BlamesWriter (W.failed writer.old) (W.failed writer.new) (result ≡ Err SimFault.Write) }
{
    simulate_table(alloc, reader, writer, protocol, shape, input, ByWord)
}
