//! The counts of each block of a run.
ghost use Rattle.std.specs.Prelude.{◌≡◌, ◌≢◌, true, Err};
ghost use Rattle.snoop_trace.specs.Output.{BlamesWriter};
ghost use Rattle.snoop_trace.specs.Text.{BlamesReader};
ghost use Rattle.snoop_trace.specs.declared.fault.TextFault.{TextFault};
ghost use Rattle.snoop_trace.specs.declared.fault.TextFault.TheVariants as text_fault;
ghost use Rattle.snoop_engine.specs.SimulatedView.{SimulatesView};
ghost use Rattle.snoop_counts.specs.ByBlock.{counts_by_block};

use crate::block_table::push_block_table;
use crate::block_tally::BlockTally;
use crate::whole_run::{Table, simulate_table};
use snoop_engine::{Input, SimFault};
use snoop_rules::Protocol;
use snoop_trace::streams::{Sink, Source};
use snoop_trace::{NoMemory, Shape};
use std::alloc::Global;

/// The table of the counts of all blocks that a line names, or of the `top` with the most ordered requests.
#[derive(Clone, Copy)]
struct ByBlock {
    top: Option<u32>,
}

impl Table<BlockTally> for ByBlock {
    ghost use Rattle.snoop_counts.specs.ByBlock.{block_table};

    ghost text = { λ table shape seen. block_table shape table.top seen };

    fn start(&self, alloc: Global, shape: Shape) -> Result<BlockTally, NoMemory> {
        BlockTally::new(alloc, shape.blocks())
    }

    fn push(&self, out: &mut Vec<u8>, counts: &BlockTally, shape: Shape) -> Result<(), NoMemory> {
        push_block_table(*out.allocator(), out, counts, shape, self.top)
    }
}

/// Reads a text to its end, runs the steps that it gives, in order, on a machine at reset for the protocol and the shape, and
/// writes the counts of each block that a line of `simulate_states` names, or of the `top` of them with the most ordered
/// requests, most first. A step that is refused for lack of memory ends the simulation. Faults are as `SimFault` says.
pub fn simulate_counts_by_block<R: Source, W: Sink>(
    alloc: Global,
    reader: &mut R,
    writer: &mut W,
    protocol: Protocol,
    shape: Shape,
    input: Input,
    top: Option<u32>,
) -> Result<(), SimFault>
    ensures does { SimulatesView protocol shape input (counts_by_block shape top) (R.remaining reader.old) result (W.contents writer.old) (W.contents writer.new) }
    // A refused text leaves the writer as it was.
    ensures unwritten { (fault : TextFault) → result ≡ Err (SimFault.Text fault) → writer.new ≡ writer.old }

    // A reader or a writer whose contract rules failure out is never blamed.
    ensures reads { R.never_fails ≡ true → result ≢ Err (SimFault.Text text_fault.Read) }
    ensures writes { W.never_fails ≡ true → result ≢ Err SimFault.Write }
    // Where it is known that none of its reads or writes had failed, it is blamed exactly where one fails, and none is tried again.
    ensures read_blamed { BlamesReader (R.failed reader.old) (R.failed reader.new) (result ≡ Err (SimFault.Text text_fault.Read)) }
    ensures blamed { BlamesWriter (W.failed writer.old) (W.failed writer.new) (result ≡ Err SimFault.Write) }
{
    let table = ByBlock { top };
    simulate_table(alloc, reader, writer, protocol, shape, input, table)
}
