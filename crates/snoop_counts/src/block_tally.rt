//! What the table by block counts.
ghost use Rattle.std.specs.Prelude.{◌≡◌, ◌<◌, [], ℕ, List, IfOk};
ghost use Rattle.snoop_counts.specs.BlockTally.{CountsBlocks};
ghost use Rattle.snoop_counts.specs.Tally.{IsRowOf};
ghost use Rattle.snoop_counts.specs.declared.count.Happening.{Happening as Seen};
ghost use Rattle.snoop_counts.specs.declared.count.Subjects.TheVariants.{Blocks};

use crate::count::{Count, Happening, Subjects};
use crate::counts::Counts;
use crate::sharers::Sharers;
use crate::tally::{Counters, Tally};
use snoop_trace::NoMemory;
use std::alloc::Global;

/// The counters of each block, and the cores that a line of it names, that loaded of it and that stored in it.
#[derive(Drop)]
pub(crate) struct BlockTally {
    tally: Tally,
    pub(crate) named: Sharers,
    pub(crate) readers: Sharers,
    pub(crate) writers: Sharers,
}

impl BlockTally {
    /// Nothing is counted yet, for `blocks` blocks.
    pub(crate) fn new(alloc: Global, blocks: u32) -> Result<Self, NoMemory>
        ensures { IfOk result (CountsBlocks blocks []) }
    {
        Ok(BlockTally {
            tally: Tally::new(alloc, Subjects::Blocks, blocks)?,
            named: Sharers::new(alloc, Subjects::Blocks, Count::Lines, blocks)?,
            readers: Sharers::new(alloc, Subjects::Blocks, Count::Loads, blocks)?,
            writers: Sharers::new(alloc, Subjects::Blocks, Count::Stores, blocks)?,
        })
    }

    /// The counters of a block, if a line names it.
    pub(crate) fn row(&self, block: u32) -> Option<Counters>
        ensures { (blocks : ℕ) (seen : List Seen) → CountsBlocks blocks seen self.now → block < blocks → IsRowOf Blocks seen block result }
    {
        self.tally.named(block)
    }
}

impl Counts for BlockTally {
    ghost use Rattle.std.specs.Prelude.{ℕ};
    ghost use Rattle.snoop_counts.specs.BlockTally.{CountsBlocks};

    ghost Of = { ℕ };

    ghost of_shape = { λ shape. shape.blocks };

    ghost has_counted = { CountsBlocks };

    fn add(&mut self, happening: &Happening) {
        self.tally.add(happening);
        self.named.add(happening);
        self.readers.add(happening);
        self.writers.add(happening);
    }
}
