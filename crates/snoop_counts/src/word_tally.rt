//! What the table by word counts.
ghost use Rattle.std.specs.Prelude.{◌≡◌, ◌<◌, ◌≤◌, [], List, IfOk};
ghost use Rattle.snoop_trace.specs.Extent.{Extent};
ghost use Rattle.snoop_counts.specs.ByWord.{is_shared};
ghost use Rattle.snoop_counts.specs.WordTally.{CountsWords};
ghost use Rattle.snoop_counts.specs.declared.count.Happening.{Happening as Seen};

use crate::count::{Count, Happening, Subjects};
use crate::counts::Counts;
use crate::sharers::Sharers;
use crate::tally::Tally;
use snoop_trace::{NoMemory, Shape};
use std::alloc::Global;

/// The counters of each word, and the cores that performed an operation on each block, and on each word, a load of it and a store.
#[derive(Drop)]
pub(crate) struct WordTally {
    pub(crate) counters: Tally,
    shared: Sharers,
    pub(crate) cores: Sharers,
    pub(crate) readers: Sharers,
    pub(crate) writers: Sharers,
}

impl WordTally {
    /// Nothing is counted yet.
    pub(crate) fn new(alloc: Global, shape: Shape) -> Result<Self, NoMemory>
        ensures { IfOk result (CountsWords shape []) }
    {
        shape.within_limits();
        let blocks = shape.blocks();
        let whose = Subjects::Words(shape.words());
        let words = blocks * shape.words();
        Ok(WordTally {
            counters: Tally::new(alloc, whose, words)?,
            shared: Sharers::new(alloc, Subjects::Blocks, Count::Operations, blocks)?,
            cores: Sharers::new(alloc, whose, Count::Operations, words)?,
            readers: Sharers::new(alloc, whose, Count::Loads, words)?,
            writers: Sharers::new(alloc, whose, Count::Stores, words)?,
        })
    }

    /// Whether at least two cores performed an operation on the block.
    pub(crate) fn is_shared(&self, block: u32, cores: u32) -> bool
        requires { cores ≤ 256 }
        ensures { (shape : Extent) (seen : List Seen) → CountsWords shape seen self.now → block < shape.blocks → cores ≡ shape.cores → result ≡ is_shared shape seen block }
    {
        self.shared.of(block, cores) > 1
    }
}

impl Counts for WordTally {
    ghost use Rattle.snoop_trace.specs.Extent.{Extent};
    ghost use Rattle.snoop_counts.specs.WordTally.{CountsWords};

    ghost Of = { Extent };

    ghost of_shape = { λ shape. shape };

    ghost has_counted = { CountsWords };

    fn add(&mut self, happening: &Happening) {
        self.counters.add(happening);
        self.shared.add(happening);
        self.cores.add(happening);
        self.readers.add(happening);
        self.writers.add(happening);
    }
}
