//! The cores that may hold something of a block.
ghost use Rattle.std.specs.Prelude.{◌≡◌, ◌≤◌, IfOk, Ok};
ghost use Rattle.snoop_trace.specs.Extent.{Extent};
ghost use Rattle.snoop_trace.specs.declared.protocol.Protocol.{Protocol};
ghost use Rattle.snoop_model.specs.declared.replies.Reply.{Reply as Answer};
ghost use Rattle.snoop_model.specs.Pictures.Situation.{Situation, reset};
ghost use Rattle.snoop_model.specs.Runs.Run.{GoesFirst};
ghost use Rattle.snoop_engine.specs.PossibleHolders.{ArePossibleHolders, AreOthersInI};

use snoop_blocks::{BlockTable, CoreSet};
use snoop_trace::{NoMemory, Step};
use std::alloc::Global;

/// For each block, the cores that have asked for it and were not found in I since. All others are in I.
#[derive(Drop)]
pub(crate) struct PossibleHolders {
    sets: BlockTable<CoreSet>,
}

impl PossibleHolders {
    /// No core has asked for any of the `blocks` blocks.
    pub(crate) fn new(alloc: Global, blocks: u32) -> Result<Self, NoMemory>
        ensures { (protocol : Protocol) (shape : Extent) → shape.blocks ≡ blocks → IfOk result (λ possible_holders. ArePossibleHolders (reset protocol shape) possible_holders.sets) }
    {
        match BlockTable::new(alloc, blocks, CoreSet::empty()) {
            Ok(sets) => Ok(PossibleHolders { sets }),
            Err(_) => Err(NoMemory),
        }
    }

    /// Follows a step that was taken: only an Ask moves its core out of I.
    pub(crate) fn follow(&mut self, step: Step)
        ensures { (old new : Situation) (answer : Answer) → ArePossibleHolders old self.old.sets → old.shape.cores ≤ 256 → GoesFirst old step (Ok answer) new → ArePossibleHolders new self.new.sets }
    {
        match step {
            Step::Ask {
                core,
                block,
                word: _,
                op: _,
            } => self.sets.insert(block, core),
            Step::Order { core: _ } => {}
            Step::Respond { block: _ } => {}
        }
    }

    /// The cores that have asked for the block.
    pub(crate) fn of(&self, block: u32) -> CoreSet
        ensures { (s : Situation) → ArePossibleHolders s self.now.sets → AreOthersInI s block result }
    {
        match self.sets.get(block) {
            None => CoreSet::empty(),
            Some(cores) => cores,
        }
    }

    /// Leaves these cores for the block; all others are in I.
    pub(crate) fn leave(&mut self, block: u32, cores: CoreSet)
        ensures { (s : Situation) → ArePossibleHolders s self.old.sets → AreOthersInI s block cores → ArePossibleHolders s self.new.sets }
    {
        if self.sets.get(block).is_some() {
            self.sets.set(block, cores);
        }
    }
}
