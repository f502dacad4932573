//! A set of cores for each block.
ghost use Rattle.snoop_blocks.specs.CoreSet.{Puts};

use crate::block_table::BlockTable;
use crate::core_set::CoreSet;

impl BlockTable<CoreSet> {
    /// Puts the core into the set of the block, where both are there.
    pub fn insert(&mut self, block: u32, core: u32)
        ensures { Puts block core self.old self.new }
    {
        if let Some(mut set) = self.get(block) {
            set.insert(core);
            self.set(block, set);
        }
    }
}
