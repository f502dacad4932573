//! The cores that ask for a block in some steps.
ghost use Rattle.std.specs.Prelude.{◌≡◌, ◌≤◌, ◌||◌, ℕ, Bool, false, [], slice_index_or, IfOk};
ghost use Rattle.snoop_trace.specs.Extent.{Extent};
ghost use Rattle.snoop_engine.specs.Askers.{AreSetsBy, all_askers, asks_for, cores_in};

use snoop_blocks::{BlockTable, CoreSet};
use snoop_trace::{NoMemory, Shape, Step};
use std::alloc::Global;
use std::marker::Model;

/// For each block of a shape, the cores that ask for it in some steps.
#[derive(Drop)]
pub struct Askers {
    alloc: Global,
    cores: u32,
    sets: BlockTable<CoreSet>,
}

impl Model for Askers {
    ghost use Rattle.std.specs.Prelude.{ℕ, List, map};
    ghost use Rattle.snoop_engine.specs.Askers.{cores_in};

    ghost Value = { List (List ℕ) };

    ghost view = { λ a. map (cores_in a.cores) a.sets };
}

// A set for each block, with no core in it.
fn empty_sets(alloc: Global, shape: Shape) -> Result<BlockTable<CoreSet>, NoMemory>
    ensures { IfOk result (AreSetsBy shape (λ block core. false)) }
{
    BlockTable::new(alloc, shape.blocks(), CoreSet::empty()).map_err(|_| NoMemory)
}

// Adds the core that asks in a step, if one does.
fn add(sets: &mut BlockTable<CoreSet>, step: Step)
    ensures { (shape : Extent) (test : ℕ → ℕ → Bool) → shape.cores ≤ 256 → AreSetsBy shape test sets.old → AreSetsBy shape (λ block core. test block core || asks_for block core step) sets.new }
{
    if let Step::Ask {
        core,
        block,
        word: _,
        op: _,
    } = step
    {
        sets.insert(block, core);
    }
}

// Of so many cores those in the set, by rising number.
fn cores_in(alloc: Global, cores: u32, set: &CoreSet) -> Result<Vec<u32>, NoMemory>
    ensures { IfOk result (λ listed. listed.items ≡ cores_in cores set.now) }
{
    match (0..cores).filter(|core| set.has(*core)).collect(alloc) {
        Ok(listed) => Ok(listed),
        Err(_) => Err(NoMemory),
    }
}

impl Askers {
    /// For each block of the shape, finds the cores that ask for it in these steps, however they are answered. Cores and blocks
    /// that the shape hasn't are left out. `NoMemory` where a growth was refused.
    pub fn of(alloc: Global, shape: Shape, steps: &[Step]) -> Result<Self, NoMemory>
        ensures { IfOk result (λ found. found ≡ all_askers shape steps.now) }
    {
        shape.within_limits();
        let mut sets = empty_sets(alloc, shape)?;
        for step in steps {
            add(&mut sets, *step);
        }
        Ok(Askers {
            alloc,
            cores: shape.cores(),
            sets,
        })
    }

    /// The cores that ask for the block, by rising number; none for a block that the shape hasn't. `NoMemory` where a growth was
    /// refused; nothing has changed.
    pub fn cores(&self, block: u32) -> Result<Vec<u32>, NoMemory>
        ensures { IfOk result (λ cores. cores.items ≡ slice_index_or self.now block []) }
    {
        let askers = self.sets.get_or(block, CoreSet::empty());
        cores_in(self.alloc, self.cores, &askers)
    }
}
