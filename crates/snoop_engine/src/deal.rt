//! Rows, dealt to the cores that they are of.
ghost use Rattle.std.specs.Prelude.{◌≡◌, ℕ, All, None, IfOk, length};
ghost use Rattle.std.specs.List.{range_with_len};
ghost use Rattle.snoop_engine.specs.Todo.{IsAskedWithin, todo_of, nothing_to_do, left_in, works_by};

use crate::asks::AskQueue;
use crate::lane::Lane;
use snoop_trace::{NoMemory, Shape};
use std::alloc::Global;
use std::collections::VecDeque;

/// What each core's rows ask for, in the order of the text.
pub(crate) fn deal(alloc: Global, shape: Shape, mut asks: AskQueue) -> Result<Vec<Lane>, NoMemory>
    requires { All (IsAskedWithin shape) asks }
    ensures cores { IfOk result (λ lanes. length lanes.items ≡ shape.cores) }
    ensures left { IfOk result (λ lanes. (core : ℕ) → (todo_of lanes.items core).left ≡ works_by asks core) }
    ensures idle { IfOk result (λ lanes. (core : ℕ) → (todo_of lanes.items core).work ≡ None) }
    ensures all { IfOk result (λ lanes. left_in lanes.items ≡ length asks) }
{
    shape.within_limits();
    let mut lanes = empty_lanes(alloc, shape)?;
    while let Some(asked) = asks.next() {
        lanes[asked.core as usize].push(asked)?;
    }
    Ok(lanes)
}

/// A lane for each core, with nothing to do.
fn empty_lanes(alloc: Global, shape: Shape) -> Result<Vec<Lane>, NoMemory>
    ensures cores { IfOk result (λ lanes. length lanes.items ≡ shape.cores) }
    ensures idle { IfOk result (λ lanes. All (λ lane. lane ≡ nothing_to_do) lanes.items) }
{
    let cores = shape.cores() as usize;
    let mut lanes = Vec::with_capacity(alloc, cores)?;
    for _ in 0..cores {
        lanes.push_reserved(Lane::new(alloc));
    }
    Ok(lanes)
}

/// The cores by rising number.
#[tactic(auto, using(crate::proofs::RangeLemmas::more_from_zero))]
pub(crate) fn all_cores(alloc: Global, shape: Shape) -> Result<VecDeque<u32>, NoMemory>
    ensures { IfOk result (λ cores. cores.items ≡ range_with_len 0 shape.cores) }
{
    let count = shape.cores();
    let mut cores = VecDeque::with_capacity(alloc, count as usize)?;
    for core in 0..count {
        cores.push_back_reserved(core);
    }
    Ok(cores)
}
