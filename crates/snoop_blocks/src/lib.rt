//! What is kept of each block of a memory, at the cost of the blocks that were written, and sets of cores.
#![tactic(auto)]

mod block_table;
mod core_set;
mod core_sets;

pub use block_table::{BlockTable, Change};
pub use core_set::CoreSet;
