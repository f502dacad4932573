//! The machine: caches, memory and bus, and its steps.
#![tactic(auto)]

mod lines;
mod machine;
mod parts;
mod turn;

pub use machine::{Machine, run_steps};
pub use snoop_model::{Refused, Reply, laws, turns_are_served};
