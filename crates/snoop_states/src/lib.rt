//! The command `states` as tables for people: for each block a row for each of its steps.
#![tactic(auto)]

mod at_end;
mod cells;
mod column;
mod heading;
mod pieces;
mod simulate;
mod table;
mod tables;
mod widths;

pub use simulate::simulate_states_table;
