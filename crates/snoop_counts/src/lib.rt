//! The views of the command `counts`: how often something happened to each core, block or word in a run, or to the machine in
//! each group of steps.
#![tactic(auto)]

mod block_table;
mod block_tally;
mod by_block;
mod by_core;
mod by_steps;
mod by_word;
mod copies;
mod core_table;
mod count;
mod counted;
mod counts;
mod last_steps;
pub mod laws;
mod ranking;
mod sharers;
mod tally;
mod watch;
mod whole_run;
mod word_table;
mod word_tally;

pub use by_block::simulate_counts_by_block;
pub use by_core::simulate_counts_by_core;
pub use by_steps::simulate_counts_by_steps;
pub use by_word::simulate_counts_by_word;
