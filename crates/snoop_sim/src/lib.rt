//! The commands of the program `snoop`: a text of steps or of rows in; out come the lines of its simulation and its report, its
//! states, counts, a drawing, what is wrong with it, or the steps that threads took.
#![tactic(auto)]

mod failure;
mod fault;
mod help;
mod options;
mod program;
mod threads;

pub use fault::ThreadsFault;
pub use program::{command, refuse_words};
pub use snoop_engine::{
    Choice, Input, SimFault, simulate_counts, simulate_run, simulate_serial, simulate_states,
    simulate_steps,
};
pub use threads::simulate_threads;
