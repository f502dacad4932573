//! The engines of the commands `steps`, `run`, `states` and `counts`: a text of steps or of rows in; out come the lines of its
//! simulation and its report, its states, or how often each row of the tables was taken. What is written of a run besides its
//! lines and its report is a `View`.
#![tactic(auto)]

mod askers;
mod asks;
mod choice;
mod counts;
mod counts_text;
mod course;
mod deal;
mod digits;
mod driver;
mod events;
mod fault;
mod fields;
mod gather;
mod input;
mod lane;
mod lines;
mod packed;
mod possible_holders;
mod run;
mod script;
mod seen;
mod serial;
mod serial_driver;
mod show;
mod states;
mod steps;
mod taken;
mod taken_text;
mod tally;
mod view;
mod widths;
mod words;

pub use askers::Askers;
pub use choice::{Choice, ChoiceFault};
pub use counts::simulate_counts;
pub use fault::SimFault;
pub use gather::read_input;
pub use input::Input;
pub use lines::{push_line, push_outcome};
pub use run::simulate_run;
pub use seen::Seen;
pub use serial::simulate_serial;
pub use show::{show_steps, simulate_view};
pub use states::simulate_states;
pub use steps::simulate_steps;
pub use taken::{Taken, memory_at, state_at};
pub use view::View;
pub use widths::{count_digits, most_stored};
pub use words::{answers, capitals, push_core_words, push_memory_words, push_message_words};
