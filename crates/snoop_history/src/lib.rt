//! The history of a machine: its items, and what is read off them.
#![tactic(auto)]

mod board;
mod items;
pub mod laws;
mod log;
mod packed;
mod report;
mod totals;

pub use board::Board;
pub use items::{Came, Did, Item, Sent, Totals};
pub use log::Log;
pub use report::write_report;
