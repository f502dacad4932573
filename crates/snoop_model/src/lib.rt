//! The model of the machine: its state as its users see it, its moves and runs, and the theorem that every run is coherent. The code of
//! the machine is `snoop_machine`.
#![tactic(auto)]

mod access;
mod display;
pub mod laws;
mod replies;
mod turn_rule;

pub use access::Access;
pub use replies::{Refused, Reply};
pub use turn_rule::turns_are_served;
