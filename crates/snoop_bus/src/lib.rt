//! The bus: each core's queue of requests that wait to be ordered, and the open transaction of each block.
#![tactic(auto)]

mod bus;

pub use bus::{Bus, Open};
