//! A shared machine under a lock: a seat for each core, watches beside them, and the log that joins what the seats were answered.
#![tactic(auto)]

mod deal;
mod fault;
mod gate;
mod gathering;
mod own;
mod rows;
mod seat;
mod share;
mod shared;
mod stop;
mod view;
mod watch;

pub use fault::{GatherFault, MakeFault, RunFault, SeatFault, ViewFault};
pub use gate::{Free, Gate, Late};
pub use gathering::{Gathered, gather};
pub use rows::run_seats;
pub use seat::Seat;
pub use shared::{Shared, end_seats, end_watches};
pub use snoop_bench::{AdvanceFault, Bench, Evicted, Turn, Work};
pub use stop::Stop;
pub use watch::Watch;
