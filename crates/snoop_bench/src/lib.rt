//! What lies under the lock of a shared machine: the machine, its steps, each core's work under way, and the writer of versions.
#![tactic(auto)]

mod bench;
mod outcome;
mod recorder;
mod work;

pub use bench::Bench;
pub use snoop_trace::Work;
pub use work::{AdvanceFault, Evicted, Turn};
