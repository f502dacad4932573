//! Versions of a machine's board, which one writer publishes and readers take without waiting.
#![tactic(auto)]

mod enter;
mod publish;
mod reader;
mod rule;
mod version;
mod writer;

pub use reader::{Readers, VersionReader};
pub use writer::VersionWriter;
