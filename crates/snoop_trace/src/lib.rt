//! Shapes of machines, words, rows and steps, and the texts that they are read from and written to.
#![tactic(auto)]

mod fault;
mod faults;
mod output;
mod protocol;
mod record;
mod shape;
mod step;
pub mod streams;
mod text;
mod words;

pub use fault::{NoMemory, TextFault, WriteFault};
pub use faults::{row_fault, step_fault};
pub use output::write_steps;
pub use protocol::Protocol;
pub use record::{kind_of, number_of};
pub use shape::{Shape, ShapeFault};
pub use step::{Asked, Op, Row, Step, Work};
pub use text::{read_rows, read_steps};
pub use words::{Block, Few, Kept, Words};
