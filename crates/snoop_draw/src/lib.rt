//! The drawing of a run: a row for each step, a panel for each block, a column for each core, the bus and memory.
#![tactic(auto)]

mod cells;
mod drawing;
mod event;
mod fault;
mod heading;
pub mod laws;
mod marks;
mod panels;
mod row;
mod simulate;
mod size;
mod widths;
mod words;

pub use event::{any_of_memory, awaits, may};
pub use fault::DrawFault;
pub use marks::{Charset, Mark};
pub use panels::{Panel, panels_for};
pub use row::held_in;
pub use simulate::simulate_drawing;
pub use size::columns_of;
pub use widths::values_width;
pub use words::{bus_words, core_words, memory_words};
