//! The drawing of a run as SVG, or as a page with SVGs: a row for each step, a panel for each block, a column for each
//! core, the bus and memory. docs/DRAWING.md says how to read it.
#![tactic(auto)]

mod bands;
mod cells;
mod columns;
mod drawing;
mod elements;
mod happenings;
pub mod laws;
mod legend;
mod looks;
mod paper;
mod plan;
mod rows;
mod sheet;
mod simulate;
mod size;
mod sizes;
mod style;
mod titles;

pub use paper::{Form, Paper, Theme};
pub use simulate::simulate_svg;
