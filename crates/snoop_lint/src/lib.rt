//! What is wrong with a text of steps or of rows, record by record, for a person to read.
#![tactic(auto)]

mod explain;
mod fault;
mod fields;
mod form;
mod hints;
mod kind;
mod lines;
mod lint;
mod shown;
mod summary;
mod tally;
mod whole;

pub use fault::LintFault;
pub use form::Form;
pub use lint::lint_text;
