//! What a text is read as, and for which machine.

use snoop_trace::{Protocol, Shape};

/// What a text is read as: steps, as by `read_steps`, or rows, as by `read_rows`.
#[derive(Clone, Copy, Debug, PartialEq, Eq)]
pub enum Form {
    Steps,
    Rows,
}

/// How a text is looked at: what it is read as, and for which machine.
#[derive(Clone, Copy)]
pub(crate) struct Reading {
    pub form: Form,
    pub protocol: Protocol,
    pub shape: Shape,
}
