//! A load or a store of one word.
use snoop_trace::Op;

/// A load or a store of one word.
#[derive(Clone, Copy, Debug, PartialEq, Eq)]
pub struct Access {
    pub word: u32,
    pub op: Op,
}
