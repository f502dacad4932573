//! What a view sees of a step.

use crate::taken::Taken;
use snoop_machine::{Refused, Reply};
use snoop_trace::Step;

/// What is seen of a step.
#[derive(Clone, Copy, Debug)]
pub struct Seen<'a> {
    /// The number of the step in its list, from 1.
    pub number: u64,
    /// The step itself.
    pub step: Step,
    /// The block that the step is of: that of an Ask or a Respond, at an Order that of the core's oldest request; `None` where
    /// none waits.
    pub block: Option<u32>,
    /// What the machine answered.
    pub outcome: Result<Reply, Refused>,
    /// The rows of the tables that the controllers take at the step, or what a refusal or an eviction in I names.
    pub lines: &'a [Taken],
}
