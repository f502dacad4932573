//! Where a seat's rows stopped.

use crate::fault::SeatFault;

/// At which of its rows a seat stopped, counted from 0, and why.
#[derive(Clone, Copy, Debug, PartialEq, Eq)]
pub enum Stop {
    /// The gate was late.
    Late(u64),
    /// The seat refused the row.
    Fault(u64, SeatFault),
}
