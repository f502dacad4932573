//! Why a call is refused.

use snoop_bench::Work;
use snoop_history::Did;
use thiserror::Error;

/// Why nothing was made.
#[derive(Clone, Copy, Debug, PartialEq, Eq, Error)]
pub enum MakeFault {
    /// Out of memory.
    #[error("NoMemory")]
    NoMemory,
    /// There are 2^32 cores and watches or more, or no place for a reader of versions.
    #[error("NoPlace")]
    NoPlace,
}

/// Why a seat's operation was refused.
#[derive(Clone, Copy, Debug, PartialEq, Eq, Error)]
pub enum SeatFault {
    /// The block, or the word of a load or store, is outside the shape. Nothing has changed.
    #[error("NoBlock")]
    NoBlock,
    /// Out of memory. The operation is pending: the same call, made again, goes on with it and does it once.
    #[error("NoMemory")]
    NoMemory,
    /// This other operation of the core is pending. Nothing has changed.
    #[error("Busy")]
    Busy(Work),
    /// The published versions show an operation of the core that the seat did not make; this is the core's last one there. From then
    /// on each `load`, `store` and `evict` that `NoBlock` does not refuse returns this.
    #[error("Stranger")]
    Stranger(Did),
}

/// Why a version was not read. Nothing has changed.
#[derive(Clone, Copy, Debug, PartialEq, Eq, Error)]
pub enum ViewFault {
    /// The block or the word is outside the shape.
    #[error("NoBlock")]
    NoBlock,
    /// There is no version to enter.
    #[error("NoVersion")]
    NoVersion,
}

/// Why nothing was gathered: the first cause that holds of `NotAllSeats`, `Pending`, `Mismatch` and `NoMemory`.
#[derive(Clone, Copy, Debug, PartialEq, Eq, Error)]
pub enum GatherFault {
    /// The least core whose operations in the log differ from its seat's answers, and the first place where they do.
    #[error("Mismatch")]
    Mismatch { core: u32, place: u64 },
    /// The least core with work under way, or whose seat has a pending operation.
    #[error("Pending")]
    Pending { core: u32 },
    /// Out of memory.
    #[error("NoMemory")]
    NoMemory,
    /// The least core with no seat or with several; where there is none such, the first seat's core that is outside the shape.
    #[error("NotAllSeats")]
    NotAllSeats { core: u32 },
}

/// Why no row was performed.
#[derive(Clone, Copy, Debug, PartialEq, Eq, Error)]
pub enum RunFault {
    /// The core of the first row that has no seat, or whose address is outside the shape of a seat of its core.
    #[error("NoSeat")]
    NoSeat { core: u32 },
    /// Out of memory.
    #[error("NoMemory")]
    NoMemory,
}
