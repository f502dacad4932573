//! What a step answers.
use snoop_history::Did;
use snoop_rules::{CacheState, Payload, Request};
use snoop_trace::NoMemory as NoRoom;
use thiserror::Error;

/// What a taken step answers.
#[derive(Clone, Copy, Debug, PartialEq, Eq)]
pub enum Reply {
    /// A load hit, with this value.
    Hit(u64),
    /// A store hit.
    StoreHit,
    /// A miss, or an eviction from E or M: the request waits in the core's queue.
    Issued(Request),
    /// An eviction gave the copy up without a request.
    Gone,
    /// An eviction of a block in I.
    Absent,
    /// A request of the core is ordered, and its transaction is open.
    Ordered(Request),
    /// The message came from this core, or from memory, and the transaction is closed; at a GetS or GetM the requestor performed the operation
    /// that waited for it.
    Came {
        payload: Payload,
        from: Option<u32>,
        did: Option<Did>,
    },
}

/// Why a step was refused: the first cause that holds. Nothing has changed.
#[derive(Clone, Copy, Debug, Error, PartialEq, Eq)]
pub enum Refused {
    /// The core is outside the shape.
    NoCore,
    /// The block is outside the shape, or the word of a load or store.
    NoBlock,
    /// The core's controller takes no such operation while it is in this state.
    Stalled(CacheState),
    /// The core has no request to order.
    NothingWaiting,
    /// The block of the core's oldest request has an open transaction.
    BusTaken(u32),
    /// The block has no open transaction.
    NoTransaction,
    /// Out of memory.
    NoMemory,
}

impl From<NoRoom> for Refused {
    ghost use Rattle.std.specs.Prelude.{◌≡◌};
    ghost use Rattle.snoop_model.specs.declared.replies.Refused.TheVariants.{NoMemory};

    ghost from_gives = { λ e r. r ≡ NoMemory };

    fn from(_: NoRoom) -> Self {
        Refused::NoMemory
    }
}
