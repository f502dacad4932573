//! What happens in a machine, as its history has it.
ghost use Rattle.std.specs.Prelude.{◌≡◌};
ghost use Rattle.snoop_history.specs.History.{operation_of};
ghost use Rattle.snoop_history.specs.Within.{core_of, block_of, sender_of_response, is_within};
ghost use Rattle.snoop_history.specs.Board.{operation_within};

use snoop_rules::{Payload, Request};

/// A performed operation: the core's operation of this number, counted from 0.
#[derive(Clone, Copy, Debug, PartialEq, Eq)]
pub struct Did {
    /// How many operations the core had performed before.
    pub number: u64,
    /// The core that performed it.
    pub core: u32,
    /// The block that was read or written.
    pub block: u32,
    /// The word of it.
    pub word: u32,
    /// Whether it was a load; a store otherwise.
    pub load: bool,
    /// Whether it was performed when it was asked for, with no request of its own.
    pub hit: bool,
    /// The value that was loaded or stored.
    pub value: u64,
}

/// A request was ordered on the bus.
#[derive(Clone, Copy, Debug, PartialEq, Eq)]
pub struct Sent {
    /// The requestor.
    pub core: u32,
    pub request: Request,
    pub block: u32,
}

/// The response to a request came.
#[derive(Clone, Copy, Debug, PartialEq, Eq)]
pub struct Came {
    /// The requestor.
    pub core: u32,
    pub request: Request,
    pub block: u32,
    /// The core that sent the response, or `None` where memory did.
    pub from: Option<u32>,
    pub payload: Payload,
}

/// What one step adds to a history, if it adds an item.
#[derive(Clone, Copy, Debug, PartialEq, Eq)]
pub enum Item {
    /// A hit.
    Did(Did),
    /// An ordered request.
    Sent(Sent),
    /// A response, with the operation that it performed, if any.
    Came(Came, Option<Did>),
}

impl Item {
    /// The operation that the item performed, if any.
    pub fn did(self) -> Option<Did>
        ensures { result ≡ operation_of self }
    {
        match self {
            Item::Did(did) => Some(did),
            Item::Sent(_) => None,
            Item::Came(_, did) => did,
        }
    }

    /// The core that the item is of: it performed, requested or was answered.
    pub fn core(self) -> u32
        ensures { result ≡ core_of self }
    {
        match self {
            Item::Did(did) => did.core,
            Item::Sent(sent) => sent.core,
            Item::Came(came, _) => came.core,
        }
    }

    /// The block that the item is of.
    pub fn block(self) -> u32
        ensures { result ≡ block_of self }
    {
        match self {
            Item::Did(did) => did.block,
            Item::Sent(sent) => sent.block,
            Item::Came(came, _) => came.block,
        }
    }

    /// The core that sent the item's response, if one did.
    pub(crate) fn sender(self) -> Option<u32>
        ensures { result ≡ sender_of_response self }
    {
        match self {
            Item::Came(came, _) => came.from,
            _ => None,
        }
    }

    /// Whether the item's core and block lie within the shape, and so do the core that sent its response, if one did,
    /// and the core, block and word of its operation, if it has one.
    pub(crate) fn is_within(self, cores: usize, blocks: u32, words: u32) -> bool
        ensures { result ≡ is_within cores blocks words self }
    {
        let lies = |core: u32, block: u32| (core as usize) < cores && block < blocks;
        lies(self.core(), self.block())
            && self.sender().is_none_or(|core| (core as usize) < cores)
            && self
                .did()
                .is_none_or(|did| lies(did.core, did.block) && did.word < words)
    }

    /// The operation of an item within the shape.
    pub(crate) fn operation_within(self, cores: usize, blocks: u32, words: u32) -> Option<Did>
        ensures { result ≡ operation_within cores blocks words self }
    {
        if self.is_within(cores, blocks, words) {
            self.did()
        } else {
            None
        }
    }
}

/// The counts of a list of items.
#[derive(Clone, Copy, Debug, PartialEq, Eq, Default)]
pub struct Totals {
    /// Performed loads.
    pub loads: u64,
    /// Those that were hits.
    pub load_hits: u64,
    /// Performed stores.
    pub stores: u64,
    /// Those that were hits.
    pub store_hits: u64,
    /// Ordered requests for a read-only copy.
    pub get_s: u64,
    /// Ordered requests for a writable copy.
    pub get_m: u64,
    /// Ordered writeback requests.
    pub put_m: u64,
    /// Responses that memory sent.
    pub from_memory: u64,
    /// Responses to GetS and GetM that a cache sent.
    pub from_caches: u64,
    /// Responses to PutM that carry the block's data.
    pub writebacks: u64,
    /// Responses to PutM with NoDataE: the copy was not written since it came.
    pub clean: u64,
    /// Responses to PutM with NoData: the requestor is the owner no more.
    pub stale: u64,
}
