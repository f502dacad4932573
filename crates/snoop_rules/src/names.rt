//! The words of the protocols: states, events, requests, payloads, and what a controller does.
//!
//! They are those of the snooping MSI and MESI protocols with non-atomic requests and atomic
//! transactions of "A Primer on Memory Consistency and Cache Coherence", 2nd edition, chapter 7.
//! `EiA`, `NoDataE` and MESI's memory states are this project's profile.

/// The state of a cache line, in the order of the tables; `E` and `EiA` are MESI's alone.
///
/// In a transient state `XyAd` a cache waits for its own request to be ordered and then for data,
/// in `XyD` for data, and in `XyA` for its own request to be ordered.
#[derive(Clone, Copy, Debug, PartialEq, Eq)]
pub enum CacheState {
    I,
    IsAd,
    IsD,
    ImAd,
    ImD,
    S,
    SmAd,
    SmD,
    E,
    M,
    EiA,
    MiA,
    IiA,
}

/// What a cache controller meets, in the order of the tables; `DataE` is MESI's alone.
#[derive(Clone, Copy, Debug, PartialEq, Eq)]
pub enum CacheEvent {
    /// The core loads.
    Load,
    /// The core stores.
    Store,
    /// The core gives the block up.
    Evict,
    /// The core's own request is ordered.
    OwnGetS,
    OwnGetM,
    OwnPutM,
    /// Another core's request is ordered.
    OtherGetS,
    OtherGetM,
    OtherPutM,
    /// The response comes.
    Data,
    DataE,
}

/// The state of a block at memory, in the order of the tables: the first four are MSI's, the others MESI's.
///
/// In a state that ends in `D` memory waits for a payload.
#[derive(Clone, Copy, Debug, PartialEq, Eq)]
pub enum MemState {
    IorS,
    M,
    IorSD,
    MD,
    I,
    S,
    EorM,
    ID,
    SD,
    EorMD,
}

/// What the memory controller meets, in the order of the tables.
#[derive(Clone, Copy, Debug, PartialEq, Eq)]
pub enum MemEvent {
    GetS,
    GetM,
    PutM,
    Data,
    NoData,
    NoDataE,
}

/// A request on the bus.
#[derive(Clone, Copy, Debug, PartialEq, Eq)]
pub enum Request {
    /// A copy to read.
    GetS,
    /// A copy to write.
    GetM,
    /// To write the block back and give it up.
    PutM,
}

/// What a response carries. `Data` and `DataE` carry the block's value, `NoData` and `NoDataE` none.
#[derive(Clone, Copy, Debug, PartialEq, Eq)]
pub enum Payload {
    Data,
    /// The requestor is the only holder.
    DataE,
    /// The writeback is stale: the block was handed on before its request was ordered.
    NoData,
    /// The block was clean.
    NoDataE,
}

/// To whom a cache sends its message.
#[derive(Clone, Copy, Debug, PartialEq, Eq)]
pub enum Target {
    Requestor,
    Memory,
    Both,
}

/// What a cache controller does at an event, beside going to the next state.
#[derive(Clone, Copy, Debug, PartialEq, Eq)]
pub enum CacheAction {
    None,
    /// The load answers the kept value; the store replaces it.
    Hit,
    /// The core's operation is refused.
    Stall,
    /// The request goes last in the core's queue.
    Issue(Request),
    /// The copy is given up without a request.
    Drop,
    /// The data is kept, and the waiting load performed with it.
    FillLoad,
    /// The data is kept, and the waiting store performed over it.
    FillStore,
    /// The message lies in the open transaction.
    Send(Payload, Target),
}

/// What the memory controller does at an event, beside going to the next state.
#[derive(Clone, Copy, Debug, PartialEq, Eq)]
pub enum MemAction {
    None,
    /// Memory's value goes to the requestor.
    Send(Payload),
    /// The data's value becomes memory's.
    Write,
}

/// A row of a cache table at its state and event.
#[derive(Clone, Copy, Debug, PartialEq, Eq)]
pub struct CacheCell {
    pub action: CacheAction,
    pub next: CacheState,
}

/// A row of a memory table at its state and event.
#[derive(Clone, Copy, Debug, PartialEq, Eq)]
pub struct MemCell {
    pub action: MemAction,
    pub next: MemState,
}
