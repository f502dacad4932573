//! What a core asks of its cache, and the steps that drive a machine.

/// What a core asks of its cache.
#[derive(Clone, Copy, Debug, PartialEq, Eq)]
pub enum Op {
    /// To read the word's value.
    Load,
    /// To make this the word's value.
    Store(u64),
    /// To give the block up.
    Evict,
}

/// One row of a trace: a core's operation at an address, in bytes.
///
/// As a record of a text it is `L,core,address`, `S,core,address,value` or `E,core,address`.
#[derive(Clone, Copy, Debug, PartialEq, Eq)]
pub struct Row {
    pub core: u32,
    pub op: Op,
    pub address: u64,
}

/// One step of a machine, by the numbers of its core and block.
///
/// In a text, asking is written as a row, and the others are `O,core` and `R,address`.
#[derive(Clone, Copy, Debug, PartialEq, Eq)]
pub enum Step {
    /// The core's cache controller takes the operation.
    ///
    /// A load or store is of the block's word of this number. An eviction is of the whole block; its word is not looked at,
    /// and is 0 in what is read.
    Ask {
        core: u32,
        block: u32,
        word: u32,
        op: Op,
    },
    /// A request of the core that waits is ordered on the bus. The code takes the oldest, the model of the theorem any.
    Order {
        core: u32,
    },
    /// The response of the block's open transaction comes.
    Respond {
        block: u32,
    },
}

/// What a core is to do: a load or a store of a word of a block, or an eviction of the block, whose word is not looked at.
#[derive(Clone, Copy, Debug, PartialEq, Eq)]
pub struct Work {
    pub block: u32,
    pub word: u32,
    pub op: Op,
}

/// What a row asks for: a work of one core.
#[derive(Clone, Copy, Debug, PartialEq, Eq)]
pub struct Asked {
    pub core: u32,
    pub work: Work,
}
