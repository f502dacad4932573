//! What the tests share.

use snoop_history::Did;
use snoop_machine::{Machine, Refused, Reply};
use snoop_rules::{CacheState, MemState, Payload, Protocol, Request};
use snoop_trace::{Op, Shape, Step};
use std::alloc::Global;
use std::test::Fail;

/// Two sharers ask to store; the second one's request is ordered first, and the first one's waits for its answer.
pub static UPGRADE_RACE: [Step; 13] = [
    Step::Ask {
        core: 0,
        block: 0,
        word: 0,
        op: Op::Load,
    },
    Step::Order { core: 0 },
    Step::Respond { block: 0 },
    Step::Ask {
        core: 1,
        block: 0,
        word: 0,
        op: Op::Load,
    },
    Step::Order { core: 1 },
    Step::Respond { block: 0 },
    Step::Ask {
        core: 0,
        block: 0,
        word: 0,
        op: Op::Store(5),
    },
    Step::Ask {
        core: 1,
        block: 0,
        word: 0,
        op: Op::Store(6),
    },
    Step::Order { core: 1 },
    Step::Order { core: 0 },
    Step::Respond { block: 0 },
    Step::Order { core: 0 },
    Step::Respond { block: 0 },
];

/// The answers of the upgrade race, and after each step the states of block 0: in core 0, in core 1 and in memory.
pub static RACE_ANSWERS: [(Result<Reply, Refused>, CacheState, CacheState, MemState); 13] = [
    (
        Ok(Reply::Issued(Request::GetS)),
        CacheState::IsAd,
        CacheState::I,
        MemState::IorS,
    ),
    (
        Ok(Reply::Ordered(Request::GetS)),
        CacheState::IsD,
        CacheState::I,
        MemState::IorS,
    ),
    (
        Ok(Reply::Came {
            payload: Payload::Data,
            from: None,
            did: Some(FIRST_LOAD),
        }),
        CacheState::S,
        CacheState::I,
        MemState::IorS,
    ),
    (
        Ok(Reply::Issued(Request::GetS)),
        CacheState::S,
        CacheState::IsAd,
        MemState::IorS,
    ),
    (
        Ok(Reply::Ordered(Request::GetS)),
        CacheState::S,
        CacheState::IsD,
        MemState::IorS,
    ),
    (
        Ok(Reply::Came {
            payload: Payload::Data,
            from: None,
            did: Some(Did {
                core: 1,
                ..FIRST_LOAD
            }),
        }),
        CacheState::S,
        CacheState::S,
        MemState::IorS,
    ),
    (
        Ok(Reply::Issued(Request::GetM)),
        CacheState::SmAd,
        CacheState::S,
        MemState::IorS,
    ),
    (
        Ok(Reply::Issued(Request::GetM)),
        CacheState::SmAd,
        CacheState::SmAd,
        MemState::IorS,
    ),
    (
        Ok(Reply::Ordered(Request::GetM)),
        CacheState::ImAd,
        CacheState::SmD,
        MemState::M,
    ),
    (
        Err(Refused::BusTaken(0)),
        CacheState::ImAd,
        CacheState::SmD,
        MemState::M,
    ),
    (
        Ok(Reply::Came {
            payload: Payload::Data,
            from: None,
            did: Some(STORE_OF_6),
        }),
        CacheState::ImAd,
        CacheState::M,
        MemState::M,
    ),
    (
        Ok(Reply::Ordered(Request::GetM)),
        CacheState::ImD,
        CacheState::I,
        MemState::M,
    ),
    (
        Ok(Reply::Came {
            payload: Payload::Data,
            from: Some(1),
            did: Some(Did {
                core: 0,
                value: 5,
                ..STORE_OF_6
            }),
        }),
        CacheState::M,
        CacheState::I,
        MemState::M,
    ),
];

/// Core 0 loads block 0 as its first operation.
const FIRST_LOAD: Did = Did {
    core: 0,
    number: 0,
    block: 0,
    word: 0,
    load: true,
    value: 0,
    hit: false,
};

/// Core 1 stores 6 in block 0 as its second operation.
const STORE_OF_6: Did = Did {
    core: 1,
    number: 1,
    block: 0,
    word: 0,
    load: false,
    value: 6,
    hit: false,
};

/// So many cores, four blocks of 64 bytes.
pub(crate) fn machine_of(alloc: Global, protocol: Protocol, cores: u32) -> Result<Machine, Fail> {
    let shape = Shape::new(cores, 4, 64)?;
    Ok(Machine::reset(alloc, protocol, shape)?)
}

/// Two cores, four blocks of 64 bytes, MSI.
pub(crate) fn two_cores(alloc: Global) -> Result<Machine, Fail> {
    machine_of(alloc, Protocol::Msi, 2)
}

/// The core asks for word 0 of the block.
pub(crate) fn ask(core: u32, block: u32, op: Op) -> Step {
    Step::Ask {
        core,
        block,
        word: 0,
        op,
    }
}

/// The core's request is ordered.
pub(crate) fn order(core: u32) -> Step {
    Step::Order { core }
}

/// The block's open transaction gets its response.
pub(crate) fn respond(block: u32) -> Step {
    Step::Respond { block }
}
