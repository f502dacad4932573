//! The history of a store and a load, and the board of the same items.

use snoop_history::{Board, Came, Did, Item, Log, Sent, Totals};
use snoop_rules::{Payload, Request};
use snoop_trace::Shape;
use std::alloc::Global;
use std::test::Fail;

/// Core 0 stores 7 in block 1.
const STORED: Did = Did {
    core: 0,
    number: 0,
    block: 1,
    word: 0,
    load: false,
    value: 7,
    hit: false,
};

/// Core 1 loads it.
const LOADED: Did = Did {
    core: 1,
    load: true,
    ..STORED
};

static ITEMS: [Item; 4] = [
    Item::Sent(Sent {
        core: 0,
        request: Request::GetM,
        block: 1,
    }),
    Item::Came(
        Came {
            core: 0,
            request: Request::GetM,
            block: 1,
            from: None,
            payload: Payload::Data,
        },
        Some(STORED),
    ),
    Item::Sent(Sent {
        core: 1,
        request: Request::GetS,
        block: 1,
    }),
    Item::Came(
        Came {
            core: 1,
            request: Request::GetS,
            block: 1,
            from: Some(0),
            payload: Payload::Data,
        },
        Some(LOADED),
    ),
];

const TOTALS: Totals = Totals {
    loads: 1,
    load_hits: 0,
    stores: 1,
    store_hits: 0,
    get_s: 1,
    get_m: 1,
    put_m: 0,
    from_memory: 1,
    from_caches: 1,
    writebacks: 0,
    clean: 0,
    stale: 0,
};

fn log_of(alloc: Global) -> Result<Log, Fail> {
    let mut log = Log::new(alloc, Shape::new(2, 4, 64)?)?;
    for item in &ITEMS {
        log.reserve()?;
        if log.has_room() && log.takes(*item) {
            log.push(*item);
        }
    }
    Ok(log)
}

/// Whether it has the items and answers what follows from them, inside the shape and outside.
fn is_the_log(log: &Log) -> bool {
    log.len() == 4
        && log.item(3) == Some(ITEMS[3])
        && [log.flat(0, 0), log.flat(1, 0), log.flat(4, 0)] == [Some(0), Some(7), None]
        && [log.count(0), log.count(1), log.count(2)] == [Some(1), Some(1), None]
        && log.totals() == TOTALS
}

fn has_stored(log: &Log) -> bool {
    match log.answers(0) {
        Ok(answers) => answers.as_slice() == [STORED].as_slice(),
        Err(_) => false,
    }
}

fn has_an_equal_copy(log: &Log) -> bool {
    match log.copy() {
        Ok(copy) => copy.equals(log) && is_the_log(&copy),
        Err(_) => false,
    }
}

#[test]
fn a_log_and_its_copy(rt: HostRuntime) -> Result<(), Fail> {
    let log = log_of(rt.alloc())?;
    if !is_the_log(&log) || !has_stored(&log) || !has_an_equal_copy(&log) {
        return Err(Fail::from("the log or its copy"));
    }
    Ok(())
}

/// Whether it answers what follows from the items, with these totals.
fn is_the_board(board: &Board, totals: Totals) -> bool {
    [board.value(0, 0), board.value(1, 0), board.value(4, 0)] == [Some(0), Some(7), None]
        && [board.count(0), board.count(1), board.count(2)] == [Some(1), Some(1), None]
        && [board.last(0), board.last(1), board.last(2)] == [Some(STORED), Some(LOADED), None]
        && board.totals() == totals
}

/// A request for a block that there is not.
const OUTSIDE: Item = Item::Sent(Sent {
    core: 0,
    request: Request::GetS,
    block: 9,
});

/// The request outside is counted, and changes nothing else.
#[test]
fn a_board_of_items_inside_and_outside(rt: HostRuntime) -> Result<(), Fail> {
    let mut board = Board::new(rt.alloc(), Shape::new(2, 4, 64)?)?;
    for item in &ITEMS {
        board.absorb(*item);
    }
    if !is_the_board(&board, TOTALS) {
        return Err(Fail::from("the board"));
    }
    board.absorb(OUTSIDE);
    let totals = Totals { get_s: 2, ..TOTALS };
    if !is_the_board(&board, totals) {
        return Err(Fail::from("a request outside the shape"));
    }
    Ok(())
}
