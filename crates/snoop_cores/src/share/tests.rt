//! What only the lock itself shows; the other tests stand in the crate `snoop_cores_tests`.

use crate::{
    AdvanceFault, GatherFault, SeatFault, Shared, Turn, Work, end_seats, end_watches, gather,
};
use snoop_rules::Protocol;
use snoop_trace::{Op, Shape};
use std::test::Fail;

/// The store of the value in word 0 of block 0.
fn store(value: u64) -> Work {
    Work {
        block: 0,
        word: 0,
        op: Op::Store(value),
    }
}

/// A load of word 0 of the block.
fn load(block: u32) -> Work {
    Work {
        block,
        word: 0,
        op: Op::Load,
    }
}

#[test]
fn a_turn_closes_the_work_of_another_core(rt: HostRuntime) -> Result<(), Fail> {
    let made = Shared::new(&rt, rt.alloc(), Protocol::Msi, Shape::new(2, 4, 64)?, 0);
    let Ok((shared, seats, watches)) = made else {
        return Err(Fail::from("a shared machine"));
    };
    let mut held = shared.lock(&rt);
    let turns = [
        held.bench.advance(&rt, 0, store(1)),
        held.bench.advance(&rt, 1, store(2)),
        held.bench.advance(&rt, 0, store(1)),
        held.bench.advance(&rt, 1, store(2)),
        held.bench.advance(&rt, 0, load(0)),
        held.bench.advance(&rt, 0, store(1)),
        held.bench.advance(&rt, 2, store(1)),
        held.bench.advance(&rt, 0, load(4)),
    ];
    let left = (held.bench.work(0), held.bench.work(1));
    let steps = held.bench.steps().len();
    held.unlock();
    end_seats(&rt, seats);
    end_watches(&rt, watches);
    shared.end(&rt);
    let expected = [
        Ok(Turn::Going),
        Ok(Turn::Going),
        Ok(Turn::Going),
        Ok(Turn::Going),
        Err(AdvanceFault::Other(store(1))),
        Ok(Turn::Stored),
        Err(AdvanceFault::NoCore),
        Err(AdvanceFault::NoBlock),
    ];
    if turns != expected {
        return Err(Fail::from("the turns of one bench"));
    }
    if left != (None, Some(store(2))) {
        return Err(Fail::from("the work that is left"));
    }
    if steps != 4 {
        return Err(Fail::from("how many steps"));
    }
    Ok(())
}

#[test]
fn readings_while_the_lock_is_held(rt: HostRuntime) -> Result<(), Fail> {
    let made = Shared::new(&rt, rt.alloc(), Protocol::Msi, Shape::new(2, 4, 64)?, 1);
    let Ok((shared, mut seats, mut watches)) = made else {
        return Err(Fail::from("a shared machine"));
    };
    let mut held = shared.lock(&rt);
    let watched = watches
        .get_mut(0)
        .map(|watch| (watch.totals().is_ok(), watch.value(0, 0)));
    let seated = seats
        .get_mut(0)
        .map(|seat| (seat.totals().is_ok(), seat.value(0, 0)));
    let asked = held.bench.advance(&rt, 0, store(7));
    held.unlock();
    let pending = gather(&rt, rt.alloc(), &shared, seats.as_slice()).err();
    let mut held = shared.lock(&rt);
    let turns = [
        asked,
        held.bench.advance(&rt, 0, store(7)),
        held.bench.advance(&rt, 0, store(7)),
    ];
    held.unlock();
    // The seat did not make that store. Its own load is core 0's second operation.
    let strange = seats.get_mut(0).map(|seat| (
        seat.load(&rt, 0, 0),
        seat.store(&rt, 1, 0, 2),
        seat.load(&rt, 4, 0),
    ));
    let held = shared.lock(&rt);
    let steps = held.bench().steps().len();
    held.unlock();
    end_seats(&rt, seats);
    end_watches(&rt, watches);
    shared.end(&rt);
    if watched != Some((true, Ok(0))) {
        return Err(Fail::from("the watch's readings"));
    }
    if seated != Some((true, Ok(0))) {
        return Err(Fail::from("the seat's readings"));
    }
    if turns != [Ok(Turn::Going), Ok(Turn::Going), Ok(Turn::Stored)] {
        return Err(Fail::from("the turns of the store"));
    }
    if pending != Some(GatherFault::Pending { core: 0 }) {
        return Err(Fail::from("the refusal of a pending store"));
    }
    let Some((Err(SeatFault::Stranger(did)), again, outside)) = strange else {
        return Err(Fail::from("no stranger"));
    };
    if did.number != 1 {
        return Err(Fail::from("the stranger's number"));
    }
    if again != Err(SeatFault::Stranger(did)) {
        return Err(Fail::from("the call after a stranger"));
    }
    if outside != Err(SeatFault::NoBlock) {
        return Err(Fail::from("a block outside the shape"));
    }
    // The store's Ask, Order and Respond, and the Ask of the load that hits: the calls that are refused at once take none.
    if steps != 4 {
        return Err(Fail::from("how many steps"));
    }
    Ok(())
}
