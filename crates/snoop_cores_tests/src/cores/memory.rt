//! Out of memory: each test passes with any one growth refused. tools/refusals.py refuses each in turn.

use crate::cores::scene::{Scene, ask_rows, row, work};
use snoop_cores::{Free, GatherFault, Gathered, RunFault, SeatFault, Stop, Turn, Work, gather};
use snoop_history::{Came, Did, Item, Log, Sent};
use snoop_machine::{Machine, run_steps};
use snoop_rules::{Payload, Request};
use snoop_trace::{Op, Row, Step};
use std::alloc::Global;
use std::sync::Wait;
use std::test::Fail;
use std::thread::Threads;

const STORE_5: Work = Work {
    block: 0,
    word: 0,
    op: Op::Store(5),
};

// The steps of two cores on block 0.
const ASK_0: Step = Step::Ask {
    core: 0,
    block: 0,
    word: 0,
    op: Op::Store(5),
};

const ASK_1: Step = Step::Ask {
    core: 1,
    block: 0,
    word: 0,
    op: Op::Store(6),
};

const LOAD_1: Step = Step::Ask {
    core: 1,
    block: 0,
    word: 0,
    op: Op::Load,
};

const ORDER_0: Step = Step::Order { core: 0 };

const ORDER_1: Step = Step::Order { core: 1 };

const RESPOND: Step = Step::Respond { block: 0 };

/// Core 0 stores 5 in block 0, and core 1 loads it.
const HANDOVER: [Step; 6] = [ASK_0, ORDER_0, RESPOND, LOAD_1, ORDER_1, RESPOND];

/// The log of the handover.
const HANDED_OVER: [Item; 4] = [
    Item::Sent(Sent {
        core: 0,
        request: Request::GetM,
        block: 0,
    }),
    Item::Came(
        Came {
            core: 0,
            request: Request::GetM,
            block: 0,
            from: None,
            payload: Payload::Data,
        },
        Some(Did {
            core: 0,
            number: 0,
            block: 0,
            word: 0,
            load: false,
            value: 5,
            hit: false,
        }),
    ),
    Item::Sent(Sent {
        core: 1,
        request: Request::GetS,
        block: 0,
    }),
    Item::Came(
        Came {
            core: 1,
            request: Request::GetS,
            block: 0,
            from: Some(0),
            payload: Payload::Data,
        },
        Some(Did {
            core: 1,
            number: 0,
            block: 0,
            word: 0,
            load: true,
            value: 5,
            hit: false,
        }),
    ),
];

/// Gathers; out of memory, once more.
fn gathers<R: Wait>(scene: &Scene, rt: &R, alloc: Global) -> Option<Gathered> {
    match gather(rt, alloc, &scene.shared, scene.seats.as_slice()) {
        Err(GatherFault::NoMemory) => scene.gathered(rt, alloc),
        gathered => gathered.ok(),
    }
}

/// Makes again core 0's store of 5, which is pending: its load, as a call and as a row, and a gathering are refused before.
fn goes_on<R: Threads + Wait + Sync>(
    scene: &mut Scene,
    rt: &R,
    alloc: Global,
) -> Option<Result<Turn, SeatFault>> {
    let loaded = scene.call(rt, 0, work(Op::Load));
    let rows = [row(0, Op::Load, 0)];
    let stops = scene.run(rt, alloc, rows.as_slice(), &Free);
    let stop = match &stops {
        Ok(stops) => stops.first().copied().flatten(),
        Err(_) => None,
    };
    let gathered = scene.refusal(rt, alloc, scene.seats.as_slice());
    let busy = SeatFault::Busy(STORE_5);
    if (loaded, stop, gathered)
        != (
            Some(Err(busy)),
            Some(Stop::Fault(0, busy)),
            Some(GatherFault::Pending { core: 0 }),
        )
    {
        return None;
    }
    scene.call(rt, 0, STORE_5)
}

/// Whether the log has these items, and no others.
fn has_items(log: &Log, items: &[Item]) -> bool {
    for (place, item) in items.iter().enumerate() {
        if log.item(place) != Some(*item) {
            return false;
        }
    }
    log.len() == items.len()
}

/// How many stores of the core the log has.
fn stores_of(log: &Log, core: u32) -> usize {
    let mut count = 0usize;
    for place in 0..log.len() {
        let did = log.item(place).and_then(|item| item.did());
        if did.is_some_and(|did| did.core == core && !did.load) {
            count = count.saturating_add(1);
        }
    }
    count
}

/// Whether a fresh machine takes all gathered steps, to an equal log.
fn takes_all_again(alloc: Global, gathered: &Gathered) -> bool {
    let Ok(mut machine) = Machine::reset(alloc, gathered.protocol, gathered.shape) else {
        return false;
    };
    run_steps(&mut machine, &gathered.steps) == gathered.steps.len()
        && machine.log().equals(&gathered.log)
}

/// Whether a gathering has the steps and the items of the handover, which a fresh machine gives too, and how many stores of core 0.
fn handed_over<R: Wait>(scene: &Scene, rt: &R, alloc: Global) -> Option<(bool, bool, usize)> {
    let gathered = gathers(scene, rt, alloc)?;
    let (steps, log) = (gathered.steps.as_slice(), &gathered.log);
    Some((
        steps == HANDOVER.as_slice(),
        has_items(log, &HANDED_OVER)
            && (takes_all_again(alloc, &gathered) || takes_all_again(alloc, &gathered)),
        stores_of(log, 0),
    ))
}

#[test]
fn a_pending_store_is_handed_over_once(rt: HostRuntime) -> Result<(), Fail> {
    let mut scene = Scene::new(&rt, rt.alloc(), 2)?;
    let mut stored = scene.call(&rt, 0, STORE_5);
    if stored == Some(Err(SeatFault::NoMemory)) {
        stored = goes_on(&mut scene, &rt, rt.alloc());
    }
    let own = scene.seated(0);
    let before = scene.counted();
    let loaded = scene.call_at_last(&rt, 1, work(Op::Load));
    let after = scene.counted();
    let value = scene.watched();
    let first = handed_over(&scene, &rt, rt.alloc());
    let second = handed_over(&scene, &rt, rt.alloc());
    scene.end(&rt);
    if stored != Some(Ok(Turn::Stored)) {
        return Err(Fail::from("the store's answer"));
    }
    if loaded != Some(Ok(Turn::Loaded(5))) {
        return Err(Fail::from("the load's answer"));
    }
    if own != Some(Ok(5)) {
        return Err(Fail::from("the seat's own value"));
    }
    if value != Some(Ok(5)) {
        return Err(Fail::from("the watch's value"));
    }
    if before != Some([0, 0, 1, 0, 0, 1, 0, 1, 0, 0, 0, 0]) {
        return Err(Fail::from("the counts after the store"));
    }
    if after != Some([1, 0, 1, 0, 1, 1, 0, 1, 1, 0, 0, 0]) {
        return Err(Fail::from("the counts after the load"));
    }
    if first != Some((true, true, 1)) {
        return Err(Fail::from("the first gathering"));
    }
    if second != Some((true, true, 1)) {
        return Err(Fail::from("the second gathering"));
    }
    Ok(())
}

/// The steps where core 0 stores 5 and core 1 then stores 6, and the value that is left. The first is that of a store that is not out of
/// memory. After one that is, core 0's call is made again after core 1's: its steps go on where they stopped; where its transaction is
/// open, core 1 ends it, and no step is left.
const ORDERS: [([Step; 6], u64); 4] = [
    ([ASK_0, ORDER_0, RESPOND, ASK_1, ORDER_1, RESPOND], 6),
    ([ASK_0, ORDER_0, ASK_1, RESPOND, ORDER_1, RESPOND], 6),
    ([ASK_0, ASK_1, ORDER_1, RESPOND, ORDER_0, RESPOND], 5),
    ([ASK_1, ORDER_1, RESPOND, ASK_0, ORDER_0, RESPOND], 5),
];

/// Whether the steps have one of the orders, after those of so many loads, and the value is its own.
fn is_in_order(
    steps: &[Step],
    loads: usize,
    value: Option<u64>,
    orders: &[([Step; 6], u64)],
) -> bool {
    let before = if loads == 0 {
        0
    } else {
        loads.saturating_add(2)
    };
    let rest = steps.get(before..);
    orders.iter().any(|(order, left)| rest == Some(order.as_slice()) && value == Some(*left))
}

/// Whether a gathering has one of the orders, after those of so many loads, and how many stores of each core.
fn ends_in<R: Wait>(
    scene: &Scene,
    rt: &R,
    alloc: Global,
    loads: usize,
    orders: &[([Step; 6], u64)],
) -> Option<(bool, usize, usize)> {
    let gathered = gathers(scene, rt, alloc)?;
    let log = &gathered.log;
    Some((
        is_in_order(gathered.steps.as_slice(), loads, log.flat(0, 0), orders),
        stores_of(log, 0),
        stores_of(log, 1),
    ))
}

#[test]
fn another_store_ends_an_open_transaction(rt: HostRuntime) -> Result<(), Fail> {
    let unrelated = Work {
        block: 1,
        word: 0,
        op: Op::Load,
    };
    let (whole, stopped) = ORDERS.as_slice().split_at(1);
    // So many loads come first: the growths of the stores fall at other steps.
    for count in 0..5usize {
        let mut scene = Scene::new(&rt, rt.alloc(), 2)?;
        let mut loaded = true;
        for _ in 0..count {
            loaded = loaded && scene.call_at_last(&rt, 1, unrelated) == Some(Ok(Turn::Loaded(0)));
        }
        let first = scene.call(&rt, 0, STORE_5);
        let other = scene.call_at_last(&rt, 1, work(Op::Store(6)));
        let (stored, orders) = if first == Some(Err(SeatFault::NoMemory)) {
            (goes_on(&mut scene, &rt, rt.alloc()), stopped)
        } else {
            (first, whole)
        };
        let ended = ends_in(&scene, &rt, rt.alloc(), count, orders);
        scene.end(&rt);
        if !loaded {
            return Err(Fail::from("the loads that come first"));
        }
        if stored != Some(Ok(Turn::Stored)) {
            return Err(Fail::from("core 0's store"));
        }
        if other != Some(Ok(Turn::Stored)) {
            return Err(Fail::from("core 1's store"));
        }
        if ended != Some((true, 1, 1)) {
            return Err(Fail::from("the gathering"));
        }
    }
    Ok(())
}

/// The operation of a row, where it lies in a block.
fn work_of(row: &Row) -> Option<Work> {
    let block = u32::try_from(row.address / 64).ok()?;
    Some(Work {
        block,
        word: 0,
        op: row.op,
    })
}

/// Ends the rows of a core that stopped: out of memory at the row that is pending now, which the same call performs.
fn end_rows<R: Wait>(scene: &mut Scene, rt: &R, rows: &[Row], core: u32, stop: Stop) -> bool {
    let Stop::Fault(number, SeatFault::NoMemory) = stop else {
        return false;
    };
    let pending = scene
        .seats
        .get(core as usize)
        .and_then(|seat| seat.pending());
    let mut place = 0u64;
    for row in rows {
        if row.core == core {
            let Some(work) = work_of(row) else {
                return false;
            };
            if place == number && pending != Some(work) {
                return false;
            }
            if place >= number && !matches!(scene.call(rt, core, work), Some(Ok(_))) {
                return false;
            }
            place = place.saturating_add(1);
        }
    }
    place > number
}

/// Whether no seat has done anything.
fn is_unused(scene: &mut Scene) -> bool {
    scene.counted() == Some([0; 12])
        && scene.seats.iter().all(|seat| seat.pending().is_none() && seat.answers().is_empty())
}

/// Lets the seats perform the rows: out of memory nothing ran, and they run when asked again. A core that stopped makes its calls.
fn run_rows<R: Threads + Wait + Sync>(
    scene: &mut Scene,
    rt: &R,
    alloc: Global,
    rows: &[Row],
) -> bool {
    let mut stops = scene.run(rt, alloc, rows, &Free);
    if let Err(fault) = stops {
        if fault != RunFault::NoMemory || !is_unused(scene) {
            return false;
        }
        stops = scene.run(rt, alloc, rows, &Free);
    }
    let Ok(stops) = stops else {
        return false;
    };
    for (core, stop) in (0..).zip(&stops) {
        if let Some(stop) = *stop
            && !end_rows(scene, rt, rows, core, stop)
        {
            return false;
        }
    }
    true
}

/// Whether a gathering asks for the rows of both cores, and how many loads and stores it has.
fn asked<R: Wait>(scene: &Scene, rt: &R, alloc: Global, rows: &[Row]) -> Option<(bool, u64, u64)> {
    let gathered = gathers(scene, rt, alloc)?;
    let steps = gathered.steps.as_slice();
    let totals = gathered.log.totals();
    Some((
        ask_rows(steps, rows, 0) && ask_rows(steps, rows, 1),
        totals.loads,
        totals.stores,
    ))
}

#[test]
fn rows_go_on_where_they_stopped(rt: HostRuntime) -> Result<(), Fail> {
    let rows = [
        row(0, Op::Store(5), 0),
        row(1, Op::Store(6), 0),
        row(0, Op::Load, 64),
        row(1, Op::Load, 64),
        row(0, Op::Evict, 0),
        row(1, Op::Evict, 64),
        row(0, Op::Store(7), 0),
        row(1, Op::Load, 0),
    ];
    let rows = rows.as_slice();
    let mut scene = Scene::new(&rt, rt.alloc(), 2)?;
    let ran = run_rows(&mut scene, &rt, rt.alloc(), rows);
    let asked = asked(&scene, &rt, rt.alloc(), rows);
    scene.end(&rt);
    if !ran {
        return Err(Fail::from("a row that was not performed"));
    }
    if asked != Some((true, 3, 3)) {
        return Err(Fail::from("the gathering"));
    }
    Ok(())
}
