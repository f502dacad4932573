//! Lists of steps, taken whole.

use crate::machine::support::{UPGRADE_RACE, ask, machine_of, order, respond, two_cores};
use snoop_history::{Came, Did, Item, Totals};
use snoop_machine::{Machine, run_steps};
use snoop_rules::{CacheState, MemState, Payload, Protocol, Request};
use snoop_trace::{Op, Step};
use std::alloc::Global;
use std::test::Fail;

/// Whether core 1 has won the race: its GetM is open on block 0, and core 0 has lost its copy.
fn has_a_winner(machine: &Machine) -> bool {
    let (Some(open), Some((core, request, _))) = (machine.open(0), machine.transfer(0)) else {
        return false;
    };
    core == 1
        && request == Request::GetM
        && open.core == core
        && open.request == request
        && open.payload == Payload::Data
        && open.from.is_none()
        && machine.state(0, 0) == Some(CacheState::ImAd)
        && machine.state(1, 0) == Some(CacheState::SmD)
        && machine.mem_state(0) == Some(MemState::M)
}

/// Whether both have stored, core 0 last.
fn has_both_stores(machine: &Machine) -> bool {
    machine.kept(0, 0, 0) == Some(5) && machine.log().flat(0, 0) == Some(5)
}

/// Takes the race in two parts: nine steps, and four of which one is refused.
fn take_in_parts(machine: &mut Machine) -> Result<(), &'static str> {
    if run_steps(machine, &UPGRADE_RACE[..9]) != 9 || !has_a_winner(machine) {
        return Err("nine steps");
    }
    if run_steps(machine, &UPGRADE_RACE[9..]) != 3 || !has_both_stores(machine) {
        return Err("the other four");
    }
    Ok(())
}

#[test]
fn a_refused_step_is_passed_over_and_not_counted(rt: HostRuntime) -> Result<(), Fail> {
    let mut machine = two_cores(rt.alloc())?;
    take_in_parts(&mut machine)?;
    Ok(())
}

#[test]
fn of_thirteen_steps_one_is_refused(rt: HostRuntime) -> Result<(), Fail> {
    let mut machine = two_cores(rt.alloc())?;
    let taken = run_steps(&mut machine, &UPGRADE_RACE);
    if taken != 12 || !has_both_stores(&machine) {
        return Err(Fail::from(taken));
    }
    Ok(())
}

/// Whether the history ends with this item, and has these totals.
fn ends_with(machine: &Machine, item: Item, totals: Totals) -> bool {
    let log = machine.log();
    log.item(log.len().saturating_sub(1)) == Some(item) && log.totals() == totals
}

/// The first core's store, whose data memory sends.
const FIRST_STORE: Item = Item::Came(
    Came {
        core: 0,
        request: Request::GetM,
        block: 0,
        from: None,
        payload: Payload::Data,
    },
    Some(Did {
        core: 0,
        number: 0,
        block: 0,
        word: 0,
        load: false,
        value: 0,
        hit: false,
    }),
);

const LAST_STORE: Item = Item::Came(
    Came {
        core: 255,
        request: Request::GetM,
        block: 0,
        from: Some(254),
        payload: Payload::Data,
    },
    Some(Did {
        core: 255,
        number: 0,
        block: 0,
        word: 0,
        load: false,
        value: 255,
        hit: false,
    }),
);

/// Each core asks to store its number in the block, and only then are the requests ordered.
fn waiting_stores(alloc: Global) -> Result<Vec<Step>, Fail> {
    let mut steps = Vec::new(alloc);
    for core in 0..256_u32 {
        steps.push(ask(core, 0, Op::Store(core as u64)))?;
    }
    for core in 0..256_u32 {
        steps.extend_from_slice(&[order(core), respond(0)])?;
    }
    Ok(steps)
}

/// Whether the first core has stored what memory sent it, and the last core last.
fn has_last_store(machine: &Machine) -> bool {
    let totals = Totals {
        stores: 256,
        get_m: 256,
        from_memory: 1,
        from_caches: 255,
        ..Totals::default()
    };
    machine.kept(255, 0, 0) == Some(255)
        && machine.log().item(1) == Some(FIRST_STORE)
        && ends_with(machine, LAST_STORE, totals)
}

#[test]
fn every_core_stores_after_the_one_before_it(rt: HostRuntime) -> Result<(), Fail> {
    let steps = waiting_stores(rt.alloc())?;
    let mut machine = machine_of(rt.alloc(), Protocol::Msi, 256)?;
    let taken = run_steps(&mut machine, &steps);
    if taken != 768 || !has_last_store(&machine) {
        return Err(Fail::from(taken));
    }
    Ok(())
}

/// Each core stores one more than its number and asks to evict the block, and only then are the evictions ordered.
fn late_evictions(alloc: Global) -> Result<Vec<Step>, Fail> {
    let mut steps = Vec::new(alloc);
    for core in 0..256_u32 {
        let store = ask(core, 0, Op::Store(core as u64 + 1));
        let evict = ask(core, 0, Op::Evict);
        steps.extend_from_slice(&[store, order(core), respond(0), evict])?;
    }
    for core in 0..256_u32 {
        steps.extend_from_slice(&[order(core), respond(0)])?;
    }
    Ok(steps)
}

/// The last writeback, which alone brings data.
const WRITTEN_BACK: Item = Item::Came(
    Came {
        core: 255,
        request: Request::PutM,
        block: 0,
        from: Some(255),
        payload: Payload::Data,
    },
    None,
);

/// Whether memory has the last core's value, and no other writeback was taken.
fn has_last_writeback(machine: &Machine) -> bool {
    let totals = Totals {
        stores: 256,
        get_m: 256,
        put_m: 256,
        from_memory: 1,
        from_caches: 255,
        writebacks: 1,
        stale: 255,
        ..Totals::default()
    };
    machine.kept(255, 0, 0).is_none()
        && machine.mem_value(0, 0) == Some(256)
        && machine.log().flat(0, 0) == Some(256)
        && ends_with(machine, WRITTEN_BACK, totals)
}

fn write_back(alloc: Global, protocol: Protocol, steps: &[Step]) -> Result<(), Fail> {
    let mut machine = machine_of(alloc, protocol, 256)?;
    let taken = run_steps(&mut machine, steps);
    if taken != 1536 || !has_last_writeback(&machine) {
        return Err(Fail::from(taken));
    }
    Ok(())
}

#[test]
fn only_the_last_of_all_writebacks_is_not_stale(rt: HostRuntime) -> Result<(), Fail> {
    let steps = late_evictions(rt.alloc())?;
    write_back(rt.alloc(), Protocol::Msi, &steps)?;
    write_back(rt.alloc(), Protocol::Mesi, &steps)
}
