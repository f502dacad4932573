//! Out of memory: each test passes with any one growth refused. tools/refusals.py refuses each in turn.

use crate::machine::support::{RACE_ANSWERS, UPGRADE_RACE, two_cores};
use snoop_bus::Open;
use snoop_history::{Item, Totals};
use snoop_machine::{Machine, Refused, Reply};
use snoop_rules::{CacheState, MemState, Protocol};
use snoop_trace::{Shape, Step};
use std::alloc::Global;
use std::test::Fail;

/// What a machine shows of block 0: what both caches and memory hold, its waiting requests and its transaction; and of its history the
/// first eight items, of which the race has no more, how many there are, and the counts.
#[derive(Clone, Copy, PartialEq, Eq)]
struct BlockSeen {
    caches: [Option<CacheState>; 2],
    kept: [Option<u64>; 2],
    memory: Option<MemState>,
    value: Option<u64>,
    waiting: [bool; 2],
    waits_on: [bool; 2],
    open: Option<Open>,
    items: usize,
    history: [Option<Item>; 8],
    totals: Totals,
}

fn lines_of(machine: &Machine) -> [Option<usize>; 2] {
    [machine.lines(0), machine.lines(1)]
}

fn seen_of(machine: &Machine) -> BlockSeen {
    let log = machine.log();
    BlockSeen {
        caches: [machine.state(0, 0), machine.state(1, 0)],
        kept: [machine.kept(0, 0, 0), machine.kept(1, 0, 0)],
        memory: machine.mem_state(0),
        value: machine.mem_value(0, 0),
        waiting: [machine.waiting(0), machine.waiting(1)],
        waits_on: [machine.waits_on(0, 0), machine.waits_on(1, 0)],
        open: machine.open(0),
        items: log.len(),
        history: [
            log.item(0),
            log.item(1),
            log.item(2),
            log.item(3),
            log.item(4),
            log.item(5),
            log.item(6),
            log.item(7),
        ],
        totals: log.totals(),
    }
}

/// A machine at reset. Where a growth was refused, no other one is.
fn at_reset(alloc: Global) -> Result<Machine, Fail> {
    let shape = Shape::new(2, 4, 64)?;
    match Machine::reset(alloc, Protocol::Msi, shape) {
        Ok(machine) => Ok(machine),
        Err(_) => two_cores(alloc),
    }
}

/// Takes the step, again after a refused growth, which changes nothing. Answers what the step was answered then.
fn take(machine: &mut Machine, step: Step) -> Result<Result<Reply, Refused>, Fail> {
    let (seen, lines) = (seen_of(machine), lines_of(machine));
    let outcome = machine.step(step);
    if outcome != Err(Refused::NoMemory) {
        return Ok(outcome);
    }
    if seen_of(machine) != seen || lines_of(machine) != lines {
        return Err(Fail::from(step));
    }
    Ok(machine.step(step))
}

/// Takes the race, whose answers are what they are without refused growths.
fn take_race(machine: &mut Machine) -> Result<(), Fail> {
    for (step, (answer, ..)) in UPGRADE_RACE.iter().zip(&RACE_ANSWERS) {
        if take(machine, *step)? != *answer {
            return Err(Fail::from(*step));
        }
    }
    let log = machine.log();
    if log.flat(0, 0) != Some(5) || log.len() != 8 {
        return Err(Fail::from("the history"));
    }
    Ok(())
}

#[test]
fn a_step_out_of_memory_changes_nothing_and_is_taken_again(rt: HostRuntime) -> Result<(), Fail> {
    let mut machine = at_reset(rt.alloc())?;
    take_race(&mut machine)
}

/// Prepares the step, again after a refused growth, which adds no line; preparing changes nothing else. Then the step meets no refusal,
/// and adds the item that was told. Answers whether the step was taken.
fn prepare_and_take(machine: &mut Machine, step: Step) -> Result<bool, Fail> {
    let (seen, lines) = (seen_of(machine), lines_of(machine));
    let mut prepared = machine.prepare(step);
    if prepared == Err(Refused::NoMemory) {
        if lines_of(machine) != lines || seen_of(machine) != seen {
            return Err(Fail::from(step));
        }
        prepared = machine.prepare(step);
    }
    if seen_of(machine) != seen {
        return Err(Fail::from(step));
    }
    match prepared {
        Ok(told) => {
            if machine.step(step).is_err() || machine.log().item(seen.items) != told {
                return Err(Fail::from(step));
            }
            Ok(true)
        }
        Err(Refused::BusTaken(0)) => Ok(false),
        Err(cause) => Err(Fail::from(cause)),
    }
}

/// Takes the race, each step prepared.
fn take_prepared_race(machine: &mut Machine) -> Result<(), Fail> {
    let mut taken = 0_u32;
    for step in &UPGRADE_RACE {
        taken = taken.saturating_add(u32::from(prepare_and_take(machine, *step)?));
    }
    if taken != 12 || machine.log().flat(0, 0) != Some(5) {
        return Err(Fail::from(taken));
    }
    Ok(())
}

#[test]
fn a_prepared_step_takes_no_memory(rt: HostRuntime) -> Result<(), Fail> {
    let mut machine = at_reset(rt.alloc())?;
    take_prepared_race(&mut machine)
}
