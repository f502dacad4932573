//! How many lines each core's map has.

use crate::machine::support::{ask, order, respond, two_cores};
use snoop_machine::{Machine, Reply, run_steps};
use snoop_rules::{CacheState, Protocol};
use snoop_trace::{Op, Shape, Step};
use std::alloc::Global;
use std::test::Fail;

/// Whether core 0's map has so many lines, and core 1's none.
fn has_lines(machine: &Machine, count: usize) -> bool {
    machine.lines(0) == Some(count) && machine.lines(1) == Some(0)
}

fn loads_of(alloc: Global, blocks: u32) -> Result<Vec<Step>, Fail> {
    let mut steps = Vec::new(alloc);
    for block in 0..blocks {
        steps.extend_from_slice(&[ask(0, block, Op::Load), order(0), respond(block)])?;
    }
    Ok(steps)
}

fn evictions_of(alloc: Global, blocks: u32) -> Result<Vec<Step>, Fail> {
    let mut steps = Vec::new(alloc);
    for block in 0..blocks {
        steps.push(ask(0, block, Op::Evict))?;
    }
    Ok(steps)
}

/// Whether all the steps are taken, and core 0's map then has so many lines.
fn lead_to(machine: &mut Machine, steps: &[Step], lines: usize) -> bool {
    run_steps(machine, steps) == steps.len() && has_lines(machine, lines)
}

#[test]
fn a_thousand_blocks_loaded_and_evicted(rt: HostRuntime) -> Result<(), Fail> {
    let shape = Shape::new(2, 65_536, 64)?;
    let loads = loads_of(rt.alloc(), 1_000)?;
    let evictions = evictions_of(rt.alloc(), 1_000)?;
    let mut machine = Machine::reset(rt.alloc(), Protocol::Msi, shape)?;
    if !lead_to(&mut machine, &loads, 1_000) || !lead_to(&mut machine, &evictions, 0) {
        return Err(Fail::from("a thousand lines and then none"));
    }
    Ok(())
}

/// Prepares core 0's load of block 1 twice: there is a line in I.
fn prepare_twice(machine: &mut Machine) -> Result<(), &'static str> {
    let load = ask(0, 1, Op::Load);
    if machine.prepare(load) != Ok(None) || machine.prepare(load) != Ok(None) {
        return Err("prepared twice");
    }
    if !has_lines(machine, 1) || machine.state(0, 1) != Some(CacheState::I) {
        return Err("a line in I");
    }
    Ok(())
}

/// The line stays where it was put in ahead, whatever comes between.
fn evict_and_load(machine: &mut Machine) -> Result<(), Fail> {
    if machine.step(ask(0, 1, Op::Evict)) != Ok(Reply::Absent) || !has_lines(machine, 1) {
        return Err(Fail::from("absent"));
    }
    for (step, lines) in [
        (ask(0, 1, Op::Load), 1),
        (order(0), 1),
        (respond(1), 1),
        (ask(0, 1, Op::Evict), 0),
    ] {
        if machine.step(step).is_err() || !has_lines(machine, lines) {
            return Err(Fail::from(step));
        }
    }
    Ok(())
}

#[test]
fn a_prepared_ask_has_its_line_already(rt: HostRuntime) -> Result<(), Fail> {
    let mut machine = two_cores(rt.alloc())?;
    prepare_twice(&mut machine)?;
    evict_and_load(&mut machine)
}
