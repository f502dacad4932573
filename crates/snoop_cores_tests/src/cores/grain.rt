//! The lock is held for one step at a time: between the Order and the Respond of a core's work another core takes a step.

use crate::cores::scene::{Scene, row};
use snoop_cores::{Free, Gathered, run_seats};
use snoop_trace::{Op, Row, Step};
use std::alloc::Global;
use std::sync::Wait;
use std::test::Fail;
use std::thread::Threads;

/// Two cores store in turn in blocks of their own, and give them up, so that each operation asks the bus.
fn rows_of(alloc: Global) -> Result<Vec<Row>, Fail> {
    let mut rows = Vec::new(alloc);
    for value in 0..500u64 {
        for core in 0..2u32 {
            let address = u64::from(core * 64);
            rows.push(row(core, Op::Store(value), address))?;
            rows.push(row(core, Op::Evict, address))?;
        }
    }
    Ok(rows)
}

/// Whether some Order is followed by another core's step.
fn are_parted(steps: &[Step]) -> bool {
    let mut ordered = false;
    for step in steps {
        if ordered && !matches!(*step, Step::Respond { .. }) {
            return true;
        }
        ordered = matches!(*step, Step::Order { .. });
    }
    false
}

fn run_once<R: Threads + Wait + Sync>(
    rt: &R,
    alloc: Global,
    rows: &[Row],
) -> Result<Gathered, Fail> {
    let mut scene = Scene::new(rt, alloc, 2)?;
    let stops = run_seats(rt, alloc, &mut scene.seats, rows, &Free);
    let gathered = scene.gathered(rt, alloc);
    scene.end(rt);
    match (stops, gathered) {
        (Ok(_), Some(gathered)) => Ok(gathered),
        _ => Err(Fail::from("rows or a gathering")),
    }
}

#[test]
fn a_step_of_another_core_between_order_and_respond(rt: HostRuntime) -> Result<(), Fail> {
    let rows = rows_of(rt.alloc())?;
    for _ in 0..200u32 {
        let gathered = run_once(&rt, rt.alloc(), &rows)?;
        if are_parted(&gathered.steps) {
            return Ok(());
        }
    }
    Err(Fail::from("each Order was followed by its Respond"))
}
