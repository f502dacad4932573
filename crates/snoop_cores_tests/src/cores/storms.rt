//! Storms: rows of many seats on few blocks. Whatever order their threads take, each core asks for its rows in their order, and the
//! gathered steps replay to an equal log.

use crate::cores::scene::{Scene, all_ran, ask_rows, row};
use snoop_cores::{Free, Gate, Gathered, Late};
use snoop_engine::simulate_steps;
use snoop_history::write_report;
use snoop_machine::{Machine, run_steps};
use snoop_rules::Protocol;
use snoop_trace::{Op, Row, Shape, write_steps};
use std::alloc::Global;
use std::sync::Wait;
use std::sync::atomic::{AtomicU64, Ordering};
use std::test::Fail;
use std::thread::Threads;

/// So many rows of each core, in turn, by the upper 31 bits of a linear congruential generator. A store stores the number of its row,
/// counted from 1.
fn storm_of(alloc: Global, cores: u32, each: u32) -> Result<Vec<Row>, Fail> {
    let mut seed = 1u64;
    let mut place = 0u64;
    let mut rows = Vec::new(alloc);
    for _ in 0..each {
        for core in 0..cores {
            seed = seed
                .wrapping_mul(6364136223846793005)
                .wrapping_add(1442695040888963407);
            let number = seed >> 33;
            place = place.saturating_add(1);
            let op = match number % 3 {
                0 => Op::Load,
                1 => Op::Store(place),
                _ => Op::Evict,
            };
            rows.push(row(core, op, number / 40 % 3 * 64))?;
        }
    }
    Ok(rows)
}

/// Keeps so many cores in step: a row waits until all of them have begun those before it, but not for long.
#[derive(Drop)]
struct InStep {
    cores: u32,
    begun: AtomicU64,
}

impl Gate for InStep {
    fn before(&self, _core: u32, number: u64) -> Result<(), Late> {
        self.begun.fetch_add(1, Ordering::SeqCst);
        let wanted = number.saturating_mul(u64::from(self.cores));
        for _ in 0..100_000u64 {
            if self.begun.load(Ordering::SeqCst) >= wanted {
                return Ok(());
            }
        }
        Ok(())
    }
}

/// Lets the seats of a new machine perform the rows, with so many cores in step, and gathers.
fn perform<R: Threads + Wait + Sync>(
    rt: &R,
    alloc: Global,
    protocol: Protocol,
    cores: u32,
    rows: &[Row],
    in_step: u32,
) -> Result<Gathered, Fail> {
    let Some(mut scene) = Scene::make(rt, alloc, protocol, cores) else {
        return Err(Fail::from("a shared machine"));
    };
    let stops = if in_step == 0 {
        scene.run(rt, alloc, rows, &Free)
    } else {
        let gate = InStep {
            cores: in_step,
            begun: AtomicU64::new(0),
        };
        scene.run(rt, alloc, rows, &gate)
    };
    let ran = all_ran(&stops);
    let gathered = scene.gathered(rt, alloc);
    scene.end(rt);
    match gathered {
        Some(gathered) if ran => Ok(gathered),
        _ => Err(Fail::from("a seat stopped, or nothing gathers")),
    }
}

/// Whether the gathered steps, written as a text and simulated, end with the report of the gathered log.
fn ends_with_report(
    alloc: Global,
    protocol: Protocol,
    shape: Shape,
    gathered: &Gathered,
) -> Result<bool, Fail> {
    let mut text = Vec::new(alloc);
    write_steps(
        alloc,
        &mut text,
        gathered.protocol,
        gathered.shape,
        gathered.steps.as_slice(),
    )?;
    let mut output = Vec::new(alloc);
    simulate_steps(alloc, &mut text.as_slice(), &mut output, protocol, shape)?;
    let mut report = Vec::new(alloc);
    write_report(alloc, &mut report, &gathered.log)?;
    Ok(output.as_slice().ends_with(report.as_slice()))
}

/// A storm under each protocol.
fn storm<R: Threads + Wait + Sync>(
    rt: &R,
    alloc: Global,
    cores: u32,
    rows: &[Row],
    in_step: u32,
) -> Result<(), Fail> {
    for protocol in [Protocol::Msi, Protocol::Mesi] {
        let shape = Shape::new(cores, 4, 64)?;
        let gathered = perform(rt, alloc, protocol, cores, rows, in_step)?;
        if !ends_with_report(alloc, protocol, shape, &gathered)? {
            return Err(Fail::from("the report of the gathered log"));
        }
        let steps = gathered.steps.as_slice();
        let mut fresh = Machine::reset(alloc, protocol, shape)?;
        let taken = run_steps(&mut fresh, steps);
        if taken != steps.len() {
            return Err(Fail::from("a step that a fresh machine does not take"));
        }
        if !fresh.log().equals(&gathered.log) {
            return Err(Fail::from("the log of a fresh machine"));
        }
        for core in 0..cores {
            if !ask_rows(steps, rows, core) {
                return Err(Fail::from("the rows that a core asks for"));
            }
        }
    }
    Ok(())
}

#[test]
fn storms_of_2_8_and_64_seats(rt: HostRuntime) -> Result<(), Fail> {
    for (cores, each) in [(2, 800), (8, 200), (64, 25)] {
        let rows = storm_of(rt.alloc(), cores, each)?;
        storm(&rt, rt.alloc(), cores, rows.as_slice(), 0)?;
    }
    Ok(())
}

#[test]
fn a_storm_on_one_block(rt: HostRuntime) -> Result<(), Fail> {
    let mut rows = storm_of(rt.alloc(), 8, 200)?;
    for row in &mut rows {
        row.address = 0;
    }
    storm(&rt, rt.alloc(), 8, rows.as_slice(), 8)
}
