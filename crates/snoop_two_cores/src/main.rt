//! Two cores do their rows at once, each in a thread of its own, while a watch reads in a third. Then a gathering joins what the cores
//! were answered, and its history is gone through. What it prints is the same however the threads run.
#![tactic(auto)]

use anyhow::{Context, Result, ensure};
use snoop_cores::{Free, Seat, Shared, Watch, end_seats, end_watches, gather, run_seats};
use snoop_history::{Item, Log};
use snoop_rules::Protocol;
use snoop_trace::{Row, Shape, read_rows};
use std::alloc::Global;
use std::sync::Wait;
use std::thread::Threads;
use std::{io, thread};

/// The second block begins at address 64. Core 1's load at address 0 gets 0 or 5, as the threads run.
const ROWS: &str = "S,0,0,5\nL,0,0\nL,1,0\nS,1,64,7\nL,1,64\n";

/// Reads block 0 until core 0's store is there, and answers what is read then.
fn await_store(watch: &mut Watch) -> Result<u64> {
    for _ in 0..1_000_000_000u64 {
        let value = watch.value(0, 0)?;
        if value != 0 {
            return Ok(value);
        }
    }
    Ok(0)
}

/// Lets the seats do their rows, each in a thread, while the watch reads in another. Answers what it read.
fn play<R: Threads + Wait + Sync>(
    rt: &R,
    alloc: Global,
    seats: &mut [Seat],
    watch: &mut Watch,
    rows: &[Row],
) -> Result<u64> {
    let (stops, read) = thread::join(
        rt,
        || run_seats(rt, alloc, seats, rows, &Free),
        || await_store(watch),
    );
    ensure!(stops?.iter().all(|stop| stop.is_none()), "a seat stopped");
    read
}

/// Prints a core's last answer.
fn print_answer<R: Print>(rt: &R, seat: &Seat) -> io::Result<()> {
    match seat.answers().last() {
        Some(did) => println!(rt; "core {}: the last answer is {}", did.core, did.value),
        None => Ok(()),
    }
}

/// How many operations had to ask the bus: the history has each of these with the response that it waited for.
fn misses(log: &Log) -> u64 {
    let mut count = 0u64;
    for place in 0..log.len() {
        if let Some(Item::Came(_, Some(_))) = log.item(place) {
            count = count.saturating_add(1);
        }
    }
    count
}

fn print_counts<R: Print>(rt: &R, log: &Log) -> io::Result<()> {
    let totals = log.totals();
    print!(rt; "log: {} loads, {} stores, ", totals.loads, totals.stores)?;
    println!(rt; "{} misses", misses(log))
}

/// Prints what no schedule changes.
fn report<R: Threads + Wait + Print + Sync>(
    rt: &R,
    alloc: Global,
    shared: &Shared,
    seats: &mut [Seat],
    watches: &mut [Watch],
    rows: &[Row],
) -> Result<()> {
    let watch = watches.first_mut().context("no watch")?;
    let read = play(rt, alloc, seats, watch, rows)?;
    println!(rt; "watch: block 0 has {read}")?;
    for seat in seats.iter() {
        print_answer(rt, seat)?;
    }
    print_counts(rt, &gather(rt, alloc, shared, seats)?.log)?;
    Ok(())
}

fn main(rt: HostRuntime) -> Result<()> {
    let alloc = rt.alloc();
    let shape = Shape::new(2, 4, 64)?;
    let rows = read_rows(alloc, &mut ROWS.as_bytes(), shape)?;
    let (shared, mut seats, mut watches) = Shared::new(&rt, alloc, Protocol::Mesi, shape, 1)?;
    let reported = report(&rt, alloc, &shared, &mut seats, &mut watches, &rows);
    end_seats(&rt, seats);
    end_watches(&rt, watches);
    shared.end(&rt);
    reported
}
