//! Readings of versions beside cores that store, and after all others have ended.

use crate::cores::scene::{Scene, all_ran, counts, row, work};
use snoop_cores::{Free, Turn, Watch, end_seats, end_watches, run_seats};
use snoop_trace::{Op, Row};
use std::test::Fail;
use std::thread;

// Reads the counts until so many stores are seen, and at least so often from the first store on; whether each reading was answered and
// no count fell.
fn never_falls(watch: &mut Watch, times: u32, stores: u64) -> bool {
    let mut before = [0; 12];
    let mut shown = 0u32;
    for _ in 0..100_000_000u32 {
        let Ok(totals) = watch.totals() else {
            return false;
        };
        let after = counts(totals);
        if before.iter().zip(after.iter()).any(|(was, is)| is < was) {
            return false;
        }
        if totals.stores > 0 {
            shown = shown.saturating_add(1);
        }
        if shown >= times && totals.stores >= stores {
            return true;
        }
        before = after;
    }
    false
}

#[test]
fn counts_never_fall_beside_two_cores_that_store(rt: HostRuntime) -> Result<(), Fail> {
    let mut rows: Vec<Row> = Vec::new(rt.alloc());
    for value in 0..100u64 {
        rows.push(row(0, Op::Store(value), 0))?;
        rows.push(row(1, Op::Store(value), 0))?;
    }
    let mut scene = Scene::new(&rt, rt.alloc(), 2)?;
    let seats = scene.seats.as_mut_slice();
    let watches = scene.watches.as_mut_slice();
    let (stops, risen) = thread::join(
        &rt,
        || run_seats(&rt, rt.alloc(), seats, rows.as_slice(), &Free),
        || match watches.get_mut(0) {
            Some(watch) => never_falls(watch, 1_000, 200),
            None => false,
        },
    );
    let shown = scene.shown(&rt, rt.alloc());
    scene.end(&rt);
    if !all_ran(&stops) {
        return Err(Fail::from("a seat stopped"));
    }
    if !risen {
        return Err(Fail::from("a reading failed, or a count fell"));
    }
    if shown.map(|shown| shown.counts[2]) != Some(200) {
        return Err(Fail::from("how many stores"));
    }
    Ok(())
}

/// The versions live as long as the watch does, whose share of the lock is the last.
#[test]
fn a_watch_outlives_all_others(rt: HostRuntime) -> Result<(), Fail> {
    let mut scene = Scene::new(&rt, rt.alloc(), 2)?;
    let stored = scene.call_at_last(&rt, 0, work(Op::Store(5)));
    let Scene {
        shared,
        seats,
        mut watches,
    } = scene;
    end_seats(&rt, seats);
    shared.end(&rt);
    let value = watches.get_mut(0).map(|watch| watch.value(0, 0));
    let stores = watches
        .get_mut(0)
        .map(|watch| watch.totals().map(|totals| totals.stores));
    end_watches(&rt, watches);
    if stored != Some(Ok(Turn::Stored)) {
        return Err(Fail::from("the store"));
    }
    if value != Some(Ok(5)) {
        return Err(Fail::from("the value"));
    }
    if stores != Some(Ok(1)) {
        return Err(Fail::from("the counts"));
    }
    Ok(())
}

/// A seat does its operations and reads, though it is the last to have a share of the lock.
#[test]
fn a_seat_outlives_all_others(rt: HostRuntime) -> Result<(), Fail> {
    let scene = Scene::new(&rt, rt.alloc(), 2)?;
    let Scene {
        shared,
        mut seats,
        watches,
    } = scene;
    let last = seats.pop();
    end_seats(&rt, seats);
    end_watches(&rt, watches);
    shared.end(&rt);
    let Some(mut last) = last else {
        return Err(Fail::from("a seat"));
    };
    let stored = last.store(&rt, 0, 0, 5);
    let value = last.value(0, 0);
    last.end(&rt);
    if stored != Ok(()) {
        return Err(Fail::from("the store"));
    }
    if value != Ok(5) {
        return Err(Fail::from("the value"));
    }
    Ok(())
}
