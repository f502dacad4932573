//! Rows that wait for one another: two threads ran at once.

use crate::cores::scene::{Scene, Shown, all_ran, row};
use snoop_cores::{Gate, Late, Stop};
use snoop_trace::Op;
use std::sync::atomic::{AtomicU64, Ordering};
use std::test::Fail;

// Holds this core's first row until the other core has reached its own.
#[derive(Drop)]
struct Meet {
    held: u32,
    came: AtomicU64,
}

impl Gate for Meet {
    fn before(&self, core: u32, number: u64) -> Result<(), Late> {
        if number != 0 {
            return Ok(());
        }
        if core != self.held {
            self.came.store(1, Ordering::SeqCst);
            return Ok(());
        }
        for _ in 0..100_000_000u64 {
            if self.came.load(Ordering::SeqCst) == 1 {
                return Ok(());
            }
        }
        Err(Late)
    }
}

/// A core stores its value and loads it.
static OWN_FIVE: [(bool, u64); 2] = [(false, 5), (true, 5)];

static OWN_SIX: [(bool, u64); 2] = [(false, 6), (true, 6)];

#[test]
fn each_core_waits_for_the_other(rt: HostRuntime) -> Result<(), Fail> {
    let rows = [
        row(0, Op::Store(5), 0),
        row(0, Op::Load, 0),
        row(1, Op::Store(6), 64),
        row(1, Op::Load, 64),
    ];
    for held in 0..2 {
        let mut scene = Scene::new(&rt, rt.alloc(), 2)?;
        let gate = Meet {
            held,
            came: AtomicU64::new(0),
        };
        let ran = all_ran(&scene.run(&rt, rt.alloc(), rows.as_slice(), &gate));
        let shown = scene.shown(&rt, rt.alloc());
        let answered = scene.was_answered(0, &OWN_FIVE) && scene.was_answered(1, &OWN_SIX);
        scene.end(&rt);
        let expected = Shown {
            steps: 8,
            counts: [2, 2, 2, 0, 0, 2, 0, 2, 0, 0, 0, 0],
            values: [Some(5), Some(6)],
        };
        if !ran {
            return Err(Fail::from("a seat stopped"));
        }
        if !answered {
            return Err(Fail::from("what the seats were answered"));
        }
        if shown != Some(expected) {
            return Err(Fail::from("what gathers"));
        }
    }
    Ok(())
}

// A gate that lets each core's first row pass alone.
#[derive(Drop)]
struct First;

impl Gate for First {
    fn before(&self, _core: u32, number: u64) -> Result<(), Late> {
        if number < 1 { Ok(()) } else { Err(Late) }
    }
}

#[test]
fn a_late_gate_stops_cores_at_their_rows(rt: HostRuntime) -> Result<(), Fail> {
    let mut scene = Scene::new(&rt, rt.alloc(), 3)?;
    let rows = [
        row(0, Op::Store(5), 0),
        row(1, Op::Load, 64),
        row(0, Op::Load, 0),
        row(2, Op::Load, 64),
        row(1, Op::Evict, 64),
    ];
    let stops = scene.run(&rt, rt.alloc(), rows.as_slice(), &First);
    let shown = scene.shown(&rt, rt.alloc());
    scene.end(&rt);
    let (Ok(stops), Some(shown)) = (stops, shown) else {
        return Err(Fail::from("rows or a gathering"));
    };
    let late = Some(Stop::Late(1));
    let [loads, _, stores, ..] = shown.counts;
    if stops.as_slice() != [late, late, None].as_slice() {
        return Err(Fail::from("where the cores stopped"));
    }
    if loads != 2 {
        return Err(Fail::from("how many loads"));
    }
    if stores != 1 {
        return Err(Fail::from("how many stores"));
    }
    Ok(())
}
