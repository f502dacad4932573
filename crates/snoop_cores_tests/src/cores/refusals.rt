//! Calls that are refused.

use crate::cores::scene::{Scene, row, work};
use snoop_cores::{
    AdvanceFault, Free, GatherFault, Late, MakeFault, RunFault, Seat, SeatFault, Shared, Turn,
    ViewFault, Work,
};
use snoop_history::Did;
use snoop_rules::Protocol;
use snoop_trace::{Op, Shape};
use std::test::Fail;

#[test]
fn a_row_outside_the_shape(rt: HostRuntime) -> Result<(), Fail> {
    let mut scene = Scene::new(&rt, rt.alloc(), 2)?;
    let rows = [row(1, Op::Store(1), 0), row(0, Op::Load, 256)];
    let fault = scene.run(&rt, rt.alloc(), rows.as_slice(), &Free).err();
    let shown = scene.shown(&rt, rt.alloc());
    scene.end(&rt);
    if fault != Some(RunFault::NoSeat { core: 0 }) {
        return Err(Fail::from("the fault of the row"));
    }
    if shown.map(|shown| shown.steps) != Some(0) {
        return Err(Fail::from("how many steps"));
    }
    Ok(())
}

#[test]
fn a_refused_call_takes_no_step(rt: HostRuntime) -> Result<(), Fail> {
    let mut scene = Scene::new(&rt, rt.alloc(), 2)?;
    let stored = scene.call(&rt, 0, work(Op::Store(1)));
    let refused = [
        scene.call(&rt, 0, of_block_4(Op::Load)),
        scene.call(&rt, 0, of_block_4(Op::Store(2))),
        scene.call(&rt, 0, of_block_4(Op::Evict)),
    ];
    let shown = scene.shown(&rt, rt.alloc());
    scene.end(&rt);
    if stored != Some(Ok(Turn::Stored)) {
        return Err(Fail::from("the store"));
    }
    if refused != [Some(Err(SeatFault::NoBlock)); 3] {
        return Err(Fail::from("the calls outside the shape"));
    }
    // The store's Ask, Order and Respond.
    if shown.map(|shown| shown.steps) != Some(3) {
        return Err(Fail::from("how many steps"));
    }
    Ok(())
}

/// The operation on a block that is not there.
fn of_block_4(op: Op) -> Work {
    Work {
        block: 4,
        ..work(op)
    }
}

#[test]
fn seats_that_do_not_gather(rt: HostRuntime) -> Result<(), Fail> {
    let scene = Scene::new(&rt, rt.alloc(), 2)?;
    let mut other = match Scene::new(&rt, rt.alloc(), 2) {
        Ok(other) => other,
        Err(fail) => {
            scene.end(&rt);
            return Err(fail);
        }
    };
    let nobody: [Seat; 0] = [];
    let none = scene.refusal(&rt, rt.alloc(), nobody.as_slice());
    let alone = match scene.seats.get(0..1) {
        Some(seats) => scene.refusal(&rt, rt.alloc(), seats),
        None => None,
    };
    let stored = other.call(&rt, 0, work(Op::Store(5)));
    let others = scene.refusal(&rt, rt.alloc(), other.seats.as_slice());
    let all = scene.shown(&rt, rt.alloc()).is_some();
    scene.end(&rt);
    other.end(&rt);
    if stored != Some(Ok(Turn::Stored)) {
        return Err(Fail::from("the store of the other machine"));
    }
    if !all {
        return Err(Fail::from("the gathering of all seats"));
    }
    if none != Some(GatherFault::NotAllSeats { core: 0 }) {
        return Err(Fail::from("the refusal of no seat"));
    }
    if alone != Some(GatherFault::NotAllSeats { core: 1 }) {
        return Err(Fail::from("the refusal of one seat"));
    }
    if others != Some(GatherFault::Mismatch { core: 0, place: 0 }) {
        return Err(Fail::from("the refusal of the other machine's seats"));
    }
    Ok(())
}

#[test]
fn places_for_seats_and_watches(rt: HostRuntime) -> Result<(), Fail> {
    let scene = Scene::new(&rt, rt.alloc(), 256)?;
    let most = (scene.seats.len(), scene.watches.len());
    scene.end(&rt);
    let shape = Shape::new(2, 4, 64)?;
    let fault = match Shared::new(&rt, rt.alloc(), Protocol::Msi, shape, u32::MAX) {
        Ok((shared, seats, watches)) => {
            Scene {
                shared,
                seats,
                watches,
            }
            .end(&rt);
            None
        }
        Err(fault) => Some(fault),
    };
    if most != (256, 1) {
        return Err(Fail::from("how many seats and watches"));
    }
    if fault != Some(MakeFault::NoPlace) {
        return Err(Fail::from("the refusal of too many watches"));
    }
    Ok(())
}

#[test]
fn faults_of_calls_are_shown_by_their_names(rt: HostRuntime) -> Result<(), Fail> {
    let did = Did {
        core: 0,
        number: 0,
        block: 0,
        word: 0,
        load: true,
        value: 7,
        hit: false,
    };
    let shown = format!(in rt.alloc();
        "{} {} {} {} {} {} {} {} {} {}",
        SeatFault::NoBlock,
        SeatFault::NoMemory,
        SeatFault::Busy(work(Op::Load)),
        SeatFault::Stranger(did),
        ViewFault::NoBlock,
        ViewFault::NoVersion,
        AdvanceFault::NoCore,
        AdvanceFault::NoBlock,
        AdvanceFault::Other(work(Op::Load)),
        AdvanceFault::NoMemory
    )
    .map_err(|_| Fail::from("memory"))?;
    if shown.as_str()
        != "NoBlock NoMemory Busy Stranger NoBlock NoVersion NoCore NoBlock Other NoMemory"
    {
        return Err(Fail::from("the names of the faults"));
    }
    Ok(())
}

#[test]
fn faults_of_all_seats_are_shown_by_their_names(rt: HostRuntime) -> Result<(), Fail> {
    let shown = format!(in rt.alloc();
        "{} {} {} {} {} {} {} {} {}",
        MakeFault::NoMemory,
        MakeFault::NoPlace,
        RunFault::NoSeat { core: 0 },
        RunFault::NoMemory,
        GatherFault::Mismatch { core: 0, place: 0 },
        GatherFault::Pending { core: 0 },
        GatherFault::NoMemory,
        GatherFault::NotAllSeats { core: 0 },
        Late
    )
    .map_err(|_| Fail::from("memory"))?;
    if shown.as_str()
        != "NoMemory NoPlace NoSeat NoMemory Mismatch Pending NoMemory NotAllSeats Late"
    {
        return Err(Fail::from("the names of the faults"));
    }
    Ok(())
}
