//! What seats, watches, shared machines and benches say of themselves.

use crate::cores::scene::counts;
use snoop_cores::{Bench, Seat, Shared, Watch, end_seats, end_watches, gather};
use snoop_rules::Protocol;
use snoop_trace::Shape;
use std::sync::Wait;
use std::test::Fail;

/// Whether each seat has its core's number, and the shape.
fn are_numbered(seats: &[Seat], shape: Shape) -> bool {
    let mut cores = 0..u32::MAX;
    seats.iter().all(|seat| cores.next() == Some(seat.core()) && seat.shape() == shape)
}

/// Whether each watch reads what the first seat has stored.
fn all_read<R: Wait>(rt: &R, seats: &mut [Seat], watches: &mut [Watch]) -> bool {
    let Some(seat) = seats.first_mut() else {
        return false;
    };
    seat.store(rt, 0, 0, 5).is_ok() && watches.iter_mut().all(|watch| watch.value(0, 0) == Ok(5))
}

#[test]
fn three_seats_and_three_watches(rt: HostRuntime) -> Result<(), Fail> {
    let shape = Shape::new(3, 4, 64)?;
    let Ok((shared, mut seats, mut watches)) = Shared::new(
        &rt,
        rt.alloc(),
        Protocol::Mesi,
        shape,
        3,
    ) else {
        return Err(Fail::from("a shared machine"));
    };
    let said = shared.protocol() == Protocol::Mesi && shared.shape() == shape;
    let counted = seats.len() == 3 && watches.len() == 3 && are_numbered(&seats, shape);
    let read = all_read(&rt, &mut seats, &mut watches);
    end_seats(&rt, seats);
    end_watches(&rt, watches);
    shared.end(&rt);
    if said && counted && read {
        Ok(())
    } else {
        Err(Fail::from("what a shared machine says of itself"))
    }
}

#[test]
fn an_end_takes_no_turn(rt: HostRuntime) -> Result<(), Fail> {
    let made = Shared::new(&rt, rt.alloc(), Protocol::Msi, Shape::new(2, 4, 64)?, 2);
    let Ok((shared, mut seats, mut watches)) = made else {
        return Err(Fail::from("a shared machine"));
    };
    let stored = seats
        .first_mut()
        .is_some_and(|seat| seat.store(&rt, 0, 0, 7).is_ok());
    if let Some(watch) = watches.pop() {
        watch.end(&rt);
    }
    let steps = gather(&rt, rt.alloc(), &shared, seats.as_slice()).map(|all| all.steps.len());
    end_seats(&rt, seats);
    shared.end(&rt);
    let read = watches.first_mut().map(|watch| (
        watch.totals().map(|totals| counts(totals)),
        watch.value(0, 0),
    ));
    end_watches(&rt, watches);
    // One store, by a GetM that memory answers.
    let expected = [0, 0, 1, 0, 0, 1, 0, 1, 0, 0, 0, 0];
    if stored && steps == Ok(3) && read == Some((Ok(expected), Ok(7))) {
        Ok(())
    } else {
        Err(Fail::from("what an end leaves"))
    }
}

#[test]
fn a_bench_has_its_protocol_and_shape(rt: HostRuntime) -> Result<(), Fail> {
    let shape = Shape::new(2, 4, 64)?;
    let bench = Bench::new(rt.alloc(), Protocol::Mesi, shape, 1)?;
    bench.kept();
    let said = bench.protocol() == Protocol::Mesi && bench.shape() == shape;
    bench.end(&rt);
    if said {
        Ok(())
    } else {
        Err(Fail::from("a bench's protocol or shape"))
    }
}
