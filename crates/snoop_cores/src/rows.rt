//! Rows that threads perform, one thread for each seat.
ghost use Rattle.std.specs.Prelude.{◌≡◌, ℕ, ◌<◌, true, length, IfOk, IfErr, IfSome, IfNone, OnOk, OnErr, All, IsTrue, None, slice_index_or};
ghost use Rattle.snoop_cores.specs.Seats.{Seating, AreInOrder};
ghost use Rattle.snoop_cores.specs.Rows.{RanTo, RanDealt, IsNotLate, IsServed, IsUnserved, RefusesRows};

use crate::deal::deal;
use crate::fault::RunFault;
use crate::gate::Gate;
use crate::seat::Seat;
use crate::stop::Stop;
use snoop_trace::Row;
use std::alloc::Global;
use std::sync::Wait;
use std::thread;
use std::thread::Threads;

/// Performs each core's rows in order, with a thread for each seat, and reports where each seat stopped: `None` where it has done
/// all its rows.
///
/// Before each row it waits for the gate; a gate that is never late stops no seat. Where a thread cannot be made, seats share one. A
/// fault leaves all as it was: `NoSeat` names the core of the first row that has no seat, or whose address is outside the shape of a
/// seat of its core; `NoMemory` if out of memory.
pub fn run_seats<R: Threads + Wait + Sync, G: Gate + Sync>(
    rt: &R,
    alloc: Global,
    seats: &mut [Seat],
    rows: &[Row],
    gate: &G,
) -> Result<Vec<Option<Stop>>, RunFault>
    ensures stops { IfOk result (λ stops. length stops.items ≡ length seats.old) }
    ensures ran { IfOk result (λ stops. (place : ℕ) (d : Seating) → place < length seats.old → RanTo (slice_index_or stops.items place None) rows.now (slice_index_or seats.old place d) (slice_index_or seats.new place d)) }
    ensures on_time { G.never_late ≡ true → IfOk result (λ stops. All IsNotLate stops.items) }
    ensures len { length seats.new ≡ length seats.old }
    ensures served { OnOk result (All (IsServed seats.old) rows.now) }
    ensures denied { IfErr result (λ fault. RefusesRows seats.old rows.now fault) }
    ensures err { OnErr result (seats.new ≡ seats.old) }
{
    if let Some(row) = unserved(seats, rows) {
        return Err(RunFault::NoSeat { core: row.core });
    }
    let Ok(mut stops) = vec![in alloc; None; seats.len()] else {
        return Err(RunFault::NoMemory);
    };
    if seats.is_empty() {
        return Ok(stops);
    }
    let Ok(dealt) = deal(alloc, core_count(seats), rows) else {
        return Err(RunFault::NoMemory);
    };
    run_all(rt, seats, &dealt, gate);
    for i in 0..seats.len() {
        stops[i] = seats[i].stop();
    }
    Ok(stops)
}

// The first row that is not served.
fn unserved(seats: &[Seat], rows: &[Row]) -> Option<Row>
    ensures some { IfSome result (λ row. IsUnserved seats.now rows.now row) }
    ensures none { IfNone result (All (IsServed seats.now) rows.now) }
{
    let ordered = in_order(seats);
    for row in rows {
        if !serves(seats, ordered, row) {
            return Some(*row);
        }
    }
    None
}

// Whether the row is served. Where seats stand in order of core, the one at its core's place is looked at first.
fn serves(seats: &[Seat], ordered: bool, row: &Row) -> bool
    requires { ordered ≡ true → AreInOrder seats.now }
    ensures sound { IsTrue result → IsServed seats.now row.now }
    ensures whole { IsServed seats.now row.now → IsTrue result }
{
    (ordered && is_served_at_its_place(seats, row)) || is_served(seats, row)
}

// Whether each seat stands at its core's place.
pub(crate) fn in_order(seats: &[Seat]) -> bool
    ensures sound { IsTrue result → AreInOrder seats.now }
{
    seats
        .iter()
        .enumerate()
        .all(|(place, seat)| seat.core() as usize == place)
}

// Whether the row is served, by the one seat that its core has where seats stand in order of core.
fn is_served_at_its_place(seats: &[Seat], row: &Row) -> bool
    requires { AreInOrder seats.now }
    ensures sound { IsTrue result → IsServed seats.now row.now }
{
    match seats.get(row.core as usize) {
        Some(seat) => seat.shape().block_of(row.address).is_some(),
        None => false,
    }
}

// Whether the row's core has a seat, and the row's address lies within the shape of each of its seats.
fn is_served(seats: &[Seat], row: &Row) -> bool
    ensures sound { IsTrue result → IsServed seats.now row.now }
    ensures whole { IsServed seats.now row.now → IsTrue result }
{
    let mut found = false;
    for seat in seats {
        if seat.core() == row.core {
            if seat.shape().block_of(row.address).is_none() {
                return false;
            }
            found = true;
        }
    }
    found
}

// One more than the highest core of a seat.
fn core_count(seats: &[Seat]) -> usize
    ensures { All (λ seat. seat.core < result) seats.now }
{
    let counts = seats.iter().map(|seat| seat.core() as usize + 1);
    counts.max().unwrap_or(0)
}

// Each seat runs the rows of its core, in a thread of its own where one can be made.
fn run_all<R: Threads + Wait + Sync, G: Gate + Sync>(
    rt: &R,
    seats: &mut [Seat],
    dealt: &[Vec<&Row>],
    gate: &G,
)
    requires some { 0 < length seats.old }
    requires dealt { All (λ seat. seat.core < length dealt.now) seats.old }
    ensures len { length seats.new ≡ length seats.old }
    ensures ran { (place : ℕ) (d : Seating) → place < length seats.old → RanDealt dealt.now (slice_index_or seats.old place d) (slice_index_or seats.new place d) }
    ensures on_time { (place : ℕ) (d : Seating) → place < length seats.old → G.never_late ≡ true → IsNotLate (slice_index_or seats.new place d).stop }
{
    let threads = seats.len();
    thread::for_each_mut(
        rt,
        seats,
        threads,
        &|_, seat: &mut Seat|
            requires { seat.now.core < length dealt.now }
            ensures { RanDealt dealt.entry.now seat.entry.now seat.exit.now × (G.never_late ≡ true → IsNotLate seat.exit.now.stop) }
        { run_dealt(rt, seat, dealt, gate) },
    );
}

// The seat runs the rows of its core.
fn run_dealt<R: Wait, G: Gate>(rt: &R, seat: &mut Seat, dealt: &[Vec<&Row>], gate: &G)
    requires { seat.old.core < length dealt.now }
    ensures ran { RanDealt dealt.now seat.old seat.new }
    ensures on_time { G.never_late ≡ true → IsNotLate seat.new.stop }
{
    let core = seat.core() as usize;
    seat.run(rt, &dealt[core], gate);
}
