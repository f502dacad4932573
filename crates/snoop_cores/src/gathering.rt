//! The log of the lock, joined with what the seats were answered.
ghost use Rattle.std.specs.Prelude.{◌≡◌, ℕ, ◌<◌, Err, IfOk, IfErr, OnOk, IfSome, IfNone, IsTrue, [], ◌∷◌, length, option_to_list, Some, slice_get, slice_index_or};
ghost use Rattle.snoop_history.specs.History.{answers_of, next_number};
ghost use Rattle.snoop_cores.specs.Seats.{Seating, AreInOrder};
ghost use Rattle.snoop_cores.specs.Joined.{seats_of, OneForEach, IsNotAllSeats, HasNonePending, IsFree, IsAnswered, IsFreeOfWork, IsFirst, DiffersAt, IsJoined, RefusesJoin, RefusesGather};
ghost use Rattle.snoop_cores.specs.declared.fault.GatherFault.TheVariants.{NotAllSeats};

use crate::fault::GatherFault;
use crate::rows::in_order;
use crate::seat::Seat;
use crate::shared::Shared;
use snoop_bench::Bench;
use snoop_history::{Did, Item, Log};
use snoop_machine::laws::taken_once;
use snoop_machine::turns_are_served;
use snoop_trace::{NoMemory, Protocol, Shape, Step};
use std::alloc::Global;
use std::sync::Wait;

/// A log that joins what the seats were answered, and the steps that made it from reset, with the protocol and the shape that they
/// are for.
#[derive(Debug, Drop)]
pub struct Gathered {
    pub protocol: Protocol,
    pub shape: Shape,
    pub log: Log,
    pub steps: Vec<Step>,
}

/// Copies the log and its steps from under the lock, after checking that each seat's answers are its core's operations there. It
/// changes nothing, and may be called again.
///
/// `NotAllSeats` where the seats are not one for each core; `Pending` where a core has work under way, or a seat a pending
/// operation; `Mismatch` where a seat's answers are not its core's operations in the log; `NoMemory` if out of memory.
pub fn gather<R: Wait>(
    rt: &R,
    alloc: Global,
    shared: &Shared,
    seats: &[Seat],
) -> Result<Gathered, GatherFault>
    ensures ok { IfOk result (λ gathered. IsJoined shared.now.protocol shared.now.shape seats.now gathered.log.items gathered.steps.items) }
    ensures machine { IfOk result (λ gathered. (gathered.protocol ≡ shared.now.protocol) × (gathered.shape ≡ shared.now.shape)) }
    ensures shape { IfOk result (λ gathered. (gathered.log.cores ≡ shared.now.shape.cores) × (gathered.log.blocks ≡ shared.now.shape.blocks) × (gathered.log.words ≡ shared.now.shape.words)) }
    ensures err { IfErr result (λ fault. RefusesGather shared.now.protocol shared.now.shape seats.now fault) }
    ensures not_all { (core : ℕ) → IsNotAllSeats shared.now.shape.cores seats.now core → result ≡ Err (NotAllSeats core) }
{
    if let Some(core) = odd_core(seats, shared.shape().cores()) {
        return Err(GatherFault::NotAllSeats { core });
    }
    let held = shared.lock(rt);
    let joined = join(alloc, held.bench(), seats);
    held.unlock();
    joined
}

// Joins what the bench holds with the seats' answers.
fn join(alloc: Global, bench: &Bench, seats: &[Seat]) -> Result<Gathered, GatherFault>
    requires { OneForEach bench.now.situation.shape.cores seats.now }
    ensures ok { IfOk result (λ gathered. IsJoined bench.now.situation.protocol bench.now.situation.shape seats.now gathered.log.items gathered.steps.items) }
    ensures machine { IfOk result (λ gathered. (gathered.protocol ≡ bench.now.situation.protocol) × (gathered.shape ≡ bench.now.situation.shape)) }
    ensures shape { IfOk result (λ gathered. (gathered.log.cores ≡ bench.now.situation.shape.cores) × (gathered.log.blocks ≡ bench.now.situation.shape.blocks) × (gathered.log.words ≡ bench.now.situation.shape.words)) }
    ensures free { OnOk result (IsFreeOfWork bench.now seats.now) }
    ensures err { IfErr result (λ fault. RefusesJoin bench.now seats.now fault) }
{
    bench.kept();
    taken_once();
    turns_are_served();
    if let Some(core) = busy_core(bench, seats) {
        return Err(GatherFault::Pending { core });
    }
    if let Some((core, place)) = difference(bench.log(), seats, bench.shape().cores()) {
        return Err(GatherFault::Mismatch { core, place });
    }
    let Ok(gathered) = copy(alloc, bench) else {
        return Err(GatherFault::NoMemory);
    };
    Ok(gathered)
}

fn copy(alloc: Global, bench: &Bench) -> Result<Gathered, NoMemory>
    ensures log { IfOk result (λ gathered. gathered.log.items ≡ bench.now.situation.log) }
    ensures steps { IfOk result (λ gathered. gathered.steps.items ≡ bench.now.steps) }
    ensures machine { IfOk result (λ gathered. (gathered.protocol ≡ bench.now.situation.protocol) × (gathered.shape ≡ bench.now.situation.shape)) }
    ensures shape { IfOk result (λ gathered. (gathered.log.cores ≡ bench.now.situation.shape.cores) × (gathered.log.blocks ≡ bench.now.situation.shape.blocks) × (gathered.log.words ≡ bench.now.situation.shape.words)) }
{
    let log = bench.log().copy()?;
    let steps = Vec::from_slice(alloc, bench.steps())?;
    Ok(Gathered {
        protocol: bench.protocol(),
        shape: bench.shape(),
        log,
        steps,
    })
}

// The least core with no seat or several, or else the first strange one.
fn odd_core(seats: &[Seat], cores: u32) -> Option<u32>
    ensures some { IfSome result (λ core. IsNotAllSeats cores seats.now core) }
    ensures none { IfNone result (OneForEach cores seats.now) }
{
    for core in 0..cores {
        if count_seats(seats, core) != 1 {
            return Some(core);
        }
    }
    for seat in seats {
        if seat.core() >= cores {
            return Some(seat.core());
        }
    }
    None
}

// How many seats the core has.
fn count_seats(seats: &[Seat], core: u32) -> usize
    ensures { result ≡ seats_of seats.now core }
{
    seats.iter().filter(|seat| seat.core() == core).count()
}

// The least core with work under way or a pending operation.
fn busy_core(bench: &Bench, seats: &[Seat]) -> Option<u32>
    ensures some { IfSome result (λ core. (core < bench.now.situation.shape.cores) × ((lower : ℕ) → lower < core → IsFree bench.now seats.now lower) × ¬ IsFree bench.now seats.now core) }
    ensures none { IfNone result (IsFreeOfWork bench.now seats.now) }
{
    for core in 0..bench.shape().cores() {
        if bench.work(core).is_some() || !is_idle(seats, core) {
            return Some(core);
        }
    }
    None
}

// Whether the core's seats have no pending operation.
fn is_idle(seats: &[Seat], core: u32) -> bool
    ensures sound { IsTrue result → HasNonePending seats.now core }
    ensures whole { HasNonePending seats.now core → IsTrue result }
{
    seats
        .iter()
        .all(|seat| seat.core() != core || seat.pending().is_none())
}

// The least core whose operations among the items differ from the answers of its seat, and where.
fn difference(log: &Log, seats: &[Seat], cores: u32) -> Option<(u32, u64)>
    ensures none { IfNone result ((core : ℕ) → core < cores → IsAnswered log.now.items seats.now core) }
    ensures some { IfSome result (λ at. (at.0 < cores) × ((lower : ℕ) → lower < at.0 → IsAnswered log.now.items seats.now lower) × DiffersAt log.now.items seats.now at.0 at.1) }
{
    if answers_match(log, seats) {
        return None;
    }
    for core in 0..cores {
        if let Some(place) = difference_of(log, seats, core) {
            return Some((core, place));
        }
    }
    None
}

// Whether the seats, in order of core, were answered the operations of the items: one pass over these.
fn answers_match(log: &Log, seats: &[Seat]) -> bool
    ensures sound { IsTrue result → (core : ℕ) → IsAnswered log.now.items seats.now core }
{
    if !in_order(seats) || !counts_match(log, seats) {
        return false;
    }
    for place in 0..log.len() {
        let Some(item) = log.item(place) else {
            unreachable!()
        };
        if let Some(did) = item.did() {
            if !is_at_its_number(seats, did) {
                return false;
            }
        }
    }
    true
}

// Whether each seat, in order of core, has as many answers as its core has operations.
fn counts_match(log: &Log, seats: &[Seat]) -> bool
    requires { AreInOrder seats.now }
    ensures sound { IsTrue result → (core : ℕ) (d : Seating) → core < length seats.now → length (slice_index_or seats.now core d).answers ≡ next_number log.now.items core }
{
    seats.iter().all(|seat| log.count(seat.core()) == Some(seat.answers().len() as u64))
}

// Whether the operation stands at its number among the answers at its core's place.
fn is_at_its_number(seats: &[Seat], did: Did) -> bool
    ensures sound { IsTrue result → (d : Seating) → slice_get (slice_index_or seats.now did.core d).answers did.number ≡ Some did }
{
    match seats.get(did.core as usize) {
        Some(seat) => stands_at(seat.answers(), did.number as usize, did),
        None => false,
    }
}

// Where the answers of a seat of the core differ from its operations.
fn difference_of(log: &Log, seats: &[Seat], core: u32) -> Option<u64>
    ensures none { IfNone result (IsAnswered log.now.items seats.now core) }
    ensures some { IfSome result (λ place. DiffersAt log.now.items seats.now core place) }
{
    seats.iter().find_map(|seat| {
        if seat.core() == core {
            first_difference(log, core, seat.answers())
        } else {
            None
        }
    })
}

// The first place where the core's operations among the items differ from the answers.
fn first_difference(log: &Log, core: u32, answers: &[Did]) -> Option<u64>
    ensures none { IfNone result (answers_of log.now.items core ≡ answers.now) }
    ensures some { IfSome result (λ place. IsFirst (answers_of log.now.items core) answers.now place) }
{
    let mut next = 0usize;
    for place in 0..log.len() {
        let Some(item) = log.item(place) else {
            unreachable!()
        };
        if let Some(did) = own_did(item, core) {
            if !stands_at(answers, next, did) {
                return Some(next as u64);
            }
            next += 1;
        }
    }
    if next < answers.len() {
        return Some(next as u64);
    }
    None
}

// Whether the operation stands at this place of the answers.
fn stands_at(answers: &[Did], place: usize, did: Did) -> bool
    ensures sound { IsTrue result → slice_get answers.now place ≡ Some did }
    ensures whole { slice_get answers.now place ≡ Some did → IsTrue result }
{
    place < answers.len() && is_same(answers[place], did)
}

// Whether two operations are one.
fn is_same(one: Did, other: Did) -> bool
    ensures sound { IsTrue result → one ≡ other }
    ensures whole { one ≡ other → IsTrue result }
{
    one == other
}

// The item's operation, if it is the core's.
fn own_did(item: Item, core: u32) -> Option<Did>
    ensures { option_to_list result ≡ answers_of (item ∷ []) core }
{
    item.did().filter(|did| did.core == core)
}
