//! A small shared machine for the tests: 4 blocks of 64 bytes, and a watch.

use snoop_cores::{
    Gate, GatherFault, Gathered, RunFault, Seat, SeatFault, Shared, Stop, Turn, ViewFault, Watch,
    Work, end_seats, end_watches, gather, run_seats,
};
use snoop_history::Totals;
use snoop_rules::Protocol;
use snoop_trace::{Op, Row, Shape, Step};
use std::alloc::Global;
use std::sync::Wait;
use std::test::Fail;
use std::thread::Threads;

pub(super) struct Scene {
    pub shared: Shared,
    pub seats: Vec<Seat>,
    pub watches: Vec<Watch>,
}

impl Scene {
    /// A scene under MSI. Where one was refused, it is asked for again.
    pub(super) fn new<R: Wait>(rt: &R, alloc: Global, cores: u32) -> Result<Scene, Fail> {
        if let Some(scene) = Scene::make(rt, alloc, Protocol::Msi, cores) {
            return Ok(scene);
        }
        match Scene::make(rt, alloc, Protocol::Msi, cores) {
            Some(scene) => Ok(scene),
            None => Err(Fail::from("a shared machine")),
        }
    }

    /// `None` where it is refused.
    pub(super) fn make<R: Wait>(
        rt: &R,
        alloc: Global,
        protocol: Protocol,
        cores: u32,
    ) -> Option<Scene> {
        let shape = Shape::new(cores, 4, 64).ok()?;
        let (shared, seats, watches) = Shared::new(rt, alloc, protocol, shape, 1).ok()?;
        Some(Scene {
            shared,
            seats,
            watches,
        })
    }

    /// Makes the core's call for the work. The answer is the turn that ends it.
    pub(super) fn call<R: Wait>(
        &mut self,
        rt: &R,
        core: u32,
        work: Work,
    ) -> Option<Result<Turn, SeatFault>> {
        let seat = self.seats.get_mut(core as usize)?;
        Some(match work.op {
            Op::Load => seat
                .load(rt, work.block, work.word)
                .map(|value| Turn::Loaded(value)),
            Op::Store(value) => seat
                .store(rt, work.block, work.word, value)
                .map(|()| Turn::Stored),
            Op::Evict => seat
                .evict(rt, work.block)
                .map(|evicted| Turn::Evicted(evicted)),
        })
    }

    /// Makes the call; out of memory, once more.
    pub(super) fn call_at_last<R: Wait>(
        &mut self,
        rt: &R,
        core: u32,
        work: Work,
    ) -> Option<Result<Turn, SeatFault>> {
        match self.call(rt, core, work) {
            Some(Err(SeatFault::NoMemory)) => self.call(rt, core, work),
            answer => answer,
        }
    }

    /// Lets the seats perform the rows.
    pub(super) fn run<R: Threads + Wait + Sync, G: Gate + Sync>(
        &mut self,
        rt: &R,
        alloc: Global,
        rows: &[Row],
        gate: &G,
    ) -> Result<Vec<Option<Stop>>, RunFault> {
        run_seats(rt, alloc, self.seats.as_mut_slice(), rows, gate)
    }

    /// Whether the core's seat was answered these operations: of each, whether it is a load, and its value.
    pub(super) fn was_answered(&self, core: u32, expected: &[(bool, u64)]) -> bool {
        let Some(seat) = self.seats.get(core as usize) else {
            return false;
        };
        let answers = seat.answers();
        answers.len() == expected.len()
            && answers.iter().zip(expected).all(|(did, (load, value))| {
                did.core == core && did.load == *load && did.value == *value
            })
    }

    /// The value of block 0 that the core's seat reads.
    pub(super) fn seated(&mut self, core: u32) -> Option<Result<u64, ViewFault>> {
        Some(self.seats.get_mut(core as usize)?.value(0, 0))
    }

    /// The value of block 0 that the watch reads.
    pub(super) fn watched(&mut self) -> Option<Result<u64, ViewFault>> {
        Some(self.watches.get_mut(0)?.value(0, 0))
    }

    /// The counts that the watch reads.
    pub(super) fn counted(&mut self) -> Option<[u64; 12]> {
        let totals = self.watches.get_mut(0)?.totals().ok()?;
        Some(counts(totals))
    }

    /// What gathers; `None` where it is refused.
    pub(super) fn gathered<R: Wait>(&self, rt: &R, alloc: Global) -> Option<Gathered> {
        gather(rt, alloc, &self.shared, self.seats.as_slice()).ok()
    }

    /// What a gathering shows; `None` where it is refused.
    pub(super) fn shown<R: Wait>(&self, rt: &R, alloc: Global) -> Option<Shown> {
        let gathered = self.gathered(rt, alloc)?;
        let log = &gathered.log;
        Some(Shown {
            steps: gathered.steps.len(),
            counts: counts(log.totals()),
            values: [log.flat(0, 0), log.flat(1, 0)],
        })
    }

    /// Why nothing gathers; `None` where it does.
    pub(super) fn refusal<R: Wait>(
        &self,
        rt: &R,
        alloc: Global,
        seats: &[Seat],
    ) -> Option<GatherFault> {
        gather(rt, alloc, &self.shared, seats).err()
    }

    pub(super) fn end<R: Wait>(self, rt: &R) {
        let Scene {
            shared,
            seats,
            watches,
        } = self;
        end_seats(rt, seats);
        end_watches(rt, watches);
        shared.end(rt);
    }
}

/// What a gathering shows: how many steps, the counts, and the values of blocks 0 and 1.
#[derive(Clone, Copy, PartialEq, Eq)]
pub(super) struct Shown {
    pub steps: usize,
    pub counts: [u64; 12],
    pub values: [Option<u64>; 2],
}

/// Whether each seat has done all its rows.
pub(super) fn all_ran(stops: &Result<Vec<Option<Stop>>, RunFault>) -> bool {
    let Ok(stops) = stops else {
        return false;
    };
    for stop in stops {
        if stop.is_some() {
            return false;
        }
    }
    true
}

/// The counts in their order.
pub(super) fn counts(totals: Totals) -> [u64; 12] {
    [
        totals.loads,
        totals.load_hits,
        totals.stores,
        totals.store_hits,
        totals.get_s,
        totals.get_m,
        totals.put_m,
        totals.from_memory,
        totals.from_caches,
        totals.writebacks,
        totals.clean,
        totals.stale,
    ]
}

pub(super) fn row(core: u32, op: Op, address: u64) -> Row {
    Row { core, op, address }
}

/// The operation, on word 0 of block 0.
pub(super) fn work(op: Op) -> Work {
    Work {
        block: 0,
        word: 0,
        op,
    }
}

/// Whether the core asks for its rows and no more, in their order.
pub(super) fn ask_rows(steps: &[Step], rows: &[Row], core: u32) -> bool {
    let mut wanted = rows.iter().filter(|row| row.core == core);
    for step in steps {
        if let Step::Ask {
            core: asking,
            block,
            word,
            op,
        } = *step
            && asking == core
        {
            match wanted.next() {
                Some(row) if row.op == op && row.address / 64 == u64::from(block) && word == 0 => {}
                _ => return false,
            }
        }
    }
    wanted.next().is_none()
}
