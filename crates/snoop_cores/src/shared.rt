//! The shared machine, its seats and its watches.
ghost use Rattle.std.specs.Prelude.{◌≡◌, ◌+◌, ◌^◌, ◌<◌, ◌≤◌, [], Err, IfOk, OnOk};
ghost use Rattle.std.specs.Sync.Mutex.{mutex_guard_value};
ghost use Rattle.snoop_cores.specs.Joined.{IsHeld};
ghost use Rattle.snoop_cores.specs.Seats.{AreSeats, AreWatches};
ghost use Rattle.snoop_cores.specs.declared.fault.MakeFault.TheVariants.{NoPlace};

use crate::fault::MakeFault;
use crate::seat::Seat;
use crate::share::{Held, Lock, Share};
use crate::watch::Watch;
use snoop_bench::Bench;
use snoop_rules::Protocol;
use snoop_trace::{NoMemory, Shape};
use snoop_versions::Readers;
use std::alloc::Global;
use std::marker::Model;
use std::sync::Wait;

/// A machine under a lock.
///
/// It is not `Drop`: end it by `end`.
pub struct Shared {
    share: Share,
}

impl Model for Shared {
    ghost use Rattle.snoop_cores.specs.Seats.{Setup};

    ghost Value = { Setup };

    ghost view = { λ s. record { protocol = s.share.protocol; shape = s.share.shape } };
}

impl Shared {
    /// A machine at reset under a lock, with a seat for each core, in order of core, and `watches` watches.
    ///
    /// `NoPlace` where cores and watches are 2^32 or more together, or a reader of versions found no place; `NoMemory` if out of
    /// memory.
    pub fn new<R: Wait>(
        rt: &R,
        alloc: Global,
        protocol: Protocol,
        shape: Shape,
        watches: u32,
    ) -> Result<(Shared, Vec<Seat>, Vec<Watch>), MakeFault>
        ensures setup { IfOk result (λ made. made.0 ≡ record { protocol = protocol; shape = shape }) }
        ensures seats { IfOk result (λ made. AreSeats shape made.1.items) }
        ensures watches { IfOk result (λ made. AreWatches watches shape made.2.items) }
        ensures too_many { 2 ^ 32 ≤ shape.cores + watches → result ≡ Err NoPlace }
    {
        let places = shape.cores() as usize + watches as usize;
        if places >= 1 << 32 {
            return Err(MakeFault::NoPlace);
        }
        let Ok(bench) = Bench::new(alloc, protocol, shape, places) else {
            return Err(MakeFault::NoMemory);
        };
        let Ok(readers) = bench.readers() else {
            bench.end(rt);
            return Err(MakeFault::NoMemory);
        };
        let Ok(lock) = Lock::new(rt, alloc, bench) else {
            return Err(MakeFault::NoMemory);
        };
        let mut seats = Vec::new(alloc);
        let mut all = Vec::new(alloc);
        let filled = Shared::fill(rt, alloc, &lock, &readers, watches, &mut seats, &mut all);
        let shared = Shared {
            share: lock.into_share(),
        };
        match filled {
            Ok(()) => Ok((shared, seats, all)),
            Err(fault) => {
                end_seats(rt, seats);
                end_watches(rt, all);
                shared.end(rt);
                Err(fault)
            }
        }
    }

    // Adds the seats and the watches, or reports why one cannot be made.
    fn fill<R: Wait>(
        rt: &R,
        alloc: Global,
        lock: &Lock,
        readers: &Readers,
        count: u32,
        seats: &mut Vec<Seat>,
        watches: &mut Vec<Watch>,
    ) -> Result<(), MakeFault>
        requires readers { readers.now ≡ lock.now.share.shape }
        requires empty { (seats.old.items ≡ []) × (watches.old.items ≡ []) }
        ensures seats { OnOk result (AreSeats lock.now.share.shape seats.new.items) }
        ensures watches { OnOk result (AreWatches count lock.now.share.shape watches.new.items) }
    {
        Shared::add_seats(rt, alloc, lock, readers, seats)?;
        Shared::add_watches(rt, lock, readers, count, watches)
    }

    // Adds a seat for each core, or reports why one cannot be made.
    fn add_seats<R: Wait>(
        rt: &R,
        alloc: Global,
        lock: &Lock,
        readers: &Readers,
        seats: &mut Vec<Seat>,
    ) -> Result<(), MakeFault>
        requires readers { readers.now ≡ lock.now.share.shape }
        requires empty { seats.old.items ≡ [] }
        ensures { OnOk result (AreSeats lock.now.share.shape seats.new.items) }
    {
        for core in 0..lock.shape().cores() {
            let Some(reader) = readers.reader() else {
                return Err(MakeFault::NoPlace);
            };
            let Ok(share) = lock.seat() else {
                return Err(MakeFault::NoMemory);
            };
            let seat = Seat::new(alloc, share, reader, core);
            if let Err(failed) = seats.push(seat) {
                failed.value.end(rt);
                return Err(MakeFault::NoMemory);
            }
        }
        Ok(())
    }

    // Adds `count` watches, or reports why one cannot be made.
    fn add_watches<R: Wait>(
        rt: &R,
        lock: &Lock,
        readers: &Readers,
        count: u32,
        watches: &mut Vec<Watch>,
    ) -> Result<(), MakeFault>
        requires readers { readers.now ≡ lock.now.share.shape }
        requires empty { watches.old.items ≡ [] }
        ensures { OnOk result (AreWatches count lock.now.share.shape watches.new.items) }
    {
        for _ in 0..count {
            let Some(reader) = readers.reader() else {
                return Err(MakeFault::NoPlace);
            };
            let Ok(share) = lock.watch() else {
                return Err(MakeFault::NoMemory);
            };
            let watch = Watch::new(share, reader);
            if let Err(failed) = watches.push(watch) {
                failed.value.end(rt);
                return Err(MakeFault::NoMemory);
            }
        }
        Ok(())
    }

    /// The machine's protocol.
    pub fn protocol(&self) -> Protocol
        ensures { result ≡ self.now.protocol }
    {
        self.share.protocol()
    }

    /// The machine's shape.
    pub fn shape(&self) -> Shape
        ensures { result ≡ self.now.shape }
    {
        self.share.shape()
    }

    /// Takes the lock, to read what is under it.
    pub(crate) fn lock<R: Wait>(&self, rt: &R) -> Held<'_>
        ensures { IsHeld self.now.protocol self.now.shape (mutex_guard_value result.bench) }
    {
        self.share.lock(rt)
    }

    /// Drops this share of the lock. The last one to end waits for the readers that are inside, and ends the versions.
    pub fn end<R: Wait>(self, rt: &R) {
        let Shared { share } = self;
        share.end(rt);
    }
}

/// Ends the seats.
pub fn end_seats<R: Wait>(rt: &R, mut seats: Vec<Seat>) {
    while let Some(seat) = seats.pop() {
        seat.end(rt);
    }
    seats.destroy_empty();
}

/// Ends the watches.
pub fn end_watches<R: Wait>(rt: &R, mut watches: Vec<Watch>) {
    while let Some(watch) = watches.pop() {
        watch.end(rt);
    }
    watches.destroy_empty();
}
