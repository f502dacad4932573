//! Shares of the lock. Only this file has the lock: others read the bench under it, and only a seat's share takes turns.
ghost use Rattle.std.specs.Prelude.{◌≡◌, ◌≢◌, IfOk};
ghost use Rattle.std.specs.Sync.Mutex.{mutex_guard_value};
ghost use Rattle.snoop_cores.specs.Joined.{IsHeld};
ghost use Rattle.snoop_cores.specs.Own.{EndsWork};

use snoop_bench::{AdvanceFault, Bench, Turn, Work};
use snoop_rules::Protocol;
use snoop_trace::{NoMemory, Shape};
use std::alloc::Global;
use std::sync::{Arc, Mutex, MutexGuard, Wait};

#[cfg(test)]
mod tests;

/// A share of the lock, with the protocol and the shape of the machine behind it. The last share to end also ends the bench.
pub(crate) struct Share {
    protocol: Protocol,
    shape: Shape,
    bench: Arc<Mutex<Bench>, Global>,
}

/// A seat's share of the lock, which alone takes turns. Its count changes each time it may have taken some.
pub(crate) struct SeatShare {
    share: Share,
    turns: u64,
}

/// A lock that is not shared out yet: it makes the shares.
pub(crate) struct Lock {
    share: Share,
}

/// The lock, taken. It shows the bench, and is ended by `unlock`: what it guards is not `Drop`.
pub(crate) struct Held<'a> {
    bench: MutexGuard<'a, Bench>,
}

impl Lock {
    /// A lock round this bench. `NoMemory` also ends the bench.
    pub(crate) fn new<R: Wait>(rt: &R, alloc: Global, bench: Bench) -> Result<Lock, NoMemory>
        ensures { IfOk result (λ lock. (lock.share.protocol ≡ bench.situation.protocol)
            × (lock.share.shape ≡ bench.situation.shape)) }
    {
        let protocol = bench.protocol();
        let shape = bench.shape();
        match Arc::new(alloc, Mutex::new(bench)) {
            Ok(bench) => Ok(Lock {
                share: Share {
                    protocol,
                    shape,
                    bench,
                },
            }),
            Err(failed) => {
                failed.value.into_inner().end(rt);
                Err(NoMemory)
            }
        }
    }

    /// The machine's shape.
    pub(crate) fn shape(&self) -> Shape
        ensures { result ≡ self.now.share.shape }
    {
        self.share.shape()
    }

    /// A share for a seat.
    pub(crate) fn seat(&self) -> Result<SeatShare, NoMemory>
        ensures { IfOk result (λ seat. seat.share.shape ≡ self.now.share.shape) }
    {
        let share = self.share.another()?;
        Ok(SeatShare { share, turns: 0 })
    }

    /// A share for a watch.
    pub(crate) fn watch(&self) -> Result<Share, NoMemory>
        ensures { IfOk result (λ share. share.shape ≡ self.now.share.shape) }
    {
        self.share.another()
    }

    /// The share that is left, once all others are made.
    pub(crate) fn into_share(self) -> Share
        ensures { result ≡ self.share }
    {
        let Lock { share } = self;
        share
    }
}

impl Share {
    // Another share of the lock.
    fn another(&self) -> Result<Share, NoMemory>
        ensures { IfOk result (λ share. (share.protocol ≡ self.now.protocol) × (share.shape ≡ self.now.shape)) }
    {
        let bench = Arc::try_clone(&self.bench)?;
        Ok(Share {
            protocol: self.protocol,
            shape: self.shape,
            bench,
        })
    }

    /// The machine's protocol.
    pub(crate) fn protocol(&self) -> Protocol
        ensures { result ≡ self.now.protocol }
    {
        self.protocol
    }

    /// The machine's shape.
    pub(crate) fn shape(&self) -> Shape
        ensures { result ≡ self.now.shape }
    {
        self.shape
    }

    /// Takes the lock, again and again until the bench under it is of this protocol and shape.
    pub(crate) fn lock<R: Wait>(&self, rt: &R) -> Held<'_>
        ensures { IsHeld self.now.protocol self.now.shape (mutex_guard_value result.bench) }
    {
        for _ in rt.forever() {
            let bench = self.bench.lock(rt);
            bench.kept();
            if bench.protocol() == self.protocol && bench.shape() == self.shape {
                return Held { bench };
            }
            MutexGuard::unlock(bench);
        }
        unreachable!()
    }

    // Takes turns of the core until its work is over, each under the lock, and reports the last of them.
    fn finish<R: Wait>(&self, rt: &R, core: u32, work: Work) -> Result<Turn, NoMemory>
        ensures { IfOk result (λ turn. EndsWork work.op turn) }
    {
        for _ in rt.forever() {
            let mut held = self.lock(rt);
            let turn = held.bench.advance(rt, core, work);
            held.unlock();
            match turn {
                Ok(Turn::Going) => {}
                Ok(turn) => return Ok(turn),
                Err(AdvanceFault::NoMemory) => return Err(NoMemory),
                // None of these comes: the seat has checked the core and the block, and nobody else takes its core's turns.
                Err(AdvanceFault::NoCore | AdvanceFault::NoBlock | AdvanceFault::Other(_)) => {}
            }
        }
        unreachable!()
    }

    /// Drops this share of the lock. The last one to end waits for the readers that are inside, and ends the versions.
    pub(crate) fn end<R: Wait>(self, rt: &R) {
        let Share {
            protocol: _,
            shape: _,
            bench,
        } = self;
        if let Some(lock) = Arc::into_inner(bench) {
            lock.into_inner().end(rt);
        }
    }
}

impl SeatShare {
    /// The machine's shape.
    pub(crate) fn shape(&self) -> Shape
        ensures { result ≡ self.now.share.shape }
    {
        self.share.shape()
    }

    /// Takes turns of the core until its work is over, and reports the last of them. The count has changed, whatever it reports.
    pub(crate) fn finish<R: Wait>(
        &mut self,
        rt: &R,
        core: u32,
        work: Work,
    ) -> Result<Turn, NoMemory>
        ensures ends { IfOk result (λ turn. EndsWork work.op turn) }
        ensures turns { self.new.turns ≢ self.old.turns }
        ensures same { self.new.share ≡ self.old.share }
    {
        self.turns = self.turns.wrapping_add(1);
        self.share.finish(rt, core, work)
    }

    /// Drops this share of the lock.
    pub(crate) fn end<R: Wait>(self, rt: &R) {
        let SeatShare { share, turns: _ } = self;
        share.end(rt);
    }
}

impl Held<'_> {
    /// The bench under the lock.
    pub(crate) fn bench(&self) -> &Bench
        ensures { result.now ≡ mutex_guard_value self.now.bench }
    {
        &self.bench
    }

    /// Gives the lock back.
    pub(crate) fn unlock(self) {
        let Held { bench } = self;
        MutexGuard::unlock(bench);
    }
}
