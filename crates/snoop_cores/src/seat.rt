//! The right to a core's operations.
ghost use Rattle.std.specs.Prelude.{◌≡◌, ◌<◌, ◌≤◌, ◌⊎◌, ◌↔◌, ◌∷◌, [], true, Err, Some, None, IfOk, IfErr, IsTrue, OnOk, OnErr};
ghost use Rattle.snoop_trace.specs.Words.{HasWord};
ghost use Rattle.snoop_trace.specs.declared.step.Op.TheVariants.{Load, Store, Evict};
ghost use Rattle.snoop_history.specs.declared.items.Did.{Did};
ghost use Rattle.snoop_history.specs.History.{answers_of, flat};
ghost use Rattle.snoop_history.specs.Totals.{capped_totals, totals_of};
ghost use Rattle.snoop_bench.specs.Works.{Does};
ghost use Rattle.snoop_versions.specs.Readings.{IsHistoryFor, IsOfShape, StartsWith};
ghost use Rattle.snoop_cores.specs.Seats.{IsNew, SeesOn};
ghost use Rattle.snoop_cores.specs.Calls.{MayBegin, Completes, Fails, RefusedAtOnce};
ghost use Rattle.snoop_cores.specs.Rows.{FailsRow, Grows, IsNotLate, Ran, shown};
ghost use Rattle.snoop_cores.specs.declared.fault.ViewFault.TheVariants.{NoBlock, NoVersion};

use crate::fault::{SeatFault, ViewFault};
use crate::gate::Gate;
use crate::own::{find_own, find_same};
use crate::share::SeatShare;
use crate::stop::Stop;
use crate::view::{read_totals, read_value};
use snoop_bench::{Evicted, Turn, Work};
use snoop_history::{Did, Totals};
use snoop_trace::{Op, Row, Shape};
use snoop_versions::VersionReader;
use std::alloc::Global;
use std::marker::Model;
use std::sync::Wait;

/// The right to a core's operations: a share of the lock, and a reader of the published versions.
///
/// An operation takes turns under the lock until it is over. What a seat then reports it has read in a published version, whose
/// history is that of a machine of this shape and has the core's operations exactly as the seat was answered them.
///
/// It is not `Drop`: end it by `end`.
pub struct Seat {
    core: u32,
    share: SeatShare,
    reader: VersionReader,
    answers: Vec<Did>,
    pending: Option<Work>,
    strange: Option<Did>,
    stop: Option<Stop>,
}

impl Model for Seat {
    ghost use Rattle.std.specs.Prelude.{◌≡◌, ◌<◌};
    ghost use Rattle.snoop_history.specs.History.{answers_of};
    ghost use Rattle.snoop_versions.specs.Readings.{IsOfShape, StartsWith};
    ghost use Rattle.snoop_cores.specs.Seats.{Seating};

    ghost Value = { Seating };

    ghost view = { λ s. record {
      core = s.core;
      shape = s.share.share.shape;
      seen = s.reader.seen;
      answers = s.answers.items;
      pending = s.pending;
      strange = s.strange;
      stop = s.stop;
      turns = s.share.turns;
    } };

    ghost invariant = { λ s. IsOfShape s.reader s.share.share.shape
        × (s.core < s.share.share.shape.cores) × StartsWith (answers_of s.reader.seen s.core) s.answers.items };
}

impl Seat {
    // A seat that has done nothing.
    pub(crate) fn new(alloc: Global, share: SeatShare, reader: VersionReader, core: u32) -> Seat
        requires core { core < share.share.shape.cores }
        requires reader { IsOfShape reader share.share.shape }
        requires history { IsHistoryFor share.share.shape reader.seen }
        ensures { IsNew core share.share.shape result }
    {
        Seat {
            core,
            share,
            reader,
            answers: Vec::new(alloc),
            pending: None,
            strange: None,
            stop: None,
        }
    }

    /// The core's number.
    pub fn core(&self) -> u32
        ensures { result ≡ self.now.core }
    {
        self.core
    }

    /// The shape of the machine.
    pub fn shape(&self) -> Shape
        ensures { result ≡ self.now.shape }
    {
        self.share.shape()
    }

    /// What the seat was answered: its loads and stores, in order.
    pub fn answers(&self) -> &[Did]
        ensures { result.now ≡ self.now.answers }
    {
        &self.answers
    }

    /// The operation that was taken up and is not over, if any.
    pub fn pending(&self) -> Option<Work>
        ensures { result ≡ self.now.pending }
    {
        self.pending
    }

    // Where the seat's rows stopped, when it ran them last.
    pub(crate) fn stop(&self) -> Option<Stop>
        ensures { result ≡ self.now.stop }
    {
        self.stop
    }

    /// Loads a word of the block, and reports its value. Fails as `SeatFault` says.
    pub fn load<R: Wait>(&mut self, rt: &R, block: u32, word: u32) -> Result<u64, SeatFault>
        ensures ok { IfOk result (λ value. (did : Did) × Completes (record { block = block; word = word; op = Load }) (did ∷ []) self.old self.new × Does did (record { block = block; word = word; op = Load }) × (did.value ≡ value)) }
        ensures err { IfErr result (λ fault. Fails fault (record { block = block; word = word; op = Load }) self.old self.new) }
        ensures at_once { RefusedAtOnce (record { block = block; word = word; op = Load }) self.old (λ fault. result ≡ Err fault) }
    {
        let work = Work {
            block,
            word,
            op: Op::Load,
        };
        let did = self.perform(rt, work)?;
        Ok(did.value)
    }

    /// Stores a value in a word of the block. Fails as `SeatFault` says.
    pub fn store<R: Wait>(
        &mut self,
        rt: &R,
        block: u32,
        word: u32,
        value: u64,
    ) -> Result<(), SeatFault>
        ensures ok { OnOk result ((did : Did) × Completes (record { block = block; word = word; op = Store value }) (did ∷ []) self.old self.new × Does did (record { block = block; word = word; op = Store value })) }
        ensures err { IfErr result (λ fault. Fails fault (record { block = block; word = word; op = Store value }) self.old self.new) }
        ensures at_once { RefusedAtOnce (record { block = block; word = word; op = Store value }) self.old (λ fault. result ≡ Err fault) }
    {
        let work = Work {
            block,
            word,
            op: Op::Store(value),
        };
        self.perform(rt, work)?;
        Ok(())
    }

    /// Gives the block up, and reports how. It adds no answer. Fails as `SeatFault` says.
    pub fn evict<R: Wait>(&mut self, rt: &R, block: u32) -> Result<Evicted, SeatFault>
        ensures ok { OnOk result (Completes (record { block = block; word = 0; op = Evict }) [] self.old self.new) }
        ensures err { IfErr result (λ fault. Fails fault (record { block = block; word = 0; op = Evict }) self.old self.new) }
        ensures at_once { RefusedAtOnce (record { block = block; word = 0; op = Evict }) self.old (λ fault. result ≡ Err fault) }
    {
        let work = Work {
            block,
            word: 0,
            op: Op::Evict,
        };
        self.begin(work)?;
        let Ok(turn) = self.share.finish(rt, self.core, work) else {
            return Err(SeatFault::NoMemory);
        };
        let Turn::Evicted(evicted) = turn else {
            unreachable!()
        };
        let found = find_same(rt, &mut self.reader, self.core, &self.answers, work);
        if let Err(did) = found {
            self.strange = Some(did);
            return Err(SeatFault::Stranger(did));
        }
        self.pending = None;
        Ok(evicted)
    }

    /// The value of a word of the block in one published version, which has all of the seat's operations. It does not wait.
    ///
    /// `NoBlock` where the block or the word is outside the shape; `NoVersion` where there is none to enter.
    pub fn value(&mut self, block: u32, word: u32) -> Result<u64, ViewFault>
        ensures value { IfOk result (λ value. value ≡ flat self.new.seen block word) }
        ensures sees { OnOk result (SeesOn self.new.shape self.old.seen self.new.seen) }
        ensures outside { (result ≡ Err NoBlock) ↔ ((self.old.shape.blocks ≤ block) ⊎ (self.old.shape.words ≤ word)) }
        ensures own { StartsWith (answers_of self.new.seen self.new.core) self.new.answers }
        ensures same { self.new ≡ record self.old { seen = self.new.seen } }
        ensures err { OnErr result (self.new ≡ self.old) }
    {
        read_value(&mut self.reader, self.share.shape(), block, word)
    }

    /// The counts of one published version, which has all of the seat's operations. It does not wait.
    ///
    /// `NoVersion` where there is none to enter.
    pub fn totals(&mut self) -> Result<Totals, ViewFault>
        ensures totals { IfOk result (λ totals. totals ≡ capped_totals (totals_of self.new.seen)) }
        ensures sees { OnOk result (SeesOn self.new.shape self.old.seen self.new.seen) }
        ensures own { StartsWith (answers_of self.new.seen self.new.core) self.new.answers }
        ensures same { self.new ≡ record self.old { seen = self.new.seen } }
        ensures err { IfErr result (λ fault. (fault ≡ NoVersion) × (self.new ≡ self.old)) }
    {
        read_totals(&mut self.reader)
    }

    /// Drops this share of the lock. The last one to end waits for the readers that are inside, and ends the versions.
    pub fn end<R: Wait>(self, rt: &R) {
        let Seat {
            core: _,
            share,
            reader,
            answers: _,
            pending: _,
            strange: _,
            stop: _,
        } = self;
        drop(reader);
        share.end(rt);
    }

    // Takes the work up, which is not pending yet or is the pending one.
    fn begin(&mut self, work: Work) -> Result<(), SeatFault>
        ensures ok { OnOk result ((self.new ≡ record self.old { pending = Some work; strange = None }) × MayBegin work self.old) }
        ensures err { IfErr result (λ fault. Fails fault work self.old self.new) }
        ensures at_once { RefusedAtOnce work self.old (λ fault. result ≡ Err fault) }
    {
        let shape = self.share.shape();
        if work.block >= shape.blocks() || !shape.has_word(work.word, work.op) {
            return Err(SeatFault::NoBlock);
        }
        if let Some(did) = self.strange {
            return Err(SeatFault::Stranger(did));
        }
        if let Some(other) = self.pending {
            if other != work {
                return Err(SeatFault::Busy(other));
            }
        }
        self.pending = Some(work);
        Ok(())
    }

    // Performs a load or a store, and adds its answer.
    fn perform<R: Wait>(&mut self, rt: &R, work: Work) -> Result<Did, SeatFault>
        ensures ok { IfOk result (λ did. Completes work (did ∷ []) self.old self.new × Does did work) }
        ensures err { IfErr result (λ fault. Fails fault work self.old self.new) }
        ensures at_once { RefusedAtOnce work self.old (λ fault. result ≡ Err fault) }
    {
        self.begin(work)?;
        let Ok(()) = self.answers.reserve(1) else {
            return Err(SeatFault::NoMemory);
        };
        let Ok(_) = self.share.finish(rt, self.core, work) else {
            return Err(SeatFault::NoMemory);
        };
        let did = match find_own(rt, &mut self.reader, self.core, &self.answers, work) {
            Ok(did) => did,
            Err(did) => {
                self.strange = Some(did);
                return Err(SeatFault::Stranger(did));
            }
        };
        self.answers.push_reserved(did);
        self.pending = None;
        Ok(did)
    }

    /// Performs rows of the core, in order, and keeps where it stopped.
    pub(crate) fn run<R: Wait, G: Gate>(&mut self, rt: &R, rows: &[&Row], gate: &G)
        ensures ran { Ran self.new.stop (shown rows.now) self.old self.new }
        ensures on_time { G.never_late ≡ true → IsNotLate self.new.stop }
    {
        let stop = self.run_rows(rt, rows, gate);
        self.stop = stop;
    }

    // Performs rows of the core, in order, and reports where it stopped.
    fn run_rows<R: Wait, G: Gate>(&mut self, rt: &R, rows: &[&Row], gate: &G) -> Option<Stop>
        ensures ran { Ran result (shown rows.now) self.old self.new }
        ensures on_time { G.never_late ≡ true → IsNotLate result }
    {
        let core = self.core();
        for number in 0..rows.len() {
            if gate.before(core, number as u64).is_err() {
                return Some(Stop::Late(number as u64));
            }
            if let Err(fault) = self.perform_row(rt, rows[number]) {
                return Some(Stop::Fault(number as u64, fault));
            }
        }
        None
    }

    // Performs one row of the core. A row outside the shape is refused as its block.
    fn perform_row<R: Wait>(&mut self, rt: &R, row: &Row) -> Result<(), SeatFault>
        ensures ok { OnOk result (Grows (row.now ∷ []) self.old self.new) }
        ensures err { IfErr result (λ fault. FailsRow fault row.now self.old self.new) }
    {
        let shape = self.share.shape();
        let Some(block) = shape.block_of(row.address) else {
            return Err(SeatFault::NoBlock);
        };
        let word = shape.word_of(row.address);
        match row.op {
            Op::Load => {
                self.load(rt, block, word)?;
            }
            Op::Store(value) => self.store(rt, block, word, value)?,
            Op::Evict => {
                self.evict(rt, block)?;
            }
        }
        Ok(())
    }
}
