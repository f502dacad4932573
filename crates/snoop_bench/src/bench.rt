//! The value under the lock.
ghost use Rattle.std.specs.Prelude.{◌≡◌, ◌<◌, ◌^◌, true, IsOk, IfOk, IfErr, OnErr, Err, Some, None};
ghost use Rattle.snoop_trace.specs.Output.{IsReadableStep};
ghost use Rattle.snoop_trace.specs.declared.step.Step.TheVariants.{Ask};
ghost use Rattle.snoop_model.specs.Runs.Safe.{IsSafe};
ghost use Rattle.snoop_model.specs.Turns.Turn.{turn_of};
ghost use Rattle.snoop_bench.specs.declared.work.AdvanceFault.{AdvanceFault};
ghost use Rattle.snoop_bench.specs.Works.{as_asked, work_at};
ghost use Rattle.snoop_bench.specs.Locked.{opened, IsKept};
ghost use Rattle.snoop_bench.specs.Turns.{Turns, TurnsIn};
ghost use Rattle.snoop_bench.specs.Turns.Case.{asks, over};
ghost use Rattle.snoop_bench.specs.Faults.{IsInside, RefusesTurn, MustRefuse};

use crate::outcome::{asked, note, over, set_work};
use crate::recorder::Recorder;
use crate::work::{AdvanceFault, Turn, as_asked};
use snoop_history::Log;
use snoop_machine::turns_are_served;
use snoop_rules::Protocol;
use snoop_trace::{NoMemory, Shape, Step, Work};
use snoop_versions::Readers;
use std::alloc::Global;
use std::marker::Model;
use std::sync::Wait;

/// What lies under the lock: a machine with the steps that it has taken, each core's work under way, and the writer of versions.
///
/// It is not `Drop`: end it by `end`.
pub struct Bench {
    recorder: Recorder,
    works: Vec<Option<Work>>,
}

impl Model for Bench {
    ghost use Rattle.snoop_bench.specs.Locked.{Locked};
    ghost use Rattle.snoop_bench.specs.Keeps.{locked, BenchKeeps};

    ghost Value = { Locked };

    ghost view = { locked };

    ghost invariant = { BenchKeeps };
}

impl Bench {
    /// A bench with a machine at reset, no work under way, and `readers` reading places. `NoMemory` if out of memory.
    pub fn new(
        alloc: Global,
        protocol: Protocol,
        shape: Shape,
        readers: usize,
    ) -> Result<Bench, NoMemory>
        requires { (0 < readers) × (readers < 2 ^ 32) }
        ensures { IfOk result (λ bench. bench ≡ opened protocol shape) }
    {
        turns_are_served();
        let works = vec![in alloc; None; shape.cores() as usize]?;
        let recorder = Recorder::new(alloc, protocol, shape, readers)?;
        Ok(Bench { recorder, works })
    }

    /// What makes readers of the published versions. `NoMemory` where the count of its owners is full.
    pub fn readers(&self) -> Result<Readers, NoMemory>
        ensures { IfOk result (λ readers. readers ≡ self.now.situation.shape) }
    {
        self.recorder.readers()
    }

    /// The machine's protocol.
    pub fn protocol(&self) -> Protocol
        ensures { result ≡ self.now.situation.protocol }
    {
        self.recorder.machine().protocol()
    }

    /// The machine's shape.
    pub fn shape(&self) -> Shape
        ensures { result ≡ self.now.situation.shape }
    {
        self.recorder.machine().shape()
    }

    /// What every bench keeps, whatever was done with it: its situation and log are those of the run of its steps from reset, all
    /// taken; a core waits only for its work under way; and the published list is the log. This does nothing: a proof calls it for
    /// what it ensures.
    pub fn kept(&self)
        ensures kept { IsKept self.now }
        ensures safe { IsSafe self.now.situation }
    {
        let _ = &self.works;
        self.recorder.recorded();
        turns_are_served();
    }

    /// The history of all that was performed, ordered and answered.
    pub fn log(&self) -> &Log
        ensures items { result.now.items ≡ self.now.situation.log }
        ensures shape { (result.now.cores ≡ self.now.situation.shape.cores) × (result.now.blocks ≡ self.now.situation.shape.blocks) × (result.now.words ≡ self.now.situation.shape.words) }
    {
        self.recorder.machine().log()
    }

    /// The steps that were taken, in order, from reset on.
    pub fn steps(&self) -> &[Step]
        ensures { result.now ≡ self.now.steps }
    {
        self.recorder.steps()
    }

    /// The core's work under way; `None` where there is none, and outside the shape.
    pub fn work(&self, core: u32) -> Option<Work>
        ensures { result ≡ work_at self.now.works core }
    {
        self.works.get(core as usize).copied().flatten()
    }

    /// Takes one turn of the core's work: at most one step, whose item is published before this returns.
    ///
    /// With no work under way, the core asks for this one, and the work is over unless a request was issued. If its request waits,
    /// the request is ordered where the block is free; otherwise the block's open transaction gets its response. If the core's own
    /// transaction is open, that gets its response, and the work is over. If another core's turn has closed it, no step is taken,
    /// and the work is over. An eviction's word counts as 0.
    ///
    /// `NoCore` for a core outside the shape; `NoBlock` for a block or a word outside the shape; `Other` where the core has another
    /// work under way; `NoMemory` if out of memory. A fault changes nothing.
    pub fn advance<R: Wait>(&mut self, rt: &R, core: u32, work: Work) -> Result<Turn, AdvanceFault>
        ensures ok { IfOk result (λ given. Turns core (as_asked work) given self.old self.new) }
        ensures err { IfErr result (λ fault. RefusesTurn fault core (as_asked work) self.old × (self.new ≡ self.old)) }
        ensures exactly { (fault : AdvanceFault) → MustRefuse fault core (as_asked work) self.old → result ≡ Err fault }

        // A turn that takes no step takes no memory.
        ensures closed { IsInside core work self.old → work_at self.old.works core ≡ Some (as_asked work) → turn_of self.old.situation core work.block work.word work.op true ≡ None → IsOk result }
    {
        let work = as_asked(work);
        let shape = self.shape();
        if core >= shape.cores() {
            return Err(AdvanceFault::NoCore);
        }
        if work.block >= shape.blocks() || !shape.has_word(work.word, work.op) {
            return Err(AdvanceFault::NoBlock);
        }
        let Some(under_way) = self.work(core) else {
            let Ok(turn) = self.begin(rt, core, work) else {
                return Err(AdvanceFault::NoMemory);
            };
            return Ok(turn);
        };
        if under_way != work {
            return Err(AdvanceFault::Other(under_way));
        }
        let Ok(turn) = self.go_on(rt, core, work) else {
            return Err(AdvanceFault::NoMemory);
        };
        Ok(turn)
    }

    // The core, which has no work under way, asks.
    fn begin<R: Wait>(&mut self, rt: &R, core: u32, work: Work) -> Result<Turn, NoMemory>
        requires inside { IsInside core work self.old }
        requires within { IsReadableStep self.old.situation.shape (Ask core work.block work.word work.op) }
        requires idle { work_at self.old.works core ≡ None }
        ensures ok { IfOk result (λ given. TurnsIn asks core work given self.old self.new) }
        ensures err { OnErr result (self.new ≡ self.old) }
    {
        turns_are_served();
        self.recorder.recorded();
        let step = Step::Ask {
            core,
            block: work.block,
            word: work.word,
            op: work.op,
        };
        let reply = self.recorder.take(rt, step)?;
        note(&mut self.works, core, work, reply);
        Ok(asked(reply))
    }

    // The core goes on with its work under way.
    fn go_on<R: Wait>(&mut self, rt: &R, core: u32, work: Work) -> Result<Turn, NoMemory>
        requires inside { IsInside core work self.old }
        requires its { work_at self.old.works core ≡ Some work }
        ensures ok { IfOk result (λ given. Turns core work given self.old self.new) }
        ensures err { OnErr result (self.new ≡ self.old) }
        ensures closed { turn_of self.old.situation core work.block work.word work.op true ≡ None → IsOk result }
    {
        let machine = self.recorder.machine();
        let Some(step) = machine.turn_step(core, work.block, work.word, work.op, true) else {
            return Ok(self.close(core, work));
        };
        let waits = machine.waits_on(core, work.block);
        turns_are_served();
        self.recorder.recorded();
        self.recorder.take(rt, step)?;
        if waits {
            return Ok(Turn::Going);
        }
        Ok(self.close(core, work))
    }

    // The core's work, which has no step left, is over.
    fn close(&mut self, core: u32, work: Work) -> Turn
        requires inside { IsInside core work self.old }
        requires its { work_at self.old.works core ≡ Some work }
        requires closed { turn_of self.old.situation core work.block work.word work.op true ≡ None }
        ensures { TurnsIn over core work result self.old self.new }
    {
        turns_are_served();
        self.recorder.recorded();
        let last = self.recorder.machine().log().last(core);
        set_work(&mut self.works, core, None);
        over(work.op, last)
    }

    /// Waits for the readers that are inside, gives the versions up, and hands over the steps that were taken, from reset on.
    pub fn end<R: Wait>(self, rt: &R) -> Vec<Step>
        ensures { result.items ≡ self.steps }
    {
        let Bench { recorder, works: _ } = self;
        recorder.end(rt)
    }
}
