//! The driver of rows: whose turn it is, and which step the turn takes.
ghost use Rattle.std.specs.Prelude.{◌≡◌, ◌≢◌, ℕ, ◌<◌, ◌+◌, [], All, Contains, Some, None, IfOk, IfSome, IfNone, length, slice_get};
ghost use Rattle.snoop_model.specs.Pictures.Situation.{reset};
ghost use Rattle.snoop_model.specs.Turns.Quiet.{IsQuiet};
ghost use Rattle.snoop_model.specs.Turns.Serving.{IsUnderWay};
ghost use Rattle.snoop_engine.specs.Todo.{IsAskedWithin, todo_of, lanes_under_way, left_in, works_by};
ghost use Rattle.snoop_engine.specs.Served.{ask_of};
ghost use Rattle.snoop_engine.specs.Journey.{IsAtTheEnd};
ghost use Rattle.snoop_engine.specs.Courses.{CanEnd};
ghost use Rattle.snoop_engine.specs.Round.{AsksWhenQuiet, TakesUp, Finds, IsIdle, IsOver, IsEnabled};

use crate::asks::AskQueue;
use crate::course::{Course, take_enabled};
use crate::deal::{all_cores, deal};
use crate::lane::Lane;
use snoop_machine::{Machine, Refused, Reply};
use snoop_rules::Protocol;
use snoop_trace::{NoMemory, Shape, Step};
use std::alloc::Global;
use std::collections::VecDeque;
use std::marker::Model;

/// A machine whose cores do their rows one at a time, each turn by the turn rule.
#[derive(Drop)]
pub(crate) struct Driver {
    machine: Machine,
    lanes: Vec<Lane>,
    turns: VecDeque<u32>,
}

impl Model for Driver {
    ghost use Rattle.snoop_engine.specs.Round.{Progress, IsFit};

    ghost Value = { Progress };

    ghost view = { λ d. record { situation = d.machine.situation; lanes = d.lanes.items; turns = d.turns.items } };

    ghost invariant = { λ d. IsFit d.machine.situation d.lanes.items d.turns.items };
}

impl Driver {
    /// A driver of the rows that ask for this, with a machine at reset. What they ask for is dealt before the first step.
    pub(crate) fn new(
        alloc: Global,
        protocol: Protocol,
        shape: Shape,
        asks: AskQueue,
    ) -> Result<Self, NoMemory>
        requires { All (IsAskedWithin shape) asks }
        ensures situation { IfOk result (λ driver. driver.situation ≡ reset protocol shape) }
        ensures left { IfOk result (λ driver. (core : ℕ) → (todo_of driver.lanes core).left ≡ works_by asks core) }
        ensures all { IfOk result (λ driver. left_in driver.lanes ≡ length asks) }
        ensures can_end { IfOk result (λ driver. CanEnd (IsAtTheEnd driver)) }
    {
        shape.within_limits();
        let machine = Machine::reset(alloc, protocol, shape)?;
        let lanes = deal(alloc, shape, asks)?;
        let turns = all_cores(alloc, shape)?;
        Ok(Driver {
            machine,
            lanes,
            turns,
        })
    }

    /// The core whose turn is next; none once every row is done.
    fn whose_turn(&self) -> Option<u32>
        ensures first { result ≡ slice_get self.now.turns 0 }
        ensures within { IfSome result (λ core. core < self.now.situation.shape.cores) }
        ensures done { IfNone result (((core : ℕ) → (todo_of self.now.lanes core).left ≡ []) × IsQuiet self.now.situation) }
    {
        self.turns.front().copied()
    }

    /// The first core's turn is over, and comes again after the others'.
    fn pass_on(&mut self)
        requires { 0 < length self.old.turns }
        ensures machine { self.new.situation ≡ self.old.situation }
        ensures lanes { self.new.lanes ≡ self.old.lanes }
    {
        self.turns.rotate_left(1);
    }

    /// The first core has nothing left to do: it has no more turns.
    fn dismiss(&mut self, core: u32)
        requires first { slice_get self.old.turns 0 ≡ Some core }
        requires idle { IsIdle (todo_of self.old.lanes core) }
        ensures machine { self.new.situation ≡ self.old.situation }
        ensures lanes { self.new.lanes ≡ self.old.lanes }
        ensures fewer { length self.new.turns + 1 ≡ length self.old.turns }
    {
        let _ = self.turns.pop_front();
    }

    /// The next step of the core's work under way.
    fn continued(&self, core: u32) -> Option<Step>
        requires core { core < self.now.situation.shape.cores }
        ensures asks_nothing { IfSome result (λ step. (k : ℕ) → ask_of k step ≡ None) }
        ensures apart { IfSome result (AsksWhenQuiet self.now.situation) }
        ensures under_way { IfSome result (IsUnderWay (lanes_under_way self.now.lanes)) }
        ensures enabled { IfSome result (IsEnabled self.now.situation) }
        ensures over { IfNone result (IsOver self.now.lanes self.now.situation core) }
    {
        let work = self.lanes[core as usize].work()?;
        self.machine
            .turn_step(core, work.block, work.word, work.op, true)
    }

    /// The first step of the core's next row.
    #[tactic(auto, using(crate::proofs::Driving::fit_idles, crate::proofs::Driving::takes_first))]
    fn begun(&mut self, core: u32) -> Option<Step>
        requires core { core < self.old.situation.shape.cores }
        requires turn { Contains self.old.turns core }
        requires over { IsOver self.old.lanes self.old.situation core }
        ensures machine { self.new.situation ≡ self.old.situation }
        ensures turns { self.new.turns ≡ self.old.turns }
        ensures others { (k : ℕ) → k ≢ core → todo_of self.new.lanes k ≡ todo_of self.old.lanes k }
        ensures takes_up { IfSome result (λ step. TakesUp self.old.lanes step self.new.lanes) }
        ensures apart { IfSome result (AsksWhenQuiet self.old.situation) }
        ensures under_way { IfSome result (IsUnderWay (lanes_under_way self.new.lanes)) }
        ensures enabled { IfSome result (IsEnabled self.new.situation) }
        ensures idle { IfNone result (((todo_of self.old.lanes core).left ≡ []) × IsIdle (todo_of self.new.lanes core)) }
    {
        let work = self.lanes[core as usize].take_up()?;
        self.machine
            .turn_step(core, work.block, work.word, work.op, false)
    }

    /// The step of the core's turn. A row that it takes up is under way from here on.
    fn turn(&mut self, core: u32) -> Option<Step>
        requires core { core < self.old.situation.shape.cores }
        requires turn { Contains self.old.turns core }
        ensures machine { self.new.situation ≡ self.old.situation }
        ensures turns { self.new.turns ≡ self.old.turns }
        ensures others { (k : ℕ) → k ≢ core → todo_of self.new.lanes k ≡ todo_of self.old.lanes k }
        ensures takes_up { IfSome result (λ step. TakesUp self.old.lanes step self.new.lanes) }
        ensures apart { IfSome result (AsksWhenQuiet self.old.situation) }
        ensures under_way { IfSome result (IsUnderWay (lanes_under_way self.new.lanes)) }
        ensures enabled { IfSome result (IsEnabled self.new.situation) }
        ensures idle { IfNone result (((todo_of self.old.lanes core).left ≡ []) × IsIdle (todo_of self.new.lanes core)) }
    {
        if let Some(step) = self.continued(core) {
            return Some(step);
        }
        self.begun(core)
    }

    /// Finds the next step; `None` once every row is done.
    #[inline(always)]
    fn next_step(&mut self) -> Option<Step>
        ensures machine { self.new.situation ≡ self.old.situation }
        ensures finds { IfSome result (λ step. Finds self.old step self.new) }
        ensures done { IfNone result (IsAtTheEnd self.old [] [] self.old.situation) }
    {
        while let Some(core) = self.whose_turn() {
            if let Some(step) = self.turn(core) {
                self.pass_on();
                return Some(step);
            }
            self.dismiss(core);
        }
        None
    }
}

impl Course for Driver {
    ghost use Rattle.snoop_engine.specs.Round.{remaining};

    ghost situation = { λ d. d.situation };

    ghost leads = { λ d steps outcomes final. IsAtTheEnd d steps outcomes final };

    ghost left = { λ d. remaining d };

    ghost finds = { λ before step now. Finds before step now };

    fn machine(&self) -> &Machine {
        &self.machine
    }

    #[inline(always)]
    fn find(&mut self) -> Option<Step> {
        self.next_step()
    }

    #[inline(always)]
    fn take(&mut self, step: Step) -> Result<Result<Reply, Refused>, NoMemory> {
        let reply = take_enabled(&mut self.machine, step)?;
        Ok(Ok(reply))
    }
}
