//! The driver of rows that are served one after another.
ghost use Rattle.std.specs.Prelude.{◌≡◌, [], All, IfOk, IfNone, IfSome, false};
ghost use Rattle.snoop_model.specs.Pictures.Situation.{reset};
ghost use Rattle.snoop_model.specs.Turns.Serving.{IsUnderWay};
ghost use Rattle.snoop_trace.specs.Grammar.{IsRowWithin};
ghost use Rattle.snoop_engine.specs.InOrder.{EndsInOrder, TakesUpNext, row_under_way};
ghost use Rattle.snoop_engine.specs.Courses.{CanEnd};
ghost use Rattle.snoop_engine.specs.UnderWay.{ServesOnly, nothing};
ghost use Rattle.snoop_engine.specs.Round.{IsEnabled};
ghost use Rattle.snoop_engine.specs.Serial.{is_ask};

use crate::course::{Course, take_enabled};
use snoop_machine::{Machine, Refused, Reply};
use snoop_rules::Protocol;
use snoop_trace::{NoMemory, Row, Shape, Step};
use std::alloc::Global;
use std::marker::Model;

/// A machine that serves rows one after another, each whole before the next one is asked.
#[derive(Drop)]
pub(crate) struct SerialDriver<'a> {
    machine: Machine,
    rows: &'a [Row],
    // The row under way. It may be over.
    row: Option<Row>,
}

impl<'a> Model for SerialDriver<'a> {
    ghost use Rattle.snoop_engine.specs.InOrder.{InOrder, IsInOrder};

    ghost Value = { InOrder };

    ghost view = { λ d. record { situation = d.machine.situation; left = d.rows.now; row = d.row } };

    ghost invariant = { λ d. IsInOrder d.machine.situation d.rows.now d.row };
}

impl<'a> SerialDriver<'a> {
    /// A driver of these rows, with a machine at reset.
    pub(crate) fn new(
        alloc: Global,
        protocol: Protocol,
        shape: Shape,
        rows: &'a [Row],
    ) -> Result<Self, NoMemory>
        requires { All (IsRowWithin shape) rows.now }
        ensures situation { IfOk result (λ driver. driver.situation ≡ reset protocol shape) }
        ensures left { IfOk result (λ driver. driver.left ≡ rows.now) }
        ensures can_end { IfOk result (λ driver. CanEnd (EndsInOrder driver)) }
    {
        shape.within_limits();
        let machine = Machine::reset(alloc, protocol, shape)?;
        Ok(SerialDriver {
            machine,
            rows,
            row: None,
        })
    }

    /// The next step of the row under way.
    fn continued(&self) -> Option<Step>
        ensures asks_nothing { IfSome result (λ step. is_ask step ≡ false) }
        ensures under_way { IfSome result (IsUnderWay (row_under_way self.now.situation.shape self.now.row)) }
        ensures enabled { IfSome result (IsEnabled self.now.situation) }
        ensures over { IfNone result (ServesOnly nothing self.now.situation) }
    {
        let row = self.row?;
        let shape = self.machine.shape();
        let block = shape.block_of(row.address).unwrap();
        let word = shape.word_asked(row.address, row.op);
        self.machine.turn_step(row.core, block, word, row.op, true)
    }

    /// The Ask of the next row, which is under way from here on.
    fn begun(&mut self) -> Option<Step>
        requires { ServesOnly nothing self.old.situation }
        ensures machine { self.new.situation ≡ self.old.situation }
        ensures takes_up { IfSome result (λ step. TakesUpNext self.old step self.new.left) }
        ensures under_way { IfSome result (IsUnderWay (row_under_way self.new.situation.shape self.new.row)) }
        ensures enabled { IfSome result (IsEnabled self.new.situation) }
        ensures done { IfNone result (self.old.left ≡ []) }
    {
        let (row, rest) = self.rows.split_first()?;
        let shape = self.machine.shape();
        let block = shape.block_of(row.address).unwrap();
        let word = shape.word_asked(row.address, row.op);
        self.rows = rest;
        self.row = Some(*row);
        Some(Step::Ask {
            core: row.core,
            block,
            word,
            op: row.op,
        })
    }

    /// The step that comes next; `None` once every row is served.
    #[tactic(auto, using(crate::proofs::CourseLemmas::in_order_end, crate::proofs::InOrderLemmas::at_rest))]
    fn turn(&mut self) -> Option<Step>
        ensures machine { self.new.situation ≡ self.old.situation }
        ensures takes_up { IfSome result (λ step. TakesUpNext self.old step self.new.left) }
        ensures under_way { IfSome result (IsUnderWay (row_under_way self.new.situation.shape self.new.row)) }
        ensures enabled { IfSome result (IsEnabled self.new.situation) }
        ensures done { IfNone result (EndsInOrder self.old [] [] self.old.situation) }
    {
        if let Some(step) = self.continued() {
            return Some(step);
        }
        self.begun()
    }
}

impl<'a> Course for SerialDriver<'a> {
    ghost use Rattle.snoop_engine.specs.InOrder.{FindsInOrder, remaining_in_order};

    ghost situation = { λ d. d.situation };

    ghost leads = { λ d steps outcomes final. EndsInOrder d steps outcomes final };

    ghost left = { λ d. remaining_in_order d };

    ghost finds = { λ before step now. FindsInOrder before step now };

    fn machine(&self) -> &Machine {
        &self.machine
    }

    #[inline(always)]
    fn find(&mut self) -> Option<Step> {
        self.turn()
    }

    #[inline(always)]
    fn take(&mut self, step: Step) -> Result<Result<Reply, Refused>, NoMemory> {
        let reply = take_enabled(&mut self.machine, step)?;
        Ok(Ok(reply))
    }
}
