//! What one core has left to do, and the work that it has under way.
ghost use Rattle.std.specs.Prelude.{◌≡◌, ◌∷◌, ◌++◌, [], IfNone, OnOk, option_to_list};
ghost use Rattle.snoop_trace.specs.Asked.{step_of};
ghost use Rattle.snoop_trace.specs.Grammar.{IsStepWithin};
ghost use Rattle.snoop_engine.specs.Packed.{largest};
ghost use Rattle.snoop_engine.specs.Todo.{nothing_to_do};

use crate::asks::AskQueue;
use snoop_trace::streams::Entries;
use snoop_trace::{Asked, NoMemory, Work};
use std::alloc::Global;
use std::marker::Model;

/// What one core has to do: its rows that are left, and the work under way.
#[derive(Drop)]
pub(crate) struct Lane {
    rows: AskQueue,
    work: Option<Work>,
}

impl Model for Lane {
    ghost use Rattle.snoop_engine.specs.Todo.{Todo, works};

    ghost Value = { Todo };

    ghost view = { λ l. record { left = works l.rows; work = l.work } };
}

impl Lane {
    /// A lane with nothing to do.
    pub(crate) fn new(alloc: Global) -> Self
        ensures { result ≡ nothing_to_do }
    {
        Lane {
            rows: AskQueue::new(alloc),
            work: None,
        }
    }

    /// Puts what a row of the core asks for last.
    pub(crate) fn push(&mut self, asked: Asked) -> Result<(), NoMemory>
        requires { IsStepWithin largest (step_of asked) }
        ensures left { OnOk result (self.new.left ≡ self.old.left ++ asked.work ∷ []) }
        ensures work { self.new.work ≡ self.old.work }
    {
        self.rows.append(asked)
    }

    /// The work under way. It may be over.
    pub(crate) fn work(&self) -> Option<Work>
        ensures { result ≡ self.now.work }
    {
        self.work
    }

    /// Takes up the next row in place of a work that is over.
    pub(crate) fn take_up(&mut self) -> Option<Work>
        ensures work { self.new.work ≡ result }
        ensures left { self.old.left ≡ option_to_list result ++ self.new.left }
        ensures done { IfNone result (self.old.left ≡ []) }
    {
        self.work = self.rows.next().map(|asked| asked.work);
        self.work
    }
}
