//! What the rows of a text ask for, packed until it is taken up.
ghost use Rattle.std.specs.Prelude.{◌≡◌, ◌++◌, [], IfNone, option_to_list};
ghost use Rattle.snoop_trace.specs.Asked.{step_of};
ghost use Rattle.snoop_trace.specs.Grammar.{IsStepWithin};
ghost use Rattle.snoop_engine.specs.Packed.{largest};

use crate::packed::StepQueue;
use crate::script::Script;
use snoop_trace::streams::Entries;
use snoop_trace::{Asked, NoMemory, Step, Work};
use std::alloc::Global;
use std::marker::Model;

/// What rows of the largest shape or a smaller one ask for, in their order, which is taken from the front.
#[derive(Drop)]
pub(crate) struct AskQueue {
    steps: StepQueue,
}

impl Model for AskQueue {
    ghost use Rattle.std.specs.Prelude.{◌≡◌, List, map};
    ghost use Rattle.snoop_trace.specs.Asked.{step_of};
    ghost use Rattle.snoop_trace.specs.declared.step.Asked.{Asked};
    ghost use Rattle.snoop_engine.specs.Todo.{asked_by};

    ghost Value = { List Asked };

    ghost view = { λ q. asked_by q.steps };

    // Each step asks.
    ghost invariant = { λ q. q.steps ≡ map step_of (asked_by q.steps) };
}

impl AskQueue {
    /// Nothing is asked for.
    pub(crate) fn new(alloc: Global) -> Self
        ensures { result ≡ [] }
    {
        AskQueue {
            steps: StepQueue::new(alloc),
        }
    }

    /// Takes the first away.
    #[tactic(auto, using(crate::proofs::Packing::first_asks))]
    pub(crate) fn next(&mut self) -> Option<Asked>
        ensures first { self.old ≡ option_to_list result ++ self.new }
        ensures none { IfNone result (self.old ≡ []) }
    {
        match self.steps.take_first()? {
            Step::Ask {
                core,
                block,
                word,
                op,
            } => Some(Asked {
                core,
                work: Work { block, word, op },
            }),
            _ => unreachable!(),
        }
    }
}

impl Entries<Asked> for AskQueue {
    ghost listed = { λ q. q };

    ghost fits = { λ asked. IsStepWithin largest (step_of asked) };

    #[tactic(auto, using(crate::proofs::Packing::asked_on, crate::proofs::Packing::still_ask, crate::proofs::Packing::asked_counted))]
    fn append(&mut self, asked: Asked) -> Result<(), NoMemory> {
        let work = asked.work;
        self.steps.append(Step::Ask {
            core: asked.core,
            block: work.block,
            word: work.word,
            op: work.op,
        })
    }
}
