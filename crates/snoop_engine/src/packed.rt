//! The steps of a text, packed until they are taken.
ghost use Rattle.std.specs.Prelude.{◌≡◌, ◌<◌, ◌^◌, ◌++◌, ◌∷◌, [], length, OnOk, OnErr, slice_index_or};
ghost use Rattle.snoop_trace.specs.Grammar.{IsStepWithin};
ghost use Rattle.snoop_trace.specs.declared.step.Step.TheVariants.{Ask};
ghost use Rattle.snoop_engine.specs.declared.packed.Head.{Head};
ghost use Rattle.snoop_engine.specs.Packed.{largest, step_of_head, stored_by, values_of, worded_by, words_of};

use crate::script::Script;
use snoop_trace::streams::Entries;
use snoop_trace::{NoMemory, Op, Step};
use std::alloc::Global;
use std::collections::VecDeque;
use std::marker::Model;

/// What a step is, without its data. What a core asks is of its block's first word, or of another one.
#[derive(Clone, Copy)]
pub(crate) enum Kind {
    Load,
    Store,
    Evict,
    LoadOfWord,
    StoreOfWord,
    EvictOfWord,
    Order,
    Respond,
}

/// A step of the largest shape or a smaller one, without its word and the value that it stores, in fewer bytes than a
/// `Step`. A field that its kind does not need is arbitrary.
#[derive(Clone, Copy)]
pub(crate) struct Head {
    block: u16,
    core: u8,
    kind: Kind,
}

impl Head {
    /// The head of a step.
    fn new(step: Step) -> Self
        requires { IsStepWithin largest step }
        ensures step { step_of_head result (slice_index_or (words_of step) 0 0) (slice_index_or (values_of step) 0 0) ≡ step }
        ensures words { worded_by result.kind ≡ length (words_of step) }
        ensures values { stored_by result.kind ≡ length (values_of step) }
    {
        match step {
            Step::Ask {
                core,
                block,
                word,
                op,
            } => Head {
                block: block as u16,
                core: core as u8,
                kind: match op {
                    Op::Load if word == 0 => Kind::Load,
                    Op::Load => Kind::LoadOfWord,
                    Op::Store(_) if word == 0 => Kind::Store,
                    Op::Store(_) => Kind::StoreOfWord,
                    Op::Evict if word == 0 => Kind::Evict,
                    Op::Evict => Kind::EvictOfWord,
                },
            },
            Step::Order { core } => Head {
                block: 0,
                core: core as u8,
                kind: Kind::Order,
            },
            Step::Respond { block } => Head {
                block: block as u16,
                core: 0,
                kind: Kind::Respond,
            },
        }
    }
}

/// Steps in their order, of the largest shape or a smaller one, which are taken from the front.
#[derive(Drop)]
pub(crate) struct StepQueue {
    heads: VecDeque<Head>,
    // The words of those among them that are not of a first word.
    words: VecDeque<u8>,
    // What the stores among them store.
    values: VecDeque<u64>,
}

impl Model for StepQueue {
    ghost use Rattle.std.specs.Prelude.{◌≡◌, List, length};
    ghost use Rattle.snoop_trace.specs.declared.step.Step.{Step};
    ghost use Rattle.snoop_engine.specs.Packed.{steps_in, stored_in, worded_in};

    ghost Value = { List Step };

    ghost view = { λ q. steps_in q.heads.items q.words.items q.values.items };

    ghost invariant = { λ q. (worded_in q.heads.items ≡ length q.words.items) × (stored_in q.heads.items ≡ length q.values.items) };
}

impl StepQueue {
    /// No steps.
    pub(crate) fn new(alloc: Global) -> Self
        ensures { result ≡ [] }
    {
        StepQueue {
            heads: VecDeque::new(alloc),
            words: VecDeque::new(alloc),
            values: VecDeque::new(alloc),
        }
    }
}

impl Script for StepQueue {
    ghost steps = { λ q. q };

    fn take_first(&mut self) -> Option<Step> {
        let head = self.heads.pop_front()?;
        let core = head.core as u32;
        let block = head.block as u32;
        let word = match head.kind {
            Kind::LoadOfWord | Kind::StoreOfWord | Kind::EvictOfWord => {
                self.words.pop_front().unwrap() as u32
            }
            _ => 0,
        };
        let op = match head.kind {
            Kind::Load | Kind::LoadOfWord => Op::Load,
            Kind::Store | Kind::StoreOfWord => Op::Store(self.values.pop_front().unwrap()),
            Kind::Evict | Kind::EvictOfWord => Op::Evict,
            Kind::Order => return Some(Step::Order { core }),
            Kind::Respond => return Some(Step::Respond { block }),
        };
        Some(Step::Ask {
            core,
            block,
            word,
            op,
        })
    }
}

impl Entries<Step> for StepQueue {
    ghost listed = { λ q. q };

    ghost fits = { IsStepWithin largest };

    /// Where there is no memory for the step, nothing is changed.
    #[inline(always)]
    fn append(&mut self, step: Step) -> Result<(), NoMemory>
        requires { IsStepWithin largest step }
        ensures items { OnOk result (self.new ≡ self.old ++ step ∷ []) }
        ensures bounded { OnOk result (length self.new < 2 ^ 63) }
        ensures err { OnErr result (self.new ≡ self.old) }
    {
        self.heads.reserve(1)?;
        match step {
            Step::Ask {
                word,
                op: Op::Store(value),
                ..
            } if word != 0 => {
                self.words.reserve(1)?;
                self.values.push_back(value).map_err(|_| NoMemory)?;
                self.words.push_back_reserved(word as u8);
            }
            Step::Ask {
                op: Op::Store(value),
                ..
            } => self.values.push_back(value).map_err(|_| NoMemory)?,
            Step::Ask { word, .. } if word != 0 => {
                self.words.push_back(word as u8).map_err(|_| NoMemory)?;
            }
            _ => {}
        }
        self.heads.push_back_reserved(Head::new(step));
        Ok(())
    }
}
