//! A step in its three stages: find, make room, make.
ghost use Rattle.std.specs.Prelude.{◌≡◌, ◌<◌, ◌+◌, ◌++◌, ℕ, true, false, Option, OnOk, OnErr, IfOk, IfErr, IsOk, Err, slice_index, option_to_list};
ghost use Rattle.snoop_history.specs.declared.items.Item.{Item};
ghost use Rattle.snoop_model.specs.declared.replies.Refused.TheVariants.{NoMemory as OutOfMemory};
ghost use Rattle.snoop_model.specs.Moves.Move.{FirstMove};
ghost use Rattle.snoop_model.specs.Moves.Refuses.{RefusedFor, Refuses};
ghost use Rattle.snoop_machine.specs.Standing.{KeepsRoom, has_line};
ghost use Rattle.snoop_machine.specs.Holding.{HoldsOn};
ghost use Rattle.snoop_machine.specs.Prepared.{IsFull, IsPrepared, room_to_issue};
ghost use Rattle.snoop_machine.specs.Following.{LosesLines, AddsLine, AddsLines};
ghost use Rattle.snoop_machine.specs.Plan.{IsPlan, IsPlanFor, HasRoom, planned_step, room_for, entry_of};
ghost use Rattle.snoop_model.specs.Invariant.Invariant.{Invariant};
ghost use Rattle.snoop_model.specs.declared.replies.Refused.{Refused};

use super::Parts;
use snoop_history::{Came, Item, Sent};
use snoop_model::{Access, Refused, Reply};
use snoop_rules::{CacheState, MemCell, MemState, Payload, Request};
use snoop_trace::{Block, NoMemory, Op, Step};

/// What a step will do, found before anything changes.
#[derive(Clone, Copy)]
pub(crate) enum Plan {
    Ask {
        core: u32,
        block: u32,
        word: u32,
        op: Op,
        asked: Asked,
    },
    /// The sender, its payload, and memory's next state.
    Order {
        core: u32,
        request: Request,
        block: u32,
        from: Option<u32>,
        payload: Payload,
        memory: MemState,
    },
    /// Memory takes the message, where it waits for one, and so does the requestor of a GetS or GetM.
    Respond {
        came: Came,
        memory: MemCell,
        filled: Option<Filled>,
    },
}

/// What an Ask does to its core's line.
#[derive(Clone, Copy)]
pub(crate) enum Asked {
    /// An Evict of a block in I.
    Absent,
    /// A hit: the line's next state, and the value that is loaded or stored.
    Hit(CacheState, u64),
    /// The request that is issued, and the line's next state.
    Issue(Request, CacheState),
    /// The copy is given up: the line's next state.
    Drop(CacheState),
}

/// The next state of the requestor's line once its data has come, and what it performs with it.
#[derive(Clone, Copy)]
pub(crate) struct Filled {
    pub(crate) next: CacheState,
    pub(crate) access: Access,
    pub(crate) value: u64,
}

impl<B: Block> Parts<B> {
    /// Takes one step: finds all that it will do, makes the room, and does it. A refused step changes nothing.
    #[inline(always)]
    pub(crate) fn step(&mut self, step: Step) -> Result<Reply, Refused>
        requires { Invariant self.old.situation }
        ensures taken { IfOk result (λ reply. FirstMove self.old.situation step reply self.new.situation) }
        ensures refused { IfErr result (λ cause. RefusedFor self.old.situation step cause × (self.new ≡ self.old)) }
        ensures exactly { (cause : Refused) → Refuses self.old.situation step cause → result ≡ Err cause }
        ensures full { result ≡ Err OutOfMemory → IsFull self.old step }
        ensures room { KeepsRoom self.old self.new }
        ensures lines { (core : ℕ) → HoldsOn self.old self.new step core }

        // What `prepare` reported comes true.
        ensures prepared { (entry : Option Item) → IsPrepared self.old step entry → IsOk result × (self.new.situation.log ≡ self.old.situation.log ++ option_to_list entry) }
    {
        let plan = match self.planned(step) {
            Ok(plan) => plan,
            Err(cause) => return Err(cause),
        };
        self.make_room(&plan)?;
        Ok(self.perform(plan))
    }

    /// Makes the room for a step, and reports the item that it will add. The same step, taken next, is not refused and takes no memory.
    pub(crate) fn prepare(&mut self, step: Step) -> Result<Option<Item>, Refused>
        requires { Invariant self.old.situation }
        ensures prepared { IfOk result (λ entry. IsPrepared self.new step entry) }
        ensures refused { IfErr result (λ cause. RefusedFor self.old.situation step cause × (self.new ≡ self.old)) }
        ensures exactly { (cause : Refused) → Refuses self.old.situation step cause → result ≡ Err cause }
        ensures full { result ≡ Err OutOfMemory → IsFull self.old step }
        ensures room { KeepsRoom self.old self.new }
        ensures lines { (core : ℕ) → HoldsOn self.old self.new step core }
        ensures unchanged { self.new.situation ≡ self.old.situation }
    {
        let plan = match self.planned(step) {
            Ok(plan) => plan,
            Err(cause) => return Err(cause),
        };
        self.make_room(&plan)?;
        Ok(self.item(plan))
    }

    /// What the step will do, or why it is refused.
    #[inline(always)]
    fn planned(&self, step: Step) -> Result<Plan, Refused>
        requires { Invariant self.now.situation }
        ensures found { IfOk result (λ plan. IsPlanFor self.now.situation step plan) }
        ensures denied { IfErr result (λ cause. Refuses self.now.situation step cause) }
        ensures exactly { (cause : Refused) → Refuses self.now.situation step cause → result ≡ Err cause }
    {
        let cores = self.shape.cores();
        let blocks = self.shape.blocks();
        let words = self.shape.words();
        match step {
            Step::Ask { core, .. } if core >= cores => Err(Refused::NoCore),
            Step::Order { core } if core >= cores => Err(Refused::NoCore),
            Step::Ask { block, .. } if block >= blocks => Err(Refused::NoBlock),
            // An eviction is of the whole block, and its word is not looked at.
            Step::Ask {
                word,
                op: Op::Load | Op::Store(_),
                ..
            } if word >= words => Err(Refused::NoBlock),
            Step::Respond { block } if block >= blocks => Err(Refused::NoBlock),
            Step::Ask {
                core,
                block,
                word,
                op,
            } => self.plan_ask(core, block, word, op),
            Step::Order { core } => self.plan_order(core),
            Step::Respond { block } => self.plan_respond(block),
        }
    }

    /// Makes room for what the plan adds.
    #[inline(always)]
    fn make_room(&mut self, plan: &Plan) -> Result<(), NoMemory>
        requires { IsPlan self.old.situation plan.now }
        ensures ok { OnOk result (HasRoom self.new plan.now) }
        ensures full { OnErr result (room_for self.old plan.now ≡ 0) }
        ensures refused { OnErr result (self.new ≡ self.old) }
        ensures room { KeepsRoom self.old self.new }
        ensures lines { (core : ℕ) → AddsLines plan.now self.old self.new core }
        ensures unchanged { self.new.situation ≡ self.old.situation }
    {
        match plan {
            Plan::Ask {
                asked: Asked::Absent | Asked::Drop(_),
                ..
            } => Ok(()),
            Plan::Ask {
                core,
                block,
                asked: Asked::Issue(..),
                ..
            } => self.make_room_to_issue(*core, *block),
            Plan::Ask {
                asked: Asked::Hit(..),
                ..
            }
            | Plan::Order { .. }
            | Plan::Respond { .. } => {
                // The usual case, at no cost.
                if self.log.has_room() {
                    return Ok(());
                }
                self.log.reserve()
            }
        }
    }

    /// Makes room for one more request of the core for the block, and puts in the line that will wait for it, in I, where the core's map has
    /// none.
    #[inline(always)]
    fn make_room_to_issue(&mut self, core: u32, block: u32) -> Result<(), NoMemory>
        requires core { core < self.old.situation.shape.cores }
        requires block { block < self.old.situation.shape.blocks }
        ensures ok { OnOk result ((has_line self.new core block ≡ true) × (0 < slice_index self.new.request_rooms core)) }
        ensures full { OnErr result (room_to_issue self.old core block ≡ 0) }
        ensures refused { OnErr result (self.new ≡ self.old) }
        ensures room { KeepsRoom self.old self.new }
        ensures lines { (k : ℕ) → AddsLine core block self.old self.new k }
        ensures unchanged { self.new.situation ≡ self.old.situation }
    {
        if self.lines.get(core, block).is_some() {
            return self.bus.reserve(core);
        }
        self.lines.reserve(core)?;
        self.bus.reserve(core)?;
        self.lines.put_ahead(core, block);
        Ok(())
    }

    /// Does what the plan says.
    #[inline(always)]
    fn perform(&mut self, plan: Plan) -> Reply
        requires found { IsPlan self.old.situation plan }
        requires room { HasRoom self.old plan }
        ensures moved { FirstMove self.old.situation (planned_step plan) result self.new.situation }
        ensures room { KeepsRoom self.old self.new }
        ensures lines { (core : ℕ) → LosesLines self.old self.new core }
    {
        match plan {
            Plan::Ask {
                core,
                block,
                word,
                op,
                asked,
            } => self.take_ask(core, block, word, op, asked),
            Plan::Order {
                core,
                request,
                block,
                from,
                payload,
                memory,
            } => {
                self.start(core, request, block, from, payload, memory);
                Reply::Ordered(request)
            }
            Plan::Respond {
                came,
                memory,
                filled,
            } => {
                let did = self.finish(came, memory, filled);
                Reply::Came {
                    payload: came.payload,
                    from: came.from,
                    did,
                }
            }
        }
    }

    /// The item that the planned step adds.
    fn item(&self, plan: Plan) -> Option<Item>
        requires { IsPlan self.now.situation plan }
        ensures { result ≡ entry_of self.now.situation.log plan }
    {
        match plan {
            Plan::Ask {
                core,
                block,
                word,
                op,
                asked: Asked::Hit(_, value),
            } => Some(Item::Did(self.next_did(core, block, Access { word, op }, value, true))),
            Plan::Ask { .. } => None,
            Plan::Order {
                core,
                request,
                block,
                ..
            } => Some(Item::Sent(Sent {
                core,
                request,
                block,
            })),
            Plan::Respond { came, filled, .. } => Some(Item::Came(
                came,
                self.filled_did(came, filled),
            )),
        }
    }
}
