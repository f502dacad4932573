//! A Respond: found, and made.
ghost use Rattle.std.specs.Prelude.{◌≡◌, ◌<◌, ℕ, IfOk, IfErr, IfSome, Err, IsSomeAnd, IsTrue, option_copied};
ghost use Rattle.snoop_trace.specs.declared.step.Step.TheVariants.{Respond};
ghost use Rattle.snoop_machine.specs.Standing.{KeepsRoom};
ghost use Rattle.snoop_machine.specs.Following.{LosesLines};
ghost use Rattle.snoop_model.specs.Pictures.Situation.{picture_of};
ghost use Rattle.snoop_model.specs.Moves.Move.{Fills, RespondMove, came_of, Settles};
ghost use Rattle.snoop_model.specs.Moves.Refuses.{Refuses};
ghost use Rattle.snoop_machine.specs.Cache.{filled_line, line_or_nothing};
ghost use Rattle.snoop_machine.specs.Plan.{BringsFill, IsClosing, IsPlanFor, did_of};
ghost use Rattle.snoop_model.specs.Invariant.Invariant.{Invariant};
ghost use Rattle.snoop_model.specs.declared.replies.Refused.{Refused};
ghost use Rattle.snoop_model.specs.declared.replies.Reply.TheVariants as reply;
ghost use Rattle.snoop_rules.specs.Takers.{arrival, arrival_at_memory, takes_payload};
ghost use Rattle.snoop_model.specs.Pictures.Proper.{IsProper};
ghost use Rattle.snoop_model.specs.Moves.LookUps.{HasRow, HasMemRow};

use super::Parts;
use super::step::{Filled, Plan};
use crate::lines::{Entry, state_of, waiting_of};
use snoop_bus::Open;
use snoop_history::{Came, Did, Item};
use snoop_model::{Access, Refused};
use snoop_rules::{
    CacheAction, CacheEvent, MemAction, MemCell, MemState, Payload, Protocol, Request,
    arrival_at_memory, cache_cell, mem_cell, takes_payload,
};
use snoop_trace::{Block, Kept, Op};

impl<B: Block> Parts<B> {
    /// What a Respond will do, of a block that there is.
    #[inline(always)]
    #[tactic(auto, using(crate::proofs::PartsViews::pictures_get))]
    pub(super) fn plan_respond(&self, block: u32) -> Result<Plan, Refused>
        requires block { block < self.now.situation.shape.blocks }
        requires inductive { Invariant self.now.situation }
        ensures found { IfOk result (λ plan. IsPlanFor self.now.situation (Respond block) plan) }
        ensures denied { IfErr result (λ cause. Refuses self.now.situation (Respond block) cause) }
        ensures exactly { (cause : Refused) → Refuses self.now.situation (Respond block) cause → result ≡ Err cause }
    {
        let Some(closing) = self.transaction(block) else {
            return Err(Refused::NoTransaction);
        };
        let memory = plan_settle(
            self.protocol,
            self.memory_state(block),
            closing.request,
            closing.payload,
        );
        let came = came(closing);
        if let Request::PutM = closing.request {
            return Ok(Plan::Respond {
                came,
                memory,
                filled: None,
            });
        }
        let found = self.lines.get(closing.core, block);
        let filled = plan_fill(self.protocol, found, closing);
        Ok(Plan::Respond {
            came,
            memory,
            filled: Some(filled),
        })
    }

    /// Memory takes the message where it waits for one, and so does the requestor of a GetS or GetM, and the transaction closes.
    #[inline(always)]
    pub(super) fn finish(
        &mut self,
        came: Came,
        memory: MemCell,
        filled: Option<Filled>,
    ) -> Option<Did>
        requires block { came.block < self.old.situation.shape.blocks }
        requires room { 0 < self.old.room }
        requires closing { IsClosing self.old.situation came memory }
        requires filled { BringsFill self.old.situation came filled }
        ensures responded { RespondMove came.block self.old.situation came.block (reply.Came came.payload came.from result) self.new.situation }
        ensures room { KeepsRoom self.old self.new }
        ensures lines { (k : ℕ) → LosesLines self.old self.new k }
    {
        let did = self.filled_did(came, filled);
        let Some(closing) = self.bus.finish(came.block) else {
            unreachable!();
        };
        if let Some(filled) = filled {
            self.lines.fill(
                came.core,
                came.block,
                filled.next,
                filled.access,
                &closing.value,
            );
        }
        self.memory.settle(came.block, memory, &closing.value);
        self.log.push(Item::Came(came, did));
        did
    }

    /// What the requestor performs with the data that came, as the history will have it.
    pub(super) fn filled_did(&self, came: Came, filled: Option<Filled>) -> Option<Did>
        requires { came.core < self.now.situation.shape.cores }
        ensures { result ≡ did_of self.now.situation.log came filled }
    {
        let Filled { access, value, .. } = filled?;
        Some(self.next_did(came.core, came.block, access, value, false))
    }
}

/// The response, as the history has it.
fn came<B: Block>(closing: &Open<Kept<B>>) -> Came
    ensures { result ≡ came_of closing.now }
{
    Came {
        core: closing.core,
        request: closing.request,
        block: closing.block,
        from: closing.from,
        payload: closing.payload,
    }
}

/// What the response brings to its requestor's line.
fn plan_fill<B: Block>(
    protocol: Protocol,
    found: Option<&Entry<B>>,
    closing: &Open<Kept<B>>,
) -> Filled
    requires proper { IsProper (line_or_nothing (option_copied found)) }
    requires word { IfSome (line_or_nothing (option_copied found)).waiting (λ access. access.word < B.count) }
    requires possible { IsSomeAnd (arrival closing.now.payload) (HasRow protocol (line_or_nothing (option_copied found)).state) }
    ensures { Fills closing.now protocol (line_or_nothing (option_copied found.entry)) (filled_line result.next result.access closing.now.value) result.access result.value }
{
    let event = match closing.payload {
        Payload::Data => CacheEvent::Data,
        Payload::DataE => CacheEvent::DataE,
        Payload::NoData | Payload::NoDataE => unreachable!(),
    };
    let Some(cell) = cache_cell(protocol, state_of(found), event) else {
        unreachable!();
    };
    match (cell.action, waiting_of(found)) {
        (CacheAction::FillLoad, Some(Access { word, op: Op::Load })) => Filled {
            next: cell.next,
            access: Access { word, op: Op::Load },
            value: closing.value.at(word),
        },
        (
            CacheAction::FillStore,
            Some(
                Access {
                    word,
                    op: Op::Store(value),
                },
            ),
        ) => Filled {
            next: cell.next,
            access: Access {
                word,
                op: Op::Store(value),
            },
            value,
        },
        _ => unreachable!(),
    }
}

/// What memory does with the message of a transaction: its row for it at a PutM and where it waits for one, else nothing, and it stays.
fn plan_settle(protocol: Protocol, memory: MemState, request: Request, payload: Payload) -> MemCell
    requires { IsTrue (takes_payload request memory) → IsSomeAnd (arrival_at_memory payload) (HasMemRow protocol memory) }
    ensures { Settles protocol request payload memory result.action result.next }
{
    if !takes_payload(request, memory) {
        return MemCell {
            action: MemAction::None,
            next: memory,
        };
    }
    let Some(event) = arrival_at_memory(payload) else {
        unreachable!();
    };
    let Some(cell) = mem_cell(protocol, memory, event) else {
        unreachable!();
    };
    cell
}
