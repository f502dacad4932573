//! An Order: found, and made.
ghost use Rattle.std.specs.Prelude.{◌≡◌, ◌<◌, ◌≤◌, ℕ, IfOk, IfErr, IfSome, IfNone, None, Err, length, slice_get, [], Some, slice_index_or, slice_set};
ghost use Rattle.snoop_rules.specs.Takers.{at_memory, seen_by};
ghost use Rattle.snoop_bus.specs.Queues.{queue_of};
ghost use Rattle.snoop_model.specs.declared.replies.Refused.{Refused};
ghost use Rattle.snoop_trace.specs.declared.step.Step.TheVariants.{Order};
ghost use Rattle.snoop_machine.specs.Standing.{KeepsRoom};
ghost use Rattle.snoop_machine.specs.Following.{LosesLines};
ghost use Rattle.snoop_model.specs.Pictures.Situation.{picture_of, state_of, IsHead};
ghost use Rattle.snoop_model.specs.Moves.Refuses.{Refuses, WaitsOnNone};
ghost use Rattle.snoop_model.specs.Moves.LookUps.{HasRow};
ghost use Rattle.snoop_model.specs.Moves.Move.{Orders, TakesMemRow, TakesRows};
ghost use Rattle.snoop_model.specs.Pictures.Sends.{IsOnlySender, value_sent};
ghost use Rattle.std.specs.Option.{ForSome};
ghost use Rattle.snoop_machine.specs.Plan.{IsPlanFor};
ghost use Rattle.snoop_model.specs.Invariant.Invariant.{Invariant};
ghost use Rattle.snoop_rules.specs.Waits.{waiting_request};
ghost use Rattle.snoop_model.specs.Pictures.Picture.{free_picture, held_at};
ghost use Rattle.snoop_model.specs.Moves.SenderTable.{FollowsSenderTable};
ghost use Rattle.snoop_machine.specs.Lines.{WritesRow};
ghost use Rattle.snoop_machine.specs.Memory.{memory_line};

use super::step::Plan;
use super::{Memory, Parts};
use crate::lines::{Lines, words_of};
use snoop_history::{Item, Sent};
use snoop_model::Refused;
use snoop_rules::{
    CacheAction, MemAction, MemState, Payload, Protocol, Request, cache_cell, carries_value,
    event_at_memory, event_seen, mem_cell,
};
use snoop_trace::{Block, Kept};

impl<B: Block> Parts<B> {
    /// The core's oldest request.
    pub(crate) fn head(&self, core: u32) -> Option<(Request, u32)>
        ensures some { IfSome result (λ head. IsHead self.now.situation core head.0 head.1) }
        ensures none { IfNone result (WaitsOnNone self.now.situation core) }
        ensures empty { IfNone result (slice_get (queue_of self.now.situation.queues core) 0 ≡ None) }
    {
        self.bus.head(core)
    }

    /// What an Order will do, of a core that there is.
    #[inline(always)]
    pub(super) fn plan_order(&self, core: u32) -> Result<Plan, Refused>
        requires core { core < self.now.situation.shape.cores }
        requires inductive { Invariant self.now.situation }
        ensures found { IfOk result (λ plan. IsPlanFor self.now.situation (Order core) plan) }
        ensures denied { IfErr result (λ cause. Refuses self.now.situation (Order core) cause) }
        ensures exactly { (cause : Refused) → Refuses self.now.situation (Order core) cause → result ≡ Err cause }
    {
        let Some((request, block)) = self.head(core) else {
            return Err(Refused::NothingWaiting);
        };
        if self.transaction(block).is_some() {
            return Err(Refused::BusTaken(block));
        }
        let Sending {
            from,
            payload,
            memory,
        } = self
            .lines
            .sender(self.protocol, &self.memory, core, request, block);
        Ok(Plan::Order {
            core,
            request,
            block,
            from,
            payload,
            memory,
        })
    }

    /// The words of a message with this sender and payload.
    #[inline(always)]
    #[tactic(auto, using(crate::proofs::PartsViews::pictures_get))]
    fn words_sent(&self, block: u32, from: Option<u32>, payload: Payload) -> Kept<B>
        requires few { B.count ≤ 64 }
        requires block { block < self.now.situation.shape.blocks }
        requires sender { ForSome from (λ sender. sender < self.now.situation.shape.cores) }
        ensures { result ≡ value_sent (picture_of self.now.situation block) from payload }
    {
        if !carries_value(payload) {
            return Kept::zero();
        }
        match from {
            Some(sender) => words_of(self.lines.get(sender, block)),
            None => self.memory_words(block),
        }
    }

    /// Each core and memory take their rows for the core's oldest request, and its transaction opens.
    #[inline(always)]
    pub(super) fn start(
        &mut self,
        core: u32,
        request: Request,
        block: u32,
        from: Option<u32>,
        payload: Payload,
        memory: MemState,
    )
        requires core { core < self.old.situation.shape.cores }
        requires head { IsHead self.old.situation core request block }
        requires room { 0 < self.old.room }
        requires free { (picture_of self.old.situation block).transaction ≡ None }
        requires memory { TakesMemRow self.old.situation.protocol (at_memory request) (picture_of self.old.situation block).memory.state memory }
        requires rows { (k : ℕ) → k < length (picture_of self.old.situation block).caches → HasRow self.old.situation.protocol (state_of self.old.situation k block) (seen_by k core request) }
        requires sender { IsOnlySender self.old.situation.protocol (picture_of self.old.situation block) core request from payload }
        ensures ordered { Orders self.old.situation core block request self.new.situation }
        ensures room { KeepsRoom self.old self.new }
        ensures lines { (k : ℕ) → LosesLines self.old self.new k }
    {
        let words = self.words_sent(block, from, payload);
        self.lines.take_rows(self.protocol, core, request, block);
        self.memory.move_to(block, memory);
        self.bus.start(core, payload, words, from);
        self.log.push(Item::Sent(Sent {
            core,
            request,
            block,
        }));
    }
}

impl<B: Block> Lines<B> {
    /// Each core takes its row for a request on the block. The row of a core that the request does not concern changes nothing, and is not looked up.
    fn take_rows(&mut self, protocol: Protocol, requestor: u32, request: Request, block: u32)
        requires block { block < length self.old.rows }
        requires requestor { requestor < length (slice_index_or self.old.rows block []) }
        requires rows { (k : ℕ) → k < length (slice_index_or self.old.rows block []) → HasRow protocol (held_at (slice_index_or self.old.rows block []) k).state (seen_by k requestor request) }
        ensures taken { TakesRows protocol requestor request (slice_index_or self.old.rows block []) (slice_index_or self.new.rows block []) }
        ensures wrote { WritesRow block self.old self.new }
    {
        let concerned = self.concerned(block, requestor, request);
        let mut from = 0;
        while let Some(core) = concerned.next(from) {
            self.take_row(protocol, core, block, event_seen(core, requestor, request));
            from = core + 1;
        }
    }
}

/// Who sends at an Order, with what payload, and memory's next state.
#[derive(Clone, Copy)]
struct Sending {
    /// The core that sends, or `None` for memory.
    from: Option<u32>,
    payload: Payload,
    memory: MemState,
}

impl<B: Block> Lines<B> {
    /// The one controller that sends for a request on the block, and memory's next state.
    fn sender(
        &self,
        protocol: Protocol,
        memory: &Memory<B>,
        requestor: u32,
        request: Request,
        block: u32,
    ) -> Sending
        requires block { block < length self.now.rows }
        requires waits { waiting_request (held_at (slice_index_or self.now.rows block []) requestor).state ≡ Some request }
        requires rows { (k : ℕ) → k < length (slice_index_or self.now.rows block []) → HasRow protocol (held_at (slice_index_or self.now.rows block []) k).state (seen_by k requestor request) }
        requires line { FollowsSenderTable protocol (free_picture (slice_index_or self.now.rows block []) (memory_line memory.now block)) requestor request }
        ensures sender { IsOnlySender protocol (free_picture (slice_index_or self.now.rows block []) (memory_line memory.now block)) requestor request result.from result.payload }
        ensures memory { TakesMemRow protocol (at_memory request) (memory_line memory.now block).state result.memory }
    {
        let Some(row) = mem_cell(protocol, memory.state(block), event_at_memory(request)) else {
            unreachable!();
        };
        if let MemAction::Send(payload) = row.action {
            return Sending {
                from: None,
                payload,
                memory: row.next,
            };
        }
        let concerned = self.concerned(block, requestor, request);
        let mut from = 0;
        while let Some(core) = concerned.next(from) {
            let state = self.state(core, block);
            let Some(cell) = cache_cell(protocol, state, event_seen(core, requestor, request))
            else {
                unreachable!();
            };
            if let CacheAction::Send(payload, _) = cell.action {
                return Sending {
                    from: Some(core),
                    payload,
                    memory: row.next,
                };
            }
            from = core + 1;
        }
        unreachable!()
    }
}
