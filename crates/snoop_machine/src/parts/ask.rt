//! An Ask: found, and made.
ghost use Rattle.std.specs.Prelude.{◌≡◌, ◌≢◌, ◌<◌, ℕ, IfOk, IfErr, Err};
ghost use Rattle.snoop_trace.specs.declared.step.Step.TheVariants.{Ask};
ghost use Rattle.snoop_trace.specs.Words.{HasWord};
ghost use Rattle.snoop_rules.specs.Waits.{waiting_request};
ghost use Rattle.snoop_rules.specs.declared.names.CacheState.TheVariants.{I};
ghost use Rattle.snoop_machine.specs.Standing.{KeepsRoom};
ghost use Rattle.snoop_machine.specs.Following.{LosesLines};
ghost use Rattle.snoop_model.specs.Pictures.Picture.{with_line};
ghost use Rattle.snoop_model.specs.Pictures.Situation.{picture_of, held_of, state_of, with_picture};
ghost use Rattle.snoop_model.specs.Pictures.Proper.{IsProper};
ghost use Rattle.snoop_model.specs.Moves.Move.{AskMove};
ghost use Rattle.snoop_machine.specs.Cache.{changed, IsOfWords};
ghost use Rattle.snoop_machine.specs.Asked.{TakesAsk};
ghost use Rattle.snoop_model.specs.Moves.Refuses.{Refuses};
ghost use Rattle.snoop_machine.specs.Plan.{IsPlanFor, HasRoomToAsk};
ghost use Rattle.snoop_model.specs.Invariant.Invariant.{Invariant};
ghost use Rattle.snoop_model.specs.declared.replies.Refused.{Refused};

use super::Parts;
use super::step::{Asked, Plan};
use crate::lines::{LineChange, state_of};
use snoop_history::Item;
use snoop_model::{Access, Refused, Reply};
use snoop_rules::{CacheAction, CacheState, cache_cell, event_asked};
use snoop_trace::{Block, Op};

impl<B: Block> Parts<B> {
    /// What an Ask will do, of a core and a block that there are.
    #[inline(always)]
    #[tactic(auto, using(crate::proofs::PartsViews::pictures_get))]
    pub(super) fn plan_ask(&self, core: u32, block: u32, word: u32, op: Op) -> Result<Plan, Refused>
        requires core { core < self.now.situation.shape.cores }
        requires block { block < self.now.situation.shape.blocks }
        requires word { HasWord self.now.situation.shape word op }
        requires inductive { Invariant self.now.situation }
        ensures found { IfOk result (λ plan. IsPlanFor self.now.situation (Ask core block word op) plan) }
        ensures denied { IfErr result (λ cause. Refuses self.now.situation (Ask core block word op) cause) }
        ensures exactly { (cause : Refused) → Refuses self.now.situation (Ask core block word op) cause → result ≡ Err cause }
    {
        let found = self.lines.get(core, block);
        let state = state_of(found);
        let asked = if matches!((&state, &op), (CacheState::I, Op::Evict)) {
            Asked::Absent
        } else {
            let Some(cell) = cache_cell(self.protocol, state, event_asked(op)) else {
                unreachable!();
            };
            match (cell.action, op, found) {
                (CacheAction::Stall, _, _) => return Err(Refused::Stalled(state)),
                (CacheAction::Hit, Op::Load, Some(entry)) => match entry.at(word) {
                    Some(value) => Asked::Hit(cell.next, value),
                    None => unreachable!(),
                },
                (CacheAction::Hit, Op::Store(value), _) => Asked::Hit(cell.next, value),
                (CacheAction::Issue(request), _, _) => Asked::Issue(request, cell.next),
                (CacheAction::Drop, _, _) => Asked::Drop(cell.next),
                _ => unreachable!(),
            }
        };
        Ok(Plan::Ask {
            core,
            block,
            word,
            op,
            asked,
        })
    }

    /// Does what was found for an Ask.
    #[inline(always)]
    pub(super) fn take_ask(
        &mut self,
        core: u32,
        block: u32,
        word: u32,
        op: Op,
        asked: Asked,
    ) -> Reply
        requires core { core < self.old.situation.shape.cores }
        requires block { block < self.old.situation.shape.blocks }
        requires found { TakesAsk self.old.situation.protocol (held_of self.old.situation core block) word op asked }
        requires word { HasWord self.old.situation.shape word op }
        requires proper { IsProper (held_of self.old.situation core block) }
        requires room { HasRoomToAsk self.old core block asked }
        ensures moved { AskMove block self.old.situation core block word op result self.new.situation }
        ensures room { KeepsRoom self.old self.new }
        ensures lines { (k : ℕ) → LosesLines self.old self.new k }
    {
        match asked {
            Asked::Absent => Reply::Absent,
            Asked::Hit(next, value) => {
                let access = Access { word, op };
                let did = self.next_did(core, block, access, value, true);
                self.log.push(Item::Did(did));
                // A load's hit leaves the line as it is.
                if let Op::Load = op {
                    return Reply::Hit(value);
                }
                self.move_line(core, block, next, LineChange::Hit(access));
                Reply::StoreHit
            }
            Asked::Issue(request, next) => {
                let waiting = LineChange::Wait(Access { word, op });
                self.lines.change(core, block, next, waiting);
                self.bus.issue(core, request, block);
                Reply::Issued(request)
            }
            Asked::Drop(next) => {
                self.move_line(core, block, next, LineChange::Move);
                Reply::Gone
            }
        }
    }

    /// The line gets this state and this change; whether a request waits for it stays as it was.
    #[inline(always)]
    fn move_line(&mut self, core: u32, block: u32, next: CacheState, change: LineChange)
        requires core { core < self.old.situation.shape.cores }
        requires block { block < self.old.situation.shape.blocks }
        requires words { IsOfWords self.old.situation.shape.words change }
        requires same { waiting_request next ≡ waiting_request (state_of self.old.situation core block) }
        requires held { state_of self.old.situation core block ≢ I }
        requires proper { IsProper (changed next change (held_of self.old.situation core block)) }
        ensures written { self.new.situation ≡ with_picture self.old.situation block (with_line (picture_of self.old.situation block) core (changed next change (held_of self.old.situation core block))) }
        ensures room { KeepsRoom self.old self.new }
        ensures lines { (k : ℕ) → LosesLines self.old self.new k }
    {
        self.lines.change(core, block, next, change);
    }
}
