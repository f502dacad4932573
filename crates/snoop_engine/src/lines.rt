//! The line of a step: its text and the machine's reply or refusal.
//!
//! The words of a reply up to its first number are one literal, its state, request or payload with them, so that they are
//! appended in one piece.
ghost use Rattle.std.specs.Prelude.{◌≡◌, ◌++◌, codes, OnOk};
ghost use Rattle.snoop_rules.specs.Names.{payload_name, state_name};
ghost use Rattle.snoop_model.specs.declared.replies.Reply.TheVariants.{Came};
ghost use Rattle.snoop_model.specs.Texts.{reply_text};
ghost use Rattle.snoop_engine.specs.Line.{line_text, outcome_text};

use snoop_history::Did;
use snoop_machine::{Refused, Reply};
use snoop_rules::{CacheState, Payload, Request};
use snoop_trace::streams::{push_numbered, push_step, push_text};
use snoop_trace::{NoMemory, Shape, Step};

fn from_memory(payload: Payload) -> &'static str
    ensures { result.now ≡ payload_name payload ++ codes " from memory" }
{
    match payload {
        Payload::Data => "Data from memory",
        Payload::DataE => "DataE from memory",
        Payload::NoData => "NoData from memory",
        Payload::NoDataE => "NoDataE from memory",
    }
}

// The core's number follows.
fn from_core(payload: Payload) -> &'static str
    ensures { result.now ≡ payload_name payload ++ codes " from core " }
{
    match payload {
        Payload::Data => "Data from core ",
        Payload::DataE => "DataE from core ",
        Payload::NoData => "NoData from core ",
        Payload::NoDataE => "NoDataE from core ",
    }
}

fn push_came(
    out: &mut Vec<u8>,
    payload: Payload,
    from: Option<u32>,
    did: Option<Did>,
) -> Result<(), NoMemory>
    ensures ok { OnOk result (out.new.items ≡ out.old.items ++ reply_text (Came payload from did)) }
{
    match from {
        None => push_text(out, from_memory(payload))?,
        Some(core) => push_numbered(out, from_core(payload), core as u64)?,
    }
    match did {
        None => Ok(()),
        Some(did) if did.load => push_numbered(out, ", load ", did.value),
        Some(did) => push_numbered(out, ", store ", did.value),
    }
}

fn stalled(state: CacheState) -> &'static str
    ensures { result.now ≡ codes "refused Stalled " ++ state_name state }
{
    match state {
        CacheState::I => "refused Stalled I",
        CacheState::IsAd => "refused Stalled IS_AD",
        CacheState::IsD => "refused Stalled IS_D",
        CacheState::ImAd => "refused Stalled IM_AD",
        CacheState::ImD => "refused Stalled IM_D",
        CacheState::S => "refused Stalled S",
        CacheState::SmAd => "refused Stalled SM_AD",
        CacheState::SmD => "refused Stalled SM_D",
        CacheState::E => "refused Stalled E",
        CacheState::M => "refused Stalled M",
        CacheState::EiA => "refused Stalled EI_A",
        CacheState::MiA => "refused Stalled MI_A",
        CacheState::IiA => "refused Stalled II_A",
    }
}

/// Appends what the machine answered, as a line of a step says it. After `NoMemory` the contents of `out` are unspecified.
#[inline(always)]
pub fn push_outcome(out: &mut Vec<u8>, outcome: Result<Reply, Refused>) -> Result<(), NoMemory>
    ensures ok { OnOk result (out.new.items ≡ out.old.items ++ outcome_text outcome) }
{
    match outcome {
        Ok(Reply::Hit(value)) => push_numbered(out, "hit ", value),
        Ok(Reply::StoreHit) => push_text(out, "store hit"),
        Ok(Reply::Issued(request)) => {
            let text = match request {
                Request::GetS => "issued GetS",
                Request::GetM => "issued GetM",
                Request::PutM => "issued PutM",
            };
            push_text(out, text)
        }
        Ok(Reply::Gone) => push_text(out, "gone"),
        Ok(Reply::Absent) => push_text(out, "absent"),
        Ok(Reply::Ordered(request)) => {
            let text = match request {
                Request::GetS => "ordered GetS",
                Request::GetM => "ordered GetM",
                Request::PutM => "ordered PutM",
            };
            push_text(out, text)
        }
        Ok(Reply::Came { payload, from, did }) => push_came(out, payload, from, did),
        Err(Refused::NoCore) => push_text(out, "refused NoCore"),
        Err(Refused::NoBlock) => push_text(out, "refused NoBlock"),
        Err(Refused::Stalled(state)) => push_text(out, stalled(state)),
        Err(Refused::NothingWaiting) => push_text(out, "refused NothingWaiting"),
        Err(Refused::BusTaken(block)) => push_numbered(out, "refused BusTaken ", block as u64),
        Err(Refused::NoTransaction) => push_text(out, "refused NoTransaction"),
        Err(Refused::NoMemory) => push_text(out, "refused NoMemory"),
    }
}

/// Appends the line of a step and what the machine answered. After `NoMemory` the contents of `out` are unspecified.
#[inline(always)]
pub fn push_line(
    out: &mut Vec<u8>,
    shape: Shape,
    step: Step,
    outcome: Result<Reply, Refused>,
) -> Result<(), NoMemory>
    ensures ok { OnOk result (out.new.items ≡ out.old.items ++ line_text shape step outcome) }
{
    push_step(out, shape, step)?;
    push_text(out, ": ")?;
    push_outcome(out, outcome)?;
    push_text(out, "\n")
}
