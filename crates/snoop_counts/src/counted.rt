//! What each count counts, and for whom.
ghost use Rattle.std.specs.Prelude.{◌≡◌, ◌||◌, false, None};
ghost use Rattle.std.specs.Option.{option_map_or};
ghost use Rattle.snoop_counts.specs.Counted.{block_named, core_counted, core_named, counts, counts_cause, counts_lines, counts_refusal, counts_row, has_row, is_downgrade, is_from_cache, is_giving_up, is_invalidation, is_loss, is_lost_upgrade, is_miss, is_overtaking, is_refused, is_some_row, is_taking, is_upgrade, named_place, own_block, own_core, own_word, requestor_of, response_sender, subject_of};
ghost use Rattle.snoop_counts.specs.declared.count.Happening.TheVariants as happening;
ghost use Rattle.snoop_history.specs.declared.items.Item.TheVariants as item;

use crate::count::{Cause, Count, Happening, Subjects};
use snoop_engine::Taken;
use snoop_history::{Came, Did, Item, Sent};
use snoop_machine::{Refused, Reply};
use snoop_rules::{CacheEvent, CacheState, Payload, Request};
use snoop_trace::Step;

/// A miss: an operation is performed with data that came because the core had no copy.
#[inline(always)]
pub(crate) fn is_miss(state: CacheState, event: CacheEvent) -> bool
    ensures { result ≡ is_miss state event }
{
    matches!(
        (state, event),
        (CacheState::IsD, CacheEvent::Data | CacheEvent::DataE)
            | (CacheState::ImD, CacheEvent::Data)
    )
}

#[inline(always)]
fn is_upgrade(state: CacheState, event: CacheEvent) -> bool
    ensures { result ≡ is_upgrade state event }
{
    matches!((state, event), (CacheState::SmAd, CacheEvent::OwnGetM))
}

#[inline(always)]
fn is_lost_upgrade(state: CacheState, event: CacheEvent) -> bool
    ensures { result ≡ is_lost_upgrade state event }
{
    matches!((state, event), (CacheState::SmAd, CacheEvent::OtherGetM))
}

#[inline(always)]
fn is_invalidation(state: CacheState, event: CacheEvent) -> bool
    ensures { result ≡ is_invalidation state event }
{
    matches!(
        (state, event),
        (CacheState::S | CacheState::SmAd, CacheEvent::OtherGetM)
    )
}

#[inline(always)]
fn is_taking(state: CacheState, event: CacheEvent) -> bool
    ensures { result ≡ is_taking state event }
{
    matches!(
        (state, event),
        (CacheState::E | CacheState::M, CacheEvent::OtherGetM)
    )
}

#[inline(always)]
fn is_downgrade(state: CacheState, event: CacheEvent) -> bool
    ensures { result ≡ is_downgrade state event }
{
    matches!(
        (state, event),
        (CacheState::E | CacheState::M, CacheEvent::OtherGetS)
    )
}

#[inline(always)]
fn is_overtaking(state: CacheState, event: CacheEvent) -> bool
    ensures { result ≡ is_overtaking state event }
{
    matches!(
        (state, event),
        (
            CacheState::EiA | CacheState::MiA,
            CacheEvent::OtherGetS | CacheEvent::OtherGetM
        )
    )
}

/// The core's copy is lost to another's GetM.
#[inline(always)]
pub(crate) fn is_loss(state: CacheState, event: CacheEvent) -> bool
    ensures { result ≡ is_loss state event }
{
    is_invalidation(state, event) || is_taking(state, event)
}

/// The core gives its copy up.
#[inline(always)]
pub(crate) fn is_giving_up(state: CacheState, event: CacheEvent) -> bool
    ensures { result ≡ is_giving_up state event }
{
    matches!(
        (state, event),
        (
            CacheState::S | CacheState::E | CacheState::M,
            CacheEvent::Evict
        )
    )
}

// A core sent the response to a GetS or a GetM.
#[inline(always)]
fn is_from_cache(came: Came) -> bool
    ensures { result ≡ is_from_cache came }
{
    came.from.is_some() && !matches!(came.request, Request::PutM)
}

#[inline(always)]
fn counts_operation(count: Count, did: Did) -> bool
    ensures { result ≡ counts count (happening.Item (item.Did did)) }
{
    match count {
        Count::Loads => did.load,
        Count::LoadHits => did.load && did.hit,
        Count::Stores => !did.load,
        Count::StoreHits => !did.load && did.hit,
        Count::Operations => true,
        _ => false,
    }
}

#[inline(always)]
fn counts_request(count: Count, sent: Sent) -> bool
    ensures { result ≡ counts count (happening.Item (item.Sent sent)) }
{
    match count {
        Count::GetS => matches!(sent.request, Request::GetS),
        Count::GetM => matches!(sent.request, Request::GetM),
        Count::PutM => matches!(sent.request, Request::PutM),
        _ => false,
    }
}

// Whether a response is counted, the operation that it performed aside.
#[inline(always)]
fn counts_response(count: Count, came: Came) -> bool
    ensures { result ≡ counts count (happening.Item (item.Came came None)) }
{
    let writeback = matches!(came.request, Request::PutM);
    match count {
        Count::FromMemory => came.from.is_none(),
        Count::FromCaches | Count::Supplied => is_from_cache(came),
        Count::Writebacks => writeback && matches!(came.payload, Payload::Data),
        Count::Clean => writeback && matches!(came.payload, Payload::NoDataE),
        Count::Stale => writeback && matches!(came.payload, Payload::NoData),
        _ => false,
    }
}

#[inline(always)]
fn counts_item(count: Count, item: Item) -> bool
    ensures { result ≡ counts count (happening.Item item) }
{
    match item {
        Item::Did(did) => counts_operation(count, did),
        Item::Sent(sent) => counts_request(count, sent),
        Item::Came(came, None) => counts_response(count, came),
        Item::Came(came, Some(did)) => counts_response(count, came) || counts_operation(count, did),
    }
}

// Whether a row that a core takes is counted.
#[inline(always)]
fn counts_row(count: Count, state: CacheState, event: CacheEvent) -> bool
    ensures { result ≡ counts_row count state event }
{
    match count {
        Count::Misses => is_miss(state, event),
        Count::Upgrades => is_upgrade(state, event),
        Count::UpgradesLost => is_lost_upgrade(state, event),
        Count::Invalidated | Count::Invalidates => is_invalidation(state, event),
        Count::Taken => is_taking(state, event),
        Count::Downgraded => is_downgrade(state, event),
        Count::Overtaken => is_overtaking(state, event),
        _ => false,
    }
}

// Whether a row is counted by any of the counts of rows.
#[inline(always)]
fn is_some_row(state: CacheState, event: CacheEvent) -> bool
    ensures { result ≡ is_some_row state event }
{
    is_miss(state, event)
        || is_upgrade(state, event)
        || is_lost_upgrade(state, event)
        || is_invalidation(state, event)
        || is_taking(state, event)
        || is_downgrade(state, event)
        || is_overtaking(state, event)
}

/// Whether the row of a line is counted by any of the counts of rows, if it has one.
#[inline(always)]
pub(crate) fn has_some_row(line: Taken) -> bool
    ensures { result ≡ has_row is_some_row line }
{
    match line {
        Taken::Core {
            core: _,
            block: _,
            event: Some(event),
            before,
        } => is_some_row(before, event),
        _ => false,
    }
}

// Whether a refusal is counted.
#[inline(always)]
fn counts_refusal(count: Count, cause: Refused) -> bool
    ensures { result ≡ counts_refusal count cause }
{
    match count {
        Count::Stalled => matches!(cause, Refused::Stalled(_)),
        Count::BusTaken => matches!(cause, Refused::BusTaken(_)),
        Count::NothingWaiting => matches!(cause, Refused::NothingWaiting),
        Count::NoTransaction => matches!(cause, Refused::NoTransaction),
        _ => false,
    }
}

// Whether the row of a line is counted, if it has one.
#[inline(always)]
fn counts_row_of(count: Count, line: Taken) -> bool
    ensures { result ≡ has_row (counts_row count) line }
{
    match line {
        Taken::Core {
            core: _,
            block: _,
            event: Some(event),
            before,
        } => counts_row(count, before, event),
        _ => false,
    }
}

// Whether what was answered is a refusal that is counted.
#[inline(always)]
fn counts_outcome(count: Count, outcome: Result<Reply, Refused>) -> bool
    ensures { result ≡ is_refused (counts_refusal count) outcome }
{
    match outcome {
        Ok(_) => false,
        Err(cause) => counts_refusal(count, cause),
    }
}

// Whether a line is counted, the cause of a miss aside.
#[inline(always)]
fn counts_line(count: Count, outcome: Result<Reply, Refused>, line: Taken) -> bool
    ensures { result ≡ (counts_lines count || has_row (counts_row count) line || is_refused (counts_refusal count) outcome) }
{
    matches!(count, Count::Lines) || counts_row_of(count, line) || counts_outcome(count, outcome)
}

// Whether a miss is counted by its cause, if it is one.
#[inline(always)]
fn counts_cause(count: Count, cause: Option<Cause>) -> bool
    ensures { result ≡ option_map_or (counts_cause count) cause false }
{
    match (count, cause) {
        (Count::Cold, Some(Cause::Cold)) => true,
        (Count::GivenUp, Some(Cause::GivenUp)) => true,
        (Count::TrueSharing, Some(Cause::TrueSharing)) => true,
        (Count::FalseSharing, Some(Cause::FalseSharing)) => true,
        _ => false,
    }
}

/// Whether the count counts the happening.
#[inline(always)]
pub(crate) fn counts(count: Count, happening: &Happening) -> bool
    ensures { result ≡ counts count happening.now }
{
    match happening {
        Happening::Item(item) => counts_item(count, *item),
        Happening::Line {
            step: _,
            outcome,
            line,
            cause,
        } => counts_line(count, *outcome, *line) || counts_cause(count, *cause),
    }
}

// The core that a line names, if any.
#[inline(always)]
fn core_named(line: Taken) -> Option<u32>
    ensures { result ≡ core_named line }
{
    match line {
        Taken::Core { core, .. } => Some(core),
        Taken::Memory { .. } => None,
        Taken::Nobody { core, block: _ } => core,
    }
}

// The block that a line names, if any.
#[inline(always)]
fn block_named(line: Taken) -> Option<u32>
    ensures { result ≡ block_named line }
{
    match line {
        Taken::Core { block, .. } | Taken::Memory { block, .. } => Some(block),
        Taken::Nobody { core: _, block } => block,
    }
}

// The core that an item is of, or that a line names.
#[inline(always)]
fn own_core(happening: &Happening) -> Option<u32>
    ensures { result ≡ own_core happening.now }
{
    match happening {
        Happening::Item(item) => Some(item.core()),
        Happening::Line { line, .. } => core_named(*line),
    }
}

// The block that an item is of, or that a line names.
#[inline(always)]
fn own_block(happening: &Happening) -> Option<u32>
    ensures { result ≡ own_block happening.now }
{
    match happening {
        Happening::Item(item) => Some(item.block()),
        Happening::Line { line, .. } => block_named(*line),
    }
}

// A place that a number of 32 bits can name.
#[inline(always)]
fn named_place(place: u64) -> Option<u32>
    ensures { result ≡ named_place place }
{
    if place <= u32::MAX as u64 {
        Some(place as u32)
    } else {
        None
    }
}

// The place of the word of the operation that an item performs.
#[inline(always)]
fn own_word(words: u32, happening: &Happening) -> Option<u32>
    ensures { result ≡ own_word words happening.now }
{
    match happening {
        Happening::Item(item) => match item.did() {
            None => None,
            Some(did) => named_place(did.block as u64 * words as u64 + did.word as u64),
        },
        Happening::Line { .. } => None,
    }
}

// The core whose Order the line is of.
#[inline(always)]
fn requestor_of(happening: &Happening) -> Option<u32>
    ensures { result ≡ requestor_of happening.now }
{
    match happening {
        Happening::Line {
            step: Step::Order { core },
            ..
        } => Some(*core),
        _ => None,
    }
}

// The core that sent the response.
#[inline(always)]
fn sender_of(happening: &Happening) -> Option<u32>
    ensures { result ≡ response_sender happening.now }
{
    match happening {
        Happening::Item(Item::Came(came, _)) => came.from,
        _ => None,
    }
}

// The core for which the count counts the happening, if any.
#[inline(always)]
fn core_counted(count: Count, happening: &Happening) -> Option<u32>
    ensures { result ≡ core_counted count happening.now }
{
    match count {
        Count::Invalidates => requestor_of(happening),
        Count::Supplied => sender_of(happening),
        _ => own_core(happening),
    }
}

/// The subject for which the count counts the happening, if any.
#[inline(always)]
pub(crate) fn subject_of(subjects: Subjects, count: Count, happening: &Happening) -> Option<u32>
    ensures { result ≡ subject_of subjects count happening.now }
{
    match subjects {
        Subjects::Cores => core_counted(count, happening),
        Subjects::Blocks => own_block(happening),
        Subjects::Words(words) => own_word(words, happening),
        Subjects::Machine => Some(0),
    }
}
