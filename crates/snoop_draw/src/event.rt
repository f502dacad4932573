//! What happens in a panel at a step.
ghost use Rattle.std.specs.Prelude.{◌≡◌};
ghost use Rattle.std.specs.List.{list_any};
ghost use Rattle.snoop_draw.specs.Events.{ask_mark, awaits, event_in, event_of, is_of, may, names_core, names_memory, rail, requestor_in, shows_all, shows_bus, tip, wire_at, wire_from};

use crate::marks::Mark;
use snoop_engine::{Seen, Taken};
use snoop_machine::{Refused, Reply};
use snoop_rules::{CacheState, Protocol, may_load, may_store, waits};
use snoop_trace::Step;

/// What happens in a panel.
#[derive(Clone, Copy)]
pub(crate) enum Event {
    /// Nothing yet: everything is shown as it stands.
    Before,
    /// The step is not of the panel's block.
    Nothing,
    /// The core asks, and is answered with this mark.
    Asked { core: u32, mark: Mark },
    /// The core's request is ordered.
    Ordered { core: u32 },
    /// The core's request is not ordered, since a transaction is open.
    Barred { core: u32 },
    /// The response comes, to this core or to memory alone.
    Came { core: Option<u32> },
    /// There is no response to come.
    Missing,
}

// The mark of an Ask, by what is answered.
fn ask_mark(outcome: Result<Reply, Refused>) -> Mark
    ensures { result ≡ ask_mark outcome }
{
    match outcome {
        Ok(Reply::Issued(_)) => Mark::Issued,
        Ok(_) => Mark::Done,
        Err(_) => Mark::Refused,
    }
}

// The core that takes the response, which stands first among the lines of a Respond.
fn requestor_in(lines: &[Taken]) -> Option<u32>
    ensures { result ≡ requestor_in lines.now }
{
    match lines.first() {
        Some(
            Taken::Core {
                core,
                block: _,
                event: _,
                before: _,
            },
        ) => Some(*core),
        _ => None,
    }
}

// What happens at a step, in the panel of its block.
fn event_of(step: Step, outcome: Result<Reply, Refused>, lines: &[Taken]) -> Event
    ensures { result ≡ event_of step outcome lines.now }
{
    match step {
        Step::Ask {
            core,
            block: _,
            word: _,
            op: _,
        } => Event::Asked {
            core,
            mark: ask_mark(outcome),
        },
        Step::Order { core } => match outcome {
            Ok(_) => Event::Ordered { core },
            Err(_) => Event::Barred { core },
        },
        Step::Respond { block: _ } => match outcome {
            Ok(_) => Event::Came {
                core: requestor_in(lines),
            },
            Err(_) => Event::Missing,
        },
    }
}

// Whether the number, of a block or of a core, is this one.
fn is_of(of: Option<u32>, block: u32) -> bool
    ensures { result ≡ is_of of block }
{
    match of {
        None => false,
        Some(named) => named == block,
    }
}

/// What happens in the panel of this block at a step, which may be of another or of none.
pub(crate) fn event_in(block: u32, seen: &Seen<'_>) -> Event
    ensures { result ≡ event_in block seen.now.block seen.now.step seen.now.outcome seen.now.lines.now }
{
    if is_of(seen.block, block) {
        event_of(seen.step, seen.outcome, seen.lines)
    } else {
        Event::Nothing
    }
}

fn names_core(taken: &Taken, block: u32, core: u32) -> bool
    ensures { result ≡ names_core block core taken.now }
{
    match taken {
        Taken::Core {
            core: named,
            block: of,
            event: _,
            before: _,
        } => *named == core && *of == block,
        _ => false,
    }
}

fn names_memory(taken: &Taken, block: u32) -> bool
    ensures { result ≡ names_memory block taken.now }
{
    match taken {
        Taken::Memory {
            block: of,
            event: _,
            before: _,
        } => *of == block,
        _ => false,
    }
}

/// Whether a line is of this core and this block.
pub(crate) fn any_of_core(lines: &[Taken], block: u32, core: u32) -> bool
    ensures { result ≡ list_any (names_core block core) lines.now }
{
    lines.iter().any(|taken| names_core(taken, block, core))
}

/// Whether a line is of memory and this block.
pub fn any_of_memory(lines: &[Taken], block: u32) -> bool
    ensures { result ≡ list_any (names_memory block) lines.now }
{
    lines.iter().any(|taken| names_memory(taken, block))
}

/// What a core in this state may do with the block: store, or at least load, where that is a hit.
pub fn may(protocol: Protocol, state: CacheState) -> Mark
    ensures { result ≡ may protocol state }
{
    if may_store(protocol, state) {
        Mark::MayWrite
    } else if may_load(protocol, state) {
        Mark::MayRead
    } else {
        Mark::Blank
    }
}

/// What a core in this state waits for.
pub fn awaits(state: CacheState) -> Mark
    ensures { result ≡ awaits state }
{
    if waits(state) {
        return Mark::AwaitsOrder;
    }
    match state {
        CacheState::IsD | CacheState::ImD | CacheState::SmD => Mark::AwaitsData,
        _ => Mark::Blank,
    }
}

/// What the core does in this event, or waits for.
pub(crate) fn rail(event: Event, sender: Option<u32>, core: u32, state: CacheState) -> Mark
    ensures { result ≡ rail event sender core state }
{
    match event {
        Event::Asked { core: asking, mark } if asking == core => mark,
        Event::Ordered { core: requestor } if requestor == core => Mark::Ordered,
        Event::Ordered { core: _ } if is_of(sender, core) => Mark::Sends,
        Event::Came { core: requestor } if is_of(requestor, core) => Mark::Gets,
        _ => awaits(state),
    }
}

fn wire_from(start: u32, core: u64, wire: Mark) -> Mark
    ensures { result ≡ wire_from start core wire }
{
    if (start as u64) < core {
        wire
    } else {
        Mark::Blank
    }
}

/// The wire that runs from a core with a lower number to the bus.
pub(crate) fn wire_at(event: Event, core: u64) -> Mark
    ensures { result ≡ wire_at event core }
{
    match event {
        Event::Ordered { core: start } => wire_from(start, core, Mark::Wire),
        Event::Barred { core: start } => wire_from(start, core, Mark::Broken),
        Event::Came { core: Some(start) } => wire_from(start, core, Mark::Wire),
        _ => Mark::Blank,
    }
}

/// Whether everything is shown.
pub(crate) fn shows_all(event: Event) -> bool
    ensures { result ≡ shows_all event }
{
    matches!(&event, Event::Before)
}

/// Whether the bus says which transaction is open.
pub(crate) fn shows_bus(event: Event) -> bool
    ensures { result ≡ shows_bus event }
{
    matches!(&event, Event::Before | Event::Ordered { core: _ })
}

/// Where the wire meets the bus.
pub(crate) fn tip(event: Event) -> Mark
    ensures { result ≡ tip event }
{
    match event {
        Event::Ordered { core: _ } => Mark::Tip,
        Event::Barred { core: _ } | Event::Missing => Mark::Refused,
        Event::Came { core: Some(_) } => Mark::Wire,
        _ => Mark::Blank,
    }
}
