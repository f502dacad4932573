//! The text of the counts: a line for each row of the tables.
ghost use Rattle.std.specs.Prelude.{◌≡◌, ◌++◌, ℕ, List, Some, OnOk};
ghost use Rattle.std.specs.List.{flat_map};
ghost use Rattle.snoop_rules.specs.TableOrder.{cache_events, memory_events};
ghost use Rattle.snoop_engine.specs.Counts.{cache_count_at, cache_counts, count_line, counts_text, does_nothing, memory_count_at, memory_counts, row_fields};
ghost use Rattle.snoop_engine.specs.Tallies.{counts_in, memory_counts_in};

use crate::tally::Tally;
use snoop_rules::{
    CACHE_EVENTS, CACHE_STATES, CacheEvent, CacheState, MEM_EVENTS, MEM_STATES, MemEvent, MemState,
    Protocol, cache_cell, mem_cell,
};
use snoop_trace::NoMemory;
use snoop_trace::streams::{push_byte, push_decimal, push_text};
use std::fmt::Display;
use std::io::Write;

/// Appends the names of the fields, and a line for each row that does something.
pub(crate) fn push_counts(
    out: &mut Vec<u8>,
    protocol: Protocol,
    tally: &Tally,
) -> Result<(), NoMemory>
    ensures { OnOk result (out.new.items ≡ out.old.items ++ counts_text protocol (counts_in tally.now.counters) (memory_counts_in tally.now.counters)) }
{
    push_text(out, "controller,state,event,action,next,count\n")?;
    push_cache_counts(out, protocol, tally)?;
    push_memory_counts(out, protocol, tally)
}

#[tactic(auto, using(snoop_rules::proofs::TextLemmas::pieces_all), unfolding(crate::specs::Counts::cache_counts))]
fn push_cache_counts(out: &mut Vec<u8>, protocol: Protocol, tally: &Tally) -> Result<(), NoMemory>
    ensures { OnOk result (out.new.items ≡ out.old.items ++ cache_counts protocol (counts_in tally.now.counters)) }
{
    for state in &CACHE_STATES {
        push_cache_rows(out, protocol, tally, *state)?;
    }
    Ok(())
}

// Appends the lines of the rows of one state of a cache line.
fn push_cache_rows(
    out: &mut Vec<u8>,
    protocol: Protocol,
    tally: &Tally,
    state: CacheState,
) -> Result<(), NoMemory>
    ensures { OnOk result (out.new.items ≡ out.old.items ++ flat_map (cache_count_at protocol (counts_in tally.now.counters) state) cache_events) }
{
    for event in &CACHE_EVENTS {
        push_cache_row(out, protocol, tally, state, *event)?;
    }
    Ok(())
}

// Appends the line of a pair, if it has a row that does something.
fn push_cache_row(
    out: &mut Vec<u8>,
    protocol: Protocol,
    tally: &Tally,
    state: CacheState,
    event: CacheEvent,
) -> Result<(), NoMemory>
    ensures { OnOk result (out.new.items ≡ out.old.items ++ cache_count_at protocol (counts_in tally.now.counters) state event) }
{
    if does_nothing(state, event) {
        return Ok(());
    }
    match cache_cell(protocol, state, event) {
        None => Ok(()),
        Some(cell) => {
            let count = tally.of_cores(state, event);
            push_line(out, "cache", state, event, cell.action, cell.next, count)
        }
    }
}

fn does_nothing(state: CacheState, event: CacheEvent) -> bool
    ensures { result ≡ does_nothing state event }
{
    matches!(
        (state, event),
        (
            CacheState::I,
            CacheEvent::OtherGetS | CacheEvent::OtherGetM | CacheEvent::OtherPutM
        )
    )
}

#[tactic(auto, using(snoop_rules::proofs::TextLemmas::pieces_all), unfolding(crate::specs::Counts::memory_counts))]
fn push_memory_counts(out: &mut Vec<u8>, protocol: Protocol, tally: &Tally) -> Result<(), NoMemory>
    ensures { OnOk result (out.new.items ≡ out.old.items ++ memory_counts protocol (memory_counts_in tally.now.counters)) }
{
    for state in &MEM_STATES {
        push_memory_rows(out, protocol, tally, *state)?;
    }
    Ok(())
}

// Appends the lines of the rows of one state of memory.
fn push_memory_rows(
    out: &mut Vec<u8>,
    protocol: Protocol,
    tally: &Tally,
    state: MemState,
) -> Result<(), NoMemory>
    ensures { OnOk result (out.new.items ≡ out.old.items ++ flat_map (memory_count_at protocol (memory_counts_in tally.now.counters) state) memory_events) }
{
    for event in &MEM_EVENTS {
        push_memory_row(out, protocol, tally, state, *event)?;
    }
    Ok(())
}

// Appends the line of a pair, if it has a row.
fn push_memory_row(
    out: &mut Vec<u8>,
    protocol: Protocol,
    tally: &Tally,
    state: MemState,
    event: MemEvent,
) -> Result<(), NoMemory>
    ensures { OnOk result (out.new.items ≡ out.old.items ++ memory_count_at protocol (memory_counts_in tally.now.counters) state event) }
{
    match mem_cell(protocol, state, event) {
        None => Ok(()),
        Some(cell) => {
            let count = tally.of_memory(state, event);
            push_line(out, "memory", state, event, cell.action, cell.next, count)
        }
    }
}

// Appends the line of a row.
#[tactic(auto, using(std::proofs::lemmas::List::append_assoc))]
fn push_line<S: Display + Copy, E: Display + Copy, A: Display + Copy>(
    out: &mut Vec<u8>,
    controller: &str,
    state: S,
    event: E,
    action: A,
    next: S,
    count: u64,
) -> Result<(), NoMemory>
    ensures { (s e a n : List ℕ) → S.output state ≡ Some s → E.output event ≡ Some e → A.output action ≡ Some a → S.output next ≡ Some n
        → OnOk result (out.new.items ≡ out.old.items ++ count_line controller.now s e a n count) }
{
    push_text(out, controller)?;
    push_fields(out, state, event, action, next)?;
    push_decimal(out, count)?;
    push_byte(out, b'\n')
}

// Appends the fields of a row.
fn push_fields<S: Display + Copy, E: Display + Copy, A: Display + Copy>(
    out: &mut Vec<u8>,
    state: S,
    event: E,
    action: A,
    next: S,
) -> Result<(), NoMemory>
    ensures { (s e a n : List ℕ) → S.output state ≡ Some s → E.output event ≡ Some e → A.output action ≡ Some a → S.output next ≡ Some n
        → OnOk result (out.new.items ≡ out.old.items ++ row_fields s e a n) }
{
    write!(out, ",{state},{event},{action},{next},").map_err(|_| NoMemory)
}
