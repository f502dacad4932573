//! The tables as matrices: a line for each state, a field for each event.
ghost use Rattle.std.specs.Prelude.{◌≡◌, ◌≢◌, ◌++◌, ℕ, List, true, Some, Err, OnOk, OnErr, codes, filter};
ghost use Rattle.std.specs.List.{flat_map};
ghost use Rattle.std.specs.Io.KnownBytes.{Appends};
ghost use Rattle.snoop_trace.specs.Output.{AppendsFront, BlamesWriter};
ghost use Rattle.snoop_rules.specs.Names.{event_name, memory_event_name, memory_state_name, state_name};
ghost use Rattle.snoop_rules.specs.TableOrder.{cache_events, memory_events};
ghost use Rattle.snoop_rules.specs.Matrix.{action_and_next, cache_field, cache_matrix, has_cache_row, has_memory_row, is_cache_event, is_cache_state, is_memory_event, is_memory_state, line_of, matrix_text, memory_field, memory_matrix};

use crate::names::{CacheEvent, CacheState, MemEvent, MemState};
use crate::table::{CACHE_EVENTS, CACHE_STATES, MEM_EVENTS, MEM_STATES, cache_cell, mem_cell};
use crate::table_text::Which;
use snoop_trace::streams::{Sink, push_byte, push_text, write_whole};
use snoop_trace::{NoMemory, Protocol, WriteFault};
use std::alloc::Global;
use std::fmt::Display;
use std::io::Write;

/// Writes a table as a matrix: a line for each of the protocol's states, and on it a field for each
/// of its events, `action/next`, empty where the pair is impossible. The first line names the events.
///
/// After a `Write` a beginning of the matrix was written, the failed write's own bytes aside.
pub fn write_matrix<W: Sink>(
    alloc: Global,
    writer: &mut W,
    protocol: Protocol,
    which: Which,
) -> Result<(), WriteFault>
    ensures ok { OnOk result (Appends (W.contents writer.old) (W.contents writer.new) (matrix_text protocol which)) }
    ensures front { OnErr result (AppendsFront (W.contents writer.old) (W.contents writer.new) (matrix_text protocol which)) }
    ensures no_memory { result ≡ Err WriteFault.NoMemory → W.contents writer.new ≡ W.contents writer.old }
    ensures never_blamed { W.never_fails ≡ true → result ≢ Err WriteFault.Write }
    ensures blamed { BlamesWriter (W.failed writer.old) (W.failed writer.new) (result ≡ Err WriteFault.Write) }
{
    let mut text = Vec::new(alloc);
    match which {
        Which::Cache => push_cache_matrix(&mut text, protocol)?,
        Which::Memory => push_memory_matrix(&mut text, protocol)?,
    }
    write_whole(writer, &text)
}

// Appends the cache table's matrix.
#[tactic(auto, unfolding(crate::specs::Matrix::cache_matrix))]
fn push_cache_matrix(out: &mut Vec<u8>, protocol: Protocol) -> Result<(), NoMemory>
    ensures ok { OnOk result (out.new.items ≡ out.old.items ++ cache_matrix protocol) }
{
    push_cache_heading(out, protocol)?;
    for state in &CACHE_STATES {
        if is_cache_state(protocol, *state) {
            push_cache_line(out, protocol, *state)?;
        }
    }
    Ok(())
}

// Appends the line that names the events of the protocol's caches.
fn push_cache_heading(out: &mut Vec<u8>, protocol: Protocol) -> Result<(), NoMemory>
    ensures ok { OnOk result (out.new.items ≡ out.old.items ++ line_of (codes "state") event_name (filter (is_cache_event protocol) cache_events)) }
{
    push_text(out, "state")?;
    for event in &CACHE_EVENTS {
        if is_cache_event(protocol, *event) {
            push_name(out, *event)?;
        }
    }
    push_byte(out, b'\n')
}

// Appends the line of a state of the protocol's caches.
fn push_cache_line(out: &mut Vec<u8>, protocol: Protocol, state: CacheState) -> Result<(), NoMemory>
    ensures ok { OnOk result (out.new.items ≡ out.old.items ++ line_of (state_name state) (cache_field protocol state) (filter (is_cache_event protocol) cache_events)) }
{
    push_text(out, state.name())?;
    for event in &CACHE_EVENTS {
        if is_cache_event(protocol, *event) {
            push_cache_field(out, protocol, state, *event)?;
        }
    }
    push_byte(out, b'\n')
}

// Appends the field of a pair.
fn push_cache_field(
    out: &mut Vec<u8>,
    protocol: Protocol,
    state: CacheState,
    event: CacheEvent,
) -> Result<(), NoMemory>
    ensures ok { OnOk result (out.new.items ≡ out.old.items ++ (codes "," ++ cache_field protocol state event)) }
{
    match cache_cell(protocol, state, event) {
        Some(cell) => push_field(out, cell.action, cell.next),
        None => push_byte(out, b','),
    }
}

// Whether the protocol's caches have the state.
#[tactic(auto, unfolding(crate::specs::Matrix::is_cache_state))]
fn is_cache_state(protocol: Protocol, state: CacheState) -> bool
    ensures { result ≡ is_cache_state protocol state }
{
    CACHE_EVENTS
        .iter()
        .any(|event| has_cache_row(protocol, state, *event))
}

// Whether the protocol's caches meet the event.
#[tactic(auto, unfolding(crate::specs::Matrix::is_cache_event))]
fn is_cache_event(protocol: Protocol, event: CacheEvent) -> bool
    ensures { result ≡ is_cache_event protocol event }
{
    CACHE_STATES
        .iter()
        .any(|state| has_cache_row(protocol, *state, event))
}

fn has_cache_row(protocol: Protocol, state: CacheState, event: CacheEvent) -> bool
    ensures { result ≡ has_cache_row protocol state event }
{
    cache_cell(protocol, state, event).is_some()
}

// Appends the memory table's matrix.
#[tactic(auto, unfolding(crate::specs::Matrix::memory_matrix))]
fn push_memory_matrix(out: &mut Vec<u8>, protocol: Protocol) -> Result<(), NoMemory>
    ensures ok { OnOk result (out.new.items ≡ out.old.items ++ memory_matrix protocol) }
{
    push_memory_heading(out, protocol)?;
    for state in &MEM_STATES {
        if is_memory_state(protocol, *state) {
            push_memory_line(out, protocol, *state)?;
        }
    }
    Ok(())
}

// Appends the line that names the events of the protocol's memory.
fn push_memory_heading(out: &mut Vec<u8>, protocol: Protocol) -> Result<(), NoMemory>
    ensures ok { OnOk result (out.new.items ≡ out.old.items ++ line_of (codes "state") memory_event_name (filter (is_memory_event protocol) memory_events)) }
{
    push_text(out, "state")?;
    for event in &MEM_EVENTS {
        if is_memory_event(protocol, *event) {
            push_name(out, *event)?;
        }
    }
    push_byte(out, b'\n')
}

// Appends the line of a state of the protocol's memory.
fn push_memory_line(out: &mut Vec<u8>, protocol: Protocol, state: MemState) -> Result<(), NoMemory>
    ensures ok { OnOk result (out.new.items ≡ out.old.items ++ line_of (memory_state_name state) (memory_field protocol state) (filter (is_memory_event protocol) memory_events)) }
{
    write!(out, "{state}").map_err(|_| NoMemory)?;
    for event in &MEM_EVENTS {
        if is_memory_event(protocol, *event) {
            push_memory_field(out, protocol, state, *event)?;
        }
    }
    push_byte(out, b'\n')
}

// Appends the field of a pair.
fn push_memory_field(
    out: &mut Vec<u8>,
    protocol: Protocol,
    state: MemState,
    event: MemEvent,
) -> Result<(), NoMemory>
    ensures ok { OnOk result (out.new.items ≡ out.old.items ++ (codes "," ++ memory_field protocol state event)) }
{
    match mem_cell(protocol, state, event) {
        Some(cell) => push_field(out, cell.action, cell.next),
        None => push_byte(out, b','),
    }
}

// Whether the protocol's memory has the state.
#[tactic(auto, unfolding(crate::specs::Matrix::is_memory_state))]
fn is_memory_state(protocol: Protocol, state: MemState) -> bool
    ensures { result ≡ is_memory_state protocol state }
{
    MEM_EVENTS
        .iter()
        .any(|event| has_memory_row(protocol, state, *event))
}

// Whether the protocol's memory meets the event.
#[tactic(auto, unfolding(crate::specs::Matrix::is_memory_event))]
fn is_memory_event(protocol: Protocol, event: MemEvent) -> bool
    ensures { result ≡ is_memory_event protocol event }
{
    MEM_STATES
        .iter()
        .any(|state| has_memory_row(protocol, *state, event))
}

fn has_memory_row(protocol: Protocol, state: MemState, event: MemEvent) -> bool
    ensures { result ≡ has_memory_row protocol state event }
{
    mem_cell(protocol, state, event).is_some()
}

// Appends a comma and a name.
fn push_name<E: Display + Copy>(out: &mut Vec<u8>, event: E) -> Result<(), NoMemory>
    ensures ok { (name : List ℕ) → E.output event ≡ Some name → OnOk result (out.new.items ≡ out.old.items ++ (codes "," ++ name)) }
{
    write!(out, ",{event}").map_err(|_| NoMemory)
}

// Appends a comma and the field of a row.
fn push_field<A: Display + Copy, S: Display + Copy>(
    out: &mut Vec<u8>,
    action: A,
    next: S,
) -> Result<(), NoMemory>
    ensures ok { (a n : List ℕ) → A.output action ≡ Some a → S.output next ≡ Some n
        → OnOk result (out.new.items ≡ out.old.items ++ (codes "," ++ action_and_next a n)) }
{
    write!(out, ",{action}/{next}").map_err(|_| NoMemory)
}
