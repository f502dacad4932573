//! The tables as text: a line for each row.
ghost use Rattle.std.specs.Prelude.{◌≡◌, ◌≢◌, ◌++◌, ℕ, List, true, Some, Err, OnOk, OnErr};
ghost use Rattle.std.specs.List.{flat_map};
ghost use Rattle.std.specs.Io.KnownBytes.{Appends};
ghost use Rattle.snoop_trace.specs.Output.{AppendsFront, BlamesWriter};
ghost use Rattle.snoop_rules.specs.TableOrder.{cache_events, memory_events};
ghost use Rattle.snoop_rules.specs.TableText.{cache_line_at, cache_text, memory_line_at, memory_text, row_line, table_text};

use crate::names::{CacheEvent, CacheState, MemEvent, MemState};
use crate::table::{CACHE_EVENTS, CACHE_STATES, MEM_EVENTS, MEM_STATES, cache_cell, mem_cell};
use snoop_trace::streams::{Sink, write_whole};
use snoop_trace::{NoMemory, Protocol, WriteFault};
use std::alloc::Global;
use std::fmt::Display;
use std::io::Write;

/// Whose table: that of the cache controllers, or that of the memory controller.
#[derive(Clone, Copy, Debug, PartialEq, Eq)]
pub enum Which {
    Cache,
    Memory,
}

/// Writes a table, one row a line: state, event, action and next state.
///
/// After a `Write` a beginning of the table was written, the failed write's own bytes aside.
pub fn write_table<W: Sink>(
    alloc: Global,
    writer: &mut W,
    protocol: Protocol,
    which: Which,
) -> Result<(), WriteFault>
    ensures ok { OnOk result (Appends (W.contents writer.old) (W.contents writer.new) (table_text protocol which)) }
    ensures front { OnErr result (AppendsFront (W.contents writer.old) (W.contents writer.new) (table_text protocol which)) }
    ensures no_memory { result ≡ Err WriteFault.NoMemory → W.contents writer.new ≡ W.contents writer.old }
    ensures never_blamed { W.never_fails ≡ true → result ≢ Err WriteFault.Write }
    ensures blamed { BlamesWriter (W.failed writer.old) (W.failed writer.new) (result ≡ Err WriteFault.Write) }
{
    let mut text = Vec::new(alloc);
    match which {
        Which::Cache => push_cache_table(&mut text, protocol)?,
        Which::Memory => push_memory_table(&mut text, protocol)?,
    }
    write_whole(writer, &text)
}

// Appends all rows of the cache table.
fn push_cache_table(out: &mut Vec<u8>, protocol: Protocol) -> Result<(), NoMemory>
    ensures ok { OnOk result (out.new.items ≡ out.old.items ++ cache_text protocol) }
{
    for state in &CACHE_STATES {
        push_cache_rows(out, protocol, *state)?;
    }
    Ok(())
}

// Appends the rows of one state of a cache line.
fn push_cache_rows(out: &mut Vec<u8>, protocol: Protocol, state: CacheState) -> Result<(), NoMemory>
    ensures ok { OnOk result (out.new.items ≡ out.old.items ++ flat_map (cache_line_at protocol state) cache_events) }
{
    for event in &CACHE_EVENTS {
        push_cache_row(out, protocol, state, *event)?;
    }
    Ok(())
}

// Appends the row of a pair, if it has one.
fn push_cache_row(
    out: &mut Vec<u8>,
    protocol: Protocol,
    state: CacheState,
    event: CacheEvent,
) -> Result<(), NoMemory>
    ensures ok { OnOk result (out.new.items ≡ out.old.items ++ cache_line_at protocol state event) }
{
    match cache_cell(protocol, state, event) {
        Some(cell) => push_line(out, state, event, cell.action, cell.next),
        None => Ok(()),
    }
}

// Appends all rows of the memory table.
fn push_memory_table(out: &mut Vec<u8>, protocol: Protocol) -> Result<(), NoMemory>
    ensures ok { OnOk result (out.new.items ≡ out.old.items ++ memory_text protocol) }
{
    for state in &MEM_STATES {
        push_memory_rows(out, protocol, *state)?;
    }
    Ok(())
}

// Appends the rows of one state of memory.
fn push_memory_rows(out: &mut Vec<u8>, protocol: Protocol, state: MemState) -> Result<(), NoMemory>
    ensures ok { OnOk result (out.new.items ≡ out.old.items ++ flat_map (memory_line_at protocol state) memory_events) }
{
    for event in &MEM_EVENTS {
        push_memory_row(out, protocol, state, *event)?;
    }
    Ok(())
}

// Appends the row of a pair, if it has one.
fn push_memory_row(
    out: &mut Vec<u8>,
    protocol: Protocol,
    state: MemState,
    event: MemEvent,
) -> Result<(), NoMemory>
    ensures ok { OnOk result (out.new.items ≡ out.old.items ++ memory_line_at protocol state event) }
{
    match mem_cell(protocol, state, event) {
        Some(cell) => push_line(out, state, event, cell.action, cell.next),
        None => Ok(()),
    }
}

// Appends the line of a row.
fn push_line<S: Display + Copy, E: Display + Copy, A: Display + Copy>(
    out: &mut Vec<u8>,
    state: S,
    event: E,
    action: A,
    next: S,
) -> Result<(), NoMemory>
    ensures ok { (s e a n : List ℕ) → S.output state ≡ Some s → E.output event ≡ Some e → A.output action ≡ Some a → S.output next ≡ Some n
        → OnOk result (out.new.items ≡ out.old.items ++ row_line s e a n) }
{
    writeln!(out, "{state},{event},{action},{next}").map_err(|_| NoMemory)
}
