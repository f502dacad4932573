//! What is said of a block: of a core its state, its values and its place in the queue, of an open transaction its message, of
//! memory its state and its values.
ghost use Rattle.std.specs.Prelude.{◌≡◌, ◌≤◌, ◌++◌, OnOk};
ghost use Rattle.snoop_rules.specs.Names.{memory_state_name};
ghost use Rattle.snoop_engine.specs.States.{memory_text};
ghost use Rattle.snoop_engine.specs.Words.{answers, capitals, carried_words, core_words, data_words, kept_words, memory_state_words, memory_words, message_words, place_words, spaced, state_words};

use crate::taken::{memory_at, state_at};
use crate::taken_text::{kept_at, push_memory_values};
use snoop_bus::Open;
use snoop_machine::Machine;
use snoop_rules::{CacheState, MemState, Payload, Protocol, carries_value};
use snoop_trace::streams::{push_numbered, push_text};
use snoop_trace::{NoMemory, Words};
use std::io::Write;

/// A protocol in capitals.
pub fn capitals(protocol: Protocol) -> &'static str
    ensures { result.now ≡ capitals protocol }
{
    match protocol {
        Protocol::Msi => "MSI",
        Protocol::Mesi => "MESI",
    }
}

// Appends a value, a blank before it.
fn push_spaced(out: &mut Vec<u8>, value: Option<u64>) -> Result<(), NoMemory>
    ensures { OnOk result (out.new.items ≡ out.old.items ++ spaced value) }
{
    match value {
        None => Ok(()),
        Some(value) => push_numbered(out, " ", value),
    }
}

#[tactic(auto, using(crate::proofs::RangeLemmas::range_piece))]
fn push_kept(out: &mut Vec<u8>, machine: &Machine, core: u32, block: u32) -> Result<(), NoMemory>
    ensures { OnOk result (out.new.items ≡ out.old.items ++ kept_words machine.now.situation core block) }
{
    for word in 0..machine.shape().words() {
        push_spaced(out, kept_at(machine, core, block, word))?;
    }
    Ok(())
}

fn push_state(out: &mut Vec<u8>, state: Option<CacheState>) -> Result<(), NoMemory>
    ensures { OnOk result (out.new.items ≡ out.old.items ++ state_words state) }
{
    match state {
        None => Ok(()),
        Some(state) => push_text(out, state.name()),
    }
}

fn push_place(out: &mut Vec<u8>, least: usize, place: Option<usize>) -> Result<(), NoMemory>
    ensures { OnOk result (out.new.items ≡ out.old.items ++ place_words least place) }
{
    match place {
        Some(place) if place >= least => push_numbered(out, " #", place as u64),
        _ => Ok(()),
    }
}

/// Appends what is said of the core: its state of the block, its values, and the place of its request in its queue, from
/// the place `least` on. After `NoMemory` the contents of `out` are unspecified.
pub fn push_core_words(
    out: &mut Vec<u8>,
    machine: &Machine,
    block: u32,
    core: u32,
    least: usize,
) -> Result<(), NoMemory>
    ensures { OnOk result (out.new.items ≡ out.old.items ++ core_words least machine.now.situation block core) }
{
    push_state(out, state_at(machine, core, block))?;
    push_kept(out, machine, core, block)?;
    push_place(out, least, machine.place(core, block))
}

#[tactic(auto, using(crate::proofs::RangeLemmas::range_piece))]
fn push_data(out: &mut Vec<u8>, count: u32, values: Words) -> Result<(), NoMemory>
    requires { count ≤ 64 }
    ensures { OnOk result (out.new.items ≡ out.old.items ++ data_words count values) }
{
    for word in 0..count {
        push_numbered(out, " ", values.at(word))?;
    }
    Ok(())
}

fn push_carried(
    out: &mut Vec<u8>,
    count: u32,
    payload: Payload,
    values: Words,
) -> Result<(), NoMemory>
    requires { count ≤ 64 }
    ensures { OnOk result (out.new.items ≡ out.old.items ++ carried_words count payload values) }
{
    if carries_value(payload) {
        push_data(out, count, values)
    } else {
        Ok(())
    }
}

/// Appends the message of an open transaction, whose block has `count` words: the core that asked for it, its request, the
/// payload and the values that it carries. After `NoMemory` the contents of `out` are unspecified.
pub fn push_message_words(out: &mut Vec<u8>, count: u32, opened: &Open) -> Result<(), NoMemory>
    requires { count ≤ 64 }
    ensures { OnOk result (out.new.items ≡ out.old.items ++ message_words count opened.now) }
{
    push_numbered(out, "C", opened.core as u64)?;
    push_text(out, " ")?;
    push_text(out, opened.request.name())?;
    push_text(out, ": ")?;
    push_text(out, opened.payload.name())?;
    push_carried(out, count, opened.payload, opened.value)
}

/// Whether memory in this state would send its values to a core that asks.
pub fn answers(state: MemState) -> bool
    ensures { result ≡ answers state }
{
    matches!(&state, MemState::IorS | MemState::I | MemState::S)
}

fn push_memory_state(out: &mut Vec<u8>, state: MemState) -> Result<(), NoMemory>
    ensures { OnOk result (out.new.items ≡ out.old.items ++ memory_state_name state) }
{
    write!(out, "{state}").map_err(|_| NoMemory)
}

fn push_memory(
    out: &mut Vec<u8>,
    machine: &Machine,
    block: u32,
    state: MemState,
) -> Result<(), NoMemory>
    ensures { OnOk result (out.new.items ≡ out.old.items ++ memory_state_words (memory_text machine.now.situation block) state) }
{
    push_memory_state(out, state)?;
    if answers(state) {
        push_text(out, " ")?;
        push_memory_values(out, machine, block)
    } else {
        push_text(out, " (")?;
        push_memory_values(out, machine, block)?;
        push_text(out, ")")
    }
}

/// Appends what is said of memory: its state of the block and its values, in brackets where it would not send them.
/// After `NoMemory` the contents of `out` are unspecified.
pub fn push_memory_words(out: &mut Vec<u8>, machine: &Machine, block: u32) -> Result<(), NoMemory>
    ensures { OnOk result (out.new.items ≡ out.old.items ++ memory_words machine.now.situation block) }
{
    match memory_at(machine, block) {
        None => Ok(()),
        Some(state) => push_memory(out, machine, block, state),
    }
}
