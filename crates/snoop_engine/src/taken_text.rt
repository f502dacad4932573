//! The fields of a line of states.
ghost use Rattle.std.specs.Prelude.{◌≡◌, ◌++◌, [], List, ℕ, OnOk, Some, codes};
ghost use Rattle.std.specs.Option.{option_map_or};
ghost use Rattle.std.specs.Fmt.{decimal};
ghost use Rattle.snoop_rules.specs.Names.{memory_state_name, state_name};
ghost use Rattle.snoop_model.specs.Pictures.Proper.{keeps};
ghost use Rattle.snoop_engine.specs.Taken.{state_at};
ghost use Rattle.snoop_engine.specs.States.{core_field, done_text, kept_at, kept_text, memory_done_text, memory_met_text, memory_now_text, memory_text, memory_value_at, met_text, now_text, number_field, place_text, reply_field, step_fields, taken_text, value_text};

use crate::digits::push_short;
use crate::fields::{
    action_field, event_field, memory_action_field, memory_event_field, memory_state_field,
    state_field,
};
use crate::lines::push_outcome;
use crate::taken::{Taken, memory_at, state_at};
use snoop_machine::{Machine, Refused, Reply};
use snoop_rules::{
    CacheEvent, CacheState, MemEvent, MemState, Protocol, cache_cell, mem_cell, waits,
};
use snoop_trace::streams::{push_byte, push_decimal, push_step, push_text};
use snoop_trace::{NoMemory, Shape, Step};

/// The value of a word that the core keeps, where all of them are there.
#[tactic(auto, using(std::proofs::lemmas::Bool::Decides::nat_tests))]
pub(crate) fn kept_at(machine: &Machine, core: u32, block: u32, word: u32) -> Option<u64>
    ensures { result ≡ kept_at machine.now.situation core block word }
{
    machine.kept(core, block, word)
}

// Memory's value of a word, where it is there.
#[tactic(auto, using(std::proofs::lemmas::Bool::Decides::nat_tests))]
fn memory_value_at(machine: &Machine, block: u32, word: u32) -> Option<u64>
    ensures { result ≡ memory_value_at machine.now.situation block word }
{
    machine.mem_value(block, word)
}

// Appends one value among others, a space before it unless it is the first.
fn push_value(out: &mut Vec<u8>, word: u32, value: Option<u64>) -> Result<(), NoMemory>
    ensures { OnOk result (out.new.items ≡ out.old.items ++ value_text word value) }
{
    match value {
        None => Ok(()),
        Some(value) if word == 0 => push_short(out, value),
        Some(value) => {
            push_byte(out, b' ')?;
            push_short(out, value)
        }
    }
}

#[tactic(auto, using(crate::proofs::RangeLemmas::range_piece))]
fn push_kept(out: &mut Vec<u8>, machine: &Machine, core: u32, block: u32) -> Result<(), NoMemory>
    ensures { OnOk result (out.new.items ≡ out.old.items ++ kept_text machine.now.situation core block) }
{
    for word in 0..machine.shape().words() {
        push_value(out, word, kept_at(machine, core, block, word))?;
    }
    Ok(())
}

/// Appends the values that memory has.
#[tactic(auto, using(crate::proofs::RangeLemmas::range_piece))]
pub(crate) fn push_memory_values(
    out: &mut Vec<u8>,
    machine: &Machine,
    block: u32,
) -> Result<(), NoMemory>
    ensures { OnOk result (out.new.items ≡ out.old.items ++ memory_text machine.now.situation block) }
{
    for word in 0..machine.shape().words() {
        push_value(out, word, memory_value_at(machine, block, word))?;
    }
    Ok(())
}

fn push_place(out: &mut Vec<u8>, machine: &Machine, core: u32, block: u32) -> Result<(), NoMemory>
    ensures { OnOk result (out.new.items ≡ out.old.items ++ place_text machine.now.situation core block) }
{
    match machine.place(core, block) {
        None => Ok(()),
        Some(place) => push_short(out, place as u64),
    }
}

// What a core does at its event, by its table.
fn done_field(protocol: Protocol, before: CacheState, event: CacheEvent) -> &'static str
    ensures { result.now ≡ done_text protocol before (Some event) ++ codes "," }
{
    match cache_cell(protocol, before, event) {
        None => ",",
        Some(cell) => action_field(cell.action),
    }
}

// What memory does at its event, by its table.
fn memory_done_field(protocol: Protocol, before: MemState, event: MemEvent) -> &'static str
    ensures { result.now ≡ memory_done_text protocol before event ++ codes "," }
{
    match mem_cell(protocol, before, event) {
        None => ",",
        Some(cell) => memory_action_field(cell.action),
    }
}

fn push_met(
    out: &mut Vec<u8>,
    protocol: Protocol,
    event: Option<CacheEvent>,
    before: CacheState,
) -> Result<(), NoMemory>
    ensures { OnOk result (out.new.items ≡ out.old.items ++ met_text protocol event before) }
{
    match event {
        None => {
            push_byte(out, b',')?;
            push_text(out, state_field(before))?;
            push_byte(out, b',')
        }
        Some(event) => {
            push_text(out, event_field(event))?;
            push_text(out, state_field(before))?;
            push_text(out, done_field(protocol, before, event))
        }
    }
}

fn push_memory_met(
    out: &mut Vec<u8>,
    protocol: Protocol,
    event: MemEvent,
    before: MemState,
) -> Result<(), NoMemory>
    ensures { OnOk result (out.new.items ≡ out.old.items ++ memory_met_text protocol event before) }
{
    push_text(out, memory_event_field(event))?;
    push_text(out, memory_state_field(before))?;
    push_text(out, memory_done_field(protocol, before, event))
}

// Appends a core's state, if there is one, and a comma.
fn push_state(out: &mut Vec<u8>, state: Option<CacheState>) -> Result<(), NoMemory>
    ensures { OnOk result (out.new.items ≡ out.old.items ++ (option_map_or state_name state [] ++ codes ",")) }
{
    match state {
        None => push_byte(out, b','),
        Some(state) => push_text(out, state_field(state)),
    }
}

// Appends memory's state, if there is one, and a comma.
fn push_memory_state(out: &mut Vec<u8>, state: Option<MemState>) -> Result<(), NoMemory>
    ensures { OnOk result (out.new.items ≡ out.old.items ++ (option_map_or memory_state_name state [] ++ codes ",")) }
{
    match state {
        None => push_byte(out, b','),
        Some(state) => push_text(out, memory_state_field(state)),
    }
}

// Whether a core in this state keeps the words of the block.
fn keeps(state: CacheState) -> bool
    ensures { result ≡ keeps state }
{
    !matches!(
        &state,
        CacheState::I
            | CacheState::IsAd
            | CacheState::IsD
            | CacheState::ImAd
            | CacheState::ImD
            | CacheState::IiA
    )
}

// Appends the words that a core in this state keeps.
fn push_kept_in(
    out: &mut Vec<u8>,
    machine: &Machine,
    core: u32,
    block: u32,
    state: Option<CacheState>,
) -> Result<(), NoMemory>
    requires { state ≡ state_at machine.now.situation core block }
    ensures { OnOk result (out.new.items ≡ out.old.items ++ kept_text machine.now.situation core block) }
{
    machine.coherent();
    match state {
        Some(state) if !keeps(state) => Ok(()),
        _ => push_kept(out, machine, core, block),
    }
}

// Appends the place of a core's request, which waits in some states alone.
fn push_place_in(
    out: &mut Vec<u8>,
    machine: &Machine,
    core: u32,
    block: u32,
    state: Option<CacheState>,
) -> Result<(), NoMemory>
    requires { state ≡ state_at machine.now.situation core block }
    ensures { OnOk result (out.new.items ≡ out.old.items ++ place_text machine.now.situation core block) }
{
    machine.coherent();
    match state {
        Some(state) if !waits(state) => Ok(()),
        _ => push_place(out, machine, core, block),
    }
}

fn push_now(out: &mut Vec<u8>, machine: &Machine, core: u32, block: u32) -> Result<(), NoMemory>
    ensures { OnOk result (out.new.items ≡ out.old.items ++ now_text machine.now.situation core block) }
{
    let state = state_at(machine, core, block);
    push_state(out, state)?;
    push_kept_in(out, machine, core, block, state)?;
    push_byte(out, b',')?;
    push_place_in(out, machine, core, block, state)?;
    push_byte(out, b'\n')
}

fn push_memory_now(out: &mut Vec<u8>, machine: &Machine, block: u32) -> Result<(), NoMemory>
    ensures { OnOk result (out.new.items ≡ out.old.items ++ memory_now_text machine.now.situation block) }
{
    push_memory_state(out, memory_at(machine, block))?;
    push_memory_values(out, machine, block)?;
    push_text(out, ",\n")
}

fn push_number(out: &mut Vec<u8>, number: Option<u32>) -> Result<(), NoMemory>
    ensures { OnOk result (out.new.items ≡ out.old.items ++ number_field number) }
{
    match number {
        None => Ok(()),
        Some(number) => push_short(out, number as u64),
    }
}

fn push_core(out: &mut Vec<u8>, core: Option<u32>) -> Result<(), NoMemory>
    ensures { OnOk result (out.new.items ≡ out.old.items ++ core_field core) }
{
    match core {
        None => Ok(()),
        Some(core) => {
            push_text(out, "core ")?;
            push_short(out, core as u64)
        }
    }
}

// Appends the block and the core of a line.
fn push_core_on(out: &mut Vec<u8>, block: u32, core: u32) -> Result<(), NoMemory>
    ensures { OnOk result (out.new.items ≡ out.old.items ++ (decimal block ++ codes ",core " ++ decimal core ++ codes ",")) }
{
    push_short(out, block as u64)?;
    push_text(out, ",core ")?;
    push_short(out, core as u64)?;
    push_byte(out, b',')
}

/// Appends the fields of a controller, as the machine is after the step.
pub(crate) fn push_taken(out: &mut Vec<u8>, machine: &Machine, taken: Taken) -> Result<(), NoMemory>
    ensures { OnOk result (out.new.items ≡ out.old.items ++ taken_text machine.now.situation taken) }
{
    match taken {
        Taken::Core {
            core,
            block,
            event,
            before,
        } => {
            push_core_on(out, block, core)?;
            push_met(out, machine.protocol(), event, before)?;
            push_now(out, machine, core, block)
        }
        Taken::Memory {
            block,
            event,
            before,
        } => {
            push_short(out, block as u64)?;
            push_text(out, ",memory,")?;
            push_memory_met(out, machine.protocol(), event, before)?;
            push_memory_now(out, machine, block)
        }
        Taken::Nobody { core, block } => {
            push_number(out, block)?;
            push_byte(out, b',')?;
            push_core(out, core)?;
            push_text(out, ",,,,,,\n")
        }
    }
}

// Appends what was answered, in quotes where it has a comma.
fn push_reply(out: &mut Vec<u8>, outcome: Result<Reply, Refused>) -> Result<(), NoMemory>
    ensures { OnOk result (out.new.items ≡ out.old.items ++ reply_field outcome) }
{
    match outcome {
        Ok(
            Reply::Came {
                payload: _,
                from: _,
                did: Some(_),
            },
        ) => {
            push_byte(out, b'"')?;
            push_outcome(out, outcome)?;
            push_byte(out, b'"')
        }
        _ => push_outcome(out, outcome),
    }
}

/// Appends the fields of the step itself.
pub(crate) fn push_step_fields(
    out: &mut Vec<u8>,
    shape: Shape,
    number: u64,
    step: Step,
    outcome: Result<Reply, Refused>,
) -> Result<(), NoMemory>
    ensures { OnOk result (out.new.items ≡ out.old.items ++ step_fields shape number step outcome) }
{
    push_decimal(out, number)?;
    push_text(out, ",\"")?;
    push_step(out, shape, step)?;
    push_text(out, "\",")?;
    push_reply(out, outcome)?;
    push_byte(out, b',')
}
