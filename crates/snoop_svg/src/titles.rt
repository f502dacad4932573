//! The title of a row: the line of its step, and the rows of the tables that the controllers take.
ghost use Rattle.std.specs.Prelude.{◌≡◌, ◌++◌, [], codes, ℕ, List, OnOk, Some};
ghost use Rattle.std.specs.List.{flat_map};
ghost use Rattle.std.specs.Option.{option_map_or};
ghost use Rattle.snoop_rules.specs.Names.{action_text, event_name, memory_action_text, memory_event_name, memory_state_name, state_name};
ghost use Rattle.snoop_engine.specs.States.{done_text, memory_done_text};
ghost use Rattle.snoop_engine.specs.Taken.{memory_at, state_at};
ghost use Rattle.snoop_svg.specs.Titles.{core_row, memory_row, row_title, step_line, taken_row};

use snoop_engine::{Seen, Taken, push_outcome};
use snoop_machine::{Machine, Refused, Reply};
use snoop_rules::{
    CacheAction, CacheEvent, CacheState, MemAction, MemEvent, MemState, Protocol, cache_cell,
    mem_cell,
};
use snoop_trace::streams::{push_byte, push_decimal, push_step, push_text};
use snoop_trace::{NoMemory, Shape, Step};
use std::fmt::Display;
use std::io::Write;

// Appends a word of the tables, whatever it is.
fn push_word<D: Display + Copy>(out: &mut Vec<u8>, word: D) -> Result<(), NoMemory>
    ensures { (text : List ℕ) → D.output word ≡ Some text → OnOk result (out.new.items ≡ out.old.items ++ text) }
{
    write!(out, "{word}").map_err(|_| NoMemory)
}

fn push_event_name(out: &mut Vec<u8>, event: CacheEvent) -> Result<(), NoMemory>
    ensures { OnOk result (out.new.items ≡ out.old.items ++ event_name event) }
{
    push_word(out, event)
}

fn push_memory_event(out: &mut Vec<u8>, event: MemEvent) -> Result<(), NoMemory>
    ensures { OnOk result (out.new.items ≡ out.old.items ++ memory_event_name event) }
{
    push_word(out, event)
}

fn push_memory_state(out: &mut Vec<u8>, state: MemState) -> Result<(), NoMemory>
    ensures { OnOk result (out.new.items ≡ out.old.items ++ memory_state_name state) }
{
    push_word(out, state)
}

fn push_action(out: &mut Vec<u8>, action: CacheAction) -> Result<(), NoMemory>
    ensures { OnOk result (out.new.items ≡ out.old.items ++ action_text action) }
{
    push_word(out, action)
}

fn push_memory_action(out: &mut Vec<u8>, action: MemAction) -> Result<(), NoMemory>
    ensures { OnOk result (out.new.items ≡ out.old.items ++ memory_action_text action) }
{
    push_word(out, action)
}

// Appends what a core does at the event.
fn push_done(
    out: &mut Vec<u8>,
    protocol: Protocol,
    before: CacheState,
    event: CacheEvent,
) -> Result<(), NoMemory>
    ensures { OnOk result (out.new.items ≡ out.old.items ++ done_text protocol before (Some event)) }
{
    match cache_cell(protocol, before, event) {
        None => Ok(()),
        Some(cell) => push_action(out, cell.action),
    }
}

// Appends what memory does at the event.
fn push_memory_done(
    out: &mut Vec<u8>,
    protocol: Protocol,
    before: MemState,
    event: MemEvent,
) -> Result<(), NoMemory>
    ensures { OnOk result (out.new.items ≡ out.old.items ++ memory_done_text protocol before event) }
{
    match mem_cell(protocol, before, event) {
        None => Ok(()),
        Some(cell) => push_memory_action(out, cell.action),
    }
}

fn push_state_now(
    out: &mut Vec<u8>,
    machine: &Machine,
    core: u32,
    block: u32,
) -> Result<(), NoMemory>
    ensures { OnOk result (out.new.items ≡ out.old.items ++ option_map_or state_name (state_at machine.now.situation core block) []) }
{
    match machine.state(core, block) {
        None => Ok(()),
        Some(state) => push_text(out, state.name()),
    }
}

fn push_memory_now(out: &mut Vec<u8>, machine: &Machine, block: u32) -> Result<(), NoMemory>
    ensures { OnOk result (out.new.items ≡ out.old.items ++ option_map_or memory_state_name (memory_at machine.now.situation block) []) }
{
    match machine.mem_state(block) {
        None => Ok(()),
        Some(state) => push_memory_state(out, state),
    }
}

fn push_core_row(
    out: &mut Vec<u8>,
    machine: &Machine,
    core: u32,
    block: u32,
    event: CacheEvent,
    before: CacheState,
) -> Result<(), NoMemory>
    ensures { OnOk result (out.new.items ≡ out.old.items ++ core_row machine.now.situation core block event before) }
{
    push_text(out, "\ncore ")?;
    push_decimal(out, core as u64)?;
    push_text(out, ": ")?;
    push_text(out, before.name())?;
    push_byte(out, b',')?;
    push_event_name(out, event)?;
    push_byte(out, b',')?;
    push_done(out, machine.protocol(), before, event)?;
    push_byte(out, b',')?;
    push_state_now(out, machine, core, block)
}

fn push_memory_row(
    out: &mut Vec<u8>,
    machine: &Machine,
    block: u32,
    event: MemEvent,
    before: MemState,
) -> Result<(), NoMemory>
    ensures { OnOk result (out.new.items ≡ out.old.items ++ memory_row machine.now.situation block event before) }
{
    push_text(out, "\nmemory: ")?;
    push_memory_state(out, before)?;
    push_byte(out, b',')?;
    push_memory_event(out, event)?;
    push_byte(out, b',')?;
    push_memory_done(out, machine.protocol(), before, event)?;
    push_byte(out, b',')?;
    push_memory_now(out, machine, block)
}

// Appends the row that a controller takes, if it takes one.
fn push_row_taken(out: &mut Vec<u8>, machine: &Machine, taken: Taken) -> Result<(), NoMemory>
    ensures { OnOk result (out.new.items ≡ out.old.items ++ taken_row machine.now.situation taken) }
{
    match taken {
        Taken::Core {
            core,
            block,
            event: Some(event),
            before,
        } => push_core_row(out, machine, core, block, event, before),
        Taken::Memory {
            block,
            event,
            before,
        } => push_memory_row(out, machine, block, event, before),
        _ => Ok(()),
    }
}

fn push_rows_taken(out: &mut Vec<u8>, machine: &Machine, lines: &[Taken]) -> Result<(), NoMemory>
    ensures { OnOk result (out.new.items ≡ out.old.items ++ flat_map (taken_row machine.now.situation) lines.now) }
{
    for taken in lines {
        push_row_taken(out, machine, *taken)?;
    }
    Ok(())
}

fn push_step_line(
    out: &mut Vec<u8>,
    shape: Shape,
    step: Step,
    outcome: Result<Reply, Refused>,
) -> Result<(), NoMemory>
    ensures { OnOk result (out.new.items ≡ out.old.items ++ step_line shape step outcome) }
{
    push_step(out, shape, step)?;
    push_text(out, ": ")?;
    push_outcome(out, outcome)
}

/// Appends the title of a step's row.
pub(crate) fn push_row_title(
    out: &mut Vec<u8>,
    machine: &Machine,
    seen: &Seen<'_>,
) -> Result<(), NoMemory>
    ensures { OnOk result (out.new.items ≡ out.old.items ++ row_title machine.now.situation.shape seen.now.number machine.now.situation seen.now.step seen.now.outcome seen.now.lines.now) }
{
    push_text(out, "<title>")?;
    push_decimal(out, seen.number)?;
    push_text(out, ". ")?;
    push_step_line(out, machine.shape(), seen.step, seen.outcome)?;
    push_rows_taken(out, machine, seen.lines)?;
    push_text(out, "</title>\n")
}
