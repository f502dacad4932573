//! What a line shows of one panel.
ghost use Rattle.std.specs.Prelude.{◌≡◌, ◌++◌, IfOk, OnOk};
ghost use Rattle.std.specs.List.{flat_map};
ghost use Rattle.snoop_draw.specs.Rows.{bus_said, bus_text, core_cell, core_said, core_text, held_in, link_of, memory_column, memory_said, moment_text, panel_text, sender_in, shows_core, shows_memory};

use crate::cells::{Cell, Link, Style, push_cell, push_field, push_link};
use crate::event::{
    Event, any_of_core, any_of_memory, may, rail, shows_all, shows_bus, tip, wire_at,
};
use crate::marks::{Mark, push_mark};
use crate::panels::Panel;
use crate::words::{bus_words, core_words, memory_words};
use snoop_bus::Open;
use snoop_engine::{Taken, state_at};
use snoop_machine::Machine;
use snoop_rules::CacheState;
use snoop_trace::NoMemory;
use snoop_trace::streams::push_text;
use std::alloc::Global;

/// What a line shows in the panel of a block: what happens there, the core whose message lies in the open transaction, and
/// the rows that the controllers take.
#[derive(Clone, Copy)]
pub(crate) struct Moment<'a> {
    pub(crate) block: u32,
    pub(crate) event: Event,
    pub(crate) sender: Option<u32>,
    pub(crate) lines: &'a [Taken],
}

/// The state in which the core holds the block; I where it has no line for it, or one of them is outside the shape.
pub fn held_in(machine: &Machine, block: u32, core: u32) -> CacheState
    ensures { result ≡ held_in machine.now.situation block core }
{
    state_at(machine, core, block).unwrap_or(CacheState::I)
}

// The core that sent the message, if a transaction is open and a core did.
fn sender_in(opened: Option<Open>) -> Option<u32>
    ensures { result ≡ sender_in opened }
{
    opened?.from
}

fn core_cell(machine: &Machine, moment: &Moment<'_>, core: u32) -> Cell
    ensures { result ≡ core_cell machine.now.situation moment.now.block moment.now.event moment.now.sender core }
{
    let state = held_in(machine, moment.block, core);
    Cell {
        mark: may(machine.protocol(), state),
        rail: rail(moment.event, moment.sender, core, state),
        wire: wire_at(moment.event, core as u64),
        next: wire_at(moment.event, core as u64 + 1),
    }
}

fn shows_core(moment: &Moment<'_>, core: u32) -> bool
    ensures { result ≡ shows_core moment.now.block moment.now.event moment.now.lines.now core }
{
    shows_all(moment.event) || any_of_core(moment.lines, moment.block, core)
}

fn shows_memory(moment: &Moment<'_>) -> bool
    ensures { result ≡ shows_memory moment.now.block moment.now.event moment.now.lines.now }
{
    shows_all(moment.event) || any_of_memory(moment.lines, moment.block)
}

// What the core says in the line, if anything.
fn core_said(
    alloc: Global,
    machine: &Machine,
    moment: &Moment<'_>,
    core: u32,
) -> Result<Vec<u8>, NoMemory>
    ensures { IfOk result (λ words. words.items ≡ core_said machine.now.situation moment.now.block moment.now.event moment.now.lines.now core) }
{
    if shows_core(moment, core) {
        core_words(alloc, machine, moment.block, core)
    } else {
        Ok(Vec::new(alloc))
    }
}

// What the bus says in the line, if anything.
fn bus_said(alloc: Global, machine: &Machine, moment: &Moment<'_>) -> Result<Vec<u8>, NoMemory>
    ensures { IfOk result (λ words. words.items ≡ bus_said machine.now.situation moment.now.block moment.now.event) }
{
    if shows_bus(moment.event) {
        bus_words(alloc, machine, moment.block)
    } else {
        Ok(Vec::new(alloc))
    }
}

// What memory says in the line, if anything.
fn memory_said(alloc: Global, machine: &Machine, moment: &Moment<'_>) -> Result<Vec<u8>, NoMemory>
    ensures { IfOk result (λ words. words.items ≡ memory_said machine.now.situation moment.now.block moment.now.event moment.now.lines.now) }
{
    if shows_memory(moment) {
        memory_words(alloc, machine, moment.block)
    } else {
        Ok(Vec::new(alloc))
    }
}

// Which way a message goes between the bus and memory.
fn link_of(event: Event, is_from_memory: bool, is_met: bool) -> Link
    ensures { result ≡ link_of event is_from_memory is_met }
{
    match event {
        Event::Ordered { core: _ } => {
            if is_from_memory {
                Link::FromMemory
            } else {
                Link::Nothing
            }
        }
        Event::Came { core: _ } => {
            if is_met {
                Link::ToMemory
            } else {
                Link::Nothing
            }
        }
        _ => Link::Nothing,
    }
}

fn push_core(
    out: &mut Vec<u8>,
    alloc: Global,
    style: Style,
    machine: &Machine,
    moment: &Moment<'_>,
    core: u32,
) -> Result<(), NoMemory>
    ensures { OnOk result (out.new.items ≡ out.old.items ++ core_text style machine.now.situation moment.now.block moment.now.event moment.now.sender moment.now.lines.now core) }
{
    let words = core_said(alloc, machine, moment, core)?;
    let cell = core_cell(machine, moment, core);
    push_cell(out, style.charset, style.widths.core, cell, &words)
}

fn push_bus(
    out: &mut Vec<u8>,
    alloc: Global,
    style: Style,
    machine: &Machine,
    moment: &Moment<'_>,
) -> Result<(), NoMemory>
    ensures { OnOk result (out.new.items ≡ out.old.items ++ bus_text style machine.now.situation moment.now.block moment.now.event moment.now.sender moment.now.lines.now) }
{
    let words = bus_said(alloc, machine, moment)?;
    let is_met = any_of_memory(moment.lines, moment.block);
    push_mark(out, style.charset, tip(moment.event))?;
    push_field(out, style.charset, Mark::Blank, style.widths.bus, &words)?;
    push_link(
        out,
        style.charset,
        link_of(moment.event, moment.sender.is_none(), is_met),
    )
}

fn push_memory(
    out: &mut Vec<u8>,
    alloc: Global,
    style: Style,
    machine: &Machine,
    moment: &Moment<'_>,
) -> Result<(), NoMemory>
    ensures { OnOk result (out.new.items ≡ out.old.items ++ memory_column style machine.now.situation moment.now.block moment.now.event moment.now.lines.now) }
{
    let words = memory_said(alloc, machine, moment)?;
    push_field(out, style.charset, Mark::Blank, style.widths.memory, &words)
}

fn push_cores(
    out: &mut Vec<u8>,
    alloc: Global,
    style: Style,
    machine: &Machine,
    moment: &Moment<'_>,
    cores: &[u32],
) -> Result<(), NoMemory>
    ensures { OnOk result (out.new.items ≡ out.old.items ++ flat_map (core_text style machine.now.situation moment.now.block moment.now.event moment.now.sender moment.now.lines.now) cores.now) }
{
    for core in cores {
        push_core(out, alloc, style, machine, moment, *core)?;
    }
    Ok(())
}

// Appends what a line shows at this moment, with columns for these cores.
fn push_moment(
    out: &mut Vec<u8>,
    alloc: Global,
    style: Style,
    machine: &Machine,
    moment: &Moment<'_>,
    cores: &[u32],
) -> Result<(), NoMemory>
    ensures { OnOk result (out.new.items ≡ out.old.items ++ moment_text style machine.now.situation moment.now.block moment.now.event moment.now.sender moment.now.lines.now cores.now) }
{
    push_text(out, " ")?;
    push_cores(out, alloc, style, machine, moment, cores)?;
    push_bus(out, alloc, style, machine, moment)?;
    push_memory(out, alloc, style, machine, moment)
}

/// Appends what a line shows of a panel, as the machine is now, where this happens and these rows are taken.
pub(crate) fn push_panel(
    out: &mut Vec<u8>,
    alloc: Global,
    style: Style,
    machine: &Machine,
    panel: &Panel,
    event: Event,
    lines: &[Taken],
) -> Result<(), NoMemory>
    ensures { OnOk result (out.new.items ≡ out.old.items ++ panel_text style machine.now.situation event lines.now panel.now) }
{
    let block = panel.block();
    let moment = Moment {
        block,
        event,
        sender: sender_in(machine.open(block)),
        lines,
    };
    push_moment(out, alloc, style, machine, &moment, panel.cores())
}
