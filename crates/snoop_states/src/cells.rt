//! What stands in the cells of a block's table.
ghost use Rattle.std.specs.Prelude.{◌≡◌, ◌++◌, IfOk, OnOk};
ghost use Rattle.snoop_states.specs.Cells.{bus_cell, cell_text};

use crate::column::Column;
use snoop_engine::{push_core_words, push_memory_words, push_message_words};
use snoop_machine::Machine;
use snoop_trace::NoMemory;
use snoop_trace::streams::push_text;
use std::alloc::Global;

fn push_bus(out: &mut Vec<u8>, machine: &Machine, block: u32) -> Result<(), NoMemory>
    ensures { OnOk result (out.new.items ≡ out.old.items ++ bus_cell machine.now.situation block) }
{
    match machine.open(block) {
        None => push_text(out, "free"),
        Some(opened) => push_message_words(out, machine.shape().words(), &opened),
    }
}

/// What stands in a column of a block's table.
pub(crate) fn cell_text(
    alloc: Global,
    machine: &Machine,
    block: u32,
    column: Column,
) -> Result<Vec<u8>, NoMemory>
    ensures { IfOk result (λ text. text.items ≡ cell_text machine.now.situation block column) }
{
    let mut text = Vec::new(alloc);
    match column {
        Column::Core(core) => push_core_words(&mut text, machine, block, core, 1)?,
        Column::Bus => push_bus(&mut text, machine, block)?,
        Column::Memory => push_memory_words(&mut text, machine, block)?,
    }
    Ok(text)
}
