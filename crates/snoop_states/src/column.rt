//! The columns of a block's table.
ghost use Rattle.std.specs.Prelude.{◌≡◌, IfOk};
ghost use Rattle.snoop_states.specs.Columns.{column_name, width_of};

use crate::widths::Widths;
use snoop_trace::NoMemory;
use snoop_trace::streams::{push_numbered, push_text};
use std::alloc::Global;

/// A column: a core, the bus, or memory.
#[derive(Clone, Copy)]
pub(crate) enum Column {
    Core(u32),
    Bus,
    Memory,
}

/// The name of a column.
pub(crate) fn name_of(alloc: Global, column: Column) -> Result<Vec<u8>, NoMemory>
    ensures { IfOk result (λ name. name.items ≡ column_name column) }
{
    let mut name = Vec::new(alloc);
    match column {
        Column::Core(core) => push_numbered(&mut name, "core ", core as u64)?,
        Column::Bus => push_text(&mut name, "bus")?,
        Column::Memory => push_text(&mut name, "memory")?,
    }
    Ok(name)
}

/// How wide a column is.
pub(crate) fn width_of(widths: Widths, column: Column) -> usize
    ensures { result ≡ width_of widths column }
{
    let beside = match column {
        Column::Core(_) => 12,
        Column::Bus => 18,
        Column::Memory => 10,
    };
    beside + widths.values as usize
}
