//! The cells of a row.
ghost use Rattle.std.specs.Prelude.{◌≡◌, ◌-◌, ◌++◌, IfOk, OnOk, Some, None, map};
ghost use Rattle.std.specs.List.{flat_map};
ghost use Rattle.snoop_svg.specs.Bands.{band_text};
ghost use Rattle.snoop_svg.specs.Cells.{cell_text, class_of_words, is_silent, label_text, one_cell, rail_of, rail_text, rail_top};
ghost use Rattle.snoop_svg.specs.Looks.{cell_at, look_at};

use crate::bands::{Band, push_band};
use crate::columns::Column;
use crate::elements::{push_line, push_words};
use crate::looks::{Cell, Look, Rail, add_cell};
use snoop_machine::Machine;
use snoop_trace::NoMemory;
use std::alloc::Global;

impl Column {
    /// The x of the column's rail.
    pub(crate) fn rail(self) -> u32
        ensures { result ≡ rail_of self }
    {
        self.end.saturating_sub(8)
    }
}

fn rail_top(y: u32, is_first: bool) -> u64
    ensures { result ≡ rail_top y is_first }
{
    if is_first { y as u64 + 36 } else { y as u64 }
}

fn push_rail(out: &mut Vec<u8>, x: u64, y: u32, is_first: bool, rail: Rail) -> Result<(), NoMemory>
    ensures { OnOk result (out.new.items ≡ out.old.items ++ rail_text x y is_first rail) }
{
    let top = rail_top(y, is_first);
    let end = y as u64 + 54;
    match rail {
        Rail::Free => Ok(()),
        Rail::ToOrder => push_line(out, x, top, x, end, "q"),
        Rail::ToData => push_line(out, x, top, x, end, "d"),
    }
}

fn is_silent(is_fresh: bool, words: &[u8]) -> bool
    ensures { result ≡ is_silent is_fresh words.now }
{
    match words {
        [] => true,
        _ => !is_fresh && words == b"I".as_slice(),
    }
}

fn class_of_words(is_fresh: bool) -> &'static str
    ensures { result.now ≡ class_of_words is_fresh }
{
    if is_fresh { "s" } else { "k" }
}

fn push_label(
    out: &mut Vec<u8>,
    x: u32,
    y: u32,
    is_fresh: bool,
    words: &[u8],
) -> Result<(), NoMemory>
    ensures { OnOk result (out.new.items ≡ out.old.items ++ label_text x y is_fresh words.now) }
{
    if is_silent(is_fresh, words) {
        return Ok(());
    }
    push_words(
        out,
        x as u64 + 8,
        y as u64 + 49,
        words,
        class_of_words(is_fresh),
    )
}

fn push_column_band(
    out: &mut Vec<u8>,
    y: u32,
    column: Column,
    old: Band,
    look: &Look,
) -> Result<(), NoMemory>
    ensures { OnOk result (out.new.items ≡ out.old.items ++ band_text column.x y (column.end - column.x) old look.now.band) }
{
    let wide = (column.end as u64).saturating_sub(column.x as u64);
    push_band(out, column.x as u64, y, wide, old, look.band())
}

fn push_column_rail(
    out: &mut Vec<u8>,
    y: u32,
    column: Column,
    is_first: bool,
    look: &Look,
) -> Result<(), NoMemory>
    ensures { OnOk result (out.new.items ≡ out.old.items ++ rail_text (rail_of column) y is_first look.now.rail) }
{
    push_rail(out, column.rail() as u64, y, is_first, look.rail())
}

// Appends a cell: a band of this look and this colour above, and words that may be new.
fn push_cell(
    out: &mut Vec<u8>,
    y: u32,
    column: Column,
    is_first: bool,
    old: Band,
    is_fresh: bool,
    look: &Look,
) -> Result<(), NoMemory>
    ensures { OnOk result (out.new.items ≡ out.old.items ++ one_cell y column is_first old is_fresh look.now) }
{
    push_column_band(out, y, column, old, look)?;
    push_column_rail(out, y, column, is_first, look)?;
    push_label(out, column.x, y, is_fresh, look.words())
}

fn push_first_cell(out: &mut Vec<u8>, y: u32, cell: &Cell) -> Result<(), NoMemory>
    ensures { OnOk result (out.new.items ≡ out.old.items ++ cell_text y cell.now.column None cell.now.look) }
{
    push_cell(out, y, cell.column(), true, Band::Bare, true, cell.look())
}

fn push_next_cell(out: &mut Vec<u8>, y: u32, above: &Cell, cell: &Cell) -> Result<(), NoMemory>
    ensures { OnOk result (out.new.items ≡ out.old.items ++ cell_text y above.now.column (Some above.now.look) cell.now.look) }
{
    let is_fresh = above.look().words() != cell.look().words();
    let old = above.look().band();
    push_cell(out, y, above.column(), false, old, is_fresh, cell.look())
}

/// Appends these cells of a first row.
pub(crate) fn push_first_cells(out: &mut Vec<u8>, y: u32, cells: &[Cell]) -> Result<(), NoMemory>
    ensures { OnOk result (out.new.items ≡ out.old.items ++ flat_map (λ cell. cell_text y cell.column None cell.look) cells.now) }
{
    for cell in cells {
        push_first_cell(out, y, cell)?;
    }
    Ok(())
}

/// Appends the cells of a row below these, and returns them.
pub(crate) fn push_next_cells(
    out: &mut Vec<u8>,
    alloc: Global,
    y: u32,
    above: &[Cell],
    machine: &Machine,
) -> Result<Vec<Cell>, NoMemory>
    ensures cells { IfOk result (λ cells. cells.items ≡ map (λ cell. cell_at machine.now.situation cell.column) above.now) }
    ensures text { OnOk result (out.new.items ≡ out.old.items ++ flat_map (λ cell. cell_text y cell.column (Some cell.look) (look_at machine.now.situation cell.column.subject)) above.now) }
{
    let mut cells = Vec::new(alloc);
    for old in above {
        let cell = Cell::new(alloc, machine, old.column())?;
        push_next_cell(out, y, old, &cell)?;
        add_cell(&mut cells, cell)?;
    }
    Ok(cells)
}
