//! The table of one block, as far as the steps go.
ghost use Rattle.std.specs.Prelude.{◌≡◌, ◌++◌, ◌∷◌, [], List, ℕ, IfOk, OnOk, map, true};
ghost use Rattle.std.specs.List.{flat_map};
ghost use Rattle.std.specs.Fmt.{decimal};
ghost use Rattle.snoop_engine.specs.Frames.{Frame};
ghost use Rattle.snoop_engine.specs.Line.{line_text};
ghost use Rattle.snoop_states.specs.Cells.{cell_text};
ghost use Rattle.snoop_engine.specs.Chosen.{Chosen};
ghost use Rattle.snoop_states.specs.Columns.{column_name, columns_for, width_of};
ghost use Rattle.snoop_states.specs.Rows.{below, names_text, padded_text, to_the_right};
ghost use Rattle.snoop_states.specs.Seen.{Grows, HasCells, IsEmpty, IsTable, Starts, pair};
ghost use Rattle.snoop_states.specs.Tables.{first_line, first_shown, shown_of, table_text};
ghost use Rattle.snoop_states.specs.declared.column.Column.{Column};
ghost use Rattle.snoop_states.specs.declared.column.Column.TheVariants.{Core};

use crate::cells::cell_text;
use crate::column::{Column, name_of, width_of};
use crate::heading::push_heading;
use crate::pieces::{decimal_text, push_below, push_bytes, push_padded, push_to_the_right};
use crate::widths::Widths;
use snoop_engine::{Choice, push_line};
use snoop_machine::{Machine, Refused, Reply};
use snoop_trace::streams::push_text;
use snoop_trace::{NoMemory, Step};
use std::alloc::Global;

/// A column of a table, and the text that stands above its next row there.
#[derive(Drop)]
pub(crate) struct Cell {
    pub(crate) column: Column,
    pub(crate) text: Vec<u8>,
}

/// The rows of a block's table so far, and whether one of them is of a step.
#[derive(Drop)]
pub(crate) struct Table {
    pub(crate) cells: Vec<Cell>,
    pub(crate) rows: Vec<u8>,
    pub(crate) is_shown: bool,
}

// Adds a cell.
fn add(cells: &mut Vec<Cell>, cell: Cell) -> Result<(), NoMemory>
    ensures { OnOk result (cells.new.items ≡ cells.old.items ++ cell ∷ []) }
{
    match cells.push(cell) {
        Ok(()) => Ok(()),
        Err(_) => Err(NoMemory),
    }
}

// Adds a column, above which nothing stands.
fn add_column(alloc: Global, cells: &mut Vec<Cell>, column: Column) -> Result<(), NoMemory>
    ensures { OnOk result (map pair cells.new.items ≡ map pair cells.old.items ++ (column, []) ∷ []) }
{
    let text = Vec::new(alloc);
    add(cells, Cell { column, text })
}

// A column for each of the cores, above which nothing stands.
fn core_columns(alloc: Global, cores: &[u32]) -> Result<Vec<Cell>, NoMemory>
    ensures { IfOk result (λ cells. map pair cells.items ≡ map (λ core. (Core core, [])) cores.now) }
{
    let mut cells = Vec::new(alloc);
    for core in cores {
        add_column(alloc, &mut cells, Column::Core(*core))?;
    }
    Ok(cells)
}

// Appends the number of a row.
fn push_number(
    alloc: Global,
    out: &mut Vec<u8>,
    widths: Widths,
    number: u64,
) -> Result<(), NoMemory>
    ensures { OnOk result (out.new.items ≡ out.old.items ++ to_the_right widths.number (decimal number)) }
{
    let text = decimal_text(alloc, number)?;
    push_to_the_right(out, widths.number as usize, &text)
}

// Appends the cells of a row below others, and returns them.
fn push_cells(
    alloc: Global,
    out: &mut Vec<u8>,
    widths: Widths,
    machine: &Machine,
    block: u32,
    above: &[Cell],
) -> Result<Vec<Cell>, NoMemory>
    ensures cells { IfOk result (λ cells. map pair cells.items ≡ map (λ cell. (cell.column, cell_text machine.now.situation block cell.column)) above.now) }
    ensures text { OnOk result (out.new.items ≡ out.old.items ++ flat_map (λ cell. padded_text (width_of widths cell.column) (below cell.text.items (cell_text machine.now.situation block cell.column))) above.now) }
{
    let mut cells = Vec::new(alloc);
    for cell in above {
        let column = cell.column;
        let text = cell_text(alloc, machine, block, column)?;
        push_below(out, width_of(widths, column), &cell.text, &text)?;
        add(&mut cells, Cell { column, text })?;
    }
    Ok(cells)
}

// Appends the names of the columns.
fn push_names(
    alloc: Global,
    out: &mut Vec<u8>,
    widths: Widths,
    cells: &[Cell],
) -> Result<(), NoMemory>
    ensures { OnOk result (out.new.items ≡ out.old.items ++ flat_map (λ cell. padded_text (width_of widths cell.column) (column_name cell.column)) cells.now) }
{
    for cell in cells {
        let name = name_of(alloc, cell.column)?;
        push_padded(out, width_of(widths, cell.column), &name)?;
    }
    Ok(())
}

// Appends the line of names.
fn push_names_line(
    alloc: Global,
    out: &mut Vec<u8>,
    widths: Widths,
    cells: &[Cell],
) -> Result<(), NoMemory>
    ensures { (columns : List Column) (text : Column → List ℕ) → HasCells columns text cells.now → OnOk result (out.new.items ≡ out.old.items ++ names_text widths columns) }
{
    push_to_the_right(out, widths.number as usize, b"step")?;
    push_names(alloc, out, widths, cells)?;
    push_text(out, "line\n")
}

// What stands in place of a step in the first row.
fn first_line(from: u64) -> &'static str
    ensures { result.now ≡ first_line from }
{
    if from == 1 { "at reset\n" } else { "before\n" }
}

impl Table {
    /// The table of a block for which these cores asked, without a row.
    pub(crate) fn new(alloc: Global, cores: &[u32]) -> Result<Table, NoMemory>
        ensures { IfOk result (IsEmpty (columns_for cores.now)) }
    {
        let mut cells = core_columns(alloc, cores)?;
        add_column(alloc, &mut cells, Column::Bus)?;
        add_column(alloc, &mut cells, Column::Memory)?;
        Ok(Table {
            cells,
            rows: Vec::new(alloc),
            is_shown: false,
        })
    }

    // Appends the number of a row and its cells.
    fn push_row(
        &mut self,
        alloc: Global,
        widths: Widths,
        machine: &Machine,
        block: u32,
        number: u64,
    ) -> Result<(), NoMemory>
        ensures { OnOk result (Grows widths machine.now.situation block number [] self.old.is_shown self.old self.new) }
    {
        push_number(alloc, &mut self.rows, widths, number)?;
        self.cells = push_cells(alloc, &mut self.rows, widths, machine, block, &self.cells)?;
        Ok(())
    }

    /// Appends the first row: the block before the first step that is shown.
    pub(crate) fn start(
        &mut self,
        alloc: Global,
        widths: Widths,
        machine: &Machine,
        block: u32,
        choice: Choice,
    ) -> Result<(), NoMemory>
        ensures { OnOk result (Starts widths choice machine.now.situation block self.old self.new) }
    {
        let from = choice.from();
        self.push_row(alloc, widths, machine, block, from - 1)?;
        push_text(&mut self.rows, first_line(from))
    }

    /// Appends the row of a step, the machine being as it is after it.
    pub(crate) fn push_step(
        &mut self,
        alloc: Global,
        widths: Widths,
        machine: &Machine,
        block: u32,
        number: u64,
        step: Step,
        outcome: Result<Reply, Refused>,
    ) -> Result<(), NoMemory>
        ensures { OnOk result (Grows widths machine.now.situation block number (line_text machine.now.situation.shape step outcome) true self.old self.new) }
    {
        self.push_row(alloc, widths, machine, block, number)?;
        push_line(&mut self.rows, machine.shape(), step, outcome)?;
        self.is_shown = true;
        Ok(())
    }

    /// Appends the whole table, if one of its rows is of a step.
    pub(crate) fn push_table(
        &self,
        alloc: Global,
        out: &mut Vec<u8>,
        widths: Widths,
        machine: &Machine,
        block: u32,
    ) -> Result<(), NoMemory>
        ensures { (choice : Chosen) (columns : List Column) (frames : List Frame)
            → IsTable widths choice machine.now.situation.protocol machine.now.situation.shape columns frames block self.now
            → OnOk result (out.new.items ≡ out.old.items ++ table_text widths choice machine.now.situation.protocol machine.now.situation.shape block columns
            (first_shown choice machine.now.situation.protocol machine.now.situation.shape frames) (shown_of choice block frames)) }
    {
        if self.is_shown {
            push_heading(out, machine, block)?;
            push_names_line(alloc, out, widths, &self.cells)?;
            push_bytes(out, &self.rows)?;
            push_text(out, "\n")
        } else {
            Ok(())
        }
    }
}
