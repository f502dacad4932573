//! What a column shows of the machine.
ghost use Rattle.std.specs.Prelude.{◌≡◌, ◌++◌, ◌∷◌, [], IfOk, OnOk, map};
ghost use Rattle.snoop_svg.specs.Looks.{cell_at, cells_at, look_at, waiting_rail};

use crate::bands::{Band, bus_band, core_band, memory_band};
use crate::columns::{Column, Subject};
use snoop_draw::{Mark, awaits, bus_words, core_words, held_in, memory_words};
use snoop_machine::Machine;
use snoop_trace::NoMemory;
use std::alloc::Global;
use std::marker::Model;

/// What the rail of a column says.
#[derive(Clone, Copy)]
pub(crate) enum Rail {
    /// Nothing.
    Free,
    /// The core waits for its request's order.
    ToOrder,
    /// The core waits for data.
    ToData,
}

/// What a column shows: its band, its rail and its words.
#[derive(Drop)]
pub(crate) struct Look {
    band: Band,
    rail: Rail,
    words: Vec<u8>,
}

impl Model for Look {
    ghost use Rattle.snoop_svg.specs.Looks.{Look as Shown};

    ghost Value = { Shown };

    ghost view = { λ look. record { band = look.band; rail = look.rail; words = look.words.items } };
}

impl Look {
    pub(crate) fn band(&self) -> Band
        ensures { result ≡ self.now.band }
    {
        self.band
    }

    pub(crate) fn rail(&self) -> Rail
        ensures { result ≡ self.now.rail }
    {
        self.rail
    }

    pub(crate) fn words(&self) -> &[u8]
        ensures { result.now ≡ self.now.words }
    {
        &self.words
    }
}

fn waiting_rail(mark: Mark) -> Rail
    ensures { result ≡ waiting_rail mark }
{
    match mark {
        Mark::AwaitsOrder => Rail::ToOrder,
        Mark::AwaitsData => Rail::ToData,
        _ => Rail::Free,
    }
}

/// What a column of this subject shows.
pub(crate) fn look_at(alloc: Global, machine: &Machine, subject: Subject) -> Result<Look, NoMemory>
    ensures { IfOk result (λ look. look ≡ look_at machine.now.situation subject) }
{
    match subject {
        Subject::Core { block, core } => {
            let state = held_in(machine, block, core);
            Ok(Look {
                band: core_band(machine.protocol(), state),
                rail: waiting_rail(awaits(state)),
                words: core_words(alloc, machine, block, core)?,
            })
        }
        Subject::Bus { block } => Ok(Look {
            band: bus_band(machine.open(block)),
            rail: Rail::Free,
            words: bus_words(alloc, machine, block)?,
        }),
        Subject::Memory { block } => Ok(Look {
            band: memory_band(machine.mem_state(block)),
            rail: Rail::Free,
            words: memory_words(alloc, machine, block)?,
        }),
    }
}

/// A column, and what it shows.
#[derive(Drop)]
pub(crate) struct Cell {
    column: Column,
    look: Look,
}

impl Model for Cell {
    ghost use Rattle.snoop_svg.specs.Looks.{SheetCell as Filled};

    ghost Value = { Filled };

    ghost view = { λ cell. record { column = cell.column; look = cell.look } };
}

impl Cell {
    /// The column, as the machine is now.
    pub(crate) fn new(alloc: Global, machine: &Machine, column: Column) -> Result<Cell, NoMemory>
        ensures { IfOk result (λ cell. cell ≡ cell_at machine.now.situation column) }
    {
        let look = look_at(alloc, machine, column.subject)?;
        Ok(Cell { column, look })
    }

    pub(crate) fn column(&self) -> Column
        ensures { result ≡ self.now.column }
    {
        self.column
    }

    pub(crate) fn look(&self) -> &Look
        ensures { result.now ≡ self.now.look }
    {
        &self.look
    }
}

/// Adds a cell.
pub(crate) fn add_cell(cells: &mut Vec<Cell>, cell: Cell) -> Result<(), NoMemory>
    ensures { OnOk result (cells.new.items ≡ cells.old.items ++ cell ∷ []) }
{
    match cells.push(cell) {
        Ok(()) => Ok(()),
        Err(_) => Err(NoMemory),
    }
}

/// The columns, as the machine is now.
pub(crate) fn cells_at(
    alloc: Global,
    machine: &Machine,
    columns: &[Column],
) -> Result<Vec<Cell>, NoMemory>
    ensures { IfOk result (λ cells. cells.items ≡ cells_at machine.now.situation columns.now) }
{
    let mut cells = Vec::new(alloc);
    for column in columns {
        add_cell(&mut cells, Cell::new(alloc, machine, *column)?)?;
    }
    Ok(cells)
}
