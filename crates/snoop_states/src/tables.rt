//! The view of a run as tables, one for each block.
ghost use Rattle.std.specs.Prelude.{◌≡◌, ◌+◌, ◌<◌, ◌++◌, ◌∷◌, [], ℕ, List, IfOk, OnOk, length};
ghost use Rattle.std.specs.List.{flat_map, range_with_len};
ghost use Rattle.snoop_trace.specs.declared.protocol.Protocol.{Protocol};
ghost use Rattle.snoop_model.specs.Pictures.Situation.{reset};
ghost use Rattle.snoop_engine.specs.Frames.{Frame};
ghost use Rattle.snoop_engine.specs.Views.{block_of_step};
ghost use Rattle.snoop_engine.specs.Chosen.{Chosen};
ghost use Rattle.snoop_states.specs.Tables.{shown_block};
ghost use Rattle.snoop_states.specs.Each.{AreEach};
ghost use Rattle.snoop_states.specs.Seen.{AreTables, HasRows, IsEmpty, IsHalfBegun, IsTable};
ghost use Rattle.snoop_states.specs.Columns.{columns_in};
ghost use Rattle.snoop_states.specs.Views.{HasSeen, IsFor};
ghost use Rattle.snoop_states.specs.Whole.{block_table, tables_text};
ghost use Rattle.snoop_states.specs.declared.column.Column.{Column};

use crate::at_end::push_end;
use crate::table::Table;
use crate::widths::{Widths, widths_of};
use snoop_engine::{Askers, Choice, Seen, View};
use snoop_machine::{Machine, Refused, Reply};
use snoop_trace::{NoMemory, Shape, Step};
use std::alloc::Global;

/// The tables of a run: what they show and how wide they are, which cores ask for which blocks, and the tables as far as the steps go.
#[derive(Drop)]
pub(crate) struct Tables {
    alloc: Global,
    choice: Choice,
    widths: Widths,
    askers: Askers,
    tables: Vec<Table>,
}

impl Tables {
    /// The tables of these steps, before a run.
    pub(crate) fn new(
        alloc: Global,
        shape: Shape,
        choice: Choice,
        steps: &[Step],
    ) -> Result<Tables, NoMemory>
        ensures { IfOk result (IsFor shape choice steps.now) }
    {
        let widths = widths_of(shape, steps);
        let askers = Askers::of(alloc, shape, steps)?;
        Ok(Tables {
            alloc,
            choice,
            widths,
            askers,
            tables: Vec::new(alloc),
        })
    }
}

// Adds a table.
fn add(tables: &mut Vec<Table>, table: Table) -> Result<(), NoMemory>
    ensures { OnOk result (tables.new.items ≡ tables.old.items ++ table ∷ []) }
{
    match tables.push(table) {
        Ok(()) => Ok(()),
        Err(_) => Err(NoMemory),
    }
}

// The table of a block without a row.
fn empty_table(alloc: Global, askers: &Askers, block: u32) -> Result<Table, NoMemory>
    ensures { IfOk result (IsEmpty (columns_in askers.now block)) }
{
    let cores = askers.cores(block)?;
    Table::new(alloc, &cores)
}

// A table without a row for each block.
#[tactic(auto, using(crate::proofs::TableLemmas::each_more))]
fn empty_tables(alloc: Global, shape: Shape, askers: &Askers) -> Result<Vec<Table>, NoMemory>
    ensures { IfOk result (λ tables. AreEach shape.blocks (λ block. IsEmpty (columns_in askers.now block)) tables.items) }
{
    let mut tables = Vec::new(alloc);
    for block in 0..shape.blocks() {
        add(&mut tables, empty_table(alloc, askers, block)?)?;
    }
    Ok(tables)
}

// Begins the table of a block, if it is shown.
fn start_table(
    alloc: Global,
    choice: Choice,
    widths: Widths,
    tables: &mut Vec<Table>,
    machine: &Machine,
    block: u32,
) -> Result<(), NoMemory>
    ensures { (columns : ℕ → List Column) → AreTables machine.now.situation.shape choice (λ b. IsHalfBegun widths choice machine.now.situation (columns b) block b) tables.old.items
        → block < machine.now.situation.shape.blocks
        → OnOk result (AreTables machine.now.situation.shape choice (λ b. IsHalfBegun widths choice machine.now.situation (columns b) (block + 1) b) tables.new.items) }
{
    if choice.has_block(block) {
        let at = block as usize;
        if at < tables.len() {
            tables[at].start(alloc, widths, machine, block, choice)
        } else {
            Ok(())
        }
    } else {
        Ok(())
    }
}

// Begins the table of each block that is shown.
fn start_tables(
    alloc: Global,
    choice: Choice,
    widths: Widths,
    tables: &mut Vec<Table>,
    machine: &Machine,
) -> Result<(), NoMemory>
    ensures { (columns : ℕ → List Column) → AreTables machine.now.situation.shape choice (λ block. IsEmpty (columns block)) tables.old.items
        → OnOk result (AreTables machine.now.situation.shape choice (λ block. HasRows widths choice machine.now.situation.shape block (columns block) machine.now.situation []) tables.new.items) }
{
    for block in 0..machine.shape().blocks() {
        start_table(alloc, choice, widths, tables, machine, block)?;
    }
    Ok(())
}

// The tables at reset.
#[tactic(auto, using(crate::proofs::TableLemmas::each_mapped, crate::proofs::TableLemmas::empty_at_reset))]
fn begin_tables(
    alloc: Global,
    choice: Choice,
    widths: Widths,
    askers: &Askers,
    machine: &Machine,
) -> Result<Vec<Table>, NoMemory>
    ensures { machine.now.situation ≡ reset machine.now.situation.protocol machine.now.situation.shape
        → IfOk result (λ tables. AreTables machine.now.situation.shape choice
        (λ block. IsTable widths choice machine.now.situation.protocol machine.now.situation.shape (columns_in askers.now block) [] block) tables.items) }
{
    let mut tables = empty_tables(alloc, machine.shape(), askers)?;
    if choice.from() == 1 {
        start_tables(alloc, choice, widths, &mut tables, machine)?;
        Ok(tables)
    } else {
        Ok(tables)
    }
}

// The block in whose table a step stands, if any.
fn shown_block(choice: Choice, of: Option<u32>, number: u64) -> Option<u32>
    ensures { result ≡ shown_block choice of number }
{
    of.filter(|block| choice.has_block(*block) && choice.has_number(number))
}

// Shows a step that is of this block, if of any.
fn show_step(
    alloc: Global,
    choice: Choice,
    widths: Widths,
    tables: &mut Vec<Table>,
    machine: &Machine,
    of: Option<u32>,
    number: u64,
    step: Step,
    outcome: Result<Reply, Refused>,
) -> Result<(), NoMemory>
    ensures { (protocol : Protocol) (columns : ℕ → List Column) (frames : List Frame) (frame : Frame)
        → frame.after ≡ machine.now.situation → frame.step ≡ step → frame.outcome ≡ outcome → number ≡ 1 + length frames → of ≡ block_of_step frame.before frame.step
        → AreTables machine.now.situation.shape choice (λ block. IsTable widths choice protocol machine.now.situation.shape (columns block) frames block) tables.old.items
        → OnOk result (AreTables machine.now.situation.shape choice (λ block. IsTable widths choice protocol machine.now.situation.shape (columns block) (frames ++ frame ∷ []) block) tables.new.items) }
{
    if number == choice.from() - 1 {
        return start_tables(alloc, choice, widths, tables, machine);
    }
    match shown_block(choice, of, number) {
        None => Ok(()),
        Some(block) => {
            let at = block as usize;
            if at < tables.len() {
                tables[at].push_step(alloc, widths, machine, block, number, step, outcome)
            } else {
                Ok(())
            }
        }
    }
}

// Appends the table of a block, if it is shown.
fn push_table(
    alloc: Global,
    choice: Choice,
    widths: Widths,
    out: &mut Vec<u8>,
    tables: &[Table],
    machine: &Machine,
    block: u32,
) -> Result<(), NoMemory>
    ensures { (columns : ℕ → List Column) (frames : List Frame)
        → AreTables machine.now.situation.shape choice (λ b. IsTable widths choice machine.now.situation.protocol machine.now.situation.shape (columns b) frames b) tables.now
        → block < machine.now.situation.shape.blocks
        → OnOk result (out.new.items ≡ out.old.items ++ block_table widths choice machine.now.situation.protocol machine.now.situation.shape columns frames block) }
{
    if choice.has_block(block) {
        match tables.get(block as usize) {
            None => Ok(()),
            Some(table) => table.push_table(alloc, out, widths, machine, block),
        }
    } else {
        Ok(())
    }
}

// Appends the tables of all blocks.
#[tactic(auto, using(crate::proofs::TableLemmas::pieces_more))]
fn push_tables(
    alloc: Global,
    choice: Choice,
    widths: Widths,
    out: &mut Vec<u8>,
    tables: &[Table],
    machine: &Machine,
) -> Result<(), NoMemory>
    ensures { (columns : ℕ → List Column) (frames : List Frame)
        → AreTables machine.now.situation.shape choice (λ b. IsTable widths choice machine.now.situation.protocol machine.now.situation.shape (columns b) frames b) tables.now
        → OnOk result (out.new.items ≡ out.old.items ++ flat_map (block_table widths choice machine.now.situation.protocol machine.now.situation.shape columns frames) (range_with_len 0 machine.now.situation.shape.blocks)) }
{
    for block in 0..machine.shape().blocks() {
        push_table(alloc, choice, widths, out, tables, machine, block)?;
    }
    Ok(())
}

/// The view of a run as tables: nothing is written before its end.
impl View for Tables {
    ghost has_seen = { HasSeen };

    ghost heading = { λ view protocol shape. [] };

    ghost shows = { λ view protocol shape frames frame. [] };

    ghost ending = { λ view protocol shape frames final. tables_text view.widths view.choice protocol shape (columns_in view.askers) frames final };

    fn begin(&mut self, _out: &mut Vec<u8>, machine: &Machine) -> Result<(), NoMemory> {
        self.tables = begin_tables(self.alloc, self.choice, self.widths, &self.askers, machine)?;
        Ok(())
    }

    fn see(
        &mut self,
        _out: &mut Vec<u8>,
        machine: &Machine,
        seen: Seen<'_>,
    ) -> Result<(), NoMemory> {
        show_step(
            self.alloc,
            self.choice,
            self.widths,
            &mut self.tables,
            machine,
            seen.block,
            seen.number,
            seen.step,
            seen.outcome,
        )
    }

    #[tactic(auto, using(std::proofs::lemmas::List::append_assoc))]
    fn end(&mut self, out: &mut Vec<u8>, machine: &Machine) -> Result<(), NoMemory> {
        push_tables(
            self.alloc,
            self.choice,
            self.widths,
            out,
            &self.tables,
            machine,
        )?;
        push_end(self.alloc, out, machine)
    }
}
