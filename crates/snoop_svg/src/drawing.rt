//! The drawing of a run: a view.
ghost use Rattle.std.specs.Prelude.{◌≡◌, ◌≤◌, ◌<◌, ◌+◌, ◌-◌, ◌^◌, ◌%◌, ◌++◌, OnOk};
ghost use Rattle.snoop_model.specs.Pictures.Situation.{Situation};
ghost use Rattle.snoop_svg.specs.Drawings.{StandsBelow, closing, head_text, is_full, opening, rows_per_sheet, sheet_rows, sheet_start, tail_text, turn_text, turned};
ghost use Rattle.snoop_svg.specs.Looks.{cells_at};
ghost use Rattle.snoop_svg.specs.Sheets.{AfterSteps, first_row, heading_text, row_text, row_y, sheet_closed};

use crate::looks::{Cell, cells_at};
use crate::paper::{Form, Paper};
use crate::plan::Plan;
use crate::sheet::{close_sheet, push_first_row, push_heading, push_row, row_y};
use crate::style::{push_page_end, push_page_head};
use snoop_engine::{Seen, View};
use snoop_machine::Machine;
use snoop_trace::NoMemory;
use std::alloc::Global;

/// A drawing: its plan, how many rows it has, and the row above the next one: after how many steps it comes, and its cells.
#[derive(Drop)]
pub(crate) struct Drawing {
    alloc: Global,
    plan: Plan,
    place: u64,
    above: u64,
    cells: Vec<Cell>,
}

fn push_head(out: &mut Vec<u8>, paper: Paper) -> Result<(), NoMemory>
    ensures { OnOk result (out.new.items ≡ out.old.items ++ head_text paper paper.form) }
{
    match paper.form {
        Form::Svg => Ok(()),
        Form::Html => push_page_head(out, paper.theme),
    }
}

fn push_tail(out: &mut Vec<u8>, form: Form) -> Result<(), NoMemory>
    ensures { OnOk result (out.new.items ≡ out.old.items ++ tail_text form) }
{
    match form {
        Form::Svg => Ok(()),
        Form::Html => push_page_end(out),
    }
}

// Whether the last of `place` rows fills its sheet.
fn is_full(plan: &Plan, place: u64) -> bool
    ensures { result ≡ is_full plan.now place }
{
    0 < place && place % plan.rows_per_sheet() as u64 == 0
}

// How many rows lie on the sheets before the one that holds the last of `place` rows.
fn sheet_start(plan: &Plan, place: u64) -> u64
    ensures { result ≡ sheet_start plan.now place }
{
    let last = place.saturating_sub(1);
    last.saturating_sub(last % plan.rows_per_sheet() as u64)
}

// Appends the heading of the sheet that begins after `done` rows.
fn push_sheet_heading(
    out: &mut Vec<u8>,
    plan: &Plan,
    machine: &Machine,
    done: u64,
) -> Result<(), NoMemory>
    ensures { OnOk result (out.new.items ≡ out.old.items ++ heading_text plan.now machine.now.situation.protocol machine.now.situation.shape (sheet_rows plan.now done)) }
{
    let rows = plan.sheet_rows(done);
    push_heading(out, plan, machine.protocol(), machine.shape(), rows)
}

// Appends the end of a full sheet.
fn close_full_sheet(out: &mut Vec<u8>, plan: &Plan, machine: &Machine) -> Result<(), NoMemory>
    ensures { OnOk result (out.new.items ≡ out.old.items ++ sheet_closed machine.now.situation.protocol (rows_per_sheet plan.now.paper.form)) }
{
    close_sheet(out, machine.protocol(), plan.rows_per_sheet())
}

// Appends the end of a full sheet, and the heading of the next.
fn turn_sheet(out: &mut Vec<u8>, plan: &Plan, machine: &Machine, place: u64) -> Result<(), NoMemory>
    ensures { OnOk result (out.new.items ≡ out.old.items ++ turned plan.now machine.now.situation.protocol machine.now.situation.shape place) }
{
    close_full_sheet(out, plan, machine)?;
    push_sheet_heading(out, plan, machine, place)
}

// Ends a full sheet, begins the next, and repeats the row above, which has these cells, as its first.
fn push_next_sheet(
    out: &mut Vec<u8>,
    plan: &Plan,
    machine: &Machine,
    place: u64,
    above: u64,
    cells: &[Cell],
) -> Result<(), NoMemory>
    ensures { (s : Situation) → cells.now ≡ cells_at s plan.now.columns
        → OnOk result (out.new.items ≡ out.old.items ++ (turned plan.now machine.now.situation.protocol machine.now.situation.shape place ++ first_row plan.now (record { number = above; situation = s }))) }
{
    turn_sheet(out, plan, machine, place)?;
    push_first_row(out, plan, cells, above)
}

// Does so where the sheet is full.
fn push_turn(
    out: &mut Vec<u8>,
    plan: &Plan,
    machine: &Machine,
    place: u64,
    above: u64,
    cells: &[Cell],
) -> Result<(), NoMemory>
    ensures { (s : Situation) → cells.now ≡ cells_at s plan.now.columns
        → OnOk result (out.new.items ≡ out.old.items ++ turn_text plan.now machine.now.situation.protocol machine.now.situation.shape place (record { number = above; situation = s })) }
{
    if is_full(plan, place) {
        push_next_sheet(out, plan, machine, place, above, cells)
    } else {
        Ok(())
    }
}

fn push_plan_head(out: &mut Vec<u8>, plan: &Plan) -> Result<(), NoMemory>
    ensures { OnOk result (out.new.items ≡ out.old.items ++ head_text plan.now.paper plan.now.paper.form) }
{
    push_head(out, plan.paper())
}

fn push_plan_tail(out: &mut Vec<u8>, plan: &Plan) -> Result<(), NoMemory>
    ensures { OnOk result (out.new.items ≡ out.old.items ++ tail_text plan.now.paper.form) }
{
    push_tail(out, plan.paper().form)
}

// Appends all that stands before the first row.
fn begin_sheets(out: &mut Vec<u8>, plan: &Plan, machine: &Machine) -> Result<(), NoMemory>
    ensures { OnOk result (out.new.items ≡ out.old.items ++ opening plan.now machine.now.situation.protocol machine.now.situation.shape) }
{
    push_plan_head(out, plan)?;
    push_sheet_heading(out, plan, machine, 0)
}

// Appends the end of the sheet that holds the last of `place` rows.
fn close_last_sheet(
    out: &mut Vec<u8>,
    plan: &Plan,
    machine: &Machine,
    place: u64,
) -> Result<(), NoMemory>
    ensures { OnOk result (out.new.items ≡ out.old.items ++ sheet_closed machine.now.situation.protocol (sheet_rows plan.now (sheet_start plan.now place))) }
{
    let rows = plan.sheet_rows(sheet_start(plan, place));
    close_sheet(out, machine.protocol(), rows)
}

// Appends all that stands after the last of `place` rows.
fn end_sheets(out: &mut Vec<u8>, plan: &Plan, machine: &Machine, place: u64) -> Result<(), NoMemory>
    ensures { OnOk result (out.new.items ≡ out.old.items ++ closing plan.now machine.now.situation.protocol place) }
{
    close_last_sheet(out, plan, machine, place)?;
    push_plan_tail(out, plan)
}

// The y of the row in this place.
fn y_at(plan: &Plan, place: u64) -> u32
    ensures { result ≡ row_y (place % rows_per_sheet plan.now.paper.form) }
{
    row_y((place % plan.rows_per_sheet() as u64) as u32)
}

impl Drawing {
    /// The drawing by a plan, which has seen nothing.
    pub(crate) fn new(alloc: Global, plan: Plan) -> Self
        ensures { result.plan ≡ plan }
    {
        Drawing {
            alloc,
            plan,
            place: 0,
            above: 0,
            cells: Vec::new(alloc),
        }
    }

    // Appends the first row, of the machine after `taken` steps.
    fn start(&mut self, out: &mut Vec<u8>, machine: &Machine, taken: u64) -> Result<(), NoMemory>
        ensures plan { self.new.plan ≡ self.old.plan × self.new.place ≡ self.old.place }
        ensures below { OnOk result (StandsBelow self.new (record { number = taken; situation = machine.now.situation })) }
        ensures text { OnOk result (out.new.items ≡ out.old.items ++ first_row self.old.plan (record { number = taken; situation = machine.now.situation })) }
    {
        let cells = cells_at(self.alloc, machine, self.plan.columns())?;
        push_first_row(out, &self.plan, &cells, taken)?;
        self.cells = cells;
        self.above = taken;
        Ok(())
    }

    // Appends the row of the step, in this place.
    fn push_placed(
        &mut self,
        out: &mut Vec<u8>,
        machine: &Machine,
        seen: &Seen<'_>,
    ) -> Result<(), NoMemory>
        ensures plan { self.new.plan ≡ self.old.plan × self.new.place ≡ self.old.place }
        ensures below { (above : AfterSteps) → StandsBelow self.old above → OnOk result (StandsBelow self.new (record { number = seen.now.number; situation = machine.now.situation })) }
        ensures text { (above : AfterSteps) → StandsBelow self.old above
            → OnOk result (out.new.items ≡ out.old.items
            ++ (turn_text self.old.plan machine.now.situation.protocol machine.now.situation.shape self.old.place above
            ++ row_text self.old.plan machine.now.situation.shape (row_y (self.old.place % rows_per_sheet self.old.plan.paper.form)) above seen.now.number machine.now.situation seen.now.block seen.now.step seen.now.outcome seen.now.lines.now)) }
    {
        push_turn(
            out,
            &self.plan,
            machine,
            self.place,
            self.above,
            &self.cells,
        )?;
        let y = y_at(&self.plan, self.place);
        self.cells = push_row(
            out,
            self.alloc,
            &self.plan,
            machine,
            y,
            self.above,
            &self.cells,
            seen,
        )?;
        self.above = seen.number;
        Ok(())
    }

    // Appends the row of a step that is drawn, unless enough rows are shown.
    fn push_drawn(
        &mut self,
        out: &mut Vec<u8>,
        machine: &Machine,
        seen: &Seen<'_>,
    ) -> Result<(), NoMemory>
        ensures plan { self.new.plan ≡ self.old.plan }
        ensures place { self.old.place < self.old.plan.paper.shown → OnOk result (self.new.place ≡ self.old.place + 1) }
        ensures below { (above : AfterSteps) → self.old.place < self.old.plan.paper.shown → StandsBelow self.old above
            → OnOk result (StandsBelow self.new (record { number = seen.now.number; situation = machine.now.situation })) }
        ensures shown { (above : AfterSteps) → self.old.place < self.old.plan.paper.shown → StandsBelow self.old above
            → OnOk result (out.new.items ≡ out.old.items
            ++ (turn_text self.old.plan machine.now.situation.protocol machine.now.situation.shape self.old.place above
            ++ row_text self.old.plan machine.now.situation.shape (row_y (self.old.place % rows_per_sheet self.old.plan.paper.form)) above seen.now.number machine.now.situation seen.now.block seen.now.step seen.now.outcome seen.now.lines.now)) }
        ensures blank { self.old.plan.paper.shown ≤ self.old.place → (self.new.place ≡ self.old.place) × (out.new.items ≡ out.old.items) }
    {
        if self.plan.paper().shown <= self.place {
            return Ok(());
        }
        self.push_placed(out, machine, seen)?;
        self.place += 1;
        Ok(())
    }
}

impl View for Drawing {
    ghost use Rattle.std.specs.Prelude.{◌+◌, length};
    ghost use Rattle.snoop_svg.specs.Drawings.{HasSeen, beginning_text, drawn, ending_text, frame_text};

    ghost has_seen = { HasSeen };

    ghost heading = { λ first protocol shape. beginning_text first.plan protocol shape };

    ghost shows = { λ first protocol shape frames frame. frame_text first.plan protocol shape frames (record { number = 1 + length frames; frame = frame }) };

    ghost ending = { λ first protocol shape frames final. ending_text first.plan protocol (length (drawn first.plan.choice frames)) };

    fn begin(&mut self, out: &mut Vec<u8>, machine: &Machine) -> Result<(), NoMemory> {
        self.place = 0;
        begin_sheets(out, &self.plan, machine)?;
        if self.plan.choice().from() == 1 {
            self.start(out, machine, 0)
        } else {
            Ok(())
        }
    }

    fn see(
        &mut self,
        out: &mut Vec<u8>,
        machine: &Machine,
        seen: Seen<'_>,
    ) -> Result<(), NoMemory> {
        let choice = self.plan.choice();
        if choice.is_first_after(seen.number) {
            return self.start(out, machine, seen.number);
        }
        if choice.has_step(seen.block, seen.number) {
            self.push_drawn(out, machine, &seen)
        } else {
            Ok(())
        }
    }

    fn end(&mut self, out: &mut Vec<u8>, machine: &Machine) -> Result<(), NoMemory> {
        end_sheets(out, &self.plan, machine, self.place)
    }
}
