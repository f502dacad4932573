//! A sheet of a drawing: its heading, its first row, its rows and its end. All numbers are pixels.
ghost use Rattle.std.specs.Prelude.{◌≡◌, ◌≤◌, ◌+◌, ◌++◌, codes, IfOk, OnOk};
ghost use Rattle.std.specs.List.{flat_map};
ghost use Rattle.snoop_trace.specs.Output.{address_of, step_text};
ghost use Rattle.snoop_model.specs.Pictures.Situation.{Situation};
ghost use Rattle.snoop_engine.specs.Line.{outcome_text};
ghost use Rattle.snoop_svg.specs.Drawings.{most_cells};
ghost use Rattle.snoop_svg.specs.Elements.{number, text_closed, text_opened};
ghost use Rattle.snoop_svg.specs.Legends.{legend_text};
ghost use Rattle.snoop_svg.specs.Looks.{cells_at};
ghost use Rattle.snoop_svg.specs.Sheets.{block_title, border, captions, column_heading, first_row, first_word, first_words, ground, heading_text, name_of, own_style, panel_heading, protocol_title, reply_class, row_end, row_ground, row_head, row_opened, row_text, row_y, sheet_closed, sheet_opened, sheet_title, svg_opened, width_of};

use crate::cells::{push_first_cells, push_next_cells};
use crate::columns::{Column, Subject};
use crate::elements::{
    close_text, open_text, push_box, push_line, push_number, push_size, push_words,
};
use crate::happenings::push_event;
use crate::legend::push_legend;
use crate::looks::Cell;
use crate::paper::{Form, Paper};
use crate::plan::Plan;
use crate::style::push_style;
use crate::titles::push_row_title;
use snoop_engine::{Seen, capitals, push_outcome};
use snoop_machine::{Machine, Refused, Reply};
use snoop_rules::Protocol;
use snoop_trace::streams::{push_decimal, push_step, push_text};
use snoop_trace::{NoMemory, Shape, Step};
use std::alloc::Global;

/// The y of the row in this place of a sheet, from 0, which is where the first `place` rows end.
pub(crate) fn row_y(place: u32) -> u32
    requires { place ≤ most_cells }
    ensures value { result ≡ row_y place }
    ensures low { result ≤ 1080082 }
{
    82 + 54 * place
}

fn push_own_style(out: &mut Vec<u8>, paper: Paper) -> Result<(), NoMemory>
    ensures { OnOk result (out.new.items ≡ out.old.items ++ own_style paper paper.form) }
{
    match paper.form {
        Form::Html => Ok(()),
        Form::Svg => {
            push_text(out, "<style>\n")?;
            push_style(out, paper.theme)?;
            push_text(out, "</style>\n")
        }
    }
}

fn push_name(out: &mut Vec<u8>, subject: Subject) -> Result<(), NoMemory>
    ensures { OnOk result (out.new.items ≡ out.old.items ++ name_of subject) }
{
    match subject {
        Subject::Core { block: _, core } => {
            push_text(out, "Core ")?;
            push_decimal(out, core as u64)
        }
        Subject::Bus { block: _ } => push_text(out, "Bus"),
        Subject::Memory { block: _ } => push_text(out, "Memory"),
    }
}

fn push_block_title(out: &mut Vec<u8>, shape: Shape, block: u32) -> Result<(), NoMemory>
    ensures { OnOk result (out.new.items ≡ out.old.items ++ block_title shape block) }
{
    shape.within_limits();
    let first = block as u64 * shape.block_bytes() as u64;
    let last = first + shape.block_bytes() as u64 - 1;
    push_text(out, "Block ")?;
    push_decimal(out, block as u64)?;
    push_text(out, ", bytes ")?;
    push_decimal(out, first)?;
    push_text(out, " to ")?;
    push_decimal(out, last)
}

// Appends what stands over a panel.
fn push_title(out: &mut Vec<u8>, shape: Shape, column: Column, block: u32) -> Result<(), NoMemory>
    ensures { OnOk result (out.new.items ≡ out.old.items ++ (text_opened column.start 20 (codes "t") ++ block_title shape block ++ text_closed)) }
{
    open_text(out, column.start as u64, 20, "t")?;
    push_block_title(out, shape, block)?;
    close_text(out)
}

fn push_panel_heading(
    out: &mut Vec<u8>,
    shape: Shape,
    bottom: u32,
    column: Column,
) -> Result<(), NoMemory>
    ensures { OnOk result (out.new.items ≡ out.old.items ++ panel_heading shape bottom column column.subject) }
{
    match column.subject {
        Subject::Bus { block } => {
            let wide = (column.end as u64).saturating_sub(column.x as u64);
            let high = (bottom as u64).saturating_sub(64);
            push_title(out, shape, column, block)?;
            push_box(out, column.x as u64, 64, wide, high, "bus")
        }
        _ => Ok(()),
    }
}

// Appends the name of a column, where it stands.
fn push_column_name(out: &mut Vec<u8>, column: Column) -> Result<(), NoMemory>
    ensures { OnOk result (out.new.items ≡ out.old.items ++ (text_opened (column.x + 8) 44 (codes "s") ++ name_of column.subject ++ text_closed)) }
{
    open_text(out, column.x as u64 + 8, 44, "s")?;
    push_name(out, column.subject)?;
    close_text(out)
}

fn push_column_heading(
    out: &mut Vec<u8>,
    shape: Shape,
    bottom: u32,
    column: Column,
) -> Result<(), NoMemory>
    ensures { OnOk result (out.new.items ≡ out.old.items ++ column_heading shape bottom column) }
{
    push_panel_heading(out, shape, bottom, column)?;
    push_column_name(out, column)?;
    push_line(
        out,
        column.x as u64,
        64,
        column.x as u64,
        bottom as u64,
        "l",
    )
}

fn push_column_headings(
    out: &mut Vec<u8>,
    shape: Shape,
    bottom: u32,
    columns: &[Column],
) -> Result<(), NoMemory>
    ensures { OnOk result (out.new.items ≡ out.old.items ++ flat_map (column_heading shape bottom) columns.now) }
{
    for column in columns {
        push_column_heading(out, shape, bottom, *column)?;
    }
    Ok(())
}

#[tactic(auto, unfolding(crate::specs::Sheets::svg_opened))]
fn open_svg(out: &mut Vec<u8>) -> Result<(), NoMemory>
    ensures { OnOk result (out.new.items ≡ out.old.items ++ svg_opened) }
{
    push_text(
        out,
        "<svg xmlns=\"http://www.w3.org/2000/svg\" viewBox=\"0 0 ",
    )
}

fn open_sheet(out: &mut Vec<u8>, width: u64, height: u64) -> Result<(), NoMemory>
    ensures { OnOk result (out.new.items ≡ out.old.items ++ sheet_opened width height) }
{
    open_svg(out)?;
    push_size(out, width, height)?;
    push_text(out, ">\n")
}

fn push_protocol(out: &mut Vec<u8>, protocol: Protocol) -> Result<(), NoMemory>
    ensures { OnOk result (out.new.items ≡ out.old.items ++ protocol_title protocol) }
{
    push_text(out, "<title>Snoop, ")?;
    push_text(out, capitals(protocol))?;
    push_text(out, ", ")
}

#[tactic(auto, using(std::proofs::lemmas::List::append_assoc))]
fn push_sheet_title(out: &mut Vec<u8>, protocol: Protocol, rows: u32) -> Result<(), NoMemory>
    ensures { OnOk result (out.new.items ≡ out.old.items ++ sheet_title protocol rows) }
{
    push_protocol(out, protocol)?;
    push_decimal(out, rows as u64)?;
    push_text(out, " steps drawn</title>\n")
}

fn push_ground(
    out: &mut Vec<u8>,
    protocol: Protocol,
    width: u64,
    height: u64,
) -> Result<(), NoMemory>
    ensures { OnOk result (out.new.items ≡ out.old.items ++ ground protocol width height) }
{
    push_box(out, 0, 0, width, height, "paper")?;
    push_words(out, 12, 20, capitals(protocol).as_bytes(), "s")
}

fn open_plan(out: &mut Vec<u8>, plan: &Plan, rows: u32) -> Result<(), NoMemory>
    requires { rows ≤ most_cells }
    ensures { OnOk result (out.new.items ≡ out.old.items ++ sheet_opened (width_of plan.now) (row_y rows + 70)) }
{
    open_sheet(out, plan.width(), row_y(rows) as u64 + 70)
}

fn push_plan_style(out: &mut Vec<u8>, plan: &Plan) -> Result<(), NoMemory>
    ensures { OnOk result (out.new.items ≡ out.old.items ++ own_style plan.now.paper plan.now.paper.form) }
{
    push_own_style(out, plan.paper())
}

fn push_plan_ground(
    out: &mut Vec<u8>,
    plan: &Plan,
    protocol: Protocol,
    rows: u32,
) -> Result<(), NoMemory>
    requires { rows ≤ most_cells }
    ensures { OnOk result (out.new.items ≡ out.old.items ++ ground protocol (width_of plan.now) (row_y rows + 70)) }
{
    push_ground(out, protocol, plan.width(), row_y(rows) as u64 + 70)
}

fn push_plan_columns(
    out: &mut Vec<u8>,
    plan: &Plan,
    shape: Shape,
    rows: u32,
) -> Result<(), NoMemory>
    requires { rows ≤ most_cells }
    ensures { OnOk result (out.new.items ≡ out.old.items ++ flat_map (column_heading shape (row_y rows)) plan.now.columns) }
{
    push_column_headings(out, shape, row_y(rows), plan.columns())
}

/// Appends all that stands above the rows of a sheet, and behind them.
pub(crate) fn push_heading(
    out: &mut Vec<u8>,
    plan: &Plan,
    protocol: Protocol,
    shape: Shape,
    rows: u32,
) -> Result<(), NoMemory>
    requires { rows ≤ most_cells }
    ensures { OnOk result (out.new.items ≡ out.old.items ++ heading_text plan.now protocol shape rows) }
{
    open_plan(out, plan, rows)?;
    push_sheet_title(out, protocol, rows)?;
    push_plan_style(out, plan)?;
    push_plan_ground(out, plan, protocol, rows)?;
    push_plan_columns(out, plan, shape, rows)
}

fn first_word(taken: u64) -> &'static str
    ensures { result.now ≡ first_word taken }
{
    if taken == 0 { "reset" } else { "before" }
}

fn push_first_words(out: &mut Vec<u8>, plan: &Plan, taken: u64) -> Result<(), NoMemory>
    ensures { OnOk result (out.new.items ≡ out.old.items ++ first_words plan.now taken) }
{
    let sizes = plan.sizes();
    let word = first_word(taken);
    push_number(out, sizes.numbers as u64, 77, taken)?;
    push_words(out, sizes.records as u64, 77, word.as_bytes(), "t")
}

/// Appends a first row, which comes after `taken` steps, with these cells.
pub(crate) fn push_first_row(
    out: &mut Vec<u8>,
    plan: &Plan,
    cells: &[Cell],
    taken: u64,
) -> Result<(), NoMemory>
    ensures { (s : Situation) → cells.now ≡ cells_at s plan.now.columns → OnOk result (out.new.items ≡ out.old.items ++ first_row plan.now (record { number = taken; situation = s })) }
{
    push_first_words(out, plan, taken)?;
    push_first_cells(out, 28, cells)
}

fn open_row(out: &mut Vec<u8>, taken: u64) -> Result<(), NoMemory>
    ensures { OnOk result (out.new.items ≡ out.old.items ++ row_opened taken) }
{
    push_text(out, "<a id=\"s")?;
    push_decimal(out, taken)?;
    push_text(out, "\" href=\"#s")?;
    push_decimal(out, taken)?;
    push_text(out, "\">\n")
}

fn border(above: u64, taken: u64) -> &'static str
    ensures { result.now ≡ border above taken }
{
    if above < taken && taken - above == 1 {
        "h"
    } else {
        "j"
    }
}

fn reply_class(outcome: Result<Reply, Refused>) -> &'static str
    ensures { result.now ≡ reply_class outcome }
{
    match outcome {
        Ok(_) => "t",
        Err(_) => "z",
    }
}

fn push_row_ground(out: &mut Vec<u8>, width: u64, y: u32, class: &str) -> Result<(), NoMemory>
    ensures { OnOk result (out.new.items ≡ out.old.items ++ row_ground width y class.now) }
{
    push_box(out, 0, y as u64, width, 54, "y")?;
    push_line(out, 0, y as u64, width, y as u64, class)
}

fn push_step_number(out: &mut Vec<u8>, plan: &Plan, y: u32, taken: u64) -> Result<(), NoMemory>
    ensures { OnOk result (out.new.items ≡ out.old.items ++ number plan.now.sizes.numbers (y + 13) taken) }
{
    push_number(out, plan.sizes().numbers as u64, y as u64 + 13, taken)
}

fn push_record(
    out: &mut Vec<u8>,
    plan: &Plan,
    y: u32,
    shape: Shape,
    step: Step,
) -> Result<(), NoMemory>
    ensures { OnOk result (out.new.items ≡ out.old.items ++ (text_opened plan.now.sizes.records (y + 13) (codes "s") ++ step_text shape step ++ text_closed)) }
{
    open_text(out, plan.sizes().records as u64, y as u64 + 13, "s")?;
    push_step(out, shape, step)?;
    close_text(out)
}

fn push_reply(
    out: &mut Vec<u8>,
    plan: &Plan,
    y: u32,
    outcome: Result<Reply, Refused>,
) -> Result<(), NoMemory>
    ensures { OnOk result (out.new.items ≡ out.old.items ++ (text_opened plan.now.replies (y + 13) (reply_class outcome) ++ outcome_text outcome ++ text_closed)) }
{
    let class = reply_class(outcome);
    open_text(out, plan.replies() as u64, y as u64 + 13, class)?;
    push_outcome(out, outcome)?;
    close_text(out)
}

// Appends the words at the sides of a row.
fn push_captions(
    out: &mut Vec<u8>,
    plan: &Plan,
    machine: &Machine,
    y: u32,
    seen: &Seen<'_>,
) -> Result<(), NoMemory>
    ensures { OnOk result (out.new.items ≡ out.old.items ++ captions plan.now machine.now.situation.shape y seen.now.number seen.now.step seen.now.outcome) }
{
    push_step_number(out, plan, y, seen.number)?;
    push_record(out, plan, y, machine.shape(), seen.step)?;
    push_reply(out, plan, y, seen.outcome)
}

fn push_plan_row_ground(
    out: &mut Vec<u8>,
    plan: &Plan,
    y: u32,
    above: u64,
    taken: u64,
) -> Result<(), NoMemory>
    ensures { OnOk result (out.new.items ≡ out.old.items ++ row_ground (width_of plan.now) y (border above taken)) }
{
    push_row_ground(out, plan.width(), y, border(above, taken))
}

// Appends the beginning of the row of a step, below that of another.
#[tactic(auto, using(std::proofs::lemmas::List::append_assoc))]
fn push_row_head(
    out: &mut Vec<u8>,
    plan: &Plan,
    machine: &Machine,
    y: u32,
    above: u64,
    seen: &Seen<'_>,
) -> Result<(), NoMemory>
    ensures { OnOk result (out.new.items ≡ out.old.items ++ row_head plan.now machine.now.situation.shape y above seen.now.number machine.now.situation seen.now.step seen.now.outcome seen.now.lines.now) }
{
    open_row(out, seen.number)?;
    push_row_title(out, machine, seen)?;
    push_plan_row_ground(out, plan, y, above, seen.number)?;
    push_captions(out, plan, machine, y, seen)
}

// Appends the end of the row of a step.
fn push_row_end(
    out: &mut Vec<u8>,
    plan: &Plan,
    machine: &Machine,
    y: u32,
    seen: &Seen<'_>,
) -> Result<(), NoMemory>
    ensures { OnOk result (out.new.items ≡ out.old.items ++ row_end plan.now y machine.now.situation seen.now.block seen.now.step seen.now.outcome seen.now.lines.now) }
{
    push_event(out, y, plan.columns(), machine, seen)?;
    push_text(out, "</a>\n")
}

/// Appends the row of the step, below one that comes after `above` steps and has these cells, and returns its own cells.
pub(crate) fn push_row(
    out: &mut Vec<u8>,
    alloc: Global,
    plan: &Plan,
    machine: &Machine,
    y: u32,
    above: u64,
    cells: &[Cell],
    seen: &Seen<'_>,
) -> Result<Vec<Cell>, NoMemory>
    ensures cells { (s : Situation) → cells.now ≡ cells_at s plan.now.columns → IfOk result (λ shown. shown.items ≡ cells_at machine.now.situation plan.now.columns) }
    ensures text { (s : Situation) → cells.now ≡ cells_at s plan.now.columns
        → OnOk result (out.new.items ≡ out.old.items
        ++ row_text plan.now machine.now.situation.shape y (record { number = above; situation = s }) seen.now.number machine.now.situation seen.now.block seen.now.step seen.now.outcome seen.now.lines.now) }
{
    push_row_head(out, plan, machine, y, above, seen)?;
    let shown = push_next_cells(out, alloc, y, cells, machine)?;
    push_row_end(out, plan, machine, y, seen)?;
    Ok(shown)
}

fn push_legend_below(out: &mut Vec<u8>, protocol: Protocol, rows: u32) -> Result<(), NoMemory>
    requires { rows ≤ most_cells }
    ensures { OnOk result (out.new.items ≡ out.old.items ++ legend_text protocol (row_y rows + 18)) }
{
    push_legend(out, protocol, row_y(rows) + 18)
}

/// Appends the end of a sheet with `rows` rows.
pub(crate) fn close_sheet(out: &mut Vec<u8>, protocol: Protocol, rows: u32) -> Result<(), NoMemory>
    requires { rows ≤ most_cells }
    ensures { OnOk result (out.new.items ≡ out.old.items ++ sheet_closed protocol rows) }
{
    push_legend_below(out, protocol, rows)?;
    push_text(out, "</svg>\n")
}
