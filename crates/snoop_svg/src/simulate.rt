//! The command `draw` as SVG: the steps that come of a text, and the drawing of their run.
ghost use Rattle.std.specs.Prelude.{◌≡◌, ◌≢◌, true, Err, IfOk, OnErr, OnOk};
ghost use Rattle.snoop_trace.specs.Output.{BlamesWriter};
ghost use Rattle.snoop_trace.specs.Text.{BlamesReader};
ghost use Rattle.snoop_trace.specs.declared.fault.TextFault.{TextFault};
ghost use Rattle.snoop_trace.specs.declared.fault.TextFault.TheVariants as text_fault;
ghost use Rattle.snoop_engine.specs.SimulatedView.{BeginsToShow, ShowsRun};
ghost use Rattle.snoop_engine.specs.Chosen.{Chosen};
ghost use Rattle.snoop_draw.specs.Panels.{panels_for};
ghost use Rattle.snoop_svg.specs.Drawings.{drawing_text, plan_for};
ghost use Rattle.snoop_svg.specs.Simulated.{Draws, DrawsSteps, IsPlanOf, IsPlanned};
ghost use Rattle.snoop_svg.specs.Size.{IsSmall};

use crate::columns::columns_for;
use crate::drawing::Drawing;
use crate::paper::Paper;
use crate::plan::Plan;
use crate::rows::rows_of;
use crate::size::is_small;
use crate::sizes::sizes_for;
use snoop_draw::{DrawFault, Panel, panels_for};
use snoop_engine::{Choice, Input, SimFault, read_input, show_steps};
use snoop_rules::Protocol;
use snoop_trace::streams::{Sink, Source};
use snoop_trace::{NoMemory, Shape, Step, WriteFault};
use std::alloc::Global;

/// Reads a text to its end, runs the steps that it gives, in order, on a machine at reset for the protocol and the shape, and
/// draws those that are chosen, as SVG or as a page with SVGs: a row for each, a panel for each block, a column for each
/// core that asks for the block, the bus and memory. Rows and columns are counted before the first byte is written, for which
/// the steps are run once more, and a drawing of more than 20,000 cells, which are the product of the rows and the
/// columns, one more of each, is refused by `TooLarge`. A step that is refused for lack of memory ends the simulation. Faults
/// are as `DrawFault` and `SimFault` say.
pub fn simulate_svg<R: Source, W: Sink>(
    alloc: Global,
    reader: &mut R,
    writer: &mut W,
    protocol: Protocol,
    shape: Shape,
    input: Input,
    choice: Choice,
    paper: Paper,
) -> Result<(), DrawFault>
    ensures does { Draws protocol shape input choice paper (R.remaining reader.old) result (W.contents writer.old) (W.contents writer.new) }
    // A refused text leaves the writer as it was, and so does a drawing that is too large.
    ensures unwritten { (fault : TextFault) → result ≡ Err (DrawFault.Simulation (SimFault.Text fault)) → writer.new ≡ writer.old }
    ensures too_large { result ≡ Err DrawFault.TooLarge → writer.new ≡ writer.old }

    // A reader or a writer whose contract rules failure out is never blamed.
    ensures reads { R.never_fails ≡ true → result ≢ Err (DrawFault.Simulation (SimFault.Text text_fault.Read)) }
    ensures writes { W.never_fails ≡ true → result ≢ Err (DrawFault.Simulation SimFault.Write) }
    // Where it is known that none of its reads or writes had failed, it is blamed exactly where one fails, and none is tried again.
    ensures read_blamed { BlamesReader (R.failed reader.old) (R.failed reader.new) (result ≡ Err (DrawFault.Simulation (SimFault.Text text_fault.Read))) }
    ensures blamed { BlamesWriter (W.failed writer.old) (W.failed writer.new) (result ≡ Err (DrawFault.Simulation SimFault.Write)) }
{
    let steps = read_input(alloc, reader, protocol, shape, input)?;
    draw_steps(alloc, writer, protocol, shape, choice, paper, &steps)
}

// The plan of a drawing that is small enough.
fn plan_for(
    alloc: Global,
    shape: Shape,
    choice: Choice,
    paper: Paper,
    steps: &[Step],
    rows: u64,
    panels: &[Panel],
) -> Result<Plan, NoMemory>
    requires panels { panels.now ≡ panels_for shape steps.now choice.block }
    requires small { IsSmall rows panels.now }
    ensures { IfOk result (λ plan. plan ≡ plan_for shape choice paper steps.now rows) }
{
    let sizes = sizes_for(shape, steps);
    let (columns, replies) = columns_for(alloc, sizes, sizes.panels, panels)?;
    Ok(Plan::new(sizes, columns, replies, choice, rows, paper))
}

// The plan of the drawing of these steps, unless it would be too large.
fn plan_steps(
    alloc: Global,
    protocol: Protocol,
    shape: Shape,
    choice: Choice,
    paper: Paper,
    steps: &[Step],
) -> Result<Option<Plan>, NoMemory>
    ensures { IfOk result (IsPlanned protocol shape choice paper steps.now) }
{
    let panels = panels_for(alloc, shape, steps, choice.block())?;
    let rows = rows_of(alloc, protocol, shape, choice, steps)?;
    if !is_small(rows, &panels) {
        return Ok(None);
    }
    let plan = plan_for(alloc, shape, choice, paper, steps, rows, &panels)?;
    Ok(Some(plan))
}

/// Draws the run of the steps by their plan.
fn draw_planned<W: Sink>(
    alloc: Global,
    writer: &mut W,
    protocol: Protocol,
    shape: Shape,
    steps: &[Step],
    plan: Plan,
) -> Result<(), WriteFault>
    ensures ok { (choice : Chosen) (paper : Paper) → IsPlanOf protocol shape choice paper steps.now plan → OnOk result (ShowsRun protocol shape (drawing_text protocol shape choice paper) steps.now (W.contents writer.old) (W.contents writer.new)) }
    ensures front { (choice : Chosen) (paper : Paper) → IsPlanOf protocol shape choice paper steps.now plan → OnErr result (BeginsToShow protocol shape (drawing_text protocol shape choice paper) steps.now (W.contents writer.old) (W.contents writer.new)) }
    ensures never_blamed { W.never_fails ≡ true → result ≢ Err WriteFault.Write }
    ensures blamed { BlamesWriter (W.failed writer.old) (W.failed writer.new) (result ≡ Err WriteFault.Write) }
{
    let mut drawing = Drawing::new(alloc, plan);
    show_steps(alloc, writer, protocol, shape, steps, &mut drawing)
}

/// Draws the run of the steps, unless that would be too large.
fn draw_steps<W: Sink>(
    alloc: Global,
    writer: &mut W,
    protocol: Protocol,
    shape: Shape,
    choice: Choice,
    paper: Paper,
    steps: &[Step],
) -> Result<(), DrawFault>
    ensures does { DrawsSteps protocol shape choice paper steps.now result (W.contents writer.old) (W.contents writer.new) }
    ensures too_large { result ≡ Err DrawFault.TooLarge → writer.new ≡ writer.old }
    ensures never_blamed { W.never_fails ≡ true → result ≢ Err (DrawFault.Simulation SimFault.Write) }
    ensures blamed { BlamesWriter (W.failed writer.old) (W.failed writer.new) (result ≡ Err (DrawFault.Simulation SimFault.Write)) }
{
    let Some(plan) = plan_steps(alloc, protocol, shape, choice, paper, steps)? else {
        return Err(DrawFault::TooLarge);
    };
    draw_planned(alloc, writer, protocol, shape, steps, plan)?;
    Ok(())
}
