//! The command `draw`: the steps that come of a text, and the drawing of their run.
ghost use Rattle.std.specs.Prelude.{◌≡◌, ◌≢◌, true, Err};
ghost use Rattle.snoop_trace.specs.Output.{BlamesWriter};
ghost use Rattle.snoop_trace.specs.Text.{BlamesReader};
ghost use Rattle.snoop_trace.specs.declared.fault.TextFault.{TextFault};
ghost use Rattle.snoop_trace.specs.declared.fault.TextFault.TheVariants as text_fault;
ghost use Rattle.snoop_draw.specs.Simulated.{Draws, DrawsSteps};

use crate::cells::Style;
use crate::drawing::Drawing;
use crate::fault::DrawFault;
use crate::marks::Charset;
use crate::panels::panels_for;
use crate::size::is_small;
use crate::widths::widths_for;
use snoop_engine::{Choice, Input, SimFault, read_input, show_steps};
use snoop_rules::Protocol;
use snoop_trace::streams::{Sink, Source};
use snoop_trace::{Shape, Step};
use std::alloc::Global;

/// Reads a text to its end, runs the steps that it gives, in order, on a machine at reset for the protocol and the shape, and
/// draws those that are chosen: a row for each, a panel for each block, a column for each core that asks for the block, the bus
/// and memory. All columns are known before the first byte is written, and a drawing of more than a million cells, which
/// are the product of the chosen steps and the columns, one more of each, is refused by `TooLarge`. A step that is refused for
/// lack of memory ends the simulation. Faults are as `DrawFault` and `SimFault` say.
pub fn simulate_drawing<R: Source, W: Sink>(
    alloc: Global,
    reader: &mut R,
    writer: &mut W,
    protocol: Protocol,
    shape: Shape,
    input: Input,
    charset: Charset,
    choice: Choice,
) -> Result<(), DrawFault>
    ensures does { Draws protocol shape input charset choice (R.remaining reader.old) result (W.contents writer.old) (W.contents writer.new) }
    // A refused text leaves the writer as it was, and so does a drawing that is too large.
    ensures unwritten { (fault : TextFault) → result ≡ Err (DrawFault.Simulation (SimFault.Text fault)) → writer.new ≡ writer.old }
    ensures too_large { result ≡ Err DrawFault.TooLarge → writer.new ≡ writer.old }

    // A reader or a writer whose contract rules failure out is never blamed.
    ensures reads { R.never_fails ≡ true → result ≢ Err (DrawFault.Simulation (SimFault.Text text_fault.Read)) }
    ensures writes { W.never_fails ≡ true → result ≢ Err (DrawFault.Simulation SimFault.Write) }
    // Where it is known that none of its reads or writes had failed, it is blamed exactly where one fails, and none is tried again.
    ensures read_blamed { BlamesReader (R.failed reader.old) (R.failed reader.new) (result ≡ Err (DrawFault.Simulation (SimFault.Text text_fault.Read))) }
    ensures blamed { BlamesWriter (W.failed writer.old) (W.failed writer.new) (result ≡ Err (DrawFault.Simulation SimFault.Write)) }
{
    let steps = read_input(alloc, reader, protocol, shape, input)?;
    draw_steps(alloc, writer, protocol, shape, charset, choice, &steps)
}

/// Draws the run of the steps, unless that would be too large.
fn draw_steps<W: Sink>(
    alloc: Global,
    writer: &mut W,
    protocol: Protocol,
    shape: Shape,
    charset: Charset,
    choice: Choice,
    steps: &[Step],
) -> Result<(), DrawFault>
    ensures does { DrawsSteps protocol shape charset choice steps.now result (W.contents writer.old) (W.contents writer.new) }
    ensures too_large { result ≡ Err DrawFault.TooLarge → writer.new ≡ writer.old }
    ensures never_blamed { W.never_fails ≡ true → result ≢ Err (DrawFault.Simulation SimFault.Write) }
    ensures blamed { BlamesWriter (W.failed writer.old) (W.failed writer.new) (result ≡ Err (DrawFault.Simulation SimFault.Write)) }
{
    let panels = panels_for(alloc, shape, steps, choice.block())?;
    if !is_small(choice, steps.len() as u64, &panels) {
        return Err(DrawFault::TooLarge);
    }
    let widths = widths_for(alloc, shape, steps)?;
    let style = Style { charset, widths };
    let mut drawing = Drawing::new(alloc, style, panels, choice);
    show_steps(alloc, writer, protocol, shape, steps, &mut drawing)?;
    Ok(())
}
