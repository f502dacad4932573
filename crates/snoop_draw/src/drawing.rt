//! The drawing of a run: a view.
ghost use Rattle.std.specs.Prelude.{◌≡◌, ◌++◌, [], OnOk};
ghost use Rattle.std.specs.Fmt.{decimal};
ghost use Rattle.std.specs.List.{flat_map};
ghost use Rattle.snoop_model.specs.Pictures.Situation.{reset};
ghost use Rattle.snoop_draw.specs.Cells.{right_text};
ghost use Rattle.snoop_draw.specs.Drawings.{beginning_text, first_words, panel_seen, row_seen, rows_seen, standing_text};
ghost use Rattle.snoop_draw.specs.Rows.{panel_text};
ghost use Rattle.snoop_draw.specs.declared.event.Event.TheVariants.{Before};

use crate::cells::{Style, push_right};
use crate::event::{Event, event_in};
use crate::heading::{push_heading, push_legend};
use crate::panels::Panel;
use crate::row::push_panel;
use snoop_engine::{Choice, Seen, View, push_line};
use snoop_machine::Machine;
use snoop_trace::NoMemory;
use snoop_trace::streams::{push_decimal, push_text};
use std::alloc::Global;
use std::marker::Model;

/// A drawing: how it looks, which panels it has, and which steps are drawn.
#[derive(Drop)]
pub(crate) struct Drawing {
    alloc: Global,
    style: Style,
    panels: Vec<Panel>,
    choice: Choice,
}

impl Model for Drawing {
    ghost use Rattle.snoop_draw.specs.Drawings.{Sheet};

    ghost Value = { Sheet };

    ghost view = { λ d. record { style = d.style; panels = d.panels.items; choice = d.choice } };
}

impl Drawing {
    /// The drawing of this look, with these panels, of the steps that are chosen.
    pub(crate) fn new(alloc: Global, style: Style, panels: Vec<Panel>, choice: Choice) -> Self
        ensures { result ≡ record { style = style; panels = panels.items; choice = choice } }
    {
        Drawing {
            alloc,
            style,
            panels,
            choice,
        }
    }

    fn push_number(&self, out: &mut Vec<u8>, number: u64) -> Result<(), NoMemory>
        ensures { OnOk result (out.new.items ≡ out.old.items ++ right_text self.now.style.widths.number (decimal number)) }
    {
        let mut digits = Vec::new(self.alloc);
        push_decimal(&mut digits, number)?;
        push_right(out, self.style.widths.number, &digits)
    }

    // Appends the first row: the machine after `number` steps.
    fn push_standing(
        &self,
        out: &mut Vec<u8>,
        machine: &Machine,
        number: u64,
    ) -> Result<(), NoMemory>
        ensures { OnOk result (out.new.items ≡ out.old.items ++ standing_text self.now number machine.now.situation) }
    {
        self.push_number(out, number)?;
        push_standing_panels(out, self.alloc, self.style, machine, &self.panels)?;
        push_text(out, first_words(number))
    }

    // Appends the row of the step.
    fn push_row(
        &self,
        out: &mut Vec<u8>,
        machine: &Machine,
        seen: &Seen<'_>,
    ) -> Result<(), NoMemory>
        ensures { OnOk result (out.new.items ≡ out.old.items ++ row_seen self.now machine.now.situation.shape seen.now.number machine.now.situation seen.now.block seen.now.step seen.now.outcome seen.now.lines.now) }
    {
        self.push_number(out, seen.number)?;
        push_panels_seen(out, self.alloc, self.style, machine, seen, &self.panels)?;
        push_text(out, " ")?;
        push_line(out, machine.shape(), seen.step, seen.outcome)
    }

    // Appends what is drawn at the step.
    fn push_rows(
        &self,
        out: &mut Vec<u8>,
        machine: &Machine,
        seen: &Seen<'_>,
    ) -> Result<(), NoMemory>
        ensures { OnOk result (out.new.items ≡ out.old.items ++ rows_seen self.now machine.now.situation.shape seen.now.number machine.now.situation seen.now.block seen.now.step seen.now.outcome seen.now.lines.now) }
    {
        if self.choice.is_first_after(seen.number) {
            return self.push_standing(out, machine, seen.number);
        }
        if self.choice.has_step(seen.block, seen.number) {
            self.push_row(out, machine, seen)
        } else {
            Ok(())
        }
    }

    // Appends what is drawn before any step.
    fn push_beginning(&self, out: &mut Vec<u8>, machine: &Machine) -> Result<(), NoMemory>
        requires { machine.now.situation ≡ reset machine.now.situation.protocol machine.now.situation.shape }
        ensures { OnOk result (out.new.items ≡ out.old.items ++ beginning_text self.now machine.now.situation.protocol machine.now.situation.shape) }
    {
        push_heading(
            out,
            self.alloc,
            self.style,
            machine.protocol(),
            machine.shape(),
            &self.panels,
        )?;
        if self.choice.is_first_after(0) {
            self.push_standing(out, machine, 0)
        } else {
            Ok(())
        }
    }
}

// Appends the panels as they stand.
fn push_standing_panels(
    out: &mut Vec<u8>,
    alloc: Global,
    style: Style,
    machine: &Machine,
    panels: &[Panel],
) -> Result<(), NoMemory>
    ensures { OnOk result (out.new.items ≡ out.old.items ++ flat_map (panel_text style machine.now.situation Before []) panels.now) }
{
    for panel in panels {
        push_panel(out, alloc, style, machine, panel, Event::Before, &[])?;
    }
    Ok(())
}

// Appends what a row shows of a panel at the step.
fn push_panel_seen(
    out: &mut Vec<u8>,
    alloc: Global,
    style: Style,
    machine: &Machine,
    seen: &Seen<'_>,
    panel: &Panel,
) -> Result<(), NoMemory>
    ensures { OnOk result (out.new.items ≡ out.old.items ++ panel_seen style machine.now.situation seen.now.block seen.now.step seen.now.outcome seen.now.lines.now panel.now) }
{
    let event = event_in(panel.block(), seen);
    push_panel(out, alloc, style, machine, panel, event, seen.lines)
}

// Appends what a row shows of the panels at the step.
fn push_panels_seen(
    out: &mut Vec<u8>,
    alloc: Global,
    style: Style,
    machine: &Machine,
    seen: &Seen<'_>,
    panels: &[Panel],
) -> Result<(), NoMemory>
    ensures { OnOk result (out.new.items ≡ out.old.items ++ flat_map (panel_seen style machine.now.situation seen.now.block seen.now.step seen.now.outcome seen.now.lines.now) panels.now) }
{
    for panel in panels {
        push_panel_seen(out, alloc, style, machine, seen, panel)?;
    }
    Ok(())
}

// The last words of the first row.
fn first_words(number: u64) -> &'static str
    ensures { result.now ≡ first_words number }
{
    if number == 0 {
        " at reset\n"
    } else {
        " before\n"
    }
}

impl View for Drawing {
    ghost use Rattle.std.specs.Prelude.{◌≡◌, ◌+◌, length};
    ghost use Rattle.snoop_draw.specs.Drawings.{beginning_text, rows_at};
    ghost use Rattle.snoop_draw.specs.Headings.{legend_text};

    ghost has_seen = { λ first protocol shape frames now. now ≡ first };

    ghost heading = { λ sheet protocol shape. beginning_text sheet protocol shape };

    ghost shows = { λ sheet protocol shape frames frame. rows_at sheet shape (1 + length frames) frame };

    ghost ending = { λ sheet protocol shape frames final. legend_text sheet.style.charset };

    fn begin(&mut self, out: &mut Vec<u8>, machine: &Machine) -> Result<(), NoMemory> {
        self.push_beginning(out, machine)
    }

    fn see(
        &mut self,
        out: &mut Vec<u8>,
        machine: &Machine,
        seen: Seen<'_>,
    ) -> Result<(), NoMemory> {
        self.push_rows(out, machine, &seen)
    }

    fn end(&mut self, out: &mut Vec<u8>, _machine: &Machine) -> Result<(), NoMemory> {
        push_legend(out, self.style.charset)
    }
}
