//! What stands above and below the lines of a drawing.
ghost use Rattle.std.specs.Prelude.{◌≡◌, ◌++◌, codes, IfOk, OnOk};
ghost use Rattle.std.specs.Fmt.{decimal};
ghost use Rattle.std.specs.List.{flat_map};
ghost use Rattle.snoop_draw.specs.Headings.{bare, first_line, heading_text, legend_text, name_of_core, named_mark, names_of, protocol_title, second_line, title_line, title_of};

use crate::cells::{Cell, Link, Style, push_cell, push_field, push_left, push_link, push_right};
use crate::marks::{Charset, Mark, push_mark, push_marks};
use crate::panels::Panel;
use snoop_engine::capitals;
use snoop_rules::Protocol;
use snoop_trace::streams::push_text;
use snoop_trace::{NoMemory, Shape};
use std::alloc::Global;
use std::io::Write;

// A cell with nothing around its words.
fn bare() -> Cell
    ensures { result ≡ bare }
{
    Cell {
        mark: Mark::Blank,
        rail: Mark::Blank,
        wire: Mark::Blank,
        next: Mark::Blank,
    }
}

// The name of a core.
fn name_of_core(alloc: Global, core: u32) -> Result<Vec<u8>, NoMemory>
    ensures { IfOk result (λ name. name.items ≡ codes "core " ++ decimal core) }
{
    let mut name = Vec::new(alloc);
    write!(name, "core {core}").map_err(|_| NoMemory)?;
    Ok(name)
}

// Appends the name of a core, where its column is.
fn push_name(out: &mut Vec<u8>, alloc: Global, style: Style, core: u32) -> Result<(), NoMemory>
    ensures { OnOk result (out.new.items ≡ out.old.items ++ name_of_core style core) }
{
    let name = name_of_core(alloc, core)?;
    push_cell(out, style.charset, style.widths.core, bare(), &name)
}

fn push_core_names(
    out: &mut Vec<u8>,
    alloc: Global,
    style: Style,
    cores: &[u32],
) -> Result<(), NoMemory>
    ensures { OnOk result (out.new.items ≡ out.old.items ++ flat_map (name_of_core style) cores.now) }
{
    for core in cores {
        push_name(out, alloc, style, *core)?;
    }
    Ok(())
}

// Appends the names of the columns of a panel.
fn push_names(out: &mut Vec<u8>, alloc: Global, style: Style, panel: &Panel) -> Result<(), NoMemory>
    ensures { OnOk result (out.new.items ≡ out.old.items ++ names_of style panel.now) }
{
    push_text(out, " ")?;
    push_core_names(out, alloc, style, panel.cores())?;
    push_mark(out, style.charset, Mark::Blank)?;
    push_field(out, style.charset, Mark::Blank, style.widths.bus, b"bus")?;
    push_link(out, style.charset, Link::Nothing)?;
    push_field(
        out,
        style.charset,
        Mark::Blank,
        style.widths.memory,
        b"memory",
    )
}

// The block of a panel, and its bytes.
fn title_of(alloc: Global, shape: Shape, block: u32) -> Result<Vec<u8>, NoMemory>
    ensures { IfOk result (λ title. title.items ≡ title_of shape block) }
{
    shape.within_limits();
    let first = block as u64 * shape.block_bytes() as u64;
    let last = first + shape.block_bytes() as u64 - 1;
    let mut title = Vec::new(alloc);
    write!(title, " block {block} (bytes {first} to {last})").map_err(|_| NoMemory)?;
    Ok(title)
}

// Appends the title of a panel, as wide as the names below it.
fn push_title(
    out: &mut Vec<u8>,
    alloc: Global,
    style: Style,
    shape: Shape,
    panel: &Panel,
) -> Result<(), NoMemory>
    ensures { OnOk result (out.new.items ≡ out.old.items ++ title_line style shape panel.now) }
{
    let title = title_of(alloc, shape, panel.block())?;
    let mut names = Vec::new(alloc);
    push_names(&mut names, alloc, style, panel)?;
    push_left(out, names.len(), &title)
}

fn push_titles(
    out: &mut Vec<u8>,
    alloc: Global,
    style: Style,
    shape: Shape,
    panels: &[Panel],
) -> Result<(), NoMemory>
    ensures { OnOk result (out.new.items ≡ out.old.items ++ flat_map (title_line style shape) panels.now) }
{
    for panel in panels {
        push_title(out, alloc, style, shape, panel)?;
    }
    Ok(())
}

fn push_all_names(
    out: &mut Vec<u8>,
    alloc: Global,
    style: Style,
    panels: &[Panel],
) -> Result<(), NoMemory>
    ensures { OnOk result (out.new.items ≡ out.old.items ++ flat_map (names_of style) panels.now) }
{
    for panel in panels {
        push_names(out, alloc, style, panel)?;
    }
    Ok(())
}

// Appends the end of the line of titles.
fn push_protocol(out: &mut Vec<u8>, protocol: Protocol) -> Result<(), NoMemory>
    ensures { OnOk result (out.new.items ≡ out.old.items ++ protocol_title protocol) }
{
    push_text(out, " ")?;
    push_text(out, capitals(protocol))?;
    push_text(out, "\n")
}

/// Appends the lines above the first row: the blocks and the protocol, and the names of the columns.
pub(crate) fn push_heading(
    out: &mut Vec<u8>,
    alloc: Global,
    style: Style,
    protocol: Protocol,
    shape: Shape,
    panels: &[Panel],
) -> Result<(), NoMemory>
    ensures { OnOk result (out.new.items ≡ out.old.items ++ heading_text style protocol shape panels.now) }
{
    push_marks(out, Charset::Ascii, Mark::Blank, style.widths.number)?;
    push_titles(out, alloc, style, shape, panels)?;
    push_protocol(out, protocol)?;
    push_right(out, style.widths.number, b"step")?;
    push_all_names(out, alloc, style, panels)?;
    push_text(out, " line\n")
}

// Appends a mark, a blank, and what it says.
fn push_named(out: &mut Vec<u8>, charset: Charset, mark: Mark, says: &str) -> Result<(), NoMemory>
    ensures { OnOk result (out.new.items ≡ out.old.items ++ named_mark charset mark says.now) }
{
    push_mark(out, charset, mark)?;
    push_text(out, " ")?;
    push_text(out, says)
}

// Appends the marks of what a core may do and what is answered.
fn push_first_line(out: &mut Vec<u8>, charset: Charset) -> Result<(), NoMemory>
    ensures { OnOk result (out.new.items ≡ out.old.items ++ first_line charset) }
{
    push_named(out, charset, Mark::MayWrite, "may write   ")?;
    push_named(out, charset, Mark::MayRead, "may read   ")?;
    push_named(out, charset, Mark::Done, "done at once   ")?;
    push_named(out, charset, Mark::Refused, "refused\n")
}

// Appends the marks of the way of a request.
fn push_second_line(out: &mut Vec<u8>, charset: Charset) -> Result<(), NoMemory>
    ensures { OnOk result (out.new.items ≡ out.old.items ++ second_line charset) }
{
    push_named(out, charset, Mark::Issued, "issued   ")?;
    push_named(out, charset, Mark::AwaitsOrder, "waits for its order   ")?;
    push_named(out, charset, Mark::Ordered, "ordered   ")?;
    push_named(out, charset, Mark::Sends, "sends   ")?;
    push_named(out, charset, Mark::AwaitsData, "waits for data   ")?;
    push_named(out, charset, Mark::Gets, "gets data\n")
}

/// Appends what the marks say.
pub(crate) fn push_legend(out: &mut Vec<u8>, charset: Charset) -> Result<(), NoMemory>
    ensures { OnOk result (out.new.items ≡ out.old.items ++ legend_text charset) }
{
    push_text(out, "\n")?;
    push_first_line(out, charset)?;
    push_second_line(out, charset)
}
