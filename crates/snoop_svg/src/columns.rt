//! The columns of a drawing, and where they stand.
ghost use Rattle.std.specs.Prelude.{◌≡◌, ◌++◌, ◌+◌, ◌<◌, ◌≤◌, ◌*◌, ◌^◌, ◌∷◌, [], length, IfOk, OnOk};
ghost use Rattle.snoop_draw.specs.Size.{columns_of};
ghost use Rattle.snoop_svg.specs.Layout.{AreNarrow, after_lanes, after_panel, after_panels, bus_column, column_for, columns_from, is_for, lanes_from, memory_column, panel_columns};

use crate::sizes::Sizes;
use snoop_draw::Panel;
use snoop_trace::NoMemory;
use std::alloc::Global;

/// What a column shows: what a core has of a block, or the bus, or memory.
#[derive(Clone, Copy)]
pub(crate) enum Subject {
    Core { block: u32, core: u32 },
    Bus { block: u32 },
    Memory { block: u32 },
}

/// A column: what it shows, where its panel begins, and where it begins and ends itself.
#[derive(Clone, Copy)]
pub(crate) struct Column {
    pub(crate) subject: Subject,
    pub(crate) start: u32,
    pub(crate) x: u32,
    pub(crate) end: u32,
}

impl Subject {
    // Whether they are the same.
    fn is(self, other: Subject) -> bool
        ensures { result ≡ is_for other self }
    {
        match self {
            Subject::Core { block, core } => match other {
                Subject::Core {
                    block: of,
                    core: named,
                } => block == of && core == named,
                _ => false,
            },
            Subject::Bus { block } => match other {
                Subject::Bus { block: of } => block == of,
                _ => false,
            },
            Subject::Memory { block } => match other {
                Subject::Memory { block: of } => block == of,
                _ => false,
            },
        }
    }
}

/// The first column of this subject.
pub(crate) fn column_for(columns: &[Column], subject: Subject) -> Option<Column>
    ensures { result ≡ column_for subject columns.now }
{
    for column in columns {
        if column.subject.is(subject) {
            return Some(*column);
        }
    }
    None
}

fn add(columns: &mut Vec<Column>, column: Column) -> Result<(), NoMemory>
    ensures { OnOk result (columns.new.items ≡ columns.old.items ++ column ∷ []) }
{
    match columns.push(column) {
        Ok(()) => Ok(()),
        Err(_) => Err(NoMemory),
    }
}

// Adds a lane for each core of a panel that begins at `start`, and returns where the next lane would begin.
fn add_lanes(
    columns: &mut Vec<Column>,
    sizes: Sizes,
    block: u32,
    start: u32,
    cores: &[u32],
) -> Result<u32, NoMemory>
    requires narrow { AreNarrow sizes }
    requires room { start + 12000 * length cores.now < 2 ^ 32 }
    ensures columns { OnOk result (columns.new.items ≡ columns.old.items ++ lanes_from sizes block start start cores.now) }
    ensures next { IfOk result (λ next. next ≡ after_lanes sizes start cores.now) }
{
    let mut x = start;
    for core in cores {
        let subject = Subject::Core { block, core: *core };
        let end = x + sizes.lane;
        add(
            columns,
            Column {
                subject,
                start,
                x,
                end,
            },
        )?;
        x = end + 8;
    }
    Ok(x)
}

fn bus_column(sizes: Sizes, block: u32, start: u32, next: u32) -> Column
    requires narrow { AreNarrow sizes }
    requires room { next + 12000 < 2 ^ 32 }
    ensures { result ≡ bus_column sizes block start next }
{
    let x = next + 20;
    Column {
        subject: Subject::Bus { block },
        start,
        x,
        end: x + sizes.bus,
    }
}

fn memory_column(sizes: Sizes, block: u32, start: u32, bus_end: u32) -> Column
    requires narrow { AreNarrow sizes }
    requires room { bus_end + 11900 < 2 ^ 32 }
    ensures { result ≡ memory_column sizes block start bus_end }
{
    let x = bus_end + 28;
    Column {
        subject: Subject::Memory { block },
        start,
        x,
        end: x + sizes.memory,
    }
}

// Adds the columns of a panel that begins at `start`, and returns where a further panel would begin.
#[tactic(auto, using(crate::proofs::LayoutLemmas::after_lanes_near))]
fn add_panel(
    columns: &mut Vec<Column>,
    sizes: Sizes,
    start: u32,
    panel: &Panel,
) -> Result<u32, NoMemory>
    requires narrow { AreNarrow sizes }
    requires room { start + 12000 * (length panel.now.cores + 2) < 2 ^ 32 }
    ensures columns { OnOk result (columns.new.items ≡ columns.old.items ++ panel_columns sizes start panel.now) }
    ensures next { IfOk result (λ next. next ≡ after_panel sizes start panel.now) }
{
    let block = panel.block();
    let next = add_lanes(columns, sizes, block, start, panel.cores())?;
    let bus = bus_column(sizes, block, start, next);
    let memory = memory_column(sizes, block, start, bus.end);
    add(columns, bus)?;
    add(columns, memory)?;
    Ok(memory.end + 36)
}

/// The columns of panels, the first of which begins at `start`, and where a further panel would begin.
pub(crate) fn columns_for(
    alloc: Global,
    sizes: Sizes,
    start: u32,
    panels: &[Panel],
) -> Result<(Vec<Column>, u32), NoMemory>
    requires narrow { AreNarrow sizes }
    requires room { start + 12000 * columns_of panels.now < 2 ^ 32 }
    ensures columns { IfOk result (λ made. made.0.items ≡ columns_from sizes start panels.now) }
    ensures next { IfOk result (λ made. made.1 ≡ after_panels sizes start panels.now) }
{
    let mut columns = Vec::new(alloc);
    let mut x = start;
    for panel in panels {
        x = add_panel(&mut columns, sizes, x, panel)?;
    }
    Ok((columns, x))
}
