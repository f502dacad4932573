//! Which panels a drawing has, and which columns.
ghost use Rattle.std.specs.Prelude.{◌≡◌, ◌++◌, List, IfOk, OnOk};
ghost use Rattle.snoop_trace.specs.declared.step.Step.{Step as Given};
ghost use Rattle.snoop_engine.specs.Askers.{all_askers};
ghost use Rattle.snoop_draw.specs.Panels.{panel_with, panels_for};

use snoop_engine::Askers;
use snoop_trace::{NoMemory, Shape, Step};
use std::alloc::Global;
use std::marker::Model;

/// What is drawn of a block: a column for each core that asks for it, the bus, and memory.
#[derive(Debug, Drop)]
pub struct Panel {
    block: u32,
    cores: Vec<u32>,
}

impl Model for Panel {
    ghost use Rattle.snoop_draw.specs.Panels.{Panel as Drawn};

    ghost Value = { Drawn };

    ghost view = { λ p. record { block = p.block; cores = p.cores.items } };
}

impl Panel {
    /// The block of the panel.
    pub fn block(&self) -> u32
        ensures { result ≡ self.now.block }
    {
        self.block
    }

    /// The cores that have a column, rising.
    pub fn cores(&self) -> &[u32]
        ensures { result.now ≡ self.now.cores }
    {
        &self.cores
    }
}

// Appends the panel, if it has a column of a core.
fn push_panel(panels: &mut Vec<Panel>, block: u32, cores: Vec<u32>) -> Result<(), NoMemory>
    ensures { OnOk result (panels.new.items ≡ panels.old.items ++ panel_with block cores.items) }
{
    if cores.is_empty() {
        return Ok(());
    }
    match panels.push(Panel { block, cores }) {
        Ok(()) => Ok(()),
        Err(_) => Err(NoMemory),
    }
}

// A panel for each block that a core asks for.
fn all_panels(alloc: Global, shape: Shape, askers: &Askers) -> Result<Vec<Panel>, NoMemory>
    ensures { (steps : List Given) → askers.now ≡ all_askers shape steps → IfOk result (λ panels. panels.items ≡ panels_for shape steps None) }
{
    let mut panels = Vec::new(alloc);
    for block in 0..shape.blocks() {
        let cores = askers.cores(block)?;
        push_panel(&mut panels, block, cores)?;
    }
    Ok(panels)
}

// The panel of one block, if there is this block.
fn one_panel(
    alloc: Global,
    shape: Shape,
    askers: &Askers,
    block: u32,
) -> Result<Vec<Panel>, NoMemory>
    ensures { (steps : List Given) → askers.now ≡ all_askers shape steps → IfOk result (λ panels. panels.items ≡ panels_for shape steps (Some block)) }
{
    let mut panels = Vec::new(alloc);
    if block >= shape.blocks() {
        return Ok(panels);
    }
    let cores = askers.cores(block)?;
    match panels.push(Panel { block, cores }) {
        Ok(()) => Ok(panels),
        Err(_) => Err(NoMemory),
    }
}

/// The panels of a drawing of the steps: of one block, or of all that a core asks for. None where the one block is outside the
/// shape; `NoMemory` where a growth was refused.
pub fn panels_for(
    alloc: Global,
    shape: Shape,
    steps: &[Step],
    block: Option<u32>,
) -> Result<Vec<Panel>, NoMemory>
    ensures { IfOk result (λ panels. panels.items ≡ panels_for shape steps.now block) }
{
    let askers = Askers::of(alloc, shape, steps)?;
    match block {
        None => all_panels(alloc, shape, &askers),
        Some(block) => one_panel(alloc, shape, &askers, block),
    }
}
