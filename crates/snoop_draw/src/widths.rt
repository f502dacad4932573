//! How wide the columns of a drawing are.
ghost use Rattle.std.specs.Prelude.{◌≡◌, ◌≤◌, IfOk, None, length};
ghost use Rattle.snoop_draw.specs.Panels.{panels_for};
ghost use Rattle.snoop_draw.specs.Widths.{place_width, values_width, widths_for, widths_of};

use crate::panels::panels_for;
use snoop_engine::{count_digits, most_stored};
use snoop_trace::{NoMemory, Shape, Step};
use std::alloc::Global;

/// The widths of the words of the columns, in characters.
#[derive(Clone, Copy)]
pub(crate) struct Widths {
    pub(crate) number: usize,
    pub(crate) core: usize,
    pub(crate) bus: usize,
    pub(crate) memory: usize,
}

/// How many characters the values of a block's words take: each as many as the largest that is stored, and a blank between two.
pub fn values_width(shape: Shape, steps: &[Step]) -> usize
    ensures value { result ≡ values_width shape steps.now }
    ensures few { result ≤ 1343 }
{
    shape.within_limits();
    shape.words() as usize * (count_digits(most_stored(steps)) + 1) - 1
}

// How many characters a place in a queue takes, where `blocks` blocks are asked for.
fn place_width(blocks: u64) -> usize
    ensures value { result ≡ place_width blocks }
    ensures few { result ≤ 22 }
{
    if blocks < 2 {
        0
    } else {
        2 + count_digits(blocks)
    }
}

// How many blocks the steps ask for.
fn count_blocks(alloc: Global, shape: Shape, steps: &[Step]) -> Result<u64, NoMemory>
    ensures { IfOk result (λ blocks. blocks ≡ length (panels_for shape steps.now None)) }
{
    let panels = panels_for(alloc, shape, steps, None)?;
    Ok(panels.len() as u64)
}

// The widths in which whatever a drawing of the steps has to say finds room, where they ask for `blocks` blocks.
fn widths_of(shape: Shape, steps: &[Step], blocks: u64) -> Widths
    ensures { result ≡ widths_of shape steps.now blocks }
{
    let values = values_width(shape, steps);
    let cores = count_digits(shape.cores() as u64);
    Widths {
        number: count_digits(steps.len() as u64).max(4),
        core: (6 + values + place_width(blocks)).max(5 + cores),
        bus: 14 + values + cores,
        memory: 9 + values,
    }
}

/// The widths in which whatever a drawing of the steps has to say finds room.
pub(crate) fn widths_for(alloc: Global, shape: Shape, steps: &[Step]) -> Result<Widths, NoMemory>
    ensures { IfOk result (λ widths. widths ≡ widths_for shape steps.now) }
{
    let blocks = count_blocks(alloc, shape, steps)?;
    Ok(widths_of(shape, steps, blocks))
}
