//! How wide the parts of a drawing are.
ghost use Rattle.std.specs.Prelude.{◌≡◌};
ghost use Rattle.snoop_svg.specs.Layout.{AreNarrow, sizes_for};

use snoop_draw::values_width;
use snoop_engine::{count_digits, most_stored};
use snoop_trace::{Shape, Step};

/// The sizes of a drawing, in pixels: where the numbers of steps end, their records and the panels begin, how wide a
/// lane, a bus, memory and a reply are.
#[derive(Clone, Copy)]
pub(crate) struct Sizes {
    pub(crate) numbers: u32,
    pub(crate) records: u32,
    pub(crate) panels: u32,
    pub(crate) lane: u32,
    pub(crate) bus: u32,
    pub(crate) memory: u32,
    pub(crate) reply: u32,
}

/// The sizes in which whatever a drawing of the steps has to say finds room.
pub(crate) fn sizes_for(shape: Shape, steps: &[Step]) -> Sizes
    ensures sizes { result ≡ sizes_for shape steps.now }
    ensures narrow { AreNarrow result }
{
    shape.within_limits();
    let values = values_width(shape, steps) as u32;
    let cores = count_digits(shape.cores() as u64) as u32;
    let blocks = count_digits(shape.blocks() as u64) as u32;
    let bytes = count_digits(shape.blocks() as u64 * shape.block_bytes() as u64) as u32;
    let stored = count_digits(most_stored(steps)) as u32;
    let numbers = 12 + 8 * count_digits(steps.len() as u64) as u32;
    let records = numbers + 12;
    Sizes {
        numbers,
        records,
        panels: records + 8 * (4 + cores + bytes + stored) + 16,
        lane: 88 + 8 * (values + blocks),
        bus: 128 + 8 * (values + cores),
        memory: 88 + 8 * values,
        reply: 8 * (23 + cores + stored),
    }
}
