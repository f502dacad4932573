//! The bands of a drawing.
ghost use Rattle.std.specs.Prelude.{◌≡◌, ◌++◌, OnOk};
ghost use Rattle.snoop_svg.specs.Bands.{band_text, bus_band, class_of, core_band, edge, is_clean, memory_band, part};

use crate::elements::push_box;
use snoop_bus::Open;
use snoop_draw::{Mark, may};
use snoop_engine::answers;
use snoop_rules::{CacheState, MemState, Protocol};
use snoop_trace::NoMemory;

/// What a band says of its column.
#[derive(Clone, Copy)]
pub(crate) enum Band {
    /// Nothing.
    Bare,
    /// The core may write.
    Write,
    /// The core may write, and has not changed the block.
    Clean,
    /// The core may read.
    Read,
    /// A transaction is open.
    Open,
    /// Memory would send its values.
    Sends,
}

impl Band {
    fn class(self) -> &'static str
        ensures { result.now ≡ class_of self }
    {
        match self {
            Band::Bare => "",
            Band::Write => "w",
            Band::Clean => "c",
            Band::Read => "r",
            Band::Open => "b",
            Band::Sends => "m",
        }
    }
}

fn push_edge(out: &mut Vec<u8>, x: u64, y: u64, high: u64, band: Band) -> Result<(), NoMemory>
    ensures { OnOk result (out.new.items ≡ out.old.items ++ edge x y high band) }
{
    match band {
        Band::Write | Band::Clean => push_box(out, x, y, 4, high, "edge"),
        _ => Ok(()),
    }
}

/// Appends a stretch of a band.
pub(crate) fn push_part(
    out: &mut Vec<u8>,
    x: u64,
    y: u64,
    wide: u64,
    high: u64,
    band: Band,
) -> Result<(), NoMemory>
    ensures { OnOk result (out.new.items ≡ out.old.items ++ part x y wide high band) }
{
    match band {
        Band::Bare => Ok(()),
        shown => {
            push_box(out, x, y, wide, high, shown.class())?;
            push_edge(out, x, y, high, shown)
        }
    }
}

/// Appends a band in a row: above as it was in the row above, below as it is.
pub(crate) fn push_band(
    out: &mut Vec<u8>,
    x: u64,
    y: u32,
    wide: u64,
    old: Band,
    new: Band,
) -> Result<(), NoMemory>
    ensures { OnOk result (out.new.items ≡ out.old.items ++ band_text x y wide old new) }
{
    if old.class() == new.class() {
        return push_part(out, x, y as u64, wide, 54, new);
    }
    push_part(out, x, y as u64, wide, 36, old)?;
    push_part(out, x, y as u64 + 36, wide, 18, new)
}

fn is_clean(state: CacheState) -> bool
    ensures { result ≡ is_clean state }
{
    matches!(&state, CacheState::E | CacheState::EiA)
}

/// The band of a core in this state.
pub(crate) fn core_band(protocol: Protocol, state: CacheState) -> Band
    ensures { result ≡ core_band protocol state }
{
    match may(protocol, state) {
        Mark::MayWrite => {
            if is_clean(state) {
                Band::Clean
            } else {
                Band::Write
            }
        }
        Mark::MayRead => Band::Read,
        _ => Band::Bare,
    }
}

/// The band of the bus.
pub(crate) fn bus_band(opened: Option<Open>) -> Band
    ensures { result ≡ bus_band opened }
{
    match opened {
        None => Band::Bare,
        Some(_) => Band::Open,
    }
}

/// The band of memory.
pub(crate) fn memory_band(state: Option<MemState>) -> Band
    ensures { result ≡ memory_band state }
{
    match state {
        Some(state) if answers(state) => Band::Sends,
        _ => Band::Bare,
    }
}
