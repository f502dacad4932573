//! How large a drawing is.
ghost use Rattle.std.specs.Prelude.{◌↔◌, IsTrue};
ghost use Rattle.snoop_svg.specs.Size.{IsSmall};

use snoop_draw::{Panel, columns_of};

/// The most cells of a drawing.
pub(crate) const MAX_CELLS: u32 = 20_000;

/// Whether a drawing of `rows` rows with these panels is small enough to be made.
pub(crate) fn is_small(rows: u64, panels: &[Panel]) -> bool
    ensures { IsTrue result ↔ IsSmall rows panels.now }
{
    let columns = columns_of(panels).saturating_add(1);
    rows.saturating_add(1).saturating_mul(columns) <= MAX_CELLS as u64
}
