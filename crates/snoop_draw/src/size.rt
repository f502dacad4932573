//! How large a drawing is.
ghost use Rattle.std.specs.Prelude.{◌≡◌, ◌↔◌, ◌-◌, ◌^◌, IsTrue, min};
ghost use Rattle.snoop_draw.specs.Size.{IsSmall, columns_of, steps_within};

use crate::panels::Panel;
use snoop_engine::Choice;

/// The most cells of a drawing.
const MAX_CELLS: u64 = 1_000_000;

// How many of the first `count` steps have a number that is chosen.
fn steps_within(choice: Choice, count: u64) -> u64
    ensures { result ≡ steps_within choice count }
{
    let last = choice.to().min(count);
    if last < choice.from() {
        return 0;
    }
    last - choice.from() + 1
}

/// How many columns the panels have, at most the largest number.
pub fn columns_of(panels: &[Panel]) -> u64
    ensures { result ≡ min (columns_of panels.now) (2 ^ 64 - 1) }
{
    let mut columns: u64 = 0;
    for panel in panels {
        columns = columns.saturating_add(panel.cores().len() as u64 + 2);
    }
    columns
}

/// Whether a drawing of `count` steps with these panels is small enough to be made.
pub(crate) fn is_small(choice: Choice, count: u64, panels: &[Panel]) -> bool
    ensures { IsTrue result ↔ IsSmall choice count panels.now }
{
    let rows = steps_within(choice, count).saturating_add(1);
    let columns = columns_of(panels).saturating_add(1);
    rows.saturating_mul(columns) <= MAX_CELLS
}
