//! How wide the columns of a text's tables are.
ghost use Rattle.std.specs.Prelude.{◌≡◌};
ghost use Rattle.snoop_states.specs.Widths.{widths_of};

use snoop_engine::{count_digits, most_stored};
use snoop_trace::{Shape, Step};

/// Room for the values of a block's words, each with a blank before it, and for the number of a step.
#[derive(Clone, Copy)]
pub(crate) struct Widths {
    pub(crate) values: u16,
    pub(crate) number: u16,
}

/// The widths of a text's tables.
pub(crate) fn widths_of(shape: Shape, steps: &[Step]) -> Widths
    ensures { result ≡ widths_of shape steps.now }
{
    shape.within_limits();
    let value = count_digits(most_stored(steps)) as u16;
    let number = count_digits(steps.len() as u64) as u16;
    Widths {
        values: shape.words() as u16 * (value + 1),
        number: number.max(4),
    }
}
