//! How wide the numbers of a text are.
ghost use Rattle.std.specs.Prelude.{◌≡◌, ◌≤◌};
ghost use Rattle.snoop_engine.specs.Widths.{digits, most_stored, stored};

use itoa::Buffer;
use snoop_trace::{Op, Step};

/// How many decimal digits the number has.
pub fn count_digits(number: u64) -> usize
    ensures value { result ≡ digits number }
    ensures few { result ≤ 20 }
{
    Buffer::new().format(number).len()
}

// The value that the step stores, or 0.
fn stored(step: Step) -> u64
    ensures { result ≡ stored step }
{
    match step {
        Step::Ask {
            core: _,
            block: _,
            word: _,
            op: Op::Store(value),
        } => value,
        _ => 0,
    }
}

/// The largest value that the steps store, or 0.
pub fn most_stored(steps: &[Step]) -> u64
    ensures { result ≡ most_stored steps.now }
{
    let mut most = 0;
    for step in steps {
        most = most.max(stored(*step));
    }
    most
}
