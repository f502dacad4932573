//! A core's work, and how a turn of it ends.
ghost use Rattle.std.specs.Prelude.{◌≡◌};
ghost use Rattle.snoop_bench.specs.Works.{as_asked, StoresNumber};

use snoop_trace::{Op, Work};
use thiserror::Error;

/// How an eviction ended.
#[derive(Clone, Copy, Debug, PartialEq, Eq)]
pub enum Evicted {
    /// The core did not hold the block.
    Absent,
    /// The copy was given up without a request.
    Gone,
    /// A PutM was ordered and answered.
    Put,
}

/// What one turn of a core did with its work.
#[derive(Clone, Copy, Debug, PartialEq, Eq)]
pub enum Turn {
    /// The work is still under way.
    Going,
    /// The load is over, with this value.
    Loaded(u64),
    /// The store is over.
    Stored,
    /// The eviction is over.
    Evicted(Evicted),
}

/// Why a turn was refused: the first cause that holds. Nothing has changed.
#[derive(Clone, Copy, Debug, PartialEq, Eq, Error)]
pub enum AdvanceFault {
    /// The core is outside the shape.
    #[error("NoCore")]
    NoCore,
    /// The block is outside the shape, or the word of a load or a store is.
    #[error("NoBlock")]
    NoBlock,
    /// The core has this other work under way.
    #[error("Other")]
    Other(Work),
    /// Out of memory.
    #[error("NoMemory")]
    NoMemory,
}

/// The work as it is asked: an eviction is of no word, and its word is 0.
pub(crate) fn as_asked(work: Work) -> Work
    ensures is { result ≡ as_asked work }
    ensures number { StoresNumber result.op }
{
    let word = match work.op {
        Op::Load | Op::Store(_) => work.word,
        Op::Evict => 0,
    };
    Work { word, ..work }
}
