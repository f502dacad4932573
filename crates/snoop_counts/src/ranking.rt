//! Blocks by how many requests for them were ordered.
ghost use Rattle.std.specs.Prelude.{◌≡◌, ◌+◌, OnOk};
ghost use Rattle.snoop_history.specs.Totals.{capped};
ghost use Rattle.snoop_counts.specs.ByBlock.{ranked};
ghost use Rattle.snoop_counts.specs.Tally.{counter_in};
ghost use Rattle.snoop_counts.specs.declared.count.Count.TheVariants as count;

use crate::count::Count;
use crate::tally::Counters;
use snoop_trace::NoMemory;

/// A block, and how many requests for it were ordered.
#[derive(Clone, Copy)]
pub(crate) struct Ranked {
    pub(crate) block: u32,
    pub(crate) requests: u64,
}

/// How many requests were ordered, by a row of counters; at most the largest `u64`.
pub(crate) fn requests(row: &Counters) -> u64
    ensures { result ≡ capped (counter_in row.now count.GetS + counter_in row.now count.GetM + counter_in row.now count.PutM) }
{
    row.of(Count::GetS)
        .saturating_add(row.of(Count::GetM))
        .saturating_add(row.of(Count::PutM))
}

/// Puts the blocks of most requests first, and of equals the one that comes first.
pub(crate) fn rank(blocks: &mut Vec<Ranked>) -> Result<(), NoMemory>
    ensures { OnOk result (blocks.new.items ≡ ranked blocks.old.items) }
{
    match blocks.sort_by(|one, other| other.requests.cmp(&one.requests)) {
        Ok(()) => Ok(()),
        Err(_) => Err(NoMemory),
    }
}
