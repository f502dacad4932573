//! Counters of the rows of the tables.
ghost use Rattle.std.specs.Prelude.{◌≡◌, ◌<◌, ◌+◌, ◌++◌, ◌∷◌, [], List, get_or, set};
ghost use Rattle.snoop_history.specs.Totals.{capped};
ghost use Rattle.snoop_engine.specs.Tallies.{Tallies, core_place, counts_in, memory_counts_in, memory_place};
ghost use Rattle.snoop_engine.specs.declared.taken.Taken.{Taken as Line};

use crate::taken::Taken;
use snoop_rules::{CacheEvent, CacheState, MemEvent, MemState};

/// How often each row was taken: a counter for each pair of state and event, of the cache table and
/// then of the memory tables.
#[derive(Clone, Copy)]
pub(crate) struct Tally {
    counters: [u64; 203],
}

fn core_place(state: CacheState, event: CacheEvent) -> usize
    ensures place { result ≡ core_place state event }
    ensures inside { result < 143 }
{
    state as usize * 11 + event as usize
}

fn memory_place(state: MemState, event: MemEvent) -> usize
    ensures place { result ≡ memory_place state event }
    ensures inside { result < 203 }
{
    143 + state as usize * 6 + event as usize
}

impl Tally {
    /// Nothing is counted yet.
    #[tactic(auto, using(crate::proofs::TallyLemmas::tallies_none))]
    pub(crate) fn new() -> Self
        ensures { Tallies result.counters [] }
    {
        Tally { counters: [0; 203] }
    }

    // Counts one more; the counter stops at the largest `u64`.
    fn count(&mut self, place: usize)
        requires { place < 203 }
        ensures { self.new.counters ≡ set self.old.counters place (capped (get_or self.old.counters place 0 + 1)) }
    {
        self.counters[place] = self.counters[place].saturating_add(1);
    }

    // Counts the row of a line, if it has one.
    fn add(&mut self, line: Taken)
        ensures { (lines : List Line) → Tallies self.old.counters lines → Tallies self.new.counters (lines ++ line ∷ []) }
    {
        match line {
            Taken::Core {
                event: Some(event),
                before,
                ..
            } => self.count(core_place(before, event)),
            Taken::Memory { event, before, .. } => self.count(memory_place(before, event)),
            Taken::Core { event: None, .. } | Taken::Nobody { .. } => {}
        }
    }

    /// Counts the rows of the lines of a step.
    pub(crate) fn add_all(&mut self, more: &[Taken])
        ensures { (lines : List Line) → Tallies self.old.counters lines → Tallies self.new.counters (lines ++ more.now) }
    {
        for line in more {
            self.add(*line);
        }
    }

    /// How often cores have taken the row.
    pub(crate) fn of_cores(&self, state: CacheState, event: CacheEvent) -> u64
        ensures { result ≡ counts_in self.now.counters state event }
    {
        self.counters[core_place(state, event)]
    }

    /// How often memory has taken the row.
    pub(crate) fn of_memory(&self, state: MemState, event: MemEvent) -> u64
        ensures { result ≡ memory_counts_in self.now.counters state event }
    {
        self.counters[memory_place(state, event)]
    }
}
