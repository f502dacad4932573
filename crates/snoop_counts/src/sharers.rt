//! For which cores something of each block, or each word, was counted.
ghost use Rattle.std.specs.Prelude.{◌≡◌, ◌<◌, ◌≤◌, ◌++◌, ◌∷◌, [], ℕ, List, IfOk, OnOk};
ghost use Rattle.snoop_counts.specs.Sharers.{HasMarked, sharers, sharing_fields};
ghost use Rattle.snoop_counts.specs.declared.count.Count.{Count as Counted};
ghost use Rattle.snoop_counts.specs.declared.count.Count.TheVariants.{Loads, Stores};
ghost use Rattle.snoop_counts.specs.declared.count.Happening.{Happening as Seen};
ghost use Rattle.snoop_counts.specs.declared.count.Subjects.{Subjects as Whose};

use crate::count::{Count, Happening, Subjects};
use crate::counted::{counts, subject_of};
use snoop_blocks::{BlockTable, CoreSet};
use snoop_trace::NoMemory;
use snoop_trace::streams::{push_byte, push_decimal};
use std::alloc::Global;

/// For each block, or each word, the cores for which this count has counted something of it.
#[derive(Drop)]
pub(crate) struct Sharers {
    subjects: Subjects,
    count: Count,
    sets: BlockTable<CoreSet>,
}

impl Sharers {
    /// Nothing is counted yet, for `many` subjects.
    pub(crate) fn new(
        alloc: Global,
        subjects: Subjects,
        count: Count,
        many: u32,
    ) -> Result<Self, NoMemory>
        ensures { IfOk result (HasMarked subjects count many []) }
    {
        match BlockTable::new(alloc, many, CoreSet::empty()) {
            Ok(sets) => Ok(Sharers {
                subjects,
                count,
                sets,
            }),
            Err(_) => Err(NoMemory),
        }
    }

    /// Marks the core and the subject of what has happened, if it is counted.
    pub(crate) fn add(&mut self, happening: &Happening)
        ensures { (whose : Whose) (counted : Counted) (many : ℕ) (seen : List Seen) → HasMarked whose counted many seen self.old → HasMarked whose counted many (seen ++ happening.now ∷ []) self.new }
    {
        if !counts(self.count, happening) {
            return;
        }
        let Some(subject) = subject_of(self.subjects, self.count, happening) else {
            return;
        };
        let Some(core) = subject_of(Subjects::Cores, self.count, happening) else {
            return;
        };
        self.sets.insert(subject, core);
    }

    /// How many of the first `cores` cores something of the subject was counted for.
    pub(crate) fn of(&self, subject: u32, cores: u32) -> u64
        ensures { (whose : Whose) (counted : Counted) (many : ℕ) (seen : List Seen) → HasMarked whose counted many seen self.now → subject < many → cores ≤ 256 → result ≡ sharers whose counted cores seen subject }
    {
        match self.sets.get(subject) {
            None => 0,
            Some(set) => set.count(cores) as u64,
        }
    }
}

/// Appends three numbers, a comma before each: for how many of the first `cores` cores something of the subject was counted, how
/// many performed a load of it, and how many a store.
pub(crate) fn push_sharing(
    out: &mut Vec<u8>,
    all: &Sharers,
    readers: &Sharers,
    writers: &Sharers,
    subject: u32,
    cores: u32,
) -> Result<(), NoMemory>
    requires { cores ≤ 256 }
    ensures { (whose : Whose) (counted : Counted) (many : ℕ) (seen : List Seen) → HasMarked whose counted many seen all.now → HasMarked whose Loads many seen readers.now
        → HasMarked whose Stores many seen writers.now → subject < many → OnOk result (out.new.items ≡ out.old.items ++ sharing_fields whose counted cores seen subject) }
{
    push_byte(out, b',')?;
    push_decimal(out, all.of(subject, cores))?;
    push_byte(out, b',')?;
    push_decimal(out, readers.of(subject, cores))?;
    push_byte(out, b',')?;
    push_decimal(out, writers.of(subject, cores))
}
