//! Counters, a row of them for each core, block or word, or one for the machine.
ghost use Rattle.std.specs.Prelude.{◌≡◌, ◌<◌, [], ℕ, List, IfOk, IsSomeAnd, None, Ok};
ghost use Rattle.snoop_model.specs.declared.replies.Reply.{Reply as Answer};
ghost use Rattle.snoop_trace.specs.declared.step.Step.{Step as Given};
ghost use Rattle.snoop_counts.specs.Counted.{counted_of};
ghost use Rattle.snoop_counts.specs.Tally.{HasCounted, IsRowOf, counter_in, empty_row, of_lines, of_operations, of_requests, of_responses, of_rows, own_raised, raised, raised_all, raised_by, raised_if, raised_row, tried};
ghost use Rattle.snoop_counts.specs.declared.count.Count.{Count as Counted};
ghost use Rattle.snoop_counts.specs.declared.count.Happening.{Happening};
ghost use Rattle.snoop_counts.specs.declared.count.Happening.TheVariants.{Line};
ghost use Rattle.snoop_counts.specs.declared.count.Subjects.{Subjects};

use crate::count::{Count, Happening, Subjects};
use crate::counted::{counts, has_some_row, subject_of};
use crate::counts::Counts;
use snoop_blocks::{BlockTable, Change};
use snoop_engine::Taken;
use snoop_history::Item;
use snoop_trace::NoMemory;
use std::alloc::Global;

/// A counter for each count.
#[derive(Clone, Copy)]
pub(crate) struct Counters {
    counters: [u64; 31],
}

impl Counters {
    // Nothing is counted yet.
    fn none() -> Counters
        ensures { result ≡ empty_row }
    {
        Counters { counters: [0; 31] }
    }

    // Counts one more; the counter stops at the largest `u64`.
    #[inline(always)]
    fn raise(&mut self, count: Count)
        ensures { self.new ≡ raised_row count self.old }
    {
        let place = count as usize;
        self.counters[place] = self.counters[place].saturating_add(1);
    }

    // Counts the happening by this count, if it counts it.
    #[inline(always)]
    fn raise_if(&mut self, count: Count, happening: &Happening)
        ensures { self.new ≡ raised_if happening.now self.old count }
    {
        if counts(count, happening) {
            self.raise(count);
        }
    }

    // Counts an operation.
    fn raise_operation(&mut self, happening: &Happening)
        ensures { self.new ≡ raised_all of_operations happening.now self.old }
    {
        self.raise_if(Count::Loads, happening);
        self.raise_if(Count::LoadHits, happening);
        self.raise_if(Count::Stores, happening);
        self.raise_if(Count::StoreHits, happening);
        self.raise_if(Count::Operations, happening);
    }

    // Counts a request that was ordered.
    fn raise_request(&mut self, happening: &Happening)
        ensures { self.new ≡ raised_all of_requests happening.now self.old }
    {
        self.raise_if(Count::GetS, happening);
        self.raise_if(Count::GetM, happening);
        self.raise_if(Count::PutM, happening);
    }

    // Counts a response, for whom it was sent to.
    fn raise_response(&mut self, happening: &Happening)
        ensures { self.new ≡ raised_all of_responses happening.now self.old }
    {
        self.raise_if(Count::FromMemory, happening);
        self.raise_if(Count::FromCaches, happening);
        self.raise_if(Count::Writebacks, happening);
        self.raise_if(Count::Clean, happening);
        self.raise_if(Count::Stale, happening);
    }

    // Counts the line of a step that was taken, where no cause of a miss is given.
    fn raise_row(&mut self, happening: &Happening, line: Taken)
        requires { (step : Given) × ((answer : Answer) × (happening.now ≡ Line step (Ok answer) line None)) }
        ensures { self.new ≡ raised_all of_rows happening.now self.old }
    {
        self.raise(Count::Lines);
        if has_some_row(line) {
            self.raise_if(Count::Misses, happening);
            self.raise_if(Count::Upgrades, happening);
            self.raise_if(Count::UpgradesLost, happening);
            self.raise_if(Count::Invalidated, happening);
            self.raise_if(Count::Taken, happening);
            self.raise_if(Count::Downgraded, happening);
            self.raise_if(Count::Overtaken, happening);
        }
    }

    // Counts any line, for whom it names.
    fn raise_line(&mut self, happening: &Happening)
        ensures { self.new ≡ raised_all of_lines happening.now self.old }
    {
        self.raise_if(Count::Lines, happening);
        self.raise_if(Count::Misses, happening);
        self.raise_if(Count::Upgrades, happening);
        self.raise_if(Count::UpgradesLost, happening);
        self.raise_if(Count::Invalidated, happening);
        self.raise_if(Count::Taken, happening);
        self.raise_if(Count::Downgraded, happening);
        self.raise_if(Count::Overtaken, happening);
        self.raise_if(Count::Cold, happening);
        self.raise_if(Count::GivenUp, happening);
        self.raise_if(Count::TrueSharing, happening);
        self.raise_if(Count::FalseSharing, happening);
        self.raise_if(Count::Stalled, happening);
        self.raise_if(Count::BusTaken, happening);
        self.raise_if(Count::NothingWaiting, happening);
        self.raise_if(Count::NoTransaction, happening);
    }

    // Counts the happening by all counts but those of what a core does to others.
    fn add(&mut self, happening: &Happening)
        ensures { self.new ≡ raised_all (tried happening.now) happening.now self.old }
    {
        match happening {
            Happening::Item(Item::Did(_)) => self.raise_operation(happening),
            Happening::Item(Item::Sent(_)) => self.raise_request(happening),
            Happening::Item(Item::Came(_, None)) => self.raise_response(happening),
            Happening::Item(Item::Came(_, Some(_))) => {
                self.raise_response(happening);
                self.raise_operation(happening);
            }
            Happening::Line {
                outcome: Ok(_),
                line,
                cause: None,
                ..
            } => self.raise_row(happening, *line),
            Happening::Line { .. } => self.raise_line(happening),
        }
    }

    /// How often the count was counted.
    #[inline(always)]
    pub(crate) fn of(&self, count: Count) -> u64
        ensures { result ≡ counter_in self.now count }
    {
        self.counters[count as usize]
    }
}

impl Change<Counters> for Count {
    ghost use Rattle.snoop_counts.specs.Tally.{raised_row};

    ghost changed = { raised_row };

    #[inline(always)]
    fn change(self, row: &mut Counters) {
        row.raise(self);
    }
}

/// Counts what has happened, in the row of its own subject.
#[derive(Clone, Copy)]
struct Own<'a> {
    happening: &'a Happening,
}

impl Change<Counters> for Own<'_> {
    ghost use Rattle.snoop_counts.specs.Tally.{raised_all, tried};

    ghost changed = { λ own row. raised_all (tried own.happening.now) own.happening.now row };

    #[inline(always)]
    fn change(self, row: &mut Counters) {
        row.add(self.happening);
    }
}

/// The counters of each core, block or word, or those of the machine.
#[derive(Drop)]
pub(crate) struct Tally {
    subjects: Subjects,
    rows: BlockTable<Counters>,
}

impl Tally {
    /// Nothing is counted yet, for `count` subjects.
    pub(crate) fn new(alloc: Global, subjects: Subjects, count: u32) -> Result<Self, NoMemory>
        ensures { IfOk result (HasCounted subjects count []) }
    {
        match BlockTable::new(alloc, count, Counters::none()) {
            Ok(rows) => Ok(Tally { subjects, rows }),
            Err(_) => Err(NoMemory),
        }
    }

    /// The counters of a subject.
    pub(crate) fn row(&self, subject: u32) -> Option<Counters>
        ensures { (whose : Subjects) (many : ℕ) (seen : List Happening) → HasCounted whose many seen self.now → subject < many
            → IsSomeAnd result (λ row. (counted : Counted) → counter_in row counted ≡ counted_of whose seen subject counted) }
    {
        self.rows.get(subject)
    }

    /// The counters of a subject, if a line names it.
    pub(crate) fn named(&self, subject: u32) -> Option<Counters>
        ensures { (whose : Subjects) (many : ℕ) (seen : List Happening) → HasCounted whose many seen self.now → subject < many → IsRowOf whose seen subject result }
    {
        self.rows
            .get(subject)
            .filter(|row| row.of(Count::Lines) > 0)
    }

    /// Nothing is counted yet, for one subject.
    pub(crate) fn restart(&mut self)
        ensures { (whose : Subjects) (seen : List Happening) → HasCounted whose 1 seen self.old → HasCounted whose 1 [] self.new }
    {
        if self.rows.get(0).is_some() {
            self.rows.set(0, Counters::none());
        }
    }

    // Counts the happening by this count, if it counts it.
    #[inline(always)]
    fn count(&mut self, count: Count, happening: &Happening)
        ensures { self.new ≡ record self.old { rows = raised_by self.old.subjects count happening.now self.old.rows } }
    {
        if !counts(count, happening) {
            return;
        }
        if let Some(subject) = subject_of(self.subjects, count, happening) {
            self.rows.change(subject, count);
        }
    }

    // Counts the happening for its own subject, by all counts but those of what a core does to others.
    fn add_own(&mut self, happening: &Happening)
        ensures { self.new ≡ record self.old { rows = own_raised self.old.subjects happening.now self.old.rows } }
    {
        if let Some(subject) = subject_of(self.subjects, Count::Lines, happening) {
            self.rows.change(subject, Own { happening });
        }
    }
}

impl Counts for Tally {
    ghost use Rattle.std.specs.Prelude.{ℕ};
    ghost use Rattle.snoop_counts.specs.Tally.{HasCounted};
    ghost use Rattle.snoop_counts.specs.declared.count.Subjects.{Subjects};
    ghost use Rattle.snoop_counts.specs.declared.count.Subjects.TheVariants.{Cores};

    ghost Of = { Subjects × ℕ };

    ghost of_shape = { λ shape. (Cores, shape.cores) };

    ghost has_counted = { λ whose. HasCounted whose.0 whose.1 };

    fn add(&mut self, happening: &Happening) {
        self.add_own(happening);
        match happening {
            Happening::Line { .. } => self.count(Count::Invalidates, happening),
            Happening::Item(_) => self.count(Count::Supplied, happening),
        }
    }
}
