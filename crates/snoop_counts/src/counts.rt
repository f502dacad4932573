//! Counting of what happens, one happening after another.
ghost use Rattle.std.specs.Prelude.{◌++◌, ◌∷◌, [], List};
ghost use Rattle.snoop_trace.specs.Extent.{Extent};
ghost use Rattle.snoop_counts.specs.declared.count.Happening.{Happening as Seen};

use crate::count::Happening;

/// What counts all that happens in a run, or in a part of one.
pub(crate) trait Counts {
    // What is counted for: cores, blocks or words, and how many there are.
    ghost Of: { Type 0 };

    // The same for a table, on a machine of this shape.
    ghost of_shape: { Extent → Self.Of };

    // All of this has been counted.
    ghost has_counted: { Self.Of → List Seen → Self → Type 0 };

    /// Counts what has happened.
    fn add(&mut self, happening: &Happening)
        ensures { (whose : Self.Of) (seen : List Seen) → Self.has_counted whose seen self.old → Self.has_counted whose (seen ++ happening.now ∷ []) self.new };
}

/// Counts all of this.
#[tactic(auto, using(crate::proofs::TallyLemmas::one_happening_more, std::proofs::lemmas::List::take_all))]
pub(crate) fn add_all<C: Counts>(counts: &mut C, happenings: &[Happening])
    ensures { (whose : C.Of) (seen : List Seen) → C.has_counted whose seen counts.old → C.has_counted whose (seen ++ happenings.now) counts.new }
{
    for happening in happenings {
        counts.add(happening);
    }
}
