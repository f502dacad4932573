//! What holds of all tables of counts, each of which is of the run of some steps. These functions do nothing: a proof calls them
//! for what they ensure.
ghost use Rattle.snoop_counts.specs.Laws.{CausesAreAll, DoneIsSuffered, PartsAddUp, SumsAreTotals, WordsAddUp};

/// Of each core and block, and of the machine, `misses` is the sum of `cold`, `given_up`, `true_sharing` and
/// `false_sharing`.
#[tactic(auto, using(crate::proofs::LawLemmas::causes_are_all))]
pub fn causes()
    ensures { CausesAreAll }
{}

/// Steps that are cut in two have the counts of both parts together. So the counts of the lines by steps add up to those of the
/// whole run.
#[tactic(auto, using(crate::proofs::LawLemmas::parts_add_up))]
pub fn parts()
    ensures { PartsAddUp }
{}

/// In the run of any steps, over all cores, over all blocks, and of the machine, the sums of the first twelve counts are those of
/// its report. By `parts` so are those over all lines by steps.
#[tactic(auto, using(crate::proofs::LawLemmas::has_totals))]
pub fn sums()
    ensures { SumsAreTotals }
{}

/// In the run of any steps, over all cores, `invalidates` has the sum of `invalidated`, and `supplied` that of `from_caches`.
#[tactic(auto, using(crate::proofs::LawLemmas::suffers))]
pub fn others()
    ensures { DoneIsSuffered }
{}

/// In the run of any steps, for a shape within its limits, over the words of each block, the counts of the words have the sums
/// that the block has.
pub fn words()
    ensures { WordsAddUp }
{}
