//! What holds of every run: calls that do nothing, and ensure it.
ghost use Rattle.snoop_model.specs.Coherent.{IsCoherentRun};
ghost use Rattle.snoop_model.specs.Runs.Run.{EveryRun, TheRunIsARun, RunsAreOne, RunsGoOn, TakenBegins, TakenGoesOn};
ghost use Rattle.snoop_model.specs.Runs.Safe.{RowsAreFound, TheRunIsCoherent};
ghost use Rattle.snoop_model.specs.Runs.TakenOnce.{TakenOnce};

/// Every run from reset is coherent, for every number of cores, blocks and words, under MSI and MESI.
///
/// `IsCoherentRun` says what that means: each block has one writer and no other reader, or only readers, or neither; in the history
/// each load has the value of the last store to its word before it, or 0 where there is none; no step is stuck at an impossible
/// cell; no load or store that was taken is lost or doubled; and each reply is true to the history.
#[tactic(auto, using(crate::proofs::Invariant::Safety::every_run_is_coherent))]
pub fn coherent()
    ensures { EveryRun IsCoherentRun }
{}

/// No step of a run meets an impossible cell, row by row: each that a controller looks up at the step is there. So it is for
/// an Order of any free block on which its core waits.
#[tactic(auto, using(crate::proofs::Invariant::Safety::rows_are_found))]
pub fn rows_are_found()
    ensures { RowsAreFound }
{}

/// The run of some steps, in which each Order takes the first block of its core's queue and memory is ample, is one of the runs
/// that `coherent` speaks of, and so it is coherent.
///
/// A machine takes its steps so, and what is written of steps or rows is the run of them.
pub fn the_run_is_coherent()
    ensures is_run { TheRunIsARun }
    ensures coherent { TheRunIsCoherent }
{}

/// The run of some steps goes on: from where it led, any further steps have a run too.
///
/// So every list of steps has a run from reset, and the run of its first steps is the beginning of one of all of them.
pub fn runs_go_on()
    ensures { RunsGoOn }
{}

/// The run of some steps is the only one: steps that are taken in order from reset, with ample memory, have one list of
/// outcomes and lead to one situation.
#[tactic(auto, using(crate::proofs::Runs::GoOn::runs_are_one))]
pub fn runs_are_one()
    ensures { RunsAreOne }
{}

/// Steps that were all taken from reset, and one more that is taken, were all taken.
pub fn taken_goes_on()
    ensures begins { TakenBegins }
    ensures goes_on { TakenGoesOn }
{}

/// Where steps were all taken from reset, each load and store that they ask stands in the history or waits, as often as it was
/// asked.
pub fn taken_once()
    ensures { TakenOnce }
{}
