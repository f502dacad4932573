//! How the copies of each core went, for the causes of its misses.
ghost use Rattle.std.specs.Prelude.{◌≡◌, ◌+◌, ◌++◌, ◌∷◌, [], List, OnOk, length};
ghost use Rattle.snoop_engine.specs.Frames.{Frame};
ghost use Rattle.snoop_engine.specs.Taken.{lines_of_step};
ghost use Rattle.snoop_counts.specs.Causes.{cause_after, cause_of, operation_in, word_of};
ghost use Rattle.snoop_counts.specs.LastSteps.{KnowsLastSteps, MarksLines, MarksStore};

use crate::count::Cause;
use crate::counted::{is_giving_up, is_loss, is_miss};
use crate::last_steps::LastSteps;
use snoop_engine::Taken;
use snoop_history::Did;
use snoop_trace::NoMemory;
use std::alloc::Global;

// The word of the operation.
fn word_of(operation: Option<Did>) -> u32
    ensures { result ≡ word_of operation }
{
    match operation {
        None => 0,
        Some(did) => did.word,
    }
}

/// The numbers of the last steps in which each core gave up and lost a copy of each block, and in which each word was stored to.
#[derive(Drop)]
pub(crate) struct Copies {
    given_up: LastSteps,
    lost: LastSteps,
    stored: LastSteps,
}

impl Copies {
    /// No step was taken yet.
    pub(crate) fn new(alloc: Global) -> Copies
        ensures { KnowsLastSteps [] result }
    {
        Copies {
            given_up: LastSteps::new(alloc),
            lost: LastSteps::new(alloc),
            stored: LastSteps::new(alloc),
        }
    }

    // Why the core has no copy of the block, when it misses the word.
    fn cause_of_miss(&self, block: u32, core: u32, word: u32) -> Cause
        ensures { (frames : List Frame) → KnowsLastSteps frames self.now → result ≡ cause_after frames block core word }
    {
        let given_up = self.given_up.of(block, core);
        let lost = self.lost.of(block, core);
        if given_up < lost {
            if lost < self.stored.of(block, word) {
                Cause::TrueSharing
            } else {
                Cause::FalseSharing
            }
        } else if given_up > 0 {
            Cause::GivenUp
        } else {
            Cause::Cold
        }
    }

    /// The cause of a line that is a miss, where its step performs this operation.
    pub(crate) fn cause_of(&self, operation: Option<Did>, line: Taken) -> Option<Cause>
        ensures { (frames : List Frame) → KnowsLastSteps frames self.now → result ≡ cause_of frames operation line }
    {
        let Taken::Core {
            core,
            block,
            event: Some(event),
            before,
        } = line
        else {
            return None;
        };
        if !is_miss(before, event) {
            return None;
        }
        Some(self.cause_of_miss(block, core, word_of(operation)))
    }

    // Writes what a line says of a copy.
    fn add_line(&mut self, number: u64, line: Taken) -> Result<(), NoMemory>
        ensures { OnOk result (MarksLines number (line ∷ []) self.old self.new) }
    {
        let Taken::Core {
            core,
            block,
            event: Some(event),
            before,
        } = line
        else {
            return Ok(());
        };
        if is_giving_up(before, event) {
            self.given_up.set(block, core, number)?;
        }
        if is_loss(before, event) {
            self.lost.set(block, core, number)?;
        }
        Ok(())
    }

    // Writes what the lines of a step say of copies.
    fn add_lines(&mut self, number: u64, lines: &[Taken]) -> Result<(), NoMemory>
        ensures { OnOk result (MarksLines number lines.now self.old self.new) }
    {
        for line in lines {
            self.add_line(number, *line)?;
        }
        Ok(())
    }

    // Writes the store of a step, if it has one.
    fn add_operation(&mut self, number: u64, operation: Option<Did>) -> Result<(), NoMemory>
        ensures { OnOk result (MarksStore number operation self.old self.new) }
    {
        match operation {
            Some(did) if !did.load => self.stored.set(did.block, did.word, number),
            _ => Ok(()),
        }
    }

    /// Follows one more step, of this number.
    pub(crate) fn follow(
        &mut self,
        number: u64,
        lines: &[Taken],
        operation: Option<Did>,
    ) -> Result<(), NoMemory>
        ensures { (frames : List Frame) (frame : Frame) → KnowsLastSteps frames self.old → number ≡ 1 + length frames
            → lines.now ≡ lines_of_step frame.before frame.step frame.outcome → operation ≡ operation_in frame
            → OnOk result (KnowsLastSteps (frames ++ frame ∷ []) self.new) }
    {
        self.add_lines(number, lines)?;
        self.add_operation(number, operation)
    }
}
