//! Courses of steps, each of which is found when the one before it was taken.
ghost use Rattle.std.specs.Prelude.{◌≡◌, ◌<◌, [], ℕ, List, IfErr, IfOk, IfSome, IfNone, Result};
ghost use Rattle.snoop_model.specs.declared.replies.Refused.{Refused as Cause};
ghost use Rattle.snoop_model.specs.declared.replies.Refused.TheVariants.{NoMemory as OutOfMemory};
ghost use Rattle.snoop_model.specs.declared.replies.Reply.{Reply as Answer};
ghost use Rattle.snoop_model.specs.Pictures.Situation.{Situation};
ghost use Rattle.snoop_model.specs.Moves.Move.{FirstMove};
ghost use Rattle.snoop_model.specs.Moves.Refuses.{RefusedFor};
ghost use Rattle.snoop_model.specs.Runs.Run.{GoesFirst};
ghost use Rattle.snoop_trace.specs.declared.step.Step.{Step as Given};
ghost use Rattle.snoop_engine.specs.Courses.{CanEndFrom, LeadsOn};
ghost use Rattle.snoop_engine.specs.Round.{IsEnabled};

use snoop_machine::{Machine, Refused, Reply};
use snoop_trace::{NoMemory, Step};

/// Steps that are found and taken one after another, to an end, and the machine that takes them.
pub(crate) trait Course {
    // Where the machine is.
    ghost situation: { Self → Situation };

    // From here on these steps, answered so, lead to the end, where the machine is this.
    ghost leads: { Self → List Given → List (Result Answer Cause) → Situation → Type 0 };

    // No more steps than these are to come.
    ghost left: { Self → ℕ };

    // The first course has found this step, and is the second now, which has not taken it yet.
    ghost finds: { Self → Given → Self → Type 0 };

    /// The machine that takes the steps.
    fn machine(&self) -> &Machine
        ensures { result.now.situation ≡ situation self.now };

    /// Finds the next step; `None` at the end.
    fn find(&mut self) -> Option<Step>
        ensures same { situation self.new ≡ situation self.old }
        ensures found { IfSome result (λ step. finds self.old step self.new) }
        ensures end { IfNone result (leads self.old [] [] (situation self.old)) };

    /// Takes the step that was found. After `NoMemory` the course can't go on.
    fn take(&mut self, step: Step) -> Result<Result<Reply, Refused>, NoMemory>
        requires { (before : Self) × finds before step self.old }
        ensures goes { IfOk result (λ outcome. GoesFirst (situation self.old) step outcome (situation self.new)) }
        ensures fewer { (before : Self) → finds before step self.old → IfOk result (λ outcome. left self.new < left before) }
        ensures leads { (before : Self) → finds before step self.old → IfOk result (λ outcome. LeadsOn (leads before) step outcome (leads self.new)) }

        // It can still go on to its end.
        ensures can_end { IfOk result (λ _. CanEndFrom (situation self.new) (leads self.new)) }

        // The outer fault, `NoMemory`, never stands for a step that is refused.
        ensures memory { IfErr result (λ _. RefusedFor (situation self.old) step OutOfMemory) };
}

/// Takes a step that no cause refuses.
#[inline(always)]
pub(crate) fn take_enabled(machine: &mut Machine, step: Step) -> Result<Reply, NoMemory>
    requires { IsEnabled machine.old.situation step }
    ensures taken { IfOk result (λ reply. FirstMove machine.old.situation step reply machine.new.situation) }
    ensures refused { IfErr result (λ _. machine.new.situation ≡ machine.old.situation) }
{
    match machine.step(step) {
        Ok(reply) => Ok(reply),
        Err(Refused::NoMemory) => Err(NoMemory),
        Err(_) => unreachable!(),
    }
}
