//! What holds of turns by the turn rule.
ghost use Rattle.snoop_model.specs.Turns.TurnLaws.{TurnLaws};

/// Turns by the turn rule serve what the cores ask: no step of a turn is refused, memory aside; a work that needs no more steps
/// is over; with nothing under way nothing waits and no transaction is open; and each Ask is paid for by three steps at most.
/// What a step asks, or what waited before it, waits after it or is its core's last operation; it is the last one where the
/// core's work has no step left; and an Ask that issues no request is over at once.
#[tactic(auto, using(crate::proofs::Turns::turn_rule))]
pub fn turns_are_served()
    ensures { TurnLaws }
{}
