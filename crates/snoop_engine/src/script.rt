//! Lists of steps that are taken from the front.
ghost use Rattle.std.specs.Prelude.{◌≡◌, ◌++◌, [], List, IfNone, option_to_list};
ghost use Rattle.snoop_trace.specs.declared.step.Step.{Step as Given};

use snoop_trace::Step;

/// Steps in their order, which are taken from the front.
pub(crate) trait Script {
    // The steps that are left.
    ghost steps: { Self → List Given };

    /// Takes the first step away.
    fn take_first(&mut self) -> Option<Step>
        ensures first { steps self.old ≡ option_to_list result ++ steps self.new }
        ensures none { IfNone result (steps self.old ≡ []) };
}

impl Script for &[Step] {
    ghost steps = { λ s. s.now };

    fn take_first(&mut self) -> Option<Step> {
        let (first, rest) = self.split_first()?;
        *self = rest;
        Some(*first)
    }
}
