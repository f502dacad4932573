//! The turn of a core that does one work at a time.
ghost use Rattle.std.specs.Prelude.{◌≡◌, ◌<◌};
ghost use Rattle.snoop_model.specs.Turns.Turn.{turn_of};

use crate::machine::Machine;
use snoop_trace::{Op, Step};

impl Machine {
    /// The step of a core's turn with a work, by what waits and what is open: `under_way` says whether the core has asked
    /// for it already. `None` where another core's turn has closed the work.
    #[inline(always)]
    pub fn turn_step(
        &self,
        core: u32,
        block: u32,
        word: u32,
        op: Op,
        under_way: bool,
    ) -> Option<Step>
        requires core { core < self.now.situation.shape.cores }
        requires block { block < self.now.situation.shape.blocks }
        ensures { result ≡ turn_of self.now.situation core block word op under_way }
    {
        if !under_way {
            return Some(Step::Ask {
                core,
                block,
                word,
                op,
            });
        }
        let Some(requestor) = self.requestor(block) else {
            return if self.waits_on(core, block) {
                Some(Step::Order { core })
            } else {
                None
            };
        };
        if requestor == core || self.waits_on(core, block) {
            Some(Step::Respond { block })
        } else {
            None
        }
    }
}
