//! What is written of a run.
ghost use Rattle.std.specs.Prelude.{◌≡◌, ◌++◌, ◌∷◌, [], ℕ, List, OnOk};
ghost use Rattle.snoop_trace.specs.Extent.{Extent};
ghost use Rattle.snoop_trace.specs.declared.protocol.Protocol.{Protocol};
ghost use Rattle.snoop_model.specs.Pictures.Situation.{Situation, reset};
ghost use Rattle.snoop_engine.specs.Frames.{Frame, FramesFrom};
ghost use Rattle.snoop_engine.specs.Views.{IsNextSeen, frame_seen};

use crate::seen::Seen;
use snoop_machine::Machine;
use snoop_trace::NoMemory;

/// What is written of a run of steps on a machine at reset: something before the first step, something of each step, and
/// something at the end. Each call appends its part to `out`; after `NoMemory` the view can't be used again.
pub trait View {
    // The first view, shown these frames of a run for the protocol and the shape, is the second one now.
    ghost has_seen: { Self → Protocol → Extent → List Frame → Self → Type 0 };

    // What the view that begins writes before the first step.
    ghost heading: { Self → Protocol → Extent → List ℕ };

    // What it writes of a frame, by the frames before it.
    ghost shows: { Self → Protocol → Extent → List Frame → Frame → List ℕ };

    // What it writes after all the frames, by where they have led.
    ghost ending: { Self → Protocol → Extent → List Frame → Situation → List ℕ };

    /// Begins a run: the machine is at reset.
    fn begin(&mut self, out: &mut Vec<u8>, machine: &Machine) -> Result<(), NoMemory>
        requires { machine.now.situation ≡ reset machine.now.situation.protocol machine.now.situation.shape }
        ensures begins { OnOk result (has_seen self.old machine.now.situation.protocol machine.now.situation.shape [] self.new) }
        ensures text { OnOk result (out.new.items ≡ out.old.items ++ heading self.old machine.now.situation.protocol machine.now.situation.shape) };

    /// Sees the next step, and the machine after it.
    fn see(&mut self, out: &mut Vec<u8>, machine: &Machine, seen: Seen<'_>) -> Result<(), NoMemory>
        ensures { (first : Self) (frames : List Frame) (before : Situation)
            → has_seen first machine.now.situation.protocol machine.now.situation.shape frames self.old
            → IsNextSeen machine.now.situation.protocol machine.now.situation.shape frames before seen.entry machine.now.situation
            → OnOk result (has_seen first machine.now.situation.protocol machine.now.situation.shape (frames ++ frame_seen before seen.entry machine.now.situation ∷ []) self.new
            × (out.new.items ≡ out.old.items ++ shows first machine.now.situation.protocol machine.now.situation.shape frames (frame_seen before seen.entry machine.now.situation))) };

    /// Ends the run: the machine is where the steps have led.
    fn end(&mut self, out: &mut Vec<u8>, machine: &Machine) -> Result<(), NoMemory>
        ensures { (first : Self) (frames : List Frame)
            → has_seen first machine.now.situation.protocol machine.now.situation.shape frames self.old
            → FramesFrom (reset machine.now.situation.protocol machine.now.situation.shape) frames machine.now.situation
            → OnOk result (out.new.items ≡ out.old.items ++ ending first machine.now.situation.protocol machine.now.situation.shape frames machine.now.situation) };
}
