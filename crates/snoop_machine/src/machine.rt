//! The machine, as its users have it.
ghost use Rattle.std.specs.Prelude.{◌≡◌, ◌<◌, ◌↔◌, ◌++◌, ℕ, [], ◌∷◌, length, option_map, Option, true, is_some, IsTrue, IsOk, IfOk, IfErr, IfSome, IfNone, Ok, Err, Some, None, option_to_list, slice_get};
ghost use Rattle.snoop_trace.specs.Words.{AreZeroFrom, word_at};
ghost use Rattle.snoop_trace.specs.declared.step.Step.{Step};
ghost use Rattle.snoop_rules.specs.Waits.{waiting_request};
ghost use Rattle.snoop_bus.specs.Queues.{place_in, queue_of};
ghost use Rattle.snoop_history.specs.declared.items.Item.{Item};
ghost use Rattle.snoop_history.specs.History.{flat};
ghost use Rattle.snoop_model.specs.declared.replies.Refused.{Refused};
ghost use Rattle.snoop_model.specs.declared.replies.Refused.TheVariants.{NoMemory as OutOfMemory};
ghost use Rattle.snoop_model.specs.Pictures.Situation.{picture_of, held_of, reset, state_of, IsHead};
ghost use Rattle.snoop_model.specs.Pictures.Proper.{keeps};
ghost use Rattle.snoop_model.specs.Moves.Move.{FirstMove};
ghost use Rattle.snoop_model.specs.Moves.Replies.{Tells};
ghost use Rattle.snoop_model.specs.Moves.Refuses.{Refuses, RefusedFor};
ghost use Rattle.snoop_machine.specs.Standing.{KeepsRoom, line_count};
ghost use Rattle.snoop_machine.specs.Holding.{HoldsOn, HasHeldLines};
ghost use Rattle.snoop_machine.specs.Prepared.{IsFull, IsPrepared};
ghost use Rattle.snoop_model.specs.Runs.Safe.{IsSafe};
ghost use Rattle.snoop_model.specs.Runs.Once.{OnceMore};
ghost use Rattle.snoop_machine.specs.Runs.{HasRun};
ghost use Rattle.snoop_model.specs.Invariant.Invariant.{Invariant};
ghost use Rattle.snoop_machine.specs.AnyParts.{stand};

use crate::parts::Parts;
use snoop_bus::Open;
use snoop_history::{Item, Log};
use snoop_model::{Refused, Reply};
use snoop_rules::{CacheState, MemState, Payload, Protocol, Request};
use snoop_trace::{Few, NoMemory, Shape, Step};
use std::alloc::Global;
use std::fmt;
use std::marker::Model;

/// Does the same with the parts, whatever the size of a block.
macro_rules! each {
    ($any:expr, $parts:ident => $done:expr) => {
        match $any {
            AnyParts::One($parts) => $done,
            AnyParts::Two($parts) => $done,
            AnyParts::Four($parts) => $done,
            AnyParts::Eight($parts) => $done,
            AnyParts::Sixteen($parts) => $done,
            AnyParts::ThirtyTwo($parts) => $done,
            AnyParts::SixtyFour($parts) => $done,
        }
    };
}

/// Caches, memory, the bus that joins them, and the history of what they did.
///
/// Every machine is coherent: each block has one writer alone, or only readers, and each load read the last value stored.
pub struct Machine {
    parts: AnyParts,
}

impl Model for Machine {
    ghost use Rattle.snoop_machine.specs.Standing.{Standing};

    ghost Value = { Standing };

    ghost use Rattle.snoop_machine.specs.MachineView.{as_parts_stand, ArePartsCoherent};

    ghost view = { as_parts_stand };

    ghost invariant = { ArePartsCoherent };
}

// Not derived: a derived drop is proved anew, field by field, at each end of each function that owns a machine.
impl Drop for Machine {
    fn drop(self) {
        let Machine { parts: _ } = self;
    }
}

impl fmt::Debug for Machine {
    fn fmt<W: fmt::Write>(&self, f: &mut fmt::Formatter<W>) -> fmt::Result {
        f.write_str("Machine { .. }")
    }
}

impl Machine {
    /// A machine at reset: every cache in I, memory with 0, nothing waiting or open, an empty history.
    ///
    /// `NoMemory` where a growth was refused.
    pub fn reset(alloc: Global, protocol: Protocol, shape: Shape) -> Result<Self, NoMemory>
        ensures at_reset { IfOk result (λ machine. machine.situation ≡ reset protocol shape) }
        ensures safe { IfOk result (λ machine. IsSafe machine.situation) }
        ensures empty { IfOk result (λ machine. (core : ℕ) → line_count machine core ≡ 0) }
    {
        let parts = match shape.words() {
            1 => AnyParts::One(Parts::reset(alloc, protocol, shape)?),
            2 => AnyParts::Two(Parts::reset(alloc, protocol, shape)?),
            4 => AnyParts::Four(Parts::reset(alloc, protocol, shape)?),
            8 => AnyParts::Eight(Parts::reset(alloc, protocol, shape)?),
            16 => AnyParts::Sixteen(Parts::reset(alloc, protocol, shape)?),
            32 => AnyParts::ThirtyTwo(Parts::reset(alloc, protocol, shape)?),
            64 => AnyParts::SixtyFour(Parts::reset(alloc, protocol, shape)?),
            _ => unreachable!(),
        };
        Ok(Machine { parts })
    }

    /// Every machine is coherent, whatever was done with it. This does nothing: a proof calls it for what it ensures.
    pub fn coherent(&self)
        ensures { IsSafe self.now.situation }
    {
        let _ = &self.parts;
    }

    /// Takes one step, or refuses it; a refused step changes nothing.
    #[inline(always)]
    pub fn step(&mut self, step: Step) -> Result<Reply, Refused>
        ensures taken { IfOk result (λ reply. FirstMove self.old.situation step reply self.new.situation) }
        ensures refused { IfErr result (λ cause. RefusedFor self.old.situation step cause × (self.new ≡ self.old)) }
        ensures exactly { (cause : Refused) → Refuses self.old.situation step cause → result ≡ Err cause }
        ensures full { result ≡ Err OutOfMemory → IsFull self.old step }
        ensures room { KeepsRoom self.old self.new }
        ensures lines { (core : ℕ) → HoldsOn self.old self.new step core }

        // What `prepare` reported comes true.
        ensures prepared { (entry : Option Item) → IsPrepared self.old step entry → IsOk result × (self.new.situation.log ≡ self.old.situation.log ++ option_to_list entry) }

        // For the proofs of callers: this follows from the above and from what every machine keeps (`coherent`). After every step, taken
        // or refused, the machine is coherent, and a load or store stands once in its history or waits.
        ensures stays { (self.new.situation.protocol ≡ self.old.situation.protocol) × (self.new.situation.shape ≡ self.old.situation.shape) }
        ensures told { Tells self.old.situation.log step result self.new.situation.log }
        ensures safe { IsSafe self.new.situation }
        ensures once { IfOk result (λ reply. OnceMore self.old.situation (step ∷ []) (Ok reply ∷ []) self.new.situation) }
    {
        self.parts.step(step)
    }

    /// Makes the room for a step, and reports the item that it will add. The same step, taken next, is not refused and takes no memory.
    pub fn prepare(&mut self, step: Step) -> Result<Option<Item>, Refused>
        ensures prepared { IfOk result (λ entry. IsPrepared self.new step entry) }
        ensures refused { IfErr result (λ cause. RefusedFor self.old.situation step cause × (self.new ≡ self.old)) }
        ensures exactly { (cause : Refused) → Refuses self.old.situation step cause → result ≡ Err cause }
        ensures full { result ≡ Err OutOfMemory → IsFull self.old step }
        ensures room { KeepsRoom self.old self.new }
        ensures lines { (core : ℕ) → HoldsOn self.old self.new step core }
        ensures unchanged { self.new.situation ≡ self.old.situation }
    {
        self.parts.prepare(step)
    }

    /// The protocol that all controllers follow.
    pub fn protocol(&self) -> Protocol
        ensures { result ≡ self.now.situation.protocol }
    {
        each!(&self.parts, parts => parts.protocol)
    }

    /// How many cores and blocks there are, and how many bytes and words a block.
    pub fn shape(&self) -> Shape
        ensures { result ≡ self.now.situation.shape }
    {
        each!(&self.parts, parts => parts.shape)
    }

    /// The core's state of the block, or `None` outside the shape.
    pub fn state(&self, core: u32, block: u32) -> Option<CacheState>
        ensures inside { core < self.now.situation.shape.cores → block < self.now.situation.shape.blocks → result ≡ Some (state_of self.now.situation core block) }
        ensures outside { IfSome result (λ _. (core < self.now.situation.shape.cores) × (block < self.now.situation.shape.blocks)) }
    {
        each!(&self.parts, parts => parts.state(core, block))
    }

    /// The value of a word that the core keeps, which is that of the last store to it, or `None` outside the shape and in a
    /// state that may not read.
    pub fn kept(&self, core: u32, block: u32, word: u32) -> Option<u64>
        ensures inside { core < self.now.situation.shape.cores → block < self.now.situation.shape.blocks → word < self.now.situation.shape.words → result ≡ option_map (λ ws. word_at ws word) (held_of self.now.situation core block).kept }
        ensures readable { core < self.now.situation.shape.cores → block < self.now.situation.shape.blocks → word < self.now.situation.shape.words → is_some result ≡ keeps (state_of self.now.situation core block) }
        ensures current { IfSome result (λ value. value ≡ flat self.now.situation.log block word) }
        ensures outside { IfSome result (λ _. (core < self.now.situation.shape.cores) × (block < self.now.situation.shape.blocks) × (word < self.now.situation.shape.words)) }
    {
        self.shape().within_limits();
        self.parts.kept(core, block, word)
    }

    /// Memory's state of the block, or `None` outside the shape.
    pub fn mem_state(&self, block: u32) -> Option<MemState>
        ensures inside { block < self.now.situation.shape.blocks → result ≡ Some (picture_of self.now.situation block).memory.state }
        ensures outside { IfSome result (λ _. block < self.now.situation.shape.blocks) }
    {
        each!(&self.parts, parts => parts.mem_state(block))
    }

    /// Memory's value of a word, or `None` outside the shape.
    pub fn mem_value(&self, block: u32, word: u32) -> Option<u64>
        ensures inside { block < self.now.situation.shape.blocks → word < self.now.situation.shape.words → result ≡ Some (word_at (picture_of self.now.situation block).memory.value word) }
        ensures outside { IfSome result (λ _. (block < self.now.situation.shape.blocks) × (word < self.now.situation.shape.words)) }
    {
        each!(&self.parts, parts => parts.mem_value(block, word))
    }

    /// The block's open transaction, if there is one; `None` outside the shape.
    pub fn open(&self, block: u32) -> Option<Open>
        ensures value { result ≡ (picture_of self.now.situation block).transaction }

        // The words that a block doesn't have are 0.
        ensures padded { IfSome result (λ opened. AreZeroFrom self.now.situation.shape.words opened.value) }
    {
        each!(&self.parts, parts => parts.open(block))
    }

    /// The core whose transaction is open on the block, or `None` where none is, and outside the shape.
    pub fn requestor(&self, block: u32) -> Option<u32>
        ensures { result ≡ option_map (λ opened. opened.core) (picture_of self.now.situation block).transaction }
    {
        each!(&self.parts, parts => parts.requestor(block))
    }

    /// The requestor of the block's open transaction, its request, and the payload of the message: `open` without the words
    /// and the sender. `None` where none is open, and outside the shape.
    pub fn transfer(&self, block: u32) -> Option<(u32, Request, Payload)>
        ensures { result ≡ option_map (λ opened. (opened.core, opened.request, opened.payload)) (picture_of self.now.situation block).transaction }
    {
        each!(&self.parts, parts => parts.transfer(block))
    }

    /// Whether a request of the core waits to be ordered; false outside the shape.
    pub fn waiting(&self, core: u32) -> bool
        ensures { IsTrue result ↔ (0 < length (queue_of self.now.situation.queues core)) }
    {
        each!(&self.parts, parts => parts.waiting(core))
    }

    /// The oldest request of the core that waits to be ordered, and its block: that of the core's next Order. `None` where
    /// none waits, and outside the shape.
    pub fn head(&self, core: u32) -> Option<(Request, u32)>
        ensures some { IfSome result (λ head. IsHead self.now.situation core head.0 head.1) }
        ensures empty { IfNone result (slice_get (queue_of self.now.situation.queues core) 0 ≡ None) }
    {
        each!(&self.parts, parts => parts.head(core))
    }

    /// The place of the core's request for the block among those that wait, the oldest's being 1; `None` where it does not
    /// wait, and outside the shape.
    pub fn place(&self, core: u32, block: u32) -> Option<usize>
        ensures { result ≡ place_in (queue_of self.now.situation.queues core) block }
    {
        each!(&self.parts, parts => parts.place(core, block))
    }

    /// Whether the core's request for the block waits to be ordered; false outside the shape.
    pub fn waits_on(&self, core: u32, block: u32) -> bool
        ensures inside { core < self.now.situation.shape.cores → block < self.now.situation.shape.blocks → result ≡ is_some (waiting_request (state_of self.now.situation core block)) }
        ensures outside { result ≡ true → (core < self.now.situation.shape.cores) × (block < self.now.situation.shape.blocks) }
    {
        let shape = self.shape();
        if core < shape.cores() && block < shape.blocks() {
            each!(&self.parts, parts => parts.waits_on(core, block))
        } else {
            false
        }
    }

    /// How many lines the core's map has, or `None` outside the shape: one for each block in which the core isn't in
    /// I, and perhaps some in I, at most one for each Ask that was prepared.
    pub fn lines(&self, core: u32) -> Option<usize>
        ensures inside { core < self.now.situation.shape.cores → result ≡ Some (line_count self.now core) }
        ensures held { HasHeldLines self.now core }
        ensures outside { IfSome result (λ _. core < self.now.situation.shape.cores) }
    {
        each!(&self.parts, parts => parts.lines(core))
    }

    /// The history of all that was performed, ordered and answered.
    pub fn log(&self) -> &Log
        ensures items { result.now.items ≡ self.now.situation.log }
        ensures shape { (result.now.cores ≡ self.now.situation.shape.cores) × (result.now.blocks ≡ self.now.situation.shape.blocks) × (result.now.words ≡ self.now.situation.shape.words) }
    {
        each!(&self.parts, parts => &parts.log)
    }
}

/// Takes the steps in order, passing over those that are refused. Returns how many were taken.
pub fn run_steps(machine: &mut Machine, steps: &[Step]) -> usize
    ensures run { HasRun machine.old steps.now result machine.new }
    ensures safe { IsSafe machine.new.situation }
    ensures stays { (machine.new.situation.protocol ≡ machine.old.situation.protocol) × (machine.new.situation.shape ≡ machine.old.situation.shape) }
{
    let mut taken = 0;
    for step in steps {
        if machine.parts.step(*step).is_ok() {
            taken += 1;
        }
    }
    taken
}

/// The parts of a machine, by how many words a block has: they hold no more than these.
#[derive(Drop)]
enum AnyParts {
    One(Parts<Few<1>>),
    Two(Parts<Few<2>>),
    Four(Parts<Few<4>>),
    Eight(Parts<Few<8>>),
    Sixteen(Parts<Few<16>>),
    ThirtyTwo(Parts<Few<32>>),
    SixtyFour(Parts<Few<64>>),
}

impl AnyParts {
    /// The value of a word that the core keeps, or `None` outside the shape and in a state that may not read.
    fn kept(&self, core: u32, block: u32, word: u32) -> Option<u64>
        ensures inside { core < (stand self.now).situation.shape.cores → block < (stand self.now).situation.shape.blocks → word < (stand self.now).situation.shape.words → result ≡ option_map (λ ws. word_at ws word) (held_of (stand self.now).situation core block).kept }
        ensures readable { core < (stand self.now).situation.shape.cores → block < (stand self.now).situation.shape.blocks → word < (stand self.now).situation.shape.words → is_some result ≡ keeps (state_of (stand self.now).situation core block) }
        ensures outside { IfSome result (λ _. (core < (stand self.now).situation.shape.cores) × (block < (stand self.now).situation.shape.blocks) × (word < (stand self.now).situation.shape.words)) }
    {
        each!(self, parts => parts.kept(core, block, word))
    }

    /// Takes one step: finds all that it will do, makes the room, and does it. A refused step changes nothing.
    #[inline(always)]
    fn step(&mut self, step: Step) -> Result<Reply, Refused>
        requires { Invariant (stand self.old).situation }
        ensures taken { IfOk result (λ reply. FirstMove (stand self.old).situation step reply (stand self.new).situation) }
        ensures refused { IfErr result (λ cause. RefusedFor (stand self.old).situation step cause × (stand self.new ≡ stand self.old)) }
        ensures exactly { (cause : Refused) → Refuses (stand self.old).situation step cause → result ≡ Err cause }
        ensures full { result ≡ Err OutOfMemory → IsFull (stand self.old) step }
        ensures room { KeepsRoom (stand self.old) (stand self.new) }
        ensures lines { (core : ℕ) → HoldsOn (stand self.old) (stand self.new) step core }

        // What `prepare` reported comes true.
        ensures prepared { (entry : Option Item) → IsPrepared (stand self.old) step entry → IsOk result × ((stand self.new).situation.log ≡ (stand self.old).situation.log ++ option_to_list entry) }
    {
        match self {
            AnyParts::One(parts) => parts.step(step),
            _ => self.step_of_words(step),
        }
    }

    /// The same for blocks of several words. Kept out of line, so that `step` does not reserve stack for every size.
    #[inline(never)]
    fn step_of_words(&mut self, step: Step) -> Result<Reply, Refused>
        requires { Invariant (stand self.old).situation }
        ensures taken { IfOk result (λ reply. FirstMove (stand self.old).situation step reply (stand self.new).situation) }
        ensures refused { IfErr result (λ cause. RefusedFor (stand self.old).situation step cause × (stand self.new ≡ stand self.old)) }
        ensures exactly { (cause : Refused) → Refuses (stand self.old).situation step cause → result ≡ Err cause }
        ensures full { result ≡ Err OutOfMemory → IsFull (stand self.old) step }
        ensures room { KeepsRoom (stand self.old) (stand self.new) }
        ensures lines { (core : ℕ) → HoldsOn (stand self.old) (stand self.new) step core }

        // What `prepare` reported comes true.
        ensures prepared { (entry : Option Item) → IsPrepared (stand self.old) step entry → IsOk result × ((stand self.new).situation.log ≡ (stand self.old).situation.log ++ option_to_list entry) }
    {
        each!(self, parts => parts.step(step))
    }

    /// Makes the room for a step, and reports the item that it will add. The same step, taken next, is not refused and takes no memory.
    fn prepare(&mut self, step: Step) -> Result<Option<Item>, Refused>
        requires { Invariant (stand self.old).situation }
        ensures prepared { IfOk result (λ entry. IsPrepared (stand self.new) step entry) }
        ensures refused { IfErr result (λ cause. RefusedFor (stand self.old).situation step cause × (stand self.new ≡ stand self.old)) }
        ensures exactly { (cause : Refused) → Refuses (stand self.old).situation step cause → result ≡ Err cause }
        ensures full { result ≡ Err OutOfMemory → IsFull (stand self.old) step }
        ensures room { KeepsRoom (stand self.old) (stand self.new) }
        ensures lines { (core : ℕ) → HoldsOn (stand self.old) (stand self.new) step core }
        ensures unchanged { (stand self.new).situation ≡ (stand self.old).situation }
    {
        each!(self, parts => parts.prepare(step))
    }
}
