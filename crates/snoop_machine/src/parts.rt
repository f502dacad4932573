//! The parts of a machine, which its steps change one after another.
ghost use Rattle.std.specs.Prelude.{◌≡◌, ◌<◌, ◌≤◌, ◌↔◌, ℕ, length, option_map, is_some, IsTrue, IfOk, IfSome, Some, option_copied, slice_set};
ghost use Rattle.snoop_trace.specs.Words.{AreZeroFrom, word_at};
ghost use Rattle.snoop_bus.specs.Queues.{place_in, queue_of};
ghost use Rattle.snoop_rules.specs.Waits.{waiting_request};
ghost use Rattle.snoop_model.specs.Pictures.Situation.{picture_of, held_of, reset, state_of};
ghost use Rattle.snoop_model.specs.Pictures.Proper.{IsProper, keeps};
ghost use Rattle.snoop_model.specs.Moves.Move.{next_did, written};
ghost use Rattle.snoop_machine.specs.Standing.{line_count};
ghost use Rattle.snoop_machine.specs.Holding.{HasHeldLines};
ghost use Rattle.snoop_machine.specs.Cache.{line_or_nothing};
ghost use Rattle.snoop_machine.specs.Memory.{memory_line};

mod ask;
mod order;
mod respond;
mod step;

use crate::lines::{Entry, Lines};
use snoop_blocks::BlockTable;
use snoop_bus::{Bus, Open};
use snoop_history::{Did, Log};
use snoop_model::Access;
use snoop_rules::{CacheState, MemAction, MemCell, MemState, Payload, Protocol, Request, waits};
use snoop_trace::{Block, Kept, NoMemory, Op, Shape};
use std::alloc::Global;
use std::marker::Model;

/// The caches, memory, the bus that joins them, and the history of what they did.
pub(crate) struct Parts<B: Block> {
    pub(crate) protocol: Protocol,
    pub(crate) shape: Shape,
    lines: Lines<B>,
    memory: Memory<B>,
    bus: Bus<Kept<B>>,
    pub(crate) log: Log,
}

// Not derived: each end of each function that owns one would prove the drop of its fields anew.
impl<B: Block> Drop for Parts<B> {
    fn drop(self) {
        let Parts {
            protocol: _,
            shape: _,
            lines: _,
            memory: _,
            bus: _,
            log: _,
        } = self;
    }
}

impl<B: Block> Model for Parts<B> {
    ghost use Rattle.snoop_machine.specs.Standing.{Standing};

    ghost Value = { Standing };

    ghost use Rattle.snoop_machine.specs.PartsView.{fields, standing, IsWhole};

    ghost view = { λ m. standing (fields m.protocol m.shape m.lines m.memory m.bus m.log) };

    ghost invariant = { λ m. IsWhole B.count (fields m.protocol m.shape m.lines m.memory m.bus m.log) };
}

impl<B: Block> Parts<B> {
    /// The parts of a machine at reset.
    pub(crate) fn reset(alloc: Global, protocol: Protocol, shape: Shape) -> Result<Self, NoMemory>
        requires words { shape.words ≡ B.count }
        ensures situation { IfOk result (λ parts. parts.situation ≡ reset protocol shape) }
        ensures empty { IfOk result (λ parts. (core : ℕ) → line_count parts core ≡ 0) }
    {
        prove!(shape.cores() <= 256);
        prove!(shape.words() <= 64);
        let first = match protocol {
            Protocol::Msi => MemState::IorS,
            Protocol::Mesi => MemState::I,
        };
        let states = BlockTable::new(alloc, shape.blocks(), first)?;
        let words = BlockTable::new(alloc, shape.blocks(), Kept::zero())?;
        let memory = Memory { states, words };
        let lines = Lines::new(alloc, shape)?;
        let bus = Bus::new(alloc, shape)?;
        let log = Log::new(alloc, shape)?;
        Ok(Parts {
            protocol,
            shape,
            lines,
            memory,
            bus,
            log,
        })
    }

    /// The core's state of the block, or `None` outside the shape.
    pub(crate) fn state(&self, core: u32, block: u32) -> Option<CacheState>
        ensures inside { core < self.now.situation.shape.cores → block < self.now.situation.shape.blocks → result ≡ Some (state_of self.now.situation core block) }
        ensures outside { IfSome result (λ _. (core < self.now.situation.shape.cores) × (block < self.now.situation.shape.blocks)) }
    {
        if core < self.shape.cores() && block < self.shape.blocks() {
            Some(self.line_state(core, block))
        } else {
            None
        }
    }

    /// The value of a word that the core keeps, or `None` outside the shape and in a state that may not read.
    #[tactic(auto, using(crate::proofs::PartsViews::pictures_get))]
    pub(crate) fn kept(&self, core: u32, block: u32, word: u32) -> Option<u64>
        ensures inside { core < self.now.situation.shape.cores → block < self.now.situation.shape.blocks → word < self.now.situation.shape.words → result ≡ option_map (λ ws. word_at ws word) (held_of self.now.situation core block).kept }
        ensures readable { core < self.now.situation.shape.cores → block < self.now.situation.shape.blocks → word < self.now.situation.shape.words → is_some result ≡ keeps (state_of self.now.situation core block) }
        ensures outside { IfSome result (λ _. (core < self.now.situation.shape.cores) × (block < self.now.situation.shape.blocks) × (word < self.now.situation.shape.words)) }
    {
        if core < self.shape.cores() && block < self.shape.blocks() && word < self.shape.words() {
            word_kept(self.lines.get(core, block), word)
        } else {
            None
        }
    }

    /// Memory's state of the block, or `None` outside the shape.
    pub(crate) fn mem_state(&self, block: u32) -> Option<MemState>
        ensures inside { block < self.now.situation.shape.blocks → result ≡ Some (picture_of self.now.situation block).memory.state }
        ensures outside { IfSome result (λ _. block < self.now.situation.shape.blocks) }
    {
        if block < self.shape.blocks() {
            Some(self.memory_state(block))
        } else {
            None
        }
    }

    /// Memory's value of a word, or `None` outside the shape.
    pub(crate) fn mem_value(&self, block: u32, word: u32) -> Option<u64>
        ensures inside { block < self.now.situation.shape.blocks → word < self.now.situation.shape.words → result ≡ Some (word_at (picture_of self.now.situation block).memory.value word) }
        ensures outside { IfSome result (λ _. (block < self.now.situation.shape.blocks) × (word < self.now.situation.shape.words)) }
    {
        if block < self.shape.blocks() && word < self.shape.words() {
            Some(self.memory_words(block).at(word))
        } else {
            None
        }
    }

    /// The block's open transaction, if there is one.
    #[tactic(auto, using(crate::proofs::PartsViews::pictures_get))]
    pub(crate) fn open(&self, block: u32) -> Option<Open>
        ensures value { result ≡ (picture_of self.now.situation block).transaction }
        ensures padded { IfSome result (λ opened. AreZeroFrom self.now.situation.shape.words opened.value) }
    {
        let opened = self.bus.opened(block)?;
        Some(Open {
            core: opened.core,
            request: opened.request,
            block: opened.block,
            payload: opened.payload,
            value: opened.value.to_words(),
            from: opened.from,
        })
    }

    /// The core whose transaction is open on the block, if one is.
    pub(crate) fn requestor(&self, block: u32) -> Option<u32>
        ensures { result ≡ option_map (λ opened. opened.core) (picture_of self.now.situation block).transaction }
    {
        let opened = self.transaction(block)?;
        Some(opened.core)
    }

    /// The requestor of the block's open transaction, its request, and the payload of the message, if one is open.
    pub(crate) fn transfer(&self, block: u32) -> Option<(u32, Request, Payload)>
        ensures { result ≡ option_map (λ opened. (opened.core, opened.request, opened.payload)) (picture_of self.now.situation block).transaction }
    {
        let opened = self.transaction(block)?;
        Some((opened.core, opened.request, opened.payload))
    }

    /// Whether a request of the core waits to be ordered.
    pub(crate) fn waiting(&self, core: u32) -> bool
        ensures { IsTrue result ↔ (0 < length (queue_of self.now.situation.queues core)) }
    {
        self.bus.head(core).is_some()
    }

    /// Whether the core's request for the block waits to be ordered.
    pub(crate) fn waits_on(&self, core: u32, block: u32) -> bool
        requires core { core < self.now.situation.shape.cores }
        requires block { block < self.now.situation.shape.blocks }
        ensures { result ≡ is_some (waiting_request (state_of self.now.situation core block)) }
    {
        match self.head(core) {
            // The queue alone shows it, unless another block's request stands first.
            None => false,
            Some((_, first)) if first == block => true,
            Some(_) => waits(self.line_state(core, block)),
        }
    }

    /// The place of the core's request for the block, if it waits, the oldest request's being 1.
    pub(crate) fn place(&self, core: u32, block: u32) -> Option<usize>
        ensures { result ≡ place_in (queue_of self.now.situation.queues core) block }
    {
        self.bus.place(core, block)
    }

    /// How many lines the core's map has, or `None` outside the shape.
    #[tactic(auto, using(crate::proofs::PartsViews::pictures_get))]
    pub(crate) fn lines(&self, core: u32) -> Option<usize>
        ensures inside { core < self.now.situation.shape.cores → result ≡ Some (line_count self.now core) }
        ensures held { HasHeldLines self.now core }
        ensures outside { IfSome result (λ _. core < self.now.situation.shape.cores) }
    {
        self.lines.len(core)
    }

    /// The state in which the core holds the block.
    #[inline(always)]
    #[tactic(auto, using(crate::proofs::PartsViews::pictures_get))]
    fn line_state(&self, core: u32, block: u32) -> CacheState
        requires core { core < self.now.situation.shape.cores }
        requires block { block < self.now.situation.shape.blocks }
        ensures { result ≡ state_of self.now.situation core block }
    {
        self.lines.state(core, block)
    }

    /// Memory's state of the block.
    #[inline(always)]
    #[tactic(auto, using(crate::proofs::PartsViews::pictures_get))]
    fn memory_state(&self, block: u32) -> MemState
        ensures { result ≡ (picture_of self.now.situation block).memory.state }
    {
        self.memory.state(block)
    }

    /// Memory's words of the block.
    #[inline(always)]
    #[tactic(auto, using(crate::proofs::PartsViews::pictures_get))]
    fn memory_words(&self, block: u32) -> Kept<B>
        ensures { result ≡ (picture_of self.now.situation block).memory.value }
    {
        self.memory.words(block)
    }

    /// The block's open transaction.
    #[inline(always)]
    #[tactic(auto, using(crate::proofs::PartsViews::pictures_get))]
    fn transaction(&self, block: u32) -> Option<&Open<Kept<B>>>
        ensures value { option_copied result ≡ (picture_of self.now.situation block).transaction }
        ensures within { IfSome (option_copied result) (λ opened. (opened.block ≡ block) × (opened.core < self.now.situation.shape.cores)) }
    {
        self.bus.opened(block)
    }

    /// The core's next operation, as the history will have it.
    fn next_did(&self, core: u32, block: u32, access: Access, value: u64, hit: bool) -> Did
        requires { core < self.now.situation.shape.cores }
        ensures { result ≡ next_did self.now.situation.log core block access.word access.op value hit }
    {
        Did {
            core,
            number: self.log.count(core).unwrap(),
            block,
            word: access.word,
            load: matches!(&access.op, Op::Load),
            value,
            hit,
        }
    }
}

/// The value of a word that a line keeps, if it keeps any.
fn word_kept<B: Block>(found: Option<&Entry<B>>, word: u32) -> Option<u64>
    requires { word < B.count }
    ensures value { result ≡ option_map (λ ws. word_at ws word) (line_or_nothing (option_copied found.entry)).kept }
    ensures some { is_some result ≡ is_some (line_or_nothing (option_copied found.entry)).kept }
{
    match found {
        Some(entry) => entry.at(word),
        None => None,
    }
}

/// What memory holds of each block. States and words stand apart, so that a state is written alone.
#[derive(Drop)]
struct Memory<B: Block> {
    states: BlockTable<MemState>,
    words: BlockTable<Kept<B>>,
}

impl<B: Block> Model for Memory<B> {
    ghost use Rattle.std.specs.Prelude.{◌≡◌, length};
    ghost use Rattle.snoop_machine.specs.Memory.{MemTables};

    ghost Value = { MemTables };

    ghost view = { λ m. record { states = m.states; words = m.words } };

    ghost invariant = { λ m. length m.states ≡ length m.words };
}

impl<B: Block> Memory<B> {
    /// Memory's state of the block. `IorS` stands for a block outside the shape alone.
    #[inline(always)]
    fn state(&self, block: u32) -> MemState
        ensures { result ≡ (memory_line self.now block).state }
    {
        self.states.get_or(block, MemState::IorS)
    }

    /// Memory's words of the block.
    #[inline(always)]
    fn words(&self, block: u32) -> Kept<B>
        requires { B.count ≤ 64 }
        ensures { result ≡ (memory_line self.now block).value }
    {
        self.words.get_or(block, Kept::zero())
    }

    /// Memory moves to its next state of the block, and its words stay.
    #[inline(always)]
    fn move_to(&mut self, block: u32, next: MemState)
        requires { block < length self.old.states }
        ensures { self.new ≡ record self.old { states = slice_set self.old.states block next } }
    {
        self.states.set(block, next);
    }

    /// Memory moves to its next state of the block, with these words.
    #[inline(always)]
    fn write(&mut self, block: u32, next: MemState, words: &Kept<B>)
        requires { block < length self.old.states }
        ensures { self.new ≡ record { states = slice_set self.old.states block next; words = slice_set self.old.words block words.now } }
    {
        self.words.set(block, *words);
        self.states.set(block, next);
    }

    /// Memory's state of the block becomes the cell's next one, and the words that came are kept where the cell's action is to write.
    #[inline(always)]
    fn settle(&mut self, block: u32, cell: MemCell, came: &Kept<B>)
        requires { block < length self.old.states }
        ensures { self.new ≡ record { states = slice_set self.old.states block cell.next; words = slice_set self.old.words block (written cell.action came.now (memory_line self.old block).value) } }
    {
        match cell.action {
            MemAction::Write => self.write(block, cell.next, came),
            MemAction::None | MemAction::Send(_) => self.move_to(block, cell.next),
        }
    }
}
