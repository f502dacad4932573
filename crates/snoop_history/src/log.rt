//! The history of a machine.
ghost use Rattle.std.specs.Prelude.{All, ◌&&◌, ◌==◌, ◌≡◌, ◌-◌, ◌<◌, ◌≤◌, ◌↔◌, [], ◌∷◌, ◌++◌, length, take, IsTrue, IfOk, IfSome, OnOk, OnErr, Some, None, slice_get, if◌then◌else◌, nat_lt};
ghost use Rattle.snoop_history.specs.History.{next_number, flat, answers_of, last_of, IsNumbered};
ghost use Rattle.snoop_history.specs.Within.{IsItemWithin};
ghost use Rattle.snoop_history.specs.Totals.{totals_of, touched};

use crate::board::{Board, TouchedBlocks};
use crate::items::{Did, Item, Totals};
use crate::packed::Packed;
use snoop_trace::{NoMemory, Shape};
use std::alloc::Global;
use std::marker::Model;

/// How many items a log may have, since the number of an operation is kept in six bytes. They would take 6.8 petabytes.
const MOST_ITEMS: usize = 1 << 48;

/// The history of a machine: the items of its steps in order, with their board and the blocks that they mention,
/// so that none is worked out anew.
#[derive(Debug, Drop)]
pub struct Log {
    items: Vec<Packed>,
    board: Board,
    touched: TouchedBlocks,
}

impl Model for Log {
    ghost use Rattle.snoop_history.specs.Journal.{Journal};

    ghost Value = { Journal };

    ghost use Rattle.snoop_history.specs.Kept.{journal, LogKeeps};

    ghost view = { journal };

    ghost invariant = { LogKeeps };
}

impl Log {
    /// The empty history of a machine of this shape. `NoMemory` where a table was refused.
    pub fn new(alloc: Global, shape: Shape) -> Result<Self, NoMemory>
        ensures { IfOk result (λ log. log ≡ record { cores = shape.cores; blocks = shape.blocks; words = shape.words; items = []; room = 0 }) }
    {
        prove!(shape.cores() <= 256);
        prove!(shape.words() <= 64);
        Ok(Log {
            items: Vec::new(alloc),
            board: Board::new(alloc, shape)?,
            touched: TouchedBlocks::new(alloc, shape.blocks() as usize)?,
        })
    }

    /// Makes room for one more item. `NoMemory` leaves all as it was, and comes only where there was no room. A log
    /// of 2^48 items (6.8 petabytes) has no room for more.
    pub fn reserve(&mut self) -> Result<(), NoMemory>
        ensures ok { OnOk result (0 < self.new.room) }
        ensures same { self.new ≡ record self.old { room = self.new.room } }
        ensures refused { OnErr result (self.new ≡ self.old) }
        ensures full { OnErr result (self.old.room ≡ 0) }
        ensures room { self.old.room ≤ self.new.room }
    {
        if self.items.len() >= MOST_ITEMS {
            return Err(NoMemory);
        }
        self.items.reserve(1)?;
        Ok(())
    }

    /// Whether there is room for one more item.
    pub fn has_room(&self) -> bool
        ensures { IsTrue result ↔ (0 < self.now.room) }
    {
        self.len() < self.items.capacity() && self.len() < MOST_ITEMS
    }

    /// How many items there are.
    pub fn len(&self) -> usize
        ensures { result ≡ length self.now.items }
    {
        self.items.len()
    }

    /// Whether there is no item.
    pub fn is_empty(&self) -> bool
        ensures { IsTrue result ↔ (self.now.items ≡ []) }
    {
        self.items.is_empty()
    }

    /// The item at this place, from 0.
    pub fn item(&self, place: usize) -> Option<Item>
        ensures value { result ≡ slice_get self.now.items place }
        ensures within { IfSome result (λ entry. IsItemWithin self.now.cores self.now.blocks self.now.words entry) }

        // The k-th operation of a core, from 0, carries number k.
        ensures numbered { IfSome result (λ entry. IsNumbered (take place self.now.items) entry) }
    {
        let packed = self.items.get(place).copied()?;
        Some(packed.unpack())
    }

    /// Does nothing: every item lies within the shape.
    pub fn kept(&self)
        ensures { All (IsItemWithin self.now.cores self.now.blocks self.now.words) self.now.items }
    {
        let _ = &self.items;
    }

    /// How many operations of the core were performed, and so the number of its next one; `None` outside the shape.
    pub fn count(&self, core: u32) -> Option<u64>
        ensures { result ≡ (if nat_lt core self.now.cores then Some (next_number self.now.items core) else None) }
    {
        self.board.count(core)
    }

    /// The core's last operation; `None` where it has none, and outside the shape. It takes no memory.
    pub fn last(&self, core: u32) -> Option<Did>
        ensures { result ≡ (if nat_lt core self.now.cores then last_of self.now.items core else None) }
    {
        self.board.last(core)
    }

    /// The word's value in flat memory: the last one stored, 0 if there is none; `None` outside the shape.
    pub fn flat(&self, block: u32, word: u32) -> Option<u64>
        ensures { result ≡ (if nat_lt block self.now.blocks && nat_lt word self.now.words then Some (flat self.now.items block word) else None) }
    {
        self.board.value(block, word)
    }

    /// How many words a block has.
    pub fn words(&self) -> u32
        ensures { result ≡ self.now.words }
    {
        self.board.words()
    }

    /// The counts of the items.
    pub fn totals(&self) -> Totals
        ensures { result ≡ totals_of self.now.items }
    {
        self.board.totals
    }

    /// The blocks that an item mentions, in order of first mention.
    pub(crate) fn touched(&self) -> &[u32]
        ensures value { result.now ≡ touched self.now.items }
        ensures within { All (λ block. block < self.now.blocks) result.now }
    {
        self.touched.order.as_slice()
    }

    /// The operations of one core, in order: none for a core outside the shape. `NoMemory` where the list
    /// was refused; the log stays as it was.
    pub fn answers(&self, core: u32) -> Result<Vec<Did>, NoMemory>
        ensures { IfOk result (λ dids. dids.items ≡ answers_of self.now.items core) }
    {
        let dids = self
            .items
            .iter()
            .filter_map(|packed| packed.operation())
            .filter(|did| did.core == core)
            .collect(*self.items.allocator())?;
        Ok(dids)
    }

    /// An equal log. `NoMemory` where a list or a table was refused; this log stays as it was.
    pub fn copy(&self) -> Result<Log, NoMemory>
        ensures { IfOk result (λ log. log ≡ record self.now { room = log.room }) }
    {
        let alloc = *self.items.allocator();
        Ok(Log {
            items: Vec::from_slice(alloc, &self.items)?,
            board: self.board.copy(alloc)?,
            touched: self.touched.copy(alloc)?,
        })
    }

    /// Whether the logs are equal: of one shape, and with the same items in order, whatever room they have.
    pub fn equals(&self, other: &Log) -> bool
        ensures { IsTrue result ↔ ((self.now.cores ≡ other.now.cores) × (self.now.blocks ≡ other.now.blocks) × (self.now.words ≡ other.now.words) × (self.now.items ≡ other.now.items)) }
    {
        self.board.cores() == other.board.cores()
            && self.board.blocks() == other.board.blocks()
            && self.board.words() == other.board.words()
            && self.has_items_of(other)
    }

    // Whether the items are the same.
    fn has_items_of(&self, other: &Log) -> bool
        ensures { IsTrue result ↔ (self.now.items ≡ other.now.items) }
    {
        if self.len() != other.len() {
            return false;
        }
        for place in 0..self.len() {
            let one = self.item(place).unwrap();
            let other = other.item(place).unwrap();
            if !is_same(one, other) {
                return false;
            }
        }
        true
    }

    /// Whether `push` may take the item, room aside: its core and block lie within the shape, and so do the core that
    /// sent its response, if one did, and the core, block and word of its operation, if it has one, which carries its
    /// core's `count` as its number.
    #[tactic(auto, using(crate::proofs::Boards::passes_within))]
    pub fn takes(&self, item: Item) -> bool
        ensures sound { IsTrue result → IsItemWithin self.now.cores self.now.blocks self.now.words item × IsNumbered self.now.items item }
        ensures whole { IsItemWithin self.now.cores self.now.blocks self.now.words item → IsNumbered self.now.items item → IsTrue result }
    {
        let numbered = match item.did() {
            Some(did) => self.is_next(did),
            None => true,
        };
        numbered && item.is_within(self.board.cores(), self.board.blocks(), self.board.words())
    }

    // Whether the operation carries its core's next number.
    fn is_next(&self, did: Did) -> bool
        ensures { result ≡ (nat_lt did.core self.now.cores && did.number == next_number self.now.items did.core) }
    {
        match self.count(did.core) {
            Some(number) => did.number == number,
            None => false,
        }
    }

    /// Puts an item last, in the room that `reserve` made. Its core and block lie within the shape, and so do the core
    /// that sent its response, if one did, and the core, block and word of its operation, if it has one, which carries
    /// its core's `count` as its number. It takes no memory.
    #[inline(always)]
    pub fn push(&mut self, item: Item)
        requires room { 0 < self.old.room }
        requires within { IsItemWithin self.old.cores self.old.blocks self.old.words item }
        requires numbered { IsNumbered self.old.items item }
        ensures { self.new ≡ record self.old { items = self.old.items ++ item ∷ []; room = self.old.room - 1 } }
    {
        self.board.absorb(item);
        self.touched.add(item);
        self.items.push_reserved(Packed::new(item));
    }
}

// Whether both items are one.
fn is_same(one: Item, other: Item) -> bool
    ensures sound { IsTrue result → one ≡ other }
    ensures whole { one ≡ other → IsTrue result }
{
    one == other
}
