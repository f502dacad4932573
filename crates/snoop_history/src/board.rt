//! The running tables of a history: its board, and the blocks that it mentions.
ghost use Rattle.std.specs.Prelude.{◌≡◌, ℕ, ◌&&◌, List, [], ◌∷◌, ◌++◌, length, Some, None, slice_get, slice_index, option_and_then, if◌then◌else◌, nat_eq, nat_lt, ◌<◌, slice_set, IsTrue, ◌↔◌, IfOk, false};
ghost use Rattle.std.specs.List.{list_any};
ghost use Rattle.std.specs.Option.{ForSome};
ghost use Rattle.indexmap.specs.IndexSet.{insert_key};
ghost use Rattle.snoop_trace.specs.Words.{place_of};
ghost use Rattle.snoop_history.specs.declared.items.Item.{Item};
ghost use Rattle.snoop_history.specs.History.{next_number, flat, last_of, operation_of};
ghost use Rattle.snoop_history.specs.Within.{block_of, inside};
ghost use Rattle.snoop_history.specs.Totals.{totals_of, capped, capped_totals, touched};
ghost use Rattle.snoop_history.specs.Board.{Tables, board_of, absorbed};
ghost use Rattle.snoop_history.specs.Mentions.{Mentions};

use crate::items::{Did, Item, Totals};
use indexmap::IndexSet;
use snoop_trace::{NoMemory, Shape};
use std::alloc::Global;
use std::marker::Model;

/// The board of a list of items: values by block and word, counts and last operations by core, and totals,
/// in tables of a fixed size. Counts stop at the largest `u64`.
///
/// An item outside the shape, by its core, its block, the core that sent its response, or the core, block or word of
/// its operation, is counted by the totals and changes nothing else.
#[derive(Debug, Drop)]
pub struct Board {
    blocks: u32,
    words: u32,
    /// By word, those of block 0 first.
    values: Vec<u64>,
    counts: Vec<u64>,
    lasts: Vec<Option<Did>>,
    pub(crate) totals: Totals,
}

impl Model for Board {
    ghost use Rattle.std.specs.Prelude.{◌≡◌, ◌*◌, length};
    ghost use Rattle.snoop_history.specs.Board.{Tables};

    ghost Value = { Tables };

    ghost view = { λ b. record { blocks = b.blocks; words = b.words; values = b.values.items; counts = b.counts.items; lasts = b.lasts.items; totals = b.totals } };

    ghost invariant = { λ b. (length b.lasts.items ≡ length b.counts.items) × (length b.values.items ≡ b.blocks * b.words) };
}

impl Board {
    /// The board of no items, for this shape. `NoMemory` where a table was refused.
    pub fn new(alloc: Global, shape: Shape) -> Result<Board, NoMemory>
        ensures { IfOk result (λ board. board ≡ board_of shape.cores shape.blocks shape.words []) }
    {
        let cores = shape.cores() as usize;
        let blocks = shape.blocks();
        let words = shape.words();
        Ok(Board {
            blocks,
            words,
            values: vec![in alloc; 0; blocks as usize * words as usize]?,
            counts: vec![in alloc; 0; cores]?,
            lasts: vec![in alloc; None; cores]?,
            totals: Totals::default(),
        })
    }

    /// Whether the board has this shape's numbers of cores, blocks and words.
    pub fn has_shape(&self, shape: Shape) -> bool
        ensures value { IsTrue result ↔ ((length self.now.counts ≡ shape.cores) × (self.now.blocks ≡ shape.blocks) × (self.now.words ≡ shape.words)) }
        ensures board { (cores blocks words : ℕ) (items : List Item) → self.now ≡ board_of cores blocks words items → (IsTrue result ↔ ((cores ≡ shape.cores) × (blocks ≡ shape.blocks) × (words ≡ shape.words))) }
    {
        let cores = shape.cores();
        let blocks = shape.blocks();
        let words = shape.words();
        self.has_sizes(cores, blocks, words)
    }

    // Whether there are so many cores and blocks, and words a block.
    fn has_sizes(&self, cores: u32, blocks: u32, words: u32) -> bool
        ensures { IsTrue result ↔ ((length self.now.counts ≡ cores) × (self.now.blocks ≡ blocks) × (self.now.words ≡ words)) }
    {
        self.counts.len() == cores as usize && self.blocks == blocks && self.words == words
    }

    /// How many cores there are.
    pub(crate) fn cores(&self) -> usize
        ensures { result ≡ length self.now.counts }
    {
        self.counts.len()
    }

    /// How many blocks there are.
    pub(crate) fn blocks(&self) -> u32
        ensures { result ≡ self.now.blocks }
    {
        self.blocks
    }

    /// How many words a block has.
    pub(crate) fn words(&self) -> u32
        ensures { result ≡ self.now.words }
    {
        self.words
    }

    /// Takes in one more item, of any kind. It takes no memory and cannot fail.
    #[inline(always)]
    pub fn absorb(&mut self, item: Item)
        ensures value { self.new ≡ absorbed self.old item }

        // The board of a list becomes the board of the list with the item appended.
        ensures board { (cores blocks words : ℕ) (items : List Item) → self.old ≡ board_of cores blocks words items → self.new ≡ board_of cores blocks words (items ++ item ∷ []) }
    {
        let did = item.operation_within(self.counts.len(), self.blocks, self.words);
        self.totals.add(item);
        if let Some(did) = did {
            let core = did.core as usize;
            self.counts[core] = self.counts[core].saturating_add(1);
            self.lasts[core] = Some(did);
            write_value(&mut self.values, self.words, did);
        }
    }

    /// The last value stored in the word of the block, 0 if there is none; `None` outside the shape.
    pub fn value(&self, block: u32, word: u32) -> Option<u64>
        ensures value { result ≡ (if nat_lt block self.now.blocks && nat_lt word self.now.words then Some (slice_index self.now.values (place_of self.now.words block word)) else None) }
        ensures board { (cores blocks words : ℕ) (items : List Item) → self.now ≡ board_of cores blocks words items → result ≡ (if nat_lt block blocks && nat_lt word words then Some (flat (inside cores blocks words items) block word) else None) }
    {
        if block < self.blocks && word < self.words {
            Some(read_value(&self.values, self.words, block, word))
        } else {
            None
        }
    }

    /// How many operations of the core there are, up to the largest `u64`; `None` outside the shape.
    pub fn count(&self, core: u32) -> Option<u64>
        ensures value { result ≡ slice_get self.now.counts core }
        ensures board { (cores blocks words : ℕ) (items : List Item) → self.now ≡ board_of cores blocks words items → result ≡ (if nat_lt core cores then Some (capped (next_number (inside cores blocks words items) core)) else None) }
    {
        self.counts.get(core as usize).copied()
    }

    /// The core's last operation; `None` where it has none, and outside the shape.
    pub fn last(&self, core: u32) -> Option<Did>
        ensures value { result ≡ option_and_then (λ last. last) (slice_get self.now.lasts core) }
        ensures board { (cores blocks words : ℕ) (items : List Item) → self.now ≡ board_of cores blocks words items → result ≡ (if nat_lt core cores then last_of (inside cores blocks words items) core else None) }
    {
        self.lasts.get(core as usize).copied().flatten()
    }

    /// The counts of all items, each up to the largest `u64`.
    pub fn totals(&self) -> Totals
        ensures value { result ≡ self.now.totals }
        ensures board { (cores blocks words : ℕ) (items : List Item) → self.now ≡ board_of cores blocks words items → result ≡ capped_totals (totals_of items) }
    {
        self.totals
    }

    /// An equal board. `NoMemory` where a table was refused.
    pub(crate) fn copy(&self, alloc: Global) -> Result<Board, NoMemory>
        ensures { IfOk result (λ board. board ≡ self.now) }
    {
        Ok(Board {
            blocks: self.blocks,
            words: self.words,
            values: Vec::from_slice(alloc, &self.values)?,
            counts: Vec::from_slice(alloc, &self.counts)?,
            lasts: Vec::from_slice(alloc, &self.lasts)?,
            totals: self.totals,
        })
    }
}

// The value in a word's place.
fn read_value(values: &Vec<u64>, words: u32, block: u32, word: u32) -> u64
    requires { place_of words block word < length values.now.items }
    ensures { result ≡ slice_index values.now.items (place_of words block word) }
{
    values[block as usize * words as usize + word as usize]
}

// Writes what a store stores, in its word's place.
fn write_value(values: &mut Vec<u64>, words: u32, did: Did)
    requires { place_of words did.block did.word < length values.old.items }
    ensures { values.new.items ≡ (if did.load then values.old.items else slice_set values.old.items (place_of words did.block did.word) did.value) }
{
    if !did.load {
        values[did.block as usize * words as usize + did.word as usize] = did.value;
    }
}

/// The blocks that items mention, in order of first mention, with room for all blocks from the beginning.
#[derive(Debug, Drop)]
pub(crate) struct TouchedBlocks {
    pub(crate) order: IndexSet<u32>,
    // By block, whether it is in `order`, so that the set is asked once a block.
    marks: Vec<bool>,
}

impl Model for TouchedBlocks {
    ghost use Rattle.snoop_history.specs.Mentions.{Mentions};

    ghost Value = { Mentions };

    ghost use Rattle.snoop_history.specs.Marked.{mentions, IsMarked};

    ghost view = { mentions };

    ghost invariant = { IsMarked };
}

impl TouchedBlocks {
    /// None of so many blocks.
    pub(crate) fn new(alloc: Global, blocks: usize) -> Result<Self, NoMemory>
        ensures { IfOk result (λ none. none ≡ record { blocks = blocks; order = [] }) }
    {
        Ok(TouchedBlocks {
            order: IndexSet::with_capacity(alloc, blocks)?,
            marks: vec![in alloc; false; blocks]?,
        })
    }

    /// Takes in the blocks that one more item mentions. It takes no memory.
    #[inline(always)]
    pub(crate) fn add(&mut self, item: Item)
        requires block { block_of item < self.old.blocks }
        requires operation { ForSome (operation_of item) (λ did. did.block < self.old.blocks) }
        ensures blocks { self.new.blocks ≡ self.old.blocks }
        ensures order { (items : List Item) → self.old.order ≡ touched items → self.new.order ≡ touched (items ++ item ∷ []) }
    {
        self.mention(item.block());
        if let Some(did) = item.did() {
            self.mention(did.block);
        }
    }

    // Puts the block last where it is new.
    #[inline(always)]
    fn mention(&mut self, block: u32)
        requires { block < self.old.blocks }
        ensures { self.new ≡ record { blocks = self.old.blocks; order = insert_key nat_eq self.old.order block } }
    {
        if !self.marks[block as usize] {
            self.put_last(block);
        }
    }

    // Puts a new block last. It stands apart, so that what is done with every item stays small.
    #[inline(never)]
    fn put_last(&mut self, block: u32)
        requires within { block < self.old.blocks }
        requires unmarked { list_any (nat_eq block) self.old.order ≡ false }
        ensures { self.new ≡ record { blocks = self.old.blocks; order = insert_key nat_eq self.old.order block } }
    {
        self.marks[block as usize] = true;
        let Ok(_) = self.order.insert(block) else {
            unreachable!()
        };
    }

    /// The same blocks again.
    pub(crate) fn copy(&self, alloc: Global) -> Result<Self, NoMemory>
        ensures { IfOk result (λ blocks. blocks ≡ self.now) }
    {
        let mut order = self.order.clone()?;
        order.reserve(self.marks.len() - order.len())?;
        Ok(TouchedBlocks {
            order,
            marks: Vec::from_slice(alloc, &self.marks)?,
        })
    }
}
