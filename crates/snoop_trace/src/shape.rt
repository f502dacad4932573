//! How many cores and blocks there are, and how many bytes and words a block.
ghost use Rattle.std.specs.Prelude.{◌≡◌, ◌<◌, ◌↔◌, Err, IsTrue};
ghost use Rattle.std.specs.Result.{OkIff};
ghost use Rattle.snoop_trace.specs.Extent.{IsBlockCount, IsBlockSize, IsCoreCount, IsWithinLimits, IsWordCount};
ghost use Rattle.snoop_trace.specs.Output.{address_of, word_address};
ghost use Rattle.snoop_trace.specs.Words.{HasWord};

use crate::step::Op;
use crate::words::MAX_WORDS;
use std::marker::Model;
use thiserror::Error;

/// The most cores of a shape.
pub(crate) const MAX_CORES: u32 = 256;

/// The most blocks of a shape.
pub(crate) const MAX_BLOCKS: u32 = 65536;

/// The most bytes of a block.
pub(crate) const MAX_BLOCK_BYTES: u32 = 4096;

/// Why there is no such shape: the first of these that holds.
#[derive(Clone, Copy, Debug, PartialEq, Eq, Error)]
pub enum ShapeFault {
    /// The cores are not from 1 to 256.
    #[error("BadCores")]
    BadCores,
    /// The blocks are not from 1 to 65,536.
    #[error("BadBlocks")]
    BadBlocks,
    /// The bytes of a block are no power of two from 1 to 4,096.
    #[error("BadBytes")]
    BadBytes,
    /// The words of a block are no power of two from 1 to 64, or they are several of less than 8 bytes.
    #[error("BadWords")]
    BadWords,
}

/// How many cores and blocks a machine has, and how many bytes and words a block.
///
/// Cores and blocks are numbered from 0; addresses are in bytes, and block n begins at n times the
/// bytes of a block.
#[derive(Clone, Copy, Debug, PartialEq, Eq)]
pub struct Shape {
    cores: u32,
    blocks: u32,
    block_bytes: u32,
    words: u32,
}

impl Model for Shape {
    ghost use Rattle.snoop_trace.specs.Extent.{Extent, IsWithinLimits};

    ghost Value = { Extent };

    ghost use Rattle.snoop_trace.specs.Shape.{extent, fields};

    ghost view = { extent };

    ghost invariant = { λ s. IsWithinLimits (extent s) };

    ghost inverse = { fields };
}

impl Shape {
    ghost use Rattle.snoop_trace.specs.Grammar.{block_at, word_asked, word_in_block};

    /// The shape of so many cores and blocks, and bytes a block; a block is one word.
    ///
    /// It is refused where it is not within the limits, by the first of `BadCores`, `BadBlocks` and
    /// `BadBytes` that holds.
    pub fn new(cores: u32, blocks: u32, block_bytes: u32) -> Result<Shape, ShapeFault>
        ensures ok { OkIff result (IsCoreCount cores × IsBlockCount blocks × IsBlockSize block_bytes)
            (record { cores = cores; blocks = blocks; block_bytes = block_bytes; words = 1 }) }
        ensures bad_cores { (result ≡ Err ShapeFault.BadCores) ↔ (¬ IsCoreCount cores) }
        ensures bad_blocks { (result ≡ Err ShapeFault.BadBlocks) ↔ (IsCoreCount cores × ¬ IsBlockCount blocks) }
        ensures bad_bytes { (result ≡ Err ShapeFault.BadBytes)
            ↔ (IsCoreCount cores × IsBlockCount blocks × ¬ IsBlockSize block_bytes) }
    {
        Shape::with_words(cores, blocks, block_bytes, 1)
    }

    /// The shape of so many cores and blocks, and bytes and words a block.
    ///
    /// It is refused as by `new`, and then by `BadWords` where a block cannot have so many words.
    #[tactic(auto, using(std::proofs::lemmas::Bool::Decides::nat_tests, crate::proofs::PowerLemmas::is_power, crate::proofs::PowerLemmas::no_power))]
    pub fn with_words(
        cores: u32,
        blocks: u32,
        block_bytes: u32,
        words: u32,
    ) -> Result<Shape, ShapeFault>
        ensures ok { OkIff result (IsCoreCount cores × IsBlockCount blocks × IsBlockSize block_bytes × IsWordCount words block_bytes)
            (record { cores = cores; blocks = blocks; block_bytes = block_bytes; words = words }) }
        ensures bad_cores { (result ≡ Err ShapeFault.BadCores) ↔ (¬ IsCoreCount cores) }
        ensures bad_blocks { (result ≡ Err ShapeFault.BadBlocks) ↔ (IsCoreCount cores × ¬ IsBlockCount blocks) }
        ensures bad_bytes { (result ≡ Err ShapeFault.BadBytes)
            ↔ (IsCoreCount cores × IsBlockCount blocks × ¬ IsBlockSize block_bytes) }
        ensures bad_words { (result ≡ Err ShapeFault.BadWords)
            ↔ (IsCoreCount cores × IsBlockCount blocks × IsBlockSize block_bytes × ¬ IsWordCount words block_bytes) }
    {
        if !(1..=MAX_CORES).contains(&cores) {
            return Err(ShapeFault::BadCores);
        }
        if !(1..=MAX_BLOCKS).contains(&blocks) {
            return Err(ShapeFault::BadBlocks);
        }
        if !block_bytes.is_power_of_two() || block_bytes > MAX_BLOCK_BYTES {
            return Err(ShapeFault::BadBytes);
        }
        if !words.is_power_of_two() || words > MAX_WORDS {
            return Err(ShapeFault::BadWords);
        }
        if words > 1 && 8 * words > block_bytes {
            return Err(ShapeFault::BadWords);
        }
        Ok(Shape {
            cores,
            blocks,
            block_bytes,
            words,
        })
    }

    /// Every shape is within the limits. This does nothing: a proof calls it for what it ensures.
    #[inline(always)]
    pub fn within_limits(&self)
        ensures { IsWithinLimits self.now }
    {
        let _ = &self.words;
    }

    /// How many cores there are, from 1 to 256.
    pub fn cores(&self) -> u32
        ensures value { result ≡ self.now.cores }
        ensures within { IsCoreCount self.now.cores }
    {
        self.cores
    }

    /// How many blocks there are, from 1 to 65,536.
    pub fn blocks(&self) -> u32
        ensures value { result ≡ self.now.blocks }
        ensures within { IsBlockCount self.now.blocks }
    {
        self.blocks
    }

    /// How many bytes a block has, a power of two up to 4,096.
    pub fn block_bytes(&self) -> u32
        ensures value { result ≡ self.now.block_bytes }
        ensures within { IsBlockSize self.now.block_bytes }
    {
        self.block_bytes
    }

    /// How many words a block has, a power of two up to 64.
    pub fn words(&self) -> u32
        ensures value { result ≡ self.now.words }
        ensures within { IsWordCount self.now.words self.now.block_bytes }
    {
        self.words
    }

    /// The word of its block that an address lies in.
    pub fn word_of(&self, address: u64) -> u32
        ensures value { result ≡ word_in_block self.now address }
        ensures within { result < self.now.words }
    {
        // The usual case, without a division.
        if self.words == 1 {
            return 0;
        }
        let bytes = self.block_bytes as u64;
        let word_bytes = bytes / self.words as u64;
        (address % bytes / word_bytes) as u32
    }

    /// The word that an operation at an address is of: an eviction is of the whole block, and has word 0.
    pub fn word_asked(&self, address: u64, op: Op) -> u32
        ensures { result ≡ word_asked self.now address op }
    {
        match op {
            Op::Load | Op::Store(_) => self.word_of(address),
            Op::Evict => 0,
        }
    }

    /// Whether an operation may be of the word: a load or a store of one that blocks have. An eviction is of the whole block, and
    /// its word is not looked at.
    pub fn has_word(&self, word: u32, op: Op) -> bool
        ensures { IsTrue result ↔ HasWord self.now word op }
    {
        match op {
            Op::Load | Op::Store(_) => word < self.words(),
            Op::Evict => true,
        }
    }

    /// The block that an address lies in: the address divided by the bytes of a block, rounded
    /// down; None where there is no such block.
    pub fn block_of(&self, address: u64) -> Option<u32>
        ensures { result ≡ block_at self.now address }
    {
        let block = address / self.block_bytes as u64;
        if block < self.blocks as u64 {
            Some(block as u32)
        } else {
            None
        }
    }

    /// The first address of a block, if need be of one outside the shape.
    #[inline(always)]
    pub fn address_of(&self, block: u32) -> u64
        ensures { result ≡ address_of self.now block }
    {
        block as u64 * self.block_bytes as u64
    }

    /// The first address of a word of a block, if need be of one outside the shape.
    #[inline(always)]
    pub fn word_address(&self, block: u32, word: u32) -> u64
        ensures { result ≡ word_address self.now block word }
    {
        // The block's address by the fields too: a call of `address_of` costs more to prove.
        let word_bytes = self.block_bytes / self.words;
        block as u64 * self.block_bytes as u64 + word as u64 * word_bytes as u64
    }
}
