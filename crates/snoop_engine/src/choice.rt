//! Which steps and which blocks are shown.
ghost use Rattle.std.specs.Prelude.{◌≡◌, ◌≤◌, IsTrue, ◌↔◌};

use snoop_trace::Shape;
use std::marker::Model;
use thiserror::Error;

/// Why there is no such choice: the first of these that holds.
#[derive(Clone, Copy, Debug, PartialEq, Eq, Error)]
pub enum ChoiceFault {
    /// The block is not below the shape's blocks.
    #[error("BadBlock")]
    BadBlock,
    /// The first number is 0, or above the last one.
    #[error("BadRange")]
    BadRange,
}

/// Which steps are shown: those of one block, or of each, whose numbers are from one number to another. Steps are numbered
/// from 1.
#[derive(Clone, Copy, Debug, PartialEq, Eq)]
pub struct Choice {
    block: Option<u32>,
    from: u64,
    to: u64,
}

impl Model for Choice {
    ghost use Rattle.std.specs.Prelude.{◌≤◌};
    ghost use Rattle.snoop_engine.specs.Chosen.{Chosen, chosen, fields};

    ghost Value = { Chosen };

    ghost view = { chosen };

    ghost invariant = { λ c. 1 ≤ c.from };

    ghost inverse = { fields };
}

impl Choice {
    ghost use Rattle.std.specs.Prelude.{◌+◌, ◌==◌};
    ghost use Rattle.snoop_engine.specs.Choice.{IsBlock, IsChoice};
    ghost use Rattle.snoop_engine.specs.Chosen.{is_chosen, is_shown, is_in_range};

    /// The steps numbered `from` to `to`, of the block alone where one is named.
    ///
    /// It is refused by `BadBlock` where the block is not below the shape's blocks, and else by `BadRange` where `from` is 0
    /// or above `to`.
    pub fn new(shape: Shape, block: Option<u32>, from: u64, to: u64) -> Result<Choice, ChoiceFault>
        ensures { IsChoice shape block from to result }
    {
        if !Self::is_block(shape, block) {
            return Err(ChoiceFault::BadBlock);
        }
        if from < 1 || to < from {
            return Err(ChoiceFault::BadRange);
        }
        Ok(Choice { block, from, to })
    }

    /// The block whose steps alone are shown, if one was named.
    pub fn block(&self) -> Option<u32>
        ensures { result ≡ self.now.block }
    {
        self.block
    }

    /// The number of the first step that is shown.
    pub fn from(&self) -> u64
        ensures value { result ≡ self.now.from }
        ensures within { 1 ≤ result }
    {
        self.from
    }

    /// The number of the last step that is shown; there may be fewer steps.
    pub fn to(&self) -> u64
        ensures { result ≡ self.now.to }
    {
        self.to
    }

    /// Whether step `number + 1` has the first number that is shown.
    pub fn is_first_after(&self, number: u64) -> bool
        ensures { result ≡ (number + 1 == self.now.from) }
    {
        number < self.from && self.from - number == 1
    }

    /// Whether the block is shown.
    pub fn has_block(&self, block: u32) -> bool
        ensures { result ≡ is_chosen self.now.block block }
    {
        match self.block {
            None => true,
            Some(one) => block == one,
        }
    }

    /// Whether a step of this number is shown, as far as its number goes.
    pub fn has_number(&self, number: u64) -> bool
        ensures { result ≡ is_in_range self.now number }
    {
        self.from <= number && number <= self.to
    }

    /// Whether a step of this block, if of any, and of this number is shown. Where a block was named, a step of none is not.
    pub fn has_step(&self, block: Option<u32>, number: u64) -> bool
        ensures { result ≡ is_shown self.now block number }
    {
        self.has_number(number)
            && match block {
                None => self.block.is_none(),
                Some(block) => self.has_block(block),
            }
    }

    // Whether the block, if one is named, is one of the shape.
    fn is_block(shape: Shape, block: Option<u32>) -> bool
        ensures { IsTrue result ↔ IsBlock shape block }
    {
        match block {
            None => true,
            Some(block) => block < shape.blocks(),
        }
    }
}
