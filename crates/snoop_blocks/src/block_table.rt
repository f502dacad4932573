//! A table by block.
ghost use Rattle.std.specs.Prelude.{◌≡◌, ◌<◌, length, replicate, IfOk, option_copied, slice_get, slice_index_or, slice_set};
ghost use Rattle.snoop_blocks.specs.Places.{changed_at};

use std::alloc::{AllocError, Global};
use std::marker::Model;

/// A value for each block, all alike at first.
///
/// A block that was never written costs the four bytes of its place. Room for the values of all blocks is reserved at the start, so that
/// no write takes memory; the system gives memory to those that are written.
#[derive(Debug, Drop)]
pub struct BlockTable<T> {
    first: T,
    /// By block: 0 where it was never written, else its value's place in `written`, from 1.
    places: Vec<u32>,
    written: Vec<T>,
}

impl<T> Model for BlockTable<T> {
    ghost use Rattle.std.specs.Prelude.{List};
    ghost use Rattle.snoop_blocks.specs.Places.{seen, ArePlaces};
    ghost use Rattle.std.specs.Prelude.{vec_capacity};

    ghost Value = { List T };

    ghost view = { λ t. seen t.first t.written.items t.places.items };

    ghost invariant = { λ t. ArePlaces t.places.items t.written.items (vec_capacity t.written) };
}

/// A change of one value of a table.
pub trait Change<T> {
    // What becomes of a value.
    ghost changed: { Self → T → T };

    /// Changes the value.
    fn change(self, value: &mut T)
        ensures { value.new ≡ changed self value.old };
}

impl<T: Copy> BlockTable<T> {
    /// A table with this value for each block. `AllocError` where a growth was refused.
    pub fn new(alloc: Global, blocks: u32, first: T) -> Result<Self, AllocError>
        ensures { IfOk result (λ table. table ≡ replicate blocks first) }
    {
        let places = vec![in alloc; 0; blocks as usize]?;
        let written = Vec::with_capacity(alloc, blocks as usize)?;
        Ok(BlockTable {
            first,
            places,
            written,
        })
    }

    /// The block's value, or `None` where there is no such block.
    pub fn get(&self, block: u32) -> Option<T>
        ensures { result ≡ slice_get self.now block }
    {
        let place = *self.places.get(block as usize)?;
        if place == 0 {
            Some(self.first)
        } else {
            Some(self.written[(place - 1) as usize])
        }
    }

    /// The block's value where it stands, or `None` where there is no such block.
    pub fn get_ref(&self, block: u32) -> Option<&T>
        ensures { option_copied result ≡ slice_get self.now block }
    {
        let place = *self.places.get(block as usize)?;
        if place == 0 {
            Some(&self.first)
        } else {
            Some(&self.written[(place - 1) as usize])
        }
    }

    /// The block's value, or this one where there is no such block.
    pub fn get_or(&self, block: u32, outside: T) -> T
        ensures { result ≡ slice_index_or self.now block outside }
    {
        let Some(place) = self.places.get(block as usize) else {
            return outside;
        };
        if *place == 0 {
            self.first
        } else {
            self.written[(*place - 1) as usize]
        }
    }

    /// Writes the block's value. It takes no memory of the allocator.
    pub fn set(&mut self, block: u32, value: T)
        requires { block < length self.old }
        ensures { self.new ≡ slice_set self.old block value }
    {
        let place = self.places[block as usize];
        if place == 0 {
            self.written.push_reserved(value);
            self.places[block as usize] = self.written.len() as u32;
        } else {
            self.written[(place - 1) as usize] = value;
        }
    }

    /// Changes the block's value where it stands; nothing where there is no such block. It takes no memory of the allocator.
    #[inline(always)]
    pub fn change<C: Change<T> + Copy>(&mut self, block: u32, change: C)
        ensures { self.new ≡ changed_at self.old block (C.changed change) }
    {
        let Some(place) = self.places.get(block as usize).copied() else {
            return;
        };
        if place == 0 {
            let mut value = self.first;
            change.change(&mut value);
            self.set(block, value);
        } else {
            change.change(&mut self.written[(place - 1) as usize]);
        }
    }
}
