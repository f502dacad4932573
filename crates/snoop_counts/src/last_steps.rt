//! When something last happened to a core or a word of a block.
ghost use Rattle.std.specs.Prelude.{◌≡◌, ◌<◌, ◌==◌, ◌&&◌, [], ℕ, OnOk, length, slice_index, if◌then◌else◌};
ghost use Rattle.snoop_counts.specs.LastSteps.{Marks, number_at};

use snoop_trace::NoMemory;
use std::alloc::Global;

/// The numbers of steps for the cores, or the words, of one block. Those past its end are 0.
#[derive(Drop)]
pub(crate) struct Row {
    numbers: Vec<u64>,
}

impl Row {
    // Makes the row reach this place.
    fn reach(&mut self, at: usize) -> Result<(), NoMemory>
        ensures same { OnOk result ((other : ℕ) → slice_index self.new.numbers.items other ≡ slice_index self.old.numbers.items other) }
        ensures there { OnOk result (at < length self.new.numbers.items) }
    {
        while self.numbers.len() <= at {
            match self.numbers.push(0) {
                Ok(()) => {}
                Err(_) => return Err(NoMemory),
            }
        }
        Ok(())
    }

    // Writes a number.
    fn set(&mut self, at: u32, number: u64) -> Result<(), NoMemory>
        ensures { OnOk result ((other : ℕ) → slice_index self.new.numbers.items other ≡ (if at == other then number else slice_index self.old.numbers.items other)) }
    {
        self.reach(at as usize)?;
        self.numbers[at as usize] = number;
        Ok(())
    }
}

/// For each block the numbers of the last steps in which something happened to its cores, or its words: 0 where it never did.
/// Only blocks and places up to the last that was written cost memory.
#[derive(Drop)]
pub(crate) struct LastSteps {
    rows: Vec<Row>,
}

impl LastSteps {
    /// Nothing has happened yet.
    pub(crate) fn new(alloc: Global) -> LastSteps
        ensures { result.rows.items ≡ [] }
    {
        LastSteps {
            rows: Vec::new(alloc),
        }
    }

    /// The number of the last step, or 0.
    pub(crate) fn of(&self, block: u32, at: u32) -> u64
        ensures { result ≡ number_at self.now.rows.items block at }
    {
        match self.rows.get(block as usize) {
            None => 0,
            Some(row) => row.numbers.get(at as usize).copied().unwrap_or(0),
        }
    }

    // Makes the rows reach this block.
    fn reach(&mut self, block: usize) -> Result<(), NoMemory>
        ensures same { OnOk result ((other at : ℕ) → number_at self.new.rows.items other at ≡ number_at self.old.rows.items other at) }
        ensures there { OnOk result (block < length self.new.rows.items) }
    {
        let alloc = *self.rows.allocator();
        while self.rows.len() <= block {
            let numbers = Vec::new(alloc);
            match self.rows.push(Row { numbers }) {
                Ok(()) => {}
                Err(_) => return Err(NoMemory),
            }
        }
        Ok(())
    }

    /// Writes the number of a step.
    pub(crate) fn set(&mut self, block: u32, at: u32, number: u64) -> Result<(), NoMemory>
        ensures { OnOk result (Marks (λ other one. block == other && at == one) number self.old self.new) }
    {
        self.reach(block as usize)?;
        self.rows[block as usize].set(at, number)
    }
}
