//! The counts of each block, as a table.
ghost use Rattle.std.specs.Prelude.{◌≡◌, ◌<◌, ◌++◌, ◌∷◌, [], ℕ, true, List, All, IfOk, OnOk, map, if◌then◌else◌};
ghost use Rattle.std.specs.List.{flat_map};
ghost use Rattle.snoop_counts.specs.BlockTally.{CountsBlocks};
ghost use Rattle.snoop_counts.specs.ByBlock.{block_line, block_table, blocks_named, blocks_shown, with_requests};
ghost use Rattle.snoop_counts.specs.Counted.{is_named};
ghost use Rattle.snoop_counts.specs.declared.count.Happening.{Happening};
ghost use Rattle.snoop_counts.specs.declared.count.Subjects.TheVariants.{Blocks};

use crate::block_tally::BlockTally;
use crate::core_table::{push_counts, push_header};
use crate::count::BLOCK_COUNTS;
use crate::ranking::{Ranked, rank, requests};
use crate::sharers::push_sharing;
use snoop_trace::streams::{push_byte, push_decimal};
use snoop_trace::{NoMemory, Shape};
use std::alloc::Global;

// Appends the line of a block that a line of a step names.
fn push_block(
    out: &mut Vec<u8>,
    shape: Shape,
    tally: &BlockTally,
    block: u32,
) -> Result<(), NoMemory>
    ensures { (seen : List Happening) → CountsBlocks shape.blocks seen tally.now → block < shape.blocks → is_named Blocks seen block ≡ true
        → OnOk result (out.new.items ≡ out.old.items ++ block_line shape seen block) }
{
    match tally.row(block) {
        None => Ok(()),
        Some(row) => {
            push_decimal(out, block as u64)?;
            push_byte(out, b',')?;
            push_decimal(out, shape.address_of(block))?;
            push_sharing(
                out,
                &tally.named,
                &tally.readers,
                &tally.writers,
                block,
                shape.cores(),
            )?;
            push_counts(out, &row, &BLOCK_COUNTS)?;
            push_byte(out, b'\n')
        }
    }
}

// Appends the block, with its requests, if a line names it.
fn push_named(named: &mut Vec<Ranked>, tally: &BlockTally, block: u32) -> Result<(), NoMemory>
    ensures { (blocks : ℕ) (seen : List Happening) → CountsBlocks blocks seen tally.now → block < blocks
        → OnOk result (named.new.items ≡ named.old.items ++ (if is_named Blocks seen block then with_requests seen block ∷ [] else [])) }
{
    match tally.row(block) {
        None => Ok(()),
        Some(row) => {
            let requests = requests(&row);
            match named.push(Ranked { block, requests }) {
                Ok(()) => Ok(()),
                Err(_) => Err(NoMemory),
            }
        }
    }
}

// The blocks that a line names, rising, with their requests.
fn blocks_named(alloc: Global, tally: &BlockTally, blocks: u32) -> Result<Vec<Ranked>, NoMemory>
    ensures { (seen : List Happening) → CountsBlocks blocks seen tally.now → IfOk result (λ list. list.items ≡ map (with_requests seen) (blocks_named blocks seen)) }
{
    let mut named = Vec::new(alloc);
    for block in 0..blocks {
        push_named(&mut named, tally, block)?;
    }
    Ok(named)
}

// The blocks that the table has, of those that are named.
fn blocks_shown(named: Vec<Ranked>, top: Option<u32>) -> Result<Vec<Ranked>, NoMemory>
    ensures { IfOk result (λ list. list.items ≡ blocks_shown top named.items) }
{
    match top {
        None => Ok(named),
        Some(most) => {
            let mut ranked = named;
            rank(&mut ranked)?;
            ranked.truncate(most as usize);
            Ok(ranked)
        }
    }
}

// Appends the lines of the blocks.
fn push_blocks(
    out: &mut Vec<u8>,
    shape: Shape,
    tally: &BlockTally,
    blocks: &[Ranked],
) -> Result<(), NoMemory>
    ensures { (seen : List Happening) → CountsBlocks shape.blocks seen tally.now → All (λ shown. (shown.block < shape.blocks) × (is_named Blocks seen shown.block ≡ true)) blocks.now
        → OnOk result (out.new.items ≡ out.old.items ++ flat_map (λ shown. block_line shape seen shown.block) blocks.now) }
{
    for shown in blocks {
        push_block(out, shape, tally, shown.block)?;
    }
    Ok(())
}

/// Appends the table of a shape: of all blocks that a line names, or of the `top` with the most ordered requests.
pub(crate) fn push_block_table(
    alloc: Global,
    out: &mut Vec<u8>,
    tally: &BlockTally,
    shape: Shape,
    top: Option<u32>,
) -> Result<(), NoMemory>
    ensures { (seen : List Happening) → CountsBlocks shape.blocks seen tally.now → OnOk result (out.new.items ≡ out.old.items ++ block_table shape top seen) }
{
    push_header(out, "block,address,cores,readers,writers", &BLOCK_COUNTS)?;
    let named = blocks_named(alloc, tally, shape.blocks())?;
    let shown = blocks_shown(named, top)?;
    push_blocks(out, shape, tally, &shown)
}
