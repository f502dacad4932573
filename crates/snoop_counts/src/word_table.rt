//! The counts of each word of the blocks that cores share, as a table.
ghost use Rattle.std.specs.Prelude.{◌≡◌, ◌<◌, ◌*◌, ◌++◌, List, OnOk};
ghost use Rattle.std.specs.List.{flat_map, range_with_len};
ghost use Rattle.snoop_trace.specs.Output.{word_address};
ghost use Rattle.snoop_trace.specs.Words.{place_of};
ghost use Rattle.snoop_counts.specs.ByWord.{word_line, word_lines, word_table};
ghost use Rattle.snoop_counts.specs.WordTally.{CountsWords};
ghost use Rattle.snoop_counts.specs.declared.count.Happening.{Happening};

use crate::core_table::{push_counts, push_header};
use crate::count::Count;
use crate::sharers::push_sharing;
use crate::word_tally::WordTally;
use snoop_trace::streams::{push_byte, push_decimal};
use snoop_trace::{NoMemory, Shape};

// The counts of a word, in the order of the fields.
static WORD_COUNTS: [Count; 4] = [
    Count::Loads,
    Count::LoadHits,
    Count::Stores,
    Count::StoreHits,
];

// The place of a word among all words.
fn place_of_word(shape: Shape, block: u32, word: u32) -> u32
    requires within { (block < shape.blocks) × (word < shape.words) }
    ensures value { result ≡ place_of shape.words block word }
    ensures there { result < shape.blocks * shape.words }
{
    shape.within_limits();
    block * shape.words() + word
}

// Appends the line of a word.
fn push_word(
    out: &mut Vec<u8>,
    shape: Shape,
    tally: &WordTally,
    block: u32,
    word: u32,
) -> Result<(), NoMemory>
    requires { (block < shape.blocks) × (word < shape.words) }
    ensures { (seen : List Happening) → CountsWords shape seen tally.now
        → OnOk result (out.new.items ≡ out.old.items ++ word_line shape seen block word) }
{
    let place = place_of_word(shape, block, word);
    match tally.counters.row(place) {
        None => Ok(()),
        Some(row) => {
            push_decimal(out, block as u64)?;
            push_byte(out, b',')?;
            push_decimal(out, word as u64)?;
            push_byte(out, b',')?;
            push_decimal(out, shape.word_address(block, word))?;
            push_sharing(
                out,
                &tally.cores,
                &tally.readers,
                &tally.writers,
                place,
                shape.cores(),
            )?;
            push_counts(out, &row, &WORD_COUNTS)?;
            push_byte(out, b'\n')
        }
    }
}

// Appends the lines of the words of a block, if it is shared.
#[tactic(auto, using(crate::proofs::BlockLemmas::pieces_more))]
fn push_words(
    out: &mut Vec<u8>,
    shape: Shape,
    tally: &WordTally,
    block: u32,
) -> Result<(), NoMemory>
    requires { block < shape.blocks }
    ensures { (seen : List Happening) → CountsWords shape seen tally.now
        → OnOk result (out.new.items ≡ out.old.items ++ word_lines shape seen block) }
{
    if !tally.is_shared(block, shape.cores()) {
        return Ok(());
    }
    for word in 0..shape.words() {
        push_word(out, shape, tally, block, word)?;
    }
    Ok(())
}

// Appends the lines of the words of all blocks that are shared.
#[tactic(auto, using(crate::proofs::BlockLemmas::pieces_more))]
fn push_blocks(out: &mut Vec<u8>, tally: &WordTally, shape: Shape) -> Result<(), NoMemory>
    ensures { (seen : List Happening) → CountsWords shape seen tally.now
        → OnOk result (out.new.items ≡ out.old.items ++ flat_map (word_lines shape seen) (range_with_len 0 shape.blocks)) }
{
    for block in 0..shape.blocks() {
        push_words(out, shape, tally, block)?;
    }
    Ok(())
}

/// Appends the table.
pub(crate) fn push_word_table(
    out: &mut Vec<u8>,
    tally: &WordTally,
    shape: Shape,
) -> Result<(), NoMemory>
    ensures { (seen : List Happening) → CountsWords shape seen tally.now → OnOk result (out.new.items ≡ out.old.items ++ word_table shape seen) }
{
    push_header(
        out,
        "block,word,address,cores,readers,writers",
        &WORD_COUNTS,
    )?;
    push_blocks(out, tally, shape)
}
