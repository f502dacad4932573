//! The last line of the tables.
ghost use Rattle.std.specs.Prelude.{◌≡◌, ◌++◌, ◌∷◌, [], codes, IfOk, OnOk, if◌then◌else◌};
ghost use Rattle.std.specs.Fmt.{decimal};
ghost use Rattle.std.specs.List.{filter, flat_map, range_with_len};
ghost use Rattle.snoop_states.specs.AtEnd.{end_text, is_open, is_waiting, listed, still_open_text, waiting_text};

use snoop_machine::Machine;
use snoop_trace::NoMemory;
use snoop_trace::streams::{push_numbered, push_text};
use std::alloc::Global;

// Whether a request of the core waits.
fn is_waiting(machine: &Machine, core: u32) -> bool
    ensures { result ≡ is_waiting machine.now.situation core }
{
    machine.waiting(core)
}

// Whether a transaction is open on the block.
fn is_open(machine: &Machine, block: u32) -> bool
    ensures { result ≡ is_open machine.now.situation block }
{
    machine.requestor(block).is_some()
}

// The cores that still wait.
fn waiting_cores(alloc: Global, machine: &Machine) -> Result<Vec<u32>, NoMemory>
    ensures { IfOk result (λ cores. cores.items ≡ filter (is_waiting machine.now.situation) (range_with_len 0 machine.now.situation.shape.cores)) }
{
    let cores = machine.shape().cores();
    match (0..cores)
        .filter(|core| is_waiting(machine, *core))
        .collect(alloc)
    {
        Ok(cores) => Ok(cores),
        Err(_) => Err(NoMemory),
    }
}

// The blocks on which a transaction is open.
fn open_blocks(alloc: Global, machine: &Machine) -> Result<Vec<u32>, NoMemory>
    ensures { IfOk result (λ blocks. blocks.items ≡ filter (is_open machine.now.situation) (range_with_len 0 machine.now.situation.shape.blocks)) }
{
    let blocks = machine.shape().blocks();
    match (0..blocks)
        .filter(|block| is_open(machine, *block))
        .collect(alloc)
    {
        Ok(blocks) => Ok(blocks),
        Err(_) => Err(NoMemory),
    }
}

// Appends a further number of a list.
fn push_next(out: &mut Vec<u8>, word: &str, number: u32) -> Result<(), NoMemory>
    ensures { OnOk result (out.new.items ≡ out.old.items ++ (codes ", " ++ word.now ++ decimal number)) }
{
    push_text(out, ", ")?;
    push_numbered(out, word, number as u64)
}

// Appends further numbers of a list.
fn push_further(out: &mut Vec<u8>, word: &str, numbers: &[u32]) -> Result<(), NoMemory>
    ensures { OnOk result (out.new.items ≡ out.old.items ++ flat_map (λ m. codes ", " ++ word.now ++ decimal m) numbers.now) }
{
    for number in numbers {
        push_next(out, word, *number)?;
    }
    Ok(())
}

// Appends the numbers, a word before each, or what is said where there are none.
fn push_listed(
    out: &mut Vec<u8>,
    none: &str,
    intro: &str,
    word: &str,
    numbers: &[u32],
) -> Result<(), NoMemory>
    ensures { OnOk result (out.new.items ≡ out.old.items ++ listed none.now intro.now word.now numbers.now) }
{
    match numbers.split_first() {
        None => push_text(out, none),
        Some((first, further)) => {
            push_text(out, intro)?;
            push_numbered(out, word, *first as u64)?;
            push_further(out, word, further)
        }
    }
}

fn push_waiting(alloc: Global, out: &mut Vec<u8>, machine: &Machine) -> Result<(), NoMemory>
    ensures { OnOk result (out.new.items ≡ out.old.items ++ waiting_text machine.now.situation) }
{
    let cores = waiting_cores(alloc, machine)?;
    push_listed(out, "nothing waits", "still waiting: ", "core ", &cores)
}

fn push_still_open(alloc: Global, out: &mut Vec<u8>, machine: &Machine) -> Result<(), NoMemory>
    ensures { OnOk result (out.new.items ≡ out.old.items ++ still_open_text machine.now.situation) }
{
    let blocks = open_blocks(alloc, machine)?;
    push_listed(out, "nothing is open", "still open: ", "block ", &blocks)
}

/// Appends the last line.
pub(crate) fn push_end(alloc: Global, out: &mut Vec<u8>, machine: &Machine) -> Result<(), NoMemory>
    ensures { OnOk result (out.new.items ≡ out.old.items ++ end_text machine.now.situation) }
{
    push_text(out, "at the end: ")?;
    push_waiting(alloc, out, machine)?;
    push_text(out, "; ")?;
    push_still_open(alloc, out, machine)?;
    push_text(out, "\n")
}
