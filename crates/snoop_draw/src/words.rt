//! What a column says of a block: a core its state, its values and its place in the queue, the bus the message of the open
//! transaction, memory its state and its values.
ghost use Rattle.std.specs.Prelude.{◌≡◌, IfOk};
ghost use Rattle.snoop_engine.specs.Words.{core_words, memory_words};
ghost use Rattle.snoop_draw.specs.Words.{bus_words};

use snoop_engine::{push_core_words, push_memory_words, push_message_words};
use snoop_machine::Machine;
use snoop_trace::NoMemory;
use std::alloc::Global;

/// What the core says of the block: its state, its values, and the place of its request in its queue, from the second on.
/// `NoMemory` where a growth was refused.
pub fn core_words(
    alloc: Global,
    machine: &Machine,
    block: u32,
    core: u32,
) -> Result<Vec<u8>, NoMemory>
    ensures { IfOk result (λ words. words.items ≡ core_words 2 machine.now.situation block core) }
{
    let mut words = Vec::new(alloc);
    push_core_words(&mut words, machine, block, core, 2)?;
    Ok(words)
}

/// What the bus says of the block: the message of the open transaction, if there is one. `NoMemory` where a growth was
/// refused.
pub fn bus_words(alloc: Global, machine: &Machine, block: u32) -> Result<Vec<u8>, NoMemory>
    ensures { IfOk result (λ words. words.items ≡ bus_words machine.now.situation block) }
{
    let mut words = Vec::new(alloc);
    if let Some(opened) = machine.open(block) {
        push_message_words(&mut words, machine.shape().words(), &opened)?;
    }
    Ok(words)
}

/// What memory says of the block: its state and its values, in brackets where it would not send them. `NoMemory` where a
/// growth was refused.
pub fn memory_words(alloc: Global, machine: &Machine, block: u32) -> Result<Vec<u8>, NoMemory>
    ensures { IfOk result (λ words. words.items ≡ memory_words machine.now.situation block) }
{
    let mut words = Vec::new(alloc);
    push_memory_words(&mut words, machine, block)?;
    Ok(words)
}
