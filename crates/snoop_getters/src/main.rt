//! Shows a machine after each step of a text: all that its getters answer, a line for each step, taken or refused.
//! The words are the protocol, how many cores, blocks and words of a block; the text comes on standard input.
#![tactic(auto)]

use anyhow::{Context, Result, bail};
use snoop_bus::Open;
use snoop_history::Log;
use snoop_machine::Machine;
use snoop_rules::Protocol;
use snoop_trace::streams::AnyReader;
use snoop_trace::{Shape, read_steps};
use std::alloc::Global;

/// What the command line asks for: a protocol and a shape, with blocks of 64 bytes.
fn machine_of(alloc: Global, words: &[String]) -> Result<Machine> {
    let [_, protocol, cores, blocks, words] = words else {
        bail!("a protocol, cores, blocks and words are wanted");
    };
    let protocol = match protocol.as_str() {
        "msi" => Protocol::Msi,
        "mesi" => Protocol::Mesi,
        _ => bail!("there are msi and mesi"),
    };
    let shape = Shape::with_words(
        cores.as_str().parse()?,
        blocks.as_str().parse()?,
        64,
        words.as_str().parse()?,
    )?;
    Ok(Machine::reset(alloc, protocol, shape)?)
}

/// Appends the value of a word, with a stroke before it but for a block's first.
fn push_value(out: &mut String, word: u32, value: Option<u64>) -> Result<()> {
    if word > 0 {
        out.push('/')?;
    }
    let value = value.context("no such word")?;
    write!(out, "{value}")?;
    Ok(())
}

/// Appends what the core holds of the block: its state, the values that it keeps, and where its request waits a mark and its place.
fn push_held(out: &mut String, machine: &Machine, core: u32, block: u32) -> Result<()> {
    let state = machine.state(core, block).context("no such line")?;
    write!(out, "{state}")?;
    let words = machine.shape().words();
    if machine.kept(core, block, 0).is_some() {
        out.push('=')?;
        for word in 0..words {
            push_value(out, word, machine.kept(core, block, word))?;
        }
    }
    if machine.waits_on(core, block) {
        out.push('!')?;
    }
    if let Some(place) = machine.place(core, block) {
        write!(out, "{place}")?;
    }
    Ok(())
}

/// Appends the rest of the open transaction: values, and the core that sends it or memory.
fn push_open(out: &mut String, open: &Open, words: u32) -> Result<()> {
    let Open { value, from, .. } = open;
    for word in 0..words {
        push_value(out, word, value.get(word))?;
    }
    out.push(':')?;
    match from {
        Some(sender) => write!(out, "{sender}")?,
        None => out.push_str("memory")?,
    }
    Ok(())
}

/// Appends all that is seen of the block: what each core holds, memory's state and values, and the open transaction.
fn push_block(out: &mut String, machine: &Machine, block: u32) -> Result<()> {
    for core in 0..machine.shape().cores() {
        push_held(out, machine, core, block)?;
        out.push(',')?;
    }
    let memory = machine.mem_state(block).context("no such block")?;
    let words = machine.shape().words();
    write!(out, "{memory}=")?;
    for word in 0..words {
        push_value(out, word, machine.mem_value(block, word))?;
    }
    out.push(',')?;
    if let Some((core, request, payload)) = machine.transfer(block) {
        write!(out, "{core}:{request}:{payload}:")?;
    }
    if let Some(open) = machine.open(block) {
        push_open(out, &open, words)?;
    }
    out.push('|')?;
    Ok(())
}

/// Appends the line of a machine: each block, then how many lines each core has, with a mark where a request of the core waits, and
/// the oldest one.
fn push_machine(out: &mut String, machine: &Machine) -> Result<()> {
    for block in 0..machine.shape().blocks() {
        push_block(out, machine, block)?;
    }
    for core in 0..machine.shape().cores() {
        let lines = machine.lines(core).context("no such core")?;
        let mark = if machine.waiting(core) { "!" } else { "" };
        write!(out, "{lines}{mark}")?;
        if let Some((request, block)) = machine.head(core) {
            write!(out, "{request}:{block}")?;
        }
        out.push(',')?;
    }
    out.push('\n')?;
    Ok(())
}

/// Appends the log's line: how many items there are, each core's operations, and each block's values in flat memory.
fn push_log(out: &mut String, log: &Log, shape: Shape) -> Result<()> {
    write!(out, "{}|", log.len())?;
    for core in 0..shape.cores() {
        let count = log.count(core).context("no such core")?;
        write!(out, "{count},")?;
    }
    out.push('|')?;
    for block in 0..shape.blocks() {
        for word in 0..shape.words() {
            push_value(out, word, log.flat(block, word))?;
        }
        out.push(',')?;
    }
    out.push('\n')?;
    Ok(())
}

fn main(rt: HostRuntime) -> Result<()> {
    let alloc = rt.alloc();
    let words: Vec<String> = std::env::args(&rt)?.collect(alloc)?;
    let mut machine = machine_of(alloc, &words)?;
    let mut out = String::new(alloc);
    let mut reader = AnyReader::new(rt.stdin());
    for step in &read_steps(alloc, &mut reader, machine.protocol(), machine.shape())? {
        // A refused step changes nothing, and the line shows it.
        let _ = machine.step(*step);
        push_machine(&mut out, &machine)?;
    }
    push_log(&mut out, machine.log(), machine.shape())?;
    print!(rt; "{out}")?;
    Ok(())
}
