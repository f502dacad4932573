//! Two cores share a block, and then both want to store to it. Prints each step's reply with the states of both cores' lines.
#![tactic(auto)]

use anyhow::Result;
use snoop_machine::Machine;
use snoop_rules::{CacheState, Protocol};
use snoop_trace::{Shape, Step, read_steps};
use std::io;

/// Both cores load the block, then both ask to store. Core 1's request is ordered first.
const STEPS: &str = "L,0,0\nO,0\nR,0\nL,1,0\nO,1\nR,0\nS,0,0,5\nS,1,0,6\nO,1\nO,0\nR,0\nO,0\nR,0\n";

/// Takes a step, and prints the reply.
fn take<R: Print>(rt: &R, machine: &mut Machine, step: Step) -> io::Result<()> {
    match machine.step(step) {
        Ok(reply) => print!(rt; "{reply}"),
        Err(cause) => print!(rt; "refused {cause}"),
    }
}

fn print_state<R: Print>(rt: &R, machine: &Machine, core: u32) -> io::Result<()> {
    let state = machine.state(core, 0).unwrap_or(CacheState::I);
    print!(rt; "core {core} in {state}")
}

fn print_totals<R: Print>(rt: &R, machine: &Machine) -> io::Result<()> {
    let totals = machine.log().totals();
    print!(rt; "{} loads, {} stores, ", totals.loads, totals.stores)?;
    println!(rt; "{} from caches", totals.from_caches)
}

fn main(rt: HostRuntime) -> Result<()> {
    let alloc = rt.alloc();
    let shape = Shape::new(2, 1, 64)?;
    let mut machine = Machine::reset(alloc, Protocol::Msi, shape)?;
    for step in &read_steps(alloc, &mut STEPS.as_bytes(), Protocol::Msi, shape)? {
        take(&rt, &mut machine, *step)?;
        print!(rt; ": ")?;
        print_state(&rt, &machine, 0)?;
        print!(rt; ", ")?;
        print_state(&rt, &machine, 1)?;
        println!(rt; "")?;
    }
    print_totals(&rt, &machine)?;
    Ok(())
}
