//! Whole outputs. With any one growth refused, each is a beginning of itself: tools/refusals.py refuses each in turn.

use crate::engine::{Ended, Engine};
use snoop_rules::Protocol;
use snoop_sim::SimFault;
use snoop_trace::TextFault;
use std::alloc::Global;
use std::sync::Wait;
use std::test::Fail;
use std::thread::Threads;

/// Whether this is what a simulation may leave in a vector: the whole output, or a beginning of it where a growth was refused, and
/// nothing where reading was out of memory. A vector that can't grow is a writer that fails.
fn is_left(ended: Ended, written: &[u8], whole: &[u8]) -> bool {
    match ended {
        Ok(()) => written == whole,
        Err(SimFault::Text(TextFault::NoMemory)) => written.is_empty(),
        Err(SimFault::NoMemory | SimFault::Write) => whole.starts_with(written),
        _ => false,
    }
}

/// How a simulation ends, and whether it leaves what it may.
fn simulate<T: Threads + Wait + Sync>(
    rt: &T,
    alloc: Global,
    engine: Engine,
    protocol: Protocol,
) -> Result<(Ended, bool), Fail> {
    let mut written = Vec::new(alloc);
    let ended = engine.simulate(rt, alloc, &mut engine.text(), &mut written, protocol)?;
    let is_left = is_left(ended, &written, engine.output());
    Ok((ended, is_left))
}

/// Runs the text twice: of two runs the refused growth meets one.
fn leaves_a_beginning<T: Threads + Wait + Sync>(
    rt: &T,
    alloc: Global,
    engine: Engine,
) -> Result<(), Fail> {
    for protocol in [Protocol::Msi, Protocol::Mesi] {
        let (first, is_first_left) = simulate(rt, alloc, engine, protocol)?;
        let (second, is_second_left) = simulate(rt, alloc, engine, protocol)?;
        if !is_first_left {
            return Err(Fail::from("what the first run leaves"));
        }
        if !is_second_left {
            return Err(Fail::from("what the second run leaves"));
        }
        if first.is_err() && second.is_err() {
            return Err(Fail::from("both runs fail"));
        }
    }
    Ok(())
}

#[test]
fn steps_leave_a_beginning_of_their_output(rt: HostRuntime) -> Result<(), Fail> {
    leaves_a_beginning(&rt, rt.alloc(), Engine::Steps)
}

#[test]
fn rows_leave_a_beginning_of_their_output(rt: HostRuntime) -> Result<(), Fail> {
    leaves_a_beginning(&rt, rt.alloc(), Engine::Run)
}

#[test]
fn rows_in_their_order_leave_a_beginning_of_their_output(rt: HostRuntime) -> Result<(), Fail> {
    leaves_a_beginning(&rt, rt.alloc(), Engine::Serial)
}
