//! Steps taken one at a time.

use crate::machine::support::{RACE_ANSWERS, UPGRADE_RACE, two_cores};
use snoop_machine::Machine;
use snoop_rules::{CacheState, MemState};
use std::test::Fail;

/// Whether block 0 is in these states, in core 0, in core 1 and in memory.
fn has_states(machine: &Machine, first: CacheState, second: CacheState, memory: MemState) -> bool {
    machine.state(0, 0) == Some(first)
        && machine.state(1, 0) == Some(second)
        && machine.mem_state(0) == Some(memory)
}

/// Takes the race, and compares each answer and what it leaves.
fn take_race(machine: &mut Machine) -> Result<(), Fail> {
    for (step, (answer, first, second, memory)) in UPGRADE_RACE.iter().zip(&RACE_ANSWERS) {
        if machine.step(*step) != *answer || !has_states(machine, *first, *second, *memory) {
            return Err(Fail::from(*step));
        }
    }
    Ok(())
}

#[test]
fn the_loser_of_an_upgrade_race_asks_for_the_whole_block(rt: HostRuntime) -> Result<(), Fail> {
    let mut machine = two_cores(rt.alloc())?;
    take_race(&mut machine)?;
    if machine.log().flat(0, 0) != Some(5) {
        return Err(Fail::from("the last store"));
    }
    Ok(())
}
