//! A storm: many steps of a few cores on a few blocks, most of them races, with every state looked at on the way.

use crate::machine::support::machine_of;
use snoop_history::{Did, Item, Log, Totals};
use snoop_machine::{Machine, run_steps};
use snoop_rules::{CacheState, Payload, Protocol, Request};
use snoop_trace::{Op, Step};
use std::alloc::Global;
use std::test::Fail;

const CORES: u32 = 8;

const BLOCKS: u32 = 4;

/// The next number: the upper 31 bits of a linear congruential generator.
fn next(seed: &mut u64) -> u64 {
    *seed = seed
        .wrapping_mul(6364136223846793005)
        .wrapping_add(1442695040888963407);
    *seed >> 33
}

/// Counts one more, where there is one.
fn add(count: &mut u64, one_more: bool) {
    *count = count.saturating_add(u64::from(one_more));
}

/// The step that a number stands for; a store stores its own place in the storm.
fn step_of(number: u64, place: u64) -> Step {
    let core = (number / 5 % 8) as u32;
    let block = (number / 40 % 3) as u32;
    let ask = |op| Step::Ask {
        core,
        block,
        word: 0,
        op,
    };
    match number % 5 {
        0 => ask(Op::Load),
        1 => ask(Op::Store(place)),
        2 => ask(Op::Evict),
        3 => Step::Order { core },
        _ => Step::Respond { block },
    }
}

fn reads(state: CacheState) -> bool {
    matches!(&state, CacheState::S | CacheState::SmAd | CacheState::SmD) || writes(state)
}

fn writes(state: CacheState) -> bool {
    matches!(
        &state,
        CacheState::E | CacheState::M | CacheState::EiA | CacheState::MiA
    )
}

/// At most one core may write the block, and then no other may read it.
fn has_one_writer(machine: &Machine, block: u32) -> bool {
    let mut readers = 0_u32;
    let mut writers = 0_u32;
    for core in 0..CORES {
        if let Some(state) = machine.state(core, block) {
            readers = readers.saturating_add(u32::from(reads(state)));
            writers = writers.saturating_add(u32::from(writes(state)));
        }
    }
    writers == 0 || (writers == 1 && readers == 1)
}

/// The core's map has a line for each block that the core holds, and no other: no Ask of a storm is prepared and then left.
fn has_lines_for_held_blocks(machine: &Machine, core: u32) -> bool {
    let mut held = 0_usize;
    for block in 0..BLOCKS {
        if machine.state(core, block) != Some(CacheState::I) {
            held = held.saturating_add(1);
        }
    }
    machine.lines(core) == Some(held)
}

/// Each block has at most one writer, and each core's map is as it should be.
fn is_well(machine: &Machine) -> bool {
    for block in 0..BLOCKS {
        if !has_one_writer(machine, block) {
            return false;
        }
    }
    for core in 0..CORES {
        if !has_lines_for_held_blocks(machine, core) {
            return false;
        }
    }
    true
}

/// A log, gone over by a plain loop beside flat memory.
#[derive(Drop)]
struct Replay {
    totals: Totals,
    flat: [u64; 4],
    numbers: [u64; 8],
    wrong: u64,
}

impl Replay {
    fn new() -> Self {
        Replay {
            totals: Totals::default(),
            flat: [0; 4],
            numbers: [0; 8],
            wrong: 0,
        }
    }

    fn operation(&mut self, did: Did) {
        let core = (did.core % 8) as usize;
        let block = (did.block % 4) as usize;
        let wrong = did.number != self.numbers[core] || (did.load && did.value != self.flat[block]);
        add(&mut self.wrong, wrong);
        add(&mut self.numbers[core], true);
        add(&mut self.totals.loads, did.load);
        add(&mut self.totals.load_hits, did.load && did.hit);
        add(&mut self.totals.stores, !did.load);
        add(&mut self.totals.store_hits, !did.load && did.hit);
        if !did.load {
            self.flat[block] = did.value;
        }
    }

    fn request(&mut self, request: Request) {
        add(&mut self.totals.get_s, request == Request::GetS);
        add(&mut self.totals.get_m, request == Request::GetM);
        add(&mut self.totals.put_m, request == Request::PutM);
    }

    fn response(&mut self, request: Request, from: Option<u32>, payload: Payload) {
        let put = request == Request::PutM;
        add(&mut self.totals.from_memory, from.is_none());
        add(&mut self.totals.from_caches, from.is_some() && !put);
        add(&mut self.totals.writebacks, put && payload == Payload::Data);
        add(&mut self.totals.clean, payload == Payload::NoDataE);
        add(&mut self.totals.stale, payload == Payload::NoData);
    }

    fn item(&mut self, item: Item) {
        match item {
            Item::Did(did) => self.operation(did),
            Item::Sent(sent) => self.request(sent.request),
            Item::Came(came, did) => {
                self.response(came.request, came.from, came.payload);
                if let Some(did) = did {
                    self.operation(did);
                }
            }
        }
    }
}

fn replayed(log: &Log) -> Replay {
    let mut replay = Replay::new();
    for place in 0..log.len() {
        if let Some(item) = log.item(place) {
            replay.item(item);
        }
    }
    replay
}

/// The storm's first steps.
fn storm_of(alloc: Global, count: u64) -> Result<Vec<Step>, Fail> {
    let mut seed = 1;
    let mut steps = Vec::new(alloc);
    for place in 1..=count {
        steps.push(step_of(next(&mut seed), place))?;
    }
    Ok(steps)
}

/// Whether the history has the totals and the last values of a plain loop over it, and stale writebacks and store hits among it.
fn is_replayed(log: &Log) -> bool {
    let replay = replayed(log);
    for (block, value) in (0..BLOCKS).zip(replay.flat) {
        if log.flat(block, 0) != Some(value) {
            return false;
        }
    }
    replay.wrong == 0
        && replay.totals == log.totals()
        && replay.totals.stale > 0
        && replay.totals.store_hits > 0
}

/// Takes the steps one by one, and looks at the machine after each. Answers how many are taken.
fn take_each(machine: &mut Machine, steps: &[Step]) -> Result<usize, Fail> {
    let mut taken = 0_usize;
    for step in steps {
        taken = taken.saturating_add(run_steps(machine, &[*step]));
        if !is_well(machine) {
            return Err(Fail::from(*step));
        }
    }
    Ok(taken)
}

/// Whether a machine that takes the same steps whole takes as many, to an equal history.
fn is_taken_whole(
    alloc: Global,
    machine: &Machine,
    steps: &[Step],
    taken: usize,
) -> Result<bool, Fail> {
    let mut whole = machine_of(alloc, machine.protocol(), CORES)?;
    Ok(run_steps(&mut whole, steps) == taken && whole.log().equals(machine.log()))
}

fn storm(alloc: Global, protocol: Protocol, steps: &[Step]) -> Result<(), Fail> {
    let mut machine = machine_of(alloc, protocol, CORES)?;
    let taken = take_each(&mut machine, steps)?;
    if !is_replayed(machine.log()) || !is_taken_whole(alloc, &machine, steps, taken)? {
        return Err(Fail::from("the history"));
    }
    Ok(())
}

#[test]
fn a_storm_stays_coherent(rt: HostRuntime) -> Result<(), Fail> {
    let steps = storm_of(rt.alloc(), 100_000)?;
    storm(rt.alloc(), Protocol::Msi, &steps)?;
    storm(rt.alloc(), Protocol::Mesi, &steps)
}
