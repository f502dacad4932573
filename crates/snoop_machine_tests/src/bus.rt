//! Two requests of a core, from issue to response.
ghost use Rattle.std.specs.Prelude.{◌≡◌, ◌<◌, length, IfOk};

use snoop_bus::{Bus, Open};
use snoop_rules::{Payload, Request};
use snoop_trace::{NoMemory, Shape, Words};
use std::alloc::Global;
use std::test::Fail;

/// A bus of 2 cores and 4 blocks.
fn small_bus(alloc: Global) -> Result<Bus, NoMemory>
    ensures queues { IfOk result (λ bus. length bus.queues ≡ 2) }
    ensures transactions { IfOk result (λ bus. length bus.transactions ≡ 4) }
{
    match Shape::new(2, 4, 64) {
        Ok(shape) => Bus::new(alloc, shape),
        Err(_) => Err(NoMemory),
    }
}

/// Makes room for core 0's request for the block and issues it.
fn issue(bus: &mut Bus, block: u32) -> Result<(), NoMemory>
    requires queues { length bus.old.queues ≡ 2 }
    requires block { block < length bus.old.transactions }
    ensures queues { length bus.new.queues ≡ length bus.old.queues }
    ensures transactions { length bus.new.transactions ≡ length bus.old.transactions }
{
    bus.reserve(0)?;
    bus.issue(0, Request::GetS, block);
    Ok(())
}

/// Orders core 0's oldest request, if it has one and the block has no open transaction. Memory answers it with 5.
fn start(bus: &mut Bus) -> bool
    requires queues { length bus.old.queues ≡ 2 }
    ensures queues { length bus.new.queues ≡ length bus.old.queues }
    ensures transactions { length bus.new.transactions ≡ length bus.old.transactions }
{
    let Some((_, block)) = bus.head(0) else {
        return false;
    };
    if bus.open(block).is_some() {
        return false;
    }
    bus.start(0, Payload::Data, Words::zero().with(0, 5), None);
    true
}

/// The transaction of the first request.
fn opened() -> Open {
    Open {
        core: 0,
        request: Request::GetS,
        block: 1,
        payload: Payload::Data,
        value: Words::zero().with(0, 5),
        from: None,
    }
}

/// Whether block 1 has it open, and the request for block 0 waits.
fn has_one_open(bus: &Bus) -> bool {
    bus.open(1) == Some(opened()) && bus.head(0) == Some((Request::GetS, 0))
}

fn go_in_order(bus: &mut Bus) -> Result<(), Fail>
    requires queues { length bus.old.queues ≡ 2 }
    requires transactions { length bus.old.transactions ≡ 4 }
{
    issue(bus, 1)?;
    issue(bus, 0)?;
    if bus.head(0) != Some((Request::GetS, 1)) || bus.head(1).is_some() {
        return Err(Fail::from("the oldest request"));
    }
    if !start(bus) || !has_one_open(bus) {
        return Err(Fail::from("what is open"));
    }
    if bus.finish(2).is_some() || !has_one_open(bus) {
        return Err(Fail::from("a block with nothing open"));
    }
    if bus.finish(1) != Some(opened()) || bus.open(1).is_some() {
        return Err(Fail::from("what was open"));
    }
    Ok(())
}

#[test]
fn a_queue_keeps_the_order_of_issue(rt: HostRuntime) -> Result<(), Fail> {
    let mut bus = small_bus(rt.alloc())?;
    go_in_order(&mut bus)
}
