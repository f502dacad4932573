//! Calls of a seat alone.

use crate::cores::scene::{Scene, Shown, work};
use snoop_cores::{Evicted, Turn};
use snoop_trace::Op;
use std::test::Fail;

#[test]
fn a_seat_alone_gives_blocks_up(rt: HostRuntime) -> Result<(), Fail> {
    let mut scene = Scene::new(&rt, rt.alloc(), 1)?;
    let answers = [
        scene.call(&rt, 0, work(Op::Evict)),
        scene.call(&rt, 0, work(Op::Load)),
        scene.call(&rt, 0, work(Op::Evict)),
        scene.call(&rt, 0, work(Op::Store(4))),
        scene.call(&rt, 0, work(Op::Evict)),
    ];
    let shown = scene.shown(&rt, rt.alloc());
    scene.end(&rt);
    let expected = [
        Some(Ok(Turn::Evicted(Evicted::Absent))),
        Some(Ok(Turn::Loaded(0))),
        Some(Ok(Turn::Evicted(Evicted::Gone))),
        Some(Ok(Turn::Stored)),
        Some(Ok(Turn::Evicted(Evicted::Put))),
    ];
    let gathered = Shown {
        steps: 11,
        counts: [1, 0, 1, 0, 1, 1, 1, 2, 0, 1, 0, 0],
        values: [Some(4), Some(0)],
    };
    if answers != expected {
        return Err(Fail::from("the seat's answers"));
    }
    if shown != Some(gathered) {
        return Err(Fail::from("what gathers"));
    }
    Ok(())
}
