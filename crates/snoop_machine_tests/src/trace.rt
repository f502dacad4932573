//! Steps that are written and read again.

use snoop_trace::{Op, Protocol, Shape, Step, read_steps, write_steps};
use std::io;
use std::test::Fail;

/// Each kind of step, at the ends of the largest shape.
static STEPS: [Step; 5] = [
    Step::Ask {
        core: 0,
        block: 0,
        word: 0,
        op: Op::Load,
    },
    Step::Ask {
        core: 255,
        block: 65535,
        word: 0,
        op: Op::Store(u64::MAX),
    },
    Step::Ask {
        core: 10,
        block: 1,
        word: 0,
        op: Op::Evict,
    },
    Step::Order { core: 100 },
    Step::Respond { block: 3 },
];

const TEXT: &str =
    "V,2,mesi,256,65536,4096,1\nL,0,0\nS,255,268431360,18446744073709551615\nE,10,4096\nO,100\nR,12288\n";

#[test]
fn steps_are_written_and_read_again(rt: HostRuntime) -> Result<(), Fail> {
    let alloc = rt.alloc();
    let shape = Shape::new(256, 65536, 4096)?;
    let mut text = Vec::new(alloc);
    write_steps(alloc, &mut &mut text, Protocol::Mesi, shape, &STEPS)?;
    write_steps(alloc, &mut io::sink(), Protocol::Mesi, shape, &STEPS)?;
    let steps = read_steps(alloc, &mut text.as_slice(), Protocol::Mesi, shape)?;
    if text.as_slice() != TEXT.as_bytes() || steps.as_slice() != STEPS.as_slice() {
        Err(text)?
    }
    Ok(())
}
