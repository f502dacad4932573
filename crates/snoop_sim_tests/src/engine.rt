//! The five simulations, each with a worked text.

use snoop_rules::Protocol;
use snoop_sim::{
    Choice, Input, SimFault, ThreadsFault, simulate_run, simulate_serial, simulate_states,
    simulate_steps, simulate_threads,
};
use snoop_trace::streams::{Sink, Source};
use snoop_trace::{Shape, WriteFault};
use std::alloc::Global;
use std::sync::Wait;
use std::test::Fail;
use std::thread::Threads;

/// Steps: core 0 stores, and core 1 loads from the last byte of the same block.
const STEPS: &str = "S,0,64,7\nO,0\nR,64\nL,1,127\nO,1\nR,64\n";

const STEPS_OUTPUT: &str = "\
S,0,64,7: issued GetM
O,0: ordered GetM
R,64: Data from memory, store 7
L,1,64: issued GetS
O,1: ordered GetS
R,64: Data from core 0, load 7
loads 1 hits 0
stores 1 hits 0
GetS 1 GetM 1 PutM 0
from memory 1 from caches 1
writebacks 0 clean 0 stale 0
block 1 value 7
";

/// Rows: core 0 stores 1 and evicts, and core 1 stores 2, all in one block.
const ROWS: &str = "S,0,0,1\nE,0,0\nS,1,0,2\n";

const ROWS_OUTPUT: &str = "\
S,0,0,1: issued GetM
S,1,0,2: issued GetM
O,0: ordered GetM
R,0: Data from memory, store 1
E,0,0: issued PutM
O,1: ordered GetM
R,0: Data from core 0, store 2
O,0: ordered PutM
R,0: NoData from core 0
loads 0 hits 0
stores 2 hits 0
GetS 0 GetM 2 PutM 1
from memory 1 from caches 1
writebacks 0 clean 0 stale 1
block 0 value 2
";

/// The same rows, one after another.
const SERIAL_OUTPUT: &str = "\
S,0,0,1: issued GetM
O,0: ordered GetM
R,0: Data from memory, store 1
E,0,0: issued PutM
O,0: ordered PutM
R,0: Data from core 0
S,1,0,2: issued GetM
O,1: ordered GetM
R,0: Data from memory, store 2
loads 0 hits 0
stores 2 hits 0
GetS 0 GetM 2 PutM 1
from memory 2 from caches 0
writebacks 1 clean 0 stale 0
block 0 value 2
";

/// Rows: core 0 stores 1 and loads, and core 1 stores 2, all in one block.
pub(crate) const RACE: &str = "S,0,0,1\nS,1,0,2\nL,0,0\n";

/// The steps that serve them: the cores take turns, so core 1 asks before core 0 goes on.
pub(crate) const RACE_STEPS: &str = "S,0,0,1\nS,1,0,2\nO,0\nR,0\nL,0,0\nO,1\nR,0\n";

const RACE_OUTPUT: &str = "\
S,0,0,1: issued GetM
S,1,0,2: issued GetM
O,0: ordered GetM
R,0: Data from memory, store 1
L,0,0: hit 1
O,1: ordered GetM
R,0: Data from core 0, store 2
loads 1 hits 1
stores 2 hits 0
GetS 0 GetM 2 PutM 0
from memory 1 from caches 1
writebacks 0 clean 0 stale 0
block 0 value 2
";

/// Rows of core 0 alone, so that its thread's steps are known: it stores, evicts and loads in one block.
const ALONE: &str = "S,0,0,4\nE,0,0\nL,0,0\n";

const ALONE_STEPS: &str = "V,2,msi,2,4,64,1\nS,0,0,4\nO,0\nR,0\nE,0,0\nO,0\nR,0\nL,0,0\nO,0\nR,0\n";

/// Steps: core 0 loads.
const LOAD: &str = "L,0,0\nO,0\nR,0\n";

/// The rows that the controllers take.
pub(crate) const LOAD_STATES: &str = "\
step,record,reply,block,controller,event,before,action,after,value,place
1,\"L,0,0\",issued GetS,0,core 0,Load,I,issue GetS,IS_AD,,1
2,\"O,0\",ordered GetS,0,core 0,OwnGetS,IS_AD,none,IS_D,,
2,\"O,0\",ordered GetS,0,memory,GetS,IorS,send Data,IorS,0,
3,\"R,0\",\"Data from memory, load 0\",0,core 0,Data,IS_D,fill load,S,0,
";

/// One of the simulations.
#[derive(Clone, Copy, Debug, PartialEq, Eq)]
pub enum Engine {
    Steps,
    Run,
    Serial,
    Threads,
    States,
}

pub static ENGINES: [Engine; 5] = [
    Engine::Steps,
    Engine::Run,
    Engine::Serial,
    Engine::Threads,
    Engine::States,
];

impl Engine {
    /// Its text.
    pub(crate) fn text(self) -> &'static [u8] {
        match self {
            Engine::Steps => STEPS.as_bytes(),
            Engine::Run | Engine::Serial => ROWS.as_bytes(),
            Engine::Threads => ALONE.as_bytes(),
            Engine::States => LOAD.as_bytes(),
        }
    }

    /// The whole output of the text under MSI.
    pub(crate) fn output(self) -> &'static [u8] {
        match self {
            Engine::Steps => STEPS_OUTPUT.as_bytes(),
            Engine::Run => ROWS_OUTPUT.as_bytes(),
            Engine::Serial => SERIAL_OUTPUT.as_bytes(),
            Engine::Threads => ALONE_STEPS.as_bytes(),
            Engine::States => LOAD_STATES.as_bytes(),
        }
    }

    /// How the simulation ends, with 2 cores and 4 blocks. A fault of the threads is reported as `NoMemory`.
    pub(crate) fn simulate<T: Threads + Wait + Sync, R: Source, W: Sink>(
        self,
        rt: &T,
        alloc: Global,
        reader: &mut R,
        writer: &mut W,
        protocol: Protocol,
    ) -> Result<Ended, Fail> {
        let shape = Shape::new(2, 4, 64)?;
        Ok(match self {
            Engine::Steps => simulate_steps(alloc, reader, writer, protocol, shape),
            Engine::Run => simulate_run(alloc, reader, writer, protocol, shape),
            Engine::Serial => simulate_serial(alloc, reader, writer, protocol, shape),
            Engine::States => {
                let all = Choice::new(shape, None, 1, u64::MAX)?;
                simulate_states(alloc, reader, writer, protocol, shape, Input::Steps, all)
            }
            Engine::Threads => {
                threads_ended(simulate_threads(rt, alloc, reader, writer, protocol, shape))
            }
        })
    }
}

/// How a simulation ends.
pub(crate) type Ended = Result<(), SimFault>;

fn threads_ended(answer: Result<(), ThreadsFault>) -> Ended {
    match answer {
        Ok(()) => Ok(()),
        Err(ThreadsFault::Text(fault)) => Err(SimFault::Text(fault)),
        Err(ThreadsFault::Write(WriteFault::Write)) => Err(SimFault::Write),
        Err(_) => Err(SimFault::NoMemory),
    }
}

/// In which order cores take turns no contract says.
#[test]
fn cores_take_turns(rt: HostRuntime) -> Result<(), Fail> {
    let shape = Shape::new(2, 4, 64)?;
    for protocol in [Protocol::Msi, Protocol::Mesi] {
        let mut output = Vec::new(rt.alloc());
        simulate_run(
            rt.alloc(),
            &mut RACE.as_bytes(),
            &mut output,
            protocol,
            shape,
        )?;
        if output.as_slice() != RACE_OUTPUT.as_bytes() {
            return Err(Fail::from("the output of a run"));
        }
    }
    Ok(())
}
