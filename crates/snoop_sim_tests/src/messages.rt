//! What a command line is answered: its status, and what is written and reported.

use crate::engine::{LOAD_STATES, RACE, RACE_STEPS};
use snoop_sim::command;
use std::alloc::Global;
use std::sync::Wait;
use std::test::Fail;
use std::thread::Threads;

/// A command line and its text, the status that it ends with, and what is reported. Nothing is written.
type Refusal = (&'static str, &'static [u8], u8, &'static [u8]);

static REFUSALS: [Refusal; 23] = [
    (
        "snoop steps",
        b"L,0,x\n",
        1,
        b"snoop: record 1: BadNumber\n",
    ),
    (
        "snoop steps",
        b"L,0,0\nX,0\n",
        1,
        b"snoop: record 2: BadKind\n",
    ),
    ("snoop run", b"O,0\n", 1, b"snoop: record 1: BadKind\n"),
    (
        "snoop run --serial",
        b"S,0,0\n",
        1,
        b"snoop: record 1: BadFields\n",
    ),
    ("snoop threads", b"L,2,0\n", 1, b"snoop: record 1: NoCore\n"),
    (
        "snoop threads",
        b"L,0,256\n",
        1,
        b"snoop: record 1: NoBlock\n",
    ),
    (
        "snoop steps",
        b"V,2,mesi,2,4,64,1\n",
        1,
        b"snoop: record 1: OtherShape\n",
    ),
    (
        "snoop steps",
        b"V,2,msi,2,4,64,2\n",
        1,
        b"snoop: record 1: OtherShape\n",
    ),
    ("snoop steps", b"V,3\n", 1, b"snoop: record 1: BadVersion\n"),
    (
        "snoop steps",
        b"V,2,msi,2,4,64\n",
        1,
        b"snoop: record 1: BadFields\n",
    ),
    (
        "snoop steps",
        b"V,2,MSI,2,4,64,1\n",
        1,
        b"snoop: record 1: BadKind\n",
    ),
    (
        "snoop steps",
        b"L,0,0\nV,2,msi,2,4,64,1\n",
        1,
        b"snoop: record 2: BadKind\n",
    ),
    (
        "snoop run",
        b"V,2,msi,2,4,64,1\n",
        1,
        b"snoop: record 1: BadKind\n",
    ),
    ("snoop steps --cores 0", b"X\n", 2, b"snoop: BadCores\n"),
    (
        "snoop steps --cores 257 --blocks 0",
        b"",
        2,
        b"snoop: BadCores\n",
    ),
    ("snoop run --blocks 65537", b"", 2, b"snoop: BadBlocks\n"),
    (
        "snoop threads --block-bytes 3",
        b"",
        2,
        b"snoop: BadBytes\n",
    ),
    ("snoop steps --words 3", b"", 2, b"snoop: BadWords\n"),
    ("snoop run --words 16", b"", 2, b"snoop: BadWords\n"),
    ("snoop threads --words 128", b"", 2, b"snoop: BadWords\n"),
    (
        "snoop states --as csv --serial",
        b"X\n",
        2,
        b"snoop: BadSerial: --serial needs --of rows\n",
    ),
    ("snoop draw --block 4", b"", 2, b"snoop: BadBlock\n"),
    (
        "snoop draw --from 2 --to 1",
        b"X\n",
        2,
        b"snoop: BadRange\n",
    ),
];

/// MSI's table of memory.
const MSI_MEMORY: &str = "\
IorS,GetS,send Data,IorS
IorS,GetM,send Data,M
IorS,PutM,none,IorS_D
M,GetS,none,IorS_D
M,GetM,none,M
M,PutM,none,M_D
IorS_D,Data,write,IorS
IorS_D,NoData,none,IorS
M_D,Data,write,IorS
M_D,NoData,none,M
";

/// The same as a matrix.
const MSI_MEMORY_MATRIX: &str = "\
state,GetS,GetM,PutM,Data,NoData
IorS,send Data/IorS,send Data/M,none/IorS_D,,
M,none/IorS_D,none/M,none/M_D,,
IorS_D,,,,write/IorS,none/IorS
M_D,,,,write/IorS,none/M
";

/// A load of core 0.
const LOAD_OUTPUT: &str = "\
L,0,0: issued GetS
O,0: ordered GetS
R,0: Data from memory, load 0
loads 1 hits 0
stores 0 hits 0
GetS 1 GetM 0 PutM 0
from memory 1 from caches 0
writebacks 0 clean 0 stale 0
block 0 value 0
";

/// The steps of the rows of one thread.
const ALONE_STEPS: &str = "\
V,2,msi,1,4,64,1
S,0,0,4
O,0
R,0
E,0,0
O,0
R,0
L,0,0
O,0
R,0
";

/// A command line and its text, and what is written. Nothing is reported.
type Answer = (&'static str, &'static str, &'static str);

static ANSWERS: [Answer; 7] = [
    (
        "snoop steps",
        "V,2,msi,2,4,64,1\nL,0,0\nO,0\nR,0\n",
        LOAD_OUTPUT,
    ),
    (
        "snoop steps",
        "V,0x2,msi,02,4,64,1\nL,0,0\nO,0\nR,0\n",
        LOAD_OUTPUT,
    ),
    (
        "snoop threads --cores 1",
        "S,0,0,4\nE,0,0\nL,0,0\n",
        ALONE_STEPS,
    ),
    (
        "snoop states --as csv --of rows --serial",
        "L,0,0\n",
        LOAD_STATES,
    ),
    (
        "snoop table --which memory --protocol MSI --as rows",
        "",
        MSI_MEMORY,
    ),
    (
        "snoop table --which memory --as matrix",
        "",
        MSI_MEMORY_MATRIX,
    ),
    (
        "snoop lint --of rows --most 0",
        "L,0,0\n\nL,0,256\n",
        "1 fault in 2 records, 0 shown\nneeds --cores 1 --blocks 5\n",
    ),
];

/// Each view, of steps and of rows.
static VIEWS: [(&str, &str); 10] = [
    ("snoop states", "snoop states --of rows"),
    ("snoop states --as csv", "snoop states --as csv --of rows"),
    ("snoop counts --by row", "snoop counts --by row --of rows"),
    ("snoop counts --by core", "snoop counts --by core --of rows"),
    (
        "snoop counts --by block",
        "snoop counts --by block --of rows",
    ),
    ("snoop counts --by word", "snoop counts --by word --of rows"),
    ("snoop counts --every 3", "snoop counts --every 3 --of rows"),
    ("snoop draw", "snoop draw --of rows"),
    ("snoop draw --as svg", "snoop draw --as svg --of rows"),
    ("snoop draw --as html", "snoop draw --as html --of rows"),
];

/// Does what the line asks for. Answers the status, what is written and what is reported.
fn answered<T: Threads + Wait + Sync>(
    rt: &T,
    alloc: Global,
    line: &str,
    text: &[u8],
) -> Result<(u8, Vec<u8>, Vec<u8>), Fail> {
    let mut words = Vec::new(alloc);
    for word in line.split(' ') {
        words.push(String::from_str(alloc, word)?)?;
    }
    let mut reader = text;
    let mut written = Vec::new(alloc);
    let mut reported = Vec::new(alloc);
    let status = command(rt, alloc, &words, &mut reader, &mut written, &mut reported);
    Ok((status, written, reported))
}

#[test]
fn what_is_refused_is_named(rt: HostRuntime) -> Result<(), Fail> {
    for (line, text, expected, named) in REFUSALS {
        let (status, written, reported) = answered(&rt, rt.alloc(), line, text)?;
        if status != expected || !written.is_empty() || reported.as_slice() != named {
            Err(line)?
        }
    }
    Ok(())
}

#[test]
fn what_is_asked_for_is_written(rt: HostRuntime) -> Result<(), Fail> {
    for (line, text, expected) in ANSWERS {
        let (status, written, reported) = answered(&rt, rt.alloc(), line, text.as_bytes())?;
        if status != 0 || written.as_slice() != expected.as_bytes() || !reported.is_empty() {
            Err(line)?
        }
    }
    Ok(())
}

/// After status 0 what is written is proved, but not in which order the steps serve the rows.
#[test]
fn views_of_rows_are_those_of_their_steps(rt: HostRuntime) -> Result<(), Fail> {
    for (of_steps, of_rows) in VIEWS {
        let (status, shown, _) = answered(&rt, rt.alloc(), of_steps, RACE_STEPS.as_bytes())?;
        if status != 0 || shown.is_empty() {
            return Err(Fail::from(of_steps));
        }
        let (status, again, _) = answered(&rt, rt.alloc(), of_rows, RACE.as_bytes())?;
        if status != 0 || again.as_slice() != shown.as_slice() {
            return Err(Fail::from(of_rows));
        }
    }
    Ok(())
}
