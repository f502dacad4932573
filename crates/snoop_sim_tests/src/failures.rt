//! What is answered and left where a reader or a writer fails.

use crate::engine::{ENGINES, Ended, Engine};
use crate::streams::{FailingReader, FailingWriter, Fault};
use snoop_rules::Protocol;
use snoop_sim::{SimFault, command, simulate_steps};
use snoop_trace::streams::{AnyReader, AnyWriter};
use snoop_trace::{Shape, TextFault};
use std::alloc::Global;
use std::io::{ErrorKind, Read, Write};
use std::sync::Wait;
use std::test::Fail;
use std::thread::Threads;

/// More bytes or calls than any text here needs.
const AMPLE: usize = 1000;

/// A simulation over a reader that gives so many bytes and a writer that serves so many calls, each of at most some bytes.
#[derive(Clone, Copy, Debug)]
struct Trial {
    engine: Engine,
    bytes: usize,
    calls: usize,
    most: usize,
    fault: Fault,
}

impl Trial {
    /// How it ends. It leaves its output; nothing where the reader fails; a beginning where the writer fails, of a byte or more a
    /// call, and the writer is not asked again.
    fn ends<T: Threads + Wait + Sync>(self, rt: &T, alloc: Global) -> Result<Ended, Fail> {
        let output = self.engine.output();
        let mut reader = AnyReader::new(FailingReader {
            text: self.engine.text(),
            left: self.bytes,
            most: self.most,
        });
        let mut writer = AnyWriter::new(FailingWriter::new(
            alloc, self.calls, self.most, self.fault,
        ));
        let ended = self
            .engine
            .simulate(rt, alloc, &mut reader, &mut writer, Protocol::Msi)?;
        let left = &writer.inner;
        let is_well = match ended {
            Ok(()) => left.held.as_slice() == output,
            Err(SimFault::Text(_)) => left.held.is_empty(),
            _ => output.starts_with(&left.held) && left.held.len() >= self.calls && left.failed,
        };
        if is_well && left.calls_after == 0 {
            Ok(ended)
        } else {
            Err(self)?
        }
    }

    /// How many calls of the writer it needs. With fewer, a write fails.
    fn calls_needed<T: Threads + Wait + Sync>(self, rt: &T, alloc: Global) -> Result<usize, Fail> {
        for calls in 0..AMPLE {
            let trial = Trial { calls, ..self };
            match trial.ends(rt, alloc)? {
                Err(SimFault::Write) => {}
                Ok(()) => return Ok(calls),
                _ => Err(trial)?,
            }
        }
        Err(self)?
    }
}

#[test]
fn readers_that_fail(rt: HostRuntime) -> Result<(), Fail> {
    for engine in ENGINES {
        for most in [1, AMPLE] {
            for bytes in 0..engine.text().len() + 1 {
                let trial = Trial {
                    engine,
                    bytes,
                    calls: AMPLE,
                    most,
                    fault: Fault::Refuses,
                };
                let ended = trial.ends(&rt, rt.alloc())?;
                if ended != Err(SimFault::Text(TextFault::Read)) {
                    Err(trial)?
                }
            }
        }
    }
    Ok(())
}

/// A reader that gives two records of a text, of which the second is at fault, and then fails.
#[test]
fn a_fault_before_a_failing_read_is_named(rt: HostRuntime) -> Result<(), Fail> {
    for engine in ENGINES {
        let mut reader = AnyReader::new(FailingReader {
            text: b"L,0,0\nX,0\nL,0,0\n",
            left: 12,
            most: 1,
        });
        let mut written = Vec::new(rt.alloc());
        let ended = engine.simulate(&rt, rt.alloc(), &mut reader, &mut written, Protocol::Msi)?;
        if ended != Err(SimFault::Text(TextFault::BadKind(2))) {
            return Err(Fail::from("the fault that is named"));
        }
        if !written.is_empty() {
            return Err(Fail::from("something is written"));
        }
    }
    Ok(())
}

/// Core 0 loads block 0.
const LOAD: &[u8] = b"L,0,0\nO,0\nR,0\n";

/// The writers take twelve bytes in all, in calls of so many at most.
#[test]
fn a_writer_of_twelve_bytes(rt: HostRuntime) -> Result<(), Fail> {
    let shape = Shape::new(2, 4, 64)?;
    for (calls, most) in [(12, 1), (4, 3), (1, 12)] {
        let mut reader = LOAD;
        let mut writer = AnyWriter::new(FailingWriter::new(
            rt.alloc(),
            calls,
            most,
            Fault::Refuses,
        ));
        let answer = simulate_steps(rt.alloc(), &mut reader, &mut writer, Protocol::Msi, shape);
        if answer != Err(SimFault::Write)
            || writer.inner.held.as_slice() != b"L,0,0: issue".as_slice()
        {
            Err(most)?
        }
    }
    Ok(())
}

#[test]
fn writers_that_fail(rt: HostRuntime) -> Result<(), Fail> {
    for engine in ENGINES {
        for fault in [Fault::Refuses, Fault::TakesNothing] {
            let trial = Trial {
                engine,
                bytes: AMPLE,
                calls: 0,
                most: 1,
                fault,
            };
            let single = trial.calls_needed(&rt, rt.alloc())?;
            let large = Trial {
                most: AMPLE,
                ..trial
            }
            .calls_needed(&rt, rt.alloc())?;
            if single != engine.output().len() || large == 0 {
                Err(trial)?
            }
        }
    }
    Ok(())
}

// The kind of the error of a read that fails.
fn kind_of_read() -> Option<ErrorKind> {
    let mut reader = AnyReader::new(FailingReader {
        text: LOAD,
        left: 0,
        most: 1,
    });
    let mut bytes = [0; 4];
    reader.read(&mut bytes).err().map(|error| error.kind())
}

// The kind of the error of a first write that fails.
fn kind_of_write(alloc: Global, fault: Fault) -> Option<ErrorKind> {
    let mut writer = AnyWriter::new(FailingWriter::new(alloc, 0, 1, fault));
    writer.write(b"V").err().map(|error| error.kind())
}

#[test]
fn errors_keep_their_kind(rt: HostRuntime) -> Result<(), Fail> {
    if kind_of_read() != Some(ErrorKind::Interrupted) {
        return Err(Fail::from("a read"));
    }
    if kind_of_write(rt.alloc(), Fault::Refuses) != Some(ErrorKind::Interrupted) {
        return Err(Fail::from("a write"));
    }
    if kind_of_write(rt.alloc(), Fault::TakesNothing) != Some(ErrorKind::WriteZero) {
        return Err(Fail::from("a write that takes nothing"));
    }
    Ok(())
}

/// The bytes that the reader gives, the calls that the output and the errors serve, the status and what is reported. With status 0
/// the output is whole, and else nothing is written.
type Case = (usize, usize, usize, u8, &'static str);

/// What happens to each command that simulates.
static CASES: [Case; 4] = [
    (AMPLE, AMPLE, AMPLE, 0, ""),
    (10, AMPLE, AMPLE, 1, "snoop: Read\n"),
    (10, AMPLE, 0, 1, ""),
    (AMPLE, 0, AMPLE, 4, "snoop: Write\n"),
];

static REFUSED_WRITE: Case = (AMPLE, 0, AMPLE, 4, "snoop: Write\n");

/// The errors take nothing.
static REFUSED_WORDS: Case = (AMPLE, AMPLE, 0, 2, "");

/// Runs a command line on an engine's text.
fn run<T: Threads + Wait + Sync>(
    rt: &T,
    alloc: Global,
    line: &'static str,
    engine: Engine,
    case: Case,
) -> Result<(), Fail> {
    let (bytes, calls, errors_calls, status, reported) = case;
    let mut words = Vec::new(alloc);
    for word in line.split(' ') {
        words.push(String::from_str(alloc, word)?)?;
    }
    let mut reader = AnyReader::new(FailingReader {
        text: engine.text(),
        left: bytes,
        most: AMPLE,
    });
    let mut output = AnyWriter::new(FailingWriter::new(alloc, calls, AMPLE, Fault::Refuses));
    let mut errors = FailingWriter::new(alloc, errors_calls, AMPLE, Fault::Refuses);
    let ended = command(rt, alloc, &words, &mut reader, &mut output, &mut errors);
    let written = if status == 0 { engine.output() } else { b"" };
    let output = &output.inner;
    if ended == status
        && errors.held.as_slice() == reported.as_bytes()
        && output.held.as_slice() == written
        && output.calls_after == 0
        && errors.calls_after == 0
    {
        Ok(())
    } else {
        Err((line, case))?
    }
}

#[test]
fn commands(rt: HostRuntime) -> Result<(), Fail> {
    let alloc = rt.alloc();
    for case in CASES {
        run(&rt, alloc, "snoop steps", Engine::Steps, case)?;
        run(&rt, alloc, "snoop run", Engine::Run, case)?;
        run(&rt, alloc, "snoop threads", Engine::Threads, case)?;
    }
    run(&rt, alloc, "snoop --help", Engine::Steps, REFUSED_WRITE)?;
    run(&rt, alloc, "snoop table", Engine::Steps, REFUSED_WRITE)?;
    run(
        &rt,
        alloc,
        "snoop steps --cores 0",
        Engine::Steps,
        REFUSED_WORDS,
    )?;
    run(&rt, alloc, "snoop", Engine::Steps, REFUSED_WORDS)
}
