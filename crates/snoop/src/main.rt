//! The program `snoop`.
#![tactic(auto)]

use snoop_sim::{command, refuse_words};
use snoop_trace::streams::{AnyReader, AnyWriter};
use std::process::ExitCode;
use std::{env, io};

fn main(rt: HostRuntime) -> ExitCode {
    let alloc = rt.alloc();
    // The words of the process, the program's own name first.
    let words: io::Result<Vec<String>> = env::args(&rt).and_then(|args| Ok(args.collect(alloc)?));
    let mut reader = AnyReader::new(rt.stdin());
    let mut writer = AnyWriter::new(rt.stdout());
    let mut errors = AnyWriter::new(rt.stderr());
    let status = match words {
        Ok(words) => command(&rt, alloc, &words, &mut reader, &mut writer, &mut errors),
        Err(cause) => refuse_words(cause, &mut errors),
    };
    ExitCode::from(status)
}
