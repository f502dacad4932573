//! Words of the process that are not to be had.

use crate::streams::{FailingWriter, Fault};
use snoop_sim::refuse_words;
use std::io;
use std::io::ErrorKind;
use std::test::Fail;

/// A word that is not UTF-8 and words without memory are reported, and a standard error that fails is tried once.
#[test]
fn refused_words(rt: HostRuntime) -> Result<(), Fail> {
    for (kind, calls, status, reported) in [
        (ErrorKind::InvalidData, 10, 2, "snoop: NotUtf8\n"),
        (ErrorKind::OutOfMemory, 10, 3, "snoop: NoMemory\n"),
        (ErrorKind::InvalidData, 0, 2, ""),
    ] {
        let mut errors = FailingWriter::new(rt.alloc(), calls, 100, Fault::Refuses);
        let answered = refuse_words(io::Error::from(kind), &mut errors);
        if answered != status {
            return Err(Fail::from("the status of refused words"));
        }
        if errors.held.as_slice() != reported.as_bytes() {
            return Err(Fail::from("what is reported of refused words"));
        }
        if errors.calls_after != 0 {
            return Err(Fail::from("a standard error that failed is asked again"));
        }
    }
    Ok(())
}
