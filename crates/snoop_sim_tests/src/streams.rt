//! Readers and writers that fail in mid-stream.
ghost use Rattle.std.specs.Prelude.{◌≡◌, [], false};

use std::alloc::Global;
use std::io;
use std::io::{ErrorKind, Read, Write};

/// What a stream does at the call at which it fails.
#[derive(Clone, Copy, Debug, PartialEq, Eq)]
pub enum Fault {
    /// It answers an error.
    Refuses,
    /// It takes no byte.
    TakesNothing,
}

/// A writer that serves some calls, each of at most so many bytes, then fails and counts the calls after that.
#[derive(Drop)]
pub struct FailingWriter {
    pub held: Vec<u8>,
    pub calls: usize,
    pub most: usize,
    pub fault: Fault,
    pub failed: bool,
    pub calls_after: usize,
}

impl FailingWriter {
    /// It holds nothing and has not failed.
    pub fn new(alloc: Global, calls: usize, most: usize, fault: Fault) -> Self
        ensures empty { (result.held.items ≡ []) × (result.failed ≡ false) × (result.calls_after ≡ 0) }
        ensures fails { (result.calls ≡ calls) × (result.most ≡ most) × (result.fault ≡ fault) }
    {
        FailingWriter {
            held: Vec::new(alloc),
            calls,
            most,
            fault,
            failed: false,
            calls_after: 0,
        }
    }
}

impl Write for FailingWriter {
    fn write(&mut self, buf: &[u8]) -> io::Result<usize> {
        if self.failed {
            self.calls_after = self.calls_after.saturating_add(1);
        }
        if self.calls == 0 {
            self.failed = true;
            return match self.fault {
                Fault::Refuses => Err(io::Error::from(ErrorKind::Interrupted)),
                Fault::TakesNothing => Ok(0),
            };
        }
        let taken = buf.len().min(self.most);
        self.held.extend_from_slice(&buf[..taken])?;
        self.calls -= 1;
        Ok(taken)
    }

    fn flush(&mut self) -> io::Result<()> {
        Ok(())
    }
}

/// A reader over a text that gives so many bytes, at most some of them a call, and then fails once: who asks again gets more.
#[derive(Drop)]
pub struct FailingReader<'a> {
    pub text: &'a [u8],
    pub left: usize,
    pub most: usize,
}

impl Read for FailingReader<'_> {
    fn read(&mut self, buf: &mut [u8]) -> io::Result<usize> {
        if self.left == 0 {
            self.left = usize::MAX;
            return Err(io::Error::from(ErrorKind::Interrupted));
        }
        let most = buf.len().min(self.most).min(self.left);
        let given = self.text.read(&mut buf[..most])?;
        self.left -= given;
        Ok(given)
    }
}
