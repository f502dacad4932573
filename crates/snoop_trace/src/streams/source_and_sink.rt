//! Readers and writers that know whether they can fail, and how a text is written.
//!
//! Two clauses say when a call answers `Read` or `Write`. `blamed`, for a reader or a writer of
//! which it is known that no read or write had failed: exactly where one fails, and no write is
//! tried again. `never_blamed`, for one whose contract rules failure out: never. `std::io::Read`
//! and `std::io::Write` have no words for either, so `Source` and `Sink` add them.
ghost use Rattle.std.specs.Prelude.{◌≡◌, ◌<◌, ◌≤◌, [], Bool, true, false, Option, Some, None, Err, IsOk, IsErr, IfOk, OnOk, OnErr, IfErr, length};
ghost use Rattle.std.specs.Io.{ReadsAtMost, WritesAtMost};
ghost use Rattle.std.specs.Io.KnownBytes.{Appends, ReadConsumes, WriteAppends};
ghost use Rattle.snoop_trace.specs.Text.{BlamesReader};
ghost use Rattle.snoop_trace.specs.Output.{AppendsFront, BlamesWriter, Spills};

use crate::fault::WriteFault;
use std::io;
use std::io::{ErrorKind, Read, Write};

/// A reader, whether its contract rules failure out, and whether a read of it has failed.
///
/// A slice of bytes cannot fail. For any other reader, put it in `AnyReader`.
pub trait Source: Read {
    // Its reads never fail.
    ghost never_fails: { Bool };

    // Whether a read has failed so far, where that is known.
    ghost failed: { Self → Option Bool };

    /// What `read` does: it takes bytes from the front of what is left, and 0 of them at its end
    /// alone.
    fn pull(&mut self, buf: &mut [u8]) -> io::Result<usize>
        ensures bound { ReadsAtMost result buf.new }
        ensures bytes { ReadConsumes (Self.remaining self.old) (Self.remaining self.new) result buf.new }
        ensures sure { never_fails ≡ true → IsOk result }
        ensures noted { BlamesReader (failed self.old) (failed self.new) (IsErr result) };
}

impl Source for &[u8] {
    ghost never_fails = { true };

    ghost failed = { λ _. Some false };

    fn pull(&mut self, buf: &mut [u8]) -> io::Result<usize> {
        self.read(buf)
    }
}

impl<R: Source> Source for &mut R {
    ghost never_fails = { R.never_fails };

    ghost failed = { λ r. R.failed r.now };

    fn pull(&mut self, buf: &mut [u8]) -> io::Result<usize> {
        Source::pull(&mut **self, buf)
    }
}

/// Any reader, of which it is not known whether it can fail: a file, a pipe, standard input. It
/// notes whether a read has failed.
#[derive(Drop)]
pub struct AnyReader<R> {
    pub inner: R,
    pub failed: bool,
}

impl<R: Read> AnyReader<R> {
    pub fn new(inner: R) -> Self
        ensures inner { result.inner ≡ inner }
        ensures failed { result.failed ≡ false }
    {
        AnyReader {
            inner,
            failed: false,
        }
    }
}

impl<R: Read> Read for AnyReader<R> {
    ghost remaining = { λ r. R.remaining r.inner };

    fn read(&mut self, buf: &mut [u8]) -> io::Result<usize>
        ensures bound { ReadsAtMost result buf.new }
        ensures bytes { ReadConsumes (R.remaining self.old.inner) (R.remaining self.new.inner) result buf.new }
        ensures noted { BlamesReader (Some self.old.failed) (Some self.new.failed) (IsErr result) }
        ensures stays { self.old.failed ≡ true → self.new.failed ≡ true }
    {
        self.pull(buf)
    }
}

impl<R: Read> Source for AnyReader<R> {
    ghost never_fails = { false };

    ghost failed = { λ r. Some r.failed };

    fn pull(&mut self, buf: &mut [u8]) -> io::Result<usize>
        ensures bound { ReadsAtMost result buf.new }
        ensures bytes { ReadConsumes (R.remaining self.old.inner) (R.remaining self.new.inner) result buf.new }
        ensures sure { false ≡ true → IsOk result }
        ensures noted { BlamesReader (Some self.old.failed) (Some self.new.failed) (IsErr result) }
        ensures stays { self.old.failed ≡ true → self.new.failed ≡ true }
    {
        let read = self.inner.read(buf);
        self.failed |= read.is_err();
        read
    }
}

/// A writer, whether its contract rules failure out, and whether a write to it has failed.
///
/// `io::sink()`, which keeps nothing, cannot fail; a vector of bytes can, since its growth may be
/// refused. For any other writer, put it in `AnyWriter`.
pub trait Sink: Write {
    // Its writes never fail.
    ghost never_fails: { Bool };

    // Whether a write has failed so far, where that is known.
    ghost failed: { Self → Option Bool };

    /// What `write` does: it takes bytes from the front of `buf`, and reports how many. To take
    /// none where there are some is to fail.
    fn put(&mut self, buf: &[u8]) -> io::Result<usize>
        ensures bound { WritesAtMost result buf.now }
        ensures bytes { WriteAppends (Self.contents self.old) (Self.contents self.new) result buf.now }
        ensures some { IfOk result (λ n. 0 < length buf.now → 0 < n) }
        ensures sure { never_fails ≡ true → IsOk result }
        ensures noted { BlamesWriter (failed self.old) (failed self.new) (IsErr result) };
}

impl Sink for Vec<u8> {
    ghost never_fails = { false };

    ghost failed = { λ _. None };

    fn put(&mut self, buf: &[u8]) -> io::Result<usize> {
        self.write(buf)
    }
}

impl Sink for io::Sink {
    ghost never_fails = { true };

    ghost failed = { λ _. Some false };

    fn put(&mut self, buf: &[u8]) -> io::Result<usize> {
        <Self as Write>::write(self, buf)
    }
}

impl<W: Sink> Sink for &mut W {
    ghost never_fails = { W.never_fails };

    ghost failed = { λ w. W.failed w.now };

    fn put(&mut self, buf: &[u8]) -> io::Result<usize> {
        Sink::put(&mut **self, buf)
    }
}

/// Any writer, of which it is not known whether it can fail: a file, a pipe, standard output. It
/// notes whether a write has failed, or has taken nothing of what there was.
#[derive(Drop)]
pub struct AnyWriter<W> {
    pub inner: W,
    pub failed: bool,
}

impl<W: Write> AnyWriter<W> {
    pub fn new(inner: W) -> Self
        ensures inner { result.inner ≡ inner }
        ensures failed { result.failed ≡ false }
    {
        AnyWriter {
            inner,
            failed: false,
        }
    }
}

impl<W: Write> Write for AnyWriter<W> {
    ghost contents = { λ w. W.contents w.inner };

    fn write(&mut self, buf: &[u8]) -> io::Result<usize>
        ensures bound { WritesAtMost result buf.now }
        ensures bytes { WriteAppends (W.contents self.old.inner) (W.contents self.new.inner) result buf.now }
        ensures some { IfOk result (λ n. 0 < length buf.now → 0 < n) }
        ensures noted { BlamesWriter (Some self.old.failed) (Some self.new.failed) (IsErr result) }
        ensures stays { self.old.failed ≡ true → self.new.failed ≡ true }
    {
        self.put(buf)
    }

    fn flush(&mut self) -> io::Result<()> {
        self.inner.flush()
    }
}

impl<W: Write> Sink for AnyWriter<W> {
    ghost never_fails = { false };

    ghost failed = { λ w. Some w.failed };

    fn put(&mut self, buf: &[u8]) -> io::Result<usize>
        ensures bound { WritesAtMost result buf.now }
        ensures bytes { WriteAppends (W.contents self.old.inner) (W.contents self.new.inner) result buf.now }
        ensures some { IfOk result (λ n. 0 < length buf.now → 0 < n) }
        ensures sure { false ≡ true → IsOk result }
        ensures noted { BlamesWriter (Some self.old.failed) (Some self.new.failed) (IsErr result) }
        ensures stays { self.old.failed ≡ true → self.new.failed ≡ true }
    {
        let written = match self.inner.write(buf) {
            Ok(0) if !buf.is_empty() => Err(io::Error::from(ErrorKind::WriteZero)),
            written => written,
        };
        self.failed |= written.is_err();
        written
    }
}

/// Writes all of a text.
///
/// It stops at the first write that fails or takes nothing, with `Write`. The writer then holds a
/// beginning of the text after what it held, the failed write's own bytes aside.
pub fn write_whole<W: Sink>(writer: &mut W, text: &[u8]) -> Result<(), WriteFault>
    ensures ok { OnOk result (Appends (W.contents writer.old) (W.contents writer.new) text.now) }
    ensures front { OnErr result (AppendsFront (W.contents writer.old) (W.contents writer.new) text.now) }
    ensures never_blamed { W.never_fails ≡ true → IsOk result }
    ensures blamed { BlamesWriter (W.failed writer.old) (W.failed writer.new) (result ≡ Err WriteFault.Write) }
    ensures err { IfErr result (λ e. e ≡ WriteFault.Write) }
{
    let mut at = 0;
    while at < text.len() {
        match writer.put(&text[at..]) {
            Ok(taken) => at += taken,
            Err(_) => return Err(WriteFault::Write),
        }
    }
    Ok(())
}

/// How many bytes are gathered in a chunk before they are written.
pub const CHUNK: usize = 65536;

/// Writes a chunk whole and empties it where it has grown to `CHUNK` bytes, else leaves both as
/// they are.
///
/// So a text can be gathered piece by piece: what the writer holds and then the chunk stays the
/// same bytes. `Write` leaves the chunk as it is and the writer with a beginning of it, as
/// `write_whole` does.
pub fn spill<W: Sink>(writer: &mut W, chunk: &mut Vec<u8>) -> Result<(), WriteFault>
    ensures ok { OnOk result (Spills (W.contents writer.old) chunk.old.items (W.contents writer.new) chunk.new.items) }
    ensures full { CHUNK ≤ length chunk.old.items → OnOk result (chunk.new.items ≡ []) }
    ensures waits { length chunk.old.items < CHUNK → writer.new ≡ writer.old × chunk.new.items ≡ chunk.old.items }
    ensures front { OnErr result (AppendsFront (W.contents writer.old) (W.contents writer.new) chunk.old.items) }
    ensures kept { OnErr result (chunk.new.items ≡ chunk.old.items) }

    ensures never_blamed { W.never_fails ≡ true → IsOk result }
    ensures blamed { BlamesWriter (W.failed writer.old) (W.failed writer.new) (result ≡ Err WriteFault.Write) }
    ensures err { IfErr result (λ e. e ≡ WriteFault.Write) }
{
    if chunk.len() >= CHUNK {
        write_whole(writer, chunk)?;
        chunk.clear();
    }
    Ok(())
}
