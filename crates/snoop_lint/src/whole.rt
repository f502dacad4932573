//! A text, read to its end.
ghost use Rattle.std.specs.Prelude.{◌≡◌, ◌≢◌, true, Err, IfOk, IfSome};
ghost use Rattle.snoop_trace.specs.Text.{BlamesReader};

use crate::fault::LintFault;
use crate::shown::push_bytes;
use snoop_trace::streams::Source;
use std::alloc::Global;

/// How many bytes are read at once.
const PART: usize = 8192;

/// All bytes that a reader has left.
pub(crate) fn read_whole<R: Source>(alloc: Global, reader: &mut R) -> Result<Vec<u8>, LintFault>
    ensures read { IfOk result (λ text. IfSome (R.remaining reader.old) (λ bytes. text.items ≡ bytes)) }
    ensures not_write { result ≢ Err LintFault.Write }
    ensures never_blamed { R.never_fails ≡ true → result ≢ Err LintFault.Read }
    ensures blamed { BlamesReader (R.failed reader.old) (R.failed reader.new) (result ≡ Err LintFault.Read) }
{
    let mut text = Vec::new(alloc);
    let mut part = [0; PART];
    for _ in 0..u64::MAX {
        match reader.pull(&mut part) {
            Ok(0) => return Ok(text),
            Ok(count) => push_bytes(&mut text, &part[..count])?,
            Err(_) => return Err(LintFault::Read),
        }
    }
    // No vector holds so many parts.
    Err(LintFault::NoMemory)
}
