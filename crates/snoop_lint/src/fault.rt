//! Why a text was not looked at, or what is wrong with it not written.

use snoop_trace::{NoMemory, WriteFault};
use thiserror::Error;

/// Why a text was not looked at to its end, or what is wrong with it not written whole.
#[derive(Clone, Copy, Debug, PartialEq, Eq, Error)]
pub enum LintFault {
    /// A read failed; nothing was written.
    #[error("Read")]
    Read,
    /// Memory for a growth was refused; nothing was written.
    #[error("NoMemory")]
    NoMemory,
    /// A write failed, or took nothing of what was left.
    #[error("Write")]
    Write,
}

impl From<NoMemory> for LintFault {
    ghost use Rattle.std.specs.Prelude.{◌≡◌};
    ghost use Rattle.snoop_lint.specs.declared.fault.LintFault.TheVariants as lint;

    ghost from_gives = { λ e r. r ≡ lint.NoMemory };

    fn from(_: NoMemory) -> Self {
        LintFault::NoMemory
    }
}
