//! Why a text is refused, or not written whole.

use std::alloc::AllocError;
use thiserror::Error;

/// Memory for a growth was refused. What was to grow is as it was, where the call does not say
/// otherwise.
#[derive(Clone, Copy, Debug, PartialEq, Eq, Error)]
#[error("NoMemory")]
pub struct NoMemory;

impl From<AllocError> for NoMemory {
    fn from(_: AllocError) -> Self {
        NoMemory
    }
}

/// Why a text is refused; nothing of it is handed out then.
///
/// All but `Read` and `NoMemory` name the record, counted from 1: blank lines are no records. The
/// earliest faulty record decides, and in a record the first of the first five, in their order; in
/// a heading the first that its fields, from left to right, call for. `Read` and `NoMemory` can come
/// before a record is read whole.
#[derive(Clone, Copy, Debug, PartialEq, Eq, Error)]
pub enum TextFault {
    /// The first field is none of the letters that are read.
    #[error("record {0}: BadKind")]
    BadKind(u64),
    /// There are more or fewer fields than its kind has.
    #[error("record {0}: BadFields")]
    BadFields(u64),
    /// A field after the first is no number below 2^64.
    #[error("record {0}: BadNumber")]
    BadNumber(u64),
    /// The core is not below the cores of the shape.
    #[error("record {0}: NoCore")]
    NoCore(u64),
    /// The address lies in no block of the shape.
    #[error("record {0}: NoBlock")]
    NoBlock(u64),
    /// A read failed.
    #[error("Read")]
    Read,
    /// Memory for a growth was refused; or the text goes on and on without a record, past the bound that `csv` has for one.
    #[error("NoMemory")]
    NoMemory,
    /// The first record says that the steps are for another protocol or shape than was asked for.
    #[error("record {0}: OtherShape")]
    OtherShape(u64),
    /// The first record names another version than 2.
    #[error("record {0}: BadVersion")]
    BadVersion(u64),
}

impl From<NoMemory> for TextFault {
    ghost use Rattle.std.specs.Prelude.{◌≡◌};
    ghost use Rattle.snoop_trace.specs.declared.fault.TextFault.TheVariants as text;

    ghost from_gives = { λ e r. r ≡ text.NoMemory };

    fn from(_: NoMemory) -> Self {
        TextFault::NoMemory
    }
}

/// Why a text was not written whole.
#[derive(Clone, Copy, Debug, PartialEq, Eq, Error)]
pub enum WriteFault {
    /// A write failed, or took nothing of what was left.
    #[error("Write")]
    Write,
    /// Memory for a growth was refused.
    #[error("NoMemory")]
    NoMemory,
}

impl From<NoMemory> for WriteFault {
    ghost use Rattle.std.specs.Prelude.{◌≡◌};
    ghost use Rattle.snoop_trace.specs.declared.fault.WriteFault.TheVariants as write;

    ghost from_gives = { λ e r. r ≡ write.NoMemory };

    fn from(_: NoMemory) -> Self {
        WriteFault::NoMemory
    }
}
