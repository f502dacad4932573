//! Why a simulation stopped.

use snoop_trace::{TextFault, WriteFault};
use thiserror::Error;

/// Why a simulation stopped.
///
/// After `Text` the writer is as it was. After `NoMemory` and `Write` a beginning of the output was written, which may be empty.
/// docs/PROVED.md says of which run it is where the text has rows.
#[derive(Clone, Copy, Debug, PartialEq, Eq, Error)]
pub enum SimFault {
    #[error(transparent)]
    Text(TextFault),
    #[error("NoMemory")]
    NoMemory,
    #[error("Write")]
    Write,
}

impl From<TextFault> for SimFault {
    ghost use Rattle.std.specs.Prelude.{◌≡◌};
    ghost use Rattle.snoop_engine.specs.declared.fault.SimFault.TheVariants.{Text};

    ghost from_gives = { λ e r. r ≡ Text e };

    fn from(fault: TextFault) -> Self {
        SimFault::Text(fault)
    }
}

impl From<WriteFault> for SimFault {
    ghost use Rattle.std.specs.Prelude.{◌≡◌};
    ghost use Rattle.snoop_engine.specs.Fault.{fault_of_write};

    ghost from_gives = { λ e r. r ≡ fault_of_write e };

    fn from(fault: WriteFault) -> Self {
        match fault {
            WriteFault::Write => SimFault::Write,
            WriteFault::NoMemory => SimFault::NoMemory,
        }
    }
}
