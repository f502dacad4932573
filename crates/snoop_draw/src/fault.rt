//! Why a drawing was not made.

use snoop_engine::SimFault;
use snoop_trace::{NoMemory, TextFault, WriteFault};
use thiserror::Error;

/// Why a drawing was not made, or not to its end.
#[derive(Clone, Copy, Debug, PartialEq, Eq, Error)]
pub enum DrawFault {
    /// The simulation stopped; `SimFault` says what was written.
    #[error(transparent)]
    Simulation(SimFault),
    /// The drawing would have more cells than its form may have; nothing was written.
    #[error("TooLarge")]
    TooLarge,
}

impl From<TextFault> for DrawFault {
    ghost use Rattle.std.specs.Prelude.{◌≡◌};
    ghost use Rattle.snoop_engine.specs.declared.fault.SimFault.TheVariants.{Text};
    ghost use Rattle.snoop_draw.specs.declared.fault.DrawFault.TheVariants.{Simulation};

    ghost from_gives = { λ e r. r ≡ Simulation (Text e) };

    fn from(fault: TextFault) -> Self {
        DrawFault::Simulation(SimFault::Text(fault))
    }
}

impl From<WriteFault> for DrawFault {
    ghost use Rattle.std.specs.Prelude.{◌≡◌};
    ghost use Rattle.snoop_engine.specs.Fault.{fault_of_write};
    ghost use Rattle.snoop_draw.specs.declared.fault.DrawFault.TheVariants.{Simulation};

    ghost from_gives = { λ e r. r ≡ Simulation (fault_of_write e) };

    fn from(fault: WriteFault) -> Self {
        DrawFault::Simulation(SimFault::from(fault))
    }
}

impl From<NoMemory> for DrawFault {
    ghost use Rattle.std.specs.Prelude.{◌≡◌};
    ghost use Rattle.snoop_engine.specs.declared.fault.SimFault.TheVariants.{NoMemory as OutOfMemory};
    ghost use Rattle.snoop_draw.specs.declared.fault.DrawFault.TheVariants.{Simulation};

    ghost from_gives = { λ e r. r ≡ Simulation OutOfMemory };

    fn from(fault: NoMemory) -> Self {
        DrawFault::Simulation(SimFault::NoMemory)
    }
}
