//! Why a simulation in threads stopped.
ghost use Rattle.std.specs.Prelude.{◌≡◌};
ghost use Rattle.snoop_sim.specs.Status.{status_of_threads};

use snoop_cores::{GatherFault, MakeFault, RunFault, SeatFault};
use snoop_trace::{TextFault, WriteFault};
use thiserror::Error;

/// Why a simulation in threads stopped. After `Write` a beginning of the steps was written, at each other fault nothing.
#[derive(Clone, Copy, Debug, PartialEq, Eq, Error)]
pub enum ThreadsFault {
    /// The text was refused.
    #[error(transparent)]
    Text(TextFault),
    /// The shared machine was not made.
    #[error(transparent)]
    Make(MakeFault),
    /// The rows were not started. Only out of memory can cause this: each row within the shape has a seat.
    #[error(transparent)]
    Run(RunFault),
    /// A seat was refused a row.
    #[error(transparent)]
    Seat(SeatFault),
    /// The steps were not gathered.
    #[error(transparent)]
    Gather(GatherFault),
    /// The steps were not written whole.
    #[error(transparent)]
    Write(WriteFault),
}

impl ThreadsFault {
    /// The status that the program ends with.
    pub(crate) fn status(&self) -> u8
        ensures { result ≡ status_of_threads self.now }
    {
        match self {
            ThreadsFault::Text(TextFault::NoMemory)
            | ThreadsFault::Make(MakeFault::NoMemory)
            | ThreadsFault::Run(RunFault::NoMemory)
            | ThreadsFault::Seat(SeatFault::NoMemory)
            | ThreadsFault::Gather(GatherFault::NoMemory)
            | ThreadsFault::Write(WriteFault::NoMemory) => 3,
            ThreadsFault::Text(_) => 1,
            ThreadsFault::Write(WriteFault::Write) => 4,
            _ => 5,
        }
    }
}
