//! Why the program did not do its task, and the status that it ends with.
ghost use Rattle.std.specs.Prelude.{◌≡◌, ◌≢◌};
ghost use Rattle.std.specs.IoError.{error_kind};
ghost use Rattle.std.specs.declared.io.ErrorKind.TheVariants as io_kind;
ghost use Rattle.snoop_sim.specs.Status.{status_of, status_of_fault};

use crate::fault::ThreadsFault;
use clap::error::ErrorKind;
use snoop_draw::DrawFault;
use snoop_engine::{ChoiceFault, SimFault};
use snoop_lint::LintFault;
use snoop_trace::{ShapeFault, TextFault};
use std::alloc::AllocError;
use std::io;
use thiserror::Error;

/// Why the program did not do its task.
#[derive(Debug, Drop, Error)]
pub(crate) enum Failure {
    #[error(transparent)]
    CommandLine(clap::Error),
    /// No command was named. `clap` refuses such words before.
    #[error("NoCommand")]
    NoCommand,
    #[error("NotUtf8")]
    NotUtf8,
    #[error(transparent)]
    Shape(ShapeFault),
    /// `--serial` is given without `--of rows`.
    #[error("BadSerial: --serial needs --of rows")]
    BadSerial,
    /// An option is given that this form of a drawing has not.
    #[error("BadChoice: --theme and --shown are for svg and html, --ascii is for text")]
    BadChoice,
    /// The block or the steps that are to be shown are refused.
    #[error(transparent)]
    Unchosen(ChoiceFault),
    /// Neither of `--by` and `--every` is given, or both.
    #[error("BadBy: give either --by or --every")]
    BadBy,
    /// `--every` is 0.
    #[error("BadEvery: --every has to be 1 or more")]
    BadEvery,
    /// `--top` is given without `--by block`.
    #[error("BadTop: --top needs --by block")]
    BadTop,
    #[error(transparent)]
    Simulation(SimFault),
    #[error(transparent)]
    Threads(ThreadsFault),
    #[error(transparent)]
    Lint(LintFault),
    #[error(transparent)]
    Drawing(DrawFault),
}

impl From<ShapeFault> for Failure {
    ghost use Rattle.std.specs.Prelude.{◌≡◌};
    ghost use Rattle.snoop_sim.specs.declared.failure.Failure.TheVariants as failure;

    ghost from_gives = { λ e r. r ≡ failure.Shape e };

    fn from(fault: ShapeFault) -> Self {
        Failure::Shape(fault)
    }
}

impl From<ChoiceFault> for Failure {
    ghost use Rattle.std.specs.Prelude.{◌≡◌};
    ghost use Rattle.snoop_sim.specs.declared.failure.Failure.TheVariants as failure;

    ghost from_gives = { λ e r. r ≡ failure.Unchosen e };

    fn from(fault: ChoiceFault) -> Self {
        Failure::Unchosen(fault)
    }
}

impl From<clap::Error> for Failure {
    ghost use Rattle.std.specs.Prelude.{◌≡◌, ◌≢◌, ◌⊎◌};
    ghost use Rattle.clap.specs.Values.{kind_of};
    ghost use Rattle.clap.specs.declared.error.kind.ErrorKind.TheVariants.{OutOfMemory};
    ghost use Rattle.snoop_engine.specs.declared.fault.SimFault.TheVariants.{NoMemory};
    ghost use Rattle.snoop_sim.specs.declared.failure.Failure.TheVariants as failure;

    ghost from_gives = { λ e r. ((kind_of e ≡ OutOfMemory) × (r ≡ failure.Simulation NoMemory)) ⊎ ((kind_of e ≢ OutOfMemory) × (r ≡ failure.CommandLine e)) };

    fn from(error: clap::Error) -> Self {
        if error.kind() == ErrorKind::OutOfMemory {
            Failure::Simulation(SimFault::NoMemory)
        } else {
            Failure::CommandLine(error)
        }
    }
}

impl From<AllocError> for Failure {
    ghost use Rattle.std.specs.Prelude.{◌≡◌};
    ghost use Rattle.snoop_engine.specs.declared.fault.SimFault.TheVariants.{NoMemory};
    ghost use Rattle.snoop_sim.specs.declared.failure.Failure.TheVariants as failure;

    ghost from_gives = { λ e r. r ≡ failure.Simulation NoMemory };

    fn from(_: AllocError) -> Self {
        Failure::Simulation(SimFault::NoMemory)
    }
}

impl Failure {
    /// Why the words of the process could not be read: out of memory, or one is not UTF-8.
    pub(crate) fn of_words(cause: io::Error) -> Self
        ensures memory { error_kind cause ≡ io_kind.OutOfMemory → result ≡ Failure.Simulation SimFault.NoMemory }
        ensures other { error_kind cause ≢ io_kind.OutOfMemory → result ≡ Failure.NotUtf8 }
    {
        if cause.kind() == io::ErrorKind::OutOfMemory {
            Failure::Simulation(SimFault::NoMemory)
        } else {
            Failure::NotUtf8
        }
    }

    /// The status that the program ends with: 1 for a refused text, 2 for a refused command line, shape or choice, and for a drawing
    /// that is too large, 3 for out of memory, 4 for a failed write, and 5 where the threads were refused for any other reason.
    pub(crate) fn status(&self) -> u8
        ensures { result ≡ status_of self.now }
    {
        match self {
            Failure::CommandLine(_)
            | Failure::NoCommand
            | Failure::NotUtf8
            | Failure::Shape(_)
            | Failure::Unchosen(_)
            | Failure::BadBy
            | Failure::BadTop
            | Failure::BadEvery
            | Failure::BadSerial
            | Failure::BadChoice
            | Failure::Drawing(DrawFault::TooLarge) => 2,
            Failure::Simulation(fault) | Failure::Drawing(DrawFault::Simulation(fault)) => {
                status_of_fault(*fault)
            }
            Failure::Threads(fault) => fault.status(),
            Failure::Lint(LintFault::Read) => 1,
            Failure::Lint(LintFault::NoMemory) => 3,
            Failure::Lint(LintFault::Write) => 4,
        }
    }
}

/// The status of a simulation that stopped.
fn status_of_fault(fault: SimFault) -> u8
    ensures { result ≡ status_of_fault fault }
{
    match fault {
        SimFault::Text(TextFault::NoMemory) | SimFault::NoMemory => 3,
        SimFault::Text(_) => 1,
        SimFault::Write => 4,
    }
}
