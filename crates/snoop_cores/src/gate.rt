//! What a row waits for.
ghost use Rattle.std.specs.Prelude.{◌≡◌, Bool, true, false, IsOk};

use thiserror::Error;

/// A row waited for too long.
#[derive(Clone, Copy, Debug, PartialEq, Eq, Error)]
#[error("Late")]
pub struct Late;

/// What each row waits for before it is performed.
pub trait Gate {
    // No row is late. A gate that does not say so may be.
    ghost never_late: { Bool } = { false };

    /// Returns when the core's row of this number, counted from 0, may be performed. `Late` stops the core's rows there.
    fn before(&self, core: u32, number: u64) -> Result<(), Late>
        ensures sure { never_late ≡ true → IsOk result };
}

/// A gate that holds no row.
#[derive(Clone, Copy, Debug)]
pub struct Free;

impl Gate for Free {
    ghost never_late = { true };

    fn before(&self, _core: u32, _number: u64) -> Result<(), Late>
        ensures { IsOk result }
    {
        Ok(())
    }
}
