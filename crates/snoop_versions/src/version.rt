//! What is published.
ghost use Rattle.std.specs.Prelude.{◌≡◌, [], IfOk};
ghost use Rattle.snoop_history.specs.Board.{absorbed};
ghost use Rattle.snoop_versions.specs.Rule.{version_of};

use left_right::Absorb;
use snoop_history::{Board, Item};
use snoop_trace::{NoMemory, Shape};
use std::alloc::{AllocError, Global};

/// A version: the board of a history, and the item that came last.
#[derive(Drop)]
pub(crate) struct Version {
    pub(crate) board: Board,
    pub(crate) newest: Option<Item>,
}

impl Version {
    /// The version of no items.
    pub(crate) fn new(alloc: Global, shape: Shape) -> Result<Version, NoMemory>
        ensures { IfOk result (λ v. v ≡ version_of shape.cores shape.blocks shape.words []) }
    {
        Ok(Version {
            board: Board::new(alloc, shape)?,
            newest: None,
        })
    }
}

impl Absorb<Item> for Version {
    ghost use Rattle.std.specs.Prelude.{Some};
    ghost use Rattle.snoop_history.specs.Board.{absorbed};

    type State = Version;

    ghost state = { λ v. v };

    ghost applied = { λ v entry. record { board = absorbed v.board entry; newest = Some entry } };

    ghost never_fails = { Unit {0} };

    fn absorb_first(&mut self, item: &Item, _other: &Version) -> Result<(), AllocError> {
        self.board.absorb(*item);
        self.newest = Some(*item);
        Ok(())
    }
}
