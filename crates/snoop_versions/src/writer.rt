//! What publishes versions.
ghost use Rattle.std.specs.Prelude.{◌≡◌};

use crate::publish::publish;
use crate::reader::Readers;
use crate::rule::RuledWriter;
use crate::version::Version;
use core::mem::replace_with;
use snoop_history::{Board, Item};
use snoop_trace::{NoMemory, Shape};
use std::alloc::Global;
use std::marker::Model;
use std::sync::Wait;

/// The writer of the versions that readers see. It is not `Drop`: end it by `end`. It may lie under a lock.
pub struct VersionWriter {
    shape: Shape,
    writer: RuledWriter,
}

impl Model for VersionWriter {
    ghost use Rattle.std.specs.Prelude.{drop};
    ghost use Rattle.snoop_versions.specs.Readings.{Publishing};

    ghost Value = { Publishing };

    ghost use Rattle.snoop_versions.specs.Knows.{knows};
    ghost use Rattle.snoop_versions.specs.Rule.{IsPublishing};

    ghost view = { λ w. record { shape = w.shape; list = (knows w.writer.desk.place).seen; ready = drop w.writer.behind w.writer.log.items } };

    ghost invariant = { λ w. IsPublishing w.shape.cores w.shape.blocks w.shape.words (knows w.writer.desk.place) w.writer.desk.shown.value (drop w.writer.behind w.writer.log.items) };
}

impl VersionWriter {
    ghost use Rattle.std.specs.Prelude.{◌≡◌, ◌<◌, ◌^◌, [], ◌∷◌, ◌++◌, All, IfOk, OnOk, OnErr};
    ghost use Rattle.snoop_history.specs.Board.{board_of};
    ghost use Rattle.snoop_history.specs.Within.{IsItemWithin};
    ghost use Rattle.snoop_versions.specs.Readings.{IsHistoryFor};

    /// The writer of the version of no items, for this shape, with `readers` reading places. `NoMemory` if out of memory.
    #[tactic(auto, using(crate::proofs::Versions::opens))]
    pub fn new(alloc: Global, shape: Shape, readers: usize) -> Result<VersionWriter, NoMemory>
        requires { (0 < readers) × (readers < 2 ^ 32) }
        ensures { IfOk result (λ writer. writer ≡ record { shape = shape; list = []; ready = [] }) }
    {
        let first = Version::new(alloc, shape)?;
        let second = Version::new(alloc, shape)?;
        let writer = RuledWriter::new(alloc, first, second, readers)?;
        Ok(VersionWriter { shape, writer })
    }

    /// What makes readers of these versions. `NoMemory` where the count of its owners is full.
    pub fn readers(&self) -> Result<Readers, NoMemory>
        ensures { IfOk result (λ readers. readers ≡ self.now.shape) }
    {
        Ok(Readers::over(self.shape, self.writer.factory().another()?))
    }

    /// Appends the item that `publish` will show. `NoMemory` leaves all as it was.
    pub fn prepare(&mut self, item: Item) -> Result<(), NoMemory>
        requires { self.old.ready ≡ [] }
        ensures ok { OnOk result (self.new ≡ record self.old { ready = item ∷ [] }) }
        ensures err { OnErr result (self.new ≡ self.old) }
    {
        self.writer.append(item).map_err(|_| NoMemory)
    }

    /// Shows readers the item that is ready. It waits for those that still read the version before the last. With nothing
    /// ready it does nothing. It takes no memory.
    pub fn publish<R: Wait>(&mut self, rt: &R)
        requires history { IsHistoryFor self.old.shape (self.old.list ++ self.old.ready) }
        requires within { All (IsItemWithin self.old.shape.cores self.old.shape.blocks self.old.shape.words) (self.old.list ++ self.old.ready) }
        ensures { self.new ≡ record self.old { list = self.old.list ++ self.old.ready; ready = [] } }
    {
        if self.writer.has_pending_operations() {
            replace_with(&mut self.writer, rt, publish);
        }
    }

    /// Ends the versions, after which readers find none, and hands over the board that was published last. It waits for
    /// those that still read. An item that is ready and not published is dropped.
    pub fn end<R: Wait>(self, rt: &R) -> Board
        ensures { result ≡ board_of self.shape.cores self.shape.blocks self.shape.words self.list }
    {
        let VersionWriter { shape: _, writer } = self;
        let last = Box::into_inner(writer.take(rt));
        last.board
    }
}
