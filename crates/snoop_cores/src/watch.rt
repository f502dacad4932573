//! Readers of the published versions.
ghost use Rattle.std.specs.Prelude.{◌≡◌, ◌≤◌, ◌⊎◌, ◌↔◌, Err, IfOk, IfErr, OnOk, OnErr};
ghost use Rattle.snoop_history.specs.History.{flat};
ghost use Rattle.snoop_history.specs.Totals.{capped_totals, totals_of};
ghost use Rattle.snoop_versions.specs.Readings.{IsHistoryFor, IsOfShape};
ghost use Rattle.snoop_cores.specs.Seats.{IsNewWatch, SeesOn};
ghost use Rattle.snoop_cores.specs.declared.fault.ViewFault.TheVariants.{NoBlock, NoVersion};

use crate::fault::ViewFault;
use crate::share::Share;
use crate::view::{read_totals, read_value};
use snoop_history::Totals;
use snoop_versions::VersionReader;
use std::marker::Model;
use std::sync::Wait;

/// A reader of the published versions, with a share of the lock. It never takes the lock, but to end.
///
/// It is not `Drop`: end it by `end`.
pub struct Watch {
    share: Share,
    reader: VersionReader,
}

impl Model for Watch {
    ghost use Rattle.snoop_versions.specs.Readings.{IsOfShape};
    ghost use Rattle.snoop_cores.specs.Seats.{Watching};

    ghost Value = { Watching };

    ghost view = { λ w. record { shape = w.share.shape; seen = w.reader.seen } };

    ghost invariant = { λ w. IsOfShape w.reader w.share.shape };
}

impl Watch {
    // A watch with its share of the lock.
    pub(crate) fn new(share: Share, reader: VersionReader) -> Watch
        requires reader { IsOfShape reader share.shape }
        requires history { IsHistoryFor share.shape reader.seen }
        ensures { IsNewWatch share.shape result }
    {
        Watch { share, reader }
    }

    /// The value of a word of the block in one published version. `NoBlock` where the block or the word is outside the shape;
    /// `NoVersion` where there is none to enter.
    pub fn value(&mut self, block: u32, word: u32) -> Result<u64, ViewFault>
        ensures value { IfOk result (λ value. value ≡ flat self.new.seen block word) }
        ensures sees { OnOk result (SeesOn self.new.shape self.old.seen self.new.seen) }
        ensures outside { (result ≡ Err NoBlock) ↔ ((self.old.shape.blocks ≤ block) ⊎ (self.old.shape.words ≤ word)) }
        ensures same { self.new ≡ record self.old { seen = self.new.seen } }
        ensures err { OnErr result (self.new ≡ self.old) }
    {
        read_value(&mut self.reader, self.share.shape(), block, word)
    }

    /// The counts of one published version. `NoVersion` where there is none to enter.
    pub fn totals(&mut self) -> Result<Totals, ViewFault>
        ensures totals { IfOk result (λ totals. totals ≡ capped_totals (totals_of self.new.seen)) }
        ensures sees { OnOk result (SeesOn self.new.shape self.old.seen self.new.seen) }
        ensures same { self.new ≡ record self.old { seen = self.new.seen } }
        ensures err { IfErr result (λ fault. (fault ≡ NoVersion) × (self.new ≡ self.old)) }
    {
        read_totals(&mut self.reader)
    }

    /// Drops this share of the lock. The last one to end waits for the readers that are inside, and ends the versions.
    pub fn end<R: Wait>(self, rt: &R) {
        let Watch { share, reader } = self;
        drop(reader);
        share.end(rt);
    }
}
