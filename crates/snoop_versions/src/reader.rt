//! What reads versions.
ghost use Rattle.std.specs.Prelude.{◌≡◌};

use crate::enter::{enter_own, enter_shape, enter_totals, enter_value};
use crate::rule::{RuledFactory, RuledReader};
use core::mem::replace_with;
use snoop_history::{Did, Totals};
use snoop_trace::Shape;
use std::marker::Model;

/// What makes readers of versions of its shape. Threads may share it.
#[derive(Drop)]
pub struct Readers {
    shape: Shape,
    factory: RuledFactory,
}

impl Model for Readers {
    ghost use Rattle.snoop_trace.specs.Extent.{Extent};

    ghost Value = { Extent };

    ghost view = { λ r. r.shape };
}

impl Readers {
    ghost use Rattle.std.specs.Prelude.{◌≡◌, ◌&&◌, IfSome};
    ghost use Rattle.snoop_versions.specs.Readings.{IsHistoryFor, IsOfShape};

    // What makes readers of the versions of this shape.
    pub(crate) fn over(shape: Shape, factory: RuledFactory) -> Readers
        ensures { result ≡ shape }
    {
        Readers { shape, factory }
    }

    /// A reader, which has read the current version. `None` where there is no place left, and where the writer has ended.
    #[tactic(auto, using(crate::proofs::Versions::admits))]
    pub fn reader(&self) -> Option<VersionReader>
        ensures shape { IfSome result (λ reader. IsOfShape reader self.now) }
        ensures history { IfSome result (λ reader. IsHistoryFor self.now reader.seen) }
    {
        let reader = self.factory.reader().ok()?;
        let (reader, fits) = enter_shape(reader, self.shape);
        if !fits {
            return None;
        }
        Some(VersionReader { reader })
    }
}

/// A reader of the published versions. Each call sees one version, and never an earlier one than the calls before.
#[derive(Drop)]
pub struct VersionReader {
    reader: RuledReader,
}

impl Model for VersionReader {
    ghost use Rattle.std.specs.Prelude.{◌≡◌, true};
    ghost use Rattle.snoop_versions.specs.Readings.{Viewing};

    ghost Value = { Viewing };

    ghost use Rattle.snoop_versions.specs.Knows.{knows};
    ghost use Rattle.snoop_versions.specs.Rule.{viewing};

    ghost view = { λ r. viewing (knows r.reader.place) };

    ghost invariant = { λ r. (knows r.reader.place).used ≡ true };
}

impl VersionReader {
    ghost use Rattle.std.specs.Prelude.{◌≡◌, Some, None, IfSome, IfNone, if◌then◌else◌, nat_lt, ◌&&◌};
    ghost use Rattle.snoop_history.specs.History.{next_number, flat, last_of};
    ghost use Rattle.snoop_history.specs.Totals.{totals_of, capped, capped_totals};
    ghost use Rattle.snoop_versions.specs.Readings.{Enters};

    /// The last value stored in the word of the block, 0 if there is none, and `None` for a block or a word outside the shape. No answer where the
    /// writer has ended. It waits for nobody and takes no memory.
    pub fn value(&mut self, block: u32, word: u32) -> Option<Option<u64>>
        ensures some { IfSome result (λ value. Enters self.old self.new
            × (value ≡ (if nat_lt block self.new.blocks && nat_lt word self.new.words then Some (flat self.new.seen block word) else None))) }
        ensures none { IfNone result (self.new ≡ self.old) }
    {
        replace_with(&mut self.reader, (block, word), enter_value)
    }

    /// The counts of the items, each up to the largest `u64`. No answer where the writer has ended. It waits for nobody and
    /// takes no memory.
    pub fn totals(&mut self) -> Option<Totals>
        ensures some { IfSome result (λ totals. Enters self.old self.new × (totals ≡ capped_totals (totals_of self.new.seen))) }
        ensures none { IfNone result (self.new ≡ self.old) }
    {
        replace_with(&mut self.reader, (), enter_totals)
    }

    /// How many operations of the core there are, up to the largest `u64`, and the last of them; `None` for a core outside the
    /// shape. No answer where the writer has ended. It waits for nobody and takes no memory.
    pub fn own(&mut self, core: u32) -> Option<(Option<u64>, Option<Did>)>
        ensures some { IfSome result (λ own. Enters self.old self.new
            × (own.0 ≡ (if nat_lt core self.new.cores then Some (capped (next_number self.new.seen core)) else None))
            × (own.1 ≡ (if nat_lt core self.new.cores then last_of self.new.seen core else None))) }
        ensures none { IfNone result (self.new ≡ self.old) }
    {
        replace_with(&mut self.reader, core, enter_own)
    }
}
