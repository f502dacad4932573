//! How the writer publishes.
ghost use Rattle.std.specs.Prelude.{◌≡◌, ℕ, ◌<◌, [], ◌++◌, All, length, drop};
ghost use Rattle.snoop_history.specs.Within.{IsItemWithin};
ghost use Rattle.snoop_versions.specs.Knows.{knows};
ghost use Rattle.snoop_versions.specs.Readings.{IsHistory};
ghost use Rattle.snoop_versions.specs.Rule.{IsPublishing};

use crate::rule::{AddsItem, RuledWriter};
use std::sync::Wait;

/// Publishes the one item that is ready.
pub(crate) fn publish<R: Wait>(writer: RuledWriter, rt: &R) -> (RuledWriter, ())
    requires one { 0 < length (drop writer.behind writer.log.items) }
    requires publishing { (cores : ℕ) × (blocks : ℕ) × (words : ℕ)
        × IsPublishing cores blocks words (knows writer.desk.place) writer.desk.shown.value (drop writer.behind writer.log.items)
        × IsHistory cores blocks words ((knows writer.desk.place).seen ++ drop writer.behind writer.log.items)
        × All (IsItemWithin cores blocks words) ((knows writer.desk.place).seen ++ drop writer.behind writer.log.items) }
    ensures list { (knows result.0.desk.place).seen ≡ (knows writer.desk.place).seen ++ drop writer.behind writer.log.items }
    ensures ready { drop result.0.behind result.0.log.items ≡ [] }
    ensures publishing { (cores blocks words : ℕ) → IsPublishing cores blocks words (knows writer.desk.place) writer.desk.shown.value (drop writer.behind writer.log.items)
        → IsPublishing cores blocks words (knows result.0.desk.place) result.0.desk.shown.value [] }
{
    (writer.publish_as::<AddsItem, R>(rt).0, ())
}
