//! What a reader takes from one published version.
#![tactic(auto, using(crate::proofs::Versions::sees))]

ghost use Rattle.std.specs.Prelude.{◌≡◌, ◌&&◌, Some, None, IfSome, IfNone, IsTrue, true, if◌then◌else◌, nat_lt};
ghost use Rattle.snoop_history.specs.History.{next_number, flat, last_of};
ghost use Rattle.snoop_history.specs.Totals.{totals_of, capped, capped_totals};
ghost use Rattle.snoop_versions.specs.Readings.{Enters, IsHistoryFor};
ghost use Rattle.snoop_versions.specs.Knows.{knows};
ghost use Rattle.snoop_versions.specs.Rule.{viewing};

use crate::rule::{RuledReader, SeesList};
use snoop_history::{Did, Totals};
use snoop_trace::Shape;

/// Whether the versions are of this shape.
pub(crate) fn enter_shape(reader: RuledReader, shape: Shape) -> (RuledReader, bool)
    ensures used { IsTrue result.1 → (knows result.0.place).used ≡ true }
    ensures shape { IsTrue result.1 → ((knows result.0.place).cores ≡ shape.cores) × ((knows result.0.place).blocks ≡ shape.blocks) × ((knows result.0.place).words ≡ shape.words) }
    ensures history { IsTrue result.1 → IsHistoryFor shape (knows result.0.place).seen }
{
    match reader.enter_as::<SeesList>() {
        Ok(reading) => {
            let fits = reading.get().board.has_shape(shape);
            (reading.leave(), fits)
        }
        Err(reader) => (reader, false),
    }
}

/// The value of a word of a block.
pub(crate) fn enter_value(
    reader: RuledReader,
    place: (u32, u32),
) -> (RuledReader, Option<Option<u64>>)
    requires { (knows reader.place).used ≡ true }
    ensures used { (knows result.0.place).used ≡ true }
    ensures some { IfSome result.1 (λ value. Enters (viewing (knows reader.place)) (viewing (knows result.0.place))
        × (value ≡ (if nat_lt place.0 (knows result.0.place).blocks && nat_lt place.1 (knows result.0.place).words then Some (flat (knows result.0.place).seen place.0 place.1) else None))) }
    ensures none { IfNone result.1 (knows result.0.place ≡ knows reader.place) }
{
    match reader.enter_as::<SeesList>() {
        Ok(reading) => {
            let value = reading.get().board.value(place.0, place.1);
            (reading.leave(), Some(value))
        }
        Err(reader) => (reader, None),
    }
}

/// The counts of the items.
pub(crate) fn enter_totals(reader: RuledReader, _: ()) -> (RuledReader, Option<Totals>)
    requires { (knows reader.place).used ≡ true }
    ensures used { (knows result.0.place).used ≡ true }
    ensures some { IfSome result.1 (λ totals. Enters (viewing (knows reader.place)) (viewing (knows result.0.place))
        × (totals ≡ capped_totals (totals_of (knows result.0.place).seen))) }
    ensures none { IfNone result.1 (knows result.0.place ≡ knows reader.place) }
{
    match reader.enter_as::<SeesList>() {
        Ok(reading) => {
            let totals = reading.get().board.totals();
            (reading.leave(), Some(totals))
        }
        Err(reader) => (reader, None),
    }
}

/// How many operations of the core there are, and the last one.
pub(crate) fn enter_own(
    reader: RuledReader,
    core: u32,
) -> (RuledReader, Option<(Option<u64>, Option<Did>)>)
    requires { (knows reader.place).used ≡ true }
    ensures used { (knows result.0.place).used ≡ true }
    ensures some { IfSome result.1 (λ own. Enters (viewing (knows reader.place)) (viewing (knows result.0.place))
        × (own.0 ≡ (if nat_lt core (knows result.0.place).cores then Some (capped (next_number (knows result.0.place).seen core)) else None))
        × (own.1 ≡ (if nat_lt core (knows result.0.place).cores then last_of (knows result.0.place).seen core else None))) }
    ensures none { IfNone result.1 (knows result.0.place ≡ knows reader.place) }
{
    match reader.enter_as::<SeesList>() {
        Ok(reading) => {
            let board = &reading.get().board;
            let own = (board.count(core), board.last(core));
            (reading.leave(), Some(own))
        }
        Err(reader) => (reader, None),
    }
}
