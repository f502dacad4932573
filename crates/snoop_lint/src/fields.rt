//! The fields of a record, by their places.
ghost use Rattle.std.specs.Prelude.{◌≡◌};
ghost use Rattle.csv.specs.Records.{fields_of};
ghost use Rattle.snoop_lint.specs.Fields as spec;

use csv::ByteRecord;
use snoop_trace::number_of;

/// A field by its place, counted from 0; empty where there is none.
pub(crate) fn field(fields: &ByteRecord, i: usize) -> &[u8]
    ensures { result.now ≡ spec.field (fields_of fields.now) i }
{
    match fields.get(i) {
        Some(field) => field,
        None => &[],
    }
}

/// Whether a field is a number.
pub(crate) fn is_number(fields: &ByteRecord, i: usize) -> bool
    ensures { result ≡ spec.is_number (fields_of fields.now) i }
{
    number_of(field(fields, i)).is_some()
}

/// The number that a field is; 0 where it is none.
pub(crate) fn number_at(fields: &ByteRecord, i: usize) -> u64
    ensures { result ≡ spec.number_at (fields_of fields.now) i }
{
    number_of(field(fields, i)).unwrap_or(0)
}
