//! Why one record of a text is refused.
ghost use Rattle.std.specs.Prelude.{◌≡◌};
ghost use Rattle.csv.specs.Records.{fields_of};
ghost use Rattle.snoop_trace.specs.Faults as spec;

use crate::fault::TextFault;
use crate::protocol::Protocol;
use crate::record::{Entry, Heading};
use crate::shape::Shape;
use crate::step::{Row, Step};
use csv::ByteRecord;

/// Why record n of a text of steps for the protocol and the shape is refused, where no record before it is; None where it is taken.
/// Record 1 may be a heading.
pub fn step_fault(
    protocol: Protocol,
    shape: Shape,
    n: u64,
    fields: &ByteRecord,
) -> Option<TextFault>
    ensures { result ≡ spec.step_fault protocol shape n (fields_of fields.now) }
{
    if Heading::is_heading(n, fields) {
        Heading::check(protocol, shape, n, fields).err()
    } else {
        Step::from_record(shape, n, fields).err()
    }
}

/// Why record n of a text of rows is refused, where no record before it is; None where it is taken.
pub fn row_fault(shape: Shape, n: u64, fields: &ByteRecord) -> Option<TextFault>
    ensures { result ≡ spec.row_fault shape n (fields_of fields.now) }
{
    Row::from_record(shape, n, fields).err()
}
