//! What is counted of the records of a text.
ghost use Rattle.std.specs.Prelude.{◌≡◌, ◌<◌, ◌-◌, ◌^◌, [], false};
ghost use Rattle.csv.specs.Records.{fields_of};
ghost use Rattle.snoop_lint.specs.Tallies as spec;

use crate::explain::heads;
use crate::form::Form;
use crate::kind::{Kind, address_named, core_named};
use csv::ByteRecord;
use snoop_trace::{Shape, TextFault};

/// What is counted of the records of a text so far.
#[derive(Clone, Copy)]
pub(crate) struct Tally {
    pub records: u64,
    pub faults: u64,
    /// More cores and blocks would not mend all faults.
    pub has_others: bool,
    pub has_heading: bool,
    /// A core asks for something.
    pub asks: bool,
    /// The bus does something.
    pub drives: bool,
    /// The greatest core that a record names, and the greatest block.
    pub core: u64,
    pub block: u64,
}

impl Tally {
    pub(crate) fn new() -> Tally
        ensures { result ≡ record { records = 0; faults = 0; has_others = false; has_heading = false; asks = false; drives = false; core = 0; block = 0 } }
    {
        Tally {
            records: 0,
            faults: 0,
            has_others: false,
            has_heading: false,
            asks: false,
            drives: false,
            core: 0,
            block: 0,
        }
    }

    /// What is counted after record n, with its fault, if it has one.
    pub(crate) fn with_record(
        self,
        form: Form,
        shape: Shape,
        n: u64,
        fields: &ByteRecord,
        fault: Option<TextFault>,
    ) -> Tally
        requires { self.faults < 2 ^ 64 - 1 }
        ensures { result ≡ spec.one_more form shape n (fields_of fields.now) fault self }
    {
        Tally {
            records: n,
            faults: self.faults + if fault.is_some() { 1 } else { 0 },
            has_others: self.has_others || is_other(fault),
            has_heading: self.has_heading || heads(form, n, fields),
            asks: self.asks || is_asking(fields),
            drives: self.drives || is_driving(fields),
            core: self.core.max(core_named(fields)),
            block: self.block.max(block_named(shape, fields)),
        }
    }
}

fn is_asking(fields: &ByteRecord) -> bool
    ensures { result ≡ spec.is_asking (fields_of fields.now) }
{
    Kind::of(fields).is_some_and(|kind| kind.asks())
}

fn is_driving(fields: &ByteRecord) -> bool
    ensures { result ≡ spec.is_driving (fields_of fields.now) }
{
    Kind::of(fields).is_some_and(|kind| kind.drives())
}

fn is_other(fault: Option<TextFault>) -> bool
    ensures { result ≡ spec.is_other fault }
{
    match fault {
        None | Some(TextFault::NoCore(_) | TextFault::NoBlock(_)) => false,
        Some(_) => true,
    }
}

fn block_named(shape: Shape, fields: &ByteRecord) -> u64
    ensures { result ≡ spec.block_named shape (fields_of fields.now) }
{
    address_named(fields) / shape.block_bytes() as u64
}
