//! The kinds of record, and what their fields are.
ghost use Rattle.std.specs.Prelude.{◌≡◌, ◌<◌};
ghost use Rattle.csv.specs.Records.{fields_of};
ghost use Rattle.snoop_lint.specs.Kinds as spec;

use crate::fields::{field, is_number, number_at};
use csv::ByteRecord;

/// A kind of record.
#[derive(Clone, Copy)]
pub(crate) enum Kind {
    Load,
    Store,
    Evict,
    Order,
    Respond,
    Heading,
}

impl Kind {
    /// The kind of a record, by its letter.
    pub(crate) fn of(fields: &ByteRecord) -> Option<Kind>
        ensures { result ≡ spec.kind_of (fields_of fields.now) }
    {
        match field(fields, 0) {
            [b'L'] => Some(Kind::Load),
            [b'S'] => Some(Kind::Store),
            [b'E'] => Some(Kind::Evict),
            [b'O'] => Some(Kind::Order),
            [b'R'] => Some(Kind::Respond),
            [b'V'] => Some(Kind::Heading),
            _ => None,
        }
    }

    /// Whether a core asks for something.
    pub(crate) fn asks(self) -> bool
        ensures { result ≡ spec.asks self }
    {
        matches!(self, Kind::Load | Kind::Store | Kind::Evict)
    }

    /// Whether the bus does something.
    pub(crate) fn drives(self) -> bool
        ensures { result ≡ spec.drives self }
    {
        matches!(self, Kind::Order | Kind::Respond)
    }

    /// How many fields it has.
    pub(crate) fn field_count(self) -> usize
        ensures value { result ≡ spec.field_count self }
        ensures few { result < 8 }
    {
        match self {
            Kind::Load | Kind::Evict => 3,
            Kind::Store => 4,
            Kind::Order | Kind::Respond => 2,
            Kind::Heading => 7,
        }
    }

    /// The same in words, and the fields.
    #[tactic(auto, unfolding(crate::specs::Kinds::field_names))]
    pub(crate) fn field_names(self) -> &'static str
        ensures { result.now ≡ spec.field_names self }
    {
        match self {
            Kind::Load => "L has 3 fields (L,core,address)",
            Kind::Store => "S has 4 fields (S,core,address,value)",
            Kind::Evict => "E has 3 fields (E,core,address)",
            Kind::Order => "O has 2 fields (O,core)",
            Kind::Respond => "R has 2 fields (R,address)",
            Kind::Heading => "V has 7 fields (V,2,protocol,cores,blocks,block_bytes,words)",
        }
    }

    /// The place of the first field of such a record that ought to be a number and is none.
    pub(crate) fn bad_place(self, fields: &ByteRecord) -> usize
        ensures { result ≡ spec.bad_place self (fields_of fields.now) }
    {
        match self {
            Kind::Heading => heading_place(fields),
            _ => step_place(fields),
        }
    }

    /// What the field in this place is called.
    pub(crate) fn field_name(self, i: usize) -> &'static str
        ensures { result.now ≡ spec.field_name self i }
    {
        match self {
            Kind::Heading => heading_name(i),
            Kind::Respond => "address",
            _ => step_name(i),
        }
    }
}

/// The core that a record names; 0 where it names none.
#[tactic(auto, unfolding(crate::specs::Kinds::core_named))]
pub(crate) fn core_named(fields: &ByteRecord) -> u64
    ensures { result ≡ spec.core_named (fields_of fields.now) }
{
    match Kind::of(fields) {
        Some(Kind::Load | Kind::Store | Kind::Evict | Kind::Order) => number_at(fields, 1),
        _ => 0,
    }
}

/// The address that a record names; 0 where it names none.
#[tactic(auto, unfolding(crate::specs::Kinds::address_named))]
pub(crate) fn address_named(fields: &ByteRecord) -> u64
    ensures { result ≡ spec.address_named (fields_of fields.now) }
{
    match Kind::of(fields) {
        Some(Kind::Load | Kind::Store | Kind::Evict) => number_at(fields, 2),
        Some(Kind::Respond) => number_at(fields, 1),
        _ => 0,
    }
}

#[tactic(auto, unfolding(crate::specs::Kinds::heading_place))]
fn heading_place(fields: &ByteRecord) -> usize
    ensures { result ≡ spec.heading_place (fields_of fields.now) }
{
    if !is_number(fields, 1) {
        1
    } else if !is_number(fields, 3) {
        3
    } else if !is_number(fields, 4) {
        4
    } else if !is_number(fields, 5) {
        5
    } else {
        6
    }
}

#[tactic(auto, unfolding(crate::specs::Kinds::step_place))]
fn step_place(fields: &ByteRecord) -> usize
    ensures { result ≡ spec.step_place (fields_of fields.now) }
{
    if !is_number(fields, 1) {
        1
    } else if !is_number(fields, 2) {
        2
    } else {
        3
    }
}

#[tactic(auto, unfolding(crate::specs::Kinds::heading_name))]
fn heading_name(i: usize) -> &'static str
    ensures { result.now ≡ spec.heading_name i }
{
    match i {
        1 => "version",
        3 => "cores",
        4 => "blocks",
        5 => "block_bytes",
        _ => "words",
    }
}

#[tactic(auto, unfolding(crate::specs::Kinds::step_name))]
fn step_name(i: usize) -> &'static str
    ensures { result.now ≡ spec.step_name i }
{
    match i {
        1 => "core",
        2 => "address",
        _ => "value",
    }
}
