//! What may be behind a fault, as the field looks.
ghost use Rattle.std.specs.Prelude.{◌≡◌, ◌≤◌, ◌∷◌, []};
ghost use Rattle.std.specs.Char.{is_digit};
ghost use Rattle.std.specs.List.{list_all, list_any};
ghost use Rattle.csv.specs.Records.{fields_of};
ghost use Rattle.snoop_lint.specs.Hints as spec;

use crate::fields::field;
use crate::form::Form;
use csv::ByteRecord;

/// Why the first of so many fields may be no kind of record; `names`: the record may be a line of names.
#[tactic(auto, unfolding(crate::specs::Hints::kind_hint))]
pub(crate) fn kind_hint(form: Form, names: bool, count: usize, field: &[u8]) -> &'static str
    ensures { result.now ≡ spec.kind_hint form names count field.now }
{
    if is_spelt(count, field) {
        "; a load is L, a store S, an eviction E"
    } else if is_elsewhere(form, field) {
        elsewhere(form)
    } else if is_letter_of(b"lseor", field) {
        "; kinds are capital letters"
    } else if has_line_end(field) {
        "; a quote is closed on a later line, or not at all"
    } else if field.contains(&b',') {
        "; within quotes a comma is part of the field"
    } else if field.starts_with(b"#") {
        "; a text has no comments"
    } else if has_foreign(field) {
        "; this is no plain text"
    } else if is_of_report(field) {
        "; a line of the report begins so"
    } else if count == 1 && has_gap(field) {
        "; commas stand between the fields"
    } else if is_padded(field) {
        "; blanks are not taken away"
    } else if names && !field.is_empty() {
        "; a text has no line of names"
    } else if has_gap(field) {
        "; commas stand between the fields"
    } else {
        ""
    }
}

/// The first hint of some fields at what may be wrong with a field, whatever it stands for.
#[tactic(auto, using(crate::proofs::HintLemmas::next_hint), unfolding(crate::specs::Hints::fields_hint))]
pub(crate) fn fields_hint(fields: &ByteRecord) -> &'static str
    ensures { result.now ≡ spec.fields_hint (fields_of fields.now) }
{
    for i in 0..fields.len() {
        let hint = field_hint(field(fields, i));
        if !hint.is_empty() {
            return hint;
        }
    }
    ""
}

#[tactic(auto, unfolding(crate::specs::Hints::field_hint))]
fn field_hint(field: &[u8]) -> &'static str
    ensures { result.now ≡ spec.field_hint field.now }
{
    if has_line_end(field) {
        "; a quote is closed on a later line, or not at all"
    } else if field.contains(&b',') {
        "; within quotes a comma is part of the field"
    } else if field.contains(&b':') {
        "; a reply begins at the colon, and a step has none"
    } else if field.contains(&b'#') {
        "; a text has no comments"
    } else if ends_with_kind(field) {
        "; each record has a line of its own"
    } else if field.contains(&b'\\') {
        "; a backslash stands for itself: printf makes a line end of \\n"
    } else {
        ""
    }
}

/// Why a field may be no number.
#[tactic(auto, unfolding(crate::specs::Hints::number_hint))]
pub(crate) fn number_hint(field: &[u8]) -> &'static str
    ensures { result.now ≡ spec.number_hint field.now }
{
    if field.is_empty() {
        "; it is empty"
    } else {
        or_else(field_hint(field), digits_hint(field))
    }
}

#[tactic(auto, unfolding(crate::specs::Hints::digits_hint))]
fn digits_hint(field: &[u8]) -> &'static str
    ensures { result.now ≡ spec.digits_hint field.now }
{
    if is_padded(field) {
        "; blanks are not taken away"
    } else if is_numeral(field) {
        "; it is above 18446744073709551615"
    } else if field.starts_with(b"0X") {
        "; the x of 0x is small"
    } else if are_digits(16, field) {
        "; hexadecimal digits stand after 0x"
    } else {
        "; a number is decimal digits, or 0x and hexadecimal digits"
    }
}

/// Of two hints the first, unless it is empty.
pub(crate) fn or_else(first: &'static str, other: &'static str) -> &'static str
    ensures { result.now ≡ spec.or_else first.now other.now }
{
    if first.is_empty() { other } else { first }
}

/// Whether a field is one of these letters alone.
pub(crate) fn is_letter_of(letters: &[u8], field: &[u8]) -> bool
    ensures { result ≡ spec.is_letter_of letters.now field.now }
{
    match field {
        [letter] => letters.contains(letter),
        _ => false,
    }
}

fn is_elsewhere(form: Form, field: &[u8]) -> bool
    ensures { result ≡ spec.is_elsewhere form field.now }
{
    match form {
        Form::Steps => is_letter_of(b"V", field),
        Form::Rows => is_letter_of(b"ORV", field),
    }
}

fn elsewhere(form: Form) -> &'static str
    ensures { result.now ≡ spec.elsewhere form }
{
    match form {
        Form::Steps => "; a heading stands in record 1 alone",
        Form::Rows => "; it is for snoop steps",
    }
}

fn is_spelt(count: usize, field: &[u8]) -> bool
    ensures { result ≡ spec.is_spelt count field.now }
{
    is_word(field) || (is_letter_of(b"Rr", field) && count == 3)
}

fn is_word(field: &[u8]) -> bool
    ensures { result ≡ spec.is_word field.now }
{
    field.eq_ignore_ascii_case(b"w")
        || field.eq_ignore_ascii_case(b"write")
        || field.eq_ignore_ascii_case(b"store")
        || field.eq_ignore_ascii_case(b"read")
        || field.eq_ignore_ascii_case(b"load")
        || field.eq_ignore_ascii_case(b"evict")
}

fn is_of_report(field: &[u8]) -> bool
    ensures { result ≡ spec.is_of_report field.now }
{
    field.starts_with(b"loads ")
        || field.starts_with(b"stores ")
        || field.starts_with(b"GetS ")
        || field.starts_with(b"from memory ")
        || field.starts_with(b"writebacks ")
        || field.starts_with(b"block ")
}

/// Whether a field begins with a letter of a step and a gap.
pub(crate) fn begins_as_step(field: &[u8]) -> bool
    ensures { result ≡ spec.begins_as_step field.now }
{
    match field {
        [letter, gap, ..] => is_letter(*letter) && is_gap(*gap),
        _ => false,
    }
}

/// Whether a field ends with the kind of the record that follows on the same line.
fn ends_with_kind(field: &[u8]) -> bool
    ensures { result ≡ spec.ends_with_kind field.now }
{
    match &field[field.len().saturating_sub(2)..] {
        [gap, letter] => is_gap(*gap) && is_letter(*letter),
        _ => false,
    }
}

fn is_letter(byte: u8) -> bool
    ensures { result ≡ spec.is_letter_of spec.letters (byte ∷ []) }
{
    b"LSEOR".contains(&byte)
}

fn has_gap(field: &[u8]) -> bool
    ensures { result ≡ list_any spec.is_gap field.now }
{
    field.iter().any(|byte| is_gap(*byte))
}

fn is_gap(byte: u8) -> bool
    ensures { result ≡ spec.is_gap byte }
{
    byte == b' ' || byte == b'\t' || byte == b';'
}

fn has_line_end(field: &[u8]) -> bool
    ensures { result ≡ list_any spec.is_line_end field.now }
{
    field.iter().any(|byte| is_line_end(*byte))
}

/// Whether a byte ends a line.
pub(crate) fn is_line_end(byte: u8) -> bool
    ensures { result ≡ spec.is_line_end byte }
{
    byte == b'\n' || byte == b'\r'
}

fn is_padded(field: &[u8]) -> bool
    ensures { result ≡ spec.is_padded field.now }
{
    field.starts_with(b" ")
        || field.starts_with(b"\t")
        || field.ends_with(b" ")
        || field.ends_with(b"\t")
}

fn has_foreign(field: &[u8]) -> bool
    ensures { result ≡ list_any spec.is_foreign field.now }
{
    field.iter().any(|byte| is_foreign(*byte))
}

fn is_foreign(byte: u8) -> bool
    ensures { result ≡ spec.is_foreign byte }
{
    (byte < 0x20 && byte != b'\t') || byte > 0x7E
}

fn is_numeral(field: &[u8]) -> bool
    ensures { result ≡ spec.is_numeral field.now }
{
    are_digits(10, field) || (field.starts_with(b"0x") && are_digits(16, &field[2..]))
}

fn are_digits(base: u32, field: &[u8]) -> bool
    requires low { 2 ≤ base }
    requires high { base ≤ 16 }
    ensures { result ≡ spec.are_digits base field.now }
{
    !field.is_empty() && all_digits(base, field)
}

fn all_digits(base: u32, field: &[u8]) -> bool
    requires low { 2 ≤ base }
    requires high { base ≤ 16 }
    ensures { result ≡ list_all (λ byte. is_digit byte base) field.now }
{
    field.iter().all(|byte| is_digit(base, *byte))
}

fn is_digit(base: u32, byte: u8) -> bool
    requires low { 2 ≤ base }
    requires high { base ≤ 16 }
    ensures { result ≡ is_digit byte base }
{
    (byte as char).to_digit(base).is_some()
}
