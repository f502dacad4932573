//! What is said of a faulty record.
ghost use Rattle.std.specs.Prelude.{◌≡◌, ◌<◌, ◌++◌, OnOk};
ghost use Rattle.csv.specs.Records.{fields_of};
ghost use Rattle.snoop_trace.specs.Heading.{is_heading};
ghost use Rattle.snoop_lint.specs.Explained as spec;
ghost use Rattle.snoop_lint.specs.Findings.{heads};

use crate::fields::{field, is_number, number_at};
use crate::form::{Form, Reading};
use crate::hints::{begins_as_step, fields_hint, kind_hint, number_hint, or_else};
use crate::kind::{Kind, address_named, core_named};
use crate::shown::{push_bytes, push_counted, push_shown};
use csv::ByteRecord;
use snoop_trace::streams::{push_numbered, push_text};
use snoop_trace::{NoMemory, Protocol, Shape, TextFault, kind_of};

/// Appends the line of a faulty record, which begins on this line of the text.
#[tactic(auto, unfolding(crate::specs::Explained::finding_line))]
pub(crate) fn push_finding(
    out: &mut Vec<u8>,
    reading: &Reading,
    line: u64,
    n: u64,
    fields: &ByteRecord,
    fault: TextFault,
) -> Result<(), NoMemory>
    ensures { OnOk result (out.new.items ≡ out.old.items
        ++ spec.finding_line reading.now.form reading.now.protocol reading.now.shape line (record { number = n; fields = fields_of fields.now; fault = fault })) }
{
    push_numbered(out, "record ", n)?;
    push_numbered(out, ", line ", line)?;
    push_text(out, ": ")?;
    push_text(out, word(fault))?;
    push_text(out, ": ")?;
    push_explained(out, reading, n, fields, fault)?;
    push_text(out, "\n")
}

#[tactic(auto, unfolding(crate::specs::Explained::word))]
fn word(fault: TextFault) -> &'static str
    ensures { result.now ≡ spec.word fault }
{
    match fault {
        TextFault::BadKind(_) => "BadKind",
        TextFault::BadFields(_) => "BadFields",
        TextFault::BadNumber(_) => "BadNumber",
        TextFault::NoCore(_) => "NoCore",
        TextFault::NoBlock(_) => "NoBlock",
        TextFault::Read => "Read",
        TextFault::NoMemory => "NoMemory",
        TextFault::OtherShape(_) => "OtherShape",
        TextFault::BadVersion(_) => "BadVersion",
    }
}

// Appends what is said of record n, by its fault.
#[tactic(auto, unfolding(crate::specs::Explained::explained))]
fn push_explained(
    out: &mut Vec<u8>,
    reading: &Reading,
    n: u64,
    fields: &ByteRecord,
    fault: TextFault,
) -> Result<(), NoMemory>
    ensures { OnOk result (out.new.items ≡ out.old.items ++ spec.explained reading.now.form reading.now.protocol reading.now.shape n (fields_of fields.now) fault) }
{
    match fault {
        TextFault::BadKind(_) if heads(reading.form, n, fields) => push_bad_protocol(out, fields),
        TextFault::BadKind(_) => push_bad_kind(out, reading.form, n, fields),
        TextFault::BadFields(_) => push_bad_fields(out, fields),
        TextFault::BadNumber(_) => push_bad_number(out, fields),
        TextFault::NoCore(_) => push_no_core(out, reading.shape, core_named(fields)),
        TextFault::NoBlock(_) => push_no_block(out, reading.shape, address_named(fields)),
        TextFault::OtherShape(_) => {
            push_other_shape(out, reading.protocol, reading.shape, fields)
        }
        TextFault::BadVersion(_) => push_bad_version(out, fields),
        TextFault::Read | TextFault::NoMemory => Ok(()),
    }
}

/// Whether record n is the heading of a text of steps.
pub(crate) fn heads(form: Form, n: u64, fields: &ByteRecord) -> bool
    ensures { result ≡ heads form n (fields_of fields.now) }
{
    match form {
        Form::Steps => n == 1 && is_heading(fields),
        Form::Rows => false,
    }
}

fn is_heading(fields: &ByteRecord) -> bool
    ensures { result ≡ is_heading (fields_of fields.now) }
{
    kind_of(fields) == Some(b'V')
}

#[tactic(auto, unfolding(crate::specs::Explained::bad_kind))]
fn push_bad_kind(out: &mut Vec<u8>, form: Form, n: u64, fields: &ByteRecord) -> Result<(), NoMemory>
    ensures { OnOk result (out.new.items ≡ out.old.items ++ spec.bad_kind form n (fields_of fields.now)) }
{
    let kind = field(fields, 0);
    push_shown(out, kind)?;
    push_text(out, " is no kind of record (")?;
    push_text(out, kinds(form))?;
    push_text(out, ")")?;
    push_text(
        out,
        kind_hint(form, may_be_names(n, fields), fields.len(), kind),
    )
}

/// Whether record n may be a line of names: it is the first, its second field is no number, and it does not begin as a step with a gap for its comma.
fn may_be_names(n: u64, fields: &ByteRecord) -> bool
    ensures { result ≡ spec.may_be_names n (fields_of fields.now) }
{
    n == 1 && !is_number(fields, 1) && !begins_as_step(field(fields, 0))
}

fn kinds(form: Form) -> &'static str
    ensures { result.now ≡ spec.kinds form }
{
    match form {
        Form::Steps => "L, S, E, O, R",
        Form::Rows => "L, S, E",
    }
}

#[tactic(auto, unfolding(crate::specs::Explained::bad_protocol))]
fn push_bad_protocol(out: &mut Vec<u8>, fields: &ByteRecord) -> Result<(), NoMemory>
    ensures { OnOk result (out.new.items ≡ out.old.items ++ spec.bad_protocol (fields_of fields.now)) }
{
    push_shown(out, field(fields, 2))?;
    push_text(out, " is no protocol (msi, mesi)")
}

#[tactic(auto, unfolding(crate::specs::Explained::bad_fields))]
fn push_bad_fields(out: &mut Vec<u8>, fields: &ByteRecord) -> Result<(), NoMemory>
    ensures { OnOk result (out.new.items ≡ out.old.items ++ spec.bad_fields (fields_of fields.now)) }
{
    match Kind::of(fields) {
        Some(kind) => push_fields_of_kind(out, kind, fields),
        None => Ok(()),
    }
}

#[tactic(auto, unfolding(crate::specs::Explained::bad_fields_of))]
fn push_fields_of_kind(out: &mut Vec<u8>, kind: Kind, fields: &ByteRecord) -> Result<(), NoMemory>
    ensures { OnOk result (out.new.items ≡ out.old.items ++ spec.bad_fields_of kind (fields_of fields.now)) }
{
    push_text(out, kind.field_names())?;
    push_numbered(out, ", and this record has ", fields.len() as u64)?;
    push_text(out, or_else(fields_hint(fields), count_hint(kind, fields)))
}

#[tactic(auto, unfolding(crate::specs::Explained::count_hint))]
fn count_hint(kind: Kind, fields: &ByteRecord) -> &'static str
    ensures { result.now ≡ spec.count_hint kind (fields_of fields.now) }
{
    if has_comma_more(kind.field_count(), fields) {
        return "; a comma stands at the end";
    }
    match kind {
        Kind::Respond if fields.len() == 3 => "; a load is L, a store S, an eviction E",
        _ => "",
    }
}

fn has_comma_more(count: usize, fields: &ByteRecord) -> bool
    requires { count < 8 }
    ensures { result ≡ spec.has_comma_more count (fields_of fields.now) }
{
    fields.len() == count + 1 && field(fields, count).is_empty()
}

#[tactic(auto, unfolding(crate::specs::Explained::bad_number))]
fn push_bad_number(out: &mut Vec<u8>, fields: &ByteRecord) -> Result<(), NoMemory>
    ensures { OnOk result (out.new.items ≡ out.old.items ++ spec.bad_number (fields_of fields.now)) }
{
    match Kind::of(fields) {
        Some(kind) => {
            let i = kind.bad_place(fields);
            push_no_number(out, kind.field_name(i), field(fields, i))
        }
        None => Ok(()),
    }
}

#[tactic(auto, unfolding(crate::specs::Explained::no_number))]
fn push_no_number(out: &mut Vec<u8>, name: &str, field: &[u8]) -> Result<(), NoMemory>
    ensures { OnOk result (out.new.items ≡ out.old.items ++ spec.no_number name.now field.now) }
{
    push_text(out, name)?;
    push_text(out, " ")?;
    push_shown(out, field)?;
    push_text(out, " is no number")?;
    push_text(out, number_hint(field))
}

#[tactic(auto, using(std::proofs::lemmas::List::append_assoc), unfolding(crate::specs::Explained::no_core))]
fn push_no_core(out: &mut Vec<u8>, shape: Shape, core: u64) -> Result<(), NoMemory>
    ensures { OnOk result (out.new.items ≡ out.old.items ++ spec.no_core shape core) }
{
    push_numbered(out, "core ", core)?;
    push_numbered(out, " is not there: --cores ", shape.cores() as u64)?;
    push_numbered(out, " has cores 0 to ", (shape.cores() - 1) as u64)?;
    push_more_cores(out, core)
}

#[tactic(auto, unfolding(crate::specs::Explained::more_cores))]
fn push_more_cores(out: &mut Vec<u8>, core: u64) -> Result<(), NoMemory>
    ensures { OnOk result (out.new.items ≡ out.old.items ++ spec.more_cores core) }
{
    if core < 256 {
        push_numbered(out, "; --cores ", core + 1)?;
        push_text(out, " has it")
    } else {
        push_text(out, "; no machine has more than 256 cores")
    }
}

#[tactic(auto, unfolding(crate::specs::Explained::no_block))]
fn push_no_block(out: &mut Vec<u8>, shape: Shape, address: u64) -> Result<(), NoMemory>
    ensures { OnOk result (out.new.items ≡ out.old.items ++ spec.no_block shape address) }
{
    push_numbered(out, "address ", address)?;
    push_text(out, " is outside ")?;
    push_memory(out, shape)?;
    push_more_blocks(out, address / shape.block_bytes() as u64)
}

#[tactic(auto, using(std::proofs::lemmas::List::append_assoc), unfolding(crate::specs::Explained::memory))]
fn push_memory(out: &mut Vec<u8>, shape: Shape) -> Result<(), NoMemory>
    ensures { OnOk result (out.new.items ≡ out.old.items ++ spec.memory shape) }
{
    let bytes = shape.blocks() as u64 * shape.block_bytes() as u64;
    push_text(out, "the memory of ")?;
    push_counted(out, shape.blocks() as u64, "block")?;
    push_text(out, " of ")?;
    push_counted(out, shape.block_bytes() as u64, "byte")?;
    push_numbered(out, " (0 to ", bytes.saturating_sub(1))?;
    push_text(out, ")")
}

#[tactic(auto, unfolding(crate::specs::Explained::more_blocks))]
fn push_more_blocks(out: &mut Vec<u8>, block: u64) -> Result<(), NoMemory>
    ensures { OnOk result (out.new.items ≡ out.old.items ++ spec.more_blocks block) }
{
    if block < 65536 {
        push_numbered(out, "; --blocks ", block + 1)?;
        push_text(out, " has room for it")
    } else {
        push_text(
            out,
            "; no machine has more than 65536 blocks: number the blocks anew",
        )
    }
}

#[tactic(auto, unfolding(crate::specs::Explained::bad_version))]
fn push_bad_version(out: &mut Vec<u8>, fields: &ByteRecord) -> Result<(), NoMemory>
    ensures { OnOk result (out.new.items ≡ out.old.items ++ spec.bad_version (fields_of fields.now)) }
{
    push_numbered(out, "version ", number_at(fields, 1))?;
    push_text(out, " is not known; it has to be 2")
}

#[tactic(auto, unfolding(crate::specs::Explained::other_shape))]
fn push_other_shape(
    out: &mut Vec<u8>,
    protocol: Protocol,
    shape: Shape,
    fields: &ByteRecord,
) -> Result<(), NoMemory>
    ensures { OnOk result (out.new.items ≡ out.old.items ++ spec.other_shape protocol shape (fields_of fields.now)) }
{
    push_options(
        out,
        "the heading is for --protocol ",
        field(fields, 2),
        number_at(fields, 3),
        number_at(fields, 4),
        number_at(fields, 5),
        number_at(fields, 6),
    )?;
    push_options(
        out,
        ", and the options are --protocol ",
        protocol.name().as_bytes(),
        shape.cores() as u64,
        shape.blocks() as u64,
        shape.block_bytes() as u64,
        shape.words() as u64,
    )
}

#[tactic(auto, unfolding(crate::specs::Explained::options))]
fn push_options(
    out: &mut Vec<u8>,
    text: &str,
    protocol: &[u8],
    cores: u64,
    blocks: u64,
    bytes: u64,
    words: u64,
) -> Result<(), NoMemory>
    ensures { OnOk result (out.new.items ≡ out.old.items ++ spec.options text.now protocol.now cores blocks bytes words) }
{
    push_text(out, text)?;
    push_bytes(out, protocol)?;
    push_numbered(out, " --cores ", cores)?;
    push_numbered(out, " --blocks ", blocks)?;
    push_numbered(out, " --block-bytes ", bytes)?;
    push_numbered(out, " --words ", words)
}
