//! What is said of a whole text.
ghost use Rattle.std.specs.Prelude.{◌≡◌, ◌<◌, ◌++◌, true, OnOk};
ghost use Rattle.snoop_lint.specs.Summary as spec;

use crate::form::Form;
use crate::shown::push_counted;
use crate::tally::Tally;
use snoop_trace::NoMemory;
use snoop_trace::streams::{push_numbered, push_text};

/// Appends what is said of a whole text, by what was counted in it.
#[tactic(auto, unfolding(crate::specs::Summary::summary))]
pub(crate) fn push_summary(
    out: &mut Vec<u8>,
    form: Form,
    most: u64,
    tally: Tally,
) -> Result<(), NoMemory>
    ensures { OnOk result (out.new.items ≡ out.old.items ++ spec.summary form most tally) }
{
    push_count_line(out, most, tally)?;
    push_needs_line(out, tally)?;
    push_text(out, slip_line(form, tally))
}

#[tactic(auto, unfolding(crate::specs::Summary::count_line))]
fn push_count_line(out: &mut Vec<u8>, most: u64, tally: Tally) -> Result<(), NoMemory>
    ensures { OnOk result (out.new.items ≡ out.old.items ++ spec.count_line most tally) }
{
    push_fault_count(out, tally.faults)?;
    push_text(out, " in ")?;
    push_counted(out, tally.records, "record")?;
    push_shown_count(out, most, tally.faults)?;
    push_text(out, "\n")
}

#[tactic(auto, unfolding(crate::specs::Summary::fault_count))]
fn push_fault_count(out: &mut Vec<u8>, faults: u64) -> Result<(), NoMemory>
    ensures { OnOk result (out.new.items ≡ out.old.items ++ spec.fault_count faults) }
{
    if faults == 0 {
        push_text(out, "no fault")
    } else {
        push_counted(out, faults, "fault")
    }
}

#[tactic(auto, unfolding(crate::specs::Summary::shown_count))]
fn push_shown_count(out: &mut Vec<u8>, most: u64, faults: u64) -> Result<(), NoMemory>
    ensures { OnOk result (out.new.items ≡ out.old.items ++ spec.shown_count most faults) }
{
    if most < faults {
        push_numbered(out, ", ", most)?;
        push_text(out, " shown")
    } else {
        Ok(())
    }
}

#[tactic(auto, unfolding(crate::specs::Summary::needs_line))]
fn push_needs_line(out: &mut Vec<u8>, tally: Tally) -> Result<(), NoMemory>
    ensures { OnOk result (out.new.items ≡ out.old.items ++ spec.needs_line tally) }
{
    if can_be_taken(tally) {
        push_numbered(out, "needs --cores ", tally.core + 1)?;
        push_numbered(out, " --blocks ", tally.block + 1)?;
        push_text(out, "\n")
    } else {
        Ok(())
    }
}

#[tactic(auto, unfolding(crate::specs::Summary::can_be_taken))]
fn can_be_taken(tally: Tally) -> bool
    ensures value { result ≡ spec.can_be_taken tally }
    ensures core { result ≡ true → tally.core < 256 }
    ensures block { result ≡ true → tally.block < 65536 }
{
    tally.records > 0
        && !tally.has_others
        && !tally.has_heading
        && tally.core < 256
        && tally.block < 65536
}

#[tactic(auto, unfolding(crate::specs::Summary::slip_line))]
fn slip_line(form: Form, tally: Tally) -> &'static str
    ensures { result.now ≡ spec.slip_line form tally }
{
    match form {
        Form::Steps if !tally.asks || tally.drives => "",
        Form::Steps if tally.has_heading => {
            "no O and no R: is this, without its heading, a text for snoop run?\n"
        }
        Form::Steps => "no O and no R: is this a text for snoop run?\n",
        Form::Rows if tally.drives => "with O or R: is this a text for snoop steps?\n",
        Form::Rows => "",
    }
}
