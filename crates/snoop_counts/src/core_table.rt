//! The counts of each core, as a table.
ghost use Rattle.std.specs.Prelude.{◌≡◌, ◌<◌, ◌++◌, ℕ, List, OnOk};
ghost use Rattle.std.specs.List.{flat_map, range_with_len};
ghost use Rattle.snoop_counts.specs.CoreTable.{core_line, core_table, count_fields, header, name_fields};
ghost use Rattle.snoop_counts.specs.Tally.{HasCounted, counter_in};
ghost use Rattle.snoop_counts.specs.declared.count.Happening.{Happening};
ghost use Rattle.snoop_counts.specs.declared.count.Subjects.TheVariants.{Cores};

use crate::count::{CORE_COUNTS, Count};
use crate::tally::{Counters, Tally};
use snoop_trace::NoMemory;
use snoop_trace::streams::{push_byte, push_decimal, push_text};

/// Appends a line of names: `first`, and those of the counts.
#[tactic(auto, unfolding(crate::specs::CoreTable::header))]
pub(crate) fn push_header(out: &mut Vec<u8>, first: &str, counts: &[Count]) -> Result<(), NoMemory>
    ensures { OnOk result (out.new.items ≡ out.old.items ++ header first.now counts.now) }
{
    push_text(out, first)?;
    push_names(out, counts)?;
    push_byte(out, b'\n')
}

// Appends the names of the counts, a comma before each.
fn push_names(out: &mut Vec<u8>, counts: &[Count]) -> Result<(), NoMemory>
    ensures { OnOk result (out.new.items ≡ out.old.items ++ name_fields counts.now) }
{
    for count in counts {
        push_byte(out, b',')?;
        push_text(out, count.name())?;
    }
    Ok(())
}

/// Appends the fields of the counts, a comma before each.
pub(crate) fn push_counts(
    out: &mut Vec<u8>,
    row: &Counters,
    counts: &[Count],
) -> Result<(), NoMemory>
    ensures { OnOk result (out.new.items ≡ out.old.items ++ count_fields counts.now (counter_in row.now)) }
{
    for count in counts {
        push_byte(out, b',')?;
        push_decimal(out, row.of(*count))?;
    }
    Ok(())
}

// Appends the line of a core, if it has one.
fn push_core(out: &mut Vec<u8>, tally: &Tally, core: u32) -> Result<(), NoMemory>
    ensures { (cores : ℕ) (seen : List Happening) → HasCounted Cores cores seen tally.now → core < cores
        → OnOk result (out.new.items ≡ out.old.items ++ core_line seen core) }
{
    match tally.named(core) {
        None => Ok(()),
        Some(row) => {
            push_decimal(out, core as u64)?;
            push_counts(out, &row, &CORE_COUNTS)?;
            push_byte(out, b'\n')
        }
    }
}

// Appends the lines of the first `cores` cores.
fn push_cores(out: &mut Vec<u8>, tally: &Tally, cores: u32) -> Result<(), NoMemory>
    ensures { (seen : List Happening) → HasCounted Cores cores seen tally.now
        → OnOk result (out.new.items ≡ out.old.items ++ flat_map (core_line seen) (range_with_len 0 cores)) }
{
    for core in 0..cores {
        push_core(out, tally, core)?;
    }
    Ok(())
}

/// Appends the table of the first `cores` cores.
pub(crate) fn push_core_table(out: &mut Vec<u8>, tally: &Tally, cores: u32) -> Result<(), NoMemory>
    ensures { (seen : List Happening) → HasCounted Cores cores seen tally.now
        → OnOk result (out.new.items ≡ out.old.items ++ core_table cores seen) }
{
    push_header(out, "core", &CORE_COUNTS)?;
    push_cores(out, tally, cores)
}
