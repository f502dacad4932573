//! The report of a history.
ghost use Rattle.std.specs.Prelude.{◌≡◌, ◌≢◌, ◌<◌, ◌++◌, map, true, OnOk, OnErr, Err};
ghost use Rattle.std.specs.Io.KnownBytes.{Appends};
ghost use Rattle.std.specs.List.{range_with_len};
ghost use Rattle.snoop_trace.specs.Output.{AppendsFront, BlamesWriter};
ghost use Rattle.snoop_history.specs.History.{flat};
ghost use Rattle.snoop_history.specs.Totals.{totals_of};
ghost use Rattle.snoop_history.specs.Report.{totals_text, block_text, report_of};

use crate::log::Log;
use snoop_trace::streams::{Sink, push_byte, push_numbered, push_text, write_whole};
use snoop_trace::{NoMemory, WriteFault};
use std::alloc::Global;

// Appends the five lines of the totals.
fn push_totals(out: &mut Vec<u8>, log: &Log) -> Result<(), NoMemory>
    ensures { OnOk result (out.new.items ≡ out.old.items ++ totals_text (totals_of log.now.items)) }
{
    let t = log.totals();
    push_numbered(out, "loads ", t.loads)?;
    push_numbered(out, " hits ", t.load_hits)?;
    push_numbered(out, "\nstores ", t.stores)?;
    push_numbered(out, " hits ", t.store_hits)?;
    push_numbered(out, "\nGetS ", t.get_s)?;
    push_numbered(out, " GetM ", t.get_m)?;
    push_numbered(out, " PutM ", t.put_m)?;
    push_numbered(out, "\nfrom memory ", t.from_memory)?;
    push_numbered(out, " from caches ", t.from_caches)?;
    push_numbered(out, "\nwritebacks ", t.writebacks)?;
    push_numbered(out, " clean ", t.clean)?;
    push_numbered(out, " stale ", t.stale)?;
    push_byte(out, b'\n')
}

// Appends the line of a block.
fn push_block(out: &mut Vec<u8>, log: &Log, block: u32) -> Result<(), NoMemory>
    requires { block < log.now.blocks }
    ensures { OnOk result (out.new.items ≡ out.old.items ++ block_text block (map (flat log.now.items block) (range_with_len 0 log.now.words))) }
{
    push_numbered(out, "block ", block as u64)?;
    push_text(out, " value")?;
    for word in 0..log.words() {
        push_numbered(out, " ", log.flat(block, word).unwrap())?;
    }
    push_byte(out, b'\n')
}

/// Writes the report of a history: five lines of totals, then a line for each block that an item
/// mentions, in order of first mention, with the values of its words in flat memory. All numbers are decimal.
///
/// After `Write` the writer holds a beginning of the report, the failed write's own bytes aside;
/// `NoMemory` comes before anything is written.
pub fn write_report<W: Sink>(alloc: Global, writer: &mut W, log: &Log) -> Result<(), WriteFault>
    ensures ok { OnOk result (Appends (W.contents writer.old) (W.contents writer.new) (report_of log.now.words log.now.items)) }
    ensures front { OnErr result (AppendsFront (W.contents writer.old) (W.contents writer.new) (report_of log.now.words log.now.items)) }

    // Out of memory shows before anything is written.
    ensures memory { result ≡ Err WriteFault.NoMemory → W.contents writer.new ≡ W.contents writer.old }

    ensures never_blamed { W.never_fails ≡ true → result ≢ Err WriteFault.Write }
    ensures blamed { BlamesWriter (W.failed writer.old) (W.failed writer.new) (result ≡ Err WriteFault.Write) }
{
    let mut report = Vec::new(alloc);
    push_totals(&mut report, log)?;
    for block in log.touched() {
        push_block(&mut report, log, *block)?;
    }
    write_whole(writer, &report)
}
