//! What a call without the lock reads of one published version.
ghost use Rattle.std.specs.Prelude.{◌≡◌, ◌≤◌, ◌⊎◌, ◌↔◌, Err, IfOk, IfErr, OnOk, OnErr};
ghost use Rattle.snoop_history.specs.History.{flat};
ghost use Rattle.snoop_history.specs.Totals.{capped_totals, totals_of};
ghost use Rattle.snoop_versions.specs.Readings.{Enters};
ghost use Rattle.snoop_cores.specs.Own.{GoesOn};
ghost use Rattle.snoop_cores.specs.declared.fault.ViewFault.TheVariants.{NoBlock, NoVersion};

use crate::fault::ViewFault;
use snoop_history::Totals;
use snoop_trace::Shape;
use snoop_versions::VersionReader;

/// The value of a word of the block in one published version of this shape.
pub(crate) fn read_value(
    reader: &mut VersionReader,
    shape: Shape,
    block: u32,
    word: u32,
) -> Result<u64, ViewFault>
    requires { (shape.blocks ≡ reader.old.blocks) × (shape.words ≡ reader.old.words) }
    ensures value { IfOk result (λ value. value ≡ flat reader.new.seen block word) }
    ensures enters { OnOk result (Enters reader.old reader.new) }
    ensures goes_on { GoesOn reader.old reader.new }
    ensures outside { (result ≡ Err NoBlock) ↔ ((shape.blocks ≤ block) ⊎ (shape.words ≤ word)) }
    ensures err { OnErr result (reader.new ≡ reader.old) }
{
    if block >= shape.blocks() || word >= shape.words() {
        return Err(ViewFault::NoBlock);
    }
    let Some(read) = reader.value(block, word) else {
        return Err(ViewFault::NoVersion);
    };
    let Some(value) = read else { unreachable!() };
    Ok(value)
}

/// The counts of one published version.
pub(crate) fn read_totals(reader: &mut VersionReader) -> Result<Totals, ViewFault>
    ensures totals { IfOk result (λ totals. totals ≡ capped_totals (totals_of reader.new.seen)) }
    ensures enters { OnOk result (Enters reader.old reader.new) }
    ensures goes_on { GoesOn reader.old reader.new }
    ensures err { IfErr result (λ fault. (fault ≡ NoVersion) × (reader.new ≡ reader.old)) }
{
    let Some(totals) = reader.totals() else {
        return Err(ViewFault::NoVersion);
    };
    Ok(totals)
}
