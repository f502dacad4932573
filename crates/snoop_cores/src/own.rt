//! What a version shows of a core's operations, beside those that its seat was answered.
ghost use Rattle.std.specs.Prelude.{◌≡◌, ◌<◌, ◌++◌, ◌∷◌, [], IfOk, IfErr, OnOk, IsTrue};
ghost use Rattle.snoop_trace.specs.declared.step.Op.TheVariants as op;
ghost use Rattle.snoop_history.specs.History.{answers_of};
ghost use Rattle.snoop_bench.specs.Works.{Does};
ghost use Rattle.snoop_versions.specs.Readings.{SeesHistory, StartsWith};
ghost use Rattle.snoop_cores.specs.Own.{GoesOn, Shows, Judged};
ghost use Rattle.snoop_cores.specs.Calls.{IsStranger};

use snoop_bench::Work;
use snoop_history::Did;
use snoop_trace::Op;
use snoop_versions::VersionReader;
use std::sync::Wait;

/// A core's operations in one version, beside those that its seat was answered.
enum Own {
    /// There is no version, or too many operations to count.
    Unseen,
    /// There are no others.
    Same,
    /// There is this one more.
    More(Did),
    /// There are several more, of which this is the last.
    Strange(Did),
}

// Enters one version.
fn look(reader: &mut VersionReader, core: u32, answers: &[Did]) -> Own
    requires core { core < reader.old.cores }
    requires begins { StartsWith (answers_of reader.old.seen core) answers.now }
    ensures goes_on { GoesOn reader.old reader.new }
    ensures begins { StartsWith (answers_of reader.new.seen core) answers.now }
    ensures shows { Shows result core answers.now reader.new }
{
    match reader.own(core) {
        Some((count, last)) => judge(count, last, answers.len() as u64),
        None => Own::Unseen,
    }
}

fn judge(count: Option<u64>, last: Option<Did>, answered: u64) -> Own
    ensures { Judged result count last answered }
{
    let Some(count) = count else {
        return Own::Unseen;
    };
    if count == u64::MAX {
        return Own::Unseen;
    }
    if count == answered {
        return Own::Same;
    }
    match last {
        Some(did) if count > answered && count - answered == 1 => Own::More(did),
        Some(did) => Own::Strange(did),
        None => Own::Unseen,
    }
}

// Whether the operation does the work.
fn does(did: Did, work: Work) -> bool
    ensures sound { IsTrue result → Does did work }
    ensures whole { Does did work → IsTrue result }
{
    did.block == work.block
        && did.word == work.word
        && match work.op {
            Op::Load => did.load,
            Op::Store(value) => !did.load && did.value == value,
            Op::Evict => false,
        }
}

/// Reads versions until one shows the operation of the work, which follows the answers, or a stranger's.
pub(crate) fn find_own<R: Wait>(
    rt: &R,
    reader: &mut VersionReader,
    core: u32,
    answers: &[Did],
    work: Work,
) -> Result<Did, Did>
    requires core { core < reader.old.cores }
    requires begins { StartsWith (answers_of reader.old.seen core) answers.now }
    ensures goes_on { GoesOn reader.old reader.new }
    ensures begins { StartsWith (answers_of reader.new.seen core) answers.now }
    ensures ok { IfOk result (λ did. (answers_of reader.new.seen core ≡ answers.now ++ did ∷ []) × SeesHistory reader.new × Does did work) }
    ensures err { IfErr result (λ did. IsStranger did work (answers_of reader.new.seen core) answers.now × SeesHistory reader.new) }
{
    for _ in rt.forever() {
        match look(reader, core, answers) {
            Own::Unseen | Own::Same => {}
            Own::More(did) if does(did, work) => return Ok(did),
            Own::More(did) => return Err(did),
            Own::Strange(did) => return Err(did),
        }
    }
    unreachable!()
}

/// Reads versions until one shows the answers alone, or a stranger's operation.
pub(crate) fn find_same<R: Wait>(
    rt: &R,
    reader: &mut VersionReader,
    core: u32,
    answers: &[Did],
    work: Work,
) -> Result<(), Did>
    requires core { core < reader.old.cores }
    requires begins { StartsWith (answers_of reader.old.seen core) answers.now }
    requires evicts { work.op ≡ op.Evict }
    ensures goes_on { GoesOn reader.old reader.new }
    ensures begins { StartsWith (answers_of reader.new.seen core) answers.now }
    ensures ok { OnOk result ((answers_of reader.new.seen core ≡ answers.now) × SeesHistory reader.new) }
    ensures err { IfErr result (λ did. IsStranger did work (answers_of reader.new.seen core) answers.now × SeesHistory reader.new) }
{
    for _ in rt.forever() {
        match look(reader, core, answers) {
            Own::Unseen => {}
            Own::Same => return Ok(()),
            Own::More(did) => return Err(did),
            Own::Strange(did) => return Err(did),
        }
    }
    unreachable!()
}
