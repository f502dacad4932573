//! What becomes of a work: after its Ask, and when it is over.
ghost use Rattle.std.specs.Prelude.{◌≡◌, slice_set};
ghost use Rattle.snoop_bench.specs.Outcomes.{works_asked, turn_asked, turn_over};

use crate::work::{Evicted, Turn};
use snoop_history::Did;
use snoop_machine::Reply;
use snoop_trace::{Op, Work};

/// Puts the core's work in its place, or empties the place.
pub(crate) fn set_work(works: &mut Vec<Option<Work>>, core: u32, work: Option<Work>)
    ensures { works.new.items ≡ slice_set works.old.items core work }
{
    let core = core as usize;
    if core < works.len() {
        works[core] = work;
    }
}

/// A work that issued a request stays under way.
pub(crate) fn note(works: &mut Vec<Option<Work>>, core: u32, work: Work, reply: Reply)
    ensures { works.new.items ≡ works_asked reply works.old.items core work }
{
    if let Reply::Issued(_) = reply {
        set_work(works, core, Some(work));
    }
}

/// The turn of an Ask, by its reply.
pub(crate) fn asked(reply: Reply) -> Turn
    ensures { result ≡ turn_asked reply }
{
    match reply {
        Reply::Hit(value) => Turn::Loaded(value),
        Reply::StoreHit => Turn::Stored,
        Reply::Gone => Turn::Evicted(Evicted::Gone),
        Reply::Absent => Turn::Evicted(Evicted::Absent),
        Reply::Issued(_) | Reply::Ordered(_) | Reply::Came { .. } => Turn::Going,
    }
}

/// The turn that ends a work under way, by the core's last operation.
pub(crate) fn over(op: Op, last: Option<Did>) -> Turn
    ensures { result ≡ turn_over op last }
{
    match (op, last) {
        (Op::Load, Some(did)) => Turn::Loaded(did.value),
        (Op::Load, None) => Turn::Going,
        (Op::Store(_), _) => Turn::Stored,
        (Op::Evict, _) => Turn::Evicted(Evicted::Put),
    }
}
