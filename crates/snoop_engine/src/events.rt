//! Which event a controller meets.
ghost use Rattle.std.specs.Prelude.{◌≡◌};
ghost use Rattle.snoop_engine.specs.Taken.{event_asked};

use snoop_rules::{CacheEvent, CacheState};
use snoop_trace::Op;

/// The event of an operation that a core asks for; an Evict in I is none.
pub(crate) fn event_asked(op: Op, state: CacheState) -> Option<CacheEvent>
    ensures { result ≡ event_asked op state }
{
    match (op, state) {
        (Op::Evict, CacheState::I) => None,
        _ => Some(snoop_rules::event_asked(op)),
    }
}
