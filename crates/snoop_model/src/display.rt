//! How replies and refusals are printed: in the words of the program's output.
ghost use Rattle.std.specs.Prelude.{Some};
ghost use Rattle.snoop_model.specs.Texts.{performed_text, refusal_text, reply_text, sender_text};

use crate::replies::{Refused, Reply};
use snoop_history::Did;
use std::fmt;

/// Who sent a response.
#[derive(Clone, Copy)]
struct Sender(Option<u32>);

impl fmt::Display for Sender {
    ghost output = { λ sender. Some (sender_text sender.0) };

    fn fmt<W: fmt::Write>(&self, f: &mut fmt::Formatter<W>) -> fmt::Result {
        match self.0 {
            None => f.write_str(" from memory"),
            Some(core) => write!(f, " from core {core}"),
        }
    }
}

/// What a response performed.
#[derive(Clone, Copy)]
struct Performed(Option<Did>);

impl fmt::Display for Performed {
    ghost output = { λ performed. Some (performed_text performed.0) };

    fn fmt<W: fmt::Write>(&self, f: &mut fmt::Formatter<W>) -> fmt::Result {
        let Some(did) = self.0 else {
            return Ok(());
        };
        let kind = if did.load { "load" } else { "store" };
        write!(f, ", {kind} {}", did.value)
    }
}

impl fmt::Display for Reply {
    ghost output = { λ reply. Some (reply_text reply) };

    fn fmt<W: fmt::Write>(&self, f: &mut fmt::Formatter<W>) -> fmt::Result {
        let text = match *self {
            Reply::Hit(value) => return write!(f, "hit {value}"),
            Reply::StoreHit => "store hit",
            Reply::Issued(request) => return write!(f, "issued {request}"),
            Reply::Gone => "gone",
            Reply::Absent => "absent",
            Reply::Ordered(request) => return write!(f, "ordered {request}"),
            Reply::Came { payload, from, did } => {
                return write!(f, "{payload}{}{}", Sender(from), Performed(did));
            }
        };
        f.write_str(text)
    }
}

impl fmt::Display for Refused {
    ghost output = { λ cause. Some (refusal_text cause) };

    fn fmt<W: fmt::Write>(&self, f: &mut fmt::Formatter<W>) -> fmt::Result {
        let name = match *self {
            Refused::NoCore => "NoCore",
            Refused::NoBlock => "NoBlock",
            Refused::Stalled(state) => return write!(f, "Stalled {state}"),
            Refused::NothingWaiting => "NothingWaiting",
            Refused::BusTaken(block) => return write!(f, "BusTaken {block}"),
            Refused::NoTransaction => "NoTransaction",
            Refused::NoMemory => "NoMemory",
        };
        f.write_str(name)
    }
}
