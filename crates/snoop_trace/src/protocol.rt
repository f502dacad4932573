//! The coherence protocols, and what they are called.
ghost use Rattle.std.specs.Prelude.{◌≡◌, Some};
ghost use Rattle.std.specs.Fmt.{styled_text};
ghost use Rattle.snoop_trace.specs.Protocol.{protocol_name};

use std::fmt;

/// A coherence protocol.
#[derive(Clone, Copy, Debug, PartialEq, Eq)]
pub enum Protocol {
    Msi,
    Mesi,
}

impl Protocol {
    /// The protocol's name.
    pub fn name(self) -> &'static str
        ensures { result.now ≡ protocol_name self }
    {
        match self {
            Protocol::Msi => "msi",
            Protocol::Mesi => "mesi",
        }
    }
}

impl fmt::Display for Protocol {
    ghost output = { λ protocol. Some (protocol_name protocol) };

    ghost styled_output = { λ protocol style. Some (styled_text style (protocol_name protocol)) };

    fn fmt<W: fmt::Write>(&self, f: &mut fmt::Formatter<W>) -> fmt::Result {
        f.pad(self.name())
    }
}
