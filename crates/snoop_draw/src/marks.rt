//! The characters of a drawing.
ghost use Rattle.std.specs.Prelude.{◌≡◌, ◌++◌, OnOk};
ghost use Rattle.snoop_draw.specs.Marks.{ascii_text, mark_text, marks_text, unicode_text};

use snoop_trace::NoMemory;
use snoop_trace::streams::push_text;

/// The characters that marks and wires are made of.
#[derive(Clone, Copy, Debug, PartialEq, Eq)]
pub enum Charset {
    /// Blocks, circles and lines of Unicode, as UTF-8.
    Unicode,
    /// ASCII alone.
    Ascii,
}

/// What one character says.
#[derive(Clone, Copy, Debug)]
pub enum Mark {
    Blank,
    MayWrite,
    MayRead,
    Done,
    Refused,
    Issued,
    AwaitsOrder,
    Ordered,
    Sends,
    AwaitsData,
    Gets,
    Tip,
    Wire,
    Broken,
}

impl Mark {
    fn unicode(self) -> &'static str
        ensures { result.now ≡ unicode_text self }
    {
        match self {
            Mark::Blank => " ",
            Mark::MayWrite => "▓",
            Mark::MayRead => "░",
            Mark::Done => "■",
            Mark::Refused => "✗",
            Mark::Issued => "○",
            Mark::AwaitsOrder => "┊",
            Mark::Ordered => "●",
            Mark::Sends => "◆",
            Mark::AwaitsData => "│",
            Mark::Gets => "◀",
            Mark::Tip => "▶",
            Mark::Wire => "─",
            Mark::Broken => "╌",
        }
    }

    fn ascii(self) -> &'static str
        ensures { result.now ≡ ascii_text self }
    {
        match self {
            Mark::Blank => " ",
            Mark::MayWrite => "#",
            Mark::MayRead => "+",
            Mark::Done => "*",
            Mark::Refused => "x",
            Mark::Issued => "o",
            Mark::AwaitsOrder => ":",
            Mark::Ordered => "@",
            Mark::Sends => "%",
            Mark::AwaitsData => "|",
            Mark::Gets => "<",
            Mark::Tip => ">",
            Mark::Wire => "-",
            Mark::Broken => "~",
        }
    }
}

/// Appends the mark.
pub(crate) fn push_mark(out: &mut Vec<u8>, charset: Charset, mark: Mark) -> Result<(), NoMemory>
    ensures { OnOk result (out.new.items ≡ out.old.items ++ mark_text charset mark) }
{
    match charset {
        Charset::Unicode => push_text(out, mark.unicode()),
        Charset::Ascii => push_text(out, mark.ascii()),
    }
}

/// Appends the mark `count` times.
#[tactic(auto, using(snoop_engine::proofs::RangeLemmas::more_from_zero, std::proofs::lemmas::Grind::common_steps))]
pub(crate) fn push_marks(
    out: &mut Vec<u8>,
    charset: Charset,
    mark: Mark,
    count: usize,
) -> Result<(), NoMemory>
    ensures { OnOk result (out.new.items ≡ out.old.items ++ marks_text charset mark count) }
{
    for _place in 0..count {
        push_mark(out, charset, mark)?;
    }
    Ok(())
}
