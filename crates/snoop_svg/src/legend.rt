//! What the marks of a drawing mean.
ghost use Rattle.std.specs.Prelude.{◌≡◌, ◌<◌, ◌++◌, OnOk};
ghost use Rattle.snoop_svg.specs.Legends.{further_keys, issued_mark, key, keys, legend_text, ordered_mark, other_marks, square_marks};

use crate::bands::{Band, push_part};
use crate::elements::{push_box, push_cross, push_dot, push_line, push_right_arrow, push_words};
use snoop_rules::Protocol;
use snoop_trace::NoMemory;

// Appends a band, and what it means.
fn push_key(out: &mut Vec<u8>, x: u32, y: u32, band: Band, words: &[u8]) -> Result<(), NoMemory>
    ensures { OnOk result (out.new.items ≡ out.old.items ++ key x y band words.now) }
{
    push_part(out, x as u64, y as u64, 14, 14, band)?;
    push_words(out, x as u64 + 20, y as u64 + 11, words, "t")
}

fn push_further_keys(out: &mut Vec<u8>, x: u32, y: u32) -> Result<(), NoMemory>
    requires { x < 1000 }
    ensures { OnOk result (out.new.items ≡ out.old.items ++ further_keys x y) }
{
    push_key(out, x, y, Band::Read, b"may read")?;
    push_key(out, x + 96, y, Band::Open, b"open transaction")?;
    push_key(out, x + 256, y, Band::Sends, b"memory sends, else (value)")
}

fn push_keys(out: &mut Vec<u8>, protocol: Protocol, y: u32) -> Result<(), NoMemory>
    ensures { OnOk result (out.new.items ≡ out.old.items ++ keys protocol y) }
{
    push_key(out, 12, y, Band::Write, b"may write")?;
    match protocol {
        Protocol::Msi => push_further_keys(out, 116, y),
        Protocol::Mesi => {
            push_key(out, 116, y, Band::Clean, b"may write, unchanged")?;
            push_further_keys(out, 308, y)
        }
    }
}

// Appends the squares.
fn push_square_marks(out: &mut Vec<u8>, z: u32) -> Result<(), NoMemory>
    ensures { OnOk result (out.new.items ≡ out.old.items ++ square_marks z) }
{
    let z = z as u64;
    push_box(out, 12, z + 3, 7, 7, "ask")?;
    push_words(out, 24, z + 11, b"asked", "t")?;
    push_box(out, 80, z + 3, 7, 7, "done")?;
    push_words(out, 92, z + 11, b"performed", "t")
}

fn push_issued_mark(out: &mut Vec<u8>, z: u32) -> Result<(), NoMemory>
    ensures { OnOk result (out.new.items ≡ out.old.items ++ issued_mark z) }
{
    let z = z as u64;
    push_line(out, 184, z + 3, 184, z + 17, "q")?;
    push_dot(out, 184, z + 3, "i")?;
    push_words(out, 194, z + 11, b"issued (#2: second in the queue)", "t")
}

fn push_ordered_mark(out: &mut Vec<u8>, z: u32) -> Result<(), NoMemory>
    ensures { OnOk result (out.new.items ≡ out.old.items ++ ordered_mark z) }
{
    let z = z as u64;
    push_line(out, 470, z + 3, 470, z + 17, "d")?;
    push_dot(out, 470, z + 3, "p")?;
    push_words(out, 480, z + 11, b"ordered", "t")
}

// Appends a message, and a refusal.
fn push_other_marks(out: &mut Vec<u8>, z: u32) -> Result<(), NoMemory>
    ensures { OnOk result (out.new.items ≡ out.old.items ++ other_marks z) }
{
    let z = z as u64;
    push_right_arrow(out, 556, 580, z + 7, "g")?;
    push_words(out, 588, z + 11, b"message", "t")?;
    push_cross(out, 664, z + 7)?;
    push_words(out, 674, z + 11, b"refused", "t")
}

/// Appends the legend, from this y on.
pub(crate) fn push_legend(out: &mut Vec<u8>, protocol: Protocol, y: u32) -> Result<(), NoMemory>
    requires { y < 10000000 }
    ensures { OnOk result (out.new.items ≡ out.old.items ++ legend_text protocol y) }
{
    push_keys(out, protocol, y)?;
    push_square_marks(out, y + 26)?;
    push_issued_mark(out, y + 26)?;
    push_ordered_mark(out, y + 26)?;
    push_other_marks(out, y + 26)
}
