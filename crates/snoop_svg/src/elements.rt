//! The elements of a drawing, each one line. All numbers are pixels.
ghost use Rattle.std.specs.Prelude.{◌≡◌, ◌++◌, codes, OnOk};
ghost use Rattle.std.specs.Fmt.{decimal};
ghost use Rattle.snoop_svg.specs.Elements.{arrow, box, cross, dot, left_arrow, line, number, number_attribute, opened, operation_opened, path_opened, point, right_arrow, size, text, text_closed, text_opened};

use snoop_trace::NoMemory;
use snoop_trace::streams::{push_byte, push_decimal, push_text};

/// Appends bytes.
pub(crate) fn push_bytes(out: &mut Vec<u8>, bytes: &[u8]) -> Result<(), NoMemory>
    ensures { OnOk result (out.new.items ≡ out.old.items ++ bytes.now) }
{
    match out.extend_from_slice(bytes) {
        Ok(()) => Ok(()),
        Err(_) => Err(NoMemory),
    }
}

// Appends an attribute with a number.
fn push_attribute(out: &mut Vec<u8>, name: &str, value: u64) -> Result<(), NoMemory>
    ensures { OnOk result (out.new.items ≡ out.old.items ++ number_attribute name.now value) }
{
    push_byte(out, b' ')?;
    push_text(out, name)?;
    push_text(out, "=\"")?;
    push_decimal(out, value)?;
    push_byte(out, b'"')
}

// Appends the beginning of an element of a class.
fn push_opened(out: &mut Vec<u8>, name: &str, class: &str) -> Result<(), NoMemory>
    ensures { OnOk result (out.new.items ≡ out.old.items ++ opened name.now class.now) }
{
    push_byte(out, b'<')?;
    push_text(out, name)?;
    push_text(out, " class=\"")?;
    push_text(out, class)?;
    push_byte(out, b'"')
}

/// Appends the beginning of a text.
pub(crate) fn open_text(out: &mut Vec<u8>, x: u64, y: u64, class: &str) -> Result<(), NoMemory>
    ensures { OnOk result (out.new.items ≡ out.old.items ++ text_opened x y class.now) }
{
    push_opened(out, "text", class)?;
    push_attribute(out, "x", x)?;
    push_attribute(out, "y", y)?;
    push_byte(out, b'>')
}

/// Appends the end of a text.
pub(crate) fn close_text(out: &mut Vec<u8>) -> Result<(), NoMemory>
    ensures { OnOk result (out.new.items ≡ out.old.items ++ text_closed) }
{
    push_text(out, "</text>\n")
}

/// Appends words from a point on.
pub(crate) fn push_words(
    out: &mut Vec<u8>,
    x: u64,
    y: u64,
    words: &[u8],
    class: &str,
) -> Result<(), NoMemory>
    ensures { OnOk result (out.new.items ≡ out.old.items ++ text x y words.now class.now) }
{
    open_text(out, x, y, class)?;
    push_bytes(out, words)?;
    close_text(out)
}

/// Appends a number up to a point.
pub(crate) fn push_number(out: &mut Vec<u8>, x: u64, y: u64, value: u64) -> Result<(), NoMemory>
    ensures { OnOk result (out.new.items ≡ out.old.items ++ number x y value) }
{
    push_opened(out, "text", "t")?;
    push_attribute(out, "x", x)?;
    push_attribute(out, "y", y)?;
    push_text(out, " text-anchor=\"end\">")?;
    push_decimal(out, value)?;
    close_text(out)
}

/// Appends a box.
pub(crate) fn push_box(
    out: &mut Vec<u8>,
    x: u64,
    y: u64,
    wide: u64,
    high: u64,
    class: &str,
) -> Result<(), NoMemory>
    ensures { OnOk result (out.new.items ≡ out.old.items ++ box x y wide high class.now) }
{
    push_opened(out, "rect", class)?;
    push_attribute(out, "x", x)?;
    push_attribute(out, "y", y)?;
    push_attribute(out, "width", wide)?;
    push_attribute(out, "height", high)?;
    push_text(out, "/>\n")
}

// Appends two numbers.
fn push_point(out: &mut Vec<u8>, x: u64, y: u64) -> Result<(), NoMemory>
    ensures { OnOk result (out.new.items ≡ out.old.items ++ point x y) }
{
    push_decimal(out, x)?;
    push_byte(out, b' ')?;
    push_decimal(out, y)
}

// Appends the beginning of a path at a point.
fn open_path(out: &mut Vec<u8>, x: u64, y: u64, class: &str) -> Result<(), NoMemory>
    ensures { OnOk result (out.new.items ≡ out.old.items ++ path_opened x y class.now) }
{
    push_opened(out, "path", class)?;
    push_text(out, " d=\"M")?;
    push_point(out, x, y)
}

/// Appends the end of a view, and how wide and how high something is.
pub(crate) fn push_size(out: &mut Vec<u8>, width: u64, height: u64) -> Result<(), NoMemory>
    ensures { OnOk result (out.new.items ≡ out.old.items ++ size width height) }
{
    push_point(out, width, height)?;
    push_byte(out, b'"')?;
    push_attribute(out, "width", width)?;
    push_attribute(out, "height", height)
}

/// Appends a line from one point to another.
pub(crate) fn push_line(
    out: &mut Vec<u8>,
    x: u64,
    y: u64,
    to_x: u64,
    to_y: u64,
    class: &str,
) -> Result<(), NoMemory>
    ensures { OnOk result (out.new.items ≡ out.old.items ++ line x y to_x to_y class.now) }
{
    open_path(out, x, y, class)?;
    push_byte(out, b'L')?;
    push_point(out, to_x, to_y)?;
    push_text(out, "\"/>\n")
}

/// Appends a dot.
pub(crate) fn push_dot(out: &mut Vec<u8>, x: u64, y: u64, class: &str) -> Result<(), NoMemory>
    ensures { OnOk result (out.new.items ≡ out.old.items ++ dot x y class.now) }
{
    push_opened(out, "circle", class)?;
    push_attribute(out, "cx", x)?;
    push_attribute(out, "cy", y)?;
    push_text(out, " r=\"4\"/>\n")
}

// Appends the way to an arrow's neck.
fn push_shaft(out: &mut Vec<u8>, neck: u64) -> Result<(), NoMemory>
    ensures { OnOk result (out.new.items ≡ out.old.items ++ (codes "H" ++ decimal neck)) }
{
    push_byte(out, b'H')?;
    push_decimal(out, neck)
}

// Appends the move to an arrow's tip.
fn push_move(out: &mut Vec<u8>, to: u64, y: u64) -> Result<(), NoMemory>
    ensures { OnOk result (out.new.items ≡ out.old.items ++ (codes "M" ++ point to y)) }
{
    push_byte(out, b'M')?;
    push_point(out, to, y)
}

// Appends an arrow, whose head begins at its neck.
fn push_arrow(
    out: &mut Vec<u8>,
    x: u64,
    neck: u64,
    to: u64,
    y: u64,
    head: &str,
    class: &str,
) -> Result<(), NoMemory>
    ensures { OnOk result (out.new.items ≡ out.old.items ++ arrow x neck to y head.now class.now) }
{
    open_path(out, x, y, class)?;
    push_shaft(out, neck)?;
    push_move(out, to, y)?;
    push_text(out, head)
}

/// Appends an arrow to the right.
pub(crate) fn push_right_arrow(
    out: &mut Vec<u8>,
    x: u64,
    to: u64,
    y: u64,
    class: &str,
) -> Result<(), NoMemory>
    ensures { OnOk result (out.new.items ≡ out.old.items ++ right_arrow x to y class.now) }
{
    let neck = to.saturating_sub(6);
    push_arrow(out, x, neck, to, y, "l-7 -4v8z\"/>\n", class)
}

/// Appends an arrow to the left.
pub(crate) fn push_left_arrow(
    out: &mut Vec<u8>,
    x: u64,
    to: u32,
    y: u64,
    class: &str,
) -> Result<(), NoMemory>
    ensures { OnOk result (out.new.items ≡ out.old.items ++ left_arrow x to y class.now) }
{
    let neck = to as u64 + 6;
    push_arrow(out, x, neck, to as u64, y, "l7 -4v8z\"/>\n", class)
}

/// Appends a cross.
pub(crate) fn push_cross(out: &mut Vec<u8>, x: u64, y: u64) -> Result<(), NoMemory>
    ensures { OnOk result (out.new.items ≡ out.old.items ++ cross x y) }
{
    open_path(out, x.saturating_sub(4), y.saturating_sub(4), "x")?;
    push_text(out, "l8 8m0 -8l-8 8\"/>\n")
}

/// Appends an operation's square, and the beginning of its words.
pub(crate) fn open_operation(out: &mut Vec<u8>, x: u32, y: u32, class: &str) -> Result<(), NoMemory>
    ensures { OnOk result (out.new.items ≡ out.old.items ++ operation_opened x y class.now) }
{
    push_box(out, x as u64 + 8, y as u64 + 5, 7, 7, class)?;
    open_text(out, x as u64 + 20, y as u64 + 13, "o")
}
