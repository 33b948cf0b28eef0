//! Marks, arrows and labels.

use std::io;
use std::io::Write as _;

/// A place in a picture.
#[derive(Clone, Copy, Debug, PartialEq, Eq)]
pub(super) struct Point {
    pub(super) x: u64,
    pub(super) y: u64,
}

impl Point {
    /// The point so far above.
    pub(super) fn above(self, distance: u64) -> Point {
        Point {
            x: self.x,
            y: self.y.saturating_sub(distance),
        }
    }

    /// The point so far to the right.
    pub(super) fn right(self, distance: u64) -> Point {
        Point {
            x: self.x.saturating_add(distance),
            y: self.y,
        }
    }

    /// The point so far below.
    pub(super) fn below(self, distance: u64) -> Point {
        Point {
            x: self.x,
            y: self.y.saturating_add(distance),
        }
    }
}

/// Adds a text with what XML reads as more than a letter in its place.
pub(super) fn add_escaped(text: &mut Vec<u8>, plain: &[u8]) -> io::Result<()> {
    for byte in plain {
        match byte {
            b'<' => text.extend_from_slice(b"&lt;")?,
            b'>' => text.extend_from_slice(b"&gt;")?,
            b'&' => text.extend_from_slice(b"&amp;")?,
            b'"' => text.extend_from_slice(b"&quot;")?,
            _ => text.push(*byte)?,
        }
    }
    Ok(())
}

/// Adds an arrow from a point to another.
pub(super) fn arrow(text: &mut Vec<u8>, class: &str, from: Point, to: Point) -> io::Result<()> {
    writeln!(
        text,
        "<line class=\"{class}\" x1=\"{}\" y1=\"{}\" x2=\"{}\" y2=\"{}\"/>",
        from.x, from.y, to.x, to.y
    )
}

/// Adds a mark.
pub(super) fn mark(text: &mut Vec<u8>, class: &str, at: Point, radius: u64) -> io::Result<()> {
    writeln!(
        text,
        "<circle class=\"{class}\" cx=\"{}\" cy=\"{}\" r=\"{radius}\"/>",
        at.x, at.y
    )
}

/// Adds a label.
pub(super) fn add_label(
    text: &mut Vec<u8>,
    class: &str,
    at: Point,
    plain: &[u8],
) -> io::Result<()> {
    write!(
        text,
        "<text class=\"{class}\" x=\"{}\" y=\"{}\">",
        at.x, at.y
    )?;
    add_escaped(text, plain)?;
    text.extend_from_slice(b"</text>\n")?;
    Ok(())
}
