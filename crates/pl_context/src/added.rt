//! What becomes of an envelope that is put on a list.

/// What became of an envelope that was put on a list.
#[derive(Clone, Copy, Debug, PartialEq, Eq)]
pub enum Added {
    /// It is the last of the list.
    Last,
    /// Memory ran out. A failure of its lane stands in its place, or nothing in place of a flag, and the lane has
    /// stopped.
    Refused,
    /// Its lane had stopped.
    Discarded,
}
