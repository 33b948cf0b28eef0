//! Where the columns of moves are, and what there is room for in them.

/// What is free at the left, for labels.
pub(super) const LEFT: u64 = 170;

/// How wide columns are.
#[derive(Clone, Copy, Debug, PartialEq, Eq)]
enum Width {
    /// With labels of items.
    Wide,
    /// With the words of moves.
    Narrow,
    /// With titles.
    Thin,
    /// With nothing in them but marks: a map.
    Hair,
}

/// The columns, one for each move: the more there are, the narrower.
#[derive(Clone, Copy, Debug)]
pub(super) struct Columns {
    moves: usize,
    width: Width,
}

impl Columns {
    /// For so many moves.
    pub(super) fn new(moves: usize) -> Columns {
        let width = match moves {
            0..=64 => Width::Wide,
            65..=256 => Width::Narrow,
            257..=4_096 => Width::Thin,
            _ => Width::Hair,
        };
        Columns { moves, width }
    }

    /// The middle of a move's column. Moves count from 1.
    pub(super) fn middle(&self, number: usize) -> u64 {
        let before = (number.saturating_sub(1) as u64).saturating_mul(self.width());
        LEFT.saturating_add(before).saturating_add(self.width() / 2)
    }

    /// Where the labels at the right begin.
    pub(super) fn end(&self) -> u64 {
        let all = (self.moves as u64).saturating_mul(self.width());
        LEFT.saturating_add(all).saturating_add(8)
    }

    /// How wide the box of a move is.
    pub(super) fn box_width(&self) -> u64 {
        match self.width {
            Width::Wide => 26,
            Width::Narrow => 18,
            Width::Thin => 6,
            Width::Hair => 1,
        }
    }

    /// How large a mark is.
    pub(super) fn radius(&self) -> u64 {
        match self.width {
            Width::Wide | Width::Narrow => 4,
            Width::Thin => 3,
            Width::Hair => 1,
        }
    }

    /// Whether items have labels.
    pub(super) fn has_labels(&self) -> bool {
        self.width == Width::Wide
    }

    /// Whether a box has its move's word.
    pub(super) fn has_words(&self) -> bool {
        matches!(self.width, Width::Wide | Width::Narrow)
    }

    /// Whether a box tells what its move did.
    pub(super) fn has_titles(&self) -> bool {
        self.width != Width::Hair
    }

    /// Whether the number of a move stands at the lower edge.
    pub(super) fn is_numbered(&self, number: usize) -> bool {
        match self.width {
            Width::Wide => true,
            Width::Narrow => number % 5 == 0,
            Width::Thin => number % 25 == 0,
            Width::Hair => number % 250 == 0,
        }
    }

    /// How wide a column is.
    fn width(&self) -> u64 {
        match self.width {
            Width::Wide => 46,
            Width::Narrow => 22,
            Width::Thin => 8,
            Width::Hair => 2,
        }
    }
}
