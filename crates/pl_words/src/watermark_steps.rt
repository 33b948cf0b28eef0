//! What the seats of a watermark know, the rule that ties it to the word, and the steps on the word.

ghost use Rattle.std.specs.Prelude.{false};
ghost use Rattle.pl_words.specs.WatermarkRule.{Rule, head_notes, reader_notes, MarkSet};

use atomic_table::{Play, Split, TableRule};

/// What a seat of a watermark knows. It stands in proofs only: no value of it is made.
pub struct WatermarkNotes {
    /// Whether it is the head's, who is the only one that sets the mark.
    pub is_head: bool,
    /// Of the head: how often it has set the mark.
    pub sets: u64,
    /// Of the head: the flag that it set last.
    pub flag: bool,
    /// Of a reader: the version that it has seen last.
    pub version: u64,
    /// Of a reader: the flag that it has seen with it.
    pub unwritable: bool,
    /// The steps that it made on the word.
    pub steps: u64,
}

/// The word is twice the number of sets plus the flag.
pub struct WatermarkRule;

impl TableRule<(), WatermarkNotes, ()> for WatermarkRule {
    ghost holds = { Rule };

    ghost first = { λ _. head_notes 0 false };
}

/// The head sets the mark.
pub(crate) struct Set;

impl Play<(), WatermarkNotes> for Set {
    ghost then = { MarkSet };
}

/// The head deals a reader's seat.
pub(crate) struct Deal;

impl Split<WatermarkNotes> for Deal {
    ghost left = { λ v. v };

    ghost right = { λ _. reader_notes };
}
