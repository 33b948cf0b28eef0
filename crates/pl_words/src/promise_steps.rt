//! What the seats of a row of promises know, the rule that ties it to the words, and the steps on a word.

ghost use Rattle.pl_words.specs.PromiseRule.{Rule, first_notes, without_rights, with_rights, Settled};

use atomic_table::{Play, Split, TableRule};
use pl_event::Outcome;
use std::collections::LinkedList;

/// What a row of promises is told when it is made.
#[derive(Clone, Copy, Debug, PartialEq, Eq)]
pub struct RowSize {
    /// How many promises it has.
    pub limit: u16,
    /// How many seats may settle them.
    pub settlers: u16,
}

/// What a seat of a row of promises knows. It stands in proofs only: no value of it is made.
pub struct PromiseNotes {
    /// Of each promise the outcome that it has seen.
    pub seen: LinkedList<Option<Outcome>>,
    /// Of each promise the outcome that it has settled it with.
    pub settled: LinkedList<Option<Outcome>>,
    /// For how many settlers it stands: 1 for a settler, none for a reader; for the first seat those not yet dealt.
    pub rights: u16,
    /// How many settlers there are.
    pub settlers: u16,
    /// The steps that it made on the words.
    pub steps: u64,
}

/// Each word is 0, or the number of the outcome with which the promise was settled.
pub struct PromiseRule;

impl TableRule<(), PromiseNotes, RowSize> for PromiseRule {
    ghost holds = { Rule };

    ghost first = { first_notes };
}

/// A settler settles a promise, where no outcome stands.
pub(crate) struct Settle;

impl Play<(), PromiseNotes> for Settle {
    ghost then = { Settled };
}

/// The first seat deals a seat with this many of its rights: 1 for a settler's, none for a reader's.
pub(crate) struct Deal<const RIGHTS: u16>;

impl<const RIGHTS: u16> Split<PromiseNotes> for Deal<RIGHTS> {
    ghost left = { without_rights RIGHTS };

    ghost right = { with_rights RIGHTS };
}
