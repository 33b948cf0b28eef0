//! What the seats of an admission know, the rule that ties it to the word, and the steps on the word.

ghost use Rattle.pl_words.specs.AdmissionRule.{Rule, owner_notes, sender_notes, spent_notes, without_seat, gathered, Tried, TakenBack, GivenUp, Begun, Finished};
ghost use Rattle.pl_words.specs.declared.status.Status.TheVariants.{Accepting};

use crate::status::Status;
use atomic_table::{Join, Play, Split, TableRule};

/// What a seat of an admission knows. It stands in proofs only: no value of it is made.
pub struct AdmissionNotes {
    /// For how many senders' seats it stands: 1 for a sender; for the owner those not yet dealt, or taken in again.
    pub seats: u16,
    /// The admissions that it ever made.
    pub made: u64,
    /// Those of them that it has not given up.
    pub kept: u64,
    /// 1 from an addition that found the word closed until this is taken back, else 0.
    pub trial: u64,
    /// The admissions that it gave up by a step that found the word closed.
    pub late: u64,
    /// The latest phase that it has seen.
    pub seen: Status,
    /// The steps that it made on the word.
    pub steps: u64,
    /// Whether it is the owner, who is the only one that moves the phase.
    pub owns: bool,
    /// Of the owner: the phase.
    pub phase: Status,
    /// Of the owner: the count with which it closed.
    pub run: u64,
    /// Of the owner: the count that its last attempt to close found.
    pub found: u64,
}

/// The word is four times the count of admissions plus the phase. The key is the number of senders.
pub struct AdmissionRule;

impl TableRule<(), AdmissionNotes, u16> for AdmissionRule {
    ghost holds = { Rule };

    ghost first = { λ senders. owner_notes senders Accepting 0 0 0 };
}

/// A sender adds one admission, for a trial where the word is closed.
pub(crate) struct Try;

impl Play<(), AdmissionNotes> for Try {
    ghost then = { Tried };
}

/// A sender takes its trial back.
pub(crate) struct TakeBack;

impl Play<(), AdmissionNotes> for TakeBack {
    ghost then = { TakenBack };
}

/// A sender gives an admission up.
pub(crate) struct GiveUp;

impl Play<(), AdmissionNotes> for GiveUp {
    ghost then = { GivenUp };
}

/// The owner begins to close.
pub(crate) struct Begin;

impl Play<(), AdmissionNotes> for Begin {
    ghost then = { Begun };
}

/// The owner closes, where the word is as it asks.
pub(crate) struct Finish;

impl Play<(), AdmissionNotes> for Finish {
    ghost then = { Finished };
}

/// The owner deals a sender's seat.
pub(crate) struct Deal;

impl Split<AdmissionNotes> for Deal {
    ghost left = { without_seat };

    ghost right = { λ _. sender_notes };
}

/// The owner takes a sender's seat in.
pub(crate) struct Gather;

impl Join<AdmissionNotes> for Gather {
    ghost both = { gathered };

    ghost spent = { spent_notes };
}
