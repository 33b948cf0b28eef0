//! How each write ended: a row of words, each of which is settled once and read by any thread, by single steps.

ghost use Rattle.std.specs.Prelude.{◌≡◌, ◌<◌, ◌≤◌, All, IfOk, IfErr, length, Some, None};
ghost use Rattle.pl_words.specs.PromiseRule.{at, code, outcome_in};
ghost use Rattle.pl_words.specs.PromiseViews.{Settles, Meets, Peeks, new_settler, new_reader};

use crate::look::Look;
use crate::promise_steps::{Deal, PromiseNotes, PromiseRule, RowSize, Settle};
use atomic_table::{Seat, Table};
use pl_event::Outcome;
use std::alloc::{AllocError, Global};
use std::marker::Model;

/// The most promises of a row.
pub const MAX_PROMISES: u16 = 4_096;

/// How each write of a channel ended (Netty's `ChannelPromise`), by its number from 0. A promise is unset until it is
/// settled, which happens once.
#[derive(Drop)]
pub struct Promises {
    words: Table<(), PromiseNotes, RowSize, PromiseRule, Global>,
    /// How many promises there are. Those of higher numbers are void: they are never settled.
    limit: u16,
}

impl Model for Promises {
    ghost use Rattle.std.specs.Prelude.{◌≡◌};
    ghost use Rattle.pl_words.specs.PromiseViews.{PromisesView};

    ghost Value = { PromisesView };

    ghost view = { λ p. record { name = p.words.shared.table_id; limit = p.limit } };

    ghost invariant = { λ p. (p.words.shared.table_id.words ≡ p.limit) × (p.words.shared.key.limit ≡ p.limit) };
}

/// The right to settle, and what it has seen.
#[derive(Drop)]
pub struct SettleSeat {
    seat: Seat<(), PromiseNotes>,
}

impl Model for SettleSeat {
    ghost use Rattle.std.specs.Prelude.{◌≡◌};
    ghost use Rattle.pl_words.specs.PromiseViews.{SettleSeatView};

    ghost Value = { SettleSeatView };

    ghost view = { λ s. record { name = s.seat.table_id; settlers = s.seat.me.0.settlers; seen = s.seat.me.0.seen; settled = s.seat.me.0.settled; steps = s.seat.me.0.steps } };

    ghost invariant = { λ s. s.seat.me.0.rights ≡ 1 };
}

/// A reader's right to look, and what it has seen.
#[derive(Drop)]
pub struct ReadSeat {
    seat: Seat<(), PromiseNotes>,
}

impl Model for ReadSeat {
    ghost use Rattle.pl_words.specs.PromiseViews.{ReadSeatView};

    ghost Value = { ReadSeatView };

    ghost view = { λ s. record { name = s.seat.table_id; seen = s.seat.me.0.seen; steps = s.seat.me.0.steps } };
}

/// The word of a promise that is settled so.
fn word_of(outcome: Outcome) -> u64
    ensures { result ≡ code outcome }
{
    match outcome {
        Outcome::Success => 1,
        Outcome::Closed => 2,
        Outcome::Fault => 3,
        Outcome::Unsupported => 4,
    }
}

/// The outcome that a word has, or None where the promise is unset.
fn outcome_in(word: u64) -> Option<Outcome>
    ensures { result ≡ outcome_in word }
{
    match word {
        0 => None,
        1 => Some(Outcome::Success),
        2 => Some(Outcome::Closed),
        3 => Some(Outcome::Fault),
        _ => Some(Outcome::Unsupported),
    }
}

impl Promises {
    /// A row of this many promises, all unset, with a seat for each settler and each reader. `AllocError` where memory
    /// is refused.
    pub fn new(
        alloc: Global,
        limit: u16,
        settlers: u16,
        readers: u16,
    ) -> Result<(Promises, Vec<SettleSeat>, Vec<ReadSeat>), AllocError>
        requires { (1 ≤ limit) × (limit ≤ MAX_PROMISES) }
        ensures limit { IfOk result (λ new. new.0.limit ≡ limit) }
        ensures settlers { IfOk result (λ new. (length new.1.items ≡ settlers) × All (λ s. s ≡ new_settler new.0.name limit settlers) new.1.items) }
        ensures readers { IfOk result (λ new. (length new.2.items ≡ readers) × All (λ s. s ≡ new_reader new.0.name limit) new.2.items) }
    {
        let unset = vec![in alloc; 0u64; usize::from(limit)]?;
        let size = RowSize { limit, settlers };
        let (words, mut first) = Table::of_words(alloc, unset.as_slice(), &size)?;
        let mut settle_seats = Vec::with_capacity(alloc, usize::from(settlers))?;
        let mut read_seats = Vec::with_capacity(alloc, usize::from(readers))?;
        for number in 0..settlers {
            let seat = words.shared.split_seat::<Deal<1>>(&mut first);
            settle_seats.push_reserved(SettleSeat { seat });
        }
        for number in 0..readers {
            let seat = words.shared.split_seat::<Deal<0>>(&mut first);
            read_seats.push_reserved(ReadSeat { seat });
        }
        Ok((Promises { words, limit }, settle_seats, read_seats))
    }

    /// Settles promise n by one step where it is unset, and else answers the outcome that stands. A void promise, which
    /// is numbered `limit` or more, is `Ok` and keeps nothing.
    #[tactic(auto, using(crate::proofs::PromiseMoves::outcome_of_code))]
    pub fn try_settle(&self, n: u64, outcome: Outcome, seat: &mut SettleSeat) -> Result<(), Outcome>
        requires { seat.old.name ≡ self.now.name }
        ensures same { (seat.new.name ≡ seat.old.name) × (seat.new.settlers ≡ seat.old.settlers) }
        ensures ok { IfOk result (λ _. n < self.now.limit → Settles seat.old n outcome seat.new) }
        ensures err { IfErr result (λ found. (n < self.now.limit) × Meets seat.old n found seat.new) }
        ensures again { n < self.now.limit → (found : Outcome) → at seat.old.seen n ≡ Some found → result ≡ Err found }
        ensures past { self.now.limit ≤ n → (result ≡ Ok tt) × (seat.new ≡ seat.old) }
    {
        if n >= u64::from(self.limit) {
            return Ok(());
        }
        let word = self
            .words
            .shared
            .compare_exchange::<Settle>(&mut seat.seat, n as usize, 0, word_of(outcome));
        match outcome_in(word) {
            None => Ok(()),
            Some(found) => Err(found),
        }
    }

    /// The outcome of promise n that one look finds, or None where it is unset or void. What the seat has seen it sees
    /// again.
    pub fn peek(&self, n: u64, seat: &mut ReadSeat) -> Option<Outcome>
        requires { seat.old.name ≡ self.now.name }
        ensures same { seat.new.name ≡ seat.old.name }
        ensures found { n < self.now.limit → Peeks seat.old n result seat.new }
        ensures again { n < self.now.limit → (found : Outcome) → at seat.old.seen n ≡ Some found → result ≡ Some found }
        ensures past { self.now.limit ≤ n → (result ≡ None) × (seat.new ≡ seat.old) }
    {
        if u64::from(self.limit) <= n {
            return None;
        }
        outcome_in(self.words.shared.load::<Look>(&mut seat.seat, n as usize))
    }
}
