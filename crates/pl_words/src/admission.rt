//! Who may still send: one word, on which each sender and the owner make single steps and wait for nobody.

ghost use Rattle.std.specs.Prelude.{◌≡◌, ◌≢◌, ℕ, ◌+◌, ◌-◌, ◌*◌, ◌^◌, ◌<◌, ◌≤◌, All, IfOk, IfErr, length, sum_by};
ghost use Rattle.pl_words.specs.declared.status.Status.TheVariants.{Closed};
ghost use Rattle.pl_words.specs.Phases.{rank, begun};
ghost use Rattle.pl_words.specs.Admissions.{Admits, Refuses, Closes, StaysOpen, admitted_of, less_one, new_send_seat, new_owner_seat};

use crate::admission_steps::{
    AdmissionNotes, AdmissionRule, Begin, Deal, Finish, Gather, GiveUp, TakeBack, Try,
};
use crate::look::Look;
use crate::status::{Status, phase_in};
use atomic_table::{Seat, Table};
use std::alloc::{AllocError, Global};
use std::marker::Model;
use std::snapshot::Snapshot;

/// The most admissions that one seat ever makes.
pub const MAX_ADMISSIONS: u64 = (1 << 45) - 1;

/// What one admission adds to the word.
const ONE: u64 = 4;

/// What closing has added to the word.
const CLOSING: u64 = 1;

/// What closed has added to the word.
const CLOSED: u64 = 3;

/// A count that no word has: 65,535 seats with all their admissions are fewer.
pub const NO_COUNT: u64 = 1 << 61;

/// Who may still send. Its one word has the count of admissions that are kept, and the phase.
#[derive(Drop)]
pub struct Admission {
    table: Table<(), AdmissionNotes, u16, AdmissionRule, Global>,
}

impl Model for Admission {
    ghost use Rattle.std.specs.Prelude.{◌≡◌};
    ghost use Rattle.pl_words.specs.Admissions.{AdmissionView};

    ghost Value = { AdmissionView };

    ghost view = { λ a. record { name = a.table.shared.table_id; senders = a.table.shared.key } };

    ghost invariant = { λ a. (a.table.shared.table_id.words ≡ 1) × (a.table.shared.table_id.slots ≡ 0) };
}

/// A sender's right to admit. It serves one thread at a time.
#[derive(Drop)]
pub struct SendSeat {
    seat: Seat<(), AdmissionNotes>,
    /// The admissions that it ever made.
    made: u64,
    /// The latest phase that it has seen.
    seen: Status,
}

impl Model for SendSeat {
    ghost use Rattle.pl_words.specs.Admissions.{SendSeatView, IsSending};

    ghost Value = { SendSeatView };

    ghost view = { λ s. record { name = s.seat.table_id; number = s.seat.id; made = s.made; kept = s.seat.me.0.kept; late = s.seat.me.0.late; seen = s.seen; steps = s.seat.me.0.steps } };

    ghost invariant = { λ s. IsSending s.seat.me s.made s.seen };
}

impl SendSeat {
    /// The latest phase that this seat has seen. It makes no step on the word, which may be in a later one.
    pub fn seen(&self) -> Status
        ensures { result ≡ self.now.seen }
    {
        self.seen
    }
}

/// The right to close. There is one for each admission.
#[derive(Drop)]
pub struct OwnerSeat {
    seat: Seat<(), AdmissionNotes>,
    phase: Status,
}

impl Model for OwnerSeat {
    ghost use Rattle.pl_words.specs.Admissions.{OwnerSeatView, IsOwning};

    ghost Value = { OwnerSeatView };

    ghost view = { λ o. record { name = o.seat.table_id; phase = o.phase; run = o.seat.me.0.run; found = o.seat.me.0.found; steps = o.seat.me.0.steps } };

    ghost invariant = { λ o. IsOwning o.seat.me o.phase };
}

/// One admission, of the seat that made it. One that is dropped stays counted, as one that was sent does.
#[derive(Drop)]
pub struct Admitted {
    of: Snapshot<SendSeat>,
}

impl Model for Admitted {
    ghost use Rattle.pl_words.specs.Admissions.{AdmittedView, admitted_of};

    ghost Value = { AdmittedView };

    ghost view = { λ a. admitted_of a.of.value };
}

impl Admitted {
    /// Ends the admission: what it was for is in the queue. It stays counted.
    pub fn sent(self) {
        let Admitted { of: _ } = self;
    }
}

/// Why there is no admission. It leaves those that are kept as they were.
#[derive(Clone, Copy, Debug, PartialEq, Eq)]
pub enum Refused {
    /// The seat found the word closed, now or before.
    Closed,
    /// The seat has made as many admissions as a seat may, and has not seen the word closed.
    SeatSpent,
}

/// What an attempt to close found where it did not close.
#[derive(Clone, Copy, Debug, PartialEq, Eq)]
pub struct StillOpen {
    /// The admissions that were counted.
    pub count: u64,
    /// Whether closing had begun.
    pub closing: bool,
}

impl Admission {
    /// An admission that is accepting and counts nothing, with a seat for each sender and the owner's. `AllocError`
    /// where memory is refused.
    pub fn new(
        alloc: Global,
        senders: u16,
    ) -> Result<(Admission, Vec<SendSeat>, OwnerSeat), AllocError>
        ensures senders { IfOk result (λ new. new.0.senders ≡ senders) }
        ensures seats { IfOk result (λ new. (length new.1.items ≡ senders) × All (λ s. s ≡ new_send_seat new.0.name s.number) new.1.items) }
        ensures owner { IfOk result (λ new. new.2 ≡ new_owner_seat new.0.name) }
    {
        let mut seats = Vec::with_capacity(alloc, usize::from(senders))?;
        let (table, mut owner) = Table::of_words(alloc, &[0], &senders)?;
        for number in 0..senders {
            let seat = table.shared.split_seat::<Deal>(&mut owner);
            seats.push_reserved(SendSeat {
                seat,
                made: 0,
                seen: Status::Accepting,
            });
        }
        let owner = OwnerSeat {
            seat: owner,
            phase: Status::Accepting,
        };
        Ok((Admission { table }, seats, owner))
    }

    /// Makes one admission, which stays counted until it is given up. `Closed` where its step found the word closed; a
    /// second step has taken the addition back then, and the seat is `Closed` from then on, without a step. `SeatSpent`,
    /// without a step, where the seat has made [`MAX_ADMISSIONS`] and has not seen closed. Either leaves what is kept as
    /// it was.
    pub fn admit(&self, seat: &mut SendSeat) -> Result<Admitted, Refused>
        requires { seat.old.name ≡ self.now.name }
        ensures same { (seat.new.name ≡ seat.old.name) × (seat.new.number ≡ seat.old.number) }
        ensures ok { IfOk result (λ admitted. (admitted ≡ admitted_of seat.old) × Admits seat.old seat.new) }
        ensures err { IfErr result (λ refused. Refuses refused seat.old seat.new) }
        ensures closed { seat.old.seen ≡ Closed → result ≡ Err Refused.Closed }
        ensures spent { seat.old.seen ≢ Closed → seat.old.made ≡ MAX_ADMISSIONS → result ≡ Err Refused.SeatSpent }
    {
        if let Status::Closed = seat.seen {
            return Err(Refused::Closed);
        }
        if seat.made == MAX_ADMISSIONS {
            return Err(Refused::SeatSpent);
        }
        let word = self.table.shared.fetch_add::<Try>(&mut seat.seat, 0, ONE);
        let phase = phase_in(word);
        seat.seen = phase;
        if let Status::Closed = phase {
            self.table
                .shared
                .fetch_sub::<TakeBack>(&mut seat.seat, 0, ONE);
            return Err(Refused::Closed);
        }
        seat.made += 1;
        Ok(Admitted {
            of: Snapshot::of(seat),
        })
    }

    /// Takes one admission of this seat back, by one step. It is late where that found the word closed: the count with
    /// which it was closed has it still.
    pub fn give_up(&self, seat: &mut SendSeat, admitted: Admitted)
        requires seat { seat.old.name ≡ self.now.name }
        requires admitted { admitted ≡ admitted_of seat.old }
        requires kept { 0 < seat.old.kept }
        ensures same { (seat.new.name ≡ seat.old.name) × (seat.new.number ≡ seat.old.number) }
        ensures less { seat.new ≡ less_one seat.old seat.new.seen }
        ensures later { rank seat.old.seen ≤ rank seat.new.seen }
    {
        let Admitted { of: _ } = admitted;
        let word = self
            .table
            .shared
            .fetch_sub::<GiveUp>(&mut seat.seat, 0, ONE);
        seat.seen = phase_in(word);
    }

    /// The phase that one look at the word finds. It is never one before a phase that the seat has seen.
    pub fn status(&self, seat: &mut SendSeat) -> Status
        requires { seat.old.name ≡ self.now.name }
        ensures same { (seat.new.name ≡ seat.old.name) × (seat.new.number ≡ seat.old.number) }
        ensures found { seat.new ≡ record seat.old { seen = result; steps = seat.old.steps + 1 } }
        ensures later { rank seat.old.seen ≤ rank result }
    {
        seat.seen = phase_in(self.table.shared.load::<Look>(&mut seat.seat, 0));
        seat.seen
    }

    /// Begins to close, by one step: the phase is closing from now on, or closed where it was. Senders are still
    /// admitted.
    pub fn begin_close(&self, owner: &mut OwnerSeat)
        requires { owner.old.name ≡ self.now.name }
        ensures same { owner.new.name ≡ owner.old.name }
        ensures begun { owner.new ≡ record owner.old { phase = begun owner.old.phase; steps = owner.old.steps + 1 } }
    {
        self.table
            .shared
            .fetch_or::<Begin>(&mut owner.seat, 0, CLOSING);
        if let Status::Accepting = owner.phase {
            owner.phase = Status::Closing;
        }
    }

    /// Closes, by one step, where closing has begun and exactly `run` admissions are kept. It is `Ok` without a step
    /// where the owner has closed before, and else answers what the step found, and leaves the phase. A `run` of
    /// [`NO_COUNT`] or more is never found.
    pub fn finish(&self, owner: &mut OwnerSeat, run: u64) -> Result<(), StillOpen>
        requires { owner.old.name ≡ self.now.name }
        ensures same { owner.new.name ≡ owner.old.name }
        ensures ok { IfOk result (λ _. Closes owner.old run owner.new) }
        ensures err { IfErr result (λ found. StaysOpen owner.old run found owner.new) }
    {
        if let Status::Closed = owner.phase {
            return Ok(());
        }
        let asked = ONE * run.min(NO_COUNT);
        let found = self
            .table
            .shared
            .compare_exchange::<Finish>(&mut owner.seat, 0, asked + CLOSING, asked + CLOSED);
        if found == asked + CLOSING {
            owner.phase = Status::Closed;
            return Ok(());
        }
        Err(StillOpen {
            count: found / ONE,
            closing: found % ONE == CLOSING,
        })
    }

    /// The admissions that are kept, given all seats. Where the owner has closed, these and the late ones are as many
    /// as it closed with.
    pub fn retire(self, seats: Vec<SendSeat>, owner: OwnerSeat) -> u64
        requires seats { (length seats.items ≡ self.senders) × All (λ s. s.name ≡ self.name) seats.items }
        requires owner { owner.name ≡ self.name }
        ensures kept { result ≡ sum_by (λ s. s.kept) seats.items }
        ensures run { owner.phase ≡ Closed → result + sum_by (λ s. s.late) seats.items ≡ owner.run }
    {
        let Admission { table } = self;
        let OwnerSeat {
            seat: mut owner,
            phase: _,
        } = owner;
        for sender in seats {
            let SendSeat {
                seat,
                made: _,
                seen: _,
            } = sender;
            table.shared.join_seat::<Gather>(&mut owner, seat);
        }
        let closed = table.close_with(owner);
        let word = closed.word(0);
        closed.free();
        word / ONE
    }
}
