//! The way to one executor.

ghost use Rattle.std.specs.Prelude.{◌≡◌, ◌<◌, ◌≤◌, ◌^◌, ◌∷◌, [], IfOk, IfErr, MatchResult, Some, false, true};
ghost use Rattle.pl_event.specs.Worlds.{FitsWorld};
ghost use Rattle.pl_outbox.specs.OutboxViews.{WasFull};
ghost use Rattle.pl_queue.specs.Views.{sent_of, after_offer};
ghost use Rattle.pl_words.specs.Phases.{rank};
ghost use Rattle.pl_words.specs.Admissions.{Admits, Refuses, admitted_of, less_one};

use crate::inbox::Inbox;
use pl_event::{Envelope, Named};
use pl_queue::{Full, Mailbox};
use pl_words::{Admitted, Refused, SendSeat};
use std::marker::Model;
use std::sync::Wait;

/// The way to one executor: a sender of its mailbox, and a seat of its admission.
#[derive(Drop)]
pub struct Outbox<'a, W: Named, M: Mailbox<W> + Drop> {
    pub(crate) inbox: &'a Inbox<W, M>,
    sender: M::Sender,
    seat: SendSeat,
}

impl<'a, W: Named, M: Mailbox<W> + Drop> Model for Outbox<'a, W, M> {
    ghost use Rattle.std.specs.Prelude.{◌≡◌};
    ghost use Rattle.pl_outbox.specs.OutboxViews.{OutboxView};

    ghost Value = { OutboxView };

    ghost view = { λ o. record { sends = M.ends.sends_of o.sender; seat = o.seat } };

    ghost invariant = { λ o. M.ends.is_sender o.inbox.now.mailbox o.sender × (o.seat.name ≡ o.inbox.now.admission.name) };
}

impl<'a, W: Named, M: Mailbox<W> + Drop> Outbox<'a, W, M> {
    /// The way to the executor that an inbox is of, by a sender and a seat of that inbox.
    pub fn new(inbox: &'a Inbox<W, M>, sender: M::Sender, seat: SendSeat) -> Self
        requires sender { M.ends.is_sender inbox.now.mailbox sender }
        requires seat { seat.name ≡ inbox.now.admission.name }
        ensures { result ≡ record { sends = M.ends.sends_of sender; seat = seat } }
    {
        Outbox {
            inbox,
            sender,
            seat,
        }
    }

    /// An admission, for one envelope.
    pub(crate) fn admit(&mut self) -> Result<Admitted, Refused>
        ensures same { self.new ≡ record self.old { seat = self.new.seat } }
        ensures admitted { IfOk result (λ admitted. (admitted ≡ admitted_of self.old.seat) × Admits self.old.seat self.new.seat) }
        ensures refused { IfErr result (λ refused. Refuses refused self.old.seat self.new.seat) }
    {
        self.inbox.admission.admit(&mut self.seat)
    }

    /// Gives an admission of its own up. The executor may rest in the hope of closing, so it is woken.
    pub(crate) fn give_up(&mut self, admitted: Admitted)
        requires admitted { admitted ≡ admitted_of self.old.seat }
        requires kept { 0 < self.old.seat.kept }
        ensures less { self.new ≡ record self.old { seat = less_one self.old.seat self.new.seat.seen } }
        ensures later { rank self.old.seat.seen ≤ rank self.new.seat.seen }
    {
        self.inbox.admission.give_up(&mut self.seat, admitted);
        self.inbox.bell.ring();
    }

    /// Whether the queue is found full. A `false` promises nothing.
    pub(crate) fn is_full(&mut self) -> bool
        ensures same { self.new ≡ self.old }
        ensures full { result ≡ true → WasFull M.ends W.world self.old.sends }
    {
        self.inbox.mailbox.is_full(&mut self.sender)
    }

    /// Offers an envelope to the queue. Its one caller gives it the envelope by value.
    #[inline(always)]
    pub(crate) fn offer<R: Wait>(&mut self, rt: &R, envelope: Envelope) -> Result<(), Full>
        requires next { sent_of envelope.lane self.old.sends.send_counts ≡ Some (envelope.number, false) }
        requires small { envelope.number < 2 ^ 32 }
        requires fits { FitsWorld W.world envelope }
        ensures { MatchResult result
            (λ _. self.new ≡ record self.old { sends = after_offer self.old.sends envelope })
            (λ full. (full.envelope ≡ envelope) × (self.new ≡ self.old) × WasFull M.ends W.world self.old.sends) }
    {
        let mailbox = &self.inbox.mailbox;
        mailbox.offer::<R>(rt, &mut self.sender, envelope)
    }

    /// The seat, and no way to use it.
    pub(crate) fn into_seat(self) -> SendSeat
        ensures { result ≡ self.entry.seat }
    {
        self.seat
    }
}
