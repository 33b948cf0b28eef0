//! A mailbox and its admission, under one hand: who sends is admitted first.

ghost use Rattle.std.specs.Prelude.{◌≡◌, ◌≢◌, ◌+◌, ◌<◌, ◌^◌, false, Some, None, Err, map, vec_len, unwrap_or, IfOk, IfErr, MatchResult, MatchOption};
ghost use Rattle.pl_event.specs.Worlds.{FitsWorld};
ghost use Rattle.pl_queue.specs.declared.mailbox.OpenRefusal.TheVariants.{Memory};
ghost use Rattle.pl_queue.specs.Left.{Apart, lanes_of_senders};
ghost use Rattle.pl_queue.specs.Limits.{opening_fault};
ghost use Rattle.pl_queue.specs.Rule.{TakerSees, WasOnce, Each};
ghost use Rattle.pl_queue.specs.Views.{sent_of, next_of, after_offer, after_take, fresh_sends, fresh_takes};
ghost use Rattle.pl_words.specs.declared.admission.TheConstants.{MAX_ADMISSIONS};
ghost use Rattle.pl_words.specs.declared.status.Status.TheVariants.{Closed};
ghost use Rattle.pl_words.specs.Admissions.{Admits, Closes, StaysOpen, new_send_seat, new_owner_seat};
ghost use Rattle.pl_words.specs.Phases.{begun};
ghost use Rattle.pl_post.specs.declared.posts.Unsent.TheVariants as unsent;
ghost use Rattle.pl_post.specs.Posts.{IsPostSeat, IsSeatOf, IsOwnerOf, Unsends, back_of};

use crate::opening::paired;
use pl_event::{Envelope, Lane, Named};
use pl_queue::{Full, Mailbox, OpenRefusal};
use pl_words::{Admission, OwnerSeat, Refused, SendSeat, StillOpen};
use std::alloc::Global;
use std::marker::{Model, PhantomData};
use std::sync::Wait;

/// A mailbox with its admission. Any threads send through it, each by a seat of its own; one owner takes, and closes it.
#[derive(Drop)]
pub struct Post<W: Named, M: Mailbox<W> + Drop> {
    mailbox: M,
    admission: Admission,
    of: PhantomData<W>,
}

impl<W: Named, M: Mailbox<W> + Drop> Model for Post<W, M> {
    ghost use Rattle.pl_post.specs.Posts.{PostView};

    ghost Value = { PostView M };

    ghost view = { λ p. record { mailbox = p.mailbox; name = p.admission.name } };
}

/// A thread's right to send through a post. It serves one thread at a time.
#[derive(Drop)]
pub struct PostSeat<W: Named, M: Mailbox<W>> {
    sender: M::Sender,
    seat: SendSeat,
}

impl<W: Named, M: Mailbox<W>> Model for PostSeat<W, M> {
    ghost use Rattle.pl_post.specs.Posts.{PostSeatView, IsPostSeat};

    ghost Value = { PostSeatView M.Sender };

    ghost view = { λ s. record { sender = s.sender; seat = s.seat } };

    ghost invariant = { λ s. IsPostSeat (M.ends.sends_of s.sender) s.seat };
}

impl<W: Named, M: Mailbox<W>> PostSeat<W, M> {
    /// A seat that has kept an admission for each envelope that its sender has pushed.
    pub(crate) fn new(sender: M::Sender, seat: SendSeat) -> Self
        requires { IsPostSeat (M.ends.sends_of sender) seat }
        ensures { result ≡ record { sender = sender; seat = seat } }
    {
        PostSeat { sender, seat }
    }
}

/// The right to take from a post and to close it. There is one for each post.
#[derive(Drop)]
pub struct PostOwner<W: Named, M: Mailbox<W>> {
    taker: M::Taker,
    owner: OwnerSeat,
    /// How many envelopes were taken.
    taken: u64,
}

impl<W: Named, M: Mailbox<W>> Model for PostOwner<W, M> {
    ghost use Rattle.pl_post.specs.Posts.{PostOwnerView, IsOwner};

    ghost Value = { PostOwnerView M.Taker };

    ghost view = { λ o. record { taker = o.taker; owner = o.owner; taken = o.taken } };

    ghost invariant = { λ o. IsOwner (M.ends.takes_of o.taker) o.owner o.taken };
}

/// Why an envelope was not sent, and the same envelope back. Nothing was sent then, and the seat counts as many as before.
#[derive(Debug, PartialEq, Eq, Drop)]
pub enum Unsent {
    /// The queue was full. The admission that was made for the envelope was given up.
    Full(Envelope),
    /// The post is closed: this seat found it so, now or before.
    Closed(Envelope),
    /// The seat has made as many admissions as a seat may, and has not seen the post closed.
    Spent(Envelope),
}

impl<W: Named, M: Mailbox<W> + Drop> Post<W, M> {
    /// A post of this capacity, with a seat for each list of lanes, and its owner. No lane stands twice, and there is at least
    /// one list. Nothing was sent, every seat may send, and the owner has taken nothing.
    ///
    /// Errors: `Limit` exactly where capacity, lanes or senders are past the mailbox's limits; else `Memory`, where memory is
    /// refused. Nothing was opened then.
    pub fn open(
        alloc: Global,
        lanes: Vec<Vec<Lane>>,
        capacity: usize,
    ) -> Result<(Self, Vec<PostSeat<W, M>>, PostOwner<W, M>), OpenRefusal>
        requires some { 0 < vec_len lanes }
        requires apart { Apart (lanes_of_senders (map (λ v. v.items) lanes.items)) }
        ensures refused { IfErr result (λ refusal. refusal ≡ unwrap_or (opening_fault (map (λ v. v.items) lanes.items) capacity) Memory) }
        ensures opened { IfOk result (λ r. (opening_fault (map (λ v. v.items) lanes.items) capacity ≡ None) × (M.ends.capacity_of r.0.mailbox ≡ capacity)) }
        ensures seats { IfOk result (λ r. Each (λ s. IsSeatOf M.ends r.0 s × (s.seat ≡ new_send_seat r.0.name s.seat.number)) r.1.items) }
        ensures sends { IfOk result (λ r. map (λ s. M.ends.sends_of s.sender) r.1.items ≡ map (λ v. fresh_sends v.items) lanes.items) }
        ensures owner { IfOk result (λ r. IsOwnerOf M.ends r.0 r.2 × (r.2.owner ≡ new_owner_seat r.0.name) × (r.2.taken ≡ 0) × (M.ends.takes_of r.2.taker ≡ fresh_takes (lanes_of_senders (map (λ v. v.items) lanes.items)))) }
    {
        let (mailbox, senders, taker) = M::open(alloc, lanes, capacity)?;
        let (admission, seats, owner) = Admission::new(alloc, senders.len() as u16)?;
        let seats = paired::<W, M>(alloc, senders, seats)?;
        let post = Post {
            mailbox,
            admission,
            of: PhantomData,
        };
        let owner = PostOwner {
            taker,
            owner,
            taken: 0,
        };
        Ok((post, seats, owner))
    }

    /// Sends an envelope: it is admitted, and then put at the queue's back. Its lane is the seat's and has had no `End` or
    /// `Fail`, its number is the next one there and below 2^32, and it fits the world. The lane's next number and the count of
    /// what the seat has kept rise by one.
    ///
    /// It waits for room where the mailbox does. Errors: [`Unsent`], which hands the same envelope back, with the lane's next
    /// number and what is kept as they were. At `Full` one admission more was made and given up, late where that found the
    /// post closed.
    pub fn send<R: Wait>(
        &self,
        rt: &R,
        seat: &mut PostSeat<W, M>,
        envelope: Envelope,
    ) -> Result<(), Unsent>
        requires seat { IsSeatOf M.ends self.now seat.old }
        requires next { sent_of envelope.lane (M.ends.sends_of seat.old.sender).send_counts ≡ Some (envelope.number, false) }
        requires small { envelope.number < 2 ^ 32 }
        requires fits { FitsWorld W.world envelope }
        ensures seat { IsSeatOf M.ends self.now seat.new }
        ensures sent { MatchResult result
            (λ _. (M.ends.sends_of seat.new.sender ≡ after_offer (M.ends.sends_of seat.old.sender) envelope) × Admits seat.old.seat seat.new.seat)
            (λ why. (M.ends.sends_of seat.new.sender ≡ M.ends.sends_of seat.old.sender) × Unsends W.world (M.ends.capacity_of self.now.mailbox) (M.ends.sends_of seat.old.sender) seat.old.seat why seat.new.seat) }
        ensures back { IfErr result (λ why. back_of why ≡ envelope) }
        ensures closed { seat.old.seat.seen ≡ Closed → result ≡ Err (unsent.Closed envelope) }
        ensures spent { seat.old.seat.seen ≢ Closed → seat.old.seat.made ≡ MAX_ADMISSIONS → result ≡ Err (unsent.Spent envelope) }
    {
        let admitted = match self.admission.admit(&mut seat.seat) {
            Ok(admitted) => admitted,
            Err(Refused::Closed) => return Err(Unsent::Closed(envelope)),
            Err(Refused::SeatSpent) => return Err(Unsent::Spent(envelope)),
        };
        match self.mailbox.offer::<R>(rt, &mut seat.sender, envelope) {
            Ok(()) => {
                admitted.sent();
                Ok(())
            }
            Err(Full { envelope }) => {
                self.admission.give_up(&mut seat.seat, admitted);
                Err(Unsent::Full(envelope))
            }
        }
    }

    /// Takes the front of the queue, and counts it. None where there is nothing.
    pub fn take<R: Wait>(&self, rt: &R, owner: &mut PostOwner<W, M>) -> Option<Envelope>
        requires owner { IsOwnerOf M.ends self.now owner.old }
        ensures owner { IsOwnerOf M.ends self.now owner.new × (owner.new.owner ≡ owner.old.owner) }
        ensures taken { MatchOption result
            ((owner.new.taken ≡ owner.old.taken) × (M.ends.takes_of owner.new.taker ≡ M.ends.takes_of owner.old.taker) × WasOnce 0 (TakerSees W.world (M.ends.takes_of owner.old.taker)))
            (λ x. (owner.new.taken ≡ owner.old.taken + 1) × (next_of x.lane (M.ends.takes_of owner.old.taker).counts ≡ Some x.number) × (x.number < 2 ^ 32) × FitsWorld W.world x × (M.ends.takes_of owner.new.taker ≡ after_take (M.ends.takes_of owner.old.taker) x)) }
    {
        let envelope = self.mailbox.take::<R>(rt, &mut owner.taker)?;
        owner.taken += 1;
        Some(envelope)
    }

    /// Begins to close, by one step. Seats still send; [`Post::finish`] may close from now on.
    pub fn begin_close(&self, owner: &mut PostOwner<W, M>)
        requires owner { IsOwnerOf M.ends self.now owner.old }
        ensures owner { IsOwnerOf M.ends self.now owner.new }
        ensures begun { owner.new ≡ record owner.old { owner = record owner.old.owner { phase = begun owner.old.owner.phase; steps = owner.old.owner.steps + 1 } } }
    {
        self.admission.begin_close(&mut owner.owner);
    }

    /// Closes, by one step, where closing has begun and exactly as many admissions are kept as envelopes were taken: nothing
    /// is queued then, and no send is under way. It is `Ok` without a step where the owner has closed before.
    ///
    /// Error: `StillOpen` says what the step found. The post stays as open as it was.
    pub fn finish(&self, owner: &mut PostOwner<W, M>) -> Result<(), StillOpen>
        requires owner { IsOwnerOf M.ends self.now owner.old }
        ensures owner { IsOwnerOf M.ends self.now owner.new }
        ensures same { owner.new ≡ record owner.old { owner = owner.new.owner } }
        ensures ok { IfOk result (λ _. Closes owner.old.owner owner.old.taken owner.new.owner) }
        ensures err { IfErr result (λ found. StaysOpen owner.old.owner owner.old.taken found owner.new.owner) }
    {
        self.admission.finish(&mut owner.owner, owner.taken)
    }
}
