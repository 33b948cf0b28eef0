//! What every mailbox promises.

ghost use Rattle.std.specs.Prelude.{◌≡◌, ◌<◌, ◌^◌, ℕ, Bool, true, false, Some, None, map, vec_len, unwrap_or, IfOk, IfErr, MatchResult, MatchOption};
ghost use Rattle.pl_event.specs.Worlds.{FitsWorld};
ghost use Rattle.pl_queue.specs.declared.mailbox.OpenRefusal.TheVariants.{Memory};
ghost use Rattle.pl_queue.specs.Ends.{MailboxEnds};
ghost use Rattle.pl_queue.specs.Limits.{opening_fault};
ghost use Rattle.pl_queue.specs.Rule.{SenderSees, TakerSees, WasOnce, Each};
ghost use Rattle.pl_queue.specs.Views.{sent_of, next_of, after_offer, after_take, fresh_sends, fresh_takes};
ghost use Rattle.pl_queue.specs.Left.{held_of, send_counts_of, Apart, lanes_of_senders, AreAll, IsAllLeft};

use crate::left::Left;
use pl_event::{Envelope, Lane, Named};
use std::alloc::{AllocError, Global};
use std::sync::Wait;

/// The queue answered that it is full. Hands the envelope back; the sender is as it was.
#[derive(Debug, Drop)]
pub struct Full {
    pub envelope: Envelope,
}

/// Why no mailbox was opened.
#[derive(Clone, Copy, Debug, PartialEq, Eq, Drop)]
pub enum OpenRefusal {
    /// The capacity is not 1 to `MAX_CAPACITY`, or there are more than `MAX_LANES` lanes or `MAX_SENDERS` senders.
    Limit,
    /// Out of memory, within the limits.
    Memory,
}

impl From<AllocError> for OpenRefusal {
    fn from(_error: AllocError) -> OpenRefusal {
        OpenRefusal::Memory
    }

    ghost from_gives = { λ e r. r ≡ Memory };
}

/// A queue from some senders to one taker. Each lane has one sender. A sender and a taker are used with the mailbox that
/// made them.
///
/// The world `W` says what each data lane carries in all, in contracts alone. At every moment the queued numbers of each
/// lane, from the front, are exactly those from the taker's next up to its sender's next; each queued envelope fits the
/// world; and nothing follows an end or a failure. Not promised: that a waiting call returns, which of two senders comes
/// first, and that anyone is woken.
pub trait Mailbox<W: Named>: Sized {
    type Sender: Drop;

    type Taker: Drop;

    /// What contracts see: the most envelopes that it holds; of a sender each lane of its own with the next number, and whether
    /// `End` or `Fail` was sent, the count of its pushes, and the envelope that it pushed last; of the taker its next number of
    /// each lane, the count of its pops, and the envelope that it popped last; and which senders and which taker it made.
    ghost ends: { MailboxEnds Self Self.Sender Self.Taker };

    /// A mailbox of this capacity, with a sender for each list of lanes, and its taker. No lane stands twice, and there is at
    /// least one sender.
    ///
    /// Errors: `Limit` exactly where capacity, lanes or senders are past the limits; else `Memory`, where memory is refused.
    /// Nothing was opened then.
    fn open(
        alloc: Global,
        lanes: Vec<Vec<Lane>>,
        capacity: usize,
    ) -> Result<(Self, Vec<Self::Sender>, Self::Taker), OpenRefusal>
        requires some { 0 < vec_len lanes }
        requires apart { Apart (lanes_of_senders (map (λ v. v.items) lanes.items)) }
        ensures refused { IfErr result (λ refusal. refusal ≡ unwrap_or (opening_fault (map (λ v. v.items) lanes.items) capacity) Memory) }
        ensures opened { IfOk result (λ r. (opening_fault (map (λ v. v.items) lanes.items) capacity ≡ None) × (ends.capacity_of r.0 ≡ capacity)) }
        ensures senders { IfOk result (λ r. Each (λ s. ends.is_sender r.0 s) r.1.items × (map ends.sends_of r.1.items ≡ map (λ v. fresh_sends v.items) lanes.items)) }
        ensures taker { IfOk result (λ r. ends.is_taker r.0 r.2 × (ends.takes_of r.2 ≡ fresh_takes (lanes_of_senders (map (λ v. v.items) lanes.items)))) };

    /// Whether `offer` may wait for room. It never answers `Full` then.
    fn may_wait() -> bool;

    /// Whether the queue is found full. A `true` says that it was so at some moment of the call, a `false` promises nothing.
    /// The sender is as it was.
    fn is_full(&self, sender: &mut Self::Sender) -> bool
        requires sender { ends.is_sender self.now sender.old }
        ensures sender { ends.is_sender self.now sender.new }
        ensures same { ends.sends_of sender.new ≡ ends.sends_of sender.old }
        ensures full { result ≡ true → WasOnce (ends.capacity_of self.now) (SenderSees W.world (ends.sends_of sender.old)) };

    /// Puts the envelope at the queue's back, in one step. Its lane is the sender's and has had no `End` or `Fail`, its number
    /// is the next one there and below 2^32, and it fits the world. The lane's next number and the count of pushes rise by
    /// one, this envelope is the one pushed last, and nothing else of the sender changes.
    ///
    /// Error: `Full` hands the same envelope back. The queue answered that it is full, and the sender is as it was.
    fn offer<R: Wait>(
        &self,
        rt: &R,
        sender: &mut Self::Sender,
        envelope: Envelope,
    ) -> Result<(), Full>
        requires sender { ends.is_sender self.now sender.old }
        requires next { sent_of envelope.lane (ends.sends_of sender.old).send_counts ≡ Some (envelope.number, false) }
        requires small { envelope.number < 2 ^ 32 }
        requires fits { FitsWorld W.world envelope }
        ensures sender { ends.is_sender self.now sender.new }
        ensures sent { MatchResult result
            (λ _. ends.sends_of sender.new ≡ after_offer (ends.sends_of sender.old) envelope)
            (λ full. (full.envelope ≡ envelope) × (ends.sends_of sender.new ≡ ends.sends_of sender.old) × WasOnce (ends.capacity_of self.now) (SenderSees W.world (ends.sends_of sender.old))) };

    /// Whether the queue is found empty. A `true` says that it was so at some moment of the call, a `false` promises nothing.
    /// The taker is as it was.
    fn is_empty(&self, taker: &mut Self::Taker) -> bool
        requires taker { ends.is_taker self.now taker.old }
        ensures taker { ends.is_taker self.now taker.new }
        ensures same { ends.takes_of taker.new ≡ ends.takes_of taker.old }
        ensures empty { result ≡ true → WasOnce 0 (TakerSees W.world (ends.takes_of taker.old)) };

    /// Takes the front, and gives it as it stood there.
    fn take<R: Wait>(&self, rt: &R, taker: &mut Self::Taker) -> Option<Envelope>
        requires taker { ends.is_taker self.now taker.old }
        ensures taker { ends.is_taker self.now taker.new }
        ensures taken { MatchOption result
            ((ends.takes_of taker.new ≡ ends.takes_of taker.old) × WasOnce 0 (TakerSees W.world (ends.takes_of taker.old)))
            (λ x. (next_of x.lane (ends.takes_of taker.old).counts ≡ Some x.number) × (x.number < 2 ^ 32) × FitsWorld W.world x × (ends.takes_of taker.new ≡ after_take (ends.takes_of taker.old) x)) };

    /// Ends the mailbox, given all its senders, in any order, and its taker. For each lane it says how many numbers were handed
    /// over and taken, and which envelopes are left: those from `taken` on, in order.
    ///
    /// Error: out of memory. The mailbox is gone then, with what was left in it.
    fn finish<R: Wait>(
        self,
        rt: &R,
        alloc: Global,
        senders: Vec<Self::Sender>,
        taker: Self::Taker,
    ) -> Result<Left, AllocError>
        requires senders { Each (λ s. ends.is_sender self s) senders.items }
        requires taker { ends.is_taker self taker }
        requires all { AreAll (send_counts_of (map ends.sends_of senders.items)) (ends.takes_of taker).counts }
        ensures left { IfOk result (λ left. IsAllLeft W.world (send_counts_of (map ends.sends_of senders.items)) (ends.takes_of taker).counts (map held_of left.lanes.items)) };
}
