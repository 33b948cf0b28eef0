//! What heads tell the words of their channels: the mark, and how writes ended.

ghost use Rattle.std.specs.Prelude.{◌≡◌, ◌-◌, ◌<◌, [], Some, false, get_or, length};
ghost use Rattle.pl_head.specs.HeadStand.{HeadView};
ghost use Rattle.pl_part.specs.Told.{IsTold, part_untold};
ghost use Rattle.pl_exec.specs.ExecutorNodes.{AreInOrder, NodesStand, channel_parts};
ghost use Rattle.pl_exec.specs.SessionWords.{AreSeatsOf, TriesEach, with_mark};
ghost use Rattle.pl_exec.specs.Telling.{AreSeated, AreToldAt, CanTell, KeepsOthers, SettlesAt, Tells, TellsAt, channel_seats, part_outcomes};

use crate::nodes::ExecutorNodes;
use crate::planned::Planned;
use crate::words::{Seats, Words};
use pl_event::Stage;
use pl_head::Transport;
use pl_part::ChannelPart;
use pl_words::watermark::MAX_SETS;

impl<'a, S: Stage, T: Transport> ExecutorNodes<'a, S, T> {
    /// Tells the words of the channel at a position how its head stands, where that is wanted and the head is one of these
    /// nodes. It is mostly not: so the look is inlined, and the telling is not.
    #[inline(always)]
    pub(crate) fn tell_if<W: Planned>(&mut self, position: usize, wanted: bool)
        requires there { position < length self.old.here.items }
        requires in_order { AreInOrder (length W.plan.channels) self.old }
        requires seated { AreSeated self.old.words.now W.plan (channel_seats W.plan self.old) }
        requires nodes { NodesStand W.world W.plan S.meaning S.stands_after T.state self.old.number self.old.was_refused (channel_parts W.plan self.old) }
        requires told { wanted ≡ false → TellsAt (channel_seats W.plan self.old) (channel_parts W.plan self.old) (get_or self.old.here.items position 0) }
        ensures told { AreToldAt W.plan self.old (get_or self.old.here.items position 0) self.new }
        ensures seated { AreSeated self.new.words.now W.plan (channel_seats W.plan self.new) }
        ensures tells { TellsAt (channel_seats W.plan self.new) (channel_parts W.plan self.new) (get_or self.old.here.items position 0) }
        ensures settled { SettlesAt (channel_seats W.plan self.old) (channel_parts W.plan self.old) (get_or self.old.here.items position 0) (channel_seats W.plan self.new) }
        ensures others { KeepsOthers (channel_seats W.plan self.old) (get_or self.old.here.items position 0) (channel_seats W.plan self.new) }
        ensures unwanted { wanted ≡ false → self.new ≡ self.old }
    {
        if !wanted {
            return;
        }
        if let Some(seats) = &mut self.seats[position] {
            tell(
                self.words,
                self.here[position],
                seats,
                &mut self.parts[position],
            );
        }
    }
}

/// Tells the words of a channel how its head stands: sets its mark, and settles each write that has ended since.
#[inline(never)]
fn tell<S: Stage, T: Transport>(
    words: &Words,
    channel: usize,
    seats: &mut Seats,
    part: &mut ChannelPart<S, T>,
)
    requires { CanTell S.meaning S.stands_after T.state words.now channel seats.old part.old }
    ensures own { AreSeatsOf words.now channel seats.new }
    ensures mark { (h : HeadView T) → part.old.head ≡ Some h → seats.new.mark ≡ with_mark seats.old.mark h.buffer.pending h.buffer.is_unwritable }
    ensures same { (seats.new.mark.low ≡ seats.old.mark.low) × (seats.new.mark.high ≡ seats.old.mark.high) }
    ensures told { IsTold part.old part.new }
    ensures all { part_untold part.new ≡ [] }
    ensures settled { TriesEach (part_outcomes part.old) (part_untold part.old) seats.old.settle seats.new.settle }
    ensures tells { (h : HeadView T) → part.new.head ≡ Some h → Tells seats.new h }
{
    set_mark(words, channel, seats, part);
    settle(words, channel, seats, part);
}

/// Sets the mark of a channel as its head stands.
fn set_mark<S: Stage, T: Transport>(
    words: &Words,
    channel: usize,
    seats: &mut Seats,
    part: &ChannelPart<S, T>,
)
    requires { CanTell S.meaning S.stands_after T.state words.now channel seats.old part.now }
    ensures own { AreSeatsOf words.now channel seats.new }
    ensures mark { (h : HeadView T) → part.now.head ≡ Some h → seats.new.mark ≡ with_mark seats.old.mark h.buffer.pending h.buffer.is_unwritable }
    ensures same { (seats.new.mark.low ≡ seats.old.mark.low) × (seats.new.mark.high ≡ seats.old.mark.high) }
    ensures settle { seats.new.settle ≡ seats.old.settle }
    ensures says { (h : HeadView T) → part.now.head ≡ Some h → seats.new.mark.sets < MAX_SETS - 1
        → (seats.new.mark.pending ≡ h.buffer.pending) × (seats.new.mark.unwritable ≡ h.buffer.is_unwritable) }
{
    if let Some((pending, is_writable)) = part.mark() {
        words.set_mark(channel, seats, pending, is_writable);
    }
}

/// Settles each write of a channel that has ended since the last time.
fn settle<S: Stage, T: Transport>(
    words: &Words,
    channel: usize,
    seats: &mut Seats,
    part: &mut ChannelPart<S, T>,
)
    requires { AreSeatsOf words.now channel seats.old }
    ensures own { AreSeatsOf words.now channel seats.new }
    ensures mark { seats.new.mark ≡ seats.old.mark }
    ensures told { IsTold part.old part.new }
    ensures all { part_untold part.new ≡ [] }
    ensures settled { TriesEach (part_outcomes part.old) (part_untold part.old) seats.old.settle seats.new.settle }
{
    while let Some((n, outcome)) = part.next_settled() {
        words.settle(channel, seats, n, outcome);
    }
}
