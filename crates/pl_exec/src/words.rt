//! What any thread may read of a session's run while it goes on: of each channel whether it is writable, and how its
//! writes ended.

ghost use Rattle.std.specs.Prelude.{◌≡◌, ◌-◌, ◌<◌, ◌≤◌, ◌↔◌, ◌⊎◌, [], ◌∷◌, ◌++◌, not, All, IfOk, IfErr, OnOk, IfSome, IfNone, IsSome, length, map, replicate, None, Some};
ghost use Rattle.pl_event.specs.declared.outcomes.Outcome.{Outcome};
ghost use Rattle.pl_words.specs.PromiseRule.{at};
ghost use Rattle.pl_words.specs.PromiseViews.{Settles, Meets};
ghost use Rattle.pl_words.specs.declared.watermark.TheConstants.{MAX_SETS};
ghost use Rattle.pl_words.specs.Watermarks.{IsMarked};
ghost use Rattle.pl_exec.specs.SessionWords.{AreSeatsOf, AreHeadSeatsOf, AreUnused, HaveMarksOf, IsReaderOf, new_seats, new_head_seats, new_sight, new_sights, with_sights, with_mark, LooksAt, PeeksAt};

use pl_event::{Outcome, Stage};
use pl_head::Transport;
use pl_threads::RunFault;
use pl_words::promises::{MAX_PROMISES, Promises, SettleSeat};
use pl_words::watermark::{HeadSeat, Mark, Watermark};
use pl_words::{promises, watermark};
use pl_world::{Recorded, Session, World};
use std::alloc::{AllocError, Global};
use std::marker::Model;

/// Of how many writes of a channel it is kept how they ended. Those of higher numbers are void.
pub const PROMISES: u16 = MAX_PROMISES;

/// The words of one channel.
#[derive(Drop)]
struct ChannelWords {
    mark: Watermark,
    promises: Promises,
}

impl Model for ChannelWords {
    ghost use Rattle.std.specs.Prelude.{◌≡◌};
    ghost use Rattle.pl_exec.specs.declared.words.TheConstants.{PROMISES};
    ghost use Rattle.pl_exec.specs.SessionWords.{ChannelNames};

    ghost Value = { ChannelNames };

    ghost view = { λ w. record { mark = w.mark.name; promises = w.promises.name } };

    ghost invariant = { λ w. w.promises.limit ≡ PROMISES };
}

/// The words of a session's channels, which threads share: of each channel whether it is writable (Netty's
/// `Channel.isWritable`), and how each of its first [`PROMISES`] writes ended (Netty's `ChannelPromise`). A run changes them
/// by its [`HeadSeats`], and any thread that has a [`Reader`] looks at them while the run goes on. A look makes at most one
/// atomic step, waits for nobody and takes no memory.
#[derive(Drop)]
pub struct Words {
    channels: Vec<ChannelWords>,
}

impl Model for Words {
    ghost use Rattle.std.specs.Prelude.{List};
    ghost use Rattle.pl_exec.specs.SessionWords.{ChannelNames};

    ghost Value = { List ChannelNames };

    ghost view = { λ w. w.channels.items };
}

/// The seats by which the executor of a channel's head changes the channel's words.
#[derive(Drop)]
pub(crate) struct Seats {
    mark: HeadSeat,
    settle: SettleSeat,
}

impl Model for Seats {
    ghost use Rattle.std.specs.Prelude.{◌≡◌};
    ghost use Rattle.pl_exec.specs.SessionWords.{SeatsView};

    ghost Value = { SeatsView };

    ghost view = { λ s. record { mark = s.mark; settle = s.settle } };

    ghost invariant = { λ s. s.settle.settlers ≡ 1 };
}

/// The right to change the words of a session's channels, which a run is given. There is one for all words, and they are as
/// they were made.
#[derive(Drop)]
pub struct HeadSeats {
    /// By channel.
    channels: Vec<Seats>,
}

impl Model for HeadSeats {
    ghost use Rattle.std.specs.Prelude.{List};
    ghost use Rattle.pl_exec.specs.SessionWords.{SeatsView, AreUnused};

    ghost Value = { List SeatsView };

    ghost view = { λ s. s.channels.items };

    ghost invariant = { λ s. AreUnused s.channels.items };
}

impl HeadSeats {
    /// By channel its seats: here each has some, and in a run without words none.
    pub(crate) fn by_channel(self, alloc: Global) -> Result<Vec<Option<Seats>>, AllocError>
        ensures each { IfOk result (λ seats. seats.items ≡ map (λ s. Some s) self) }
        ensures unused { IfOk result (λ seats. AreUnused self) }
    {
        let mut seats = Vec::with_capacity(alloc, self.channels.len())?;
        for own in self.channels {
            seats.push(Some(own))?;
        }
        Ok(seats)
    }
}

/// A reader's seats of one channel.
#[derive(Drop)]
struct Sight {
    mark: watermark::ReadSeat,
    promises: promises::ReadSeat,
}

impl Model for Sight {
    ghost use Rattle.pl_exec.specs.SessionWords.{SightView};

    ghost Value = { SightView };

    ghost view = { λ s. record { mark = s.mark; promises = s.promises } };
}

/// The right to look at the words that it was made with, and what it has seen of them. Each thread that looks has a reader
/// of its own.
#[derive(Drop)]
pub struct Reader {
    /// By channel.
    channels: Vec<Sight>,
}

impl Model for Reader {
    ghost use Rattle.std.specs.Prelude.{List};
    ghost use Rattle.pl_exec.specs.SessionWords.{SightView};

    ghost Value = { List SightView };

    ghost view = { λ r. r.channels.items };
}

impl Reader {
    /// The seats of one channel more.
    fn add(&mut self, sight: Sight) -> Result<(), AllocError>
        ensures { OnOk result (self.new ≡ self.old ++ sight ∷ []) }
    {
        self.channels.push(sight)?;
        Ok(())
    }
}

/// Each seat on a mark with one on promises.
fn sights(
    alloc: Global,
    marks: Vec<watermark::ReadSeat>,
    promises: Vec<promises::ReadSeat>,
) -> Result<Vec<Sight>, AllocError>
    requires { length promises.items ≡ length marks.items }
    ensures marks { IfOk result (λ sights. map (λ s. s.mark) sights.items ≡ marks.items) }
    ensures promises { IfOk result (λ sights. map (λ s. s.promises) sights.items ≡ promises.items) }
{
    let mut sights = Vec::with_capacity(alloc, marks.len())?;
    for (mark, promises) in marks.into_iter().zip(promises) {
        sights.push(Sight { mark, promises })?;
    }
    Ok(sights)
}

/// The words of a channel with these marks, the seats by which they are changed, and seats for each reader.
fn channel_words(
    alloc: Global,
    low: u32,
    high: u32,
    readers: u16,
) -> Result<(ChannelWords, Seats, Vec<Sight>), AllocError>
    requires { low ≤ high }
    ensures seats { IfOk result (λ new. new.1 ≡ new_seats new.0 low high) }
    ensures count { IfOk result (λ new. length new.2.items ≡ readers) }
    ensures sights { IfOk result (λ new. All (λ s. s ≡ new_sight new.0) new.2.items) }
{
    let (mark, head, marks) = Watermark::new(alloc, low, high, readers)?;
    let (promises, mut settlers, peeks) = Promises::new(alloc, PROMISES, 1, readers)?;
    let Some(settle) = settlers.pop() else {
        unreachable!()
    };
    let seats = Seats { mark: head, settle };
    let sights = sights(alloc, marks, peeks)?;
    Ok((ChannelWords { mark, promises }, seats, sights))
}

/// This many readers that have no seats yet.
fn no_sights(alloc: Global, readers: u16) -> Result<Vec<Reader>, AllocError>
    ensures { IfOk result (λ all. all.items ≡ replicate readers []) }
{
    let mut all = Vec::with_capacity(alloc, usize::from(readers))?;
    for number in 0..readers {
        all.push(Reader {
            channels: Vec::new(alloc),
        })?;
    }
    Ok(all)
}

/// The seats of one channel more for each reader.
fn add_row(readers: &mut Vec<Reader>, row: Vec<Sight>) -> Result<(), AllocError>
    requires { length row.items ≡ length readers.old.items }
    ensures { OnOk result (readers.new.items ≡ with_sights readers.old.items row.items) }
{
    let mut number = 0;
    for sight in row {
        readers[number].add(sight)?;
        number += 1;
    }
    Ok(())
}

/// The words of these channels, in order, the seats by which they are changed, and so many readers.
fn words_of<S: Stage, T: Transport>(
    alloc: Global,
    channels: &[Recorded<S, T>],
    readers: u16,
) -> Result<(Words, HeadSeats, Vec<Reader>), AllocError>
    ensures channels { IfOk result (λ new. length new.0 ≡ length channels.now) }
    ensures heads { IfOk result (λ new. new.1 ≡ new_head_seats new.0 channels.now) }
    ensures own_heads { IfOk result (λ new. AreHeadSeatsOf new.0 new.1) }
    ensures marks { IfOk result (λ new. HaveMarksOf new.1 channels.now) }
    ensures readers { IfOk result (λ new. new.2.items ≡ replicate readers (new_sights new.0)) }
{
    let mut words = Vec::with_capacity(alloc, channels.len())?;
    let mut heads = Vec::with_capacity(alloc, channels.len())?;
    let mut all = no_sights(alloc, readers)?;
    for channel in channels {
        let pipeline = &channel.pipeline;
        let (own, seats, row) = channel_words(alloc, pipeline.low(), pipeline.high(), readers)?;
        words.push(own)?;
        heads.push(seats)?;
        add_row(&mut all, row)?;
    }
    Ok((
        Words { channels: words },
        HeadSeats { channels: heads },
        all,
    ))
}

impl Words {
    /// The words of a session's channels, with what a run changes them by and a given number of readers. Each channel is
    /// writable, at version 0, and no write has ended. `Memory` where memory is refused, and no other fault.
    pub fn new(
        alloc: Global,
        session: &Session,
        readers: u16,
    ) -> Result<(Words, HeadSeats, Vec<Reader>), RunFault>
        ensures channels { IfOk result (λ new. length new.0 ≡ length session.now.world.channels) }
        ensures heads { IfOk result (λ new. new.1 ≡ new_head_seats new.0 session.now.world.channels) }
        ensures count { IfOk result (λ new. length new.2.items ≡ readers) }
        ensures readers { IfOk result (λ new. All (λ r. r ≡ new_sights new.0) new.2.items) }
        ensures own_heads { IfOk result (λ new. AreHeadSeatsOf new.0 new.1) }
        ensures marks { IfOk result (λ new. HaveMarksOf new.1 session.now.world.channels) }
        ensures own_readers { IfOk result (λ new. All (IsReaderOf new.0) new.2.items) }
        ensures refused { IfErr result (λ e. e ≡ RunFault.Memory) }
    {
        Words::of_world(alloc, &session.world, readers)
    }

    /// The words of the channels of a world of any stages and transports, as [`Words::new`] has those of a session's.
    pub fn of_world<S: Stage, T: Transport>(
        alloc: Global,
        world: &World<S, T>,
        readers: u16,
    ) -> Result<(Words, HeadSeats, Vec<Reader>), RunFault>
        ensures channels { IfOk result (λ new. length new.0 ≡ length world.now.channels) }
        ensures heads { IfOk result (λ new. new.1 ≡ new_head_seats new.0 world.now.channels) }
        ensures count { IfOk result (λ new. length new.2.items ≡ readers) }
        ensures readers { IfOk result (λ new. All (λ r. r ≡ new_sights new.0) new.2.items) }
        ensures own_heads { IfOk result (λ new. AreHeadSeatsOf new.0 new.1) }
        ensures marks { IfOk result (λ new. HaveMarksOf new.1 world.now.channels) }
        ensures own_readers { IfOk result (λ new. All (IsReaderOf new.0) new.2.items) }
        ensures refused { IfErr result (λ e. e ≡ RunFault.Memory) }
    {
        Ok(words_of(alloc, world.channels(), readers)?)
    }

    /// The words of no channel.
    pub(crate) fn none(alloc: Global) -> Words
        ensures { result ≡ [] }
    {
        Words {
            channels: Vec::new(alloc),
        }
    }

    /// Whether a channel is writable, as one look at its mark finds, or None for a channel that is not there. The mark's
    /// version counts how often it was set: it is never an older one than the reader has seen, and the same version has
    /// the same flag.
    pub fn look(&self, channel: usize, reader: &mut Reader) -> Option<Mark>
        requires { IsReaderOf self.now reader.old }
        ensures own { IsReaderOf self.now reader.new }
        ensures there { IsSome result ↔ (channel < length self.now) }
        ensures found { IfSome result (λ mark. LooksAt reader.old channel mark reader.new) }
        ensures absent { IfNone result (reader.new ≡ reader.old) }
    {
        let words = self.channels.get(channel)?;
        Some(words.mark.look(&mut reader.channels[channel].mark))
    }

    /// How write n of a channel ended, counted from 0, as one look finds it. None where it has not ended, for a void one,
    /// which is numbered [`PROMISES`] or more, and for a channel that is not there. What the reader has seen it sees again.
    pub fn peek(&self, channel: usize, n: u64, reader: &mut Reader) -> Option<Outcome>
        requires { IsReaderOf self.now reader.old }
        ensures own { IsReaderOf self.now reader.new }
        ensures found { channel < length self.now → n < PROMISES → PeeksAt reader.old channel n result reader.new }
        ensures void { PROMISES ≤ n → (result ≡ None) × (reader.new ≡ reader.old) }
        ensures absent { length self.now ≤ channel → (result ≡ None) × (reader.new ≡ reader.old) }
    {
        let words = self.channels.get(channel)?;
        words
            .promises
            .peek(n, &mut reader.channels[channel].promises)
    }

    /// Sets a channel's mark to the bytes that are pending now, and to whether the channel is writable. It is not set where
    /// it was set so last, nor once it was set `MAX_SETS - 1` times.
    pub(crate) fn set_mark(
        &self,
        channel: usize,
        seats: &mut Seats,
        pending: u128,
        is_writable: bool,
    )
        requires own { AreSeatsOf self.now channel seats.old }
        requires marked { IsMarked seats.old.mark.low seats.old.mark.high pending (not is_writable) }
        ensures own { AreSeatsOf self.now channel seats.new }
        ensures mark { seats.new.mark ≡ with_mark seats.old.mark pending (not is_writable) }
        ensures set { seats.old.mark.sets < MAX_SETS - 1 → (seats.new.mark.pending ≡ pending) × (seats.new.mark.unwritable ≡ not is_writable) }
        ensures later { seats.old.mark.sets ≤ seats.new.mark.sets }
        ensures settle { seats.new.settle ≡ seats.old.settle }
    {
        let is_unwritable = !is_writable;
        if seats.mark.is_news(pending, is_unwritable) {
            self.channels[channel]
                .mark
                .set(&mut seats.mark, pending, is_unwritable);
        }
    }

    /// Settles write n of a channel so, where it is unset. A void one, numbered `PROMISES` or more, keeps nothing.
    pub(crate) fn settle(&self, channel: usize, seats: &mut Seats, n: u64, outcome: Outcome)
        requires { AreSeatsOf self.now channel seats.old }
        ensures own { AreSeatsOf self.now channel seats.new }
        ensures mark { seats.new.mark ≡ seats.old.mark }
        ensures first { n < PROMISES → at seats.old.settle.settled n ≡ None → Settles seats.old.settle n outcome seats.new.settle }
        ensures tried { n < PROMISES → Settles seats.old.settle n outcome seats.new.settle ⊎ ((found : Outcome) × Meets seats.old.settle n found seats.new.settle) }
        ensures void { PROMISES ≤ n → seats.new.settle ≡ seats.old.settle }
    {
        let _tried = self.channels[channel]
            .promises
            .try_settle(n, outcome, &mut seats.settle);
    }
}
