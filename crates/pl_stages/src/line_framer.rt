//! The handler that cuts bytes into lines.

ghost use Rattle.std.specs.Prelude.{◌≡◌, ◌==◌, ℕ, ◌+◌, ◌<◌, ◌≤◌, ◌↔◌, List, ◌++◌, ◌∷◌, [], length, IfOk, OnOk, OnErr, IsOk, IsTrue, false, vec_len};
ghost use Rattle.pl_event.specs.Meaning.{IsPrefixOf};
ghost use Rattle.pl_stages.specs.declared.limits.TheConstants.{MAX_LINE};
ghost use Rattle.pl_event.specs.declared.events.Event.{Event};
ghost use Rattle.pl_stages.specs.Cutting.{joined, cutting-lawful};
ghost use Rattle.pl_stages.specs.LineFraming.{line_framing, lines_of, framed, without_return, open_segment, AddsLines, KeepsAfter, KeepsSegment};

use crate::limits::MAX_LINE;
use crate::stage_refusal::{StageRefusal, within};
use memchr::memchr;
use pl_event::{
    BareStage, ByteString, Caught, Changed, Direction, Event, Fused, Message, Stage, Taken, Turned,
};
use std::alloc::{AllocError, Global};
use std::mem;

const LINE_FEED: u8 = b'\n';

const CARRIAGE_RETURN: u8 = b'\r';

/// Cuts the bytes read into lines, at each line feed (Netty's `LineBasedFrameDecoder`).
#[derive(Debug, Drop)]
pub struct LineFramer {
    /// The longest line, in bytes.
    max: usize,
    /// The bytes after the last line feed, unless they are overlong.
    partial: ByteString,
    /// The bytes after the last line feed make no line, whatever follows. None of them is kept.
    is_overlong: bool,
    ghost in_limit: { max ≤ MAX_LINE },
    ghost room: { length partial ≤ max + 1 },
}

impl LineFramer {
    /// The framer of lines of at most `max` bytes. It is refused where `max` is not from 1 to [`MAX_LINE`].
    pub fn new(alloc: Global, max: usize) -> Result<Fused<Self>, StageRefusal>
        ensures limit { IsOk result ↔ ((1 ≤ max) × (max ≤ MAX_LINE)) }
        ensures meaning { IfOk result (λ s. ⟦<Fused<LineFramer> as Stage>⟧.meaning s ≡ line_framing max) }
        ensures stands { IfOk result (λ s. ⟦<Fused<LineFramer> as Stage>⟧.stands_after s []) }
        ensures unspent { IfOk result (λ s. ⟦<Fused<LineFramer> as Stage>⟧.is_spent s ≡ false) }
    {
        within(max, MAX_LINE)?;
        Ok(Fused::new(LineFramer {
            max,
            partial: ByteString::from_vec(Vec::new(alloc)),
            is_overlong: false,
        }))
    }

    /// Adds the lines that a chunk closes. A chunk that is one whole line, or its beginning, is moved.
    fn take_chunk(&mut self, chunk: ByteString, up: &mut Vec<Event>) -> Result<(), AllocError>
        ensures max { self.new.max ≡ self.old.max }
        ensures kept { OnOk result (KeepsAfter self.old.max self.old.partial self.old.is_overlong chunk self.new.partial self.new.is_overlong) }
        ensures lines { OnOk result (AddsLines self.old.max self.old.partial self.old.is_overlong chunk up.old.items up.new.items) }
        ensures begins { IsPrefixOf up.old.items up.new.items }
    {
        match memchr(LINE_FEED, chunk.as_slice()) {
            Some(end) if end + 1 == chunk.len() && self.keeps_nothing() => {
                let mut segment = chunk;
                segment.truncate(end);
                up.push(framed(self.max, segment))?;
                Ok(())
            }
            None if chunk.len() <= self.max + 1 && self.keeps_nothing() => {
                self.partial = chunk;
                Ok(())
            }
            _ => self.cut(chunk.as_slice(), up),
        }
    }

    /// No byte was read after the last line feed.
    fn keeps_nothing(&self) -> bool
        ensures { IsTrue result → (self.now.is_overlong ≡ false) × (self.now.partial ≡ []) }
    {
        self.partial.is_empty() && !self.is_overlong
    }

    /// Adds the lines that these bytes close.
    fn cut(&mut self, bytes: &[u8], up: &mut Vec<Event>) -> Result<(), AllocError>
        ensures max { self.new.max ≡ self.old.max }
        ensures kept { OnOk result (KeepsAfter self.old.max self.old.partial self.old.is_overlong bytes.now self.new.partial self.new.is_overlong) }
        ensures lines { OnOk result (AddsLines self.old.max self.old.partial self.old.is_overlong bytes.now up.old.items up.new.items) }
        ensures begins { IsPrefixOf up.old.items up.new.items }
    {
        let mut rest = bytes;
        while let Some(end) = memchr(LINE_FEED, rest) {
            let (line, feed_and_more) = rest.split_at(end);
            self.close(line, up)?;
            rest = &feed_and_more[1..];
        }
        self.keep(rest)
    }

    /// A line feed after these bytes makes a line of the open segment and of them. The next segment is empty. Where nothing
    /// is kept, the line is made of the bytes at once.
    fn close(&mut self, bytes: &[u8], up: &mut Vec<Event>) -> Result<(), AllocError>
        ensures max { self.new.max ≡ self.old.max }
        ensures empty { OnOk result (KeepsSegment self.old.max self.new.partial self.new.is_overlong []) }
        ensures line { OnOk result ((segment : List ℕ)
            → KeepsSegment self.old.max self.old.partial self.old.is_overlong segment
            → up.new.items ≡ up.old.items ++ framed self.old.max (segment ++ bytes.now) ∷ []) }
        ensures begins { IsPrefixOf up.old.items up.new.items }
    {
        up.reserve(1)?;
        if self.keeps_nothing() && bytes.len() <= self.max + 1 {
            let segment = ByteString::from_slice(*up.allocator(), bytes)?;
            up.push_reserved(framed(self.max, segment));
            return Ok(());
        }
        self.keep(bytes)?;
        let line = self.take_line(*up.allocator());
        up.push_reserved(line);
        Ok(())
    }

    /// Keeps more bytes of the open segment.
    fn keep(&mut self, bytes: &[u8]) -> Result<(), AllocError>
        ensures max { self.new.max ≡ self.old.max }
        ensures kept { OnOk result ((segment : List ℕ)
            → KeepsSegment self.old.max self.old.partial self.old.is_overlong segment
            → KeepsSegment self.old.max self.new.partial self.new.is_overlong (segment ++ bytes.now)) }
    {
        if self.is_overlong {
            return Ok(());
        }
        if self.partial.len() + bytes.len() > self.max + 1 {
            self.partial.truncate(0);
            self.is_overlong = true;
            return Ok(());
        }
        self.partial.extend_from_slice(bytes)
    }

    /// The line that the segment kept so far makes. The next segment is empty.
    fn take_line(&mut self, alloc: Global) -> Event
        ensures max { self.new.max ≡ self.old.max }
        ensures line { (segment : List ℕ) → KeepsSegment self.old.max self.old.partial self.old.is_overlong segment
            → result ≡ framed self.old.max segment }
        ensures empty { KeepsSegment self.old.max self.new.partial self.new.is_overlong [] }
    {
        let segment = mem::replace(&mut self.partial, ByteString::from_vec(Vec::new(alloc)));
        if mem::replace(&mut self.is_overlong, false) {
            return Event::Caught(Caught::TooLong);
        }
        framed(self.max, segment)
    }
}

/// What a closed segment is read as.
fn framed(max: usize, segment: ByteString) -> Event
    ensures { result ≡ framed max segment }
{
    let line = without_return(segment);
    if line.len() <= max {
        Event::Read(Message::Line(line))
    } else {
        Event::Caught(Caught::TooLong)
    }
}

/// A segment without the carriage return at its end.
fn without_return(mut segment: ByteString) -> ByteString
    ensures { result ≡ without_return segment }
{
    if segment.as_slice().last() == Some(&CARRIAGE_RETURN) {
        segment.truncate(segment.len() - 1);
    }
    segment
}

impl BareStage for LineFramer {
    ghost meaning = { λ s. line_framing s.max };

    ghost stands_after = { λ s xs. KeepsSegment s.max s.partial s.is_overlong (open_segment (joined xs)) };

    fn direction(&self) -> Direction {
        Direction::Inbound
    }

    fn take(&mut self, event: Event, up: &mut Vec<Event>, _down: &mut Vec<Event>) -> Taken {
        match event {
            Event::Read(Message::Bytes(chunk)) => self.take_chunk(chunk, up)?,
            other => up.push(other)?,
        }
        Ok(Turned::Open)
    }

    // What is no bytes goes on as it is.
    fn change(&mut self, event: &mut Event, _down: &mut Vec<Event>) -> Changed {
        match event {
            Event::Read(Message::Bytes(_)) => Changed::No,
            _ => Changed::Up,
        }
    }

    ghost lawful = { λ s. cutting-lawful (lines_of s.max) };
}
