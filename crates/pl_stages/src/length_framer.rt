//! The handler that cuts bytes into frames, each with its length in front.

ghost use Rattle.std.specs.Prelude.{◌≡◌, ◌+◌, ◌<◌, ◌≤◌, ◌^◌, ◌↔◌, ◌++◌, [], length, take, true, false, IfOk, IfSome, OnOk, IsOk, IsSome};
ghost use Rattle.pl_event.specs.Meaning.{IsPrefixOf};
ghost use Rattle.pl_stages.specs.declared.limits.TheConstants.{MAX_FRAME};
ghost use Rattle.pl_stages.specs.Cutting.{joined, cutting-lawful};
ghost use Rattle.pl_stages.specs.LengthFraming.{is_width, payload_len, frames_of, length_framing};
ghost use Rattle.pl_stages.specs.LengthSteps.{KeepsFrame, IsUnfinished, IsOneFrame, IsNextFrame, TakesBytes};

use crate::length_width::is_width;
use crate::limits::MAX_FRAME;
use crate::stage_refusal::{StageRefusal, within};
use byteorder::{BigEndian, ByteOrder};
use pl_event::{
    BareStage, ByteString, Caught, Changed, Direction, Event, Fused, Message, Stage, Taken, Turned,
};
use std::alloc::{AllocError, Global};
use std::mem;

/// Cuts the bytes read into frames, by the length in front of each (Netty's `LengthFieldBasedFrameDecoder`).
#[derive(Debug, Drop)]
pub struct LengthFramer {
    /// How many bytes a length field has.
    width: usize,
    /// The longest frame, its length field included, in bytes.
    max: usize,
    /// What was read of a frame that is not whole, its length field included.
    partial: Vec<u8>,
    /// How many bytes of a payload that is too long are still to come. Nothing else is kept of it.
    to_skip: usize,
    ghost widths: { is_width width ≡ true },
    ghost in_limit: { max ≤ MAX_FRAME },
    ghost unfinished: { IsUnfinished width max partial.items },
    ghost skipping: { 0 < to_skip → partial.items ≡ [] },
}

/// What some bytes have in front.
#[derive(Debug, Drop)]
enum NextFrame {
    /// No whole frame, and none that is known to be too long.
    Unfinished,
    /// A whole frame, with a payload of so many bytes.
    Whole(usize),
    /// The length field of a frame that is too long, with a payload of so many bytes.
    TooLong(usize),
}

impl LengthFramer {
    /// The framer of frames of at most `max` bytes, of which the first `width` are the length of the others, as a number
    /// with its highest byte first. It is refused where `width` is neither 2 nor 4, and where `max` is not from 1 to
    /// [`MAX_FRAME`].
    pub fn new(alloc: Global, width: usize, max: usize) -> Result<Fused<Self>, StageRefusal>
        ensures limit { IsOk result ↔ ((is_width width ≡ true) × (1 ≤ max) × (max ≤ MAX_FRAME)) }
        ensures meaning { IfOk result (λ s. ⟦<Fused<LengthFramer> as Stage>⟧.meaning s ≡ length_framing width max) }
        ensures stands { IfOk result (λ s. ⟦<Fused<LengthFramer> as Stage>⟧.stands_after s []) }
        ensures unspent { IfOk result (λ s. ⟦<Fused<LengthFramer> as Stage>⟧.is_spent s ≡ false) }
    {
        if !is_width(width) {
            return Err(StageRefusal::Limit);
        }
        within(max, MAX_FRAME)?;
        Ok(Fused::new(LengthFramer {
            width,
            max,
            partial: Vec::new(alloc),
            to_skip: 0,
        }))
    }

    /// Adds the frames that a chunk gives. A chunk that is one whole frame, but for what is kept of its length field,
    /// is moved.
    fn take_chunk(&mut self, mut chunk: ByteString, up: &mut Vec<Event>) -> Result<(), AllocError>
        ensures width { self.new.width ≡ self.old.width }
        ensures max { self.new.max ≡ self.old.max }
        ensures takes { OnOk result (TakesBytes self.old.width self.old.max self.old.partial.items self.old.to_skip chunk up.old.items self.new.partial.items self.new.to_skip up.new.items) }
        ensures begins { IsPrefixOf up.old.items up.new.items }
    {
        if let Some(start) = self.payload_start(chunk.as_slice()) {
            self.partial.clear();
            chunk.drop_front(start);
            up.push(line_of(chunk))?;
            return Ok(());
        }
        self.cut(chunk.as_slice(), up)
    }

    /// Where the payload begins in a chunk that is one whole frame, but for what is kept of its length field.
    fn payload_start(&self, chunk: &[u8]) -> Option<usize>
        ensures whole { IsSome result ↔ ((self.now.to_skip ≡ 0) × (length self.now.partial.items ≤ self.now.width) × IsOneFrame self.now.width self.now.max (self.now.partial.items ++ chunk.now)) }
        ensures start { IfSome result (λ start. length self.now.partial.items + start ≡ self.now.width) }
    {
        let start = self.width.checked_sub(self.partial.len())?;
        if self.to_skip > 0 || chunk.len() < start {
            return None;
        }
        let (field_end, payload) = chunk.split_at(start);
        let len = length_of(self.width, self.partial.as_slice(), field_end);
        if len == payload.len() && self.width + len <= self.max {
            Some(start)
        } else {
            None
        }
    }

    /// Adds the frames that these bytes give.
    fn cut(&mut self, bytes: &[u8], up: &mut Vec<Event>) -> Result<(), AllocError>
        ensures width { self.new.width ≡ self.old.width }
        ensures max { self.new.max ≡ self.old.max }
        ensures takes { OnOk result (TakesBytes self.old.width self.old.max self.old.partial.items self.old.to_skip bytes.now up.old.items self.new.partial.items self.new.to_skip up.new.items) }
        ensures begins { IsPrefixOf up.old.items up.new.items }
    {
        let mut rest = bytes;
        while !rest.is_empty() {
            let taken = self.take_some(rest, up)?;
            rest = &rest[taken..];
        }
        Ok(())
    }

    /// Takes some of these bytes, from the front and not beyond the end of a frame, and says how many.
    fn take_some(&mut self, bytes: &[u8], up: &mut Vec<Event>) -> Result<usize, AllocError>
        requires { 0 < length bytes.now }
        ensures width { self.new.width ≡ self.old.width }
        ensures max { self.new.max ≡ self.old.max }
        ensures some { IfOk result (λ taken. (0 < taken) × (taken ≤ length bytes.now)) }
        ensures takes { IfOk result (λ taken. TakesBytes self.old.width self.old.max self.old.partial.items self.old.to_skip (take taken bytes.now) up.old.items self.new.partial.items self.new.to_skip up.new.items) }
        ensures begins { IsPrefixOf up.old.items up.new.items }
    {
        if self.to_skip > 0 {
            let skipped = self.to_skip.min(bytes.len());
            self.to_skip -= skipped;
            return Ok(skipped);
        }
        if self.partial.is_empty() {
            if let NextFrame::Whole(len) = next_frame(self.width, self.max, bytes) {
                let end = self.width + len;
                let alloc = *self.partial.allocator();
                up.push(line_of(ByteString::from_slice(alloc, &bytes[self.width..end])?))?;
                return Ok(end);
            }
        }
        self.fill(bytes, up)
    }

    /// Keeps as many of these bytes as are missing from the length field or, once that is whole, from the payload, and says
    /// how many. A frame that is whole then, or known to be too long, is given.
    fn fill(&mut self, bytes: &[u8], up: &mut Vec<Event>) -> Result<usize, AllocError>
        requires some { 0 < length bytes.now }
        requires no_skip { self.old.to_skip ≡ 0 }
        ensures width { self.new.width ≡ self.old.width }
        ensures max { self.new.max ≡ self.old.max }
        ensures some { IfOk result (λ taken. (0 < taken) × (taken ≤ length bytes.now)) }
        ensures takes { IfOk result (λ taken. TakesBytes self.old.width self.old.max self.old.partial.items self.old.to_skip (take taken bytes.now) up.old.items self.new.partial.items self.new.to_skip up.new.items) }
        ensures begins { IsPrefixOf up.old.items up.new.items }
    {
        let taken = self.missing().min(bytes.len());
        self.partial.extend_from_slice(&bytes[..taken])?;
        match next_frame(self.width, self.max, self.partial.as_slice()) {
            NextFrame::Unfinished => {}
            NextFrame::Whole(_) => {
                let alloc = *self.partial.allocator();
                let mut frame = ByteString::from_vec(mem::replace(
                    &mut self.partial,
                    Vec::new(alloc),
                ));
                frame.drop_front(self.width);
                up.push(line_of(frame))?;
            }
            NextFrame::TooLong(len) => {
                self.partial.clear();
                self.to_skip = len;
                up.push(Event::Caught(Caught::TooLong))?;
            }
        }
        Ok(taken)
    }

    /// How many bytes are missing from the length field or, once that is whole, from the payload.
    fn missing(&self) -> usize
        ensures some { 0 < result }
        ensures field { length self.now.partial.items < self.now.width → result + length self.now.partial.items ≡ self.now.width }
        ensures payload { self.now.width ≤ length self.now.partial.items → result + length self.now.partial.items ≡ self.now.width + payload_len self.now.width self.now.partial.items 0 }
    {
        let kept = self.partial.len();
        if kept < self.width {
            self.width - kept
        } else {
            self.width + length_in(self.width, self.partial.as_slice()) - kept
        }
    }
}

/// What these bytes have in front.
fn next_frame(width: usize, max: usize, bytes: &[u8]) -> NextFrame
    requires { is_width width ≡ true }
    ensures { IsNextFrame width max bytes.now result }
{
    if bytes.len() < width {
        return NextFrame::Unfinished;
    }
    let len = length_in(width, bytes);
    if width + len > max {
        NextFrame::TooLong(len)
    } else if bytes.len() < width + len {
        NextFrame::Unfinished
    } else {
        NextFrame::Whole(len)
    }
}

/// The number in the length field in front of these bytes.
fn length_in(width: usize, bytes: &[u8]) -> usize
    requires widths { is_width width ≡ true }
    requires room { width ≤ length bytes.now }
    ensures number { result ≡ payload_len width bytes.now 0 }
    ensures fits { result < 2 ^ 32 }
{
    if width == 2 {
        BigEndian::read_u16(bytes) as usize
    } else {
        BigEndian::read_u32(bytes) as usize
    }
}

/// The number in a length field that came in two parts.
fn length_of(width: usize, front: &[u8], rest: &[u8]) -> usize
    requires widths { is_width width ≡ true }
    requires whole { length front.now + length rest.now ≡ width }
    ensures number { result ≡ payload_len width (front.now ++ rest.now) 0 }
{
    let mut field = [0; 4];
    field[..front.len()].copy_from_slice(front);
    field[front.len()..width].copy_from_slice(rest);
    length_in(width, &field)
}

/// A payload as it is read.
fn line_of(payload: ByteString) -> Event
    ensures { result ≡ Event.Read (Message.Line payload) }
{
    Event::Read(Message::Line(payload))
}

impl BareStage for LengthFramer {
    ghost meaning = { λ s. length_framing s.width s.max };

    ghost stands_after = { λ s xs. KeepsFrame s.width s.max s.partial.items s.to_skip (joined xs) };

    fn direction(&self) -> Direction {
        Direction::Inbound
    }

    fn take(&mut self, event: Event, up: &mut Vec<Event>, _down: &mut Vec<Event>) -> Taken {
        match event {
            Event::Read(Message::Bytes(chunk)) => self.take_chunk(chunk, up)?,
            other => up.push(other)?,
        }
        Ok(Turned::Open)
    }

    // What is no bytes goes on as it is.
    fn change(&mut self, event: &mut Event, _down: &mut Vec<Event>) -> Changed {
        match event {
            Event::Read(Message::Bytes(_)) => Changed::No,
            _ => Changed::Up,
        }
    }

    ghost lawful = { λ s. cutting-lawful (frames_of s.width s.max) };
}
