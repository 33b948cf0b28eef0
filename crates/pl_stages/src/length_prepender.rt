//! The handler that puts in front of each write of bytes its length.

ghost use Rattle.std.specs.Prelude.{◌≡◌, ◌^◌, ◌<◌, ◌↔◌, [], length, true, false, IfOk, IsOk, IsTrue};
ghost use Rattle.pl_stages.specs.LengthFraming.{is_width};
ghost use Rattle.pl_stages.specs.LengthPrepending.{length_prepending, with_length, prefixed};

use crate::length_width::is_width;
use crate::stage_refusal::StageRefusal;
use byteorder::{BigEndian, ByteOrder};
use pl_event::{ByteString, Event, MapDown, Mapping, Message, Stage};
use std::alloc::AllocError;

/// Puts in front of each write of bytes its length (Netty's `LengthFieldPrepender`).
#[derive(Debug, Drop)]
pub struct LengthPrepender {
    /// How many bytes a length field has.
    width: usize,
    ghost widths: { is_width width ≡ true },
}

impl LengthPrepender {
    /// The handler, with length fields of `width` bytes. It is refused where that is neither 2 nor 4, and takes no memory
    /// until its first step.
    pub fn new(width: usize) -> Result<MapDown<Self>, StageRefusal>
        ensures limit { IsOk result ↔ (is_width width ≡ true) }
        ensures meaning { IfOk result (λ s. ⟦<MapDown<LengthPrepender> as Stage>⟧.meaning s ≡ length_prepending width) }
        ensures stands { IfOk result (λ s. ⟦<MapDown<LengthPrepender> as Stage>⟧.stands_after s []) }
        ensures unspent { IfOk result (λ s. ⟦<MapDown<LengthPrepender> as Stage>⟧.is_spent s ≡ false) }
    {
        if !is_width(width) {
            return Err(StageRefusal::Limit);
        }
        Ok(MapDown::new(LengthPrepender { width }))
    }

    /// What is written in place of a payload.
    fn with_length(&self, payload: ByteString) -> Result<Message, AllocError>
        ensures { IfOk result (λ made. Event.Write made ≡ with_length self.now.width (Event.Write (Message.Bytes payload))) }
    {
        if !self.fits_field(payload.len()) {
            return Ok(Message::Line(payload));
        }
        let made = prefixed(self.width, payload.into_vec()?)?;
        Ok(Message::Bytes(ByteString::from_vec(made)))
    }

    /// Whether a length field can say so many bytes.
    fn fits_field(&self, len: usize) -> bool
        ensures { IsTrue result ↔ (len < 256 ^ self.now.width) }
    {
        let most = if self.width == 2 { 0xffff } else { 0xffff_ffff };
        len <= most
    }
}

impl Mapping for LengthPrepender {
    ghost made_of = { λ s. with_length s.width };

    fn map(&self, event: Event) -> Result<Event, AllocError> {
        match event {
            Event::Write(Message::Bytes(payload)) => Ok(Event::Write(self.with_length(payload)?)),
            other => Ok(other),
        }
    }
}

/// A payload with its length in front.
fn prefixed(width: usize, payload: Vec<u8>) -> Result<Vec<u8>, AllocError>
    requires widths { is_width width ≡ true }
    requires fits { length payload.items < 256 ^ width }
    ensures { IfOk result (λ made. made.items ≡ prefixed width payload.items) }
{
    let mut field = [0; 8];
    BigEndian::write_uint(&mut field, payload.len() as u64, width);
    let mut made = Vec::with_capacity(*payload.allocator(), width + payload.len())?;
    made.extend_from_slice(&field[..width])?;
    made.extend_from_slice(payload.as_slice())?;
    Ok(made)
}
