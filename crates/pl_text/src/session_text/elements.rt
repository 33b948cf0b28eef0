//! Reads an element of a burst.

ghost use Rattle.std.specs.Prelude.{◌≡◌};
ghost use Rattle.serde_json.specs.View.{view};
ghost use Rattle.pl_text.specs.SessionReading.{AnswersMeaning, seen};
ghost use Rattle.pl_text.specs.SessionChannels.{chunk_in, element_in, hex_decoded, user_in};

use crate::faults::SessionFault;
use crate::session_text::limits::MAX_USER_EVENT;
use crate::session_text::values::{FromData, required, whole_in};
use crate::session_text::version::Version;
use hex::FromHexError;
use pl_event::{ByteString, Element};
use serde_json::Value;
use std::alloc::Global;

/// An element of a burst: in version 2 an object is read as a user event, and all else as a chunk.
impl FromData for Element {
    type Read = Element;

    ghost meaning = { element_in };

    #[tactic(auto, unfolding(crate::specs::SessionChannels::element_in))]
    fn from_data(alloc: Global, version: Version, value: Value) -> Result<Element, SessionFault> {
        if version.knows_user_events() && value.is_object() {
            Ok(Element::User(user_in(&value)?))
        } else {
            Ok(Element::Chunk(chunk_in(alloc, version, value)?))
        }
    }
}

/// The number of a user event.
#[tactic(auto, unfolding(crate::specs::SessionChannels::user_in))]
fn user_in(event: &Value) -> Result<u32, SessionFault>
    ensures { result ≡ user_in (view event.now) }
{
    Ok(whole_in(0, u64::from(MAX_USER_EVENT), required(event, "user")?)? as u32)
}

/// The bytes of a chunk: in version 1 the UTF-8 bytes of a text, in version 2 the bytes that its hex digits say.
#[tactic(auto, unfolding(crate::specs::SessionChannels::chunk_in, crate::specs::SessionReading::text))]
fn chunk_in(alloc: Global, version: Version, value: Value) -> Result<ByteString, SessionFault>
    ensures { AnswersMeaning result (chunk_in version (view value)) }
{
    let Value::String(text) = value else {
        return Err(SessionFault::Kind);
    };
    let bytes = match version {
        Version::One => text.into_bytes(),
        Version::Two => hex_decoded(alloc, text.as_str())?,
    };
    Ok(ByteString::from_vec(bytes))
}

/// The bytes that hex digits say, of either case.
fn hex_decoded(alloc: Global, digits: &str) -> Result<Vec<u8>, SessionFault>
    ensures { AnswersMeaning (seen (λ bytes. bytes.items) result) (hex_decoded digits.now) }
{
    match hex::decode(alloc, digits) {
        Ok(bytes) => Ok(bytes),
        Err(FromHexError::OutOfMemory) => Err(SessionFault::Memory),
        Err(_) => Err(SessionFault::Kind),
    }
}
