//! The text of a session (`docs/FORMATS.md`, "Session").

ghost use Rattle.std.specs.Prelude.{◌≡◌, ◌<◌, length, All, Err, IfOk};
ghost use Rattle.pl_world.specs.Sessions.{plan_of};
ghost use Rattle.pl_world.specs.Worlds.{IsUncalled};
ghost use Rattle.pl_text.specs.declared.session_text.limits.TheConstants.{MAX_SESSION_TEXT};
ghost use Rattle.pl_text.specs.declared.faults.SessionFault.TheVariants.{Limit};
ghost use Rattle.pl_text.specs.SessionReading.{AnswersMeaning, seen};
ghost use Rattle.pl_text.specs.SessionLimits.{IsWithinLimits};
ghost use Rattle.pl_text.specs.SessionTexts.{session_of};

mod building;
mod channels;
mod edits;
mod elements;
mod limits;
mod names;
mod outline;
mod tables;
mod values;
mod version;

use crate::faults::SessionFault;
use crate::session_text::building::session_built;
use crate::session_text::tables::outline_in;
pub use limits::{
    MAX_EDITS, MAX_FAIL_AT, MAX_GROUP_SIZE, MAX_SESSION_TEXT, MAX_USER_EVENT, MAX_WINDOW,
};
use pl_event::Stage;
use pl_head::{MemoryTransport, Transport};
use pl_stages::Handler;
use pl_world::Session;
use serde_json::Value;
use std::alloc::Global;

/// Reads a session from its text, which is JSON of version 1 or 2.
///
/// Each session that is read is within the limits of its numbers, handlers, bursts, elements, bytes and lanes. The first
/// fault in reading order is the answer: a text of more than `MAX_SESSION_TEXT` bytes is `Limit`, one that is not JSON
/// `NotJson`. Then the members are read in the order of the tables of `docs/FORMATS.md`, "Session", of an array its length
/// first and then each element wholly before the next. After all members the groups are made, and for each channel in
/// order its edits, its marks and its pipeline, which may be refused by `Build`. `Memory` is answered where an allocation
/// failed, at any of these steps but the first: a text that is too long is always `Limit`.
#[tactic(auto, using(crate::proofs::SessionLimitLaws::outline_is_within), unfolding(crate::specs::SessionTexts::session_of, crate::specs::SessionTexts::session_in))]
pub fn read_session(alloc: Global, text: &str) -> Result<Session, SessionFault>
    ensures meaning { AnswersMeaning (seen (plan_of ⟦<Handler as Stage>⟧.meaning ⟦<MemoryTransport as Transport>⟧.state) result) (session_of text.now) }
    ensures uncalled { IfOk result (λ session. All (λ c. IsUncalled (⟦<MemoryTransport as Transport>⟧.state c.transport)) session.world.channels) }
    ensures within { IfOk result (λ session. IsWithinLimits (plan_of ⟦<Handler as Stage>⟧.meaning ⟦<MemoryTransport as Transport>⟧.state session)) }

    // Here `Memory` is no answer.
    ensures too_long { MAX_SESSION_TEXT < length text.now → result ≡ Err Limit }
{
    if text.len() > MAX_SESSION_TEXT {
        return Err(SessionFault::Limit);
    }
    let value = match Value::from_str(alloc, text) {
        Ok(value) => value,
        Err(error) if error.is_memory() => return Err(SessionFault::Memory),
        Err(_) => return Err(SessionFault::NotJson),
    };
    let outline = outline_in(alloc, value)?;
    Ok(session_built(alloc, outline)?)
}
