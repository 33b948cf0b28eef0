//! A session is checked here: whether it is read, and else where it is refused; and what in it is likely a mistake.

ghost use Rattle.std.specs.Prelude.{IfOk};
ghost use Rattle.pl_world.specs.Sessions.{plan_of};
ghost use Rattle.pl_text.specs.SessionReading.{AnswersMeaning, seen};
ghost use Rattle.pl_text.specs.SessionTexts.{session_of};

mod circles;
mod members;
mod pipelines;
mod unnamed;
mod walk;

use circles::circle;
use pl_event::Stage;
use pl_head::{MemoryTransport, Transport};
use pl_stages::Handler;
use pl_text::{MAX_SESSION_TEXT, SessionFault, read_session};
use pl_world::Session;
use serde_json::Value;
use std::alloc::{AllocError, Global};
use unnamed::add_unnamed;
use walk::Walk;

/// What a check has found.
#[derive(Drop)]
pub struct Checked {
    /// What the text is read as, or its first fault.
    pub session: Result<Session, SessionFault>,
    /// Where that fault is, and what stands there, as `channels[0].handlers[2].kind: "line_end"`.
    pub place: Option<String>,
    /// Members that no table names, and a circle of executors.
    pub warnings: Vec<String>,
}

/// Checks the text of a session. Its answer is that of `read_session`: the session that the text means, or its first fault in
/// reading order, or `Memory`.
pub fn check(alloc: Global, text: &str) -> Result<Checked, AllocError>
    ensures { IfOk result (λ checked. AnswersMeaning (seen (plan_of ⟦<Handler as Stage>⟧.meaning ⟦<MemoryTransport as Transport>⟧.state) checked.session) (session_of text.now)) }
{
    let session = read_session(alloc, text);
    let (place, warnings) = remarks(alloc, text, &session)?;
    Ok(Checked {
        session,
        place,
        warnings,
    })
}

/// The place of its fault, and the warnings.
fn remarks(
    alloc: Global,
    text: &str,
    session: &Result<Session, SessionFault>,
) -> Result<(Option<String>, Vec<String>), AllocError> {
    let Some(top) = parsed(alloc, text)? else {
        return Ok((None, Vec::new(alloc)));
    };
    let place = place_in(alloc, &top, session)?;
    Ok((place, warnings_of(alloc, &top, session)?))
}

/// The JSON of a session text: None where it is too long to be looked at, or no JSON.
pub(crate) fn parsed(alloc: Global, text: &str) -> Result<Option<Value>, AllocError> {
    if MAX_SESSION_TEXT < text.len() {
        return Ok(None);
    }
    match Value::from_str(alloc, text) {
        Ok(top) => Ok(Some(top)),
        Err(error) if error.is_memory() => Err(AllocError),
        Err(_) => Ok(None),
    }
}

/// Where a session that was refused has its fault. None where it was read.
fn place_in(
    alloc: Global,
    top: &Value,
    session: &Result<Session, SessionFault>,
) -> Result<Option<String>, AllocError> {
    match session {
        Ok(_) => Ok(None),
        Err(fault) => place_of(alloc, top, *fault),
    }
}

/// Where the walk through a session that was refused finds its fault, and what stands there.
pub(crate) fn place_of(
    alloc: Global,
    top: &Value,
    fault: SessionFault,
) -> Result<Option<String>, AllocError> {
    let mut walk = Walk::new(alloc, top);
    match walk.through(alloc) {
        Err(found) if found == fault => Ok(Some(walk.place(alloc)?)),
        _ => Ok(None),
    }
}

/// What in a session is likely a mistake.
fn warnings_of(
    alloc: Global,
    top: &Value,
    session: &Result<Session, SessionFault>,
) -> Result<Vec<String>, AllocError> {
    let mut warnings = Vec::new(alloc);
    add_unnamed(alloc, &mut warnings, top)?;
    if let Ok(session) = session {
        if let Some(warning) = circle(alloc, session, top)? {
            warnings.push(warning)?;
        }
    }
    Ok(warnings)
}
