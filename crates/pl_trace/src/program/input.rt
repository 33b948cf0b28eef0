//! The input of the program: the text of a session.

use super::failure::{Failure, Refusal};
use crate::checking::{parsed, place_of};
use crate::names::Names;
use pl_text::{MAX_SESSION_TEXT, SessionFault, read_session};
use pl_world::Session;
use std::alloc::Global;
use std::io::Read;

/// How many bytes are read at most: one more than the text of a session may have shows that it is too long.
const MAX_INPUT: u64 = MAX_SESSION_TEXT as u64 + 1;

/// The text that is read to its end, or the fault of a session that is too long or no text.
pub(super) fn read_session_text<R: Read>(alloc: Global, reader: &mut R) -> Result<String, Refusal> {
    let mut input = Vec::new(alloc);
    if let Err(error) = reader.take(MAX_INPUT).read_to_end(&mut input) {
        return Err(Refusal::from(Failure::of_read(&error)));
    }
    if MAX_SESSION_TEXT < input.len() {
        return Err(Refusal::from(Failure::Session(SessionFault::Limit)));
    }
    match String::from_utf8(input) {
        Ok(text) => Ok(text),
        Err(_) => Err(Refusal::from(Failure::Session(SessionFault::NotJson))),
    }
}

/// The session that is read, and the names of its handlers.
pub(super) fn read_session_with_names<R: Read>(
    alloc: Global,
    reader: &mut R,
) -> Result<(Session, Names), Refusal> {
    let text = read_session_text(alloc, reader)?;
    let Some(top) = parsed(alloc, text.as_str())? else {
        return Err(Refusal::from(Failure::Session(SessionFault::NotJson)));
    };
    match read_session(alloc, text.as_str()) {
        Ok(session) => Ok((session, Names::new(alloc, &top)?)),
        Err(fault) => Err(Refusal {
            failure: Failure::from(fault),
            place: place_of(alloc, &top, fault)?,
        }),
    }
}
