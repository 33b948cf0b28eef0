//! The names of what hops enter: a pipeline that is placed has forgotten those of its handlers.

use crate::edits::{NamedHandler, Way, make_edit};
use crate::shown::shown;
use pl_event::Lane;
use serde_json::Value;
use std::alloc::{AllocError, Global};

/// By channel and hop, the names of handlers, `tail` and `head`, as a line of text shows them.
#[derive(Debug, Drop)]
pub(crate) struct Names {
    channels: Vec<Vec<String>>,
}

impl Names {
    /// Those of a session that was read.
    pub(crate) fn new(alloc: Global, session: &Value) -> Result<Names, AllocError> {
        let mut channels = Vec::new(alloc);
        for channel in elements(session, "channels") {
            channels.push(hop_names(alloc, channel)?)?;
        }
        Ok(Names { channels })
    }

    /// How many channels there are.
    pub(crate) fn channels(&self) -> u16 {
        u16::try_from(self.channels.len()).unwrap_or(u16::MAX)
    }

    /// The name of what a lane enters.
    pub(crate) fn of(&self, lane: Lane) -> &str {
        match self.of_channel(lane.channel).get(lane.hop as usize) {
            Some(name) => name.as_str(),
            None => "?",
        }
    }

    /// The names of a channel, by hop.
    pub(crate) fn of_channel(&self, channel: u16) -> &[String] {
        match self.channels.get(channel as usize) {
            Some(names) => names.as_slice(),
            None => &[],
        }
    }
}

/// The elements of a member that is an array, and none where it is not.
pub(crate) fn elements<'v>(object: &'v Value, name: &str) -> &'v [Value] {
    match object.get(name).and_then(Value::as_array) {
        Some(values) => values.as_slice(),
        None => &[],
    }
}

/// What the hops of a channel enter.
fn hop_names(alloc: Global, channel: &Value) -> Result<Vec<String>, AllocError> {
    let mut handlers = Vec::new(alloc);
    for (index, edit) in elements(channel, "handlers").iter().enumerate() {
        make_edit(&mut handlers, index, edit)?;
    }
    names_by_hop(alloc, handlers.as_slice())
}

/// The names by hop: the inbound handlers, the tail, the outbound handlers in front of the turn from the nearest on, and the
/// head.
fn names_by_hop(alloc: Global, handlers: &[NamedHandler<'_>]) -> Result<Vec<String>, AllocError> {
    let mut names = Vec::new(alloc);
    for handler in handlers {
        if handler.way != Way::Out {
            names.push(shown(alloc, handler.name)?)?;
        }
    }
    names.push(shown(alloc, "tail")?)?;
    let mut is_in_front = false;
    for handler in handlers.iter().rev() {
        match handler.way {
            Way::Turn => is_in_front = true,
            Way::Out if is_in_front => names.push(shown(alloc, handler.name)?)?,
            Way::In | Way::Out => {}
        }
    }
    names.push(shown(alloc, "head")?)?;
    Ok(names)
}
