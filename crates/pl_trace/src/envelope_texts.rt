//! How lanes and items are written.

use crate::names::Names;
use pl_event::{Envelope, Item, Kind, Lane};
use pl_text::add_event;
use std::io;
use std::io::Write as _;

/// Adds what a lane enters, as `0/decode`.
pub(crate) fn add_lane(text: &mut Vec<u8>, names: &Names, lane: Lane) -> io::Result<()> {
    write!(text, "{}/{}", lane.channel, names.of(lane))
}

/// Adds the number of an item, as `#3`, or `~3` on a lane of flags.
pub(crate) fn add_number(text: &mut Vec<u8>, envelope: &Envelope) -> io::Result<()> {
    let sign = match envelope.lane.kind {
        Kind::Data => '#',
        Kind::Flags => '~',
    };
    write!(text, "{sign}{}", envelope.number)
}

/// Adds an item with its number, as `#3 Read Line 50`: an event as a report has it.
pub(crate) fn add_item(text: &mut Vec<u8>, envelope: &Envelope) -> io::Result<()> {
    add_number(text, envelope)?;
    match &envelope.item {
        Item::Event(event) => {
            text.push(b' ')?;
            Ok(add_event(text, event)?)
        }
        Item::End => write!(text, " end"),
        Item::Fail(cause) => write!(text, " failure {cause:?}"),
        Item::Flag(true) => write!(text, " writable"),
        Item::Flag(false) => write!(text, " not writable"),
    }
}

/// Adds an item with what it enters, as `0/decode #3 Read Line 50`.
pub(crate) fn add_envelope(
    text: &mut Vec<u8>,
    names: &Names,
    envelope: &Envelope,
) -> io::Result<()> {
    add_lane(text, names, envelope.lane)?;
    text.push(b' ')?;
    add_item(text, envelope)
}
