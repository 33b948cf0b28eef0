//! The edits of a pipeline, as far as names go.

use serde_json::Value;
use std::alloc::AllocError;

/// Whether a handler takes what comes in, what goes out, or is the turn.
#[derive(Clone, Copy, Debug, PartialEq, Eq)]
pub(crate) enum Way {
    In,
    Turn,
    Out,
}

/// A handler, by the edit that added it.
#[derive(Clone, Copy)]
pub(crate) struct NamedHandler<'v> {
    pub(crate) name: &'v str,
    pub(crate) group: Option<&'v str>,
    pub(crate) way: Way,
    /// The edit's index.
    pub(crate) edit: usize,
}

/// The text of a member, empty where it has none.
pub(crate) fn text_in<'v>(object: &'v Value, name: &str) -> &'v str {
    object.get(name).and_then(Value::as_str).unwrap_or("")
}

/// Makes an edit. One that names no handler puts its own last.
pub(crate) fn make_edit<'v>(
    handlers: &mut Vec<NamedHandler<'v>>,
    index: usize,
    edit: &'v Value,
) -> Result<(), AllocError> {
    let name = text_in(edit, "name");
    let added = NamedHandler {
        name,
        group: edit.get("group").and_then(Value::as_str),
        way: way_of(text_in(edit, "kind")),
        edit: index,
    };
    let at = place_of(handlers.as_slice(), text_in(edit, "at"));
    match text_in(edit, "op") {
        "first" => insert(handlers, 0, added),
        "before" => insert(handlers, at, added),
        "after" => insert(handlers, at.saturating_add(1), added),
        "remove" => {
            handlers.retain(|handler| handler.name != name);
            Ok(())
        }
        _ => insert(handlers, usize::MAX, added),
    }
}

/// Puts a handler at a place, or last where there is no such place.
fn insert<'v>(
    handlers: &mut Vec<NamedHandler<'v>>,
    place: usize,
    added: NamedHandler<'v>,
) -> Result<(), AllocError> {
    let place = place.min(handlers.len());
    handlers.insert(place, added)?;
    Ok(())
}

/// Where the handler of a name stands, and past the end where none has it.
pub(crate) fn place_of(handlers: &[NamedHandler<'_>], name: &str) -> usize {
    for (place, handler) in handlers.iter().enumerate() {
        if handler.name == name {
            return place;
        }
    }
    handlers.len()
}

/// The way of a kind.
fn way_of(kind: &str) -> Way {
    match kind {
        "service" => Way::Turn,
        "encode" | "lineend" | "prepend" | "flush_every" => Way::Out,
        _ => Way::In,
    }
}
