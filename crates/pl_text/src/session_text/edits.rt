//! Reads the members of an edit.

ghost use Rattle.std.specs.Prelude.{◌≡◌};
ghost use Rattle.serde_json.specs.View.{view};
ghost use Rattle.pl_text.specs.SessionReading.{AnswersMeaning};
ghost use Rattle.pl_text.specs.SessionChannels.{operation_in, width_in, handler_in, addition_in, edit_of, edit_in};

use crate::faults::SessionFault;
use crate::session_text::names::Name;
use crate::session_text::outline::{Addition, Edit, HandlerKind, Operation};
use crate::session_text::values::{
    FromData, an_object, name_in, optional_name, required, text, whole, whole_in,
};
use crate::session_text::version::Version;
use pl_stages::{MAX_FLUSHES, MAX_FRAME, MAX_LINE};
use serde_json::Value;
use std::alloc::Global;

impl FromData for Edit {
    type Read = Edit;

    ghost meaning = { edit_in };

    #[tactic(auto, unfolding(crate::specs::SessionChannels::edit_in))]
    fn from_data(alloc: Global, version: Version, value: Value) -> Result<Edit, SessionFault> {
        let edit = an_object(value)?;
        let operation = operation_in(required(&edit, "op")?)?;
        let name = name_in(alloc, required(&edit, "name")?)?;
        edit_of(alloc, version, operation, name, &edit)
    }
}

/// The operation of this name.
#[tactic(auto, unfolding(crate::specs::SessionChannels::operation_in))]
fn operation_in(value: &Value) -> Result<Operation, SessionFault>
    ensures { result ≡ operation_in (view value.now) }
{
    match text(value)? {
        "first" => Ok(Operation::First),
        "last" => Ok(Operation::Last),
        "before" => Ok(Operation::Before),
        "after" => Ok(Operation::After),
        "remove" => Ok(Operation::Remove),
        _ => Err(SessionFault::Kind),
    }
}

/// The edit of an operation, with the members that only this operation has.
#[tactic(auto, unfolding(crate::specs::SessionChannels::edit_of))]
fn edit_of(
    alloc: Global,
    version: Version,
    operation: Operation,
    name: Name,
    edit: &Value,
) -> Result<Edit, SessionFault>
    ensures { AnswersMeaning result (edit_of version operation name (view edit.now)) }
{
    match operation {
        Operation::First => Ok(Edit::First(addition_in(alloc, version, name, edit)?)),
        Operation::Last => Ok(Edit::Last(addition_in(alloc, version, name, edit)?)),
        Operation::Before => {
            let at = name_in(alloc, required(edit, "at")?)?;
            Ok(Edit::Before(at, addition_in(alloc, version, name, edit)?))
        }
        Operation::After => {
            let at = name_in(alloc, required(edit, "at")?)?;
            Ok(Edit::After(at, addition_in(alloc, version, name, edit)?))
        }
        Operation::Remove => Ok(Edit::Remove(name)),
    }
}

/// The handler of this name that an edit adds.
#[tactic(auto, unfolding(crate::specs::SessionChannels::addition_in))]
fn addition_in(
    alloc: Global,
    version: Version,
    name: Name,
    edit: &Value,
) -> Result<Addition, SessionFault>
    ensures { AnswersMeaning result (addition_in version name (view edit.now)) }
{
    let handler = handler_in(version, edit)?;
    let group = optional_name(alloc, edit, "group")?;
    Ok(Addition {
        name,
        handler,
        group,
    })
}

/// The handler of an edit: its kind, and the members that only this kind has.
#[tactic(auto, unfolding(crate::specs::SessionChannels::handler_in))]
fn handler_in(version: Version, edit: &Value) -> Result<HandlerKind, SessionFault>
    ensures { result ≡ handler_in version (view edit.now) }
{
    match text(required(edit, "kind")?)? {
        "lines" => {
            let max = whole_in(1, MAX_LINE as u64, required(edit, "max")?)?;
            Ok(HandlerKind::Lines { max: max as usize })
        }
        "decode" => Ok(HandlerKind::Decode),
        "lineend" => Ok(HandlerKind::LineEnd),
        "encode" => Ok(HandlerKind::Encode),
        "service" => Ok(HandlerKind::Service),
        "flush_every" => {
            let n = whole_in(1, MAX_FLUSHES as u64, required(edit, "n")?)?;
            Ok(HandlerKind::FlushEvery { n: n as usize })
        }
        "length" if version.knows_length_fields() => {
            let width = width_in(required(edit, "width")?)?;
            let max = whole_in(1, MAX_FRAME as u64, required(edit, "max")?)?;
            Ok(HandlerKind::Length {
                width,
                max: max as usize,
            })
        }
        "prepend" if version.knows_length_fields() => {
            let width = width_in(required(edit, "width")?)?;
            Ok(HandlerKind::Prepend { width })
        }
        _ => Err(SessionFault::Kind),
    }
}

/// How many bytes a length field has.
#[tactic(auto, unfolding(crate::specs::SessionChannels::width_in))]
fn width_in(value: &Value) -> Result<usize, SessionFault>
    ensures { result ≡ width_in (view value.now) }
{
    let width = whole(value)?;
    if width == 2 || width == 4 {
        Ok(width as usize)
    } else {
        Err(SessionFault::Limit)
    }
}
