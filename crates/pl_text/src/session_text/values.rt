//! Reads one value of JSON, a member of an object, or an array.

ghost use Rattle.std.specs.Prelude.{◌≡◌, option_map, map, IfOk, ◌≤◌};
ghost use Rattle.serde_json.specs.View.{view};
ghost use Rattle.serde_json.specs.Find.{get};
ghost use Rattle.pl_text.specs.declared.faults.SessionFault.TheVariants.{Missing};
ghost use Rattle.pl_text.specs.SessionMembers.{except};
ghost use Rattle.pl_text.specs.SessionReading.{AnswersMeaning, known, seen, whole, whole_in, text, an_object, present, optional, elements_of, each, array_in, array_of};

use crate::faults::SessionFault;
use crate::session_text::names::Name;
use crate::session_text::version::Version;
use pl_event::Sequence;
use serde_json::Value;
use std::alloc::{AllocError, Global};

/// What a value of JSON is read as. `meaning` says which value that is in a version, or its first fault in reading order.
pub(crate) trait FromData {
    ghost use Rattle.std.specs.Prelude.{Result};
    ghost use Rattle.serde_json.specs.Data.{Data};
    ghost use Rattle.pl_text.specs.declared.faults.SessionFault.{SessionFault};
    ghost use Rattle.pl_text.specs.declared.session_text.version.Version.{Version};

    /// What is kept of it.
    type Read: Drop;

    ghost meaning: { Version → Data → Result Self.Read SessionFault };

    /// Reads the value. An `Err` is its first fault, or `Memory`.
    fn from_data(alloc: Global, version: Version, value: Value) -> Result<Self::Read, SessionFault>
        ensures { AnswersMeaning result (meaning version (view value)) };
}

/// A whole number.
pub(crate) fn whole(value: &Value) -> Result<u64, SessionFault>
    ensures { result ≡ whole (view value.now) }
{
    value.as_u64().ok_or(SessionFault::Kind)
}

/// A whole number in a range.
#[tactic(auto, unfolding(crate::specs::SessionReading::whole_in))]
pub(crate) fn whole_in(low: u64, high: u64, value: &Value) -> Result<u64, SessionFault>
    ensures value { result ≡ whole_in low high (view value.now) }
    ensures at_least { IfOk result (λ n. low ≤ n) }
    ensures at_most { IfOk result (λ n. n ≤ high) }
{
    let number = whole(value)?;
    if low <= number && number <= high {
        Ok(number)
    } else {
        Err(SessionFault::Limit)
    }
}

/// A text.
#[tactic(auto, unfolding(crate::specs::SessionReading::text))]
pub(crate) fn text(value: &Value) -> Result<&str, SessionFault>
    ensures { seen (λ s. s.now) result ≡ text (view value.now) }
{
    value.as_str().ok_or(SessionFault::Kind)
}

/// An object.
#[tactic(auto, unfolding(crate::specs::SessionReading::an_object))]
pub(crate) fn an_object(value: Value) -> Result<Value, SessionFault>
    ensures { seen view result ≡ an_object (view value) }
{
    match value {
        Value::Object(_) => Ok(value),
        _ => Err(SessionFault::Kind),
    }
}

/// A member that has to be there.
pub(crate) fn required<'v>(object: &'v Value, name: &str) -> Result<&'v Value, SessionFault>
    ensures { seen (λ v. view v.now) result ≡ known Missing (get name.now (view object.now)) }
{
    object.get(name).ok_or(SessionFault::Missing)
}

/// A member that may be absent. `null` counts as absent.
#[tactic(auto, unfolding(crate::specs::SessionReading::present))]
pub(crate) fn present<'v>(object: &'v Value, name: &str) -> Option<&'v Value>
    ensures { option_map (λ v. view v.now) result ≡ present name.now (view object.now) }
{
    match object.get(name) {
        Some(Value::Null) | None => None,
        Some(value) => Some(value),
    }
}

/// Takes a member out of an object.
pub(crate) fn taken(object: &mut Value, name: &str) -> Option<Value>
    ensures value { option_map view result ≡ get name.now (view object.old) }
    ensures others { view object.new ≡ except name.now (view object.old) }
{
    object.as_object_mut()?.remove(name)
}

/// A name.
pub(crate) fn name_in(alloc: Global, value: &Value) -> Result<Name, SessionFault>
    ensures { AnswersMeaning result (text (view value.now)) }
{
    Ok(Name::new(alloc, text(value)?)?)
}

/// A name of which there may be none.
pub(crate) fn optional_name(
    alloc: Global,
    object: &Value,
    name: &str,
) -> Result<Option<Name>, SessionFault>
    ensures { AnswersMeaning result (optional name.now text (view object.now)) }
{
    match present(object, name) {
        Some(value) => Ok(Some(name_in(alloc, value)?)),
        None => Ok(None),
    }
}

/// The elements of an array.
#[tactic(auto, unfolding(crate::specs::SessionReading::elements_of))]
fn elements_of(value: Value) -> Result<Vec<Value>, SessionFault>
    ensures { seen (λ vs. map view vs.items) result ≡ elements_of (view value) }
{
    match value {
        Value::Array(values) => Ok(values),
        _ => Err(SessionFault::Kind),
    }
}

/// Reads each element wholly before the next.
fn each<T: FromData>(
    alloc: Global,
    version: Version,
    values: Vec<Value>,
) -> Result<Sequence<T::Read>, SessionFault>
    ensures { AnswersMeaning result (each (T.meaning version) (map view values.items)) }
{
    let mut read = Vec::with_capacity(alloc, values.len())?;
    for value in values {
        read.push(T::from_data(alloc, version, value)?)
            .map_err(AllocError::from)?;
    }
    Ok(Sequence::from_vec(read))
}

/// An array of at most so many elements: its length first, then these.
pub(crate) fn array_in<T: FromData>(
    alloc: Global,
    version: Version,
    most: usize,
    value: Value,
) -> Result<Sequence<T::Read>, SessionFault>
    ensures { AnswersMeaning result (array_in most (T.meaning version) (view value)) }
{
    let values = elements_of(value)?;
    if most < values.len() {
        return Err(SessionFault::Limit);
    }
    each::<T>(alloc, version, values)
}

/// An array of any length.
impl<T: FromData> FromData for Sequence<T> {
    type Read = Sequence<T::Read>;

    ghost meaning = { λ version. array_of (T.meaning version) };

    fn from_data(
        alloc: Global,
        version: Version,
        value: Value,
    ) -> Result<Sequence<T::Read>, SessionFault> {
        each::<T>(alloc, version, elements_of(value)?)
    }
}
