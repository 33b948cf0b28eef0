//! The way to a value in a session text.

use crate::shown::beginning;
use pl_text::SessionFault;
use serde_json::Value;
use std::alloc::{AllocError, Global};
use std::fmt::Write as _;

/// A step on the way to a value.
#[derive(Clone, Copy, Debug, PartialEq, Eq)]
enum Segment {
    Member(&'static str),
    Index(usize),
}

/// A walk through the values of a session text. Where a value is refused, it stands there.
#[derive(Drop)]
pub(super) struct Walk<'v> {
    top: &'v Value,
    steps: Vec<(Segment, Option<&'v Value>)>,
}

impl<'v> Walk<'v> {
    /// At the top.
    pub(super) fn new(alloc: Global, top: &'v Value) -> Self {
        Walk {
            top,
            steps: Vec::new(alloc),
        }
    }

    /// Goes through a session in the order of its reading, to its first fault, and stays there.
    pub(super) fn through(&mut self, alloc: Global) -> Result<(), SessionFault> {
        let top = self.top;
        self.session(top)?;
        self.pipelines(alloc, top)
    }

    /// Goes to an element.
    pub(super) fn enter(&mut self, index: usize, value: &'v Value) -> Result<(), SessionFault> {
        self.steps
            .push((Segment::Index(index), Some(value)))
            .map_err(AllocError::from)?;
        Ok(())
    }

    /// Goes to a member, which may be absent.
    pub(super) fn enter_member(
        &mut self,
        object: &'v Value,
        name: &'static str,
    ) -> Result<Option<&'v Value>, SessionFault> {
        let value = object.get(name);
        self.steps
            .push((Segment::Member(name), value))
            .map_err(AllocError::from)?;
        Ok(value)
    }

    /// Goes back.
    pub(super) fn leave(&mut self) {
        let _ = self.steps.pop();
    }

    /// Goes to a member that has to be there.
    pub(super) fn member(
        &mut self,
        object: &'v Value,
        name: &'static str,
    ) -> Result<&'v Value, SessionFault> {
        self.enter_member(object, name)?
            .ok_or(SessionFault::Missing)
    }

    /// Goes to a member that may be absent, or `null`, which counts as absent.
    pub(super) fn present(
        &mut self,
        object: &'v Value,
        name: &'static str,
    ) -> Result<Option<&'v Value>, SessionFault> {
        match self.enter_member(object, name)? {
            None | Some(Value::Null) => Ok(None),
            Some(value) => Ok(Some(value)),
        }
    }

    /// Looks at a member that is a whole number in a range.
    pub(super) fn whole(
        &mut self,
        object: &'v Value,
        name: &'static str,
        low: u64,
        high: u64,
    ) -> Result<u64, SessionFault> {
        let number = whole_in(self.member(object, name)?, low, high)?;
        self.leave();
        Ok(number)
    }

    /// Looks at a member that may be absent, and else is a whole number in a range.
    pub(super) fn whole_if_present(
        &mut self,
        object: &'v Value,
        name: &'static str,
        low: u64,
        high: u64,
    ) -> Result<(), SessionFault> {
        if let Some(value) = self.present(object, name)? {
            whole_in(value, low, high)?;
        }
        self.leave();
        Ok(())
    }

    /// Looks at a member that is a text.
    pub(super) fn text(
        &mut self,
        object: &'v Value,
        name: &'static str,
    ) -> Result<&'v str, SessionFault> {
        let value = self.member(object, name)?;
        let text = value.as_str().ok_or(SessionFault::Kind)?;
        self.leave();
        Ok(text)
    }

    /// Goes to a member that is an array of at most so many elements.
    pub(super) fn array(
        &mut self,
        object: &'v Value,
        name: &'static str,
        most: usize,
    ) -> Result<&'v [Value], SessionFault> {
        let values = elements_of(self.member(object, name)?)?;
        if most < values.len() {
            return Err(SessionFault::Limit);
        }
        Ok(values)
    }

    /// Where it stands, as `channels[1].handlers[3].at: "x"`.
    pub(super) fn place(&self, alloc: Global) -> Result<String, AllocError> {
        let mut text = String::new(alloc);
        for (segment, _) in self.steps.as_slice() {
            match segment {
                Segment::Index(index) => write!(text, "[{index}]")?,
                Segment::Member(name) => {
                    if !text.is_empty() {
                        text.push('.')?;
                    }
                    text.push_str(name)?;
                }
            }
        }
        match self.steps.as_slice().last() {
            Some((_, value)) => {
                text.push_str(": ")?;
                add_value(alloc, &mut text, *value)?;
            }
            None => {
                text.push_str("top value: ")?;
                add_value(alloc, &mut text, Some(self.top))?;
            }
        }
        Ok(text)
    }
}

/// Adds a value as JSON, or the beginning of it.
pub(super) fn add_value(
    alloc: Global,
    text: &mut String,
    value: Option<&Value>,
) -> Result<(), AllocError> {
    let Some(value) = value else {
        return text.push_str("absent");
    };
    let json = value.to_string(alloc)?;
    let shown = beginning(alloc, json.as_str())?;
    text.push_str(shown.as_str())
}

/// A whole number in a range.
pub(super) fn whole_in(value: &Value, low: u64, high: u64) -> Result<u64, SessionFault> {
    let number = value.as_u64().ok_or(SessionFault::Kind)?;
    if low <= number && number <= high {
        Ok(number)
    } else {
        Err(SessionFault::Limit)
    }
}

/// The elements of an array.
pub(super) fn elements_of(value: &Value) -> Result<&[Value], SessionFault> {
    match value.as_array() {
        Some(values) => Ok(values.as_slice()),
        None => Err(SessionFault::Kind),
    }
}

/// An object.
pub(super) fn an_object(value: &Value) -> Result<(), SessionFault> {
    if value.is_object() {
        Ok(())
    } else {
        Err(SessionFault::Kind)
    }
}
