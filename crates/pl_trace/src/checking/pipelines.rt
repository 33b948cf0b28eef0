//! Walks through the groups and pipelines of a session whose members were read, in the order in which they are made, to the
//! first that is refused (`docs/FORMATS.md`, "Pipelines").

use super::walk::Walk;
use crate::edits::{NamedHandler, Way, make_edit, place_of, text_in};
use crate::names::elements;
use pl_build::{
    BuildFault, DEFAULT_HIGH, DEFAULT_LOW, MAX_EXECUTORS, MAX_HANDLERS, MAX_NAME_LENGTH,
};
use pl_text::SessionFault;
use serde_json::Value;
use std::alloc::Global;

impl<'v> Walk<'v> {
    /// The groups, and then the pipeline of each channel.
    pub(super) fn pipelines(&mut self, alloc: Global, top: &'v Value) -> Result<(), SessionFault> {
        let groups = elements(top, "groups");
        self.enter_member(top, "groups")?;
        self.group_sizes(
            groups,
            top.get("loops").and_then(Value::as_u64).unwrap_or(0),
        )?;
        self.group_names(groups)?;
        self.leave();
        self.enter_member(top, "channels")?;
        for (index, channel) in elements(top, "channels").iter().enumerate() {
            self.enter(index, channel)?;
            self.pipeline(alloc, channel, groups)?;
            self.leave();
        }
        self.leave();
        Ok(())
    }

    /// The name of each group has a length within the limits, and so have all of them executors.
    fn group_sizes(&mut self, groups: &'v [Value], loops: u64) -> Result<(), SessionFault> {
        let mut executors = loops;
        for (index, group) in groups.iter().enumerate() {
            self.enter(index, group)?;
            self.enter_member(group, "name")?;
            within(text_in(group, "name"))?;
            self.leave();
            self.enter_member(group, "size")?;
            let size = group.get("size").and_then(Value::as_u64).unwrap_or(0);
            executors = executors.saturating_add(size);
            if size == 0 || u64::from(MAX_EXECUTORS) < executors {
                return Err(refused(BuildFault::Limit));
            }
            self.leave();
            self.leave();
        }
        Ok(())
    }

    /// No two groups have one name.
    fn group_names(&mut self, groups: &'v [Value]) -> Result<(), SessionFault> {
        for (index, group) in groups.iter().enumerate() {
            self.enter(index, group)?;
            self.enter_member(group, "name")?;
            for other in groups.iter().take(index) {
                if text_in(other, "name") == text_in(group, "name") {
                    return Err(refused(BuildFault::DuplicateName));
                }
            }
            self.leave();
            self.leave();
        }
        Ok(())
    }

    /// The edits of a channel, its marks, and its building.
    fn pipeline(
        &mut self,
        alloc: Global,
        channel: &'v Value,
        groups: &'v [Value],
    ) -> Result<(), SessionFault> {
        let mut handlers = Vec::new(alloc);
        let edits = elements(channel, "handlers");
        self.enter_member(channel, "handlers")?;
        for (index, edit) in edits.iter().enumerate() {
            self.enter(index, edit)?;
            self.edit_made(handlers.as_slice(), edit)?;
            make_edit(&mut handlers, index, edit)?;
            self.leave();
        }
        self.leave();
        let low = mark_in(channel, "low", DEFAULT_LOW);
        let high = mark_in(channel, "high", DEFAULT_HIGH);
        if high < low {
            self.enter_member(channel, "low")?;
            return Err(refused(BuildFault::Marks));
        }
        self.enter_member(channel, "handlers")?;
        self.group_of_each(edits, handlers.as_slice(), groups)?;
        self.turn(edits, handlers.as_slice())?;
        self.leave();
        Ok(())
    }

    /// An edit of these handlers is made.
    fn edit_made(
        &mut self,
        handlers: &[NamedHandler<'v>],
        edit: &'v Value,
    ) -> Result<(), SessionFault> {
        let op = text_in(edit, "op");
        let name = text_in(edit, "name");
        self.enter_member(edit, "name")?;
        let is_there = place_of(handlers, name) < handlers.len();
        if op == "remove" {
            if !is_there {
                return Err(refused(BuildFault::NoSuchName));
            }
            self.leave();
            return Ok(());
        }
        within(name)?;
        if MAX_HANDLERS <= handlers.len() {
            return Err(refused(BuildFault::Limit));
        }
        if is_there {
            return Err(refused(BuildFault::DuplicateName));
        }
        self.leave();
        let is_beside = op == "before" || op == "after";
        if is_beside && handlers.len() <= place_of(handlers, text_in(edit, "at")) {
            self.enter_member(edit, "at")?;
            return Err(refused(BuildFault::NoSuchName));
        }
        Ok(())
    }

    /// The group of each handler is there.
    fn group_of_each(
        &mut self,
        edits: &'v [Value],
        handlers: &[NamedHandler<'v>],
        groups: &'v [Value],
    ) -> Result<(), SessionFault> {
        for handler in handlers {
            if let (Some(name), Some(edit)) = (handler.group, edits.get(handler.edit)) {
                if !groups.iter().any(|group| text_in(group, "name") == name) {
                    self.enter(handler.edit, edit)?;
                    self.enter_member(edit, "group")?;
                    return Err(refused(BuildFault::NoSuchGroup));
                }
            }
        }
        Ok(())
    }

    /// There is just one turn.
    fn turn(
        &mut self,
        edits: &'v [Value],
        handlers: &[NamedHandler<'v>],
    ) -> Result<(), SessionFault> {
        let mut has_turn = false;
        for handler in handlers {
            if handler.way == Way::Turn {
                if has_turn {
                    if let Some(edit) = edits.get(handler.edit) {
                        self.enter(handler.edit, edit)?;
                    }
                    return Err(refused(BuildFault::TwoTurns));
                }
                has_turn = true;
            }
        }
        if has_turn {
            Ok(())
        } else {
            Err(refused(BuildFault::NoTurn))
        }
    }
}

/// A name has 1 to 64 bytes.
fn within(name: &str) -> Result<(), SessionFault> {
    if name.is_empty() || MAX_NAME_LENGTH < name.len() {
        return Err(refused(BuildFault::Limit));
    }
    Ok(())
}

/// A mark of a channel.
fn mark_in(channel: &Value, name: &str, default: u32) -> u64 {
    channel
        .get(name)
        .and_then(Value::as_u64)
        .unwrap_or(u64::from(default))
}

/// A build that is refused.
fn refused(fault: BuildFault) -> SessionFault {
    SessionFault::Build(fault)
}
