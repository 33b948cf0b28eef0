//! The members of a session text that no table names (`docs/FORMATS.md`, "Session").

use super::walk::add_value;
use crate::names::elements;
use crate::shown::beginning;
use serde_json::Value;
use std::alloc::{AllocError, Global};

/// The members of each table.
const TOP: &[&str] = &["version", "capacity", "loops", "groups", "channels"];

const GROUP: &[&str] = &["name", "size"];

const CHANNEL: &[&str] = &[
    "handlers",
    "low",
    "high",
    "window",
    "fail_at",
    "bursts",
    "abort_after",
];

const EDIT: &[&str] = &["op", "name", "at", "kind", "width", "max", "n", "group"];

const USER_EVENT: &[&str] = &["user"];

/// How many are told of at most.
const MAX_TOLD: usize = 100;

/// Adds a line for each member that no table names.
pub(super) fn add_unnamed(
    alloc: Global,
    lines: &mut Vec<String>,
    top: &Value,
) -> Result<(), AllocError> {
    in_object(alloc, lines, top, TOP, "")?;
    for (index, group) in elements(top, "groups").iter().enumerate() {
        let path = format!(in alloc; "groups[{index}].")?;
        in_object(alloc, lines, group, GROUP, path.as_str())?;
    }
    for (index, channel) in elements(top, "channels").iter().enumerate() {
        let path = format!(in alloc; "channels[{index}].")?;
        in_object(alloc, lines, channel, CHANNEL, path.as_str())?;
        in_channel(alloc, lines, channel, path.as_str())?;
    }
    Ok(())
}

/// Those of a channel's edits and user events.
fn in_channel(
    alloc: Global,
    lines: &mut Vec<String>,
    channel: &Value,
    path: &str,
) -> Result<(), AllocError> {
    for (index, edit) in elements(channel, "handlers").iter().enumerate() {
        let path = format!(in alloc; "{path}handlers[{index}].")?;
        in_object(alloc, lines, edit, EDIT, path.as_str())?;
    }
    for (index, burst) in elements(channel, "bursts").iter().enumerate() {
        let Some(burst) = burst.as_array() else {
            continue;
        };
        for (at, element) in burst.as_slice().iter().enumerate() {
            if element.is_object() {
                let path = format!(in alloc; "{path}bursts[{index}][{at}].")?;
                in_object(alloc, lines, element, USER_EVENT, path.as_str())?;
            }
        }
    }
    Ok(())
}

/// Adds those of one object.
fn in_object(
    alloc: Global,
    lines: &mut Vec<String>,
    object: &Value,
    names: &[&str],
    path: &str,
) -> Result<(), AllocError> {
    let Some(members) = object.as_object() else {
        return Ok(());
    };
    for (name, value) in members.iter() {
        let is_named = names.iter().any(|known| *known == name.as_str());
        if !is_named && lines.len() < MAX_TOLD {
            let name = beginning(alloc, name.as_str())?;
            let mut line = format!(in alloc; "{path}{name}: ")?;
            add_value(alloc, &mut line, Some(value))?;
            line.push_str(": no table names this member")?;
            lines.push(line)?;
        }
    }
    Ok(())
}
