//! Walks through the members of a session text in the order in which they are read, to the first that is refused
//! (`docs/FORMATS.md`, "Session").

use super::walk::{Walk, an_object, elements_of};
use pl_build::{MAX_EXECUTORS, MAX_MARK};
use pl_stages::{MAX_FLUSHES, MAX_FRAME, MAX_LINE};
use pl_text::{MAX_EDITS, MAX_FAIL_AT, MAX_GROUP_SIZE, MAX_USER_EVENT, MAX_WINDOW, SessionFault};
use pl_world::{MAX_BURSTS, MAX_BYTES, MAX_CAPACITY, MAX_CHANNELS, MAX_ELEMENTS};
use serde_json::Value;

/// What the bursts of a channel bring, so far.
#[derive(Debug, Default, Drop)]
struct Brought {
    elements: usize,
    bytes: usize,
}

impl<'v> Walk<'v> {
    /// The members of the top object.
    pub(super) fn session(&mut self, top: &'v Value) -> Result<(), SessionFault> {
        an_object(top)?;
        let version = self.one_of(top, "version", (1, 2), SessionFault::Version)?;
        self.whole(top, "capacity", 1, u64::from(MAX_CAPACITY))?;
        self.whole(top, "loops", 1, u64::from(MAX_EXECUTORS))?;
        self.groups(top)?;
        let channels = self.array(top, "channels", MAX_CHANNELS)?;
        for (index, channel) in channels.iter().enumerate() {
            self.enter(index, channel)?;
            self.channel(channel, version)?;
            self.leave();
        }
        self.leave();
        Ok(())
    }

    /// The groups.
    fn groups(&mut self, top: &'v Value) -> Result<(), SessionFault> {
        if let Some(groups) = self.present(top, "groups")? {
            for (index, group) in elements_of(groups)?.iter().enumerate() {
                self.enter(index, group)?;
                an_object(group)?;
                self.text(group, "name")?;
                self.whole(group, "size", 0, u64::from(MAX_GROUP_SIZE))?;
                self.leave();
            }
        }
        self.leave();
        Ok(())
    }

    /// The members of a channel.
    fn channel(&mut self, channel: &'v Value, version: u64) -> Result<(), SessionFault> {
        an_object(channel)?;
        let edits = self.array(channel, "handlers", MAX_EDITS)?;
        for (index, edit) in edits.iter().enumerate() {
            self.enter(index, edit)?;
            self.edit(edit, version)?;
            self.leave();
        }
        self.leave();
        self.whole_if_present(channel, "low", 0, u64::from(MAX_MARK))?;
        self.whole_if_present(channel, "high", 0, u64::from(MAX_MARK))?;
        self.whole_if_present(channel, "window", 1, u64::from(MAX_WINDOW))?;
        self.whole_if_present(channel, "fail_at", 1, u64::from(MAX_FAIL_AT))?;
        let count = self.bursts(channel, version)?;
        self.whole_if_present(channel, "abort_after", 0, count as u64)?;
        Ok(())
    }

    /// The members of an edit that it reads.
    fn edit(&mut self, edit: &'v Value, version: u64) -> Result<(), SessionFault> {
        an_object(edit)?;
        let op = self.member(edit, "op")?.as_str().ok_or(SessionFault::Kind)?;
        if !matches!(op, "first" | "last" | "before" | "after" | "remove") {
            return Err(SessionFault::Kind);
        }
        self.leave();
        self.text(edit, "name")?;
        if op == "remove" {
            return Ok(());
        }
        if matches!(op, "before" | "after") {
            self.text(edit, "at")?;
        }
        self.kind(edit, version)?;
        if let Some(group) = self.present(edit, "group")? {
            group.as_str().ok_or(SessionFault::Kind)?;
        }
        self.leave();
        Ok(())
    }

    /// The kind of an edit, and the members that only this kind has.
    fn kind(&mut self, edit: &'v Value, version: u64) -> Result<(), SessionFault> {
        let kind = self
            .member(edit, "kind")?
            .as_str()
            .ok_or(SessionFault::Kind)?;
        let is_new = matches!(kind, "length" | "prepend");
        let is_known = is_new
            || matches!(
                kind,
                "lines" | "decode" | "lineend" | "encode" | "service" | "flush_every"
            );
        if !is_known || is_new && version < 2 {
            return Err(SessionFault::Kind);
        }
        self.leave();
        if is_new {
            self.width(edit)?;
        }
        match kind {
            "lines" => self.whole(edit, "max", 1, MAX_LINE as u64)?,
            "length" => self.whole(edit, "max", 1, MAX_FRAME as u64)?,
            "flush_every" => self.whole(edit, "n", 1, MAX_FLUSHES as u64)?,
            _ => 0,
        };
        Ok(())
    }

    /// A member that is one of two numbers. Another number is this fault.
    fn one_of(
        &mut self,
        object: &'v Value,
        name: &'static str,
        allowed: (u64, u64),
        fault: SessionFault,
    ) -> Result<u64, SessionFault> {
        let member = self.member(object, name)?;
        let number = member.as_u64().ok_or(SessionFault::Kind)?;
        if number != allowed.0 && number != allowed.1 {
            return Err(fault);
        }
        self.leave();
        Ok(number)
    }

    /// The width of a length field.
    fn width(&mut self, edit: &'v Value) -> Result<(), SessionFault> {
        self.one_of(edit, "width", (2, 4), SessionFault::Limit)?;
        Ok(())
    }

    /// The bursts of a channel, and how many they are.
    fn bursts(&mut self, channel: &'v Value, version: u64) -> Result<usize, SessionFault> {
        let bursts = self.array(channel, "bursts", MAX_BURSTS)?;
        let mut brought = Brought::default();
        for (index, burst) in bursts.iter().enumerate() {
            self.enter(index, burst)?;
            self.burst(burst, version, &mut brought)?;
            self.leave();
        }
        if MAX_ELEMENTS < brought.elements || MAX_BYTES < brought.bytes {
            return Err(SessionFault::Limit);
        }
        self.leave();
        Ok(bursts.len())
    }

    /// The elements of a burst.
    fn burst(
        &mut self,
        burst: &'v Value,
        version: u64,
        brought: &mut Brought,
    ) -> Result<(), SessionFault> {
        for (index, element) in elements_of(burst)?.iter().enumerate() {
            self.enter(index, element)?;
            let size = self.element(element, version)?;
            brought.elements = brought.elements.saturating_add(1);
            brought.bytes = brought.bytes.saturating_add(size);
            self.leave();
        }
        Ok(())
    }

    /// An element of a burst, and how many bytes it brings.
    fn element(&mut self, element: &'v Value, version: u64) -> Result<usize, SessionFault> {
        if version == 2 && element.is_object() {
            self.whole(element, "user", 0, u64::from(MAX_USER_EVENT))?;
            return Ok(0);
        }
        let text = element.as_str().ok_or(SessionFault::Kind)?;
        if version < 2 {
            return Ok(text.len());
        }
        let is_hex = text.len() % 2 == 0 && text.chars().all(|letter| letter.is_ascii_hexdigit());
        if is_hex {
            Ok(text.len() / 2)
        } else {
            Err(SessionFault::Kind)
        }
    }
}
