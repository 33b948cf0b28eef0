//! Channels that are fed, what they hand out, and what that is to be.

use crate::tests::cutting::burst_of;
use pl_event::{Caught, Cause, Command, Event, Message};
use pl_head::Draining;
use pl_live::Live;
use pl_stages::Handler;
use std::alloc::Global;
use std::process::Abort;
use std::test::Fail;

/// A live channel, with the events and the bytes that it has handed out, in order.
#[derive(Drop)]
pub(crate) struct Fed<T: Draining> {
    pub(crate) alloc: Global,
    pub(crate) live: Live<Handler, T>,
    pub(crate) events: Vec<Event>,
    pub(crate) bytes: Vec<u8>,
}

impl<T: Draining> Fed<T> {
    pub(crate) fn new(alloc: Global, live: Live<Handler, T>) -> Self {
        Fed {
            alloc,
            live,
            events: Vec::new(alloc),
            bytes: Vec::new(alloc),
        }
    }

    /// Feeds a burst of these chunks.
    pub(crate) fn feed(&mut self, chunks: &[&[u8]]) -> Result<(), Fail> {
        let burst = burst_of(self.alloc, chunks)?;
        Ok(self.live.feed(burst)?)
    }

    /// Takes events, at most so many.
    pub(crate) fn take_events(&mut self, most: u64) -> Result<(), Fail> {
        for _ in 0..most {
            match self.live.next_event() {
                Some(event) => self.events.push(event)?,
                None => break,
            }
        }
        Ok(())
    }

    /// Takes output, at most so many bytes, and says how many.
    pub(crate) fn take_output(&mut self, most: usize) -> Result<usize, Fail> {
        let pending = self.live.pending_output();
        let count = pending.len().min(most);
        self.bytes.extend_from_slice(&pending[..count])?;
        if count > 0 {
            self.live.consume(count);
        }
        Ok(count)
    }

    /// Takes all output and all events.
    pub(crate) fn take_all(&mut self) -> Result<(), Fail> {
        for _ in 0..1_000 {
            if self.take_output(usize::MAX)? == 0 {
                break;
            }
        }
        self.take_events(u64::MAX)
    }
}

/// An event that is handed out, as a table says it.
#[derive(Clone, Copy, Debug)]
pub(crate) enum Seen {
    Active,
    ReadComplete,
    Caught(Caught),
    User(u32),
    Ping,
    Quit,
    Echo(&'static [u8]),
    Add(&'static [u8], u32),
    Get(&'static [u8]),
}

impl Seen {
    pub(crate) fn is(self, event: &Event) -> bool {
        match (self, event) {
            (Seen::Active, Event::Active) | (Seen::ReadComplete, Event::ReadComplete) => true,
            (Seen::Caught(want), Event::Caught(caught)) => *caught == want,
            (Seen::User(want), Event::User(number)) => *number == want,
            (_, Event::Read(Message::Command(command))) => self.is_of(command),
            _ => false,
        }
    }

    /// Whether it is that this command is read.
    fn is_of(self, command: &Command) -> bool {
        match (self, command) {
            (Seen::Ping, Command::Ping) | (Seen::Quit, Command::Quit) => true,
            (Seen::Echo(want), Command::Echo(text)) => text.as_slice() == want,
            (Seen::Add(key, want), Command::Add(name, number)) => {
                name.as_slice() == key && *number == want
            }
            (Seen::Get(key), Command::Get(name)) => name.as_slice() == key,
            _ => false,
        }
    }
}

/// Asserts that these events were handed out, and no other.
pub(crate) fn assert_events(rt: &impl Abort, events: &[Event], want: &[Seen]) {
    assert_eq!(rt; events.len(), want.len());
    for (event, seen) in events.iter().zip(want) {
        assert!(rt; seen.is(event), "{event:?} is not {seen:?}");
    }
}

/// Asserts that this was handed out, and nothing else.
pub(crate) fn assert_handed<T: Draining>(
    rt: &impl Abort,
    fed: &Fed<T>,
    tail: &[Seen],
    bytes: &[u8],
) {
    assert_events(rt, fed.events.as_slice(), tail);
    assert_eq!(rt; fed.bytes.as_slice(), bytes);
}

/// Asserts what a channel says of itself: whether it wants a burst, whether it is over, and why it has failed, if it has.
pub(crate) fn assert_stands<T: Draining>(
    rt: &impl Abort,
    fed: &Fed<T>,
    wants_input: bool,
    is_done: bool,
    cause: Option<Cause>,
) {
    assert_eq!(rt; fed.live.wants_input(), wants_input);
    assert_eq!(rt; fed.live.is_done(), is_done);
    assert_eq!(rt; fed.live.cause(), cause);
}
