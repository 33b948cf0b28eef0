//! What the members of a session text say, before its pipelines are built.

use crate::session_text::names::Name;
use pl_event::{Element, Sequence};

/// What the members of a group of executors say.
#[derive(Debug, Drop)]
pub(crate) struct GroupOutline {
    pub(crate) name: Name,
    /// How many executors it has.
    pub(crate) size: u16,
}

/// A handler of a pipeline by its kind, with the numbers that only this kind has.
#[derive(Clone, Copy, Debug, PartialEq, Eq)]
pub(crate) enum HandlerKind {
    /// Cuts the bytes read into lines.
    Lines {
        /// The longest line, in bytes.
        max: usize,
    },
    Decode,
    LineEnd,
    Encode,
    Service,
    /// Lets every n-th flush pass.
    FlushEvery {
        /// Every n-th flush passes.
        n: usize,
    },
    /// Cuts the bytes read into frames by their length fields.
    Length {
        /// How many bytes a length field has.
        width: usize,
        /// The longest frame, its length field included, in bytes.
        max: usize,
    },
    /// Puts a length field in front of the bytes of each write.
    Prepend {
        /// How many bytes a length field has.
        width: usize,
    },
}

/// What an edit does, without what it does it to.
#[derive(Clone, Copy, Debug, PartialEq, Eq)]
pub(crate) enum Operation {
    First,
    Last,
    Before,
    After,
    Remove,
}

/// A handler that an edit adds.
#[derive(Debug, Drop)]
pub(crate) struct Addition {
    pub(crate) name: Name,
    pub(crate) handler: HandlerKind,
    /// The group of executors that it runs on, or none for the channel's loop.
    pub(crate) group: Option<Name>,
}

/// One edit of a pipeline.
#[derive(Debug, Drop)]
pub(crate) enum Edit {
    /// Adds before all others.
    First(Addition),
    /// Adds after all others.
    Last(Addition),
    /// Adds just before the handler of this name.
    Before(Name, Addition),
    /// Adds just after the handler of this name.
    After(Name, Addition),
    /// Takes the handler of this name out.
    Remove(Name),
}

/// What the members of a channel say.
#[derive(Debug, Drop)]
pub(crate) struct ChannelOutline {
    pub(crate) edits: Sequence<Edit>,
    /// The marks, in bytes.
    pub(crate) low: u32,
    pub(crate) high: u32,
    /// How many bytes the transport accepts in one call.
    pub(crate) window: u32,
    /// The call of the transport that fails, from 1, if one does.
    pub(crate) fail_at: Option<u32>,
    /// The elements of each burst.
    pub(crate) bursts: Sequence<Sequence<Element>>,
    /// After how many bursts the channel is aborted, if it is.
    pub(crate) abort_after: Option<u32>,
}

/// What the members of a session say.
#[derive(Debug, Drop)]
pub(crate) struct Outline {
    /// How many items a queue between executors holds.
    pub(crate) capacity: u32,
    /// How many event loops there are.
    pub(crate) loops: u16,
    pub(crate) groups: Sequence<GroupOutline>,
    pub(crate) channels: Sequence<ChannelOutline>,
}
