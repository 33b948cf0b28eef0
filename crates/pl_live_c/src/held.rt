//! What C holds.

ghost use Rattle.std.specs.Prelude.{◌≡◌, None, Some, MatchOption};
ghost use Rattle.std.specs.declared.option.Option.{Option};
ghost use Rattle.pl_live_c.specs.declared.channels.Channel.{Channel};
ghost use Rattle.pl_live_c.specs.Holding.{channel_coded, holds};

use crate::box_parts::BoxParts;
use crate::channels::Channel;
use std::alloc::Global;
use std::marker::Model;
use std::mem;
use std::ptr::null_mut;

/// A channel that C holds by its address, or none, which is null.
#[repr(C)]
pub struct Held {
    at: *mut u8,
    /// It takes no bytes.
    alloc: Global,
    pub ghost channel: { Option Channel } by { channel_coded },
}

impl Model for Held {
    ghost also_owns = { λ h. holds h.alloc h.at h.channel };
}

impl Held {
    /// No channel.
    pub(crate) fn none(alloc: Global) -> Held
        ensures { result.channel ≡ None }
    {
        Held {
            at: null_mut(),
            alloc,
        }
    }

    /// This channel.
    pub(crate) fn of(channel: Box<Channel>) -> Held
        ensures { result.channel ≡ Some channel.value }
    {
        Held::of_parts(BoxParts::of(channel))
    }

    /// The channel that is held, which is then held no more; None where none is.
    pub(crate) fn take(&mut self, alloc: Global) -> Option<Box<Channel>>
        ensures taken { MatchOption result (self.old.channel ≡ None) (λ channel. self.old.channel ≡ Some channel.value) }
        ensures none { self.new.channel ≡ None }
    {
        let held = mem::replace(self, Held::none(alloc));
        match held.into_parts() {
            Some(parts) => Some(parts.into_box()),
            None => None,
        }
    }

    fn of_parts(parts: BoxParts<Channel, Global>) -> Held
        ensures { result.channel ≡ Some parts.value }
    {
        let BoxParts { at, alloc } = parts;
        Held {
            at: at as *mut u8,
            alloc,
        }
    }

    fn into_parts(self) -> Option<BoxParts<Channel, Global>>
        ensures { MatchOption result (self.channel ≡ None) (λ parts. self.channel ≡ Some parts.value) }
    {
        let Held { at, alloc } = self;
        if at.is_null() {
            None
        } else {
            Some(BoxParts {
                at: at as *mut Channel,
                alloc,
            })
        }
    }
}

impl Drop for Held {
    /// Frees the channel that is held.
    fn drop(self) {
        match self.into_parts() {
            Some(parts) => drop(parts.into_box()),
            None => {}
        }
    }
}

// It may go to another thread, as the channel and the heap may.
unsafe impl Send for Held {}
