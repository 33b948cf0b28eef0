//! The version of a session text.

ghost use Rattle.std.specs.Prelude.{◌≡◌};
ghost use Rattle.pl_text.specs.SessionChannels.{knows_length_fields, knows_user_events};

/// In which version of the format a session text is written.
#[derive(Clone, Copy, Debug, PartialEq, Eq)]
pub(crate) enum Version {
    One,
    Two,
}

impl Version {
    /// Whether the handlers of length fields are known.
    pub(crate) fn knows_length_fields(self) -> bool
        ensures { result ≡ knows_length_fields self }
    {
        matches!(self, Version::Two)
    }

    /// Whether user events are known.
    pub(crate) fn knows_user_events(self) -> bool
        ensures { result ≡ knows_user_events self }
    {
        matches!(self, Version::Two)
    }
}
