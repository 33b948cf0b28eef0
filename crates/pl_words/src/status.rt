//! The phase of an admission, and where it stands in the word.

ghost use Rattle.std.specs.Prelude.{◌≡◌};
ghost use Rattle.pl_words.specs.Phases.{phase_in};

/// The phase of an admission. Accepting becomes closing, and closing becomes closed, which it stays.
#[derive(Clone, Copy, Debug, PartialEq, Eq)]
pub enum Status {
    /// Each sender may send.
    Accepting,
    /// The owner has begun to close. Each sender may still send.
    Closing,
    /// Nobody may send any more.
    Closed,
}

/// The phase that a word has in its last two bits.
pub(crate) fn phase_in(word: u64) -> Status
    ensures { result ≡ phase_in word }
{
    match word % 4 {
        0 => Status::Accepting,
        1 => Status::Closing,
        _ => Status::Closed,
    }
}
