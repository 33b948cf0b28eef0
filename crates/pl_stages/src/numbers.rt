//! Numbers as additions have them: decimal texts.

ghost use Rattle.std.specs.Prelude.{◌≡◌, ◌<◌, length, not, ◌||◌, ◌==◌, slice_index};
ghost use Rattle.std.specs.List.{list_all};
ghost use Rattle.std.specs.Char.{is_ascii_digit};
ghost use Rattle.pl_stages.specs.Numbers.{is_number, number_in};

use crate::limits::MAX_DIGITS;

/// The number that a text is, if it is one.
pub(crate) fn number_in(text: &[u8]) -> Option<u32>
    ensures { result ≡ number_in text.now }
{
    if !is_number(text) {
        return None;
    }
    let Ok(digits) = str::from_utf8(text) else {
        return None;
    };
    digits.parse().ok()
}

/// Whether a text is a number: one digit or more, [`MAX_DIGITS`] at most, and no zero in front of others.
fn is_number(text: &[u8]) -> bool
    ensures { result ≡ is_number text.now }
{
    !text.is_empty() && text.len() <= MAX_DIGITS && are_digits(text) && has_no_leading_zero(text)
}

/// Whether each byte is a decimal digit.
fn are_digits(text: &[u8]) -> bool
    ensures { result ≡ list_all is_ascii_digit text.now }
{
    text.iter().all(|byte| byte.is_ascii_digit())
}

/// A text that begins with a zero is that zero only.
fn has_no_leading_zero(text: &[u8]) -> bool
    requires { 0 < length text.now }
    ensures { result ≡ (not (slice_index text.now 0 == 48) || length text.now == 1) }
{
    text[0] != b'0' || text.len() == 1
}
