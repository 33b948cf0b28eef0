//! How texts from outside are shown on a line.

use std::alloc::{AllocError, Global};

/// How many letters the beginning of a text has.
const MAX_BEGINNING: usize = 60;

/// A copy of a text for one line: what is no letter, as a line feed, gives way to `?`.
pub(crate) fn shown(alloc: Global, plain: &str) -> Result<String, AllocError> {
    let mut text = String::new(alloc);
    for letter in plain.chars() {
        text.push(shown_letter(letter))?;
    }
    Ok(text)
}

/// The same of the beginning of a text, or of all of it where it is short.
pub(crate) fn beginning(alloc: Global, plain: &str) -> Result<String, AllocError> {
    let mut text = String::new(alloc);
    for (index, letter) in plain.chars().enumerate() {
        if MAX_BEGINNING <= index {
            text.push_str("..")?;
            break;
        }
        text.push(shown_letter(letter))?;
    }
    Ok(text)
}

/// A letter, or what is shown in its place.
fn shown_letter(letter: char) -> char {
    match letter {
        '\u{fffe}' | '\u{ffff}' => '?',
        _ if letter.is_control() => '?',
        _ => letter,
    }
}
