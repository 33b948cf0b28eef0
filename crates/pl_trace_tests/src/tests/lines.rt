//! Looks at the lines of a text.

use std::alloc::{AllocError, Global};

/// What comes after this beginning of a line, of each line that has it, with an end behind each.
pub(crate) fn rests(
    alloc: Global,
    text: &str,
    beginning: &str,
    end: &str,
) -> Result<String, AllocError> {
    let mut rests = String::new(alloc);
    for line in text.split('\n') {
        if let Some(rest) = line.strip_prefix(beginning) {
            rests.push_str(rest)?;
            rests.push_str(end)?;
        }
    }
    Ok(rests)
}

/// How often a part stands in a text.
pub(crate) fn count_of(text: &str, part: &str) -> usize {
    text.split(part).count().saturating_sub(1)
}
