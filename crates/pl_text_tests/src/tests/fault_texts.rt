//! What faults are told as.

use std::fmt::Display;
use std::process::Abort;
use std::test::Fail;

/// Asserts that a fault is told by this text: its number and its name.
pub(crate) fn assert_told<F: Display + Drop>(
    rt: &(impl Abort + AllocGlobal),
    fault: F,
    text: &str,
) -> Result<(), Fail> {
    let told = format!(in rt.alloc(); "{fault}")?;
    assert_eq!(rt; told.as_str(), text);
    Ok(())
}
