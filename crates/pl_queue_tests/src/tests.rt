//! The tests, over either box, and what a mailbox does for them.

mod answering;
mod box_tests;
mod boxes;
mod leaving;
mod left_tests;
mod relays;

use std::fmt::Debug;
use std::process::Abort;
use std::test::*;

/// What was found is what was expected.
fn assert_is<T: PartialEq + Debug + Drop>(rt: &impl Abort, found: &T, expected: T) {
    assert_eq!(rt; *found, expected);
}
