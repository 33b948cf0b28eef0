//! Tests of posts.

mod answering;
mod four_senders;
mod loads;
mod post_tests;

use std::fmt::Debug;
use std::process::Abort;
use std::test::*;

/// What was found is what was expected.
fn assert_is<T: PartialEq + Debug + Drop>(rt: &impl Abort, found: &T, expected: T) {
    assert_eq!(rt; *found, expected);
}
