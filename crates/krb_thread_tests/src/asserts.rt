//! What the tests of several modules assert.

use std::fmt::Debug;
use std::process::Abort;

/// Asserts that two values are the same, and prints both where they aren't.
pub(crate) fn assert_same<T: PartialEq + Debug + Drop>(rt: &impl Abort, left: T, right: T) {
    assert_eq!(rt; left, right);
}
