//! What the tests of several modules assert.

use std::fmt::{Debug, Display};
use std::process::Abort;

/// Asserts that two values are the same, and prints both where they aren't.
pub fn assert_same<T: PartialEq + Debug + Drop>(rt: &impl Abort, left: T, right: T) {
    assert_eq!(rt; left, right);
}

/// The same of one case among several, and prints which it is.
pub fn assert_same_at<T: PartialEq + Debug + Drop, C: Display + Drop>(
    rt: &impl Abort,
    left: T,
    right: T,
    case: C,
) {
    assert_eq!(rt; left, right, "in case {case}");
}
