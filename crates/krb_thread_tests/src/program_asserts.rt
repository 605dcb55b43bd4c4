//! Assertions that are proved once, and called by the tests.

use std::fmt::{Debug, Display};
use std::process::Abort;

/// Asserts that two values are the same of one case of several, and prints both and which case it
/// is where they aren't.
pub fn assert_same_at<T: PartialEq + Debug + Drop, C: Display + Drop>(
    rt: &impl Abort,
    left: T,
    right: T,
    case: C,
) {
    assert_eq!(rt; left, right, "at {case}");
}
