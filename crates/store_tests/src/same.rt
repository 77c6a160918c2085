//! Comparisons with what is wanted.

use std::fmt::Debug;
use std::process::Abort;

/// Asserts that what was found is what is wanted. All is compared here: what an assertion does where it fails is then
/// looked at once.
pub(crate) fn same<T: PartialEq + Debug + Copy>(rt: &impl Abort, found: T, want: T) {
    assert_eq!(rt; found, want);
}
