//! Comparisons with what is wanted.

use std::process::Abort;

/// Asserts that what was answered to a row is what is wanted. All is compared here: what an assertion does where it
/// fails is then looked at once.
pub(crate) fn same(rt: &impl Abort, row: &str, found: &str, want: &str) {
    assert!(rt; found == want, "{row} -> {found}");
}
