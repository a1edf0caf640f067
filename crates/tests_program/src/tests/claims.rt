//! What a test claims. It is proved here once, and not again in each test: an `assert!` beside values that are owned is dear.

use std::process::Abort;

/// Ends the test where this doesn't hold.
pub(super) fn holds(rt: &impl Abort, is: bool, what: &str) {
    assert!(rt; is, "{what}");
}

/// The same of something that has a name.
pub(super) fn holds_of(rt: &impl Abort, is: bool, what: &str, name: &str) {
    assert!(rt; is, "{what} of {name}");
}

/// A number is the one that is wanted.
pub(super) fn holds_as(rt: &impl Abort, what: &str, found: u64, wanted: u64) {
    assert!(rt; found == wanted, "{what}: {found} and not {wanted}");
}

/// Ends the test.
pub(super) fn fail(rt: &impl Abort, what: &str) -> ! {
    panic!(rt; "{what}")
}
