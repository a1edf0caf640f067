// What a test claims. It is proved here once, and not again in each test: an `assert!` beside values that are owned is dear.
ghost use Rattle.std.specs.Prelude.{IsTrue};

use std::process::Abort;

/// Ends the test where this doesn't hold.
pub fn holds(rt: &impl Abort, is: bool, what: &str)
    ensures { IsTrue is }
{
    assert!(rt; is, "{what}");
}

/// Ends the test.
pub fn fail(rt: &impl Abort, what: &str) -> ! {
    panic!(rt; "{what}")
}
