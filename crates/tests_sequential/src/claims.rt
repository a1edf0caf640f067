//! What a test claims, and texts. An `assert!` is proved here once, and not again in each test: beside values that are owned it is dear.
ghost use Rattle.std.specs.Prelude.{IsTrue};

use std::alloc::Global;
use std::process::Abort;

/// Ends the test where this doesn't hold.
pub fn holds(rt: &impl Abort, is: bool, what: &str)
    ensures { IsTrue is }
{
    assert!(rt; is, "{what}");
}

/// The same of something at a number.
pub fn holds_at(rt: &impl Abort, is: bool, what: &str, number: usize) {
    assert!(rt; is, "{what} {number}");
}

/// Ends the test.
pub fn fail(rt: &impl Abort, what: &str) -> ! {
    panic!(rt; "{what}")
}

/// Puts a byte in the place of another, where the text is so long.
pub fn put_byte(text: &mut [u8], place: usize, byte: u8) {
    if place < text.len() {
        text[place] = byte;
    }
}

// Puts a text behind another.
fn put(rt: &impl Abort, all: &mut Vec<u8>, text: &[u8]) {
    all.extend_from_slice(text).expect(rt, "memory");
}

/// A text between two others, so many times.
pub fn repeated(
    rt: &impl Abort,
    alloc: Global,
    front: &[u8],
    text: &[u8],
    times: usize,
    back: &[u8],
) -> Vec<u8> {
    let mut all = Vec::new(alloc);
    put(rt, &mut all, front);
    for _ in 0..times {
        put(rt, &mut all, text);
    }
    put(rt, &mut all, back);
    all
}
