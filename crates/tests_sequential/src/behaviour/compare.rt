//! Comparisons that tests share.

use crate::claims::{holds, holds_at};
use model::entry::Entry;
use std::process::Abort;

/// A text is the one that is wanted.
pub fn assert_text(rt: &impl Abort, found: &str, wanted: &str) {
    holds(rt, found == wanted, found);
}

/// The text of a row of a table is the one that is wanted.
pub fn assert_row(rt: &impl Abort, found: &str, wanted: &str, row: usize) {
    holds_at(rt, found == wanted, found, row);
}

/// A number is the one that is wanted.
pub fn assert_number(rt: &impl Abort, found: u64, wanted: u64) {
    holds(rt, found == wanted, "another number");
}

/// A length is the one that is wanted.
pub fn assert_length(rt: &impl Abort, found: usize, wanted: usize) {
    holds_at(rt, found == wanted, "another length", found);
}

/// Entries are those that are wanted.
pub fn assert_entries(rt: &impl Abort, found: &[Entry], wanted: &[Entry]) {
    holds(rt, found == wanted, "the entries");
}
