//! A file that takes each byte and can't be flushed: that is told, as a write that fails is.

use super::sources::{HI, NO_ENTRY};
use super::{CANNOT_WRITE, OLD, SAVE, Setting, WAVES, assert_made, over_journal, tells};

/// Where a journal or a dump can't be flushed, no line is printed, and what stood in OUT stays.
#[test]
fn tells_that_a_file_cannot_be_flushed(rt: HostRuntime) {
    let unflushed = Setting {
        flushes: false,
        ..over_journal(HI, NO_ENTRY)
    };
    let wanted = tells(1, CANNOT_WRITE);
    assert_made(&rt, rt.alloc(), SAVE, &unflushed, wanted, OLD);
    assert_made(&rt, rt.alloc(), WAVES, &unflushed, wanted, OLD);
}
