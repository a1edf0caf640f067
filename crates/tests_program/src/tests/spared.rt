//! Files that a command refuses, or leaves as they were.

use super::sources::{HI, NO_ENTRY};
use super::{
    CANNOT_WRITE, OLD, SAVE, Setting, WAVES, assert_made, over, over_journal, prints, tells,
};

/// The registers of the source over that journal: there are none.
const DUMP: &str =
    "$timescale 1 ns $end\n$scope module t $end\n$upscope $end\n$enddefinitions $end\n#0\n$dumpvars\n$end\n";

/// Command lines, each with a source: OUT would take the place of FILE or of JOURNAL, and is refused before FILE is read, so that
/// the fault of an empty one isn't told; or OUT can't be begun.
const REFUSED: &[(&str, &str)] = &[
    ("vsimtx run t.v --journal t.v", ""),
    ("vsimtx run t.v --journal LINK", ""),
    ("vsimtx run t.v --seed 1 --journal LINK", ""),
    ("vsimtx races t.v --journals LINKED", ""),
    ("vsimtx waves t.v JOURNAL --out t.v", ""),
    ("vsimtx waves t.v JOURNAL --out LINK", ""),
    ("vsimtx waves t.v JOURNAL --out JOURNAL", ""),
    ("vsimtx waves t.v JOURNAL --out COPY", ""),
    ("vsimtx run t.v --journal folder/OUT", HI),
    ("vsimtx run t.v --seed 1 --journal folder/OUT", HI),
    ("vsimtx races t.v --journals folder/OUT", HI),
];

/// Command lines over a faulty source or none, or over a journal that a dump can't be made of, or whose OUT can't be begun or put into
/// its place, and what each tells: want of memory for that as such.
const FAULTY: &[(&str, &str, &[u8], u8, &str)] = &[
    (SAVE, "", b"", 3, "vsimtx: P2 syntax at token 1\n"),
    (
        "vsimtx run t.v --journal folder/OUT",
        "",
        b"",
        3,
        "vsimtx: P2 syntax at token 1\n",
    ),
    (
        "vsimtx run no\u{1b}[2J\nt.v --journal OUT",
        "",
        b"",
        1,
        "vsimtx: cannot read no\\u{1b}[2J\\nt.v\n",
    ),
    (
        "vsimtx waves t.v JOURNAL --out folder/OUT",
        HI,
        NO_ENTRY,
        1,
        CANNOT_WRITE,
    ),
    (
        "vsimtx run t.v --journal UNBEGUN",
        HI,
        b"",
        6,
        "vsimtx: memory\n",
    ),
    (
        "vsimtx run t.v --journal UNFINISHED",
        HI,
        b"",
        6,
        "vsimtx: memory\n",
    ),
    (
        "vsimtx waves t.v JOURNAL --out UNFINISHED",
        HI,
        NO_ENTRY,
        6,
        "vsimtx: memory\n",
    ),
    (WAVES, HI, b"", 5, "vsimtx: Q1 journal header\n"),
    (
        WAVES,
        HI,
        b"vsimtx-journal 1\nT 1\n",
        5,
        "vsimtx: entry 1: J1 event not active\n",
    ),
];

/// Runs that keep no journal, of a file and of standard input.
const UNSAVED: &[&str] = &["vsimtx run t.v", "vsimtx run -"];

/// A value change dump is put into OUT whole, without a word; where there is no room for its last byte, OUT is as it was.
#[test]
fn a_dump_is_put_whole(rt: HostRuntime) {
    let whole = Setting {
        room: DUMP.len(),
        ..over_journal(HI, NO_ENTRY)
    };
    let made = DUMP.as_bytes();
    assert_made(&rt, rt.alloc(), WAVES, &whole, prints(""), made);
    let cut = Setting {
        room: DUMP.len().saturating_sub(1),
        ..whole
    };
    let wanted = tells(1, CANNOT_WRITE);
    assert_made(&rt, rt.alloc(), WAVES, &cut, wanted, OLD);
}

#[test]
fn leaves_out_as_it_was(rt: HostRuntime) {
    for &(line, source) in REFUSED {
        let wanted = tells(1, CANNOT_WRITE);
        assert_made(&rt, rt.alloc(), line, &over(source), wanted, OLD);
    }
    for &line in UNSAVED {
        assert_made(&rt, rt.alloc(), line, &over(HI), prints("hi\n"), OLD);
    }
}

#[test]
fn a_fault_leaves_out_as_it_was(rt: HostRuntime) {
    for &(line, source, journal, status, told) in FAULTY {
        let setting = over_journal(source, journal);
        assert_made(&rt, rt.alloc(), line, &setting, tells(status, told), OLD);
    }
}
