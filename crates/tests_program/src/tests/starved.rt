//! Commands in too little memory: each tells what it lacked memory for, by its own line and with status 6. A process that holds all
//! memory can start no thread either.
//!
//! A command passes marks: `s` where it starts, `f` where FILE is opened and `F` at its end, `j` at the first read of JOURNAL and
//! `J` at its end, `O` where OUT is begun, and `o` at the first byte of a search's output. At one of them it loses all memory but a
//! rest.

use super::claims::{fail, holds, holds_as, holds_of};
use super::sources::{NO_ENTRY, RACE};
use super::{
    EXPLAIN, Expected, ONE_WORKER, REPLAY, Shared, Target, TextPattern, WAVES, repeated, status_of,
    tells, words_of,
};
use files::Files;
use hoard::Hoard;
use journal::Counted;
use progress::Untold;
use std::alloc::Global;
use std::cell::RefCell;
use std::io::{Read, Write};
use std::process::Abort;
use std::rc::Rc;
use std::sync::Wait;
use std::thread::Threads;
use std::{io, mem};

/// The bytes of a piece of memory.
const PIECE: usize = 65_536;

/// So many pieces are enough for a command up to the mark at which it loses them.
const ENOUGH: usize = 4;

/// How much greater the rest is each time, and how often at most: up to a piece.
const STEP: usize = 128;

const RESTS: usize = 512;

/// The most bytes that a command writes to one place.
const LONGEST: usize = 8_192;

/// No mark.
const NEVER: u8 = b'-';

const TWO_TURNS: &str =
    "module t; reg a; initial begin $display(\"hi\"); #1 a = 1'b0; end endmodule";

const STOPPED: &[u8] = b"vsimtx: stopped: memory\n";

/// The marks that a command passes, and all memory, which it loses at one of them but for a rest.
#[derive(Clone, Copy)]
struct PassedMarks<'a> {
    passed: &'a Shared,
    hoard: &'a RefCell<Hoard>,
    loss: u8,
    rest: usize,
}

impl PassedMarks<'_> {
    fn pass(&self, mark: u8) {
        if mark == NEVER {
            return;
        }
        if let Ok(mut passed) = self.passed.try_borrow_mut() {
            let _ = passed.push(mark);
        }
        if mark == self.loss {
            shut(self.hoard);
            leave(self.hoard, self.rest);
        }
    }
}

/// A file to read, of which a read gives one byte. Its first read and its end are marks.
#[derive(Drop)]
struct Marked<'a> {
    bytes: &'a [u8],
    first: u8,
    end: u8,
    marks: PassedMarks<'a>,
}

/// The mark that is passed now, if it wasn't before.
fn once(mark: &mut u8) -> u8 {
    mem::replace(mark, NEVER)
}

impl Read for Marked<'_> {
    fn read(&mut self, buf: &mut [u8]) -> io::Result<usize> {
        self.marks.pass(once(&mut self.first));
        if let (Some((byte, rest)), Some(place)) = (self.bytes.split_first(), buf.first_mut()) {
            *place = *byte;
            self.bytes = rest;
            return Ok(1);
        }
        self.marks.pass(once(&mut self.end));
        Ok(0)
    }
}

/// FILE and the place of OUT. JOURNAL has no entry, and takes no memory but that of its text.
#[derive(Drop)]
struct StarvedFiles<'a> {
    source: &'a [u8],
    journal: &'a [u8],
    made: Shared,
    marks: PassedMarks<'a>,
}

impl<'a> Files for StarvedFiles<'a> {
    type Source = Marked<'a>;

    type Target = Target;

    type Progress = Untold;

    fn open(&mut self, path: &str) -> io::Result<Marked<'a>> {
        if path != "t.v" {
            return Ok(Marked {
                bytes: self.journal,
                first: b'j',
                end: b'J',
                marks: self.marks,
            });
        }
        self.marks.pass(b'f');
        Ok(Marked {
            bytes: self.source,
            first: NEVER,
            end: b'F',
            marks: self.marks,
        })
    }

    fn same(&self, _source: &str, _out: &str) -> bool {
        false
    }

    fn begin(&mut self, _path: &str) -> io::Result<Target> {
        self.marks.pass(b'O');
        Ok(Target {
            room: LONGEST,
            flushes: true,
            written: self.made.clone()?,
        })
    }

    fn finish(&mut self, _path: &str, _target: Target) -> io::Result<()> {
        Ok(())
    }

    fn progress(&self) -> Untold {
        Untold
    }

    fn progress_beside_output(&self) -> Untold {
        Untold
    }
}

/// What a command writes, and the marks that it passes, in room that was there before; and all memory, of which some pieces can be
/// given back.
#[derive(Drop)]
struct Places {
    out: Shared,
    err: Shared,
    made: Shared,
    passed: Shared,
    hoard: RefCell<Hoard>,
}

fn place(rt: &impl Abort, alloc: Global) -> Shared {
    let bytes = Vec::with_capacity(alloc, LONGEST).expect(rt, "memory");
    Rc::new(alloc, RefCell::new(bytes)).expect(rt, "memory")
}

/// Places, and so many pieces.
fn new_places(rt: &impl Abort, alloc: Global, pieces: usize) -> Places {
    Places {
        out: place(rt, alloc),
        err: place(rt, alloc),
        made: place(rt, alloc),
        passed: place(rt, alloc),
        hoard: hoarded(rt, alloc, pieces),
    }
}

fn clear(place: &Shared) {
    if let Ok(mut bytes) = place.try_borrow_mut() {
        bytes.clear();
    }
}

fn clear_all(places: &Places) {
    clear(&places.out);
    clear(&places.err);
    clear(&places.made);
    clear(&places.passed);
}

/// These bytes stand in a place, alone.
fn has(place: &Shared, wanted: &[u8]) -> bool {
    match place.try_borrow() {
        Ok(bytes) => bytes.as_slice() == wanted,
        Err(_) => false,
    }
}

fn target(rt: &impl Abort, place: &Shared) -> Target {
    Target {
        room: LONGEST,
        flushes: true,
        written: place.clone().expect(rt, "a count"),
    }
}

/// All memory, of which so many pieces can be given back.
fn hoarded(rt: &impl Abort, alloc: Global, pieces: usize) -> RefCell<Hoard> {
    RefCell::new(Hoard::new(alloc, pieces, PIECE).expect(rt, "memory"))
}

fn shut(hoard: &RefCell<Hoard>) {
    if let Ok(mut hoard) = hoard.try_borrow_mut() {
        hoard.shut();
    }
}

/// Gives a piece back. Says whether there was one.
fn open(hoard: &RefCell<Hoard>) -> bool {
    match hoard.try_borrow_mut() {
        Ok(mut hoard) => hoard.open(),
        Err(_) => false,
    }
}

/// Gives so many pieces back.
fn open_all(rt: &impl Abort, hoard: &RefCell<Hoard>, pieces: usize) {
    for _ in 0..pieces {
        holds(rt, open(hoard), "a piece of memory");
    }
}

/// Gives so many bytes back, fewer than a piece has.
fn leave(hoard: &RefCell<Hoard>, rest: usize) {
    if let Ok(mut hoard) = hoard.try_borrow_mut() {
        hoard.leave(rest);
    }
}

/// Standard output, whose first write may be a mark.
#[derive(Drop)]
struct MarkedTarget<'a> {
    target: Target,
    first: u8,
    marks: PassedMarks<'a>,
}

impl Write for MarkedTarget<'_> {
    fn write(&mut self, buf: &[u8]) -> io::Result<usize> {
        self.marks.pass(once(&mut self.first));
        self.target.write(buf)
    }

    fn flush(&mut self) -> io::Result<()> {
        Ok(())
    }
}

/// A command line with its source, the mark of its first byte on output, its memory: so many pieces up to a mark, and a rest
/// from there on, and its status where it has enough.
#[derive(Clone, Copy)]
struct AskedCommand<'a> {
    line: &'a str,
    source: &'a str,
    first: u8,
    pieces: usize,
    loss: u8,
    rest: usize,
    done: u8,
}

/// A command that reads FILE, and then has no memory.
fn asking<'a>(line: &'a str, source: &'a str) -> AskedCommand<'a> {
    AskedCommand {
        line,
        source,
        first: NEVER,
        pieces: ENOUGH,
        loss: b'F',
        rest: 0,
        done: 0,
    }
}

/// The status of a command, which writes to these places and passes these marks.
fn status_at<R: Abort + Threads + Wait + Sync>(
    rt: &R,
    alloc: Global,
    words: &[String],
    asked: AskedCommand<'_>,
    places: &Places,
    marks: PassedMarks<'_>,
) -> u8 {
    let mut files = StarvedFiles {
        source: asked.source.as_bytes(),
        journal: NO_ENTRY,
        made: places.made.clone().expect(rt, "a count"),
        marks,
    };
    let mut out = Counted::new(MarkedTarget {
        target: target(rt, &places.out),
        first: asked.first,
        marks,
    });
    let mut err = Counted::new(target(rt, &places.err));
    marks.pass(b's');
    status_of(rt, alloc, &mut files, words, &mut out, &mut err)
}

/// The status of a command in the memory that it has.
fn status_with<R: Abort + Threads + Wait + Sync>(
    rt: &R,
    alloc: Global,
    asked: AskedCommand<'_>,
    places: &Places,
) -> u8 {
    clear_all(places);
    open_all(rt, &places.hoard, asked.pieces);
    let words = words_of(rt, alloc, asked.line);
    let marks = PassedMarks {
        passed: &places.passed,
        hoard: &places.hoard,
        loss: asked.loss,
        rest: asked.rest,
    };
    let status = status_at(rt, alloc, words.as_slice(), asked, places, marks);
    shut(&places.hoard);
    status
}

/// Command lines, the mark at which each loses all memory, the marks that it passes, and what is told.
const LOSSES: &[(&str, u8, &str, &str)] = &[
    (ONE_WORKER, b's', "s", "vsimtx: memory\n"),
    (ONE_WORKER, b'f', "sf", "vsimtx: memory\n"),
    (ONE_WORKER, b'F', "sfF", "vsimtx: P6 memory\n"),
    (ONE_WORKER, b'O', "sfFO", "vsimtx: memory\n"),
    (REPLAY, b's', "s", "vsimtx: memory\n"),
    (REPLAY, b'f', "sf", "vsimtx: memory\n"),
    (REPLAY, b'F', "sfF", "vsimtx: P6 memory\n"),
    (REPLAY, b'j', "sfFj", "vsimtx: Q5 memory\n"),
    (REPLAY, b'J', "sfFjJ", "vsimtx: entry 0: memory\n"),
    (EXPLAIN, b's', "s", "vsimtx: memory\n"),
    (EXPLAIN, b'f', "sf", "vsimtx: memory\n"),
    (EXPLAIN, b'F', "sfF", "vsimtx: P6 memory\n"),
    (EXPLAIN, b'j', "sfFj", "vsimtx: Q5 memory\n"),
    (EXPLAIN, b'J', "sfFjJ", "vsimtx: memory\n"),
    (WAVES, b's', "s", "vsimtx: memory\n"),
    (WAVES, b'f', "sf", "vsimtx: memory\n"),
    (WAVES, b'F', "sfF", "vsimtx: P6 memory\n"),
    (WAVES, b'j', "sfFj", "vsimtx: Q5 memory\n"),
    (WAVES, b'J', "sfFjJO", "vsimtx: entry 0: memory\n"),
];

/// A command passed these marks, and left this and no OUT.
fn assert_passed(rt: &impl Abort, places: &Places, passed: &str, status: u8, wanted: Expected<'_>) {
    holds_of(rt, status == wanted.status, "the status", passed);
    let is_passed = has(&places.passed, passed.as_bytes());
    holds_of(rt, is_passed, "the marks", passed);
    let is_told = has(&places.err, wanted.err.as_bytes());
    holds_of(rt, is_told, "the line", passed);
    let is_alone = has(&places.out, wanted.out.as_bytes()) && has(&places.made, b"");
    holds_of(rt, is_alone, "nothing else", passed);
}

/// What a command leaves in the memory that it has.
fn assert_lost<R: Abort + Threads + Wait + Sync>(
    rt: &R,
    alloc: Global,
    asked: AskedCommand<'_>,
    places: &Places,
    passed: &str,
    wanted: Expected<'_>,
) {
    let status = status_with(rt, alloc, asked, places);
    assert_passed(rt, places, passed, status, wanted);
}

#[test]
fn tells_what_memory_was_for(rt: HostRuntime) {
    let places = new_places(&rt, rt.alloc(), 256);
    for &(line, loss, passed, told) in LOSSES {
        let asked = AskedCommand {
            loss,
            ..asking(line, TWO_TURNS)
        };
        assert_lost(&rt, rt.alloc(), asked, &places, passed, tells(6, told));
    }
}

/// In a process that can start no thread, a second worker can't be started.
#[test]
fn tells_that_no_worker_starts(rt: HostRuntime) {
    let places = new_places(&rt, rt.alloc(), 16);
    let asked = AskedCommand {
        pieces: 8,
        loss: NEVER,
        ..asking("vsimtx run t.v --workers 2", TWO_TURNS)
    };
    let wanted = tells(6, "vsimtx: cannot start worker\n");
    assert_lost(&rt, rt.alloc(), asked, &places, "sfF", wanted);
}

/// What is told of the race before the search, and that memory was refused.
const NAMED: Expected<'static> = Expected {
    status: 6,
    out: "race 1: register a, time 0\n  process 0, initial at line 1, writes it at line 1\n  process 1, initial at line 1, reads it at line 1\n  the first before the second: printed line 1 is `1`\n  the second before the first: printed line 1 is `x`\n",
    err: "vsimtx: memory\n",
};

/// A race is told before the search of all orders, which loses all memory at the first byte of what it tells: nothing is said of the texts.
#[test]
fn tells_races_before_the_search(rt: HostRuntime) {
    let places = new_places(&rt, rt.alloc(), 64);
    let asked = AskedCommand {
        first: b'o',
        pieces: 32,
        loss: b'o',
        ..asking("vsimtx races t.v", RACE)
    };
    assert_lost(&rt, rt.alloc(), asked, &places, "sfFo", NAMED);
}

/// What may be told in too little memory.
const MEMORY: &[&str] = &[
    "vsimtx: memory\n",
    "vsimtx: P6 memory\n",
    "vsimtx: E10 memory\n",
    "vsimtx: Q5 memory\n",
    "vsimtx: entry 0: memory\n",
    "vsimtx: stopped: memory\n",
];

/// The journals that a run may have saved that was stopped after its first turn.
const BEGUN: &[&str] = &[
    "vsimtx-journal 2\nT 0\nE 1\n",
    "vsimtx-journal 2\nT 0\nA 1\nE 2\n",
    "vsimtx-journal 2\nT 0\nA 1\nT 1\nE 3\n",
];

/// One of these stands in a place.
fn has_one(place: &Shared, texts: &[&str]) -> bool {
    for &text in texts {
        if has(place, text.as_bytes()) {
            return true;
        }
    }
    false
}

/// A run that was stopped saved its journal, and printed the line of its first turn where that is in it.
fn assert_stopped(rt: &impl Abort, places: &Places, line: &[u8]) {
    let is_begun = has_one(&places.made, BEGUN) && has(&places.out, line);
    let is_empty = has(&places.made, NO_ENTRY) && has(&places.out, b"");
    holds(rt, is_begun || is_empty, "a beginning");
}

/// How many of these were told one after another, each with the marks that were passed.
fn told_after(wanted: &[(&str, &str)], count: usize, places: &Places) -> usize {
    match wanted.get(count) {
        Some(&(passed, line)) => {
            let is_next = has(&places.passed, passed.as_bytes())
                && has(&places.err, line.as_bytes());
            count.saturating_add(usize::from(is_next))
        }
        None => count,
    }
}

/// A command that wasn't done told that memory was refused.
fn assert_refused(rt: &impl Abort, places: &Places, status: u8, line: &[u8]) {
    let is_memory = status == 6 && has_one(&places.err, MEMORY);
    holds(rt, is_memory, "the line of memory");
    if has(&places.err, STOPPED) {
        assert_stopped(rt, places, line);
    }
}

/// Calls a command with a greater and greater rest until it is done. Answers how many of these it told before, one after another.
fn told_in_all<R: Abort + Threads + Wait + Sync>(
    rt: &R,
    alloc: Global,
    asked: AskedCommand<'_>,
    places: &Places,
    shown: &[u8],
    wanted: &[(&str, &str)],
) -> usize {
    let mut told = 0;
    for count in 0..RESTS {
        let rest = count.saturating_mul(STEP);
        let status = status_with(rt, alloc, AskedCommand { rest, ..asked }, places);
        if status == asked.done {
            return told;
        }
        assert_refused(rt, places, status, shown);
        told = told_after(wanted, told, places);
    }
    fail(rt, "never done")
}

/// A command line with the source, whose first turn prints this line, tells these in too little memory, one after another as it
/// gets more, and at last is done.
fn assert_all_told<R: Abort + Threads + Wait + Sync>(
    rt: &R,
    alloc: Global,
    asked: AskedCommand<'_>,
    shown: &str,
    wanted: &[(&str, &str)],
) {
    let places = new_places(rt, alloc, 6 * RESTS);
    let told = told_in_all(rt, alloc, asked, &places, shown.as_bytes(), wanted);
    let told = told as u64;
    holds_as(rt, "lines of memory", told, wanted.len() as u64);
}

/// One random order prints one text, and the races two. Where memory is refused to the races alone, the one text isn't told as if a limit had been met.
#[test]
fn a_search_tells_that_memory_was_refused(rt: HostRuntime) {
    let asked = AskedCommand {
        done: 7,
        ..asking("vsimtx races t.v --samples 1", RACE)
    };
    assert_all_told(&rt, rt.alloc(), asked, "", &[]);
}

/// There is no memory for the tree of a source, then for a run before its first worker, and then for its entries.
const OF_A_RUN: &[(&str, &str)] = &[
    ("sfF", "vsimtx: P6 memory\n"),
    ("sfFO", "vsimtx: memory\n"),
    ("sfFO", "vsimtx: stopped: memory\n"),
];

#[test]
fn a_run_tells_what_memory_was_for(rt: HostRuntime) {
    let asked = asking(ONE_WORKER, TWO_TURNS);
    assert_all_told(&rt, rt.alloc(), asked, "hi\n", OF_A_RUN);
}

/// There is no memory for the tree of a source, and then for its design.
const OF_A_SOURCE: &[(&str, &str)] = &[
    ("sfF", "vsimtx: P6 memory\n"),
    ("sfF", "vsimtx: E10 memory\n"),
];

/// A process that prints a long line.
const LONG: TextPattern<'static> = TextPattern {
    before: "module t; initial $display(\"",
    numbered: &[],
    last: "h",
    after: "\"); endmodule",
};

#[test]
fn a_source_tells_what_memory_was_for(rt: HostRuntime) {
    let source = repeated(&rt, rt.alloc(), LONG, 2_000);
    let asked = asking(REPLAY, source.as_str());
    assert_all_told(&rt, rt.alloc(), asked, "", OF_A_SOURCE);
}
