//! The program over files in memory, with exact bytes and statuses.

use claims::{holds, holds_of};
use design::Design;
use files::Files;
use frontend::read_design;
use journal::Counted;
use model::entry::Entry;
use program::command;
use progress::Untold;
use replay::{Replayed, replay};
use std::alloc::Global;
use std::cell::RefCell;
use std::io::{ErrorKind, Read, Write};
use std::process::Abort;
use std::rc::Rc;
use std::sync::Wait;
use std::thread::Threads;
use std::{io, mem};

mod bounds;
mod claims;
mod counts;
mod flushed;
mod journals;
mod placing;
mod probes;
mod refused;
mod replays;
mod running;
mod simulations;
mod sources;
mod spared;
mod starved;
mod threads;
mod tries;
mod unsynced;
mod unwritten;
mod words;

/// A run that keeps its journal.
const SAVE: &str = "vsimtx run t.v --journal OUT";

/// The same on one worker.
const ONE_WORKER: &str = "vsimtx run t.v --workers 1 --journal OUT";

/// What stands in OUT before a command.
const OLD: &[u8] = b"an old OUT\n";

const REPLAY: &str = "vsimtx replay t.v JOURNAL";

const EXPLAIN: &str = "vsimtx explain t.v JOURNAL";

const WAVES: &str = "vsimtx waves t.v JOURNAL --out OUT";

const CANNOT_WRITE: &str = "vsimtx: cannot write\n";

/// Bytes that a writer puts there, and that stay once it is gone.
type Shared = Rc<RefCell<Vec<u8>>>;

/// A file to read: its bytes, of which a read gives one, and then a fault, if there is one.
#[derive(Drop)]
struct Source<'a> {
    bytes: &'a [u8],
    fault: Option<ErrorKind>,
}

impl Read for Source<'_> {
    fn read(&mut self, buf: &mut [u8]) -> io::Result<usize> {
        if let (Some((byte, rest)), Some(place)) = (self.bytes.split_first(), buf.first_mut()) {
            *place = *byte;
            self.bytes = rest;
            return Ok(1);
        }
        match self.fault.take() {
            Some(kind) => Err(io::Error::from(kind)),
            None => Ok(0),
        }
    }
}

/// A writer that takes one byte a call, and fails after its room. Its flushes fail or don't.
#[derive(Drop)]
struct Target {
    room: usize,
    flushes: bool,
    written: Shared,
}

impl Write for Target {
    fn write(&mut self, buf: &[u8]) -> io::Result<usize> {
        let Some(byte) = buf.first() else {
            return Ok(0);
        };
        if self.room == 0 {
            return Err(io::Error::from(ErrorKind::Other));
        }
        self.room -= 1;
        match self.written.try_borrow_mut() {
            Ok(mut written) => written.push(*byte)?,
            Err(_) => return Err(io::Error::from(ErrorKind::Other)),
        }
        Ok(1)
    }

    fn flush(&mut self) -> io::Result<()> {
        if self.flushes {
            Ok(())
        } else {
            Err(io::Error::from(ErrorKind::Other))
        }
    }
}

/// Files in memory. Of a source and of a journal there is a whole one, and others that break off after
/// the same bytes; `LINK` and `LINKED.1.journal` lead to the source, and `COPY` to the journal. `folder` isn't there, for `UNBEGUN` there is
/// no memory when it is begun, for `UNFINISHED` none when it is finished, and any new file has the room that is given.
#[derive(Drop)]
struct FilesInMemory<'a> {
    alloc: Global,
    source: &'a [u8],
    journal: &'a [u8],
    made: Shared,
    room: usize,
    flushes: bool,
}

impl<'a> Files for FilesInMemory<'a> {
    type Source = Source<'a>;

    type Target = Target;

    type Progress = Untold;

    fn open(&mut self, path: &str) -> io::Result<Source<'a>> {
        let (bytes, fault) = match path {
            "t.v" | "-" => (self.source, None),
            "broken.v" => (self.source, Some(ErrorKind::Other)),
            "large.v" => (self.source, Some(ErrorKind::OutOfMemory)),
            "interrupted.v" => (self.source, Some(ErrorKind::Interrupted)),
            "JOURNAL" => (self.journal, None),
            "BROKEN" => (self.journal, Some(ErrorKind::Other)),
            _ => return Err(io::Error::from(ErrorKind::NotFound)),
        };
        Ok(Source { bytes, fault })
    }

    fn same(&self, source: &str, out: &str) -> bool {
        match source {
            "t.v" => matches!(out, "t.v" | "LINK" | "LINKED.1.journal"),
            "JOURNAL" => matches!(out, "JOURNAL" | "COPY"),
            _ => false,
        }
    }

    fn begin(&mut self, path: &str) -> io::Result<Target> {
        if path.starts_with("folder/") {
            return Err(io::Error::from(ErrorKind::NotFound));
        }
        if path == "UNBEGUN" {
            return Err(io::Error::from(ErrorKind::OutOfMemory));
        }
        let bytes = RefCell::new(Vec::new(self.alloc));
        Ok(Target {
            room: self.room,
            flushes: self.flushes,
            written: Rc::new(self.alloc, bytes)?,
        })
    }

    fn finish(&mut self, path: &str, target: Target) -> io::Result<()> {
        if path == "UNFINISHED" {
            return Err(io::Error::from(ErrorKind::OutOfMemory));
        }
        match (self.made.try_borrow_mut(), target.written.try_borrow_mut()) {
            (Ok(mut made), Ok(mut written)) => mem::swap(&mut *made, &mut *written),
            _ => return Err(io::Error::from(ErrorKind::Other)),
        }
        Ok(())
    }

    fn progress(&self) -> Untold {
        Untold
    }

    fn progress_beside_output(&self) -> Untold {
        Untold
    }
}

/// The source and the journal that a command line finds, and the room of standard output and of a new
/// file, and whether their flushes go well.
#[derive(Clone, Copy)]
struct Setting<'a> {
    source: &'a str,
    journal: &'a [u8],
    out_room: usize,
    out_flushes: bool,
    room: usize,
    flushes: bool,
}

/// A source, no journal, and room for all that is written.
fn over(source: &str) -> Setting<'_> {
    over_journal(source, b"")
}

/// A source, a journal, and room for all that is written.
fn over_journal<'a>(source: &'a str, journal: &'a [u8]) -> Setting<'a> {
    Setting {
        source,
        journal,
        out_room: usize::MAX,
        out_flushes: true,
        room: usize::MAX,
        flushes: true,
    }
}

/// What a command left: its status, and what stands on output, on standard error and in OUT.
#[derive(Drop)]
struct Left {
    status: u8,
    out: Vec<u8>,
    err: Vec<u8>,
    made: Vec<u8>,
}

/// What a command is to leave: its status, and what stands on output and on standard error.
#[derive(Clone, Copy)]
struct Expected<'a> {
    status: u8,
    out: &'a str,
    err: &'a str,
}

/// These lines, and no fault.
fn prints(out: &str) -> Expected<'_> {
    Expected {
        status: 0,
        out,
        err: "",
    }
}

/// A status and its line, and nothing on output.
fn tells(status: u8, err: &str) -> Expected<'_> {
    Expected {
        status,
        out: "",
        err,
    }
}

/// The two texts that a source may print.
#[derive(Clone, Copy)]
struct EitherText<'a> {
    one: &'a str,
    other: &'a str,
}

fn either<'a>(one: &'a str, other: &'a str) -> EitherText<'a> {
    EitherText { one, other }
}

impl EitherText<'_> {
    fn has(&self, lines: &[u8]) -> bool {
        lines == self.one.as_bytes() || lines == self.other.as_bytes()
    }
}

fn append(rt: &impl Abort, text: &mut String, part: &str) {
    text.push_str(part).expect(rt, "memory");
}

/// Texts, one behind the other.
fn joined(rt: &impl Abort, alloc: Global, texts: &[&str]) -> String {
    let mut all = String::new(alloc);
    for &text in texts {
        append(rt, &mut all, text);
    }
    all
}

fn decimal(rt: &impl Abort, alloc: Global, number: u64) -> String {
    format!(in alloc; "{number}").expect(rt, "memory")
}

/// A text, then others, and whatever ends it all. Each of the others is these parts, each with the number of the other behind it,
/// and a last part.
#[derive(Clone, Copy)]
struct TextPattern<'a> {
    before: &'a str,
    numbered: &'a [&'a str],
    last: &'a str,
    after: &'a str,
}

/// Parts, each with a number behind it.
fn append_numbered(rt: &impl Abort, text: &mut String, parts: &[&str], number: &str) {
    for &part in parts {
        append(rt, text, part);
        append(rt, text, number);
    }
}

/// A text in which others stand so many times.
fn repeated(rt: &impl Abort, alloc: Global, pattern: TextPattern<'_>, times: u64) -> String {
    let mut text = joined(rt, alloc, &[pattern.before]);
    for number in 0..times {
        let digits = decimal(rt, alloc, number);
        append_numbered(rt, &mut text, pattern.numbered, digits.as_str());
        append(rt, &mut text, pattern.last);
    }
    append(rt, &mut text, pattern.after);
    text
}

fn design_of(rt: &impl Abort, alloc: Global, source: &str) -> Design {
    read_design(alloc, source.as_bytes()).expect(rt, "a design")
}

/// What a lawful journal replays to.
fn replayed(rt: &impl Abort, alloc: Global, design: &Design, entries: &[Entry]) -> Replayed {
    replay(alloc, design, entries).expect(rt, "a lawful journal")
}

fn words_of(rt: &impl Abort, alloc: Global, line: &str) -> Vec<String> {
    let mut words = Vec::new(alloc);
    for word in line.split(' ') {
        let word = joined(rt, alloc, &[word]);
        words.push(word).expect(rt, "memory");
    }
    words
}

fn shared(rt: &impl Abort, alloc: Global, bytes: &[u8]) -> Shared {
    let mut before = Vec::new(alloc);
    before.extend_from_slice(bytes).expect(rt, "memory");
    Rc::new(alloc, RefCell::new(before)).expect(rt, "memory")
}

/// The bytes that a writer put there.
fn copy(rt: &impl Abort, alloc: Global, bytes: &Shared) -> Vec<u8> {
    match bytes.try_borrow() {
        Ok(bytes) => bytes.clone().expect(rt, "memory"),
        Err(_) => Vec::new(alloc),
    }
}

fn files_in<'a>(
    rt: &impl Abort,
    alloc: Global,
    setting: &Setting<'a>,
    made: &Shared,
) -> FilesInMemory<'a> {
    FilesInMemory {
        alloc,
        source: setting.source.as_bytes(),
        journal: setting.journal,
        made: made.clone().expect(rt, "memory"),
        room: setting.room,
        flushes: setting.flushes,
    }
}

fn output(rt: &impl Abort, setting: &Setting<'_>, shown: &Shared) -> Counted<Target> {
    Counted::new(Target {
        room: setting.out_room,
        flushes: setting.out_flushes,
        written: shown.clone().expect(rt, "memory"),
    })
}

/// The status of a command line. Tests share this call of `command`, since it is dear to prove.
fn status_of<R: Threads + Wait + Sync, F: Files, O: Write, E: Write>(
    rt: &R,
    alloc: Global,
    files: &mut F,
    words: &[String],
    out: &mut Counted<O>,
    err: &mut Counted<E>,
) -> u8 {
    command(rt, alloc, words, files, out, err)
}

/// What a command line leaves in a setting.
fn run_in<R: Abort + Threads + Wait + Sync>(
    rt: &R,
    alloc: Global,
    line: &str,
    setting: &Setting<'_>,
) -> Left {
    let words = words_of(rt, alloc, line);
    let made = shared(rt, alloc, OLD);
    let shown = shared(rt, alloc, b"");
    let mut files = files_in(rt, alloc, setting, &made);
    let mut out = output(rt, setting, &shown);
    let mut err = Counted::new(Vec::new(alloc));
    let status = status_of(rt, alloc, &mut files, words.as_slice(), &mut out, &mut err);
    Left {
        status,
        out: copy(rt, alloc, &shown),
        err: err.into_inner(),
        made: copy(rt, alloc, &made),
    }
}

/// What a command line leaves where `t.v` is this source.
fn run_line<R: Abort + Threads + Wait + Sync>(
    rt: &R,
    alloc: Global,
    line: &str,
    source: &str,
) -> Left {
    run_in(rt, alloc, line, &over(source))
}

fn assert_status(rt: &impl Abort, what: &str, status: u8, wanted: u8) {
    holds_of(rt, status == wanted, "the status", what);
}

fn assert_bytes(rt: &impl Abort, what: &str, bytes: &[u8], wanted: &[u8]) {
    holds(rt, bytes == wanted, what);
}

fn assert_left(rt: &impl Abort, what: &str, left: &Left, wanted: Expected<'_>) {
    assert_status(rt, what, left.status, wanted.status);
    assert_bytes(rt, what, left.out.as_slice(), wanted.out.as_bytes());
    assert_bytes(rt, what, left.err.as_slice(), wanted.err.as_bytes());
}

/// A run printed one of the texts, and told of no fault.
fn assert_texts(rt: &impl Abort, source: &str, left: &Left, texts: EitherText<'_>) {
    assert_status(rt, source, left.status, 0);
    assert_bytes(rt, source, left.err.as_slice(), b"");
    holds(rt, texts.has(left.out.as_slice()), source);
}

/// A command line leaves this in a setting.
fn assert_in<R: Abort + Threads + Wait + Sync>(
    rt: &R,
    alloc: Global,
    what: &str,
    line: &str,
    setting: &Setting<'_>,
    wanted: Expected<'_>,
) {
    assert_left(rt, what, &run_in(rt, alloc, line, setting), wanted);
}

/// A command line leaves this in a setting, and these bytes in OUT.
fn assert_made<R: Abort + Threads + Wait + Sync>(
    rt: &R,
    alloc: Global,
    line: &str,
    setting: &Setting<'_>,
    wanted: Expected<'_>,
    made: &[u8],
) {
    let left = run_in(rt, alloc, line, setting);
    assert_left(rt, line, &left, wanted);
    assert_bytes(rt, line, left.made.as_slice(), made);
}

/// A command line leaves this where `t.v` is this source.
fn assert_line<R: Abort + Threads + Wait + Sync>(
    rt: &R,
    alloc: Global,
    line: &str,
    source: &str,
    wanted: Expected<'_>,
) {
    assert_in(rt, alloc, line, line, &over(source), wanted);
}

/// A replay of a run's journal prints the lines of the run.
fn assert_replayed<R: Abort + Threads + Wait + Sync>(
    rt: &R,
    alloc: Global,
    source: &str,
    left: &Left,
) {
    let kept = over_journal(source, left.made.as_slice());
    let again = run_in(rt, alloc, REPLAY, &kept);
    assert_status(rt, source, again.status, 0);
    assert_bytes(rt, source, again.err.as_slice(), b"");
    assert_bytes(rt, source, again.out.as_slice(), left.out.as_slice());
}
