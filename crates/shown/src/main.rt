//! Runs each command line of standard input as `vsimtx` would, and prints behind each what it leaves: its output, its lines on
//! standard error, each with a `!` before it, and its status. A line `show FILE` prints a file that one of them made, as a
//! journal. The lines are the commands of docs/tutorial.md, and then worked rows, whose sources and journals stand in
//! data/rows: each tells by its name what it shows.
#![tactic(auto)]

use files::SystemFiles;
use journal::Counted;
use program::command;
use std::alloc::{AllocError, Global};
use std::{fs, io};

// Runs the lines one after another. It fails where one isn't read, or where what comes of it isn't written.
fn main(rt: HostRuntime) -> io::Result<()> {
    let alloc = rt.alloc();
    for line in rt.lines(alloc) {
        let line = line?;
        println!(rt; "$ {line}")?;
        if let Some(path) = line.strip_prefix("show ") {
            print!(rt; "{}", fs::read_to_string(&rt, path)?)?;
            continue;
        }
        let words = words_of(alloc, line.as_str())?;
        let mut files = SystemFiles {
            rt: &rt,
            stdout: rt.stdout(),
            stderr: rt.stderr(),
        };
        let mut out = Counted::new(rt.stdout());
        let mut err = Counted::new(Vec::new(alloc));
        let status = command(&rt, alloc, words.as_slice(), &mut files, &mut out, &mut err);
        show_errors(&mut rt.stdout(), err.into_inner().as_slice())?;
        println!(rt; "status {status}")?;
    }
    Ok(())
}

// Writes a text of standard error, each of its lines behind a mark.
fn show_errors(out: &mut impl io::Write, text: &[u8]) -> io::Result<()> {
    for line in text.split_inclusive(|byte| *byte == b'\n') {
        out.write_all(b"!")?;
        out.write_all(line)?;
    }
    Ok(())
}

// The words of a line, between its spaces.
fn words_of(alloc: Global, line: &str) -> Result<Vec<String>, AllocError> {
    let mut words = Vec::new(alloc);
    for word in line.split(' ') {
        words.push(String::from_str(alloc, word)?)?;
    }
    Ok(words)
}
