//! The program `vsimtx`: it gives its words, the system's files, standard output and standard error to `command`, and ends
//! with the status that `command` answers.
#![tactic(auto)]

use files::SystemFiles;
use journal::Counted;
use program::{command, without_words};
use std::alloc::Global;
use std::process::ExitCode;
use std::{env, io};

// Runs `command`, or tells why there are no words for it.
fn main(rt: HostRuntime) -> ExitCode {
    let alloc = rt.alloc();
    let mut files = SystemFiles {
        rt: &rt,
        stdout: rt.stdout(),
        stderr: rt.stderr(),
    };
    let mut out = Counted::new(rt.stdout());
    let mut err = Counted::new(rt.stderr());
    let status = match words(&rt, alloc) {
        Ok(words) => command(&rt, alloc, words.as_slice(), &mut files, &mut out, &mut err),
        Err(error) => without_words(&error, &mut err),
    };
    ExitCode::from(status)
}

// The words of the command line. Fails where memory is refused, or where one isn't UTF-8.
fn words<R: std::rt::Env + AllocGlobal>(rt: &R, alloc: Global) -> io::Result<Vec<String>> {
    let words = env::args(rt)?.collect(alloc)?;
    Ok(words)
}
