//! The system's files.
//!
//! 1. A file that is written is begun beside its place, under a name of its own, and moved there when it is whole.
//! 2. Only a regular file, or none, is replaced so, and where a path is a link, it is the file that it leads to. A device, a pipe
//!    and a link that leads nowhere are opened as they are.
//! 3. What standard output is, is written through standard output, so that lines follow what was written.
//! 4. How far long work is, is shown where standard error is a terminal; beside a standard output that is one, only work that writes
//!    nothing until it ends.

use crate::beside::{Beside, begin_beside};
use crate::files::Files;
use crate::showing::SystemProgress;
use std::fs::{Metadata, OpenOptions};
use std::io::{ErrorKind, Input, IsTerminal, Print, Printer, Read, Stderr, Stdout, Write};
use std::os::unix::fs::{FileTypeExt, MetadataExt};
use std::rt::Clock;
use std::{fs, io};

/// Standard input, as the path of a source.
const INPUT: &str = "-";

/// The system's files.
#[derive(Drop)]
pub struct SystemFiles<'a, R: std::rt::Files> {
    pub rt: &'a R,
    pub stdout: Stdout,
    pub stderr: Stderr,
}

impl<'a, R: std::rt::Files + Input + Print + Clock + AllocGlobal + Sync> Files
    for SystemFiles<'a, R> {
    type Source = SystemSource<R::File, R::Reader>;

    type Target = SystemTarget<'a, R>;

    type Progress = SystemProgress<'a, R>;

    /// Opens a file of the system, or standard input where the path says so.
    fn open(&mut self, path: &str) -> io::Result<SystemSource<R::File, R::Reader>> {
        if path == INPUT {
            return Ok(SystemSource::Input(self.rt.reader()));
        }
        let file = fs::open(self.rt, path)?;
        Ok(SystemSource::File(file))
    }

    /// Whether both paths lead to one file that keeps bytes; where a source leads nowhere, they don't.
    fn same(&self, source: &str, out: &str) -> bool {
        match fs::metadata(self.rt, system_path(source)) {
            Ok(source) => keeps_bytes(&source) && is_at(self.rt, out, &source),
            Err(_) => false,
        }
    }

    /// Begins a file over what is at its path, or where nothing is. Fails where the system doesn't tell what is there.
    fn begin(&mut self, path: &str) -> io::Result<SystemTarget<'a, R>> {
        match fs::metadata(self.rt, path) {
            Ok(old) => begin_over(self.rt, path, &old),
            Err(error) if error.kind() == ErrorKind::NotFound => begin_new(self.rt, path),
            Err(error) => Err(error),
        }
    }

    /// Moves a file that was begun beside its place there. One that was opened as it is stands there already.
    fn finish(&mut self, _path: &str, target: SystemTarget<'a, R>) -> io::Result<()> {
        match target {
            SystemTarget::Beside(beside) => beside.take_place(),
            SystemTarget::AsItIs(_) | SystemTarget::Output(_) => Ok(()),
        }
    }

    fn progress(&self) -> SystemProgress<'a, R> {
        SystemProgress::begin(self.rt, self.stderr, true)
    }

    fn progress_beside_output(&self) -> SystemProgress<'a, R> {
        SystemProgress::begin(self.rt, self.stderr, !self.stdout.is_terminal())
    }
}

/// A file that is read, or standard input.
#[derive(Drop)]
pub enum SystemSource<F, I> {
    File(F),
    Input(I),
}

impl<F: Read, I: Read> Read for SystemSource<F, I> {
    fn read(&mut self, buf: &mut [u8]) -> io::Result<usize> {
        match self {
            SystemSource::File(file) => file.read(buf),
            SystemSource::Input(input) => input.read(buf),
        }
    }
}

/// A file that was begun: beside its place, or opened as it is, or what standard output is.
#[derive(Drop)]
pub enum SystemTarget<'a, R: std::rt::Files> {
    Beside(Beside<'a, R>),
    AsItIs(R::File),
    Output(Printer<'a, R>),
}

impl<R: std::rt::Files + Print> Write for SystemTarget<'_, R> {
    fn write(&mut self, buf: &[u8]) -> io::Result<usize> {
        match self {
            SystemTarget::Beside(beside) => beside.write(buf),
            SystemTarget::AsItIs(file) => file.write(buf),
            SystemTarget::Output(output) => output.write(buf),
        }
    }

    fn flush(&mut self) -> io::Result<()> {
        match self {
            SystemTarget::Beside(_) => Ok(()),
            SystemTarget::AsItIs(file) => file.flush(),
            SystemTarget::Output(output) => output.flush(),
        }
    }
}

/// Where the system has what a source's path names.
fn system_path(source: &str) -> &str {
    if source == INPUT {
        "/dev/stdin"
    } else {
        source
    }
}

/// Whether it keeps the bytes that are written: a terminal, a pipe and a socket do not.
fn keeps_bytes(file: &Metadata) -> bool {
    file.is_file() || file.file_type().is_block_device()
}

/// Whether a path leads to this file.
fn is_at<R: std::rt::Files>(rt: &R, path: &str, file: &Metadata) -> bool {
    match fs::metadata(rt, path) {
        Ok(found) => found.dev() == file.dev() && found.ino() == file.ino(),
        Err(_) => false,
    }
}

/// Begins a file in the place of one that is there.
fn begin_over<'a, R: std::rt::Files + Print + AllocGlobal>(
    rt: &'a R,
    path: &str,
    old: &Metadata,
) -> io::Result<SystemTarget<'a, R>> {
    if is_at(rt, "/dev/stdout", old) {
        return Ok(SystemTarget::Output(io::writer(rt)));
    }
    if is_at(rt, "/dev/stderr", old) {
        return open_as_it_is(rt, path, OpenOptions::new().append(true));
    }
    if !old.is_file() || is_descriptor(path) {
        return open_as_it_is(rt, path, OpenOptions::new().write(true).truncate(true));
    }
    // It is opened, and left as it is: a file that may not be written isn't replaced.
    let _old = OpenOptions::new().write(true).open(rt, path)?;
    begin_replaced(rt, path, old)
}

/// Begins a file in the place of a regular one, to which a link may lead.
fn begin_replaced<'a, R: std::rt::Files + AllocGlobal>(
    rt: &'a R,
    path: &str,
    old: &Metadata,
) -> io::Result<SystemTarget<'a, R>> {
    if !fs::symlink_metadata(rt, path)?.is_symlink() {
        return Ok(SystemTarget::Beside(begin_beside(rt, path, Some(old))?));
    }
    let place = fs::canonicalize(rt, path)?.into_string();
    Ok(SystemTarget::Beside(begin_beside(rt, place.as_str(), Some(old))?))
}

/// Begins a file where none is. A link that leads nowhere is opened as it is, which makes the file that it names.
fn begin_new<'a, R: std::rt::Files + AllocGlobal>(
    rt: &'a R,
    path: &str,
) -> io::Result<SystemTarget<'a, R>> {
    match fs::symlink_metadata(rt, path) {
        Ok(_) => open_as_it_is(rt, path, OpenOptions::new().write(true).create(true)),
        Err(_) => Ok(SystemTarget::Beside(begin_beside(rt, path, None)?)),
    }
}

/// Opens what is at a path so that it is written directly, in this way.
fn open_as_it_is<'a, R: std::rt::Files>(
    rt: &'a R,
    path: &str,
    how: &OpenOptions,
) -> io::Result<SystemTarget<'a, R>> {
    let file = how.open(rt, path)?;
    Ok(SystemTarget::AsItIs(file))
}

/// Whether a path names what this process has open.
fn is_descriptor(path: &str) -> bool {
    path.starts_with("/dev/fd/") || path.starts_with("/proc/")
}
