//! A file of the system that is written beside the place where it is to stand.

use std::alloc::Global;
use std::fs::{Metadata, OpenFile, OpenOptions};
use std::io::{ErrorKind, Write};
use std::os::unix::fs::{MetadataExt, OpenOptionsExt, chown};
use std::path::Path;
use std::{fs, io};

/// How many names are tried.
const NAMES: u32 = 10_000;

/// What a file that is made may have that takes the place of none.
const ALL: u32 = 0o666;

/// A new file beside its place, in the same folder. It is removed where it is dropped.
pub struct Beside<'a, R: std::rt::Files> {
    rt: &'a R,
    file: R::File,
    name: String,
    place: String,
}

impl<R: std::rt::Files> Drop for Beside<'_, R> {
    fn drop(self) {
        let Beside {
            rt,
            file: _,
            name,
            place: _,
        } = self;
        let _ = fs::remove_file(rt, name.as_str());
    }
}

impl<R: std::rt::Files> Beside<'_, R> {
    /// Takes its place once all that was written is on its way to the disk, where a full one is told of.
    pub fn take_place(self) -> io::Result<()> {
        self.file.sync_data()?;
        fs::rename(self.rt, self.name.as_str(), self.place.as_str())?;
        let Beside {
            rt: _,
            file: _,
            name: _,
            place: _,
        } = self;
        Ok(())
    }
}

impl<R: std::rt::Files> Write for Beside<'_, R> {
    fn write(&mut self, buf: &[u8]) -> io::Result<usize> {
        self.file.write(buf)
    }

    fn flush(&mut self) -> io::Result<()> {
        self.file.flush()
    }
}

/// Begins a file beside a place, with the permissions of the old one there.
pub fn begin_beside<'a, R: std::rt::Files + AllocGlobal>(
    rt: &'a R,
    place: &str,
    old: Option<&Metadata>,
) -> io::Result<Beside<'a, R>> {
    if !names_a_file(place) {
        return Err(io::Error::from(ErrorKind::InvalidFilename));
    }
    let alloc = rt.alloc();
    let place = String::from_str(alloc, place)?;
    let (file, name) = make_beside(rt, alloc, place.as_str(), mode_of(old))?;
    if let Some(old) = old {
        keep_permissions(rt, name.as_str(), old);
    }
    Ok(Beside {
        rt,
        file,
        name,
        place,
    })
}

/// Whether a path ends in the name of a file: an empty one, a root and one that ends in a slash or dots don't.
fn names_a_file(path: &str) -> bool {
    match Path::new(path).file_name() {
        Some(name) => path.ends_with(name),
        None => false,
    }
}

/// The permissions with which a file is made: those of the old one, or what any new one may have.
fn mode_of(old: Option<&Metadata>) -> u32 {
    match old {
        Some(old) => old.mode() & 0o777,
        None => ALL,
    }
}

/// Makes a file in the folder of a place, under the first name that is free.
fn make_beside<R: std::rt::Files>(
    rt: &R,
    alloc: Global,
    place: &str,
    mode: u32,
) -> io::Result<(R::File, String)> {
    let mut how = OpenOptions::new();
    how.write(true).create_new(true).mode(mode);
    for number in 0..NAMES {
        let name = name_beside(alloc, place, number)?;
        match how.open(rt, name.as_str()) {
            Ok(file) => return Ok((file, name)),
            Err(error) if error.kind() == ErrorKind::AlreadyExists => {}
            Err(error) => return Err(error),
        }
    }
    Err(io::Error::from(ErrorKind::AlreadyExists))
}

/// The path of the file beside a place that has this number in its name.
fn name_beside(alloc: Global, place: &str, number: u32) -> io::Result<String> {
    let name = format!(in alloc; ".vsimtx-{number}.part")?;
    let path = Path::new(place).with_file_name(alloc, name.as_str())?;
    Ok(path.into_string())
}

/// Gives a new file what the old one has, as far as the system lets it: it began with no more.
fn keep_permissions<R: std::rt::Files>(rt: &R, name: &str, old: &Metadata) {
    let _ = chown(rt, name, Some(old.uid()), Some(old.gid()));
    let _ = fs::set_permissions(rt, name, old.permissions());
}
