//! A file whose bytes are taken and never come to the disk, as on one that is full: it isn't put into its place.

use super::claims::holds;
use files::begin_beside;
use std::alloc::{Allocator, Global};
use std::fs::{Metadata, OpenFile, OpenOptions};
use std::io;
use std::io::{ErrorKind, Read, Seek, SeekFrom, Write};
use std::process::Abort;
use std::rt::Files;

/// A disk on which no file is, and on which a new one can be made, written and moved, and never brought to the disk.
#[derive(Drop)]
struct FullDisk;

/// A new file of that disk.
#[derive(Drop)]
struct FullFile;

fn refused<T>(kind: ErrorKind) -> io::Result<T> {
    Err(io::Error::from(kind))
}

impl Read for FullFile {
    fn read(&mut self, _buf: &mut [u8]) -> io::Result<usize> {
        Ok(0)
    }
}

impl Write for FullFile {
    fn write(&mut self, buf: &[u8]) -> io::Result<usize> {
        Ok(buf.len())
    }

    fn flush(&mut self) -> io::Result<()> {
        Ok(())
    }
}

impl Seek for FullFile {
    fn seek(&mut self, _to: SeekFrom) -> io::Result<u64> {
        refused(ErrorKind::Unsupported)
    }
}

impl OpenFile for FullFile {
    fn metadata(&self) -> io::Result<Metadata> {
        refused(ErrorKind::Unsupported)
    }

    fn set_len(&self, _size: u64) -> io::Result<()> {
        refused(ErrorKind::StorageFull)
    }

    fn sync_all(&self) -> io::Result<()> {
        refused(ErrorKind::StorageFull)
    }

    fn sync_data(&self) -> io::Result<()> {
        refused(ErrorKind::StorageFull)
    }
}

impl Files for FullDisk {
    type File = FullFile;

    type Dir = FullFile;

    fn open_file(&self, _how: &OpenOptions, _path: &str) -> io::Result<FullFile> {
        Ok(FullFile)
    }

    fn open_dir(&self, _path: &str) -> io::Result<FullFile> {
        refused(ErrorKind::NotFound)
    }

    fn metadata(&self, _path: &str) -> io::Result<Metadata> {
        refused(ErrorKind::NotFound)
    }

    fn symlink_metadata(&self, _path: &str) -> io::Result<Metadata> {
        refused(ErrorKind::NotFound)
    }

    fn copy(&self, _from: &str, _to: &str) -> io::Result<u64> {
        refused(ErrorKind::Unsupported)
    }

    fn rename(&self, _from: &str, _to: &str) -> io::Result<()> {
        Ok(())
    }

    fn remove_file(&self, _path: &str) -> io::Result<()> {
        Ok(())
    }

    fn create_dir(&self, _path: &str) -> io::Result<()> {
        refused(ErrorKind::Unsupported)
    }

    fn remove_dir(&self, _path: &str) -> io::Result<()> {
        refused(ErrorKind::Unsupported)
    }

    fn remove_dir_all<B: Allocator>(&self, _alloc: B, _path: &str) -> io::Result<()> {
        refused(ErrorKind::Unsupported)
    }
}

/// Why a file of some bytes isn't put into its place there.
fn fault_of(rt: &impl Abort, alloc: Global) -> Option<ErrorKind> {
    let disk = (FullDisk, alloc);
    let mut beside = begin_beside(&disk, "OUT", None).expect(rt, "a file that is begun");
    beside
        .write_all(b"vsimtx-journal 2\n")
        .expect(rt, "a write");
    match beside.take_place() {
        Ok(()) => None,
        Err(error) => Some(error.kind()),
    }
}

#[test]
fn takes_no_place_before_it_is_on_the_disk(rt: HostRuntime) {
    let fault = fault_of(&rt, rt.alloc());
    holds(
        &rt,
        fault == Some(ErrorKind::StorageFull),
        "a full disk is told",
    );
}
