//! Files that are read.

ghost use Rattle.std.specs.Prelude.{IfOk};
ghost use Rattle.files.specs.Reading.{inner};
ghost use Rattle.files.specs.Saved.{IsHeld, IsOpened, KeepsFiles, KeepsHeld};

use crate::fault::FileFault;
use crate::files::Files;
use std::alloc::Global;
use std::io;
use std::io::{ErrorKind, Read};

/// A file of which an interrupted read is made again.
#[derive(Drop)]
pub struct Retrying<R> {
    file: R,
}

impl<R: Read> Read for Retrying<R> {
    ghost remaining = { λ retrying. R.remaining retrying.file };

    fn read(&mut self, buf: &mut [u8]) -> io::Result<usize> {
        for _ in 0..u64::MAX {
            match self.file.read(buf) {
                Err(error) if error.kind() == ErrorKind::Interrupted => {}
                answer => return answer,
            }
        }
        Err(io::Error::from(ErrorKind::Interrupted))
    }
}

/// The bytes of a file.
pub fn read_file<'a, F: Files>(
    alloc: Global,
    path: &'a str,
    files: &mut F,
) -> Result<Vec<u8>, FileFault<'a>>
    ensures kept { KeepsFiles (F.made files.old) (F.made files.new) }
    ensures read { IfOk result (λ text. IsHeld (F.held files.old) path.now text.items) }
    ensures held { KeepsHeld (F.held files.old) (F.held files.new) }
{
    let mut file = open_file(path, files)?;
    let mut text = Vec::new(alloc);
    match file.read_to_end(&mut text) {
        Ok(_) => Ok(text),
        Err(error) => Err(unread(path, &error)),
    }
}

/// Opens a file for reading.
pub fn open_file<'a, F: Files>(
    path: &'a str,
    files: &mut F,
) -> Result<Retrying<F::Source>, FileFault<'a>>
    ensures kept { KeepsFiles (F.made files.old) (F.made files.new) }
    ensures opened { IfOk result (λ opened. IsOpened (F.held files.old) path.now (F.Source.remaining (inner opened))) }
    ensures held { KeepsHeld (F.held files.old) (F.held files.new) }
{
    match files.open(path) {
        Ok(file) => Ok(Retrying { file }),
        Err(error) => Err(unread(path, &error)),
    }
}

/// Why a file wasn't read: want of memory is told as such.
fn unread<'a>(path: &'a str, error: &io::Error) -> FileFault<'a> {
    match error.kind() {
        ErrorKind::OutOfMemory => FileFault::Memory,
        _ => FileFault::CannotRead(path),
    }
}
