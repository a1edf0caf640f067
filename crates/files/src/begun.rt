//! Files that are begun, and put into their places when they are whole.

ghost use Rattle.std.specs.Prelude.{◌≡◌, IfErr, IfOk, OnErr, OnOk, option_map};
ghost use Rattle.files.specs.FileStatuses.{IsFileStatus, file_status};
ghost use Rattle.files.specs.Saved.{AreEmpty, ClosesFile, HoldsNothing, KeepsFiles, LeadsElsewhere, LeadsThere};

use crate::fault::FileFault;
use crate::files::Files;
use std::io;
use std::io::ErrorKind;

/// A file that was begun for a path. Where it is dropped, nothing is there that wasn't before.
#[derive(Drop)]
pub struct Begun<'a, T> {
    pub path: &'a str,
    pub target: T,
}

/// Refuses an OUT that would take the place of a source, before either is opened.
pub fn spare_source<F: Files>(
    source: &str,
    out: Option<&str>,
    files: &F,
) -> Result<(), FileFault<'static>>
    ensures spared { OnOk result (LeadsElsewhere (F.alike files.now) source.now (option_map (λ path. path.now) out.entry)) }
    ensures refused { OnErr result (LeadsThere (F.alike files.now) source.now (option_map (λ path. path.now) out.entry)) }
    ensures fault { IfErr result (λ fault. fault ≡ FileFault.CannotWrite) }
{
    match out {
        Some(out) if files.same(source, out) => Err(FileFault::CannotWrite),
        _ => Ok(()),
    }
}

/// Begins a file for OUT, where that is given.
pub fn begin<'a, F: Files>(
    out: Option<&'a str>,
    files: &mut F,
) -> Result<Option<Begun<'a, F::Target>>, FileFault<'static>>
    ensures kept { KeepsFiles (F.made files.old) (F.made files.new) }
    ensures path { IfOk result (λ begun. option_map (λ one. one.path.now) begun ≡ option_map (λ path. path.now) out.entry) }
    ensures empty { IfOk result (λ begun. AreEmpty (F.made files.new) (option_map (λ one. F.Target.contents one.target) begun)) }
    ensures fault { IfErr result (λ fault. IsFileStatus (file_status fault)) }
{
    match out {
        Some(path) => {
            let target = begin_at(path, files)?;
            Ok(Some(Begun { path, target }))
        }
        None => Ok(None),
    }
}

/// Begins a file. Want of memory is told as such.
pub fn begin_at<F: Files>(path: &str, files: &mut F) -> Result<F::Target, FileFault<'static>>
    ensures kept { KeepsFiles (F.made files.old) (F.made files.new) }
    ensures empty { IfOk result (λ target. HoldsNothing (F.made files.new) (F.Target.contents target)) }
    ensures fault { IfErr result (λ fault. IsFileStatus (file_status fault)) }
{
    match files.begin(path) {
        Ok(target) => Ok(target),
        Err(error) => Err(unwritten(&error)),
    }
}

/// Puts a file that was begun and written whole into its place.
pub fn finish_at<F: Files>(
    path: &str,
    target: F::Target,
    files: &mut F,
) -> Result<(), FileFault<'static>>
    ensures finished { OnOk result (ClosesFile (F.made files.old) (F.made files.new) path.now (F.Target.contents target)) }
    ensures unfinished { OnErr result (KeepsFiles (F.made files.old) (F.made files.new)) }
    ensures fault { IfErr result (λ fault. IsFileStatus (file_status fault)) }
{
    match files.finish(path, target) {
        Ok(()) => Ok(()),
        Err(error) => Err(unwritten(&error)),
    }
}

/// Why a file wasn't written: want of memory is told as such.
fn unwritten(error: &io::Error) -> FileFault<'static>
    ensures { IsFileStatus (file_status result) }
{
    match error.kind() {
        ErrorKind::OutOfMemory => FileFault::Memory,
        _ => FileFault::CannotWrite,
    }
}
