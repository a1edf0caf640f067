//! Files that are included (19.5), as far as they are known.

ghost use Rattle.std.specs.Prelude.{◌≡◌, IfOk, IfSome, string_bytes};
ghost use Rattle.std.specs.List.{Contains};
ghost use Rattle.preprocess.specs.Sources.{FindsKnown};

use lexemes::token::SourceFile;
use std::alloc::{AllocError, Global};
use std::str;

/// A path at which a file was looked up, and the file's text; none where there is no file, or where it can't be read.
#[derive(Drop)]
pub struct KnownFile {
    pub path: String,
    pub text: Option<Vec<u8>>,
}

/// What is known of a file that is included.
#[derive(Drop)]
pub(crate) enum Lookup {
    /// It is this one, under the name of its path.
    Found(SourceFile),
    /// At none of the paths that it may have there is a file.
    Missing,
    /// At this path, which it may have, nobody has looked it up.
    Unknown(String),
}

/// The folder of a path, with the slash at its end; nothing where the path has none.
fn folder_of(path: &str) -> &str {
    match path.rfind('/') {
        Some(place) => path.split_at(place + 1).0,
        None => "",
    }
}

/// The path that is made of a folder, which ends in a slash or is empty, and a name.
fn path_in(alloc: Global, folder: &str, name: &str) -> Result<String, AllocError> {
    let mut path = String::from_str(alloc, folder)?;
    if !folder.is_empty() && !folder.ends_with('/') {
        path.push('/')?;
    }
    path.push_str(name)?;
    Ok(path)
}

/// What is known of the file of a path.
fn known_at<'k>(known: &'k [KnownFile], path: &str) -> Option<&'k KnownFile>
    ensures known { IfSome result (λ found. Contains known.entry.now found.now) }
    ensures path { IfSome result (λ found. string_bytes found.now.path ≡ path.now) }
{
    for file in known {
        if file.path.as_str() == path {
            return Some(file);
        }
    }
    None
}

/// What is known of a file at the path that is made of a folder and a name.
fn look_in(
    alloc: Global,
    known: &[KnownFile],
    folder: &str,
    name: &str,
) -> Result<Lookup, AllocError>
    ensures { IfOk result (λ found. FindsKnown known.now found) }
{
    let path = path_in(alloc, folder, name)?;
    let Some(file) = known_at(known, path.as_str()) else {
        return Ok(Lookup::Unknown(path));
    };
    match &file.text {
        Some(text) => {
            let text = Vec::from_slice(alloc, text.as_slice())?;
            Ok(Lookup::Found(SourceFile { name: path, text }))
        }
        None => Ok(Lookup::Missing),
    }
}

/// What is known of the file of a name: as it stands where it begins with a slash, else beside the file that includes it, and then
/// in each of these folders.
pub(crate) fn find(
    alloc: Global,
    known: &[KnownFile],
    includer: &str,
    folders: &[String],
    name: &[u8],
) -> Result<Lookup, AllocError>
    ensures { IfOk result (λ found. FindsKnown known.now found) }
{
    let Ok(name) = str::from_utf8(name) else {
        return Ok(Lookup::Missing);
    };
    if name.starts_with('/') {
        return look_in(alloc, known, "", name);
    }
    match look_in(alloc, known, folder_of(includer), name)? {
        Lookup::Missing => find_in(alloc, known, folders, name),
        beside => Ok(beside),
    }
}

/// What is known of the file of a name in the first of these folders that has it, or of which that isn't known.
fn find_in(
    alloc: Global,
    known: &[KnownFile],
    folders: &[String],
    name: &str,
) -> Result<Lookup, AllocError>
    ensures { IfOk result (λ found. FindsKnown known.now found) }
{
    for folder in folders {
        match look_in(alloc, known, folder.as_str(), name)? {
            Lookup::Missing => {}
            other => return Ok(other),
        }
    }
    Ok(Lookup::Missing)
}
