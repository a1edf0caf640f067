//! Journals of texts that are known before a search: they are saved once the races that name them are told.

ghost use Rattle.std.specs.Prelude.{◌≡◌, IfSome, None, length, map, option_map};
ghost use Rattle.files.specs.FileStatuses.{IsFileStatus, file_status};
ghost use Rattle.program.specs.EarlyJournals.{AreSavedEarly};

use arguments::RacesRequest;
use explore::Shown;
use files::{FileFault, Files, save_all};
use model::end::End;
use model::entry::Entry;
use std::alloc::Global;

/// The journals that were saved before a search: how many there are, and why not all of them were, if one wasn't.
#[derive(Drop)]
pub(crate) struct SavedEarly {
    pub(crate) count: usize,
    pub(crate) fault: Option<FileFault<'static>>,
}

impl SavedEarly {
    /// None, and each of them was.
    pub(crate) fn none() -> SavedEarly
        ensures count { result.count ≡ 0 }
        ensures fault { result.fault ≡ None }
    {
        SavedEarly {
            count: 0,
            fault: None,
        }
    }
}

/// Saves the journals of texts that are known before a search, where journals are wanted. What fails is kept: it is told behind the search.
pub(crate) fn save_early<F: Files>(
    alloc: Global,
    known: &[Shown<Entry, End>],
    request: &RacesRequest<'_>,
    files: &mut F,
) -> SavedEarly
    ensures count { result.count ≡ length known.now }
    ensures fault { IfSome result.fault (λ fault. IsFileStatus (file_status fault)) }
    ensures saved { AreSavedEarly (F.made files.old) (F.made files.new) (option_map (λ path. path.now) request.now.journals) (length known.now) (map (λ s. s.moves.items) known.now) result.fault }
{
    let (file, prefix) = (request.file, request.journals);
    match save_all(alloc, known, 0, file, prefix, files) {
        Ok(()) => SavedEarly {
            count: known.len(),
            fault: None,
        },
        Err(fault) => SavedEarly {
            count: known.len(),
            fault: Some(fault),
        },
    }
}
