//! The texts that were found.

use explore::Shown;
use model::end::End;
use model::entry::Entry;
use verdict::Claim;

/// The texts that were found, each with its end and a journal, what is claimed of them, and the journal of a lawful run that comes to no end, where it is claimed that
/// there are such runs. Of a search that left something out, a time before which it didn't, if that is known, and a journal that leads to where most ways lead on, if there is
/// one.
#[derive(Drop)]
pub struct FoundTexts {
    pub claim: Claim,
    pub shown: Vec<Shown<Entry, End>>,
    pub endless: Option<Vec<Entry>>,
    pub followed_before: Option<u64>,
    pub widest: Option<Vec<Entry>>,
}

/// Texts that were found, and what is said of them last.
#[derive(Drop)]
pub struct ToldTexts {
    pub texts: FoundTexts,
    pub lines: Vec<u8>,
}
