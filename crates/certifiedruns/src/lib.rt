//! Certified runs as ways of a search: where nobody waits after one, it covers by itself whatever loose runs lead on from its start.
//! The definition stands in `specs/`; `laws` carries what is proved of it.
#![tactic(auto)]

pub mod laws;
