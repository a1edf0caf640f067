//! Loose runs as a search follows them: told by their transitions, whose numbers a state gives, in place of entries.
//!
//! 1. A *move* is what comes of a loose transition in a state (`LooseMoves`). Moves are loose steps, each loose step has its move, and
//!    moves go on alike from states that are alike in classes.
//! 2. The runs of moves in time are runs of a search (`LooseRuns`). Where all of them are shown, the lines and the end of each lawful
//!    journal in time are shown.
//! 3. Ways from such a run cover what comes after it (`LooseCover`), and so do the single moves where each is followed.
//!
//! 4. An *observer* sees bytes of each state from which time passes, and of the last one (`ObservedJournals`, `ObservedMoves`). The runs of moves
//!    with what is seen are runs of a search, too (`ObservedRuns`), and ways cover them (`ObservedCover`, `ObservedSole`, `ObservedEnding`). One
//!    observer sees the time and some registers (`RegisterObserver`), and its texts tell their values (`RegisterSights`).
//!
//! The definitions stand in `specs/`; `laws` carries what is proved, and `observed_end` has how an observed run ends.
#![tactic(auto)]

pub mod laws;
pub mod observed_end;
