//! Where bytes, tokens and processes stand in a source, for people.
//!
//! 1. `lines` has the line and the column of a byte, as a terminal shows them.
//! 2. `spot` passes white space and comments, and has each token with its byte.
//! 3. `location` answers where a byte, a token or a process stands.
//! 4. `excerpt` shows a line of a source, with a caret below a byte.
//!
//! What the layer above uses: `location_of_byte` and `processes`, whose answers `specs/SourceLocations` pins, and `push_excerpt`,
//! `push_shown_path` and `push_shown_bytes`, whose texts `specs/ShownText` does.
#![tactic(auto)]

mod excerpt;
mod lines;
mod location;
mod spot;

pub use excerpt::{push_excerpt, push_shown_bytes, push_shown_path};
pub use lines::last_line;
pub use location::{
    Location, ProcessLocation, before, is_process, location_of_byte, location_of_token, processes,
};
pub use spot::{Spot, behind_skipped, spots};
