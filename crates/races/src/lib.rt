//! The races of a design, named from one run's turns, and each shown by a second run.
//!
//! 1. `find_races` makes one run of the design, and finds which of its entries conflict (the crate `conflicts`).
//! 2. A conflict is tried by a second run (`exchange`, and `follow` for its parts), in which the order of the two alone is turned: the
//!    first run up to the earlier entry, what stands between the two and doesn't depend on the earlier one, the later one, the earlier one,
//!    and then the transitions of the first run as far as they may be taken (`guide`). Where entries between the two tie them together, it
//!    is compared with another one too, in which the two keep their order behind the same entries. They are lawful since a machine made
//!    them.
//! 3. Where the second run is apart from the first, a machine that is led to the two entries in the first
//!    run confirms what each does there, and one led to them in the second that they come the other way round.
//!    Then it is a race (`trials`).
//! 4. Where both print the same and end alike, the two journals are followed beside each other (`beside`), to the first time that passes when
//!    registers differ. The first such difference is kept, by machines that are led there (`unseen`).
//!
//! What the layer above uses: the contract of `find_races`. The first run and that of each race are lawful and in time, their
//! lines and ends are told, and the two are apart; the two processes do in the first run what the race says, and come the other way
//! round in the second. No race is told twice, and what cut the list is told. So is a difference that no line shows.
#![tactic(auto)]

mod beside;
mod exchange;
mod follow;
mod guide;
mod race_search;
mod search;
mod told;
mod trials;
mod unseen;

pub use search::find_races;
pub use told::{Found, Race, is_line_order, numbers_of};
pub use trials::{is_of, is_told};
pub use unseen::UnseenDifference;
