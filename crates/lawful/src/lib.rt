//! The lawful orders of a design, found by a search of its loose runs.
//!
//! 1. A `LooseNode` is where a loose run has come to: the machine that took its transitions, up to the order of updates of different
//!    classes.
//! 2. `expand` goes on from a node by the one way that stands for all, where there is one. Else it goes on by ways of parts that are apart,
//!    where these stand for all (`by_parts`), or follows each loose transition that may be taken there; and it tells the ends that a run may
//!    have.
//! 3. Where the search asks for the node of a run that it didn't keep, `again` takes the transitions from a node that it kept.
//! 4. `lawful_orders` gives that to the search of `explore`. Each lawful journal is a loose run, so that where the search answers that all is
//!    covered, the texts and ends of all lawful journals in time are shown.
//! 5. `journals` gives each text that is shown its lawful journal, and `endless` one to a run from which no run comes to an end.
//! 6. `observed_orders` searches for what an observer sees of all lawful journals besides their lines. `observed_ways` tells what it sees of the
//!    ways from a node, each of which goes on no further than to where time passes. `retold` tells each of them anew.
//! 7. Before an observer lines of one time have no order: `arranged_ways` tells them once the time is over, in one order, and until then they stand in
//!    the nodes. `tail_key` makes them a part of a node's key, `seen_again` makes such a node again, and `arranged_journals` finds the journal.
//! 8. `telling` has what differs between the two searches: what is told of ways and of ends, and how a run gets its lawful journal.
//!
//! The definitions stand in `specs/`. The runs that are searched are those of `looseruns`, and what they say of lawful journals is proved
//! there.
#![tactic(auto)]

mod again;
mod arranged_journals;
mod arranged_ways;
mod by_parts;
mod endless;
mod expand;
mod journals;
mod lawful;
mod node;
mod observed_ways;
mod retold;
mod search;
mod search_room;
mod seen_again;
mod tail_key;
mod telling;

pub use lawful::{lawful_orders, observed_orders};
pub use node::LooseNode;
