//! What is told of a race that parts texts.

use races::Race;
use runs::run::RunRecord;

/// A race that parts two texts: the run that has the one, in which it shows, and the race, whose second run is apart from it.
#[derive(Drop)]
pub struct PartingRace {
    pub original: RunRecord,
    pub race: Race,
}
