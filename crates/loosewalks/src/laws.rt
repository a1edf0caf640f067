// Laws of the definitions, so that the check asks for their proofs.

ghost use Rattle.loosewalks.specs.Sole.{LikeReachedGoesOn, AlikeStandForAll, SoleLooseWaysGoOn, OnlyEntryStandsForAll};
ghost use Rattle.loosewalks.specs.EventWays.{CertifiedWayStandsForAll, PhaseWayStandsForAll};

/// Ways that stand for all, one after another, stand for all together, and from states that are alike the same ways do. Where they lead
/// to is like what a loose run comes to, if their begin is.
pub fn sole_ways_go_on()
    ensures reached { LikeReachedGoesOn }
    ensures alike { AlikeStandForAll }
    ensures ways { SoleLooseWaysGoOn }
{}

/// The only entry that may be taken stands for all.
pub fn only_entries_stand_for_all()
    ensures { OnlyEntryStandsForAll }
{}

/// The actors of a certified run stand for all where nobody waits after it.
pub fn certified_ways_stand_for_all()
    ensures { CertifiedWayStandsForAll }
{}

/// A way through a phase of combinational processes stands for all.
pub fn phase_ways_stand_for_all()
    ensures { PhaseWayStandsForAll }
{}
