// Laws of the definitions, so that the check asks for their proofs.

ghost use Rattle.heldways.specs.HeldWays.{CertifiedKeepOff, HeldEndsInOneNode, HeldWayCovers};

/// Where the steps of all but held processes are certified, and keep off what is held, they do so whichever of them come first, and all
/// that is active leads to one loose node. A way through it covers whatever leads on from its start.
pub fn held_ways_cover()
    ensures keep { CertifiedKeepOff }
    ensures node { HeldEndsInOneNode }
    ensures covers { HeldWayCovers }
{}
