// Laws of the definitions, so that the check asks for their proofs.

ghost use Rattle.certifiedruns.specs.CertifiedCover.{CertifiedWayCovers};

/// The actors of a certified run, after which nobody waits, are a way that covers what leads on from its start.
pub fn certified_ways_cover()
    ensures { CertifiedWayCovers }
{}
