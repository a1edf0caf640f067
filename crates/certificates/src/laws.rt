// Laws of the definitions, so that the check asks for their proofs.

ghost use Rattle.certificates.specs.CertificateLaws.{CertifiedIsCertificate, CertifiedStandsForAll, CertifiedIsPrefix};

/// A run of which each step is apart from each later one that doesn't come of it, by what their footprints say, is a certificate: it
/// gives nobody an event who has one, since in loose runs each process has one event at most, and none while it waits. So it stands
/// for all runs from its start.
pub fn certified_runs_are_certificates()
    ensures certificate { CertifiedIsCertificate }
    ensures stands { CertifiedStandsForAll }
{}

/// Where nobody waits after such a run, whatever loose run goes on to an end does the same first.
pub fn certified_runs_come_first()
    ensures { CertifiedIsPrefix }
{}
