//! What a fault says of a whole journal.

ghost use Rattle.replay.specs.JournalFaults.{FaultsAreJust};

/// A fault that isn't for want of memory or for too many entries says that the journal isn't lawful.
pub fn faults_are_just()
    ensures { FaultsAreJust }
{}
