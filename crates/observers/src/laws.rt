//! Laws of the observers, so that the check asks for their proofs.
ghost use Rattle.observers.specs.Observers.{ObserversSeeAlike};
ghost use Rattle.observers.specs.OneWave.{OneSightTellsRegisters};

/// Each observer sees the same of states that are alike in classes, and of all states in which a run has finished. And what is seen of states
/// tells the values of the registers that are seen, unless the run has finished in both.
pub fn observers_have_their_laws()
    ensures alike { ObserversSeeAlike }
    ensures registers { OneSightTellsRegisters }
{}
