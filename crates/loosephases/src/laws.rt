// Laws of the definitions, so that the check asks for their proofs.

ghost use Rattle.loosephases.specs.LoosePhase.{LoosePhaseEndsInOneNode, LoosePhaseStepsOn, LoosePhaseCompletes, LoosePhaseIsPrefix, LoosePhaseCovers};
ghost use Rattle.loosephases.specs.Held.{HeldIsPutOff, HeldStaysHeld, PhaseIsHeld, HeldIsPrefix, HeldCovers};

/// Whichever events of a phase come first in loose runs, it ends in one node, where its members settle between its begin and one of its
/// ends; each loose run to an end begins with a way through the phase, and so the node at its end covers the loose runs from its begin.
pub fn loose_phases_are_one_way()
    ensures node { LoosePhaseEndsInOneNode }
    ensures prefix { LoosePhaseIsPrefix }
    ensures covers { LoosePhaseCovers }
{}

/// Loose steps never get stuck in a phase, and it ends after boundedly many, whichever they are.
pub fn loose_phases_end()
    ensures steps { LoosePhaseStepsOn }
    ensures completes { LoosePhaseCompletes }
{}

/// Where other events are active besides, the turns of combinational processes may be put off until the others are done, if the
/// others use and await none of what these would change, and the members settle between the begin and the end: step by step the members
/// are held still. Each loose run to an end first comes to where none is active, and so the ways that put them off are enough. In a phase
/// the members are held, with nothing besides.
pub fn held_turns_may_be_put_off()
    ensures node { HeldIsPutOff }
    ensures stays { HeldStaysHeld }
    ensures phase { PhaseIsHeld }
    ensures prefix { HeldIsPrefix }
    ensures covers { HeldCovers }
{}
