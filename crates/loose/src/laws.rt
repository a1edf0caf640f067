// Laws of the definitions, so that the check asks for their proofs.

ghost use Rattle.loose.specs.LooseLaws.{LooseStepIsExact, OneClassIsStrict, StepIsLoose, RunIsLoose, AlikeInIsEquivalence, AlikeIsAlikeIn, OneClassIsAlike, LooseStepKeepsOrder, LooseRunKeepsOrder, AlikeInStatesStepAlike, LooseTransitionHasOneOutcome, AlikeInStatesEndAlike, OneLooseNodeGoesOn};

/// In which cases an entry is permitted loosely, and what comes of it. Where all registers are of one class, these are the steps.
pub fn loose_steps_are_exact()
    ensures exact { LooseStepIsExact }
    ensures strict { OneClassIsStrict }
{}

/// Whatever a step does, a loose step does, and so each lawful journal is a loose one, with what comes of it.
pub fn lawful_runs_are_loose()
    ensures step { StepIsLoose }
    ensures run { RunIsLoose }
{}

/// States that are alike up to the order of updates of different classes are so in either direction, and through a third. Alike
/// states are so, whatever the classes are; where all registers are of one class, these are the alike ones.
pub fn alike_in_is_equivalence()
    ensures equivalence { AlikeInIsEquivalence }
    ensures alike { AlikeIsAlikeIn }
    ensures one_class { OneClassIsAlike }
{}

/// The events of each region stand in the order of their numbers after each loose step, and so after loose runs.
pub fn events_stay_in_order()
    ensures step { LooseStepKeepsOrder }
    ensures run { LooseRunKeepsOrder }
{}

/// What one of two such states does in a loose step, the other does by an entry of the same loose transition; and one loose
/// transition has one outcome.
pub fn alike_in_states_step_alike()
    ensures step { AlikeInStatesStepAlike }
    ensures outcome { LooseTransitionHasOneOutcome }
{}

/// A run may end in one of two such states as in the other, and however it goes on from one, it goes on from the other.
pub fn alike_in_states_end_alike()
    ensures ends { AlikeInStatesEndAlike }
    ensures goes_on { OneLooseNodeGoesOn }
{}
