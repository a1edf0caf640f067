// Laws of the definitions, so that the check asks for their proofs.

ghost use Rattle.orders.specs.OrderLaws.{AlikeIsEquivalence, StartIsInOrder, StepKeepsOrder, RunIsInOrder, AlikeStatesStepAlike, TransitionHasOneOutcome, AlikeStatesEndAlike};
ghost use Rattle.orders.specs.Canon.{CanonTellsAlike};
ghost use Rattle.orders.specs.Apart.{TurnHasFrame};
ghost use Rattle.orders.specs.SearchLaws.{UnlimitedRunIsTimely, OneNodeGoesOn, EachTransitionCovers, CompleteShowsAll};

/// States that are alike are so in either direction, and through a third. They are those that have the same form.
pub fn alike_is_equivalence()
    ensures equivalence { AlikeIsEquivalence }
    ensures form { CanonTellsAlike }
{}

/// The events of each region stand in the order of their numbers, at the start and after each step.
pub fn events_stay_in_order()
    ensures start { StartIsInOrder }
    ensures step { StepKeepsOrder }
    ensures run { RunIsInOrder }
{}

/// What one of two alike states does in a step, the other does by an entry of the same transition; and one transition has one outcome.
pub fn alike_states_step_alike()
    ensures step { AlikeStatesStepAlike }
    ensures transitions { TransitionHasOneOutcome }
{}

/// A run may end in one of two alike states as in the other.
pub fn alike_states_end_alike()
    ensures { AlikeStatesEndAlike }
{}

/// From one node runs go on alike. A node that is followed by each of its transitions is covered, and where each node is covered
/// the search has shown whatever a lawful run in time may print. Where no time limit is given, every lawful run is in time.
pub fn searches_are_complete()
    ensures goes_on { OneNodeGoesOn }
    ensures covers { EachTransitionCovers }
    ensures shows { CompleteShowsAll }
    ensures timely { UnlimitedRunIsTimely }
{}

/// A short turn is the same on every store that has the same values of the registers that it used.
pub fn turns_have_a_frame()
    ensures { TurnHasFrame }
{}
