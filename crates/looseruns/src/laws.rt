// Laws of the definitions, so that the check asks for their proofs.

ghost use Rattle.model.specs.Runs.{Effect};
ghost use Rattle.looseruns.specs.LooseMoveLaws.{EntryHasTransition, MoveIsLooseStep, LooseStepHasMove, AlikeInStatesMoveAlike, TransitionIsTimely, MovesKeepOrder, MovesAreLooseRun, OneLooseNodeMovesOn, LooseRunHasMoves};
ghost use Rattle.looseruns.specs.LooseRunLaws.{AlikeLooseRunsServe, AlikeHeldRunsAreAlike, LooseRunsBeginSilent, AllLooseShownAreAll, LooseEndlessIsEndless};
ghost use Rattle.looseruns.specs.LooseGoing.{NoMoveStays, LooseStepGoesOn, LooseWaysGoOn, MovesLeadToNext, MovesLeadToEnd};
ghost use Rattle.looseruns.specs.LooseCover.{FollowedMovesCover, CoveringMovesCover, CoveringLooseIsCovered, FollowingLooseIsCovered};
ghost use Rattle.looseruns.specs.ObservedLaws.{ObservedRunIsRun, NothingSeenIsPlain, AlikeObservedRunsServe, AlikeHeldObservedAreAlike, ObservedRunsBeginSilent, AllObservedShownAreAll, ObservedEndlessIsEndless};
ghost use Rattle.looseruns.specs.ObservedGoing.{NoObservedMoveStays, ObservedStepGoesOn, LooseWayIsObserved, ObservedWaysGoOn, ObservedMovesLeadToNext, ObservedMovesLeadToEnd, ObservedStandsAgain};
ghost use Rattle.looseruns.specs.ObservedCover.{TimePassesAlone, FollowedMovesCoverObserved, CoveringMovesCoverObserved, CoveringObservedIsCovered, FollowingObservedIsCovered};
ghost use Rattle.looseruns.specs.ObservedSole.{CoveringMovesAreObserved, ObservedMovesCover, ObservedSoleWaysGoOn};
ghost use Rattle.looseruns.specs.ObservedEnding.{CoveringToFinishIsCovered};
ghost use Rattle.looseruns.specs.RegisterObserver.{RegistersAreSeenAlike, UnfinishedAreSeenAlike, UnfinishedTextIsText};
ghost use Rattle.looseruns.specs.RegisterSights.{SightsTellRegisters, AsciiDesignsPrintNoMark, OneTextIsOneWave};

/// The laws of transitions and of runs. They are, in their order:
///
/// - A transition does the same in states that are alike in classes, and so do transitions one after another.
/// - A move is a loose step of its transition, each loose step has its move, and an entry is in time where its transition is. What comes of
///   transitions comes of as many entries, and the other way round up to likeness in classes; the events stay in the order of their numbers.
/// - Entries that step loosely lead on by their transitions, one after another, and ways cover a loose run where each transition is followed,
///   or where they cover what leads on from a like state.
/// - To observe a run changes neither its states nor its changes, and an observer that sees nothing leaves its lines.
/// - An observer of the time and of some registers sees the same of states that are alike in classes, and so does one that sees nothing where
///   the run has finished, before which texts are the same.
/// - What is seen of registers tells their values, and journals of one observed text have the same values of them whenever time passes, in a
///   design that prints no mark, as one whose formats are of ASCII.
/// - Transitions lead on one after another before an observer, too. Where time passes at the first of them alone, or nowhere, what is seen
///   there stands before their lines. So ways that cover what leads on line by line cover what an observer sees of it, and ways that stand
///   for all that it sees do so one behind another.
pub fn runs_have_their_laws()
    ensures alike_in_states_move_alike { AlikeInStatesMoveAlike }
    ensures one_loose_node_moves_on { OneLooseNodeMovesOn }
    ensures entry_has_transition { EntryHasTransition }
    ensures move_is_loose_step { MoveIsLooseStep }
    ensures loose_step_has_move { LooseStepHasMove }
    ensures transition_is_timely { TransitionIsTimely }
    ensures moves_are_loose_run { MovesAreLooseRun }
    ensures loose_run_has_moves { LooseRunHasMoves }
    ensures moves_keep_order { MovesKeepOrder }
    ensures no_move_stays { NoMoveStays }
    ensures loose_step_goes_on { LooseStepGoesOn }
    ensures loose_ways_go_on { LooseWaysGoOn }
    ensures followed_moves_cover { FollowedMovesCover }
    ensures covering_moves_cover { CoveringMovesCover }
    ensures observed_run_is_run { ObservedRunIsRun }
    ensures nothing_seen_is_plain { NothingSeenIsPlain }
    ensures registers_are_seen_alike { RegistersAreSeenAlike }
    ensures unfinished_are_seen_alike { UnfinishedAreSeenAlike }
    ensures unfinished_text_is_text { UnfinishedTextIsText }
    ensures sights_tell_registers { SightsTellRegisters }
    ensures ascii_designs_print_no_mark { AsciiDesignsPrintNoMark }
    ensures one_text_is_one_wave { OneTextIsOneWave }
    ensures no_observed_move_stays { NoObservedMoveStays }
    ensures observed_step_goes_on { ObservedStepGoesOn }
    ensures loose_way_is_observed { LooseWayIsObserved }
    ensures observed_ways_go_on { ObservedWaysGoOn }
    ensures time_passes_alone { TimePassesAlone }
    ensures followed_moves_cover_observed { FollowedMovesCoverObserved }
    ensures covering_moves_cover_observed { CoveringMovesCoverObserved }
    ensures covering_moves_are_observed { CoveringMovesAreObserved }
    ensures observed_moves_cover { ObservedMovesCover }
    ensures observed_sole_ways_go_on { ObservedSoleWaysGoOn }
{}

/// Whatever the nodes of a search are. It has no code: the laws below are of any nodes.
pub trait AnyNodes {
    /// A node.
    type Node;

    /// What a node holds.
    ghost holds: { Self.Node → Effect → Type 0 };
}

/// The laws of the nodes at which runs stand, and of what is shown, without an observer and before one. They are, in their order:
///
/// - Loose runs that come to one loose node, and to one text, go on alike, and a search may keep one of them for both. Nothing is printed or
///   seen before their first transition.
/// - What all loose runs show, all lawful journals show, and where no loose run comes to an end, no lawful one does.
/// - Transitions lead on from what a node holds to its successors and its ends.
/// - A loose run is covered where the ways to its successors cover it, or each entry that steps loosely has the transition of one; or, before
///   an observer, where they and ways to where the run has finished cover it.
pub fn nodes_have_their_laws<N: AnyNodes>()
    ensures alike_loose_runs_serve { AlikeLooseRunsServe N.holds }
    ensures alike_held_runs_are_alike { AlikeHeldRunsAreAlike N.holds }
    ensures loose_runs_begin_silent { LooseRunsBeginSilent N.holds }
    ensures all_loose_shown_are_all { AllLooseShownAreAll N.holds }
    ensures loose_endless_is_endless { LooseEndlessIsEndless N.holds }
    ensures moves_lead_to_next { MovesLeadToNext N.holds }
    ensures moves_lead_to_end { MovesLeadToEnd N.holds }
    ensures covering_loose_is_covered { CoveringLooseIsCovered N.holds }
    ensures following_loose_is_covered { FollowingLooseIsCovered N.holds }
    ensures alike_observed_runs_serve { AlikeObservedRunsServe N.holds }
    ensures alike_held_observed_are_alike { AlikeHeldObservedAreAlike N.holds }
    ensures observed_runs_begin_silent { ObservedRunsBeginSilent N.holds }
    ensures all_observed_shown_are_all { AllObservedShownAreAll N.holds }
    ensures observed_endless_is_endless { ObservedEndlessIsEndless N.holds }
    ensures observed_moves_lead_to_next { ObservedMovesLeadToNext N.holds }
    ensures observed_moves_lead_to_end { ObservedMovesLeadToEnd N.holds }
    ensures observed_stands_again { ObservedStandsAgain N.holds }
    ensures covering_observed_is_covered { CoveringObservedIsCovered N.holds }
    ensures following_observed_is_covered { FollowingObservedIsCovered N.holds }
    ensures covering_to_finish_is_covered { CoveringToFinishIsCovered N.holds }
{}
