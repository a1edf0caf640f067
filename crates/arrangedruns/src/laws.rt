// Laws of the definitions, so that the check asks for their proofs.

ghost use Rattle.model.specs.Runs.{Effect};
ghost use Rattle.wavetexts.specs.Reading.{ReadText};
ghost use Rattle.arrangedruns.specs.ArrangedLaws.{AlikeArrangedRunsServe, AlikeHeldArrangedAreAlike, AllArrangedShownAreAll, ArrangedEndlessIsEndless, ArrangedRunsBeginSilent};

/// Whatever the nodes of a search are, and what of a text each has. It has no code: the laws below are of any nodes.
pub trait AnyArrangedNodes {
    /// A node.
    type Node;

    /// What a node holds.
    ghost holds: { Self.Node → Effect → Type 0 };

    /// What of a text a node has.
    ghost tail: { Self.Node → ReadText };
}

/// The laws of arranged runs. They are, in their order:
///
/// - Runs that come to one arranged node serve one another, and those at which nodes stand with the same rest are such runs.
/// - Nothing is in order for good before the first transition.
/// - Where all arranged runs are shown, so is what is observed of each lawful journal, in order; and where none of them comes to an end, none does
///   before the observer.
pub fn arranged_runs_have_their_laws<N: AnyArrangedNodes>()
    ensures alike_arranged_runs_serve { AlikeArrangedRunsServe N.holds N.tail }
    ensures alike_held_arranged_are_alike { AlikeHeldArrangedAreAlike N.holds N.tail }
    ensures arranged_runs_begin_silent { ArrangedRunsBeginSilent N.holds N.tail }
    ensures all_arranged_shown_are_all { AllArrangedShownAreAll N.holds N.tail }
    ensures arranged_endless_is_endless { ArrangedEndlessIsEndless N.holds N.tail }
{}
