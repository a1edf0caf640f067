// Laws of the definitions, so that the check asks for their proofs.

ghost use Rattle.traces.specs.Traces.{Moves};
ghost use Rattle.traces.specs.TraceLaws.{Projected, WholeWays, InAnyOrder, EndingWays, WaysTogether, WaysStandFor};
ghost use Rattle.traces.specs.StandsFor.{StepsStandFor, PartsStandFor, LargerSets};
ghost use Rattle.traces.specs.Certificates.{EachGoesOn, CertificateStandsForAll, CertificateStandsFor};

/// Any system of moves. It has no code: the laws below are of whatever moves there are.
pub trait System {
    /// Where a run stands.
    type State;

    /// Who takes steps.
    type Actor;

    /// What a step has to do with others.
    type Footprint;

    /// What is kept of many footprints.
    type Summary;

    /// The moves.
    ghost moves: { Moves Self.State Self.Actor Self.Footprint };

    /// A footprint is within a summary.
    ghost within: { Self.Footprint → Self.Summary → Type 0 };
}

/// What each part does in a run is a run by itself, and a whole one where the run is.
pub fn runs_have_parts<M: System>()
    ensures projected { Projected M.moves }
    ensures whole { WholeWays M.moves }
{}

/// What the parts do in a run may be done one part after another.
pub fn parts_go_in_any_order<M: System>()
    ensures { InAnyOrder M.moves }
{}

/// A run that ends prints what the part that ends it does alone.
pub fn ends_are_of_one_part<M: System>()
    ensures { EndingWays M.moves }
{}

/// Ways of all parts, one after another, are a run, and of ways that lead to states that are alike one stands for the other.
pub fn ways_go_together<M: System>()
    ensures together { WaysTogether M.moves }
    ensures stand_for { WaysStandFor M.moves }
{}

/// What stands for all that a set of actors does is put together from what comes after each of its first steps, and from what
/// stands for its parts. It does so for a larger set of which nobody else waits.
pub fn what_was_found_stands_for_all<M: System>()
    ensures steps { StepsStandFor M.moves M.within }
    ensures parts { PartsStandFor M.moves M.within }
    ensures larger { LargerSets M.moves M.within }
{}

/// A run that is a certificate stands for all runs from its start, and one of some actors alone for all that these do.
pub fn certificates_stand_for_all<M: System>()
    ensures goes_on { EachGoesOn M.moves }
    ensures ends { CertificateStandsForAll M.moves }
    ensures found { CertificateStandsFor M.moves M.within }
{}
