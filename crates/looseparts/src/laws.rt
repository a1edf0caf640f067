// Laws of the definitions, so that the check asks for their proofs.

ghost use Rattle.looseparts.specs.EndingCover.{CoveringToEndsIsCovered};
ghost use Rattle.looseparts.specs.PartLaws.{FollowedStand, ApartStand, StandingCovers, NoEndsCover};

use looseruns::laws::AnyNodes;

/// What stands for all that some actors do is put together from what comes after each of their first steps, and from what stands for
/// parts that are apart.
pub fn what_stands_is_put_together()
    ensures followed { FollowedStand }
    ensures apart { ApartStand }
{}

/// What ways by parts cover is covered in a search, whatever its nodes are.
pub fn covering_to_ends<N: AnyNodes>()
    ensures { CoveringToEndsIsCovered N.holds }
{}

/// What stands for all who wait covers whatever leads on.
pub fn standing_covers()
    ensures to_ends { StandingCovers }
    ensures no_ends { NoEndsCover }
{}
