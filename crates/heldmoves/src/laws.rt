// Laws of the definitions, so that the check asks for their proofs.

ghost use Rattle.heldmoves.specs.HeldMoves.{HeldStepsAreMoves, HeldStepsHaveSwaps};

/// While some processes are held, the loose steps of the others are a system of moves, in which steps that are apart may be exchanged.
pub fn held_steps_are_moves()
    ensures moves { HeldStepsAreMoves }
    ensures swaps { HeldStepsHaveSwaps }
{}
