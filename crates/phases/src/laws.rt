// Laws of the definitions, so that the check asks for their proofs.

ghost use Rattle.phases.specs.Combinational.{CombinationalIsBlock};

/// A process that is combinational by its text computes a block, whatever the values of the registers.
pub fn combinational_processes_are_blocks()
    ensures { CombinationalIsBlock }
{}
