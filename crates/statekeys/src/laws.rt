// Laws of the definitions, so that the check asks for their proofs.

ghost use Rattle.statekeys.specs.KeyLaws.{KeysTellStates, ClassKeysTellStates, GroupingIsUnique};

/// States of one design that have one key are alike: they differ only in the numbers of their events, and in the order in which
/// evaluations stand.
pub fn keys_tell_states()
    ensures { KeysTellStates }
{}

/// States of one design that have one class key are alike in classes: they differ only in the numbers of their events, and in the
/// order in which evaluations and updates of different classes stand.
pub fn class_keys_tell_states()
    ensures { ClassKeysTellStates }
{}

/// Updates that differ only in the order of those of different classes are grouped in one way, so that a class key tells nothing
/// of that order.
pub fn grouping_is_unique()
    ensures { GroupingIsUnique }
{}
