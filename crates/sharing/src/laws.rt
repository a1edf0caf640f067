// Laws of the definitions, so that the check asks for their proofs.

ghost use Rattle.sharing.specs.Sharing.{EarlierStringsStay};

/// What a byte string was shortened to goes on telling it while parts are added.
pub fn earlier_strings_stay()
    ensures { EarlierStringsStay }
{}
