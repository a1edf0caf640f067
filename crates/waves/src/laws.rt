//! Laws of the definitions, so that the check asks for their proofs.

ghost use Rattle.waves.specs.IdentifierCodes.{CodesDiffer};
ghost use Rattle.waves.specs.Waves.{AdvancesRise};

/// In a lawful journal each advance goes to a later time.
pub fn advances_rise()
    ensures { AdvancesRise }
{}

/// No two registers have one identifier code.
pub fn codes_differ()
    ensures { CodesDiffer }
{}
