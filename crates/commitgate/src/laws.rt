//! A law of the ledgers of a gate, so that the check asks for its proof.
ghost use Rattle.commitgate.specs.GateJournals.{BookAddsUp};

/// In a ledger that names workers alone, the numbers of entries in their names add up to the journal's.
pub fn shares_add_up()
    ensures { BookAddsUp }
{}
