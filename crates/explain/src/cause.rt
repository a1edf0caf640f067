//! Why an entry isn't taken, as lines say it.

ghost use Rattle.std.specs.Prelude.{◌≡◌};
ghost use Rattle.replay.specs.declared.fault.Cause.TheVariants.{Refused};
ghost use Rattle.explain.specs.ExplainedEnd.{code_text, rule_text, said_text};

use model::entry::Refusal;
use replay::Cause;

/// What is said of an entry that isn't taken.
pub(crate) fn said(cause: Cause) -> &'static str
    ensures { result.now ≡ said_text cause }
{
    match cause {
        Cause::Refused(_) | Cause::TooLong => " isn't lawful",
        Cause::TooMany | Cause::ApplyMemory | Cause::Memory | Cause::Start(_) => " isn't taken",
    }
}

/// The name of a cause, behind a colon; of a refusal it is the rule that the entry breaks (11.4).
pub fn cause_code(cause: Cause) -> &'static str
    ensures { result.now ≡ code_text cause }
{
    match cause {
        Cause::Refused(refusal) => refusal_code(refusal),
        Cause::TooLong => ": turn too long",
        Cause::TooMany => ": too many entries",
        Cause::ApplyMemory | Cause::Memory | Cause::Start(_) => ": memory",
    }
}

// The code and the name of a rule that an entry breaks (11.4), behind a colon.
fn refusal_code(refusal: Refusal) -> &'static str
    ensures { result.now ≡ code_text (Refused refusal) }
{
    match refusal {
        Refusal::NotActive => ": J1 event not active",
        Refusal::EarlierUpdate => ": J2 earlier update active",
        Refusal::NotDue => ": J3 region change not due",
        Refusal::WrongTime => ": J4 wrong time",
        Refusal::PastLimit => ": J5 time limit",
        Refusal::Finished => ": J6 finished",
    }
}

/// The rule that an entry breaks, or what else is the cause, in words: of events that are taken, of changes of the regions, and of
/// any entry.
pub(crate) fn cause_rule(cause: Cause) -> &'static str
    ensures { result.now ≡ rule_text cause }
{
    match cause {
        Cause::Refused(Refusal::NotActive) => "an entry takes an event that is active",
        Cause::Refused(Refusal::EarlierUpdate) =>
            "active updates are taken in the order of their numbers",
        Cause::TooLong => "a turn has at most 65536 counted steps",
        Cause::Refused(Refusal::NotDue) =>
            "a region changes once each earlier one is empty and it has an event",
        Cause::Refused(Refusal::WrongTime) => "time advances to the least time of a future event",
        Cause::Refused(Refusal::PastLimit) => "no time goes past 281474976710656",
        Cause::TooMany => "a machine takes at most 4294967295 entries",
        Cause::Refused(Refusal::Finished) => "nothing follows $finish",
        Cause::ApplyMemory | Cause::Memory | Cause::Start(_) => "memory was refused",
    }
}
