//! Whether steps are apart by their notes.
ghost use Rattle.std.specs.Prelude.{◌≡◌, true, ◌&&◌, ◌==◌};
ghost use Rattle.std.specs.List.{list_any};
ghost use Rattle.footprints.specs.Footprints.{process_of_actor};
ghost use Rattle.certificates.specs.Masks.{meet};
ghost use Rattle.certificates.specs.Notes.{StandApart};
ghost use Rattle.certificates.specs.Apart.{differ, share, ConcernOthers, LeaveRegisters, WakeNoneOf, TellApart, SayApart};

use crate::note::StepNote;
use crate::numbers::MaskedNumbers;
use loose::transition::LooseTransition;

// Whether these are two different actors.
fn are_different(one: LooseTransition, other: LooseTransition) -> bool
    ensures { result ≡ differ one other }
{
    match (one, other) {
        (LooseTransition::Process(p), LooseTransition::Process(q)) => p != q,
        (LooseTransition::FirstOf(c), LooseTransition::FirstOf(d)) => c != d,
        (LooseTransition::Process(_), LooseTransition::FirstOf(_)) => true,
        (LooseTransition::FirstOf(_), LooseTransition::Process(_)) => true,
        _ => false,
    }
}

// Whether the process of an actor, if it is one, is among these.
fn is_among(owner: LooseTransition, processes: &MaskedNumbers) -> bool
    ensures { result ≡ meet (process_of_actor owner) processes.now }
{
    match owner {
        LooseTransition::Process(process) => processes.contains(process),
        _ => false,
    }
}

// Whether no process is concerned by both: as the one whose turn it is, or as one that is woken.
fn concern_others(one: &StepNote, other: &StepNote) -> bool
    ensures so { result ≡ true → ConcernOthers one.now other.now }
    ensures only_so { ConcernOthers one.now other.now → result ≡ true }
{
    are_different(one.owner, other.owner)
        && !is_among(one.owner, &other.woken)
        && !is_among(other.owner, &one.woken)
        && !one.woken.meets(&other.woken)
}

// Whether no register is written by both, nor used by one and changed by the other.
fn leave_registers(one: &StepNote, other: &StepNote) -> bool
    ensures so { result ≡ true → LeaveRegisters one.now other.now }
    ensures only_so { LeaveRegisters one.now other.now → result ≡ true }
{
    !one.writes.meets(&other.writes)
        && !one.changes.touch(&other.uses)
        && !other.changes.touch(&one.uses)
}

// Whether no change of a step wakes who goes on to wait after another, or whom that concerns.
fn wakes_none_of(one: &StepNote, other: &StepNote) -> bool
    ensures so { result ≡ true → WakeNoneOf one.now other.now }
    ensures only_so { WakeNoneOf one.now other.now → result ≡ true }
{
    !one.changes.may_wake(&other.awaits) && !one.changes.may_wake(&other.ended)
}

// Whether a class has an update for this time from these.
fn is_assigned(class: u32, due: u64, others: &[(u32, u64)]) -> bool
    ensures { result ≡ list_any (λ b. (b.0 == class) && (b.1 == due)) others.now }
{
    others
        .iter()
        .any(|other| other.0 == class && other.1 == due)
}

// Whether a class has an update for one time from both.
fn share_a_time(ones: &[(u32, u64)], others: &[(u32, u64)]) -> bool
    ensures { result ≡ share ones.now others.now }
{
    ones.iter().any(|one| is_assigned(one.0, one.1, others))
}

// Whether not both print, not both meet a `$strobe`, and where one finishes, the other neither prints nor finishes.
fn tell_apart(one: &StepNote, other: &StepNote) -> bool
    ensures so { result ≡ true → TellApart one.now other.now }
    ensures only_so { TellApart one.now other.now → result ≡ true }
{
    !(one.prints && other.prints)
        && !(one.strobes && other.strobes)
        && !(one.finishes && (other.prints || other.finishes))
        && !(other.finishes && (one.prints || one.finishes))
}

/// Whether two steps are apart by what their notes say. Where they are, whatever steps the notes tell of may be taken in either order.
pub fn apart(one: &StepNote, other: &StepNote) -> bool
    ensures apart { result ≡ true → StandApart one.now other.now }
    ensures so { result ≡ true → SayApart one.now other.now }
    ensures only_so { SayApart one.now other.now → result ≡ true }
{
    if !concern_others(one, other) {
        return false;
    }
    if !leave_registers(one, other) {
        return false;
    }
    if !wakes_none_of(one, other) {
        return false;
    }
    if !wakes_none_of(other, one) {
        return false;
    }
    if share_a_time(one.assigns.as_slice(), other.assigns.as_slice()) {
        return false;
    }
    tell_apart(one, other)
}
