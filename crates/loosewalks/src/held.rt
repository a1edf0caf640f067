//! A way of a walk through all that is active, in which combinational processes are held until the others are done, and those that wait for
//! their outputs sleep.
ghost use Rattle.std.specs.Prelude.{◌≡◌, true, length, IfOk, IfSome};
ghost use Rattle.settling.specs.Settling.{ArePendingOrSettled, AreSomeOf, MayBeHeld};
ghost use Rattle.loose.specs.Classes.{class_in};
ghost use Rattle.model.specs.Turns.{contains};
ghost use Rattle.model.specs.declared.end.Limits.{Limits};
ghost use Rattle.combinational.specs.Found.{IsNetworkOf};
ghost use Rattle.passing.specs.SleepThroughNotes.{SleepThroughNotes};
ghost use Rattle.loosewalks.specs.Held.{HasAddedHeldNote, HasTakenOthers, IsHeldStart, HasTakenHeld, HasHeld, HasHeldUntilSettled};
ghost use Rattle.noted.specs.NotedSteps.{IsOfOther};
ghost use Rattle.regions.specs.Machine.{state_at};

use crate::active::{NamedEntry, first_other};
use crate::certified::add_noted;
use crate::cone::{HeldCone, cone_beside, keep_off, unmet_by};
use crate::phase::take_on;
use crate::room::{LooseRoom, WalkScope};
use certificates::note::StepNote;
use noted::take_noted_beside;
use passing::{HeldOutputs, sleep_through};
use regions::Machine;
use settling::{
    Awaited, Begin, Sleeper, evaluated_processes, held_of, members_settled_since, settle_since,
    settled_of, sleepers_of, with_sleepers,
};
use std::alloc::{AllocError, Global};

// Takes the event of an entry while processes are held, and adds its note to the certificate and its transition to the way. Answers
// whether the notes certify.
fn take_other(
    machine: &mut Machine<'_>,
    classes: &[u32],
    held: &[u32],
    room: &mut LooseRoom,
    named: NamedEntry,
) -> Result<bool, AllocError>
    requires { IsOfOther (contains held.now) (state_at machine.old) named.entry }
    ensures added { IfOk result (λ all. all ≡ true → HasAddedHeldNote (class_in classes.now) held.now machine.old named machine.new room.old.certificate room.new.certificate room.old.way.items room.new.way.items) }
    ensures code { machine.new.code ≡ machine.old.code }
{
    room.way.push(named.transition)?;
    let taken = take_noted_beside(
        machine,
        classes,
        held,
        named.entry,
        &mut room.log,
        &mut room.note,
    );
    let all = add_noted(room, taken)?;
    Ok(all)
}

// Takes what is active but for events of held processes, one event after another with its note, until nothing else is. Answers whether it
// came to that, and the notes certify.
fn take_others(
    machine: &mut Machine<'_>,
    classes: &[u32],
    held: &[u32],
    room: &mut LooseRoom,
) -> Result<bool, AllocError>
    ensures taken { IfOk result (λ all. all ≡ true → (limits : Limits) → HasTakenOthers (class_in classes.now) limits held.now machine.old room.new.certificate room.new.way.items machine.new) }
    ensures code { machine.new.code ≡ machine.old.code }
{
    room.way.clear();
    room.certificate.clear();
    let most = room.most_events();
    for _ in 0..most {
        let named = match first_other(machine, classes, held) {
            Some(named) => named,
            None => return Ok(room.certificate.certifies()),
        };
        if !take_other(machine, classes, held, room, named)? {
            return Ok(false);
        }
    }
    room.spend(most);
    Ok(false)
}

/// What is held by a walk: these processes, until the others are done.
#[derive(Clone, Copy)]
pub(crate) struct HeldScope<'a> {
    pub(crate) scope: WalkScope<'a>,
    pub(crate) held: &'a [u32],
}

/// What is kept of where processes are held from: which were pending, which others sleep, both that are left aside, the time, and the values.
#[derive(Drop)]
pub(crate) struct HeldStart {
    pub(crate) pending: Vec<u32>,
    pub(crate) sleepers: Vec<Sleeper>,
    pub(crate) aside: Vec<u32>,
    pub(crate) time: u64,
    pub(crate) begin: Begin,
}

// What is kept of where a machine stands with processes that are held. None where one that waits for an output of theirs doesn't sleep.
fn start_of(holding: HeldScope<'_>, machine: &Machine<'_>) -> Result<Option<HeldStart>, AllocError>
    ensures { IfOk result (λ found. IfSome found (IsHeldStart machine.now holding.entry.scope.network.now holding.entry.held.now)) }
{
    let HeldScope { scope, held } = holding;
    let sleepers = match sleepers_of(scope.alloc, machine, scope.network, held)? {
        Some(sleepers) => sleepers,
        None => return Ok(None),
    };
    let aside = with_sleepers(scope.alloc, held, &sleepers)?;
    let (_, evaluations) = machine.state().active();
    let pending = evaluated_processes(scope.alloc, evaluations)?;
    let begin = Begin::of(scope.alloc, machine)?;
    Ok(Some(HeldStart {
        pending,
        sleepers,
        aside,
        time: machine.time(),
        begin,
    }))
}

// Whether who sleeps sleeps through the steps of the others, with this cone, and through all that is held meanwhile.
fn sleep_on(
    holding: HeldScope<'_>,
    start: &HeldStart,
    cone: &HeldCone,
    notes: &[StepNote],
    machine: &Machine<'_>,
) -> Result<bool, AllocError>
    requires { length start.now.begin.values ≡ length machine.now.code.widths }
    ensures { IfOk result (λ all. all ≡ true → SleepThroughNotes machine.now.code holding.entry.scope.network.now holding.entry.held.now cone.now.registers.items start.now.begin.values start.now.time notes.now start.now.sleepers.items) }
{
    if machine.time() != start.time {
        return Ok(false);
    }
    let HeldScope { scope, held } = holding;
    let outputs = HeldOutputs {
        network: scope.network,
        members: held,
        cone: &cone.registers,
        values: start.begin.values(),
    };
    sleep_through(scope.alloc, machine, outputs, &start.sleepers, notes)
}

// Takes what is held from such a start, once the others are done, by steps that the room has the notes of. Answers whether it came to where
// nothing is active, the steps of the others keep off what is held, and who sleeps sleeps through it.
fn take_rest(
    holding: HeldScope<'_>,
    start: &HeldStart,
    cone: &HeldCone,
    room: &mut LooseRoom,
    machine: &mut Machine<'_>,
) -> Result<bool, AllocError>
    requires { length start.now.begin.values ≡ length machine.old.code.widths }
    ensures done { IfOk result (λ all. all ≡ true → HasTakenHeld (class_in holding.entry.scope.rules.classes.now) holding.entry.scope.network.now holding.entry.held.now start.now machine.old room.old.certificate room.old.way.items machine.new room.new.way.items) }
    ensures code { machine.new.code ≡ machine.old.code }
{
    let HeldScope { scope, held } = holding;
    let notes = room.certificate.notes();
    let pending = start.pending.as_slice();
    if !keep_off(scope.alloc, scope.network, held, pending, cone, notes)? {
        room.rest = unmet_by(scope.alloc, scope.network, held, cone, notes)?;
        return Ok(false);
    }
    if !sleep_on(holding, start, cone, notes, machine)? {
        return Ok(false);
    }
    let all = take_on(machine, scope.rules.classes, &mut room.way)?;
    Ok(all)
}

// Takes all that is active from such a start: what is held comes last. Answers whether it came to where nothing is active, the steps of the
// others certify each other and keep off what is held, and who sleeps sleeps through it.
fn take_from(
    holding: HeldScope<'_>,
    start: &HeldStart,
    room: &mut LooseRoom,
    machine: &mut Machine<'_>,
) -> Result<bool, AllocError>
    requires { IsHeldStart machine.old holding.scope.network.now holding.held.now start.now }
    ensures done { IfOk result (λ all. all ≡ true → (limits : Limits) → MayBeHeld machine.old.code (state_at machine.old) holding.entry.scope.network.now holding.entry.held.now → HasHeld (class_in holding.entry.scope.rules.classes.now) limits machine.old holding.entry.scope.network.now holding.entry.held.now room.new.way.items machine.new) }
    ensures code { machine.new.code ≡ machine.old.code }
{
    let HeldScope { scope, held } = holding;
    room.tried = held.len();
    room.most = room.most.max(held.len());
    if !take_others(machine, scope.rules.classes, &start.aside, room)? {
        return Ok(false);
    }
    let notes = room.certificate.notes();
    let cone = cone_beside(scope.alloc, scope.network, held, &start.pending, notes)?;
    take_rest(holding, start, &cone, room, machine)
}

/// Takes all that is active: what is held comes last. Answers whether it came to where nothing is active, the steps of the others certify
/// each other and keep off what is held, and who waits for it sleeps through that.
pub(crate) fn take_held(
    holding: HeldScope<'_>,
    room: &mut LooseRoom,
    machine: &mut Machine<'_>,
) -> Result<bool, AllocError>
    ensures done { IfOk result (λ all. all ≡ true → (limits : Limits) → MayBeHeld machine.old.code (state_at machine.old) holding.entry.scope.network.now holding.entry.held.now → HasHeld (class_in holding.entry.scope.rules.classes.now) limits machine.old holding.entry.scope.network.now holding.entry.held.now room.new.way.items machine.new) }
    ensures code { machine.new.code ≡ machine.old.code }
{
    let start = match start_of(holding, machine)? {
        Some(start) => start,
        None => return Ok(false),
    };
    let all = take_from(holding, &start, room, machine);
    drop(start);
    all
}

// Takes all that is active from such a start. Answers whether it came to where nothing is active as above, and what is held settles until
// there. Where it doesn't, those of it that do are left in the room for the next try.
fn settle_from(
    holding: HeldScope<'_>,
    start: &HeldStart,
    room: &mut LooseRoom,
    machine: &mut Machine<'_>,
) -> Result<bool, AllocError>
    requires network { IsNetworkOf machine.old.code holding.scope.network.now }
    requires start { IsHeldStart machine.old holding.scope.network.now holding.held.now start.now }
    ensures done { IfOk result (λ all. all ≡ true → (limits : Limits) → MayBeHeld machine.old.code (state_at machine.old) holding.entry.scope.network.now holding.entry.held.now → HasHeldUntilSettled (class_in holding.entry.scope.rules.classes.now) limits machine.old holding.entry.scope.network.now holding.entry.held.now room.new.way.items machine.new) }
    ensures code { machine.new.code ≡ machine.old.code }
{
    let HeldScope { scope, held } = holding;
    if !take_from(holding, start, room, machine)? {
        return Ok(false);
    }
    if settle_since(scope.alloc, &start.begin, machine, scope.network, held)? {
        return Ok(true);
    }
    room.rest = members_settled_since(scope.alloc, machine, scope.network, &start.begin, held)?;
    Ok(false)
}

/// Takes all that is active likewise. Answers whether it came to where nothing is active, the steps of the others certify each other and keep
/// off what is held, who waits for it sleeps through that, and what is held settles until there.
pub(crate) fn take_held_until_settled(
    holding: HeldScope<'_>,
    room: &mut LooseRoom,
    machine: &mut Machine<'_>,
) -> Result<bool, AllocError>
    requires { IsNetworkOf machine.old.code holding.scope.network.now }
    ensures done { IfOk result (λ all. all ≡ true → (limits : Limits) → MayBeHeld machine.old.code (state_at machine.old) holding.entry.scope.network.now holding.entry.held.now → HasHeldUntilSettled (class_in holding.entry.scope.rules.classes.now) limits machine.old holding.entry.scope.network.now holding.entry.held.now room.new.way.items machine.new) }
    ensures code { machine.new.code ≡ machine.old.code }
{
    let start = match start_of(holding, machine)? {
        Some(start) => start,
        None => return Ok(false),
    };
    let all = settle_from(holding, &start, room, machine);
    drop(start);
    all
}

/// Those of these processes that may be held until the others are done, where there are any.
pub(crate) fn held_among(
    scope: WalkScope<'_>,
    machine: &Machine<'_>,
    among: &[u32],
    awaited: Awaited,
) -> Result<Option<Vec<u32>>, AllocError>
    requires { IsNetworkOf machine.now.code scope.network.now }
    ensures may { IfOk result (λ found. IfSome found (λ held. MayBeHeld machine.now.code (state_at machine.now) scope.entry.network.now held.items)) }
    ensures subset { IfOk result (λ found. IfSome found (λ held. AreSomeOf held.items among.now)) }
{
    let held = match held_of(scope.alloc, machine, scope.network, among, awaited)? {
        Some(held) => held,
        None => return Ok(None),
    };
    if held.is_empty() {
        return Ok(None);
    }
    Ok(Some(held))
}

// All processes of a design.
fn every_process(alloc: Global, machine: &Machine<'_>) -> Result<Vec<u32>, AllocError> {
    (0..machine.design().processes()).collect(alloc)
}

/// The processes that may be held, and are pending or settled, where there are any.
pub(crate) fn settled_members(
    scope: WalkScope<'_>,
    machine: &Machine<'_>,
) -> Result<Option<Vec<u32>>, AllocError>
    requires { IsNetworkOf machine.now.code scope.network.now }
    ensures { IfOk result (λ found. IfSome found (λ held. MayBeHeld machine.now.code (state_at machine.now) scope.entry.network.now held.items × ArePendingOrSettled machine.now.code (state_at machine.now) scope.entry.network.now held.items)) }
{
    let every = every_process(scope.alloc, machine)?;
    let settled = settled_of(scope.alloc, machine, scope.network, &every)?;
    held_among(scope, machine, &settled, Awaited::Never)
}

/// The processes that may be held, where they are more than were held last: those for whose outputs nobody else waits, or at edges alone if
/// that may be.
pub(crate) fn more_members(
    scope: WalkScope<'_>,
    tried: usize,
    machine: &Machine<'_>,
    awaited: Awaited,
) -> Result<Option<Vec<u32>>, AllocError>
    requires { IsNetworkOf machine.now.code scope.network.now }
    ensures { IfOk result (λ found. IfSome found (λ held. MayBeHeld machine.now.code (state_at machine.now) scope.entry.network.now held.items)) }
{
    let every = every_process(scope.alloc, machine)?;
    let held = match held_among(scope, machine, &every, awaited)? {
        Some(held) => held,
        None => return Ok(None),
    };
    if held.len() <= tried {
        return Ok(None);
    }
    Ok(Some(held))
}
