//! A way of a walk by a run that is certified, up to where nothing is active.
ghost use Rattle.std.specs.Prelude.{◌≡◌, ◌∷◌, [], ◌++◌, false, true, IfOk, IsOk};
ghost use Rattle.model.specs.declared.end.Limits.{Limits};
ghost use Rattle.loose.specs.Classes.{class_in};
ghost use Rattle.loosewalks.specs.Certified.{HasAddedNote, HasCertified};

use crate::active::{NamedEntry, first_active};
use crate::room::LooseRoom;
use crate::taking::not_taken;
use noted::{NotedFault, take_noted};
use regions::Machine;
use std::alloc::AllocError;

// Tells that an entry wasn't taken with a note. Fails where memory was refused.
fn not_noted(fault: NotedFault) -> Result<bool, AllocError>
    ensures { IfOk result (λ taken. taken ≡ false) }
{
    match fault {
        NotedFault::NotTaken(fault) => not_taken(fault),
        NotedFault::NoteMemory => Err(AllocError),
        NotedFault::NoEvent => Ok(false),
    }
}

/// Adds the note of an entry to the certificate, where the entry was taken. Answers whether it was, and the notes certify.
pub(crate) fn add_noted(
    room: &mut LooseRoom,
    taken: Result<(), NotedFault>,
) -> Result<bool, AllocError>
    ensures taken { IfOk result (λ all. all ≡ true → IsOk taken) }
    ensures added { IfOk result (λ all. all ≡ true → room.new.certificate ≡ room.old.certificate ++ room.old.note ∷ []) }
    ensures way { room.new.way ≡ room.old.way }
{
    match taken {
        Ok(()) => {
            let certifies = room.certificate.add(&mut room.note)?;
            Ok(certifies)
        }
        Err(fault) => {
            let taken = not_noted(fault)?;
            Ok(taken)
        }
    }
}

// Takes the event of an entry, and adds its note to the certificate and its transition to the way. Answers whether the notes certify.
fn take_certified_one(
    machine: &mut Machine<'_>,
    classes: &[u32],
    room: &mut LooseRoom,
    named: NamedEntry,
) -> Result<bool, AllocError>
    ensures added { IfOk result (λ all. all ≡ true → HasAddedNote (class_in classes.now) machine.old named machine.new room.old.certificate room.new.certificate room.old.way.items room.new.way.items) }
    ensures code { machine.new.code ≡ machine.old.code }
{
    room.way.push(named.transition)?;
    let taken = take_noted(machine, classes, named.entry, &mut room.log, &mut room.note);
    let all = add_noted(room, taken)?;
    Ok(all)
}

/// Takes what is active, one event after another with its note, until nothing is. Answers whether it came to that, and the notes certify.
pub(crate) fn take_certified(
    machine: &mut Machine<'_>,
    classes: &[u32],
    room: &mut LooseRoom,
) -> Result<bool, AllocError>
    ensures certified { IfOk result (λ all. all ≡ true → (limits : Limits) → HasCertified (class_in classes.now) limits machine.old room.new.way.items machine.new) }
    ensures code { machine.new.code ≡ machine.old.code }
{
    room.way.clear();
    room.certificate.clear();
    let most = room.most_events();
    for _ in 0..most {
        let named = match first_active(machine, classes) {
            Some(named) => named,
            None => return Ok(room.certificate.certifies()),
        };
        if !take_certified_one(machine, classes, room, named)? {
            return Ok(false);
        }
    }
    room.spend(most);
    Ok(false)
}
