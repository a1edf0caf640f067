//! What a turn wrote, and the turn change of the writes of each register.
ghost use Rattle.std.specs.Prelude.{◌≡◌, ℕ, ◌+◌, ◌<◌, ◌^◌, [], ◌∷◌, ◌++◌, true, length, Some, slice_get, MatchOption, OnOk, OnErr};
ghost use Rattle.turn.specs.declared.log.TurnChange.{TurnChange};
ghost use Rattle.turn.specs.TurnChanges.{change_with_write, noted, turn_changes_of, is_turn_change_at, IsIndexOf, HasNoTurnChange};

use crate::log::TurnChange;
use design::RegId;
use logic4::bits::Bits;
use std::alloc::{AllocError, Global};
use std::marker::Model;

/// The writes, in the order of the text, the turn change of each register that they write, and for each register the place of its
/// turn change, if it has one.
#[derive(Drop)]
pub(crate) struct Writes {
    list: Vec<(RegId, Bits)>,
    turn_changes: Vec<TurnChange>,
    places: Vec<usize>,
}

impl Model for Writes {
    ghost use Rattle.std.specs.Prelude.{ℕ, List};
    ghost use Rattle.logic4.specs.Vector.{Vector};
    ghost use Rattle.turn.specs.TurnChanges.{AreTurnChanges};

    ghost Value = { List (ℕ × Vector) };

    ghost view = { λ w. w.list.items };

    ghost invariant = { λ w. AreTurnChanges w.list.items w.turn_changes.items w.places.items };
}

// A vector as it is, word by word. Beside a number it would be copied into the frame and out of it as a whole.
#[inline(always)]
#[tactic(auto, using(crate::proofs::Sizes::resize_same))]
fn by_words(value: &Bits) -> Bits
    ensures { result ≡ value.now }
{
    value.resize(value.width())
}

// Whether the turn change at a place is that of a register.
fn is_turn_change_at(turn_changes: &[TurnChange], place: usize, register: RegId) -> bool
    ensures { result ≡ is_turn_change_at turn_changes.now place register }
{
    match turn_changes.get(place) {
        Some(turn_change) => turn_change.register == register,
        None => false,
    }
}

// What the table says of a register.
fn listed(places: &[usize], register: RegId) -> Option<usize>
    ensures { result ≡ slice_get places.now register }
{
    places.get(register as usize).copied()
}

// Where the turn change of a register stands, if it has one.
fn turn_change_index(
    turn_changes: &[TurnChange],
    places: &[usize],
    register: RegId,
) -> Option<usize>
    requires { IsIndexOf turn_changes.now places.now }
    ensures { MatchOption result (HasNoTurnChange turn_changes.now register) (λ place. is_turn_change_at turn_changes.now place register ≡ true) }
{
    match listed(places, register) {
        None => None,
        Some(place) => if is_turn_change_at(turn_changes, place, register) {
            Some(place)
        } else {
            None
        },
    }
}

impl TurnChange {
    // One more write of the register.
    #[inline(always)]
    fn write(&mut self, value: &Bits)
        requires { self.old.changes + 1 < 2 ^ 64 }
        ensures { self.new ≡ change_with_write self.old value.now }
    {
        if self.last != *value {
            self.changes += 1;
        }
        self.last = *value;
    }
}

// Makes the table long enough for a register.
fn make_place(places: &mut Vec<usize>, register: RegId) -> Result<(), AllocError>
    ensures kept { (r place : ℕ) → slice_get places.old.items r ≡ Some place → slice_get places.new.items r ≡ Some place }
    ensures within { OnOk result (register < length places.new.items) }
{
    let at = register as usize;
    if places.len() <= at {
        places.resize(at + 1, 0)?;
    }
    Ok(())
}

// Notes the first write of a register, which has no turn change yet. It stands apart from the common case, whose frame needs no room for
// a turn change.
#[inline(never)]
fn note_first(
    register: RegId,
    value: &Bits,
    turn_changes: &mut Vec<TurnChange>,
    places: &mut Vec<usize>,
) -> Result<(), AllocError>
    requires placed { IsIndexOf turn_changes.old.items places.old.items }
    requires none { HasNoTurnChange turn_changes.old.items register }
    ensures noted { OnOk result (turn_changes.new.items ≡ noted turn_changes.old.items (register, value.now)) }
    ensures err { OnErr result (turn_changes.new.items ≡ turn_changes.old.items) }
    ensures placed { IsIndexOf turn_changes.new.items places.new.items }
{
    make_place(places, register)?;
    let at = turn_changes.len();
    turn_changes.push(TurnChange {
        register,
        first: *value,
        changes: 0,
        last: *value,
    })?;
    places[register as usize] = at;
    Ok(())
}

// Notes one more write. After a refusal of memory the turn changes are as before.
fn note(
    turn_changes: &mut Vec<TurnChange>,
    places: &mut Vec<usize>,
    register: RegId,
    value: &Bits,
) -> Result<(), AllocError>
    requires placed { IsIndexOf turn_changes.old.items places.old.items }
    requires counts { (place : ℕ) (n : TurnChange) → slice_get turn_changes.old.items place ≡ Some n → n.changes + 1 < 2 ^ 64 }
    ensures noted { OnOk result (turn_changes.new.items ≡ noted turn_changes.old.items (register, value.now)) }
    ensures err { OnErr result (turn_changes.new.items ≡ turn_changes.old.items) }
    ensures placed { IsIndexOf turn_changes.new.items places.new.items }
{
    match turn_change_index(turn_changes, places, register) {
        Some(place) => {
            turn_changes[place].write(value);
            Ok(())
        }
        None => note_first(register, value, turn_changes, places),
    }
}

impl Writes {
    /// No writes.
    pub fn new(alloc: Global) -> Writes
        ensures { result ≡ [] }
    {
        Writes {
            list: Vec::new(alloc),
            turn_changes: Vec::new(alloc),
            places: Vec::new(alloc),
        }
    }

    /// Drops all writes, and keeps the room.
    pub fn clear(&mut self)
        ensures { self.new ≡ [] }
    {
        self.list.clear();
        self.turn_changes.clear();
    }

    /// One more write.
    #[inline(always)]
    pub fn push(&mut self, register: RegId, value: &Bits) -> Result<(), AllocError>
        ensures { OnOk result (self.new ≡ self.old ++ (register, value.now) ∷ []) }
    {
        self.list.reserve(1)?;
        note(&mut self.turn_changes, &mut self.places, register, value)?;
        self.list.push_reserved((register, by_words(value)));
        Ok(())
    }

    /// The writes, in order.
    pub fn list(&self) -> &[(RegId, Bits)]
        ensures { result.now ≡ self.entry.now }
    {
        self.list.as_slice()
    }

    /// The turn change of the writes of each register.
    pub fn turn_changes(&self) -> &[TurnChange]
        ensures { result.now ≡ turn_changes_of self.entry.now }
    {
        self.turn_changes.as_slice()
    }
}
