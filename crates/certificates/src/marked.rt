//! Numbers that are marked: each has its mark at its place.
ghost use Rattle.std.specs.Prelude.{◌≡◌, ◌<◌, ℕ, ◌||◌, ◌==◌, false, OnOk};
ghost use Rattle.std.specs.Vec.{vec_len};
ghost use Rattle.certificates.specs.Marks.{is_marked};
ghost use Rattle.certificates.specs.Masks.{has_number};

use crate::masked::Numbered;
use std::alloc::AllocError;

/// Whether a number is marked.
pub(crate) fn is_marked_at(marks: &[bool], number: u32) -> bool
    ensures { result ≡ is_marked marks.now number }
{
    match marks.get(number as usize) {
        Some(mark) => *mark,
        None => false,
    }
}

// Makes room for the mark of a number.
fn make_room(marks: &mut Vec<bool>, number: u32) -> Result<(), AllocError>
    ensures room { OnOk result (number < vec_len marks.new) }
    ensures same { OnOk result ((n : ℕ) → is_marked marks.new.items n ≡ is_marked marks.old.items n) }
{
    let count = number as usize + 1;
    if marks.len() < count {
        marks.resize(count, false)?;
    }
    Ok(())
}

/// Marks a number.
pub(crate) fn mark(marks: &mut Vec<bool>, number: u32) -> Result<(), AllocError>
    ensures { OnOk result ((n : ℕ) → is_marked marks.new.items n ≡ (is_marked marks.old.items n || number == n)) }
{
    make_room(marks, number)?;
    marks[number as usize] = true;
    Ok(())
}

/// Marks the number of each of these.
pub(crate) fn mark_all<T: Numbered>(marks: &mut Vec<bool>, items: &[T]) -> Result<(), AllocError>
    ensures { OnOk result ((n : ℕ) → is_marked marks.new.items n ≡ (is_marked marks.old.items n || has_number T.number_of items.now n)) }
{
    for item in items {
        mark(marks, item.number())?;
    }
    Ok(())
}
