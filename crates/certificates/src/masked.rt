//! Lists of items that have numbers, as changes have those of their registers.
ghost use Rattle.std.specs.Prelude.{◌≡◌, ℕ, ◌||◌, [], ◌∷◌, ◌++◌, if◌then◌else◌, is_ok, OnOk};
ghost use Rattle.std.specs.List.{list_any};
ghost use Rattle.certificates.specs.Masks.{IsMaskOf, has_number};
ghost use Rattle.certificates.specs.Marks.{is_marked};

use crate::marked::{is_marked_at, mark_all};
use crate::mask::Mask;
use std::alloc::{AllocError, Global};
use std::marker::Model;

/// An item that has a number, as a change has that of its register.
pub trait Numbered: Drop {
    ghost use Rattle.std.specs.Prelude.{ℕ};

    /// The number of an item.
    ghost number_of: { Self → ℕ };

    /// Its number.
    fn number(&self) -> u32
        ensures { result ≡ number_of self.now };
}

/// A list of items, with the mask of their numbers. The mask tells of most lists that they have nothing in common, so that most lookups
/// end early.
#[derive(Drop)]
pub struct Masked<T: Numbered> {
    items: Vec<T>,
    mask: Mask,
}

impl<T: Numbered> Model for Masked<T> {
    ghost use Rattle.std.specs.Prelude.{List};
    ghost use Rattle.certificates.specs.Masks.{IsMaskOf, has_number};

    ghost Value = { List T };

    ghost view = { λ m. m.items.items };

    ghost invariant = { λ m. IsMaskOf (has_number T.number_of m.items.items) m.mask };
}

impl<T: Numbered> Masked<T> {
    /// No items.
    pub fn new(alloc: Global) -> Masked<T>
        ensures { result ≡ [] }
    {
        Masked {
            items: Vec::new(alloc),
            mask: Mask::empty(),
        }
    }

    /// Takes all items out. The list keeps its room.
    pub fn clear(&mut self)
        ensures { self.new ≡ [] }
    {
        self.items.clear();
        self.mask = Mask::empty();
    }

    /// Appends an item.
    pub fn push(&mut self, item: T) -> Result<(), AllocError>
        ensures { self.new ≡ (if is_ok result then self.old ++ item ∷ [] else self.old) }
    {
        let number = item.number();
        self.items.push(item)?;
        self.mask.insert(number);
        Ok(())
    }

    /// The items, in order.
    pub fn as_slice(&self) -> &[T]
        ensures { result.now ≡ self.entry.now }
    {
        self.items.as_slice()
    }

    /// The mask of their numbers.
    pub(crate) fn mask(&self) -> Mask
        ensures { IsMaskOf (has_number T.number_of self.now) result }
    {
        self.mask
    }

    /// Whether the number of one of them is marked.
    pub(crate) fn is_any_marked(&self, marks: &[bool]) -> bool
        ensures { result ≡ list_any (λ x. is_marked marks.now (T.number_of x)) self.now }
    {
        self.items
            .iter()
            .any(|item| is_marked_at(marks, item.number()))
    }

    /// Marks the number of each of them.
    pub(crate) fn mark_all(&self, marks: &mut Vec<bool>) -> Result<(), AllocError>
        ensures { OnOk result ((n : ℕ) → is_marked marks.new.items n ≡ (is_marked marks.old.items n || has_number T.number_of self.now n)) }
    {
        mark_all(marks, self.items.as_slice())
    }
}
