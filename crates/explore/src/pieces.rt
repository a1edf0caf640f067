//! Lists, each beside a number, in one arena.
ghost use Rattle.std.specs.Prelude.{◌≡◌, ◌<◌, ◌++◌, [], ◌∷◌, length, Some, slice_get, OnOk};
ghost use Rattle.explore.specs.Pieces.{pieces, ArePieces};

use sharing::narrow;
use std::alloc::{AllocError, Global};

/// The number beside a list, the length of the list, and where it begins in the arena.
#[derive(Clone, Copy)]
pub(crate) struct NumberedSpan {
    pub(crate) number: u32,
    pub(crate) length: u32,
    pub(crate) begin: usize,
}

/// Lists, each beside a number.
#[derive(Drop)]
pub(crate) struct Pieces<T> {
    pub(crate) rows: Vec<NumberedSpan>,
    pub(crate) arena: Vec<T>,
}

impl<T: Copy> Pieces<T> {
    /// No lists.
    pub(crate) fn new(alloc: Global) -> Self
        ensures { pieces result ≡ [] }
    {
        Pieces {
            rows: Vec::new(alloc),
            arena: Vec::new(alloc),
        }
    }

    /// About how many bytes they take, where each item takes so many.
    pub(crate) fn bytes(&self, item: usize) -> usize {
        let rows = self
            .rows
            .capacity()
            .saturating_mul(size_of::<NumberedSpan>());
        let arena = self.arena.capacity().saturating_mul(item);
        rows.saturating_add(arena)
    }

    /// How many lists there are.
    pub(crate) fn len(&self) -> usize
        ensures { result ≡ length (pieces self.now) }
    {
        self.rows.len()
    }

    /// Adds a list, beside a number.
    pub(crate) fn push(&mut self, number: usize, items: &[T]) -> Result<(), AllocError>
        requires whole { ArePieces self.old }
        ensures whole { OnOk result (ArePieces self.new) }
        ensures pieces { OnOk result (pieces self.new ≡ pieces self.old ++ (number, items.now) ∷ []) }
    {
        let number = narrow(number)?;
        let length = narrow(items.len())?;
        let begin = self.arena.len();
        self.arena.extend_from_slice(items)?;
        self.rows.push(NumberedSpan {
            number,
            length,
            begin,
        })?;
        Ok(())
    }

    /// One of the lists, and the number beside it.
    pub(crate) fn piece(&self, at: usize) -> (usize, &[T])
        requires whole { ArePieces self.now }
        requires within { at < length (pieces self.now) }
        ensures { slice_get (pieces self.now) at ≡ Some (result.0, result.1.now) }
    {
        let row = self.rows[at];
        let end = row.begin + row.length as usize;
        (row.number as usize, &self.arena[row.begin..end])
    }
}
