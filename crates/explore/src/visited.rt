//! What was visited: the keys of the nodes that were reached, with the texts of their runs.
ghost use Rattle.std.specs.Prelude.{◌≡◌, ◌++◌, [], ◌∷◌, None, IfOk, IfSome, OnOk};
ghost use Rattle.explore.specs.Visited.{visits, AreVisits, IsThere};

use indexmap::IndexSet;
use sharing::{Parts, Shortened};
use std::alloc::{AllocError, Global};

// About how many bytes a visit takes, with its hash and its place in the table.
const VISIT_BYTES: usize = 32;

/// A visit: the number of the text that a node's run printed, and what the node's key was shortened to.
#[derive(Clone, Copy, PartialEq, Eq, Hash)]
pub(crate) struct Visit {
    pub(crate) text: usize,
    pub(crate) key: Shortened,
}

/// The visits, in the order of the numbers of the nodes, and the parts that their keys share.
#[derive(Drop)]
pub(crate) struct Visited {
    pub(crate) parts: Parts,
    pub(crate) rows: IndexSet<Visit>,
}

impl Visited {
    /// No visits.
    pub(crate) fn new(alloc: Global) -> Self
        ensures whole { AreVisits result }
        ensures none { visits result ≡ [] }
    {
        Visited {
            parts: Parts::new(alloc),
            rows: IndexSet::new(alloc),
        }
    }

    /// About how many bytes they take.
    pub(crate) fn bytes(&self) -> usize {
        let rows = self.rows.capacity().saturating_mul(VISIT_BYTES);
        rows.saturating_add(self.parts.bytes())
    }

    /// The number of such a visit, where there was one. Nothing is added.
    pub(crate) fn find(&mut self, text: usize, key: &[u8]) -> Result<Option<usize>, AllocError>
        requires whole { AreVisits self.old }
        ensures whole { OnOk result (AreVisits self.new) }
        ensures same { OnOk result (visits self.new ≡ visits self.old) }
        ensures there { IfOk result (λ there. IfSome there (IsThere (text, key.now) (visits self.old))) }
    {
        let key = match self.parts.find(key)? {
            Some(key) => key,
            None => return Ok(None),
        };
        match self.rows.get_full(&Visit { text, key }) {
            Some((number, _)) => Ok(Some(number)),
            None => Ok(None),
        }
    }

    /// Adds a visit, unless there was such a one. The answer is the number of the one that was there.
    pub(crate) fn add(&mut self, text: usize, key: &[u8]) -> Result<Option<usize>, AllocError>
        requires whole { AreVisits self.old }
        ensures whole { OnOk result (AreVisits self.new) }
        ensures there { IfOk result (λ there. IfSome there (λ number. (visits self.new ≡ visits self.old) × IsThere (text, key.now) (visits self.old) number)) }
        ensures added { IfOk result (λ there. there ≡ None → visits self.new ≡ visits self.old ++ (text, key.now) ∷ []) }
    {
        let key = self.parts.shorten(key)?;
        let (number, is_new) = self.rows.insert_full(Visit { text, key })?;
        if is_new {
            return Ok(None);
        }
        Ok(Some(number))
    }
}
