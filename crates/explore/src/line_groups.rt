//! Groups of lines, each kept once.
ghost use Rattle.std.specs.Prelude.{◌≡◌, ◌<◌, ◌≤◌, [], length, Some, slice_get, get_or, IfOk, IfSome, OnOk};
ghost use Rattle.sharing.specs.Parts.{Extends};
ghost use Rattle.explore.specs.NumberedTexts.{line_groups};

use indexmap::IndexSet;
use std::alloc::{AllocError, Global};

// How many lines a full group has.
const GROUP_LINES: usize = 16;

// About how many bytes a group takes besides its own, with its hash and its place in the table.
const GROUP_BYTES: usize = 64;

/// How long the first group of bytes is, where it is full: it ends behind the sixteenth line.
pub(crate) fn full_length(bytes: &[u8]) -> Option<usize>
    ensures { IfSome result (λ end. (0 < end) × (end ≤ length bytes.now)) }
{
    let mut lines = 0;
    for at in 0..bytes.len() {
        if bytes[at] != b'\n' {
            continue;
        }
        lines += 1;
        if lines == GROUP_LINES {
            return Some(at + 1);
        }
    }
    None
}

/// How long the first group of bytes is: they are all in it where it isn't full.
pub(crate) fn first_length(bytes: &[u8]) -> usize
    ensures within { result ≤ length bytes.now }
    ensures some { 0 < length bytes.now → 0 < result }
{
    match full_length(bytes) {
        Some(length) => length,
        None => bytes.len(),
    }
}

/// Groups of lines by their numbers, each there once.
#[derive(Drop)]
pub(crate) struct LineGroups {
    pub(crate) groups: IndexSet<Vec<u8>>,
    /// About how many bytes they have.
    pub(crate) size: usize,
}

impl LineGroups {
    /// No groups.
    pub(crate) fn new(alloc: Global) -> Self
        ensures { line_groups result ≡ [] }
    {
        LineGroups {
            groups: IndexSet::new(alloc),
            size: 0,
        }
    }

    /// About how many bytes they take.
    pub(crate) fn bytes(&self) -> usize {
        let table = self.groups.capacity().saturating_mul(GROUP_BYTES);
        table.saturating_add(self.size)
    }

    // The number of a group, where it is there.
    fn find(&self, group: &[u8]) -> Option<usize>
        ensures { IfSome result (λ number. slice_get (line_groups self.now) number ≡ Some group.now) }
    {
        let (number, _) = self.groups.get_full(group)?;
        Some(number)
    }

    // Adds a group, and answers its number.
    fn push(&mut self, alloc: Global, group: &[u8]) -> Result<usize, AllocError>
        ensures grows { OnOk result (Extends (line_groups self.old) (line_groups self.new)) }
        ensures number { IfOk result (λ number. slice_get (line_groups self.new) number ≡ Some group.now) }
    {
        let mut bytes = Vec::new(alloc);
        bytes.extend_from_slice(group)?;
        let (number, _) = self.groups.insert_full(bytes)?;
        self.size = self.size.saturating_add(group.len());
        Ok(number)
    }

    /// The number of a group, which is copied where it isn't there yet.
    pub(crate) fn number(&mut self, alloc: Global, group: &[u8]) -> Result<usize, AllocError>
        ensures grows { OnOk result (Extends (line_groups self.old) (line_groups self.new)) }
        ensures number { IfOk result (λ number. slice_get (line_groups self.new) number ≡ Some group.now) }
    {
        match self.find(group) {
            Some(number) => return Ok(number),
            None => {}
        }
        self.push(alloc, group)
    }

    /// The bytes of the group with a number.
    pub(crate) fn group(&self, number: usize) -> &[u8]
        requires { number < length (line_groups self.now) }
        ensures { result.now ≡ get_or (line_groups self.now) number [] }
    {
        self.groups[number].as_slice()
    }
}
