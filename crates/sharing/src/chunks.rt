//! Chunks of bytes, each kept once.
ghost use Rattle.std.specs.Prelude.{◌≡◌, ◌<◌, [], length, true, Some, None, slice_get, IsTrue, IfOk, IfSome, OnOk};
ghost use Rattle.sharing.specs.Parts.{chunks, AreChunks, Extends};

use std::alloc::{AllocError, Global};

// The slots of the first table.
const FIRST_SLOTS: usize = 64;

// The half of a slot that the number of a chunk has.
const NUMBERS: u64 = 0xffff_ffff;

/// Where a chunk begins in the arena, and how long it is.
#[derive(Clone, Copy)]
pub(crate) struct ChunkSpan {
    pub(crate) begin: usize,
    pub(crate) length: usize,
}

/// What becomes of a chunk that isn't there.
#[derive(Clone, Copy)]
pub(crate) enum Unknown {
    /// It is added.
    Added,
    /// It is told that it isn't there.
    Missed,
}

/// Chunks by their numbers. They are found by a table: in each of its slots is 0, or the half of a chunk's hash and one more than the
/// chunk's number. From where the hash of a chunk leads to its own slot, no slot is free.
#[derive(Drop)]
pub(crate) struct Chunks {
    pub(crate) alloc: Global,
    pub(crate) rows: Vec<ChunkSpan>,
    pub(crate) arena: Vec<u8>,
    pub(crate) slots: Vec<u64>,
}

/// A number in half of the bytes: what doesn't fit there has no room.
pub fn narrow(number: usize) -> Result<u32, AllocError>
    ensures { IfOk result (λ narrow. narrow ≡ number) }
{
    if number > u32::MAX as usize {
        return Err(AllocError);
    }
    Ok(number as u32)
}

// A hash that goes on by these bits.
fn mixed(hash: u64, bits: u64) -> u64 {
    let product = (hash ^ bits).wrapping_mul(0x9e37_79b9_7f4a_7c15);
    product ^ (product >> 32)
}

// A hash of bytes, eight of them at a time.
fn hash_of(bytes: &[u8]) -> u64 {
    let (words, rest) = bytes.as_chunks::<8>();
    let mut hash = bytes.len() as u64;
    for word in words {
        hash = mixed(hash, u64::from_le_bytes(*word));
    }
    for byte in rest {
        hash = mixed(hash, u64::from(*byte));
    }
    hash
}

// What stands in the slot of a chunk.
fn slot(hash: u64, number: u32) -> u64 {
    (hash & !NUMBERS) | u64::from(number)
}

// The place to which the hash in a slot leads.
fn first_slot(slot: u64, count: usize) -> usize
    requires { 0 < count }
    ensures { result < count }
{
    ((slot >> 32) % count as u64) as usize
}

// The place after another, round the table.
fn after(at: usize, count: usize) -> usize
    requires { at < count }
    ensures { result < count }
{
    let next = at + 1;
    if next < count { next } else { 0 }
}

// Puts what is to stand in a slot into the first free one from where its hash leads.
fn put(slots: &mut Vec<u64>, slot: u64)
    ensures { length slots.new.items ≡ length slots.old.items }
{
    let count = slots.len();
    if count == 0 {
        return;
    }
    let mut at = first_slot(slot, count);
    for _ in 0..count {
        if slots[at] == 0 {
            slots[at] = slot;
            return;
        }
        at = after(at, count);
    }
}

// A table of so many slots, with what stands in those of another.
fn wider(alloc: Global, slots: &[u64], count: usize) -> Result<Vec<u64>, AllocError>
    ensures { IfOk result (λ wider. length wider.items ≡ count) }
{
    let mut wider = Vec::new(alloc);
    wider.resize(count, 0)?;
    for slot in slots {
        if *slot != 0 {
            put(&mut wider, *slot);
        }
    }
    Ok(wider)
}

impl Chunks {
    /// No chunks.
    pub(crate) fn new(alloc: Global) -> Self
        ensures whole { AreChunks result }
        ensures none { chunks result ≡ [] }
    {
        Chunks {
            alloc,
            rows: Vec::new(alloc),
            arena: Vec::new(alloc),
            slots: Vec::new(alloc),
        }
    }

    /// About how many bytes they take.
    pub(crate) fn bytes(&self) -> usize {
        let rows = self.rows.capacity().saturating_mul(size_of::<ChunkSpan>());
        let slots = self.slots.capacity().saturating_mul(size_of::<u64>());
        rows.saturating_add(slots)
            .saturating_add(self.arena.capacity())
    }

    // The chunk in a slot, where it is this one.
    fn same_in(&self, slot: u64, bytes: &[u8]) -> Option<u32>
        requires whole { AreChunks self.now }
        ensures { IfSome result (λ number. slice_get (chunks self.now) number ≡ Some bytes.now) }
    {
        let number = ((slot & NUMBERS) as u32).wrapping_sub(1);
        let at = number as usize;
        if at >= self.rows.len() {
            return None;
        }
        let row = self.rows[at];
        let chunk = &self.arena[row.begin..row.begin + row.length];
        if chunk == bytes {
            return Some(number);
        }
        None
    }

    // The number of a chunk with this hash, where it is there.
    fn find(&self, hash: u64, bytes: &[u8]) -> Option<u32>
        requires whole { AreChunks self.now }
        ensures { IfSome result (λ number. slice_get (chunks self.now) number ≡ Some bytes.now) }
    {
        let count = self.slots.len();
        if count == 0 {
            return None;
        }
        let mut at = first_slot(hash, count);
        for _ in 0..count {
            let slot = self.slots[at];
            if slot == 0 {
                return None;
            }
            if slot >> 32 == hash >> 32 {
                let found = self.same_in(slot, bytes);
                if found.is_some() {
                    return found;
                }
            }
            at = after(at, count);
        }
        None
    }

    // Makes room for one slot more.
    fn widen(&mut self) -> Result<(), AllocError>
        ensures rows { self.new.rows ≡ self.old.rows }
        ensures arena { self.new.arena ≡ self.old.arena }
    {
        let count = self.slots.len();
        if self.rows.len() >= count / 4 * 3 {
            let more = count.saturating_add(count / 2).max(FIRST_SLOTS);
            self.slots = wider(self.alloc, &self.slots, more)?;
        }
        Ok(())
    }

    // Adds a chunk with this hash, and answers its number.
    fn push(&mut self, hash: u64, bytes: &[u8]) -> Result<u32, AllocError>
        requires whole { AreChunks self.old }
        ensures whole { OnOk result (AreChunks self.new) }
        ensures grows { OnOk result (Extends (chunks self.old) (chunks self.new)) }
        ensures number { IfOk result (λ number. slice_get (chunks self.new) number ≡ Some bytes.now) }
    {
        let number = narrow(self.rows.len())?;
        let next = narrow(self.rows.len() + 1)?;
        self.widen()?;
        let begin = self.arena.len();
        self.arena.extend_from_slice(bytes)?;
        self.rows.push(ChunkSpan {
            begin,
            length: bytes.len(),
        })?;
        put(&mut self.slots, slot(hash, next));
        Ok(number)
    }

    /// The number of a chunk. None where it isn't there and isn't to be added.
    pub(crate) fn number(
        &mut self,
        bytes: &[u8],
        unknown: Unknown,
    ) -> Result<Option<u32>, AllocError>
        requires whole { AreChunks self.old }
        ensures whole { OnOk result (AreChunks self.new) }
        ensures grows { OnOk result (Extends (chunks self.old) (chunks self.new)) }
        ensures number { IfOk result (λ found. IfSome found (λ number. slice_get (chunks self.new) number ≡ Some bytes.now)) }
        ensures missed { IfOk result (λ found. found ≡ None → unknown ≡ Unknown.Missed) }
        ensures same { OnOk result (unknown ≡ Unknown.Missed → chunks self.new ≡ chunks self.old) }
    {
        let hash = hash_of(bytes);
        match self.find(hash, bytes) {
            Some(number) => return Ok(Some(number)),
            None => {}
        }
        match unknown {
            Unknown::Missed => Ok(None),
            Unknown::Added => {
                let number = self.push(hash, bytes)?;
                Ok(Some(number))
            }
        }
    }
}
