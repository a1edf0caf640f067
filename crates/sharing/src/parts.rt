//! Byte strings, each shortened to a number.
ghost use Rattle.std.specs.Prelude.{◌≡◌, ◌*◌, [], None, length, IfOk, IfSome, OnOk};
ghost use Rattle.sharing.specs.Parts.{numbers_in, chunk_table, unshortened, AreParts, Extends, HoldsWhole};

use crate::chunks::{Chunks, Unknown, narrow};
use crate::cut::cut;
use std::alloc::{AllocError, Global};

/// What a byte string was shortened to: a number, and how often its numbers were shortened again.
#[derive(Clone, Copy, PartialEq, Eq, Hash)]
pub struct Shortened {
    pub number: u32,
    pub levels: u32,
}

/// The parts of byte strings, each kept once, and room for work on them, which is kept from one string to the next.
#[derive(Drop)]
pub struct Parts {
    pub(crate) chunks: Chunks,
    pub(crate) numbers: Vec<u32>,
    pub(crate) code: Vec<u8>,
}

// Fills `code` with numbers, four bytes each.
fn encode(code: &mut Vec<u8>, numbers: &[u32]) -> Result<(), AllocError>
    ensures told { OnOk result (numbers_in code.new.items ≡ numbers.now) }
    ensures length { OnOk result (length code.new.items ≡ 4 * length numbers.now) }
{
    code.clear();
    for number in numbers {
        code.extend_from_slice(&number.to_le_bytes())?;
    }
    Ok(())
}

impl Parts {
    /// No parts.
    pub fn new(alloc: Global) -> Parts
        ensures whole { AreParts result }
        ensures none { chunk_table result ≡ [] }
    {
        Parts {
            chunks: Chunks::new(alloc),
            numbers: Vec::new(alloc),
            code: Vec::new(alloc),
        }
    }

    /// About how many bytes they take.
    pub fn bytes(&self) -> usize {
        self.chunks.bytes()
    }

    // What a byte string is shortened to. None where a part of it isn't there and isn't to be added.
    fn shortened(&mut self, bytes: &[u8], unknown: Unknown) -> Result<Option<Shortened>, AllocError>
        requires whole { AreParts self.old }
        ensures whole { OnOk result (AreParts self.new) }
        ensures grows { OnOk result (Extends (chunk_table self.old) (chunk_table self.new)) }
        ensures held { IfOk result (λ found. IfSome found (HoldsWhole (chunk_table self.new))) }
        ensures told { IfOk result (λ found. IfSome found (λ short. unshortened (chunk_table self.new) short ≡ bytes.now)) }
        ensures missed { IfOk result (λ found. found ≡ None → unknown ≡ Unknown.Missed) }
        ensures same { OnOk result (unknown ≡ Unknown.Missed → chunk_table self.new ≡ chunk_table self.old) }
    {
        if !cut(&mut self.chunks, &mut self.numbers, bytes, unknown)? {
            return Ok(None);
        }
        let mut levels = 0;
        'levels: while self.numbers.len() > 1 {
            encode(&mut self.code, &self.numbers)?;
            if !cut(&mut self.chunks, &mut self.numbers, &self.code, unknown)? {
                return Ok(None);
            }
            levels += 1;
        }
        Ok(Some(Shortened {
            number: self.numbers[0],
            levels: narrow(levels)?,
        }))
    }

    /// Shortens a byte string to what tells it. Fails where memory is refused.
    pub fn shorten(&mut self, bytes: &[u8]) -> Result<Shortened, AllocError>
        requires whole { AreParts self.old }
        ensures whole { OnOk result (AreParts self.new) }
        ensures grows { OnOk result (Extends (chunk_table self.old) (chunk_table self.new)) }
        ensures held { IfOk result (HoldsWhole (chunk_table self.new)) }
        ensures told { IfOk result (λ short. unshortened (chunk_table self.new) short ≡ bytes.now) }
    {
        match self.shortened(bytes, Unknown::Added)? {
            Some(short) => Ok(short),
            None => unreachable!(),
        }
    }

    /// What a byte string was shortened to, where all parts of it are there. No part is added.
    pub fn find(&mut self, bytes: &[u8]) -> Result<Option<Shortened>, AllocError>
        requires whole { AreParts self.old }
        ensures whole { OnOk result (AreParts self.new) }
        ensures same { OnOk result (chunk_table self.new ≡ chunk_table self.old) }
        ensures held { IfOk result (λ found. IfSome found (HoldsWhole (chunk_table self.new))) }
        ensures told { IfOk result (λ found. IfSome found (λ short. unshortened (chunk_table self.new) short ≡ bytes.now)) }
    {
        self.shortened(bytes, Unknown::Missed)
    }
}
