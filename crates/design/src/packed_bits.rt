//! Vectors whose words are kept in halves.
ghost use Rattle.std.specs.Prelude.{◌≡◌, length};
ghost use Rattle.design.specs.Halves.{joined_halves};

use logic4::bits::{Bits, Word};
use std::marker::Model;

/// A vector whose two words are kept in halves. A word of 128 bits stands at a multiple of 16 bytes, and so does all that has
/// one; what has its halves is smaller, and quicker to move.
#[derive(Clone, Copy, Debug)]
pub struct PackedBits {
    width: u32,
    /// The low half and the high half of each word.
    a: (u64, u64),
    b: (u64, u64),
}

impl Model for PackedBits {
    ghost use Rattle.logic4.specs.Vector.{Vector};

    ghost Value = { Vector };

    ghost use Rattle.design.specs.Halves.{vector_in, HoldsVector, halves_of, halves_of-vector_in};

    ghost view = { vector_in };

    ghost invariant = { HoldsVector };

    ghost inverse = { halves_of };

    ghost inverse_ok = { halves_of-vector_in };
}

/// The low half and the high half of a word.
#[inline(always)]
pub fn halves(word: Word) -> (u64, u64)
    ensures { joined_halves result.0 result.1 ≡ word }
{
    let low = word % (1 << u64::BITS);
    let high = word >> u64::BITS;
    (low as u64, high as u64)
}

/// The word that has these halves.
#[inline(always)]
pub fn join(low: u64, high: u64) -> Word
    ensures { result ≡ joined_halves low high }
{
    (Word::from(high) << u64::BITS) | Word::from(low)
}

impl PackedBits {
    /// The vector in halves.
    #[inline(always)]
    pub fn new(value: Bits) -> PackedBits
        ensures { result ≡ value }
    {
        let (a, b) = value.words();
        PackedBits {
            width: value.width(),
            a: halves(a),
            b: halves(b),
        }
    }

    /// The vector.
    #[inline(always)]
    pub fn get(self) -> Bits
        ensures { result ≡ self }
    {
        let a = join(self.a.0, self.a.1);
        let b = join(self.b.0, self.b.1);
        Bits::from_words(self.width, a, b)
    }
}

impl PartialEq for PackedBits {
    ghost use Rattle.logic4.specs.Operators.{same_vector};
    ghost use Rattle.logic4.specs.Sameness.{same_vector-partial_equivalence};

    ghost eq = { same_vector };

    ghost laws = { same_vector-partial_equivalence };

    fn eq(&self, other: &Self) -> bool {
        self.get() == other.get()
    }
}

impl Eq for PackedBits {
    ghost use Rattle.logic4.specs.Sameness.{same_vector-equivalence};

    ghost laws = { same_vector-equivalence };
}
