//! Masks of numbers.
ghost use Rattle.std.specs.Prelude.{◌≡◌, ℕ, ◌%◌, ◌^◌, ◌||◌, ◌==◌, Bool, true, false};
ghost use Rattle.certificates.specs.Masks.{IsMaskOf};

// How many bits a mask has.
const MASK_BITS: u32 = 64;

// The bit of a number.
fn bit_of(number: u32) -> u64
    ensures { result ≡ 2 ^ (number % 64) }
{
    1_u64 << (number % MASK_BITS)
}

/// A mask of numbers. It has the bit of each, and so it tells of most without a look at them that a number is none of them, or that no
/// number is among these and others.
#[derive(Clone, Copy)]
pub(crate) struct Mask {
    bits: u64,
}

impl Mask {
    /// The mask of no numbers.
    pub(crate) fn empty() -> Mask
        ensures { IsMaskOf (λ _. false) result }
    {
        Mask { bits: 0 }
    }

    /// Adds the bit of one number more.
    pub(crate) fn insert(&mut self, number: u32)
        ensures { (has : ℕ → Bool) → IsMaskOf has self.old → IsMaskOf (λ n. has n || number == n) self.new }
    {
        self.bits |= bit_of(number);
    }

    /// Whether a number may be among those of the mask. Where it may not, it is none of them.
    pub(crate) fn may_have(self, number: u32) -> bool
        ensures { (has : ℕ → Bool) → IsMaskOf has self → result ≡ false → has number ≡ false }
    {
        self.bits & bit_of(number) != 0
    }

    /// Whether a number may be among those of both masks. Where it may not, none is among both.
    pub(crate) fn may_meet(self, other: Mask) -> bool
        ensures { (has among : ℕ → Bool) → IsMaskOf has self → IsMaskOf among other → result ≡ false → (n : ℕ) → has n ≡ true → among n ≡ false }
    {
        self.bits & other.bits != 0
    }
}
