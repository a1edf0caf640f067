//! Lists of numbers, as of registers and of processes.
ghost use Rattle.std.specs.Prelude.{◌≡◌};
ghost use Rattle.model.specs.Turns.{contains};
ghost use Rattle.certificates.specs.Masks.{meet};

use crate::masked::{Masked, Numbered};

/// A list of numbers, with its mask.
pub type MaskedNumbers = Masked<u32>;

impl Numbered for u32 {
    ghost number_of = { λ n. n };

    fn number(&self) -> u32 {
        *self
    }
}

// Whether one of these numbers is among others.
fn is_any_among(numbers: &[u32], others: &MaskedNumbers) -> bool
    ensures { result ≡ meet numbers.now others.now }
{
    numbers.iter().any(|number| others.contains(*number))
}

impl Masked<u32> {
    /// Whether a number is among these.
    pub fn contains(&self, number: u32) -> bool
        ensures { result ≡ contains self.now number }
    {
        self.mask().may_have(number) && self.as_slice().contains(&number)
    }

    /// Whether a number is among both these and others.
    pub fn meets(&self, others: &MaskedNumbers) -> bool
        ensures { result ≡ meet self.now others.now }
    {
        self.mask().may_meet(others.mask()) && is_any_among(self.as_slice(), others)
    }
}
