//! Widths.
ghost use Rattle.std.specs.Prelude.{◌≡◌, ◌≤◌};
ghost use Rattle.logic4.specs.Vector.{greatest_width};

use std::marker::Model;

/// A width, from 1 to the greatest.
#[derive(Clone, Copy)]
pub struct Size {
    digits: u32,
}

impl Model for Size {
    ghost use Rattle.std.specs.Prelude.{ℕ, ◌≤◌};
    ghost use Rattle.logic4.specs.Vector.{greatest_width};

    ghost Value = { ℕ };

    ghost view = { λ s. s.digits };

    ghost invariant = { λ s. (1 ≤ s.digits) × (s.digits ≤ greatest_width) };

    ghost inverse = { λ v. record { digits = v } };

    ghost inverse_ok = { λ s h i. record { digits = s.digits } };
}

impl Size {
    /// This many digits.
    pub fn new(digits: u32) -> Self
        requires some { 1 ≤ digits }
        requires within { digits ≤ greatest_width }
        ensures { result ≡ digits }
    {
        Size { digits }
    }

    /// The number of digits.
    pub fn get(self) -> u32
        ensures value { result ≡ self }
        ensures some { 1 ≤ result }
        ensures within { result ≤ greatest_width }
    {
        self.digits
    }
}
