//! Bytes of ASCII.
ghost use Rattle.std.specs.Prelude.{◌≡◌, ◌<◌, ◌≤◌, IsNone, IfSome, ◌↔◌};

use std::marker::Model;

/// A byte of ASCII, below 128, of which the text of a format is made (3.6).
#[derive(Clone, Copy, PartialEq, Eq)]
pub struct Ascii {
    byte: u8,
}

impl Model for Ascii {
    ghost use Rattle.std.specs.Prelude.{ℕ, ◌<◌};

    ghost Value = { ℕ };

    ghost view = { λ a. a.byte };

    ghost invariant = { λ a. a.byte < 128 };

    ghost inverse = { λ v. record { byte = v } };

    ghost inverse_ok = { λ a h i. record { byte = a.byte } };
}

impl Ascii {
    /// This byte, or none where it is 128 or more.
    pub fn new(byte: u8) -> Option<Self>
        ensures none { IsNone result ↔ (128 ≤ byte) }
        ensures some { IfSome result (λ a. a ≡ byte) }
    {
        if byte < 128 {
            Some(Ascii { byte })
        } else {
            None
        }
    }

    /// The character that it is.
    pub fn to_char(self) -> char
        ensures value { result ≡ self }
        ensures ascii { result < 128 }
    {
        char::from(self.byte)
    }
}
