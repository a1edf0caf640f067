//! Decimal texts, with and without signs and blanks (IEEE 1364-2005, 17.1.1.2 to 17.1.1.4).
#![tactic(auto, using(crate::proofs::Widths::widths))]

ghost use Rattle.std.specs.Prelude.{◌≡◌, length, IfOk, string_bytes};
ghost use Rattle.logic4.specs.Display.{decimal_text, signed_text, right_justified, decimal_field, signed_field};

use crate::bits::display::push_letter;
use crate::bits::{Bits, mask};
use std::alloc::{AllocError, Global};

/// The places of a time that is shown (17.3.2).
const TIME_FIELD: usize = 20;

// A text at the right end of a field, with blanks before it.
fn justified(alloc: Global, field: usize, text: &str) -> Result<String, AllocError>
    ensures { IfOk result (λ t. string_bytes t ≡ right_justified field text.now) }
{
    let blanks = field.saturating_sub(text.len());
    let mut whole = String::new(alloc);
    for _blank in 0..blanks {
        push_letter(&mut whole, b' ')?;
    }
    whole.push_str(text)?;
    Ok(whole)
}

impl Bits {
    /// `%0d`: the whole number in decimal without leading zeros, or one letter `x`, `X`, `z` or `Z` for a vector that isn't
    /// known, by the rule of `show_h`'s groups. The only error is that memory runs out.
    pub fn show_d0(self, alloc: Global) -> Result<String, AllocError>
        ensures { IfOk result (λ t. string_bytes t ≡ decimal_text self) }
    {
        if self.b == 0 {
            let value = self.a;
            return format!(in alloc; "{value}");
        }
        let mut text = String::new(alloc);
        text.push(char::from(self.unknown_letter()))?;
        Ok(text)
    }

    // `%0d` with a sign: a minus before what a negative number lacks of 2 to the width
    pub(super) fn show_signed_d0(self, alloc: Global) -> Result<String, AllocError>
        ensures { IfOk result (λ t. string_bytes t ≡ signed_text self) }
    {
        if self.b != 0 {
            return self.show_d0(alloc);
        }
        if self.is_negative() {
            let value = mask(self.width) - self.a + 1;
            return format!(in alloc; "-{value}");
        }
        self.show_d0(alloc)
    }

    // the places of the greatest number of this width
    fn decimal_places(self, alloc: Global) -> Result<usize, AllocError>
        ensures { IfOk result (λ n. n ≡ decimal_field (length self)) }
    {
        let greatest = mask(self.width);
        let text = format!(in alloc; "{greatest}")?;
        Ok(text.len())
    }

    // the places of the least number of this width with a sign
    fn signed_places(self, alloc: Global) -> Result<usize, AllocError>
        ensures { IfOk result (λ n. n ≡ signed_field (length self)) }
    {
        let least = mask(self.width) / 2 + 1;
        let text = format!(in alloc; "-{least}")?;
        Ok(text.len())
    }

    // `%d`
    pub(super) fn show_d(self, alloc: Global) -> Result<String, AllocError>
        ensures { IfOk result (λ t. string_bytes t ≡ right_justified (decimal_field (length self)) (decimal_text self)) }
    {
        let places = self.decimal_places(alloc)?;
        let text = self.show_d0(alloc)?;
        justified(alloc, places, text.as_str())
    }

    // `%d` with a sign
    pub(super) fn show_signed_d(self, alloc: Global) -> Result<String, AllocError>
        ensures { IfOk result (λ t. string_bytes t ≡ right_justified (signed_field (length self)) (signed_text self)) }
    {
        let places = self.signed_places(alloc)?;
        let text = self.show_signed_d0(alloc)?;
        justified(alloc, places, text.as_str())
    }

    // `%t`
    pub(super) fn show_t(self, alloc: Global) -> Result<String, AllocError>
        ensures { IfOk result (λ t. string_bytes t ≡ right_justified 20 (decimal_text self)) }
    {
        let text = self.show_d0(alloc)?;
        justified(alloc, TIME_FIELD, text.as_str())
    }
}
