//! Texts of bytes (IEEE 1364-2005, 17.1.1.2): eight digits are one character.
#![tactic(auto, using(crate::proofs::Widths::widths))]

ghost use Rattle.std.specs.Prelude.{◌≡◌, ◌<◌, ◌≤◌, ◌++◌, Bool, ◌||◌, ◌==◌, not, length, IfOk, OnOk, string_bytes};
ghost use Rattle.logic4.specs.Vector.{number, resize};
ghost use Rattle.logic4.specs.Display.{character_text, filled_text, bytes_of};
ghost use Rattle.logic4.specs.Leading.{blank_of, byte_text};

use crate::bits::Bits;
use crate::bits::display::push_letter;
use crate::conversion::LeadingZeros;
use std::alloc::{AllocError, Global};

// the character of a byte behind a text: one past ASCII by its three octal digits
fn push_character(text: &mut String, byte: u8) -> Result<(), AllocError>
    ensures { OnOk result (string_bytes text.new ≡ string_bytes text.old ++ character_text byte) }
{
    if byte < 128 {
        return push_letter(text, byte);
    }
    push_letter(text, b'\\')?;
    push_letter(text, b'0' + byte / 64)?;
    push_letter(text, b'0' + byte / 8 % 8)?;
    push_letter(text, b'0' + byte % 8)
}

// what stands for a zero byte at the front, behind a text
fn push_blank(text: &mut String, zeros: LeadingZeros) -> Result<(), AllocError>
    ensures { OnOk result (string_bytes text.new ≡ string_bytes text.old ++ blank_of zeros) }
{
    match zeros {
        LeadingZeros::Shown => push_letter(text, b' '),
        LeadingZeros::Dropped => Ok(()),
    }
}

// A byte behind others, of which some is not zero where the text has `begun`, and whether it has begun behind it.
fn push_byte(
    text: &mut String,
    begun: bool,
    byte: u8,
    zeros: LeadingZeros,
) -> Result<bool, AllocError>
    ensures begun { IfOk result (λ now. now ≡ (begun || not (byte == 0))) }
    ensures text { IfOk result (λ now. string_bytes text.new ≡ string_bytes text.old ++ byte_text zeros now byte) }
{
    if begun | (byte != 0) {
        push_character(text, byte)?;
        return Ok(true);
    }
    push_blank(text, zeros)?;
    Ok(false)
}

impl Bits {
    // the number of up to eight digits, of which x and z count as 0
    fn byte(self) -> u8
        requires { length self ≤ 8 }
        ensures { result ≡ number self }
    {
        ((self.a | self.b) ^ self.b) as u8
    }

    // `%c`: the character of the least significant eight digits
    pub(super) fn show_c(self, alloc: Global) -> Result<String, AllocError>
        ensures { IfOk result (λ t. string_bytes t ≡ character_text (number (resize 8 self))) }
    {
        let mut text = String::new(alloc);
        push_character(&mut text, self.resize(8).byte())?;
        Ok(text)
    }

    // `%s`: a character for each byte, the most significant first, and blanks or nothing for the zero bytes at the front
    pub(super) fn characters(self, alloc: Global, zeros: LeadingZeros) -> Result<String, AllocError>
        ensures { IfOk result (λ t. string_bytes t ≡ filled_text (blank_of zeros) (bytes_of self)) }
    {
        let width = self.width();
        let groups = (width + 7) / 8;
        let mut text = String::with_capacity(alloc, groups as usize)?;
        let mut begun = false;
        for group in (0..groups).rev() {
            let from = 8 * group;
            let byte = self.part(from, (width - from).min(8)).byte();
            begun = push_byte(&mut text, begun, byte, zeros)?;
        }
        Ok(text)
    }
}
