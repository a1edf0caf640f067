//! The lines of each time of an observed text, in one order.

ghost use Rattle.std.specs.Prelude.{◌≡◌, ◌<◌, ◌++◌, [], length, IfNone, IfOk, IfSome, OnOk};
ghost use Rattle.wavetexts.specs.AtTimes.{at_times, comes_before, left_after, placed_line, printed_lines};
ghost use Rattle.wavetexts.specs.Arrangings.{IsArrangedOn};

use crate::lines::split_line;
use crate::sights::{is_printed, left_after};
use std::alloc::{AllocError, Global};

/// Whether a line comes before another one, byte by byte.
pub(crate) fn comes_before(one: &[u8], other: &[u8]) -> bool
    ensures { result ≡ comes_before one.now other.now }
{
    one.cmp(&other).is_lt()
}

// The first line of lines in order, and those behind it, where it comes before a line.
fn split_before<'a>(line: &[u8], text: &'a [u8]) -> Option<(&'a [u8], &'a [u8])>
    ensures some { IfSome result (λ p. placed_line line.now text.entry.now ≡ p.0.now ++ placed_line line.now p.1.now) }
    ensures shorter { IfSome result (λ p. length p.1.now < length text.entry.now) }
    ensures none { IfNone result (placed_line line.now text.entry.now ≡ line.now ++ text.entry.now) }
{
    match split_line(text) {
        Some((first, more)) => {
            if comes_before(first, line) {
                Some((first, more))
            } else {
                None
            }
        }
        None => None,
    }
}

/// Lines in order, and one more in its place among them.
pub(crate) fn place(alloc: Global, line: &[u8], text: &[u8]) -> Result<Vec<u8>, AllocError>
    ensures { IfOk result (λ all. all.items ≡ placed_line line.now text.now) }
{
    let mut all = Vec::new(alloc);
    let mut rest = text;
    while let Some((first, more)) = split_before(line, rest) {
        all.extend_from_slice(first)?;
        rest = more;
    }
    all.extend_from_slice(line)?;
    all.extend_from_slice(rest)?;
    Ok(all)
}

// An observed text under way: how many lines of what is seen are left, the printed lines since, in order, and what stands before them.
#[derive(Drop)]
struct Arranging {
    left: usize,
    held: Vec<u8>,
    done: Vec<u8>,
}

impl Arranging {
    // Puts a printed line into its place.
    fn hold(&mut self, alloc: Global, registers: usize, line: &[u8]) -> Result<(), AllocError>
        ensures held { OnOk result (self.new.held.items ≡ placed_line line.now self.old.held.items) }
        ensures done { OnOk result (self.new.done.items ≡ self.old.done.items) }
        ensures left { OnOk result (self.new.left ≡ left_after registers line.now self.old.left) }
    {
        let held = place(alloc, line, self.held.as_slice())?;
        self.held = held;
        self.left = left_after(registers, line, self.left);
        Ok(())
    }

    // Puts the printed lines that are held, and then a line of what is seen, behind what is done.
    fn pass(&mut self, registers: usize, line: &[u8]) -> Result<(), AllocError>
        ensures held { OnOk result (self.new.held.items ≡ []) }
        ensures done { OnOk result (self.new.done.items ≡ (self.old.done.items ++ self.old.held.items) ++ line.now) }
        ensures left { OnOk result (self.new.left ≡ left_after registers line.now self.old.left) }
    {
        self.done.extend_from_slice(self.held.as_slice())?;
        self.done.extend_from_slice(line)?;
        self.held.clear();
        self.left = left_after(registers, line, self.left);
        Ok(())
    }

    // Takes a line more.
    fn take(&mut self, alloc: Global, registers: usize, line: &[u8]) -> Result<(), AllocError>
        ensures { OnOk result (IsArrangedOn registers line.now self.old self.new) }
    {
        if is_printed(self.left, line) {
            return self.hold(alloc, registers, line);
        }
        self.pass(registers, line)
    }
}

/// An observed text of so many registers, with the lines that are printed between two times in order. Fails where memory is refused.
pub fn at_times(alloc: Global, registers: usize, text: &[u8]) -> Result<Vec<u8>, AllocError>
    ensures { IfOk result (λ arranged. arranged.items ≡ at_times registers text.now) }
{
    let mut arranging = Arranging {
        left: 0,
        held: Vec::new(alloc),
        done: Vec::new(alloc),
    };
    let mut rest = text;
    while let Some((line, more)) = split_line(rest) {
        arranging.take(alloc, registers, line)?;
        rest = more;
    }
    let Arranging { held, done, .. } = arranging;
    let mut all = done;
    all.extend_from_slice(held.as_slice())?;
    Ok(all)
}

/// How many printed lines an observed text of so many registers has.
pub fn printed_lines(registers: usize, text: &[u8]) -> usize
    ensures { result ≡ printed_lines registers text.now }
{
    let mut count: usize = 0;
    let mut left: usize = 0;
    let mut rest = text;
    while let Some((line, more)) = split_line(rest) {
        if is_printed(left, line) {
            count += 1;
        }
        left = left_after(registers, line, left);
        rest = more;
    }
    count
}
