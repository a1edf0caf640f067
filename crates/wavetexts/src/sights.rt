//! Lines that say what is seen when time passes.

ghost use Rattle.std.specs.Prelude.{◌≡◌, ◌≢◌, [], length};
ghost use Rattle.wavetexts.specs.AtTimes.{begins_sight, is_printed, left_after, prints_nothing};

/// The byte with which what is seen when time passes begins.
const SIGHT_MARK: u8 = 128;

/// Whether a line begins what is seen when time passes.
pub(crate) fn begins_sight(line: &[u8]) -> bool
    ensures { result ≡ begins_sight line.now }
{
    match line.first() {
        Some(byte) => *byte == SIGHT_MARK,
        None => false,
    }
}

/// Whether nothing is printed in a line: it begins what is seen when time passes, or the text has ended.
pub(crate) fn prints_nothing(line: &[u8]) -> bool
    ensures { result ≡ prints_nothing line.now }
{
    match line.first() {
        Some(byte) => *byte == SIGHT_MARK,
        None => true,
    }
}

/// Whether a line is a printed one, where so many lines of what is seen are left.
pub(crate) fn is_printed(left: usize, line: &[u8]) -> bool
    ensures { result ≡ is_printed left line.now }
{
    if left > 0 {
        return false;
    }
    !begins_sight(line)
}

/// How many lines of what is seen are left behind a line, where so many registers are seen and so many lines were left before it.
pub(crate) fn left_after(registers: usize, line: &[u8], left: usize) -> usize
    ensures { result ≡ left_after registers line.now left }
{
    if left > 0 {
        return left - 1;
    }
    if begins_sight(line) { registers } else { 0 }
}
