//! In which line two texts differ.
ghost use Rattle.std.specs.Prelude.{◌≡◌, ◌≤◌, ◌↔◌, length, IfSome, IfNone, IsTrue};
ghost use Rattle.verdict.specs.VerdictLines as spec;
ghost use Rattle.verdict.specs.VerdictLines.{IsFirstDifference, HaveSameLines};

/// The first line in which two texts differ: its number, from 1, and what it is in each, with its newline. It is empty in a
/// text that has ended.
#[derive(Clone, Copy)]
pub struct Difference<'a> {
    pub line: usize,
    pub first: &'a [u8],
    pub second: &'a [u8],
}

/// The length of the first line of a text, with its newline.
pub fn line_length(text: &[u8]) -> usize
    ensures value { result ≡ spec.line_length text.now }
    ensures within { result ≤ length text.now }
{
    match text.iter().position(|byte| *byte == b'\n') {
        Some(at) => at + 1,
        None => text.len(),
    }
}

// Whether two lines are the same.
fn is_same(one: &[u8], other: &[u8]) -> bool
    ensures { IsTrue result ↔ (one.now ≡ other.now) }
{
    one == other
}

/// The first line in which two texts differ, or none where they have the same lines.
pub fn first_difference<'a>(first: &'a [u8], second: &'a [u8]) -> Option<Difference<'a>>
    ensures differ { IfSome result (λ d. IsFirstDifference first.entry.now second.entry.now d.line d.first.now d.second.now) }
    ensures same { IfNone result (HaveSameLines first.entry.now second.entry.now) }
{
    let mut ones = first;
    let mut others = second;
    let mut line: usize = 1;
    while !(ones.is_empty() && others.is_empty()) {
        let (one, ones_left) = ones.split_at(line_length(ones));
        let (other, others_left) = others.split_at(line_length(others));
        if !is_same(one, other) {
            return Some(Difference {
                line,
                first: one,
                second: other,
            });
        }
        ones = ones_left;
        others = others_left;
        line += 1;
    }
    None
}
