//! The lines of a text, one after another.

ghost use Rattle.std.specs.Prelude.{◌≡◌, ◌<◌, ◌∷◌, [], length, IfNone, IfSome};
ghost use Rattle.wavetexts.specs.AtTimes.{lines_of};

use verdict::line_length;

/// The first line of a text, and what stands behind it; none of an empty text.
pub(crate) fn split_line(text: &[u8]) -> Option<(&[u8], &[u8])>
    ensures some { IfSome result (λ p. lines_of text.entry.now ≡ p.0.now ∷ lines_of p.1.now) }
    ensures shorter { IfSome result (λ p. length p.1.now < length text.entry.now) }
    ensures none { IfNone result (lines_of text.entry.now ≡ []) }
{
    if text.is_empty() {
        return None;
    }
    Some(text.split_at(line_length(text)))
}
