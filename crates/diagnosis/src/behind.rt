//! What stands behind a lexeme, as far as its note wants it.

use crate::lexemes::Lexeme;
use crate::reserved::is_name;
use crate::words::is_same;

/// The two lexemes behind one, empty where there are none.
#[derive(Clone, Copy)]
pub(crate) struct Following<'a> {
    pub(crate) next: &'a [u8],
    pub(crate) second: &'a [u8],
}

/// The first two of these lexemes.
pub(crate) fn next_two<'a>(rest: &[Lexeme<'a>]) -> Following<'a> {
    match rest {
        [next, second, ..] => Following {
            next: next.text,
            second: second.text,
        },
        [next] => Following {
            next: next.text,
            second: b"",
        },
        _ => Following {
            next: b"",
            second: b"",
        },
    }
}

impl Following<'_> {
    /// Whether this stands behind the name of a module of which there is an instance.
    pub(crate) fn is_instance(self) -> bool {
        match self.second {
            b"(" | b"[" => is_name(self.next) || is_same(self.next, b"#"),
            _ => is_same(self.next, b"#"),
        }
    }

    /// Whether something is assigned.
    pub(crate) fn assigns(self) -> bool {
        match self.next {
            b"=" => true,
            b"<" => is_same(self.second, b"="),
            _ => false,
        }
    }

    /// Whether an operator is inverted that begins here.
    pub(crate) fn is_inverted(self) -> bool {
        match self.next {
            b"&" | b"|" | b"^" => true,
            _ => false,
        }
    }
}
