//! What is compared of the runs of a design.

ghost use Rattle.std.specs.Prelude.{◌≡◌, ◌≢◌, ◌++◌, List, ℕ, IfSome, None, codes, true, false};
ghost use Rattle.arguments.specs.Observing.{Observes};
ghost use Rattle.arguments.specs.declared.observed.Observed.{Observed};
ghost use Rattle.arguments.specs.declared.observed.Observed.TheVariants as observed;

/// What two runs have in common where they count as the same, besides their end.
#[derive(Clone, Copy)]
pub enum Observed<'a> {
    /// Their lines, in order.
    Lines,
    /// The lines of each time, in any order.
    LinesAtTimes,
    /// So, and the value of each register whenever time passes.
    Registers,
    /// So, but of the registers with these names alone, between which commas stand.
    Named(&'a str),
}

impl<'a> Observed<'a> {
    /// Whether it is the lines, in order.
    pub fn is_lines(self) -> bool
        ensures yes { result ≡ true → self.entry ≡ observed.Lines }
        ensures no { result ≡ false → self.entry ≢ observed.Lines }
    {
        match self {
            Observed::Lines => true,
            Observed::LinesAtTimes | Observed::Registers | Observed::Named(_) => false,
        }
    }
}

/// What a word of the command line asks to observe, if it is one that does.
pub fn observed_by(text: &str) -> Option<Observed<'_>>
    ensures some { IfSome result (Observes text.entry.now) }
    ensures none { result ≡ None → (other : Observed) → Observes text.entry.now other → ⊥ }
{
    if text == "lines" {
        return Some(Observed::Lines);
    }
    if text == "lines-at-times" {
        return Some(Observed::LinesAtTimes);
    }
    if text == "registers" {
        return Some(Observed::Registers);
    }
    named_by(text)
}

/// The registers whose names stand behind `registers=`, if that is how a word begins.
fn named_by(text: &str) -> Option<Observed<'_>>
    ensures some { IfSome result (Observes text.entry.now) }
    ensures none { result ≡ None → (names : List ℕ) → text.entry.now ≢ codes "registers=" ++ names }
{
    match text.split_once('=') {
        Some((head, names)) => named_behind(head, names),
        None => None,
    }
}

/// The registers with these names, where this word stands before them.
fn named_behind<'a>(head: &str, names: &'a str) -> Option<Observed<'a>>
    ensures some { IfSome result (λ found. (head.now ≡ codes "registers") × (found ≡ observed.Named names.entry)) }
    ensures none { result ≡ None → head.now ≢ codes "registers" }
{
    if head == "registers" {
        Some(Observed::Named(names))
    } else {
        None
    }
}
