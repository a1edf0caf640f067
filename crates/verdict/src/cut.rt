//! The line on a list of races that was cut.

ghost use Rattle.std.specs.Prelude.{◌≡◌, ◌++◌, OnOk};
ghost use Rattle.verdict.specs.CutLines.{cut_cause_text, cut_text};

use crate::phrases::push_limit;
use std::alloc::AllocError;

/// By what a list of races was cut: as many were named, as many second runs were made, these had as many entries together, more
/// entries stood between two changes of the regions, or memory was refused.
#[derive(Clone, Copy)]
pub enum ListCut {
    Races(u64),
    Runs(u64),
    Entries(u64),
    Steps(u64),
    Memory,
}

/// Puts the line on a list of races that was cut behind a text.
pub fn push_cut(text: &mut Vec<u8>, cut: ListCut) -> Result<(), AllocError>
    ensures { OnOk result (text.new.items ≡ text.old.items ++ cut_text cut) }
{
    text.extend_from_slice(b"races may be missing: ")?;
    push_cause(text, cut)
}

/// By what the list was cut: the limit that was met, or that memory was refused.
fn push_cause(text: &mut Vec<u8>, cut: ListCut) -> Result<(), AllocError>
    ensures { OnOk result (text.new.items ≡ text.old.items ++ cut_cause_text cut) }
{
    match cut {
        ListCut::Races(most) => push_limit(text, most, b" race)\n", b" races)\n"),
        ListCut::Runs(most) => push_limit(text, most, b" second run)\n", b" second runs)\n"),
        ListCut::Entries(most) => push_limit(
            text,
            most,
            b" entry of second runs)\n",
            b" entries of second runs)\n",
        ),
        ListCut::Steps(most) => push_limit(
            text,
            most,
            b" entry between two changes of the regions)\n",
            b" entries between two changes of the regions)\n",
        ),
        ListCut::Memory => text.extend_from_slice(b"memory was refused\n"),
    }
}
