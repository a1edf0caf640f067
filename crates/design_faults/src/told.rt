//! What is told of faults.

ghost use Rattle.std.specs.Prelude.{◌≡◌, ◌++◌, IfOk, OnOk, codes, decimal, string_bytes};
ghost use Rattle.design_faults.specs.Told as spec;
ghost use Rattle.design_faults.specs.Words.{fault_words};

use crate::refused::{DesignRefusal, PlacedFault, WholeFault};
use crate::words::push_words;
use lexemes::token::FileSpan;
use locations::{location_of_byte, push_excerpt, push_shown_bytes};
use source_texts::places::place_of;
use source_texts::texts::text_at;
use std::alloc::{AllocError, Global};

/// Puts a line and a column behind a text, each behind a colon, and what stands between them and a message.
fn push_line_and_column(text: &mut String, line: u64, column: usize) -> Result<(), AllocError>
    ensures { OnOk result (string_bytes text.new ≡ string_bytes text.old ++ (codes ":" ++ (decimal line ++ (codes ":" ++ (decimal column ++ codes ": "))))) }
{
    write!(text, ":{line}:{column}: ")
}

/// Puts the file, the line and the column of a place behind a text, and a colon and a space.
fn push_head(text: &mut String, refusal: &DesignRefusal, place: FileSpan) -> Result<(), AllocError>
    ensures { OnOk result (string_bytes text.new ≡ string_bytes text.old ++ spec.message_head refusal.now.files.items refusal.now.lines.items place) }
{
    let files = refusal.files.as_slice();
    let found = place_of(files, refusal.lines.as_slice(), place);
    let column = location_of_byte(text_at(files, place.file), place.begin as usize).column;
    push_shown_bytes(text, found.file)?;
    push_line_and_column(text, found.line, column)
}

/// Puts a message at a place behind a text: where that stands, the words, and its line with a caret.
#[tactic(auto, unfolding(crate::specs::Told::message_at))]
fn push_message(
    alloc: Global,
    text: &mut String,
    refusal: &DesignRefusal,
    place: FileSpan,
    words: &str,
) -> Result<(), AllocError>
    ensures { OnOk result (string_bytes text.new ≡ string_bytes text.old ++ spec.message_at refusal.now.files.items refusal.now.lines.items place words.now) }
{
    push_head(text, refusal, place)?;
    text.push_str(words)?;
    text.push_str("\n")?;
    let around = text_at(refusal.files.as_slice(), place.file);
    push_excerpt(alloc, text, around, place.begin as usize)
}

/// Puts the message of a fault behind a text. Where it comes of a macro, it is told at the use of that, and the place in the macro's text
/// behind it.
fn push_placed(
    alloc: Global,
    text: &mut String,
    refusal: &DesignRefusal,
    place: FileSpan,
    used: Option<FileSpan>,
    words: &str,
) -> Result<(), AllocError>
    ensures { OnOk result (string_bytes text.new ≡ string_bytes text.old ++ spec.told_at refusal.now.files.items refusal.now.lines.items place used words.now) }
{
    match used {
        Some(used) => {
            push_message(alloc, text, refusal, used, words)?;
            push_message(
                alloc,
                text,
                refusal,
                place,
                "note: here in the text of the macro",
            )
        }
        None => push_message(alloc, text, refusal, place, words),
    }
}

/// The words of a fault. Fails where memory is refused.
fn words_of(alloc: Global, fault: WholeFault) -> Result<String, AllocError>
    ensures { IfOk result (λ words. string_bytes words ≡ fault_words fault) }
{
    let mut words = String::new(alloc);
    push_words(&mut words, fault)?;
    Ok(words)
}

/// Puts words behind a text, in a line of their own.
fn push_alone(text: &mut String, words: &str) -> Result<(), AllocError>
    ensures { OnOk result (string_bytes text.new ≡ string_bytes text.old ++ (words.now ++ codes "\n")) }
{
    text.push_str(words)?;
    text.push_str("\n")
}

/// Puts what is told of a fault behind a text, where these are its words.
fn push_by(
    alloc: Global,
    text: &mut String,
    refusal: &DesignRefusal,
    fault: &PlacedFault,
    words: &str,
) -> Result<(), AllocError>
    ensures { OnOk result (string_bytes text.new ≡ string_bytes text.old ++ spec.told_by refusal.now.files.items refusal.now.lines.items fault.now.place fault.now.used words.now) }
{
    match fault.place {
        Some(place) => push_placed(alloc, text, refusal, place, fault.used, words),
        None => push_alone(text, words),
    }
}

/// Puts what is told of a fault behind a text.
fn push_fault(
    alloc: Global,
    text: &mut String,
    refusal: &DesignRefusal,
    fault: &PlacedFault,
) -> Result<(), AllocError>
    ensures { OnOk result (string_bytes text.new ≡ string_bytes text.old ++ spec.told_fault refusal.now.files.items refusal.now.lines.items fault.now) }
{
    let words = words_of(alloc, fault.fault)?;
    push_by(alloc, text, refusal, fault, &words)
}

/// What is told of all faults, one after another. Fails where memory is refused.
pub fn told_faults(alloc: Global, refusal: &DesignRefusal) -> Result<String, AllocError>
    ensures { IfOk result (λ text. string_bytes text ≡ spec.told_faults refusal.now.files.items refusal.now.lines.items refusal.now.faults.items) }
{
    let mut text = String::new(alloc);
    let faults = refusal.faults.as_slice();
    for fault in faults {
        push_fault(alloc, &mut text, refusal, fault)?;
    }
    Ok(text)
}
