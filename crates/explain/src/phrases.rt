//! Parts of the lines: numbers, names and quoted text.

ghost use Rattle.std.specs.Prelude.{◌≡◌, ◌++◌, OnOk, Some, decimal, slice_get};
ghost use Rattle.explain.specs.EntryLines.{plain_style};
ghost use Rattle.explain.specs.Phrases.{escaped, escaped_text, known_name, location_text, process_text, quoted_text, register_text, word_text};

use design::{Design, RegId};
use itoa::Buffer;
use literals::Radix;
use locations::ProcessLocation;
use std::alloc::AllocError;

/// How entries are written: in which digits values are, and whether a read says its version.
#[derive(Clone, Copy)]
pub struct EntryStyle {
    pub radix: Radix,
    pub versions: bool,
}

impl EntryStyle {
    /// Binary values, and no versions.
    pub fn plain() -> EntryStyle
        ensures { result ≡ plain_style }
    {
        EntryStyle {
            radix: Radix::Binary,
            versions: false,
        }
    }
}

/// What registers and processes are called by, a design and its processes; and how entries are written.
#[derive(Clone, Copy)]
pub struct SourceNames<'a> {
    pub design: &'a Design,
    pub processes: &'a [ProcessLocation],
    pub style: EntryStyle,
}

/// Puts a number behind a text.
pub(crate) fn push_number(text: &mut Vec<u8>, number: u64) -> Result<(), AllocError>
    ensures { OnOk result (text.new.items ≡ text.old.items ++ decimal number) }
{
    let mut digits = Buffer::new();
    text.extend_from_slice(digits.format(number).as_bytes())
}

/// Puts a number behind a text, with what stands before it.
pub fn push_labelled(text: &mut Vec<u8>, label: &[u8], number: u64) -> Result<(), AllocError>
    ensures { OnOk result (text.new.items ≡ text.old.items ++ (label.now ++ decimal number)) }
{
    text.extend_from_slice(label)?;
    push_number(text, number)
}

// Puts a byte behind a text, as it stands in a string (3.6).
fn push_escaped(text: &mut Vec<u8>, byte: u8) -> Result<(), AllocError>
    ensures { OnOk result (text.new.items ≡ text.old.items ++ escaped byte) }
{
    match byte {
        b'\n' => text.extend_from_slice(b"\\n"),
        b'\t' => text.extend_from_slice(b"\\t"),
        b'\\' => text.extend_from_slice(b"\\\\"),
        b'"' => text.extend_from_slice(b"\\\""),
        other => text.extend_from_slice(&[other]),
    }
}

// Puts bytes behind a text, each as it stands in a string (3.6).
fn push_each_escaped(text: &mut Vec<u8>, printed: &[u8]) -> Result<(), AllocError>
    ensures { OnOk result (text.new.items ≡ text.old.items ++ escaped_text printed.now) }
{
    for byte in printed {
        push_escaped(text, *byte)?;
    }
    Ok(())
}

/// Puts a printed text behind a text, between quotation marks, with the escapes of a string (3.6).
pub(crate) fn push_quoted(text: &mut Vec<u8>, printed: &[u8]) -> Result<(), AllocError>
    ensures { OnOk result (text.new.items ≡ text.old.items ++ quoted_text printed.now) }
{
    text.extend_from_slice(b"\"")?;
    push_each_escaped(text, printed)?;
    text.extend_from_slice(b"\"")
}

// The name of a register, or nothing where there is no such register.
fn name_of(design: &Design, register: RegId) -> &str
    ensures { result.now ≡ known_name (slice_get design.entry.now.names register) }
{
    if register < design.registers() {
        design.name(register)
    } else {
        ""
    }
}

/// Puts the name of a register behind a text.
pub fn push_register(
    text: &mut Vec<u8>,
    names: &SourceNames<'_>,
    register: RegId,
) -> Result<(), AllocError>
    ensures { OnOk result (text.new.items ≡ text.old.items ++ register_text names.entry.now register) }
{
    text.extend_from_slice(name_of(names.design, register).as_bytes())
}

// The word that a process begins with.
fn word_of(process: &ProcessLocation) -> &'static str
    ensures { result.now ≡ word_text process.now.always }
{
    if process.always { "always" } else { "initial" }
}

// Puts the word of a process and where it stands behind a text, with a comma before them.
fn push_place(text: &mut Vec<u8>, process: &ProcessLocation) -> Result<(), AllocError>
    ensures { OnOk result (text.new.items ≡ text.old.items ++ location_text (Some process.now)) }
{
    text.extend_from_slice(b", ")?;
    text.extend_from_slice(word_of(process).as_bytes())?;
    text.extend_from_slice(b" at ")?;
    text.extend_from_slice(process.at.as_bytes())
}

// Puts the word of a process, and where it stands, behind a text.
fn push_begin(text: &mut Vec<u8>, names: &SourceNames<'_>, process: u32) -> Result<(), AllocError>
    ensures { OnOk result (text.new.items ≡ text.old.items ++ location_text (slice_get names.entry.now.processes.now process)) }
{
    match names.processes.get(process as usize) {
        Some(process) => push_place(text, process),
        None => Ok(()),
    }
}

/// Puts a process behind a text: its number, its word and where it stands.
pub(crate) fn push_process(
    text: &mut Vec<u8>,
    names: &SourceNames<'_>,
    process: u32,
) -> Result<(), AllocError>
    ensures put { OnOk result (text.new.items ≡ text.old.items ++ process_text names.entry.now process) }
{
    push_labelled(text, b"process ", u64::from(process))?;
    push_begin(text, names, process)
}
