//! The text of a dump.

ghost use Rattle.std.specs.Prelude.{◌≡◌, ◌++◌, length, IfOk, OnOk};
ghost use Rattle.waves.specs.Dump.{changes_text, header_text, registers_text, unknown_values_text, vcd_text};
ghost use Rattle.design.specs.Meaning.{IsCompiled};

use crate::lines::{push_new_time, push_register, push_value};
use crate::wave::Wave;
use design::{Design, RegId};
use logic4::bits::Bits;
use std::alloc::{AllocError, Global};

/// Puts the lines that declare the registers of a design behind a text.
fn push_registers(text: &mut Vec<u8>, design: &Design) -> Result<(), AllocError>
    ensures { OnOk result (text.new.items ≡ text.old.items ++ registers_text 0 design.now.names design.now.widths) }
{
    for register in 0..design.registers() {
        push_register(
            text,
            register,
            design.name(register),
            design.width(register),
        )?;
    }
    Ok(())
}

/// Puts the lines of registers that are all x behind a text.
fn push_unknown(alloc: Global, text: &mut Vec<u8>, design: &Design) -> Result<(), AllocError>
    ensures { OnOk result (text.new.items ≡ text.old.items ++ unknown_values_text 0 design.now.widths) }
{
    for register in 0..design.registers() {
        push_value(alloc, text, register, Bits::unknown(design.width(register)))?;
    }
    Ok(())
}

/// Puts what stands before the first change behind a text.
fn push_header(
    alloc: Global,
    text: &mut Vec<u8>,
    scope: &str,
    design: &Design,
) -> Result<(), AllocError>
    ensures { OnOk result (text.new.items ≡ text.old.items ++ header_text scope.now design.now.names design.now.widths) }
{
    text.extend_from_slice(b"$timescale 1 ns $end\n$scope module ")?;
    text.extend_from_slice(scope.as_bytes())?;
    text.extend_from_slice(b" $end\n")?;
    push_registers(text, design)?;
    text.extend_from_slice(b"$upscope $end\n$enddefinitions $end\n#0\n$dumpvars\n")?;
    push_unknown(alloc, text, design)?;
    text.extend_from_slice(b"$end\n")
}

/// Puts the lines of the changes of a wave, and at last of its end, behind a text.
fn push_changes(alloc: Global, text: &mut Vec<u8>, wave: &Wave) -> Result<(), AllocError>
    ensures { OnOk result (text.new.items ≡ text.old.items ++ changes_text 0 wave.now.changes.items wave.now.end) }
{
    let mut standing = 0;
    for change in &wave.changes {
        push_new_time(text, standing, change.time)?;
        push_value(alloc, text, change.register, change.value)?;
        standing = change.time;
    }
    push_new_time(text, standing, wave.end)
}

/// The text of a wave of a design (18.2), in a scope with the name of a module. One unit of time of the source is one unit of the
/// text, which is called 1 ns there. Each value has all of its digits. The last line is the time of the wave's end.
///
/// The same wave has the same text: no date stands in it. Fails where memory is refused.
pub fn value_change_dump(
    alloc: Global,
    scope: &str,
    design: &Design,
    wave: &Wave,
) -> Result<Vec<u8>, AllocError>
    ensures { IfOk result (λ text. text.items ≡ vcd_text scope.now design.now.names design.now.widths wave.now.changes.items wave.now.end) }
{
    let mut text = Vec::new(alloc);
    push_header(alloc, &mut text, scope, design)?;
    push_changes(alloc, &mut text, wave)?;
    Ok(text)
}
