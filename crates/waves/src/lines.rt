//! The lines of a dump.

ghost use Rattle.std.specs.Prelude.{◌≡◌, ◌++◌, OnOk, decimal};
ghost use Rattle.waves.specs.Dump.{scalar_line, vector_line, value_line, time_line, new_time, register_line};

use crate::code::push_code;
use design::RegId;
use itoa::Buffer;
use logic4::bits::Bits;
use std::alloc::{AllocError, Global};

/// Puts a number behind a text, by its decimal digits.
fn push_number(text: &mut Vec<u8>, number: u64) -> Result<(), AllocError>
    ensures { OnOk result (text.new.items ≡ text.old.items ++ decimal number) }
{
    let mut digits = Buffer::new();
    text.extend_from_slice(digits.format(number).as_bytes())
}

/// Puts the line of a time behind a text.
fn push_time(text: &mut Vec<u8>, time: u64) -> Result<(), AllocError>
    ensures { OnOk result (text.new.items ≡ text.old.items ++ time_line time) }
{
    text.extend_from_slice(b"#")?;
    push_number(text, time)?;
    text.extend_from_slice(b"\n")
}

/// Puts the line of a time behind a text, where another time stands.
pub(crate) fn push_new_time(text: &mut Vec<u8>, standing: u64, time: u64) -> Result<(), AllocError>
    ensures { OnOk result (text.new.items ≡ text.old.items ++ new_time standing time) }
{
    if time == standing {
        return Ok(());
    }
    push_time(text, time)
}

/// Puts the line of one digit behind a text.
fn push_scalar(text: &mut Vec<u8>, register: RegId, digits: &[u8]) -> Result<(), AllocError>
    ensures { OnOk result (text.new.items ≡ text.old.items ++ scalar_line register digits.now) }
{
    text.extend_from_slice(digits)?;
    push_code(text, register)?;
    text.extend_from_slice(b"\n")
}

/// Puts the line of several digits behind a text.
fn push_vector(text: &mut Vec<u8>, register: RegId, digits: &[u8]) -> Result<(), AllocError>
    ensures { OnOk result (text.new.items ≡ text.old.items ++ vector_line register digits.now) }
{
    text.extend_from_slice(b"b")?;
    text.extend_from_slice(digits)?;
    text.extend_from_slice(b" ")?;
    push_code(text, register)?;
    text.extend_from_slice(b"\n")
}

/// Puts the line of a register's value behind a text.
pub(crate) fn push_value(
    alloc: Global,
    text: &mut Vec<u8>,
    register: RegId,
    value: Bits,
) -> Result<(), AllocError>
    ensures { OnOk result (text.new.items ≡ text.old.items ++ value_line register value) }
{
    let digits = value.show_b(alloc)?;
    if value.width() == 1 {
        push_scalar(text, register, digits.as_bytes())
    } else {
        push_vector(text, register, digits.as_bytes())
    }
}

/// Puts the line that declares a register of such a name behind a text.
pub(crate) fn push_named(
    text: &mut Vec<u8>,
    register: RegId,
    name: &[u8],
    width: u32,
) -> Result<(), AllocError>
    ensures { OnOk result (text.new.items ≡ text.old.items ++ register_line register name.now width) }
{
    text.extend_from_slice(b"$var reg ")?;
    push_number(text, u64::from(width))?;
    text.extend_from_slice(b" ")?;
    push_code(text, register)?;
    text.extend_from_slice(b" ")?;
    text.extend_from_slice(name)?;
    text.extend_from_slice(b" $end\n")
}

/// Puts the line that declares a register behind a text.
pub(crate) fn push_register(
    text: &mut Vec<u8>,
    register: RegId,
    name: &str,
    width: u32,
) -> Result<(), AllocError>
    ensures { OnOk result (text.new.items ≡ text.old.items ++ register_line register name.now width) }
{
    push_named(text, register, name.as_bytes(), width)
}
