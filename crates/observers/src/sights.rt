//! What an observer sees of where a machine stands.
ghost use Rattle.std.specs.Prelude.{◌≡◌, [], ◌∷◌, ◌++◌, OnOk, flat_map};
ghost use Rattle.logic4.specs.Display.{binary_text};
ghost use Rattle.regions.specs.Machine.{state_at};
ghost use Rattle.looseruns.specs.RegisterObserver.{seen_register_line, seen_registers, seen_unless_finished};
ghost use Rattle.observers.specs.Observers.{observer_of};

use crate::digits::{push_digits, push_number};
use crate::observing::Observing;
use design::RegId;
use logic4::bits::Bits;
use regions::Machine;
use std::alloc::AllocError;

// The byte with which what is seen of registers begins, which no line of ASCII has.
const SIGHT_MARK: u8 = 128;

// Puts the line of a register with this value behind bytes.
fn push_value(bytes: &mut Vec<u8>, value: Bits) -> Result<(), AllocError>
    ensures { OnOk result (bytes.new.items ≡ bytes.old.items ++ (binary_text value ++ 10 ∷ [])) }
{
    push_digits(bytes, value)?;
    bytes.extend_from_slice(b"\n")
}

// Puts the line of a register behind bytes, which is empty where there is no such register.
fn push_register(
    bytes: &mut Vec<u8>,
    machine: &Machine<'_>,
    register: RegId,
) -> Result<(), AllocError>
    ensures { OnOk result (bytes.new.items ≡ bytes.old.items ++ seen_register_line machine.now.values register) }
{
    match machine.value(register) {
        Some(value) => push_value(bytes, value),
        None => bytes.extend_from_slice(b"\n"),
    }
}

// Puts the lines of these registers behind bytes.
fn push_registers(
    bytes: &mut Vec<u8>,
    machine: &Machine<'_>,
    registers: &[RegId],
) -> Result<(), AllocError>
    ensures { OnOk result (bytes.new.items ≡ bytes.old.items ++ flat_map (λ r. seen_register_line machine.now.values r) registers.now) }
{
    for register in registers {
        push_register(bytes, machine, *register)?;
    }
    Ok(())
}

// Puts the mark, the line of the time, and those of these registers behind bytes.
fn push_sight(
    bytes: &mut Vec<u8>,
    machine: &Machine<'_>,
    registers: &[RegId],
) -> Result<(), AllocError>
    ensures { OnOk result (bytes.new.items ≡ bytes.old.items ++ seen_registers registers.now (state_at machine.now)) }
{
    bytes.extend_from_slice(&[SIGHT_MARK])?;
    push_number(bytes, machine.time())?;
    bytes.extend_from_slice(b"\n")?;
    push_registers(bytes, machine, registers)
}

// Puts what is seen of these registers behind bytes, and nothing where the run has finished.
fn push_unless_finished(
    bytes: &mut Vec<u8>,
    machine: &Machine<'_>,
    registers: &[RegId],
) -> Result<(), AllocError>
    ensures { OnOk result (bytes.new.items ≡ bytes.old.items ++ seen_unless_finished (seen_registers registers.now) (state_at machine.now)) }
{
    if machine.is_finished() {
        return Ok(());
    }
    push_sight(bytes, machine, registers)
}

/// Puts what an observer sees of where a machine stands behind bytes: nothing where lines alone are compared, or where the run has finished;
/// else a mark, a line of the time, and a line of the digits of each of its registers. Fails where memory is refused.
pub fn push_seen(
    bytes: &mut Vec<u8>,
    observing: &Observing,
    machine: &Machine<'_>,
) -> Result<(), AllocError>
    ensures { OnOk result (bytes.new.items ≡ bytes.old.items ++ observer_of observing.now (state_at machine.now)) }
{
    match observing {
        Observing::Lines => Ok(()),
        Observing::Registers(registers) => push_unless_finished(bytes, machine, registers),
    }
}
