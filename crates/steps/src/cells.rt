//! The registers as they are known: values and versions.
ghost use Rattle.std.specs.Prelude.{◌≡◌, ◌<◌, [], ◌∷◌, map, length, IfOk, OnOk};
ghost use Rattle.steps.specs.Cells.{first_cell, reading_in, AreWritten, AllWritesIn};

use crate::entry_account::{Changed, Reading};
use design::{Design, RegId};
use logic4::bits::Bits;
use std::alloc::{AllocError, Global};

/// A register as it is known: its value, and how many changes it has had, or the greatest `u64` where that is less.
#[derive(Clone, Copy)]
pub struct VersionedValue {
    pub value: Bits,
    pub version: u64,
}

/// The registers at the start: every one is all x, at version 0 (4.2.2).
pub fn first_cells(alloc: Global, design: &Design) -> Result<Vec<VersionedValue>, AllocError>
    ensures { IfOk result (λ cells. cells.items ≡ map first_cell design.now.widths) }
{
    let mut cells = Vec::new(alloc);
    for width in design.widths() {
        cells.push(VersionedValue {
            value: Bits::unknown(*width),
            version: 0,
        })?;
    }
    Ok(cells)
}

/// A register as it is read.
pub fn reading(cells: &[VersionedValue], register: RegId) -> Reading
    requires { register < length cells.now }
    ensures { result ≡ reading_in cells.now register }
{
    let cell = cells[register as usize];
    Reading {
        register,
        value: cell.value,
        version: cell.version,
    }
}

/// Gives a register a value. Where that is another than its own, it is one change more, which is told behind the others. Fails where
/// memory is refused.
pub fn change(
    cells: &mut Vec<VersionedValue>,
    changes: &mut Vec<Changed>,
    register: RegId,
    value: Bits,
) -> Result<(), AllocError>
    requires { register < length cells.old.items }
    ensures written { OnOk result (AreWritten cells.old.items ((register, value) ∷ []) changes.old.items cells.new.items changes.new.items) }
    ensures registers { length cells.new.items ≡ length cells.old.items }
{
    let cell = cells[register as usize];
    if cell.value == value {
        return Ok(());
    }
    changes.push(Changed {
        register,
        before: cell.value,
        after: value,
    })?;
    cells[register as usize] = VersionedValue {
        value,
        version: cell.version.saturating_add(1),
    };
    Ok(())
}

/// Makes these writes in order, and tells those that change a register behind other changes. Fails where memory is refused.
pub fn change_all(
    cells: &mut Vec<VersionedValue>,
    changes: &mut Vec<Changed>,
    writes: &[(RegId, Bits)],
) -> Result<(), AllocError>
    requires { AllWritesIn (length cells.old.items) writes.now }
    ensures written { OnOk result (AreWritten cells.old.items writes.now changes.old.items cells.new.items changes.new.items) }
    ensures registers { length cells.new.items ≡ length cells.old.items }
{
    for write in writes {
        change(cells, changes, write.0, write.1)?;
    }
    Ok(())
}
