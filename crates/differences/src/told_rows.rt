//! Which of the registers that differ are told: each at each time, or at its first alone.

ghost use Rattle.std.specs.Prelude.{◌≡◌, ◌++◌, IfOk, OnOk};
ghost use Rattle.differences.specs.ToldRows.{first_rows, has_row, row_unless, told_rows};

use crate::value_difference::ValueDifference;
use design::RegId;
use std::alloc::{AllocError, Global};

// Whether one of these is of a register.
fn has_row(rows: &[ValueDifference], register: RegId) -> bool
    ensures { result ≡ has_row register rows.now }
{
    rows.iter().any(|row| row.register == register)
}

// Keeps a register that differs, unless it is kept at another time.
fn keep_first(kept: &mut Vec<ValueDifference>, row: &ValueDifference) -> Result<(), AllocError>
    ensures { OnOk result (kept.new.items ≡ kept.old.items ++ row_unless (has_row row.now.register kept.old.items) row.now) }
{
    if has_row(kept.as_slice(), row.register) {
        return Ok(());
    }
    kept.push(*row)?;
    Ok(())
}

// Of each register that differs the first time.
fn first_rows(alloc: Global, rows: &[ValueDifference]) -> Result<Vec<ValueDifference>, AllocError>
    ensures { IfOk result (λ kept. kept.items ≡ first_rows rows.now) }
{
    let mut kept = Vec::new(alloc);
    for place in 0..rows.len() {
        keep_first(&mut kept, &rows[place])?;
    }
    Ok(kept)
}

/// All of the registers that differ, each at each time, or of each the first time.
pub(crate) fn told_rows(
    alloc: Global,
    all: bool,
    rows: Vec<ValueDifference>,
) -> Result<Vec<ValueDifference>, AllocError>
    ensures { IfOk result (λ told. told.items ≡ told_rows all rows.items) }
{
    match all {
        true => Ok(rows),
        false => first_rows(alloc, rows.as_slice()),
    }
}
