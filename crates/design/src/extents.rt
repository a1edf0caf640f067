//! How far each statement reaches: a table by places, filled in one pass, from which the places behind statements are
//! read. A place is an index of the table, so none overflows.
ghost use Rattle.std.specs.Prelude.{◌≡◌, ◌<◌, ◌+◌, ◌++◌, ◌∷◌, [], length, slice_set, OnOk, IfOk, map};
ghost use Rattle.design.specs.DesignTrees.{statement_of, statements_of, process_of};
ghost use Rattle.design.specs.Extents.{body_extent, extent_of, extents, extents_inside, all_extents};

use crate::tree::{Process, Statement};
use std::alloc::{AllocError, Global};

/// The places behind the first body of a statement, and behind all statements inside it.
#[derive(Clone, Copy)]
pub struct Extent {
    pub body: usize,
    pub whole: usize,
}

// an entry that `finish` fills in once all inside are there
fn begin(table: &mut Vec<Extent>) -> Result<(), AllocError>
    ensures { OnOk result (table.new.items ≡ table.old.items ++ record { body = 0; whole = 0 } ∷ []) }
{
    table.push(Extent { body: 0, whole: 0 })?;
    Ok(())
}

// fills in the entry of a place, once all statements inside that one are in the table
fn finish(table: &mut Vec<Extent>, place: usize, behind_body: usize)
    requires { place < length table.old.items }
    ensures { table.new.items ≡ slice_set table.old.items place (record { body = behind_body; whole = length table.old.items }) }
{
    let whole = table.len();
    table[place] = Extent {
        body: behind_body,
        whole,
    };
}

// adds the entry of a statement that has one body, and those of the body
#[cycle(measure)]
fn measure_body(table: &mut Vec<Extent>, body: &[Statement]) -> Result<(), AllocError>
    ensures { OnOk result (table.new.items ≡ table.old.items ++ body_extent (length table.old.items) (statements_of body.now) ∷ extents (length table.old.items + 1) (statements_of body.now)) }
{
    let place = table.len();
    begin(table)?;
    measure_all(table, body)?;
    let behind_body = table.len();
    finish(table, place, behind_body);
    Ok(())
}

// adds the entry of a statement, and those of the statements inside it; one without a body counts as one with an empty body
#[cycle(measure)]
fn measure(table: &mut Vec<Extent>, statement: &Statement) -> Result<(), AllocError>
    ensures { OnOk result (table.new.items ≡ table.old.items ++ extent_of (length table.old.items) (statement_of statement.now) ∷ extents_inside (length table.old.items) (statement_of statement.now)) }
{
    match statement {
        Statement::Delay(_, body) => measure_body(table, body),
        Statement::Await(_, body) => measure_body(table, body),
        Statement::While(_, body) => measure_body(table, body),
        Statement::If(_, body, otherwise) => {
            let place = table.len();
            begin(table)?;
            measure_all(table, body)?;
            let behind_body = table.len();
            measure_all(table, otherwise)?;
            finish(table, place, behind_body);
            Ok(())
        }
        _ => measure_body(table, &[]),
    }
}

// adds the entries of statements and of those inside them, in the order of the text
#[cycle(measure)]
fn measure_all(table: &mut Vec<Extent>, statements: &[Statement]) -> Result<(), AllocError>
    ensures { OnOk result (table.new.items ≡ table.old.items ++ extents (length table.old.items) (statements_of statements.now)) }
{
    for statement in statements {
        measure(table, statement)?;
    }
    Ok(())
}

/// The extent of each statement, by its place.
pub fn extents_of(alloc: Global, processes: &[Process]) -> Result<Vec<Extent>, AllocError>
    ensures { IfOk result (λ t. t.items ≡ all_extents 0 (map process_of processes.now)) }
{
    let mut table = Vec::new(alloc);
    for process in processes {
        measure_all(&mut table, &process.body)?;
    }
    Ok(table)
}
