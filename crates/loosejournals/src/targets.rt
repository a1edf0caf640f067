//! The targets of nonblocking assignments.
ghost use Rattle.std.specs.Prelude.{◌≡◌, ◌∷◌, ◌++◌, OnOk};
ghost use Rattle.std.specs.List.{filter_map};
ghost use Rattle.model.specs.Design.{inside};
ghost use Rattle.design.specs.DesignTrees.{statement_of, statements_of};
ghost use Rattle.loosejournals.specs.Classes.{target_of, targets_of};

use design::RegId;
use design::tree::Statement;
use std::alloc::AllocError;

/// Appends the targets of the nonblocking assignments (9.2.2) among statements and those inside them, in the order of the text. Fails where
/// memory is refused.
#[cycle(targets)]
pub(crate) fn add_targets(
    targets: &mut Vec<RegId>,
    statements: &[Statement],
) -> Result<(), AllocError>
    ensures { OnOk result (targets.new.items ≡ targets.old.items ++ targets_of (statements_of statements.now)) }
{
    for statement in statements {
        add_targets_in(targets, statement)?;
    }
    Ok(())
}

// Appends the target of a statement, if it is such an assignment, and those of the statements inside it.
#[cycle(targets)]
fn add_targets_in(targets: &mut Vec<RegId>, statement: &Statement) -> Result<(), AllocError>
    ensures { OnOk result (targets.new.items ≡ targets.old.items ++ filter_map target_of (statement_of statement.now ∷ inside (statement_of statement.now))) }
{
    match statement {
        Statement::AssignLater(register, _, _) => targets.push(*register)?,
        Statement::Delay(_, body) => add_targets(targets, body)?,
        Statement::Await(_, body) => add_targets(targets, body)?,
        Statement::While(_, body) => add_targets(targets, body)?,
        Statement::If(_, body, otherwise) => {
            add_targets(targets, body)?;
            add_targets(targets, otherwise)?;
        }
        Statement::Empty => {}
        Statement::Assign(_, _) => {}
        Statement::AssignAfter(_, _, _) => {}
        Statement::Now(_) => {}
        Statement::Print(_, _, _) => {}
        Statement::Finish => {}
    }
    Ok(())
}
