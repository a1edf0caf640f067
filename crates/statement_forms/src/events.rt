//! Named events (9.7.3).

ghost use Rattle.std.specs.Prelude.{◌≡◌, IfOk};
ghost use Rattle.model.specs.SourceTrees.{source_statement_of};
ghost use Rattle.statement_forms.specs.Forms as spec;

use crate::build::{assign_of, beside, binary_of, name_of};
use crate::loops::nought;
use model::tree::{BinaryOperator, SourceStatement};
use std::alloc::{AllocError, Global};

/// `-> event`: the digit that it is changes. Fails where memory is refused.
pub fn happens_of(alloc: Global, event: &str) -> Result<SourceStatement, AllocError>
    ensures { IfOk result (λ made. source_statement_of made ≡ spec.happens event.now) }
{
    let is_nought = binary_of(
        alloc,
        BinaryOperator::CaseEqual,
        name_of(alloc, event)?,
        nought(),
    )?;
    let (changed, name) = beside(is_nought, String::from_str(alloc, event))?;
    Ok(assign_of(name, None, changed))
}
