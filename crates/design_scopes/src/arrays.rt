//! The indices of arrays of instances (7.1.5).

ghost use Rattle.std.specs.Prelude.{◌≡◌, ◌≢◌, ◌+ℤ◌, ◌-ℤ◌, pos, int_lt, if◌then◌else◌, IfOk, IfSome};
ghost use Rattle.design_scopes.specs.Designs.{names_at_scope};
ghost use Rattle.design_scopes.specs.Values.{AreIndicesOf, indices_of};

use crate::faults::{DesignMade, Wrong, refuse};
use crate::scoped::ScopedDesign;
use ranges::range::VectorRange;
use scopes::tree::MAX_SCOPES;
use std::alloc::{AllocError, Global};
use syntax_tree::declarations::VerilogRange as SourceRange;

/// The number behind another on the way to a last one.
fn towards(from: i64, to: i64) -> i64
    requires { from ≢ to }
    ensures { result ≡ (if int_lt from to then from +ℤ pos 1 else from -ℤ pos 1) }
{
    if from < to { from + 1 } else { from - 1 }
}

/// The numbers of a range, from the first to the last, unless there are more than a design has scopes. Fails where memory is refused.
fn numbers_of(alloc: Global, range: VectorRange) -> Result<Option<Vec<i64>>, AllocError>
    ensures { IfOk result (λ found. IfSome found (λ numbers. numbers.items ≡ indices_of range)) }
{
    let mut found = Vec::new(alloc);
    let mut index = range.most;
    for _turn in 0..MAX_SCOPES {
        found.push(index)?;
        if index == range.least {
            return Ok(Some(found));
        }
        index = towards(index, range.least);
    }
    Ok(None)
}

impl ScopedDesign {
    /// The indices of a range, from the first to the last (7.1.5).
    pub fn indices(&self, scope: usize, source: &SourceRange) -> DesignMade<Vec<i64>>
        ensures { IfOk result (λ found. AreIndicesOf (names_at_scope self.now scope) source.now found.items) }
    {
        let range = self.bounds(scope, source)?;
        match numbers_of(self.alloc, range)? {
            Some(found) => Ok(found),
            None => refuse(source.token, Wrong::ManyScopes),
        }
    }
}
