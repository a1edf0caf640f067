//! Where a statement stands.

ghost use Rattle.std.specs.Prelude.{◌≡◌, Some, IfOk};
ghost use Rattle.statement_parts.specs.Statements.{name_in};
ghost use Rattle.statement_parts.specs.Surroundings.{inner_scope};
ghost use Rattle.statement_parts.specs.Places as spec;
ghost use Rattle.statement_parts.specs.Places.{surroundings};

use crate::faults::{Lowered, StatementKind, fault};
use design_scopes::scoped::ScopedDesign;
use scopes::scope::Entity;
use std::alloc::Global;
use syntax_tree::expressions::Identifier;

/// Where a statement stands: the design, and the scope.
#[derive(Clone, Copy)]
pub struct Around<'d> {
    pub alloc: Global,
    pub design: &'d ScopedDesign,
    pub scope: usize,
}

/// The number of the scope that a name stands for, where it stands for one that is no array.
fn scope_number(found: Option<Entity>) -> Option<usize>
    ensures { result ≡ spec.scope_number found }
{
    match found? {
        Entity::Scope(number) => Some(number),
        Entity::Scopes { .. } => None,
        Entity::Object(_) => None,
        Entity::Event(_) => None,
        Entity::LoopVariable => None,
    }
}

impl<'d> Around<'d> {
    /// The same place in the scope of a block, where it has a name (9.8.3).
    pub fn inside(self, token: usize, name: &Option<Identifier>) -> Lowered<Around<'d>>
        ensures { IfOk result (λ inner. (inner.design ≡ self.entry.design) × (inner_scope (surroundings self.entry.design.now) self.entry.scope (name_in name.now) ≡ Some inner.scope)) }
    {
        let Some(identifier) = name else {
            return Ok(self);
        };
        let declared = self
            .design
            .tree
            .declared(self.scope, identifier.name.as_slice());
        match scope_number(declared) {
            Some(scope) => Ok(Around {
                alloc: self.alloc,
                design: self.design,
                scope,
            }),
            None => fault(token, StatementKind::UnknownBlock),
        }
    }
}
