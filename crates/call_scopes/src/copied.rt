//! Copies of scopes.

ghost use Rattle.std.specs.Prelude.{◌≡◌, Ok, IfOk};

use design_scopes::faults::DesignFault;
use design_scopes::scoped::{Label, ScopedDesign};
use scopes::scope::{Entity, Reach, copied};
use sizing::environment::ObjectValue;
use statement_parts::faults::{Lowered, StatementFault, StatementKind, fault};
use std::alloc::Global;

/// How deep named blocks of functions and tasks may stand in each other.
const ROOM: u32 = 64;

/// A scope whose variables are those of one call, and the scope of which it is a copy.
#[derive(Clone, Copy)]
pub struct CopiedScope {
    pub copy: usize,
    pub of: usize,
}

/// A design, with the scopes of its calls.
#[derive(Drop)]
pub struct CallScopes {
    pub alloc: Global,
    pub design: ScopedDesign,
    pub copies: Vec<CopiedScope>,
    /// How many names were made.
    pub names: usize,
}

/// Why a scope or a variable of a call isn't made: there are too many of them.
pub fn of_design(token: usize, found: DesignFault) -> StatementFault {
    match found {
        DesignFault::Memory => StatementFault::Memory,
        _ => StatementFault::At {
            token,
            kind: StatementKind::ManyCalls,
        },
    }
}

/// What is made in a design for a call at a token.
pub fn made_for<T: Drop>(token: usize, made: Result<T, DesignFault>) -> Lowered<T>
    ensures { IfOk result (λ value. made ≡ Ok value) }
{
    match made {
        Ok(value) => Ok(value),
        Err(found) => Err(of_design(token, found)),
    }
}

impl CallScopes {
    /// A design without scopes of calls.
    pub fn new(alloc: Global, design: ScopedDesign) -> CallScopes {
        CallScopes {
            alloc,
            design,
            copies: Vec::new(alloc),
            names: 0,
        }
    }

    /// A copy of a scope, beside it.
    pub fn copy_scope(&mut self, token: usize, of: usize, name: &[u8]) -> Lowered<usize> {
        let around = self.design.tree.outwards(Reach::Design, of).unwrap_or(0);
        let fresh = self.fresh(token, around, name)?;
        let label = Label {
            token,
            name: fresh.as_slice(),
        };
        let copy = made_for(token, self.design.open(around, label, None))?;
        self.copy_names(token, of, copy, ROOM)?;
        Ok(copy)
    }

    /// What a scope declares at a number, with the name.
    pub fn name_at(&self, scope: usize, number: usize) -> Lowered<Option<(Vec<u8>, Entity)>> {
        let Some(found) = self.design.tree.scope(scope) else {
            return Ok(None);
        };
        let Some((name, entity)) = found.names.get_index(number) else {
            return Ok(None);
        };
        let name = copied(self.alloc, name.as_slice())?;
        Ok(Some((name, *entity)))
    }

    /// How many names a scope declares.
    pub fn name_count(&self, scope: usize) -> usize {
        match self.design.tree.scope(scope) {
            Some(found) => found.names.len(),
            None => 0,
        }
    }

    /// Declares in a copy of a scope what that declares.
    fn copy_names(&mut self, token: usize, of: usize, copy: usize, room: u32) -> Lowered<()> {
        self.copies.push(CopiedScope { copy, of })?;
        if room == 0 {
            return fault(token, StatementKind::DeepCalls);
        }
        for number in 0..self.name_count(of) {
            let Some((name, entity)) = self.name_at(of, number)? else {
                return Ok(());
            };
            let label = Label {
                token,
                name: name.as_slice(),
            };
            match entity {
                Entity::Object(object) => self.copy_object(copy, label, object)?,
                Entity::Event(_) => made_for(token, self.design.declare_event(copy, label))?,
                Entity::Scope(inner) => {
                    let made = made_for(token, self.design.open(copy, label, None))?;
                    self.copy_names(token, inner, made, room - 1)?;
                }
                _ => {}
            }
        }
        Ok(())
    }

    /// Declares in a copy of a scope an object of that: a variable of its own, or the same constant.
    fn copy_object(&mut self, copy: usize, label: Label<'_>, number: usize) -> Lowered<()> {
        let Some(object) = self.design.objects.get(number) else {
            return Ok(());
        };
        let made = match &object.value {
            ObjectValue::Variable(_) => {
                let signed = object.signed;
                let range = object.range;
                self.design.declare_variable(copy, label, signed, range)
            }
            ObjectValue::Constant(_) => self.design.declare(copy, label, Entity::Object(number)),
        };
        made_for(label.token, made)
    }
}
