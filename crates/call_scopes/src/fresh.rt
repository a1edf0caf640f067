//! Names that no text has, and names of variables that no other has.

ghost use Rattle.std.specs.Prelude.{◌≡◌, ◌++◌, codes, decimal, None, false, IfOk, IfSome, OnOk};
ghost use Rattle.scopes.specs.declared.scope.Reach.TheVariants as reach;
ghost use Rattle.scopes.specs.Names.{found};
ghost use Rattle.scopes.specs.Trees.{Declares, ScopesGrow};
ghost use Rattle.design_scopes.specs.Designs.{DeclaresVariable};
ghost use Rattle.call_scopes.specs.Fresh.{IsCallName};

use crate::copied::{CallScopes, made_for, of_design};
use design_scopes::scoped::Label;
use ranges::range::VectorRange;
use scopes::finding::find;
use scopes::scope::{Entity, Reach, copied};
use statement_parts::faults::{Lowered, StatementKind, fault};
use std::alloc::{AllocError, Global};

/// The most names that are made for the calls of a design.
pub const MAX_NAMES: usize = 65_536;

/// The name of a call's scope: it has a blank in it. Fails where memory is refused.
fn call_name(alloc: Global, number: usize) -> Result<Vec<u8>, AllocError>
    ensures { IfOk result (λ made. made.items ≡ codes "call " ++ decimal number) }
{
    let text = format!(in alloc; "call {number}")?;
    copied(alloc, text.as_bytes())
}

/// A stem with a number behind it. Fails where memory is refused.
fn numbered(alloc: Global, stem: &[u8], number: usize) -> Result<Vec<u8>, AllocError> {
    let mut name = copied(alloc, stem)?;
    let text = format!(in alloc; "${number}")?;
    name.extend_from_slice(text.as_bytes())?;
    Ok(name)
}

impl CallScopes {
    /// A number that no name has yet. Refuses one too many.
    fn number(&mut self, token: usize) -> Lowered<usize>
        ensures frame { self.new ≡ record self.old { names = self.new.names } }
    {
        if self.names >= MAX_NAMES {
            return fault(token, StatementKind::ManyCalls);
        }
        self.names += 1;
        Ok(self.names)
    }

    /// A name of a stem and the next number, if nothing is found under it from a scope outwards.
    fn next_name(&mut self, token: usize, scope: usize, stem: &[u8]) -> Lowered<Option<Vec<u8>>>
        ensures nowhere { IfOk result (λ made. IfSome made (λ name. found self.new.design.tree.scopes.items reach.Design scope name.items ≡ None)) }
        ensures frame { self.new ≡ record self.old { names = self.new.names } }
    {
        let number = self.number(token)?;
        let name = numbered(self.alloc, stem, number)?;
        match find(&self.design.tree, Reach::Design, scope, name.as_slice()) {
            None => Ok(Some(name)),
            Some(_) => Ok(None),
        }
    }

    /// A name of a stem and a number, under which nothing is found from a scope outwards.
    #[tactic(auto, using(crate::proofs::OnlyNames::names_twice, crate::proofs::OnlyNames::nowhere_before))]
    pub fn fresh(&mut self, token: usize, scope: usize, stem: &[u8]) -> Lowered<Vec<u8>>
        ensures nowhere { IfOk result (λ name. found self.old.design.tree.scopes.items reach.Design scope name.items ≡ None) }
        ensures frame { self.new ≡ record self.old { names = self.new.names } }
    {
        for _attempt in 0..MAX_NAMES {
            if let Some(name) = self.next_name(token, scope, stem)? {
                return Ok(name);
            }
        }
        fault(token, StatementKind::ManyCalls)
    }

    /// Declares a scope, where a call stands, under a name that no text has: it has a blank in it. Answers the name.
    pub fn declare_scope(&mut self, at: usize, token: usize, scope: usize) -> Lowered<Vec<u8>>
        ensures named { IfOk result (λ name. IsCallName name.items) }
        ensures declares { IfOk result (λ name. Declares self.old.design.tree.scopes.items self.new.design.tree.scopes.items at name.items (Entity.Scope scope)) }
        ensures grows { OnOk result (ScopesGrow self.old.design.tree.scopes.items self.new.design.tree.scopes.items) }
        ensures frame { self.new.design ≡ record self.old.design { tree = self.new.design.tree } }
    {
        self.declare_hidden(at, token, Entity::Scope(scope))
    }

    /// Declares something, where a call stands, under a name that no text has. Answers the name.
    #[tactic(auto, using(crate::proofs::OnlyNames::named_by, crate::proofs::OnlyNames::declares_after, crate::proofs::OnlyNames::grows_after, crate::proofs::OnlyNames::tree_after, crate::proofs::OnlyNames::tree_stays))]
    pub fn declare_hidden(&mut self, at: usize, token: usize, what: Entity) -> Lowered<Vec<u8>>
        ensures named { IfOk result (λ name. IsCallName name.items) }
        ensures declares { IfOk result (λ name. Declares self.old.design.tree.scopes.items self.new.design.tree.scopes.items at name.items what) }
        ensures grows { OnOk result (ScopesGrow self.old.design.tree.scopes.items self.new.design.tree.scopes.items) }
        ensures frame { self.new.design ≡ record self.old.design { tree = self.new.design.tree } }
    {
        let number = self.number(token)?;
        let name = call_name(self.alloc, number)?;
        let label = Label {
            token,
            name: name.as_slice(),
        };
        match self.design.declare(at, label, what) {
            Ok(()) => Ok(name),
            Err(why) => Err(of_design(token, why)),
        }
    }

    /// Declares a variable without a sign in a scope, under a stem and a number, and answers its name.
    #[tactic(auto, using(crate::proofs::OnlyNames::variable_after))]
    pub fn declare_own(
        &mut self,
        at: usize,
        token: usize,
        stem: &[u8],
        range: Option<VectorRange>,
    ) -> Lowered<Vec<u8>>
        ensures { IfOk result (λ name. DeclaresVariable self.old.design self.new.design at name.items Entity.Object false range) }
    {
        let name = self.fresh(token, at, stem)?;
        let label = Label {
            token,
            name: name.as_slice(),
        };
        match self.design.declare_variable(at, label, false, range) {
            Ok(()) => Ok(name),
            Err(why) => Err(of_design(token, why)),
        }
    }

    /// Declares, in the scope of a function, a variable like that of its own name, and answers the variable's name.
    pub fn declare_result(
        &mut self,
        token: usize,
        scope: usize,
        function: &[u8],
    ) -> Lowered<Vec<u8>> {
        let name = self.fresh(token, scope, function)?;
        let label = Label {
            token,
            name: name.as_slice(),
        };
        let Some(Entity::Object(number)) = self.design.tree.declared(scope, function) else {
            return fault(token, StatementKind::UnknownFunction);
        };
        let Some(object) = self.design.objects.get(number) else {
            return fault(token, StatementKind::UnknownFunction);
        };
        let signed = object.signed;
        let range = object.range;
        made_for(
            token,
            self.design.declare_variable(scope, label, signed, range),
        )?;
        Ok(name)
    }
}
