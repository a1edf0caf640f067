//! That no two variables have one full name.

ghost use Rattle.std.specs.Prelude.{◌≡◌, ◌≢◌, AllPairs, MatchBool, true, false, option_copied, IfErr, IfOk, OnOk};
ghost use Rattle.design_scopes.specs.Flat as spec;

use crate::faults::{DesignFault, DesignMade, Wrong};
use crate::scoped::ScopedDesign;
use indexmap::IndexSet;
use sizing::environment::{Object, ObjectValue};
use std::alloc::{AllocError, Global};

/// The full name of a variable or an event; none of a constant.
fn name_of(object: &Object) -> Option<&str>
    ensures { option_copied result ≡ spec.object_name object.now }
{
    match &object.value {
        ObjectValue::Variable(name) => Some(name.as_str()),
        ObjectValue::Constant(_) => None,
    }
}

/// Adds a name, and answers whether it is new. Fails where memory is refused.
fn add<'o>(names: &mut IndexSet<&'o str>, name: &'o str) -> Result<bool, AllocError>
    ensures { IfOk result (λ new. MatchBool new (spec.AddsName names.old.keys names.new.keys name.now) (spec.HasName names.old.keys name.now)) }
{
    Ok(names.insert(name)?)
}

/// Adds the name of an object, where it has one, and answers whether no other has it. Fails where memory is refused.
fn add_object<'o>(names: &mut IndexSet<&'o str>, object: &'o Object) -> Result<bool, AllocError>
    ensures added { IfOk result (λ new. new ≡ true → spec.AddsNameOf names.old.keys names.new.keys (spec.object_name object.now)) }
    ensures found { IfOk result (λ new. new ≡ false → spec.HasNameOf names.old.keys (spec.object_name object.now)) }
{
    match name_of(object) {
        Some(name) => add(names, name),
        None => Ok(true),
    }
}

/// Refuses the first variable whose full name another one has. Fails where memory is refused.
fn refuse_same_names(alloc: Global, objects: &[Object], tokens: &[usize]) -> DesignMade<()>
    ensures apart { OnOk result (AllPairs (λ a b. a ≢ b) (spec.variable_names objects.now)) }
    ensures fault { IfErr result (λ told. spec.IsToldSame objects.now told) }
{
    let mut names = IndexSet::new(alloc);
    for number in 0..objects.len() {
        if !add_object(&mut names, &objects[number])? {
            let token = tokens.get(number).copied().unwrap_or(0);
            return Err(DesignFault::At {
                token,
                wrong: Wrong::DeclaredTwice,
            });
        }
    }
    Ok(())
}

impl ScopedDesign {
    /// Refuses the first variable whose full name another one has. Fails where memory is refused.
    pub fn refuse_same_names(&self) -> DesignMade<()>
        ensures apart { OnOk result (AllPairs (λ a b. a ≢ b) (spec.variable_names self.now.objects.items)) }
        ensures fault { IfErr result (λ told. spec.IsToldSame self.now.objects.items told) }
    {
        refuse_same_names(self.alloc, self.objects.as_slice(), self.tokens.as_slice())
    }
}
