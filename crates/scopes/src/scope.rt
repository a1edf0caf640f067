//! Scopes, and what names stand for.

ghost use Rattle.std.specs.Prelude.{◌≡◌, [], ◌∷◌, ◌++◌, None, option_map, option_copied, IfOk, IfErr, OnOk, OnErr};
ghost use Rattle.scopes.specs.Scopes as spec;
ghost use Rattle.scopes.specs.Names as rules;
ghost use Rattle.scopes.specs.Faults.{IsNameFault};

use crate::fault::ScopeFault;
use indexmap::IndexMap;
use std::alloc::{AllocError, Global};

/// What a name stands for.
#[derive(Clone, Copy)]
pub enum Entity {
    /// The number of the scope of an instance of a module, a block, a function or a task.
    Scope(usize),
    /// The scopes of an array of instances, or of the blocks of a generate loop: the number of the first, and how many.
    Scopes { first: usize, count: usize },
    /// A variable, a net or a parameter, by its number among the objects of the design.
    Object(usize),
    /// A named event, by the number of the object that it is.
    Event(usize),
    /// The variable of a generate loop, where it is declared (12.4.1).
    LoopVariable,
}

/// A scope (12.7).
#[derive(Drop)]
pub struct NameScope {
    /// The number of the scope around it; the design itself has none.
    pub around: Option<usize>,
    /// The name of the module of which it is an instance, where it is one: variables aren't looked for beyond it.
    pub instance_of: Option<Vec<u8>>,
    /// Its index, where it is one of several.
    pub index: Option<i64>,
    /// How many scopes stand around it.
    pub depth: u32,
    /// Its full name. That of the design is empty.
    pub path: String,
    /// What it declares, in that order.
    pub names: IndexMap<Vec<u8>, Entity>,
}

/// How far out names are looked for (12.7).
#[derive(Clone, Copy)]
pub enum Reach {
    /// Up to the instance around: variables and parameters.
    Instance,
    /// Up to the design: functions, tasks, blocks, and the first part of a hierarchical name.
    Design,
}

/// A copy of bytes. Fails where memory is refused.
pub fn copied(alloc: Global, bytes: &[u8]) -> Result<Vec<u8>, AllocError>
    ensures { IfOk result (λ made. made.items ≡ bytes.now) }
{
    let mut made = Vec::new(alloc);
    made.extend_from_slice(bytes)?;
    Ok(made)
}

/// A copy of a name, if there is one. Fails where memory is refused.
pub fn copied_name(alloc: Global, name: Option<&[u8]>) -> Result<Option<Vec<u8>>, AllocError>
    ensures { IfOk result (λ made. option_map (λ v. v.items) made ≡ option_copied name.entry) }
{
    match name {
        Some(name) => {
            let copy = copied(alloc, name)?;
            Ok(Some(copy))
        }
        None => Ok(None),
    }
}

impl NameScope {
    /// Whether it is an instance of a module of this name.
    pub fn is_instance_of(&self, name: &[u8]) -> bool
        ensures { result ≡ rules.is_instance_of name.now (spec.scope_head self.now) }
    {
        match &self.instance_of {
            Some(found) => name == found.as_slice(),
            None => false,
        }
    }

    /// What the scope itself declares under a name.
    pub fn meaning(&self, name: &[u8]) -> Option<Entity>
        ensures { result ≡ spec.meaning (spec.scope_names self.now) name.now }
    {
        self.names.get(name).copied()
    }

    /// Declares a name. Refuses one that is declared already, and fails where memory is refused; the scope stays as it is then.
    pub fn declare(&mut self, alloc: Global, name: &[u8], found: Entity) -> Result<(), ScopeFault>
        ensures head { spec.scope_head self.new ≡ spec.scope_head self.old }
        ensures added { OnOk result (spec.scope_names self.new ≡ spec.scope_names self.old ++ (name.now, found) ∷ []) }
        ensures fresh { OnOk result (spec.meaning (spec.scope_names self.old) name.now ≡ None) }
        ensures kept { OnErr result (spec.scope_names self.new ≡ spec.scope_names self.old) }
        ensures fault { IfErr result (λ fault. IsNameFault fault (spec.scope_names self.old) name.now) }
    {
        if self.meaning(name).is_some() {
            return Err(ScopeFault::DeclaredTwice);
        }
        self.names.insert(copied(alloc, name)?, found)?;
        Ok(())
    }
}
