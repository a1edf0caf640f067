//! A design: its scopes, and the objects that they declare.

ghost use Rattle.std.specs.Prelude.{◌≡◌, [], ◌∷◌, ◌++◌, length, false, None, option_copied, string_bytes, IfOk, IfErr, OnOk};
ghost use Rattle.scopes.specs.Faults.{IsDeclareFault, IsScopeFault};
ghost use Rattle.scopes.specs.Trees.{Declares, ScopesGrow, Opens, OpensSeveral};
ghost use Rattle.design_scopes.specs.Designs as spec;

use crate::call_values::CallValue;
use crate::faults::{DesignFault, DesignMade, Wrong, refuse, scope_fault};
use ranges::range::VectorRange;
use scopes::names::full_name;
use scopes::scope::Entity;
use scopes::tree::ScopeTree;
use sizing::environment::{Object, ObjectValue};
use std::alloc::{AllocError, Global};
use syntax_tree::expressions::Identifier;

/// The most variables and constants of a design.
pub const MAX_OBJECTS: usize = 65_536;

/// A name, and the token by which its place is told.
#[derive(Clone, Copy)]
pub struct Label<'n> {
    pub token: usize,
    pub name: &'n [u8],
}

/// The most processes of a design.
pub const MAX_PROCESSES: usize = 16_384;

/// A process of the text in a scope: the scope, and the token at which the process stands.
#[derive(Clone, Copy)]
pub struct PlacedProcess {
    pub scope: usize,
    pub token: usize,
}

/// A scope that is that of a function or a task, and the token at which its declaration stands.
#[derive(Clone, Copy)]
pub struct PlacedRoutine {
    pub scope: usize,
    pub token: usize,
}

/// The scopes of a design, in the order of its text, and the objects that they declare.
#[derive(Drop)]
pub struct ScopedDesign {
    pub alloc: Global,
    pub tree: ScopeTree,
    /// Variables, events and constants, in the order of their declarations.
    pub objects: Vec<Object>,
    /// The tokens at which they are declared.
    pub tokens: Vec<usize>,
    /// The processes of each scope, those of a scope before those of the scopes in it.
    pub processes: Vec<PlacedProcess>,
    /// The scopes of functions and tasks, in the order in which they are opened.
    pub routines: Vec<PlacedRoutine>,
    /// The values of the constant functions' calls in what is declared next (10.4.5).
    pub calls: Vec<CallValue>,
}

/// The name of an identifier.
pub fn label_of(identifier: &Identifier) -> Label<'_>
    ensures token { result.token ≡ identifier.now.token }
    ensures name { result.name.now ≡ identifier.now.name.items }
{
    Label {
        token: identifier.token,
        name: identifier.name.as_slice(),
    }
}

impl ScopedDesign {
    /// A design without any module. Fails where memory is refused.
    pub fn new(alloc: Global) -> Result<ScopedDesign, AllocError>
        ensures { IfOk result spec.IsEmptyDesign }
    {
        Ok(ScopedDesign {
            alloc,
            tree: ScopeTree::new(alloc)?,
            objects: Vec::new(alloc),
            tokens: Vec::new(alloc),
            processes: Vec::new(alloc),
            routines: Vec::new(alloc),
            calls: Vec::new(alloc),
        })
    }

    /// Adds the scope of a function or a task, whose declaration stands at a token. Fails where memory is refused.
    pub fn add_routine(&mut self, scope: usize, token: usize) -> Result<(), AllocError>
        ensures added { OnOk result (self.new.routines.items ≡ self.old.routines.items ++ record { scope = scope; token = token } ∷ []) }
        ensures frame { self.new ≡ record self.old { routines = self.new.routines } }
    {
        self.routines.push(PlacedRoutine { scope, token })?;
        Ok(())
    }

    /// Adds a process in a scope, at a token.
    pub fn add_process(&mut self, scope: usize, token: usize) -> DesignMade<()>
        ensures added { OnOk result (self.new.processes.items ≡ self.old.processes.items ++ record { scope = scope; token = token } ∷ []) }
        ensures fault { IfErr result (λ told. spec.IsToldFull Wrong.ManyProcesses spec.most_placed_processes (length self.old.processes.items) token told) }
        ensures frame { self.new ≡ record self.old { processes = self.new.processes } }
    {
        if self.processes.len() >= MAX_PROCESSES {
            return Err(DesignFault::At {
                token,
                wrong: Wrong::ManyProcesses,
            });
        }
        self.processes.push(PlacedProcess { scope, token })?;
        Ok(())
    }

    /// Opens a scope in another one: that of an instance of the module of a name, or another one.
    pub fn open(
        &mut self,
        around: usize,
        label: Label<'_>,
        instance_of: Option<&[u8]>,
    ) -> DesignMade<usize>
        ensures number { IfOk result (λ number. number ≡ length self.old.tree.scopes.items) }
        ensures grows { OnOk result (ScopesGrow self.old.tree.scopes.items self.new.tree.scopes.items) }
        ensures opens { OnOk result (Opens self.old.tree.scopes.items self.new.tree.scopes.items around label.entry.name.now (option_copied instance_of.entry)) }
        ensures fault { IfErr result (λ told. spec.IsToldWhy (λ f. IsScopeFault f self.old.tree.scopes.items around label.entry.name.now) label.entry.token told) }
        ensures frame { self.new ≡ record self.old { tree = self.new.tree } }
    {
        let alloc = self.alloc;
        match self.tree.open(alloc, around, label.name, instance_of) {
            Ok(number) => Ok(number),
            Err(fault) => Err(scope_fault(fault, label.token)),
        }
    }

    /// Opens several scopes in another one, one for each index, and answers the number of the first.
    pub fn open_several(
        &mut self,
        around: usize,
        label: Label<'_>,
        instance_of: Option<&[u8]>,
        indices: &[i64],
    ) -> DesignMade<usize>
        ensures number { IfOk result (λ number. number ≡ length self.old.tree.scopes.items) }
        ensures grows { OnOk result (ScopesGrow self.old.tree.scopes.items self.new.tree.scopes.items) }
        ensures opens { OnOk result (OpensSeveral self.old.tree.scopes.items self.new.tree.scopes.items around label.entry.name.now (option_copied instance_of.entry) indices.now) }
        ensures frame { self.new ≡ record self.old { tree = self.new.tree } }
    {
        let alloc = self.alloc;
        match self
            .tree
            .open_several(alloc, around, label.name, instance_of, indices)
        {
            Ok(first) => Ok(first),
            Err(fault) => Err(scope_fault(fault, label.token)),
        }
    }

    /// Declares a name in a scope.
    pub fn declare(&mut self, scope: usize, label: Label<'_>, found: Entity) -> DesignMade<()>
        ensures declares { OnOk result (Declares self.old.tree.scopes.items self.new.tree.scopes.items scope label.entry.name.now found) }
        ensures grows { OnOk result (ScopesGrow self.old.tree.scopes.items self.new.tree.scopes.items) }
        ensures fault { IfErr result (λ told. spec.IsToldWhy (λ f. IsDeclareFault f self.old.tree.scopes.items scope label.entry.name.now) label.entry.token told) }
        ensures frame { self.new ≡ record self.old { tree = self.new.tree } }
    {
        let alloc = self.alloc;
        match self.tree.declare(alloc, scope, label.name, found) {
            Ok(()) => Ok(()),
            Err(fault) => Err(scope_fault(fault, label.token)),
        }
    }

    /// Adds an object, and answers its number.
    fn add(&mut self, object: Object, token: usize) -> DesignMade<usize>
        ensures number { IfOk result (λ number. number ≡ length self.old.objects.items) }
        ensures added { OnOk result (self.new.objects.items ≡ self.old.objects.items ++ object ∷ []) }
        ensures fault { IfErr result (λ told. spec.IsToldFull Wrong.ManyObjects spec.most_objects (length self.old.objects.items) token told) }
        ensures frame { self.new ≡ record self.old { objects = self.new.objects; tokens = self.new.tokens } }
    {
        let number = self.objects.len();
        if number >= MAX_OBJECTS {
            return refuse(token, Wrong::ManyObjects);
        }
        self.objects.push(object)?;
        self.tokens.push(token)?;
        Ok(number)
    }

    /// Declares a constant in a scope.
    pub fn declare_constant(
        &mut self,
        scope: usize,
        label: Label<'_>,
        object: Object,
    ) -> DesignMade<()>
        ensures { OnOk result (spec.DeclaresObject self.old self.new scope label.entry.name.now Entity.Object object) }
    {
        let number = self.add(object, label.token)?;
        self.declare(scope, label, Entity::Object(number))
    }

    /// The full name of what a scope declares.
    pub fn full_name_in(&self, scope: usize, label: Label<'_>) -> DesignMade<String>
        ensures { IfOk result (λ made. string_bytes made ≡ spec.full_name_at self.now scope label.entry.name.now) }
    {
        let Ok(text) = str::from_utf8(label.name) else {
            return refuse(label.token, Wrong::NoText);
        };
        Ok(full_name(self.alloc, self.tree.path(scope), text)?)
    }

    /// Adds the variable of a name in a scope, and answers its number.
    fn add_variable(
        &mut self,
        scope: usize,
        label: Label<'_>,
        signed: bool,
        range: Option<VectorRange>,
    ) -> DesignMade<usize>
        ensures number { IfOk result (λ number. number ≡ length self.old.objects.items) }
        ensures added { OnOk result (spec.AddsVariable self.old self.new (spec.full_name_at self.old scope label.entry.name.now) signed range) }
        ensures frame { self.new ≡ record self.old { objects = self.new.objects; tokens = self.new.tokens } }
    {
        let name = self.full_name_in(scope, label)?;
        self.add(
            Object {
                signed,
                range,
                value: ObjectValue::Variable(name),
            },
            label.token,
        )
    }

    /// Declares a variable in a scope.
    pub fn declare_variable(
        &mut self,
        scope: usize,
        label: Label<'_>,
        signed: bool,
        range: Option<VectorRange>,
    ) -> DesignMade<()>
        ensures { OnOk result (spec.DeclaresVariable self.old self.new scope label.entry.name.now Entity.Object signed range) }
    {
        let number = self.add_variable(scope, label, signed, range)?;
        self.declare(scope, label, Entity::Object(number))
    }

    /// Declares a named event in a scope: one digit, which changes where it happens (9.7.3).
    pub fn declare_event(&mut self, scope: usize, label: Label<'_>) -> DesignMade<()>
        ensures { OnOk result (spec.DeclaresVariable self.old self.new scope label.entry.name.now Entity.Event false None) }
    {
        let number = self.add_variable(scope, label, false, None)?;
        self.declare(scope, label, Entity::Event(number))
    }

    /// Declares the variable of generate loops (12.4.1).
    pub fn declare_loop_variable(&mut self, scope: usize, label: Label<'_>) -> DesignMade<()>
        ensures declares { OnOk result (Declares self.old.tree.scopes.items self.new.tree.scopes.items scope label.entry.name.now Entity.LoopVariable) }
        ensures frame { self.new ≡ record self.old { tree = self.new.tree } }
    {
        self.declare(scope, label, Entity::LoopVariable)
    }
}
