//! Variables, events and the variables of generate loops (4.2, 9.7.3, 12.4.1).

ghost use Rattle.std.specs.Prelude.{◌≡◌, ◌≤◌, true, false, None, Some, IfOk, OnOk};
ghost use Rattle.logic4.specs.Vector.{greatest_width};
ghost use Rattle.ranges.specs.Ranges.{range_width};
ghost use Rattle.design_scopes.specs.Designs as spec;
ghost use Rattle.design_scopes.specs.Designs.{names_at_scope};
ghost use Rattle.design_scopes.specs.Places.{means, names_in_scope};
ghost use Rattle.design_scopes.specs.Values.{IsRangeOf, IsVariableType, IsVectorRange, range_from_zero};

use crate::faults::{DesignMade, Wrong, refuse};
use crate::places::{ScopePlace, number_at};
use crate::scoped::{ScopedDesign, label_of};
use logic4::bits::MAX_WIDTH;
use ranges::range::VectorRange;
use scopes::scope::Entity;
use sizing::environment::Environment;
use std::alloc::Global;
use syntax_tree::declarations::{
    Declarator, EventDeclaration, GenvarDeclaration, PortDeclaration, PortKind, ValueType,
    VariableDeclaration, VariableKind, VerilogRange as SourceRange,
};

/// The type of a variable: whether it is signed, and its range.
#[derive(Clone, Copy)]
pub struct VariableType {
    pub signed: bool,
    pub range: Option<VectorRange>,
}

/// A range of so many digits, the least of which has the number 0.
pub fn range_of_width(width: u32) -> Option<VectorRange>
    ensures { result ≡ Some (range_from_zero width) }
{
    Some(VectorRange {
        most: i64::from(width) - 1,
        least: 0,
    })
}

/// Whether a vector may have a range.
fn is_fit(range: VectorRange) -> bool
    ensures { result ≡ true → range_width range ≤ greatest_width }
{
    match range.width() {
        Some(width) => width.get() <= MAX_WIDTH,
        None => false,
    }
}

/// What an argument is that is declared so: a register, unless it is said to be another variable (10.2.1, 10.4.1).
pub fn argument_kind(kind: PortKind) -> VariableKind
    ensures { result ≡ spec.argument_kind kind }
{
    match kind {
        PortKind::Variable(kind) => kind,
        PortKind::Net(_) => VariableKind::Register,
        PortKind::Unstated => VariableKind::Register,
    }
}

/// The numbers of a range (4.3.1).
#[tactic(auto, using(crate::proofs::Bounds::range_told))]
pub fn bounds_at<E: Environment>(
    alloc: Global,
    place: &E,
    range: &SourceRange,
) -> DesignMade<VectorRange>
    ensures { IfOk result (λ found. IsRangeOf (E.means place.now) range.now found) }
{
    let most = number_at(alloc, place, &range.most)?;
    let least = number_at(alloc, place, &range.least)?;
    match (most, least) {
        (Some(most), Some(least)) => Ok(VectorRange { most, least }),
        _ => refuse(range.token, Wrong::Range),
    }
}

/// The range of a vector, if it has one.
pub fn vector_range_at<E: Environment>(
    alloc: Global,
    place: &E,
    range: &Option<SourceRange>,
) -> DesignMade<Option<VectorRange>>
    ensures { IfOk result (λ found. IsVectorRange (E.means place.now) range.now found) }
{
    let Some(source) = range else {
        return Ok(None);
    };
    let found = bounds_at(alloc, place, source)?;
    if !is_fit(found) {
        return refuse(source.token, Wrong::Wide);
    }
    Ok(Some(found))
}

/// The type of variables of a kind: that of `integer` is signed and has 32 digits, that of `time` has 64 (4.8).
pub fn variable_type_at<E: Environment>(
    alloc: Global,
    place: &E,
    kind: VariableKind,
    value_type: &ValueType,
) -> DesignMade<VariableType>
    ensures { IfOk result (λ found. IsVariableType (E.means place.now) kind value_type.now found) }
{
    match kind {
        VariableKind::Integer => Ok(VariableType {
            signed: true,
            range: range_of_width(32),
        }),
        VariableKind::Time => Ok(VariableType {
            signed: false,
            range: range_of_width(64),
        }),
        VariableKind::Register => Ok(VariableType {
            signed: value_type.signed,
            range: vector_range_at(alloc, place, &value_type.range)?,
        }),
    }
}

/// What a scope's text says, evaluated.
impl ScopedDesign {
    /// The place of a scope.
    pub fn place(&self, scope: usize) -> ScopePlace<'_>
        ensures { means result ≡ names_in_scope self.now.tree.scopes.items self.now.objects.items scope }
    {
        ScopePlace {
            tree: &self.tree,
            objects: self.objects.as_slice(),
            scope,
            turn: None,
            calls: &[],
        }
    }

    /// The place of a scope, for constant expressions, the values of whose calls are known (10.4.5).
    pub fn constant_place(&self, scope: usize) -> ScopePlace<'_>
        ensures { means result ≡ names_at_scope self.now scope }
    {
        ScopePlace {
            tree: &self.tree,
            objects: self.objects.as_slice(),
            scope,
            turn: None,
            calls: self.calls.as_slice(),
        }
    }

    /// The numbers of a range (4.3.1).
    pub fn bounds(&self, scope: usize, range: &SourceRange) -> DesignMade<VectorRange>
        ensures { IfOk result (λ found. IsRangeOf (names_at_scope self.now scope) range.now found) }
    {
        bounds_at(self.alloc, &self.constant_place(scope), range)
    }

    /// The type of variables of a kind: that of `integer` is signed and has 32 digits, that of `time` has 64 (4.8).
    pub fn variable_type(
        &self,
        scope: usize,
        kind: VariableKind,
        value_type: &ValueType,
    ) -> DesignMade<VariableType>
        ensures { IfOk result (λ found. IsVariableType (names_at_scope self.now scope) kind value_type.now found) }
    {
        variable_type_at(self.alloc, &self.constant_place(scope), kind, value_type)
    }

    /// Declares a variable of a type. Refuses an array, and one with a value.
    fn declare_one(
        &mut self,
        scope: usize,
        declarator: &Declarator,
        variable_type: VariableType,
    ) -> DesignMade<()>
        ensures { OnOk result (spec.DeclaresVariable self.old self.new scope declarator.now.identifier.name.items Entity.Object variable_type.signed variable_type.range) }
    {
        let label = label_of(&declarator.identifier);
        if !declarator.dimensions.is_empty() {
            return refuse(label.token, Wrong::Array);
        }
        if declarator.value.is_some() {
            return refuse(label.token, Wrong::InitialValue);
        }
        let VariableType { signed, range } = variable_type;
        self.declare_variable(scope, label, signed, range)
    }

    /// Declares variables of one type.
    fn declare_each(
        &mut self,
        scope: usize,
        declarators: &[Declarator],
        variable_type: VariableType,
    ) -> DesignMade<()>
        ensures { OnOk result (spec.DeclaresEach scope Entity.Object variable_type.signed variable_type.range (spec.declarator_names declarators.now) self.old self.new) }
    {
        for declarator in declarators {
            self.declare_one(scope, declarator, variable_type)?;
        }
        Ok(())
    }

    /// Declares the variables of a declaration (4.2.1).
    pub fn declare_variables(
        &mut self,
        scope: usize,
        source: &VariableDeclaration,
    ) -> DesignMade<()>
        ensures { OnOk result (spec.DeclaresVariables self.old self.new scope source.now.kind source.now.value_type (spec.declarator_names source.now.declarators.items)) }
    {
        let variable_type = self.variable_type(scope, source.kind, &source.value_type)?;
        self.declare_each(scope, source.declarators.as_slice(), variable_type)
    }

    /// Declares the arguments of a function or a task (10.2.1, 10.4.1).
    pub fn declare_arguments(&mut self, scope: usize, source: &PortDeclaration) -> DesignMade<()>
        ensures { OnOk result (spec.DeclaresVariables self.old self.new scope (spec.argument_kind source.now.kind) source.now.value_type (spec.declarator_names source.now.declarators.items)) }
    {
        let variable_type = self.variable_type(
            scope,
            argument_kind(source.kind),
            &source.value_type,
        )?;
        self.declare_each(scope, source.declarators.as_slice(), variable_type)
    }

    /// Declares named events (9.7.3).
    pub fn declare_events(&mut self, scope: usize, source: &EventDeclaration) -> DesignMade<()>
        ensures { OnOk result (spec.DeclaresEach scope Entity.Event false None (spec.declarator_names source.now.declarators.items) self.old self.new) }
    {
        for declarator in &source.declarators {
            self.declare_event(scope, label_of(&declarator.identifier))?;
        }
        Ok(())
    }

    /// Declares the variables of generate loops (12.4.1).
    pub fn declare_genvars(&mut self, scope: usize, source: &GenvarDeclaration) -> DesignMade<()> {
        for identifier in &source.identifiers {
            self.declare_loop_variable(scope, label_of(identifier))?;
        }
        Ok(())
    }
}
