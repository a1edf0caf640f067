//! Parameters and their values (4.10, 12.2).

ghost use Rattle.std.specs.Prelude.{◌≡◌, string_bytes, IfOk, OnOk};
ghost use Rattle.design_scopes.specs.Designs.{full_name_at};
ghost use Rattle.hierarchy.specs.Given as spec;

use crate::elaboration::Elaboration;
use design_scopes::faults::{DesignMade, Wrong, refuse};
use design_scopes::scoped::{Label, label_of};
use indexmap::{IndexMap, IndexSet};
use shaped_trees::constants::Constant;
use std::alloc::{AllocError, Global};
use syntax_tree::declarations::{ParameterAssignment, ParameterDeclaration};

/// The value that a parameter is given from elsewhere, and the token where.
#[derive(Clone, Copy)]
pub struct Given {
    pub token: usize,
    pub value: Constant,
}

/// The values that parameters are given from elsewhere, by their full names.
#[derive(Drop)]
pub struct Parameters {
    /// By `#( )` (12.2.2), or from outside of the text.
    by_instance: IndexMap<String, Given>,
    /// By `defparam` (12.2.1), which goes before.
    by_defparam: IndexMap<String, Given>,
    /// The parameters that may be given one.
    known: IndexSet<String>,
}

/// The value that is given to a parameter, by its full name.
fn value_among(values: &IndexMap<String, Given>, full: &str) -> Option<Constant>
    ensures { result ≡ spec.value_among values.now.entries full.now }
{
    match values.get(full) {
        Some(given) => Some(given.value),
        None => None,
    }
}

impl Parameters {
    /// None is given a value.
    pub fn new(alloc: Global) -> Parameters {
        Parameters {
            by_instance: IndexMap::new(alloc),
            by_defparam: IndexMap::new(alloc),
            known: IndexSet::new(alloc),
        }
    }

    /// Gives a value by `#( )`. Fails where memory is refused.
    pub fn give(&mut self, full: String, given: Given) -> Result<(), AllocError> {
        let _ = self.by_instance.insert(full, given)?;
        Ok(())
    }

    /// Gives a value by `defparam`; the last one stands. Fails where memory is refused.
    pub fn give_over(&mut self, full: String, given: Given) -> Result<(), AllocError> {
        let _ = self.by_defparam.insert(full, given)?;
        Ok(())
    }

    /// The value that a parameter is given from elsewhere.
    fn given(&self, full: &str) -> Option<Constant>
        ensures { result ≡ spec.value_given self.now full.now }
    {
        match value_among(&self.by_defparam, full) {
            Some(value) => Some(value),
            None => value_among(&self.by_instance, full),
        }
    }

    /// The value that is given to a parameter that may be given one. Fails where memory is refused.
    fn take(&mut self, full: String) -> Result<Option<Constant>, AllocError>
        ensures value { IfOk result (λ given. given ≡ spec.value_given self.old (string_bytes full)) }
        ensures frame { self.new ≡ record self.old { known = self.new.known } }
    {
        let given = self.given(full.as_str());
        let _ = self.known.insert(full)?;
        Ok(given)
    }

    /// Refuses the first `defparam` whose parameter there isn't.
    pub fn all_known(&self) -> DesignMade<()> {
        for (full, given) in &self.by_defparam {
            if !self.known.contains(full.as_str()) {
                return refuse(given.token, Wrong::UnknownParameter);
            }
        }
        Ok(())
    }
}

impl Elaboration<'_> {
    /// The value that a parameter is given from elsewhere, unless it is local.
    fn given_value(
        &mut self,
        scope: usize,
        label: Label<'_>,
        local: bool,
    ) -> DesignMade<Option<Constant>>
        ensures given { IfOk result (λ given. spec.IsGivenParameter local (spec.value_given self.old.parameters (full_name_at self.old.design scope label.entry.name.now)) given) }
        ensures design { self.new.design ≡ self.old.design }
    {
        if local {
            return Ok(None);
        }
        let full = self.design.full_name_in(scope, label)?;
        Ok(self.parameters.take(full)?)
    }

    /// Declares a parameter: its value is the one that it is given from elsewhere, or else that of its declaration.
    fn declare_parameter(
        &mut self,
        scope: usize,
        source: &ParameterDeclaration,
        assignment: &ParameterAssignment,
    ) -> DesignMade<()>
        ensures { OnOk result (spec.DeclaresParameter self.old self.new scope source.now assignment.now) }
    {
        let label = label_of(&assignment.identifier);
        let given = self.given_value(scope, label, source.local)?;
        self.prepare_parameter(scope, source, assignment, given.is_some())?;
        let object = self
            .design
            .parameter(scope, source, given, &assignment.value)?;
        self.design.declare_constant(scope, label, object)
    }

    /// Declares the parameters of a declaration.
    pub fn declare_parameters(
        &mut self,
        scope: usize,
        source: &ParameterDeclaration,
    ) -> DesignMade<()> {
        for assignment in &source.assignments {
            self.declare_parameter(scope, source, assignment)?;
        }
        Ok(())
    }
}
