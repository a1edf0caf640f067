//! Instances of modules, and the values that their parameters are given (12.1.2, 12.2).

use crate::elaboration::Elaboration;
use crate::parameters::Given;
use design_scopes::faults::{DesignMade, Wrong, refuse};
use design_scopes::scoped::{Label, label_of};
use syntax_tree::declarations::ParameterDeclaration;
use syntax_tree::modules::{Connection, ModuleDeclaration, ModuleItem};
use syntax_tree::statements::VariableAssignment;

/// The parameter of a declaration at a place, or how many places are left behind it.
fn parameter_in(source: &ParameterDeclaration, place: usize) -> Result<Label<'_>, usize> {
    if source.local {
        return Err(place);
    }
    match source.assignments.get(place) {
        Some(found) => Ok(label_of(&found.identifier)),
        None => Err(place.saturating_sub(source.assignments.len())),
    }
}

/// The parameter of a module at a place, among those that may be given values (12.2.2.1).
fn parameter_at(module: &ModuleDeclaration, place: usize) -> Option<Label<'_>> {
    let mut left = place;
    for source in &module.parameters {
        match parameter_in(source, left) {
            Ok(found) => return Some(found),
            Err(more) => left = more,
        }
    }
    for item in &module.items {
        if let ModuleItem::Parameter(source) = item {
            match parameter_in(source, left) {
                Ok(found) => return Some(found),
                Err(more) => left = more,
            }
        }
    }
    None
}

/// Whether a declaration has a parameter of a name that may be given a value.
fn declares(source: &ParameterDeclaration, name: &[u8]) -> bool {
    if source.local {
        return false;
    }
    source
        .assignments
        .iter()
        .any(|a| a.identifier.name.as_slice() == name)
}

/// Whether a module has a parameter of a name that may be given a value (12.2.2.2).
pub fn has_parameter(module: &ModuleDeclaration, name: &[u8]) -> bool {
    for source in &module.parameters {
        if declares(source, name) {
            return true;
        }
    }
    for item in &module.items {
        if let ModuleItem::Parameter(source) = item {
            if declares(source, name) {
                return true;
            }
        }
    }
    false
}

/// The parameter to which a connection gives a value: by its name, or by its place.
fn parameter_of<'c>(
    module: &'c ModuleDeclaration,
    place: usize,
    connection: &'c Connection,
) -> Option<Label<'c>> {
    match &connection.identifier {
        None => parameter_at(module, place),
        Some(identifier) => {
            let label = label_of(identifier);
            if has_parameter(module, label.name) {
                Some(label)
            } else {
                None
            }
        }
    }
}

impl Elaboration<'_> {
    /// Gives a parameter of an instance a value, where the connection has one.
    fn give_parameter(
        &mut self,
        around: usize,
        inner: usize,
        label: Label<'_>,
        connection: &Connection,
    ) -> DesignMade<()> {
        let Some(source) = &connection.value else {
            return Ok(());
        };
        let token = connection.token;
        let value = self.value_in(around, token, source)?;
        let full = self.design.full_name_in(inner, label)?;
        self.parameters.give(full, Given { token, value })?;
        Ok(())
    }

    /// Gives the parameters of an instance their values.
    pub fn give_parameters(
        &mut self,
        around: usize,
        inner: usize,
        module: &ModuleDeclaration,
        connections: &[Connection],
    ) -> DesignMade<()> {
        for (place, connection) in connections.iter().enumerate() {
            let Some(label) = parameter_of(module, place, connection) else {
                return refuse(connection.token, Wrong::UnknownParameter);
            };
            self.give_parameter(around, inner, label, connection)?;
        }
        Ok(())
    }

    /// Gives parameters values from the scopes around them (12.2.1).
    pub fn override_parameters(
        &mut self,
        scope: usize,
        assignments: &[VariableAssignment],
    ) -> DesignMade<()> {
        for assignment in assignments {
            let token = assignment.token;
            let value = self.value_in(scope, token, &assignment.value)?;
            self.prepare(scope, token, &[&assignment.target])?;
            let full = self.design.path_from(scope, token, &assignment.target)?;
            self.parameters.give_over(full, Given { token, value })?;
        }
        Ok(())
    }
}
