//! The full names of what hierarchical names stand for, downwards from a scope (12.5).

use crate::faults::{DesignMade, Wrong, refuse};
use crate::places::number_at;
use crate::scoped::{Label, ScopedDesign};
use scopes::names::full_name;
use syntax_tree::expressions::VerilogExpression;

impl ScopedDesign {
    /// The full name of what an expression names, downwards from a scope (12.2.1).
    pub fn path_from(
        &self,
        scope: usize,
        token: usize,
        e: &VerilogExpression,
    ) -> DesignMade<String> {
        match e {
            VerilogExpression::Name { token, name } => self.full_name_in(
                scope,
                Label {
                    token: *token,
                    name: name.as_slice(),
                },
            ),
            VerilogExpression::Member {
                token,
                scope: inner,
                name,
            } => {
                let path = self.path_from(scope, *token, inner)?;
                let Ok(text) = str::from_utf8(name.as_slice()) else {
                    return refuse(*token, Wrong::NoText);
                };
                Ok(full_name(self.alloc, path.as_str(), text)?)
            }
            VerilogExpression::Index { token, base, index } => {
                let mut path = self.path_from(scope, *token, base)?;
                let Some(number) = number_at(self.alloc, &self.constant_place(scope), index)? else {
                    return refuse(*token, Wrong::UnknownParameter);
                };
                path.push_str(format!(in self.alloc; "[{number}]")?.as_str())?;
                Ok(path)
            }
            _ => refuse(token, Wrong::UnknownParameter),
        }
    }
}
