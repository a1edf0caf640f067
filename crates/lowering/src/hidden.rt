//! Variables that no text declares.

ghost use Rattle.std.specs.Prelude.{◌≡◌, ◌∷◌, ◌++◌, [], length, IfOk, string_bytes};
ghost use Rattle.lowering.specs.Hidden.{hidden_in, hidden_name};

use logic4::size::Size;
use statement_parts::faults::{Lowered, StatementKind, fault};
use std::alloc::Global;

/// The most hidden variables of a design.
pub const MAX_HIDDEN: usize = 65_536;

/// A variable that no text declares: its name in the flat module, and how wide it is.
#[derive(Drop)]
pub struct Hidden {
    pub name: String,
    pub width: Size,
}

/// The hidden variables of a design, in the order in which they are made. The name of each is `$` and its number: no name of a text
/// begins so there, since an escaped one has its `\`.
#[derive(Drop)]
pub struct HiddenVariables {
    pub variables: Vec<Hidden>,
}

impl HiddenVariables {
    /// None yet.
    pub fn new(alloc: Global) -> HiddenVariables
        ensures { hidden_in result ≡ [] }
    {
        HiddenVariables {
            variables: Vec::new(alloc),
        }
    }

    /// Makes a variable of a width, for a statement at a token, and gives its name. Refuses one too many.
    pub fn make(&mut self, alloc: Global, token: usize, width: Size) -> Lowered<String>
        ensures name { IfOk result (λ name. string_bytes name ≡ hidden_name (length self.old.variables.items)) }
        ensures made { IfOk result (λ name. hidden_in self.new ≡ hidden_in self.old ++ (string_bytes name, width) ∷ []) }
    {
        let number = self.variables.len();
        if number >= MAX_HIDDEN {
            return fault(token, StatementKind::ManyHidden);
        }
        let name = format!(in alloc; "${number}")?;
        let kept = String::from_str(alloc, name.as_str())?;
        self.variables.push(Hidden { name: kept, width })?;
        Ok(name)
    }
}
