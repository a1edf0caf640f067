//! The processes of a design, whose statements have no calls of functions and tasks.

use syntax_tree::statements::VerilogStatement;

/// A process of a design: its scope, the token at which it stands in the text, whether it begins with `always`, and its statement, in
/// which the bodies of functions and tasks stand in the place of their calls.
#[derive(Drop)]
pub struct PlainProcess {
    pub scope: usize,
    pub token: usize,
    pub repeats: bool,
    pub body: VerilogStatement,
}
