//! From the bytes of a source to its design.
//!
//! 1. `vparse` cuts the text into tokens and reads them as a module.
//! 2. `elaborate` makes the module's design.
//!
//! What the layer above uses: `read_design` answers the design of the text, or the first fault that text or module has.
#![tactic(auto)]

mod source;

pub use source::{SourceFault, read_design};
