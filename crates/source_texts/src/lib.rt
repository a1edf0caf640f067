//! The texts of the files of a design, and what directives say of them.
//!
//! 1. `texts` reads the bytes of a span, and `places` tells files, lines and columns, which `specs/Lines` pins.
//! 2. `settings` holds what directives say of the modules behind them, and the lines that they set.
#![tactic(auto)]

pub mod places;
pub mod settings;
pub mod texts;
