//! From the files of a whole design to its tokens (IEEE 1364-2005, 19).
//!
//! 1. `work` holds what is still to be read, the front last, and what was made of what was read: the tokens, the bodies of
//!    macros, the conditions that are open. Each span in it stands in one of the texts, by its type.
//! 2. `directives` names the directives. `definitions` reads macros that are defined, `uses` puts their bodies in the place of
//!    their uses, `conditions` follows `` `ifdef``, `settings` keeps what directives say of the modules behind them.
//! 3. `includes` finds files that are included, among those that are known.
//! 4. `files` cuts the texts of files, and `preprocessor` takes piece after piece.
//!
//! The layer above uses `preprocess`: it answers the files and their tokens, or the first fault and its place. It reads no files: where
//! one is included that nobody has looked up, it tells the path, and is called again with what stands there.
#![tactic(auto)]

mod conditions;
mod definitions;
mod directives;
pub mod fault;
mod files;
pub mod includes;
mod kinds;
pub mod preprocess;
mod preprocessor;
mod settings;
mod uses;
mod work;
