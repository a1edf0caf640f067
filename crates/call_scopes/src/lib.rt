//! The variables of calls: a call of a function or a task has a copy of its scope, or that scope (IEEE 1364-2005, 10.2.3, 10.4.2).
//!
//! 1. `copied` makes copies of scopes, with variables of their own.
//! 2. `fresh` makes names that no text has, and declares variables of which no text speaks.
//! 3. `formats` tells the names that `%m` shows in copies.
//!
//! The layer above opens a scope for each call.
#![tactic(auto)]

pub mod copied;
pub mod formats;
pub mod fresh;
