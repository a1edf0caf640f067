//! The tree of a design's text, as IEEE 1364-2005 has it in annex A: modules, their items, statements and expressions.
//!
//! 1. `expressions`: names, numbers, operators and calls (A.8).
//! 2. `declarations`: parameters, ports, nets and variables (A.2).
//! 3. `statements`: statements, with their delays and events (A.6).
//! 4. `modules`: modules, instances, generate constructs, functions and tasks (A.1 to A.4).
//!
//! Parentheses, attributes and the words of a generate region leave no node, and of min:typ:max the middle one stands.
//! Each node has the number of its token, counted from 0, by which the layers above tell its file and line: the token of
//! an operator, and else the first one.
//!
//! The layer above uses these types; `specs/Expressions.antt` has expressions as plain trees, without boxes and vectors.
#![tactic(auto)]

pub mod declarations;
pub mod expressions;
pub mod modules;
pub mod statements;
