//! What names stand for, where they are used.

ghost use Rattle.std.specs.Prelude.{◌≡◌, Some};
ghost use Rattle.scopes.specs.Names as spec;
ghost use Rattle.scopes.specs.Scopes.{declared_in};

use crate::scope::{Entity, Reach};
use crate::tree::ScopeTree;

/// What a name stands for that is used in a scope (12.7): what the nearest scope outwards declares under it, as far as names are
/// looked for.
#[tactic(auto, using(crate::proofs::Lookups::here_is, crate::proofs::Lookups::nowhere_is))]
pub fn find(tree: &ScopeTree, reach: Reach, scope: usize, name: &[u8]) -> Option<Entity>
    ensures { result ≡ spec.found tree.now.scopes.items reach scope name.now }
{
    if let Some(found) = tree.declared(scope, name) {
        return Some(found);
    }
    match tree.outwards(reach, scope) {
        Some(outer) => find(tree, reach, outer, name),
        None => None,
    }
}

/// The scope that a name stands for, with an index where it is one of several (12.4.1, 7.1.5).
fn scope_of(tree: &ScopeTree, found: Option<Entity>, index: Option<i64>) -> Option<usize>
    ensures { result ≡ spec.scope_of tree.now.scopes.items found index }
{
    match found? {
        Entity::Scope(number) => alone(number, index),
        Entity::Scopes { first, count } => tree.element(first, count, index),
        Entity::Object(_) => None,
        Entity::Event(_) => None,
        Entity::LoopVariable => None,
    }
}

/// The number of a scope that isn't one of several: none where it has an index.
fn alone(number: usize, index: Option<i64>) -> Option<usize>
    ensures { result ≡ spec.unindexed_scope number index }
{
    match index {
        None => Some(number),
        Some(_) => None,
    }
}

/// What the first part of a hierarchical name stands for in a scope: what it declares under it, or else the scope itself, where it is
/// an instance of a module of this name (12.6).
#[tactic(auto, using(crate::proofs::Lookups::declared_here, crate::proofs::Lookups::instance_here, crate::proofs::Lookups::nothing_here))]
fn first_here(tree: &ScopeTree, scope: usize, name: &[u8]) -> Option<Entity>
    ensures { result ≡ spec.first_here tree.now.scopes.items name.now scope }
{
    if let Some(found) = tree.declared(scope, name) {
        return Some(found);
    }
    if tree.is_instance_of(scope, name) {
        Some(Entity::Scope(scope))
    } else {
        None
    }
}

/// What the first part of a hierarchical name stands for that is used in a scope: what it stands for in the nearest scope outwards
/// (12.6).
#[tactic(auto, using(crate::proofs::Lookups::first_is_here, crate::proofs::Lookups::first_nowhere))]
fn find_first(tree: &ScopeTree, scope: usize, name: &[u8]) -> Option<Entity>
    ensures { result ≡ spec.first_found tree.now.scopes.items scope name.now }
{
    if let Some(found) = first_here(tree, scope, name) {
        return Some(found);
    }
    match tree.outwards(Reach::Design, scope) {
        Some(outer) => find_first(tree, outer, name),
        None => None,
    }
}

/// The scope that the first part of a hierarchical name stands for, where it is used in a scope (12.6).
pub fn first_scope(tree: &ScopeTree, scope: usize, name: &[u8], index: Option<i64>) -> Option<usize>
    ensures { result ≡ spec.first_scope tree.now.scopes.items scope name.now index }
{
    scope_of(tree, find_first(tree, scope, name), index)
}

/// The scope that a further part of a hierarchical name stands for, behind the scope before it (12.5).
pub fn next_scope(tree: &ScopeTree, scope: usize, name: &[u8], index: Option<i64>) -> Option<usize>
    ensures { result ≡ spec.next_scope tree.now.scopes.items scope name.now index }
{
    scope_of(tree, tree.declared(scope, name), index)
}
