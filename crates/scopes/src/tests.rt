//! Scopes, full names, and names where they are used.

use crate::finding::{find, first_scope, next_scope};
use crate::scope::{Entity, Reach};
use crate::tree::ScopeTree;
use std::alloc::Global;
use std::test::Fail;

/// The number of the object that a name stands for, if it stands for one.
fn object(found: Option<Entity>) -> Option<usize> {
    match found {
        Some(Entity::Object(number)) => Some(number),
        _ => None,
    }
}

/// A design: `tb`, an instance of `bench`, with a variable `a`, in it `dut`, an instance of `counter`, with a variable `b` and the blocks
/// `g[4]` and `g[2]`, of which each has `c`.
fn design(alloc: Global) -> Result<ScopeTree, Fail> {
    let mut tree = ScopeTree::new(alloc)?;
    let tb = tree
        .open(alloc, 0, b"tb", Some(b"bench".as_slice()))
        .map_err(told)?;
    tree.declare(alloc, tb, b"a", Entity::Object(1))
        .map_err(told)?;
    let dut = tree
        .open(alloc, tb, b"dut", Some(b"counter".as_slice()))
        .map_err(told)?;
    tree.declare(alloc, dut, b"b", Entity::Object(2))
        .map_err(told)?;
    let first = tree
        .open_several(alloc, dut, b"g", None, [4, 2].as_slice())
        .map_err(told)?;
    tree.declare(alloc, first, b"c", Entity::Object(3))
        .map_err(told)?;
    tree.declare(alloc, first + 1, b"c", Entity::Object(4))
        .map_err(told)?;
    Ok(tree)
}

/// A fault, told in a test.
fn told(_: crate::fault::ScopeFault) -> &'static str {
    "a scope or a name is refused"
}

#[test]
fn has_full_names(rt: HostRuntime) -> Result<(), Fail> {
    let alloc = rt.alloc();
    let mut tree = design(alloc)?;
    assert_eq!(rt; tree.path(1), "tb");
    assert_eq!(rt; tree.path(2), "tb.dut");
    assert_eq!(rt; tree.path(3), "tb.dut.g[4]");
    let odd = tree.open(alloc, 1, b"a.b", None).map_err(told)?;
    assert_eq!(rt; tree.path(odd), "tb.\\a.b ");
    assert!(rt; tree.open(alloc, 1, b"dut", None).is_err());
    assert!(rt; tree.declare(alloc, 1, b"a", Entity::LoopVariable).is_err());
    Ok(())
}

#[test]
fn finds_names(rt: HostRuntime) -> Result<(), Fail> {
    let tree = design(rt.alloc())?;
    assert_eq!(rt; object(find(&tree, Reach::Instance, 4, b"c")), Some(4));
    assert_eq!(rt; object(find(&tree, Reach::Instance, 4, b"b")), Some(2));
    assert_eq!(rt; object(find(&tree, Reach::Instance, 4, b"a")), None);
    assert_eq!(rt; object(find(&tree, Reach::Design, 4, b"a")), Some(1));
    assert_eq!(rt; object(find(&tree, Reach::Design, 4, b"d")), None);
    assert_eq!(rt; first_scope(&tree, 4, b"g", Some(4)), Some(3));
    assert_eq!(rt; first_scope(&tree, 4, b"g", Some(3)), None);
    assert_eq!(rt; first_scope(&tree, 4, b"g", None), None);
    assert_eq!(rt; first_scope(&tree, 4, b"dut", None), Some(2));
    assert_eq!(rt; next_scope(&tree, 2, b"g", Some(2)), Some(4));
    Ok(())
}

#[test]
fn finds_modules_around(rt: HostRuntime) -> Result<(), Fail> {
    let alloc = rt.alloc();
    let mut tree = design(alloc)?;
    assert_eq!(rt; first_scope(&tree, 4, b"counter", None), Some(2));
    assert_eq!(rt; first_scope(&tree, 2, b"counter", None), Some(2));
    assert_eq!(rt; first_scope(&tree, 4, b"bench", None), Some(1));
    assert_eq!(rt; first_scope(&tree, 4, b"bench", Some(0)), None);
    assert_eq!(rt; first_scope(&tree, 1, b"counter", None), None);
    assert_eq!(rt; next_scope(&tree, 1, b"counter", None), None);
    let block = tree.open(alloc, 2, b"bench", None).map_err(told)?;
    assert_eq!(rt; first_scope(&tree, 4, b"bench", None), Some(block));
    Ok(())
}
