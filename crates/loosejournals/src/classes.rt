//! Classes of registers, by the processes that assign them.
ghost use Rattle.std.specs.Prelude.{◌≡◌, ℕ, ◌≤◌, length, slice_index, IfOk, OnOk};
ghost use Rattle.design.specs.Compiled.{design_of};
ghost use Rattle.loosejournals.specs.Classes.{renamed_class, AreStillTogether, AreTogether, AreTogetherIn};

use crate::targets::add_targets;
use design::{Design, RegId};
use std::alloc::{AllocError, Global};

/// The class of a register, and 0 where none is given.
pub(crate) fn class_of(classes: &[u32], register: RegId) -> u32
    ensures { result ≡ slice_index classes.now register }
{
    match classes.get(register as usize) {
        Some(class) => *class,
        None => 0,
    }
}

// A class, where one class is given another name.
fn renamed(class: u32, from: u32, to: u32) -> u32
    ensures { result ≡ renamed_class from to class }
{
    if class == from { to } else { class }
}

// Gives one class another name, which is no greater.
fn rename(classes: &mut [u32], from: u32, to: u32)
    requires { to ≤ from }
    ensures { (r : ℕ) → slice_index classes.new r ≡ renamed_class from to (slice_index classes.old r) }
{
    for at in 0..classes.len() {
        classes[at] = renamed(classes[at], from, to);
    }
}

// Gives the classes of two registers one name, the lesser of the two.
fn join(classes: &mut [u32], one: RegId, other: RegId)
    ensures kept { AreStillTogether classes.old classes.new }
    ensures joined { slice_index classes.new one ≡ slice_index classes.new other }
{
    let class = class_of(classes, one);
    let other_class = class_of(classes, other);
    if class < other_class {
        rename(classes, other_class, class);
        return;
    }
    rename(classes, class, other_class);
}

// Gives the classes of registers one name.
fn join_all(classes: &mut [u32], registers: &[RegId])
    ensures kept { AreStillTogether classes.old classes.new }
    ensures joined { AreTogether classes.new registers.now }
{
    if registers.is_empty() {
        return;
    }
    let first = registers[0];
    for register in registers {
        join(classes, first, *register);
    }
}

// A class of its own for each of so many registers.
fn own_classes(alloc: Global, registers: u32) -> Result<Vec<u32>, AllocError>
    ensures { IfOk result (λ classes. length classes.items ≡ registers) }
{
    let mut classes = Vec::new(alloc);
    for register in 0..registers {
        classes.push(register)?;
    }
    Ok(classes)
}

// Gives the classes of what each process assigns by nonblocking assignments one name. The targets are room that is used again. Fails where
// memory is refused.
fn join_processes(
    design: &Design,
    classes: &mut [u32],
    targets: &mut Vec<RegId>,
) -> Result<(), AllocError>
    ensures { OnOk result (AreTogetherIn (design_of design.now) classes.new) }
{
    for process in design.trees() {
        targets.clear();
        add_targets(targets, &process.body)?;
        join_all(classes, targets.as_slice());
    }
    Ok(())
}

/// A class for each register, by the register's number: the targets of all nonblocking assignments of one process (9.2.2) are of one
/// class. No others share one, but for those that two processes join by a target that both assign. Fails where memory is refused.
pub fn classes_of(alloc: Global, design: &Design) -> Result<Vec<u32>, AllocError>
    ensures each { IfOk result (λ classes. length classes.items ≡ length design.now.widths) }
    ensures together { IfOk result (λ classes. AreTogetherIn (design_of design.now) classes.items) }
{
    let mut targets = Vec::new(alloc);
    let mut classes = own_classes(alloc, design.registers())?;
    join_processes(design, &mut classes, &mut targets)?;
    Ok(classes)
}
