//! What is looked for in the code of a process, and how often a node does it.
ghost use Rattle.std.specs.Prelude.{◌≡◌, ◌==◌, [], count_by, slice_get};
ghost use Rattle.design.specs.ExpressionSteps.{span_of};
ghost use Rattle.executed.specs.Deeds.{deed_of, deed_to, deed_without, is_assignment, is_finishing, is_given, is_print, is_task, is_write, names_register, once, times_awaited, times_done, times_in_control, times_in_piece, times_named, times_printed, times_read, times_shown};

use accesses::{Does, Site};
use design::code::{LinePiece, Node, Op, Span};
use design::{Control, Design, RegId};
use model::tree::Task;

/// What a statement may do by which its process races: write or assign a register, or assign any, read one or wait for it, print, strobe, or
/// finish the run.
#[derive(Clone, Copy)]
pub(crate) enum Deed {
    Writes(RegId),
    Assigns(RegId),
    Schedules,
    Reads(RegId),
    Waits(RegId),
    Prints,
    Strobes,
    Finishes,
}

/// What a statement does by which its process does this to a register, if it does so by one. An update is that of a nonblocking assignment.
fn deed_to(register: RegId, does: Does) -> Option<Deed>
    ensures { result ≡ deed_to register does }
{
    match does {
        Does::Writes => Some(Deed::Writes(register)),
        Does::Assigns | Does::Updates => Some(Deed::Assigns(register)),
        Does::Reads => Some(Deed::Reads(register)),
        Does::Waits => Some(Deed::Waits(register)),
        Does::Prints => Some(Deed::Prints),
        Does::Strobes => Some(Deed::Strobes),
        Does::Finishes => Some(Deed::Finishes),
        Does::Runs => None,
        Does::Schedules => Some(Deed::Schedules),
    }
}

/// What a statement does by which its process does this where no register is told, if it does so by one.
fn deed_without(does: Does) -> Option<Deed>
    ensures { result ≡ deed_without does }
{
    match does {
        Does::Prints => Some(Deed::Prints),
        Does::Strobes => Some(Deed::Strobes),
        Does::Finishes => Some(Deed::Finishes),
        Does::Schedules => Some(Deed::Schedules),
        Does::Writes | Does::Assigns | Does::Updates | Does::Reads | Does::Waits | Does::Runs => {
            None
        }
    }
}

/// What a statement does by which its process does this at a site, if it does so by one.
pub(crate) fn deed_of(site: Site, does: Does) -> Option<Deed>
    ensures { result ≡ deed_of site does }
{
    match site {
        Site::Register(register) => deed_to(register, does),
        Site::Printing | Site::Strobing | Site::Finishing | Site::Updating => deed_without(does),
    }
}

/// Whether a step of an expression takes the value of a register.
fn names_register(op: &Op, register: RegId) -> bool
    ensures { result ≡ names_register register op.now }
{
    match op {
        Op::Load { register: read, .. } => *read == register,
        Op::Pick { register: read, .. } => *read == register,
        Op::BinaryRegister { register: read, .. } => *read == register,
        Op::Constant { .. } | Op::Unary { .. } | Op::Binary { .. } | Op::BinaryConstant { .. } => {
            false
        }
        Op::Join | Op::Resize { .. } | Op::Extend { .. } | Op::Choose { .. } => false,
    }
}

/// The part of a list, or none where it isn't there.
fn part_of<T>(list: &[T], span: Span) -> &[T]
    ensures { result.now ≡ span_of list.entry.now span }
{
    if span.from <= span.to && span.to <= list.len() {
        &list[span.from..span.to]
    } else {
        none_of(list)
    }
}

/// No part of a list.
fn none_of<T>(list: &[T]) -> &[T]
    ensures { result.now ≡ [] }
{
    &list[0..0]
}

/// How often an expression names a register.
fn times_named(design: &Design, span: Span, register: RegId) -> usize
    ensures { result ≡ times_named design.now span register }
{
    part_of(design.ops(), span)
        .iter()
        .filter(|op| names_register(*op, register))
        .count()
}

/// How often a piece of a line names a register.
fn times_in_piece(design: &Design, piece: &LinePiece, register: RegId) -> usize
    ensures { result ≡ times_in_piece design.now register piece.now }
{
    match piece {
        LinePiece::Value { value, .. } => times_named(design, *value, register),
        LinePiece::Byte(_) => 0,
    }
}

/// How often the pieces of a line name a register.
fn times_shown(design: &Design, span: Span, register: RegId) -> usize
    ensures { result ≡ times_shown design.now span register }
{
    let pieces = part_of(design.shown(), span);
    let mut times: usize = 0;
    for place in 0..pieces.len() {
        times = times.saturating_add(times_in_piece(design, &pieces[place], register));
    }
    times
}

/// How often a statement that prints reads a register. The lines of `$strobe` are made later, and read nothing in its turn.
fn times_printed(design: &Design, task: Task, pieces: Span, register: RegId) -> usize
    ensures { result ≡ times_printed design.now task pieces register }
{
    match task {
        Task::Strobe => 0,
        Task::Display | Task::Write => times_shown(design, pieces, register),
    }
}

/// How often a node reads a register.
fn times_read(design: &Design, node: &Node, register: RegId) -> usize
    ensures { result ≡ times_read design.now node.now register }
{
    match node {
        Node::Assign { value, .. } => times_named(design, *value, register),
        Node::AssignAfter { value, .. } => times_named(design, *value, register),
        Node::AssignLater { value, .. } => times_named(design, *value, register),
        Node::Branch { condition, .. } => times_named(design, *condition, register),
        Node::Print { task, pieces, .. } => times_printed(design, *task, *pieces, register),
        Node::Over | Node::Restart { .. } | Node::Skip { .. } | Node::Now { .. } => 0,
        Node::Delay { .. } | Node::Await { .. } | Node::Finish { .. } => 0,
    }
}

/// How often the event control with a number waits for a register.
fn times_in_control(design: &Design, control: usize, register: RegId) -> usize
    ensures { result ≡ times_in_control register (slice_get design.now.controls control) }
{
    match design.event_controls().get(control) {
        Some(control) => times_triggered(control, register),
        None => 0,
    }
}

/// How often an event control waits for a register.
fn times_triggered(control: &Control, register: RegId) -> usize
    ensures { result ≡ count_by (λ t. t.1 == register) control.now }
{
    control
        .triggers()
        .iter()
        .filter(|trigger| trigger.1 == register)
        .count()
}

/// How often a node waits for a register.
fn times_awaited(design: &Design, node: &Node, register: RegId) -> usize
    ensures { result ≡ times_awaited design.now node.now register }
{
    match node {
        Node::Await { control, .. } => times_in_control(design, *control, register),
        Node::Over | Node::Restart { .. } | Node::Skip { .. } | Node::Now { .. } => 0,
        Node::Assign { .. } | Node::AssignAfter { .. } | Node::AssignLater { .. } => 0,
        Node::Delay { .. } | Node::Branch { .. } | Node::Print { .. } | Node::Finish { .. } => 0,
    }
}

/// Whether a node writes a register, at once or after a wait.
fn is_write(node: &Node, register: RegId) -> bool
    ensures { result ≡ is_write node.now register }
{
    match node {
        Node::Assign { register: to, .. } => *to == register,
        Node::AssignAfter { register: to, .. } => *to == register,
        Node::Now { register: to, .. } => *to == register,
        Node::Over | Node::Restart { .. } | Node::Skip { .. } | Node::AssignLater { .. } => false,
        Node::Delay { .. } | Node::Await { .. } | Node::Branch { .. } => false,
        Node::Print { .. } | Node::Finish { .. } => false,
    }
}

/// Whether a register is this one, where one is given.
fn is_given(given: Option<RegId>, register: RegId) -> bool
    ensures { result ≡ is_given given register }
{
    match given {
        Some(given) => register == given,
        None => true,
    }
}

/// Whether a node assigns a register without blocking, or any where none is given.
fn is_assignment(node: &Node, register: Option<RegId>) -> bool
    ensures { result ≡ is_assignment node.now register }
{
    match node {
        Node::AssignLater { register: to, .. } => is_given(register, *to),
        Node::Over | Node::Restart { .. } | Node::Skip { .. } | Node::Now { .. } => false,
        Node::Assign { .. } | Node::AssignAfter { .. } => false,
        Node::Delay { .. } | Node::Await { .. } | Node::Branch { .. } => false,
        Node::Print { .. } | Node::Finish { .. } => false,
    }
}

/// Whether a task makes its line later, or else at once.
fn is_task(task: Task, strobes: bool) -> bool
    ensures { result ≡ is_task task strobes }
{
    match task {
        Task::Strobe => strobes,
        Task::Display | Task::Write => !strobes,
    }
}

/// Whether a node prints, by `$strobe` or else.
fn is_print(node: &Node, strobes: bool) -> bool
    ensures { result ≡ is_print node.now strobes }
{
    match node {
        Node::Print { task, .. } => is_task(*task, strobes),
        Node::Over | Node::Restart { .. } | Node::Skip { .. } | Node::Now { .. } => false,
        Node::Assign { .. } | Node::AssignAfter { .. } | Node::AssignLater { .. } => false,
        Node::Delay { .. } | Node::Await { .. } | Node::Branch { .. } => false,
        Node::Finish { .. } => false,
    }
}

/// Whether a node finishes the run.
fn is_finishing(node: &Node) -> bool
    ensures { result ≡ is_finishing node.now }
{
    match node {
        Node::Finish { .. } => true,
        Node::Over | Node::Restart { .. } | Node::Skip { .. } | Node::Now { .. } => false,
        Node::Assign { .. } | Node::AssignAfter { .. } | Node::AssignLater { .. } => false,
        Node::Delay { .. } | Node::Await { .. } | Node::Branch { .. } | Node::Print { .. } => false,
    }
}

/// Once, or never.
fn once(does: bool) -> usize
    ensures { result ≡ once does }
{
    if does { 1 } else { 0 }
}

/// How often a node does what is looked for.
pub(crate) fn times_done(design: &Design, node: &Node, deed: Deed) -> usize
    ensures { result ≡ times_done design.now deed node.now }
{
    match deed {
        Deed::Writes(register) => once(is_write(node, register)),
        Deed::Assigns(register) => once(is_assignment(node, Some(register))),
        Deed::Schedules => once(is_assignment(node, None)),
        Deed::Reads(register) => times_read(design, node, register),
        Deed::Waits(register) => times_awaited(design, node, register),
        Deed::Prints => once(is_print(node, false)),
        Deed::Strobes => once(is_print(node, true)),
        Deed::Finishes => once(is_finishing(node)),
    }
}
