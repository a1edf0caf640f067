//! The flat module of a design: its variables, and its processes as the core has them (12.1).

ghost use Rattle.std.specs.Prelude.{◌≡◌, ◌++◌, map, IfOk, OnOk, Some};
ghost use Rattle.model.specs.SourceTrees.{declaration_of, module_of, source_process_of};
ghost use Rattle.lowering.specs.Hidden.{Makes, hidden_in};
ghost use Rattle.statement_parts.specs.Places.{surroundings};
ghost use Rattle.sizing.specs.Names.{object_width};
ghost use Rattle.lowering.specs.Flat as spec;

use crate::hidden::{Hidden, HiddenVariables};
use crate::statements::lower_statement;
use design_scopes::scoped::ScopedDesign;
use logic4::size::Size;
use model::tree::{Declaration, Module, SourceProcess};
use ranges::range::VectorRange;
use sizing::environment::{Object, ObjectValue};
use statement_parts::faults::{Lowered, StatementKind, fault};
use statement_parts::place::Around;
use statement_parts::plain::PlainProcess;
use std::alloc::{AllocError, Global};

/// The range of so many digits.
fn digits_range(width: Size) -> (u64, u64)
    ensures { Some result ≡ spec.digits_range width }
{
    (u64::from(width.get()) - 1, 0)
}

/// The range of a variable of the source, whose digits may be selected where it has one (5.2.1).
fn source_range(range: Option<VectorRange>, width: Size) -> Option<(u64, u64)>
    ensures { result ≡ spec.source_range range width }
{
    match range {
        Some(_) => Some(digits_range(width)),
        None => None,
    }
}

/// The range of a hidden variable of so many digits: none where it has one.
fn hidden_range(width: Size) -> Option<(u64, u64)>
    ensures { result ≡ spec.hidden_range width }
{
    if width.get() > 1 {
        Some(digits_range(width))
    } else {
        None
    }
}

/// The declaration of a variable.
fn declaration(
    alloc: Global,
    name: &str,
    range: Option<(u64, u64)>,
) -> Result<Declaration, AllocError>
    ensures { IfOk result (λ made. declaration_of made ≡ spec.declared_as name.now range) }
{
    let name = String::from_str(alloc, name)?;
    let mut names = Vec::new(alloc);
    names.push(name)?;
    Ok(Declaration { range, names })
}

/// The declaration of a variable of the source, by its name in the flat module.
fn source_declaration(
    alloc: Global,
    token: usize,
    name: &str,
    object: &Object,
) -> Lowered<Declaration>
    ensures { IfOk result (λ made. declaration_of made ≡ spec.declared_as name.now (spec.source_range object.now.range (object_width object.now))) }
{
    let Some(width) = object.width() else {
        return fault(token, StatementKind::Target);
    };
    let made = declaration(alloc, name, source_range(object.range, width))?;
    Ok(made)
}

/// Adds the declaration of an object, where it is a variable.
fn add_object(
    alloc: Global,
    regs: &mut Vec<Declaration>,
    token: usize,
    object: &Object,
) -> Lowered<()>
    ensures { OnOk result (map declaration_of regs.new.items ≡ map declaration_of regs.old.items ++ spec.object_declared object.now) }
{
    match &object.value {
        ObjectValue::Variable(name) => {
            let made = source_declaration(alloc, token, name.as_str(), object)?;
            regs.push(made)?;
            Ok(())
        }
        ObjectValue::Constant(_) => Ok(()),
    }
}

/// The declarations of the variables of a design, in their order, and then of the hidden ones.
fn declarations(
    alloc: Global,
    design: &ScopedDesign,
    hidden: &[Hidden],
) -> Lowered<Vec<Declaration>>
    ensures { IfOk result (λ made. map declaration_of made.items ≡ spec.flat_declared design.now.objects.items hidden.now) }
{
    let mut regs = Vec::new(alloc);
    for (number, object) in design.objects.iter().enumerate() {
        let token = design.tokens.get(number).copied().unwrap_or(0);
        add_object(alloc, &mut regs, token, object)?;
    }
    for variable in hidden {
        let range = hidden_range(variable.width);
        let made = declaration(alloc, variable.name.as_str(), range)?;
        regs.push(made)?;
    }
    Ok(regs)
}

/// A process of a design as the core has it.
fn flat_process(
    alloc: Global,
    design: &ScopedDesign,
    hidden: &mut HiddenVariables,
    process: &PlainProcess,
) -> Lowered<SourceProcess>
    ensures { IfOk result (λ made. Makes (hidden_in hidden.old) (hidden_in hidden.new) (spec.IsFlatProcess (surroundings design.now) process.now (source_process_of made))) }
{
    let around = Around {
        alloc,
        design,
        scope: process.scope,
    };
    let repeats = process.repeats;
    let body = lower_statement(around, hidden, &process.body)?;
    Ok(SourceProcess { repeats, body })
}

/// The flat module of a design, under a name: a declaration for each variable, and its processes, in their order.
///
/// # Errors
///
/// What is wrong first, or isn't supported yet, at its token; `Memory` where memory is refused.
pub fn flat_module(
    alloc: Global,
    processes: &[PlainProcess],
    design: &ScopedDesign,
    name: &str,
) -> Lowered<Module>
    ensures { IfOk result (λ made. spec.IsFlatModule processes.now design.now name.now (module_of made)) }
{
    let mut hidden = HiddenVariables::new(alloc);
    let mut procs = Vec::new(alloc);
    for process in processes {
        let made = flat_process(alloc, design, &mut hidden, process)?;
        procs.push(made)?;
    }
    let regs = declarations(alloc, design, hidden.variables.as_slice())?;
    let name = String::from_str(alloc, name)?;
    Ok(Module { name, regs, procs })
}
