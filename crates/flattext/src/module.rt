//! Modules.

ghost use Rattle.std.specs.Prelude.{◌≡◌, ◌++◌, OnOk, Some, map, string_bytes};
ghost use Rattle.model.specs.SourceTrees.{declaration_of, module_of, source_process_of};
ghost use Rattle.flattext.specs.Modules as spec;

use crate::names::push_name;
use crate::phrases::push_number;
use crate::statement::push_statement;
use model::tree::{Declaration, Module, SourceProcess};
use std::alloc::AllocError;

// Puts a range behind a text, and a space (4.3).
fn push_bounds(text: &mut Vec<u8>, most: u64, least: u64) -> Result<(), AllocError>
    ensures { OnOk result (text.new.items ≡ text.old.items ++ spec.range_text (Some (most, least))) }
{
    text.extend_from_slice(b"[")?;
    push_number(text, most)?;
    text.extend_from_slice(b":")?;
    push_number(text, least)?;
    text.extend_from_slice(b"] ")
}

// Puts a range behind a text, where there is one.
fn push_range(text: &mut Vec<u8>, range: Option<(u64, u64)>) -> Result<(), AllocError>
    ensures { OnOk result (text.new.items ≡ text.old.items ++ spec.range_text range) }
{
    match range {
        Some((most, least)) => push_bounds(text, most, least),
        None => Ok(()),
    }
}

// Puts names behind a text, with a comma before each.
fn push_other_names(text: &mut Vec<u8>, names: &[String]) -> Result<(), AllocError>
    ensures { OnOk result (text.new.items ≡ text.old.items ++ spec.other_names_text (map string_bytes names.now)) }
{
    for name in names {
        text.extend_from_slice(b", ")?;
        push_name(text, name.as_str())?;
    }
    Ok(())
}

// Puts names behind a text, with commas between them.
fn push_names(text: &mut Vec<u8>, names: &[String]) -> Result<(), AllocError>
    ensures { OnOk result (text.new.items ≡ text.old.items ++ spec.names_text (map string_bytes names.now)) }
{
    match names {
        [] => Ok(()),
        [first, others @ ..] => {
            push_name(text, first.as_str())?;
            push_other_names(text, others)
        }
    }
}

// Puts the line of a declaration behind a text (4.2.2).
#[tactic(auto, unfolding(crate::specs::Modules::declaration_text))]
fn push_declaration(text: &mut Vec<u8>, declaration: &Declaration) -> Result<(), AllocError>
    ensures { OnOk result (text.new.items ≡ text.old.items ++ spec.declaration_text (declaration_of declaration.now)) }
{
    text.extend_from_slice(b"  reg ")?;
    push_range(text, declaration.range)?;
    push_names(text, declaration.names.as_slice())?;
    text.extend_from_slice(b";\n")
}

// Puts the lines of declarations behind a text.
fn push_declarations(text: &mut Vec<u8>, declarations: &[Declaration]) -> Result<(), AllocError>
    ensures { OnOk result (text.new.items ≡ text.old.items ++ spec.declarations_text (map declaration_of declarations.now)) }
{
    for declaration in declarations {
        push_declaration(text, declaration)?;
    }
    Ok(())
}

// The word with which a process begins, with the spaces before and behind it (9.9).
fn word_text(repeats: bool) -> &'static str
    ensures { result.now ≡ spec.process_word_text repeats }
{
    match repeats {
        true => "  always ",
        false => "  initial ",
    }
}

// Puts the lines of a process behind a text.
#[tactic(auto, unfolding(crate::specs::Modules::source_process_text))]
fn push_process(text: &mut Vec<u8>, process: &SourceProcess) -> Result<(), AllocError>
    ensures { OnOk result (text.new.items ≡ text.old.items ++ spec.source_process_text (source_process_of process.now)) }
{
    text.extend_from_slice(word_text(process.repeats).as_bytes())?;
    push_statement(text, 1, false, &process.body)
}

// Puts the place of a process behind a text, as a comment in a line of its own (3.3).
fn push_place(text: &mut Vec<u8>, place: &str) -> Result<(), AllocError>
    ensures { OnOk result (text.new.items ≡ text.old.items ++ spec.place_text place.now) }
{
    text.extend_from_slice(b"  // ")?;
    text.extend_from_slice(place.as_bytes())?;
    text.extend_from_slice(b"\n")
}

// Puts the place of the process of a number behind a text, where there is one.
fn push_place_at(text: &mut Vec<u8>, places: &[&str], number: usize) -> Result<(), AllocError>
    ensures { OnOk result (text.new.items ≡ text.old.items ++ spec.place_at (map (λ words. words.now) places.now) number) }
{
    if number < places.len() {
        push_place(text, places[number])
    } else {
        Ok(())
    }
}

// Puts the lines of processes behind a text, with their places.
fn push_placed_processes(
    text: &mut Vec<u8>,
    processes: &[SourceProcess],
    places: &[&str],
) -> Result<(), AllocError>
    ensures { OnOk result (text.new.items ≡ text.old.items ++ spec.placed_processes_text (map (λ words. words.now) places.now) (map source_process_of processes.now)) }
{
    for (number, process) in processes.iter().enumerate() {
        push_place_at(text, places, number)?;
        push_process(text, process)?;
    }
    Ok(())
}

// Puts the lines of processes behind a text.
fn push_processes(text: &mut Vec<u8>, processes: &[SourceProcess]) -> Result<(), AllocError>
    ensures { OnOk result (text.new.items ≡ text.old.items ++ spec.processes_text (map source_process_of processes.now)) }
{
    for process in processes {
        push_process(text, process)?;
    }
    Ok(())
}

// Puts the line with which a module begins behind a text (12.1).
#[tactic(auto, unfolding(crate::specs::Modules::head_text))]
fn push_head(text: &mut Vec<u8>, name: &str) -> Result<(), AllocError>
    ensures { OnOk result (text.new.items ≡ text.old.items ++ spec.head_text name.now) }
{
    text.extend_from_slice(b"module ")?;
    push_name(text, name)?;
    text.extend_from_slice(b";\n")
}

/// Puts the text of a module behind a text: its declarations, and then its processes, each in their order (12.1).
///
/// Fails where memory is refused: then a beginning of it stands there.
#[tactic(auto, unfolding(crate::specs::Modules::module_text))]
pub fn push_module(text: &mut Vec<u8>, module: &Module) -> Result<(), AllocError>
    ensures { OnOk result (text.new.items ≡ text.old.items ++ spec.module_text (module_of module.now)) }
{
    push_head(text, module.name.as_str())?;
    push_declarations(text, module.regs.as_slice())?;
    push_processes(text, module.procs.as_slice())?;
    text.extend_from_slice(b"endmodule\n")
}

/// Puts the text of a module behind a text as `push_module` does, with a line before each process that tells where it stands, as a comment.
///
/// Fails where memory is refused: then a beginning of it stands there.
#[tactic(auto, unfolding(crate::specs::Modules::placed_module_text))]
pub fn push_placed_module(
    text: &mut Vec<u8>,
    module: &Module,
    places: &[&str],
) -> Result<(), AllocError>
    ensures { OnOk result (text.new.items ≡ text.old.items ++ spec.placed_module_text (map (λ words. words.now) places.now) (module_of module.now)) }
{
    push_head(text, module.name.as_str())?;
    push_declarations(text, module.regs.as_slice())?;
    push_placed_processes(text, module.procs.as_slice(), places)?;
    text.extend_from_slice(b"endmodule\n")
}
