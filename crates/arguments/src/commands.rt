//! The commands, as `clap` knows them, and what it finds in the words of each.

ghost use Rattle.std.specs.Prelude.{◌≡◌, IfErr, IfOk};
ghost use Rattle.clap.specs.Words.{HasKind, IsAmong, app_of, found_of, kind_of, rows_of, with_subcommand};
ghost use Rattle.clap.specs.declared.error.kind.ErrorKind.TheVariants.{MissingSubcommand};
ghost use Rattle.arguments.specs.Arguments.{Gives, HasRules, rules_of};
ghost use Rattle.arguments.specs.CommandWords.{app_by, bare_app, faults_by, kind_in_vain, other_faults, rows_by, texts_of, whole_app};

use crate::command_task::CommandTask;
use crate::parameters::argument;
use crate::task_parameters::parameters;
use crate::vain_words::VainWords;
use crate::version::VERSION;
use clap::error::ErrorKind;
use clap::{ArgMatches, Command, Error};
use std::alloc::{AllocError, Global};

/// What help says of whole designs.
const WHOLE: &str =
    "With --verilog FILE.. in the place of FILE, a design of several modules:\n  [--top NAME] [-I DIR] [-D NAME[=TEXT]] [-P NAME=VALUE]";

/// What is found in the words of a task, from the one on that asks for it.
pub fn task_matches<'a>(
    alloc: Global,
    task: CommandTask,
    words: &'a [String],
) -> Result<ArgMatches<'a>, Error>
    ensures given { IfOk result (λ m. Gives task (found_of m)) }
    ensures found { IfOk result (λ m. rows_of (found_of m) ≡ rows_by task (texts_of words.now)) }
    ensures failed { IfErr result (HasKind (faults_by task (texts_of words.now))) }
{
    command(alloc, task)?.try_get_matches_from(words)
}

/// What is found in words that ask for no task.
pub fn whole_matches<'a>(alloc: Global, words: &'a [String]) -> Result<ArgMatches<'a>, Error>
    ensures taken { IfOk result (λ m. IsAmong MissingSubcommand (other_faults (texts_of words.now))) }
    ensures failed { IfErr result (HasKind (other_faults (texts_of words.now))) }
{
    program(alloc)?.try_get_matches_from(words)
}

/// The error by which words are answered that ask in vain.
pub fn said_in_vain(alloc: Global, vain: VainWords) -> Result<Error, AllocError>
    ensures { IfOk result (λ e. kind_of e ≡ kind_in_vain vain) }
{
    said(command(alloc, vain.task())?, vain.kind(), vain.text())
}

/// The error by which words are answered that ask for no task.
pub fn missing(alloc: Global) -> Result<Error, AllocError>
    ensures { IfOk result (λ e. kind_of e ≡ MissingSubcommand) }
{
    said(
        program(alloc)?,
        ErrorKind::MissingSubcommand,
        "a subcommand is required",
    )
}

/// The error of this kind, with this text, as a command tells it.
fn said(mut command: Command<'_>, kind: ErrorKind, text: &str) -> Result<Error, AllocError>
    ensures { IfOk result (λ e. kind_of e ≡ kind) }
{
    command.error(kind, text)
}

/// The program as a whole, for its help and for words that ask for no task.
fn program<'a>(alloc: Global) -> Result<Command<'a>, AllocError>
    ensures { IfOk result (λ c. app_of c ≡ whole_app) }
{
    let tasks = CommandTask::every();
    let mut whole = bare_program(alloc);
    for task in tasks {
        whole = with_task(alloc, whole, *task)?;
    }
    Ok(whole)
}

/// A program with the command of a task more.
fn with_task<'a>(
    alloc: Global,
    whole: Command<'a>,
    task: CommandTask,
) -> Result<Command<'a>, AllocError>
    ensures { IfOk result (λ c. app_of c ≡ with_subcommand (app_of whole.entry) (app_by task).top) }
{
    let next = command(alloc, task)?;
    whole.subcommand(next)
}

/// The program, with none of its commands yet.
fn bare_program<'a>(alloc: Global) -> Command<'a>
    ensures { app_of result ≡ bare_app }
{
    Command::new(alloc, "vsimtx")
        .about("Simulates one Verilog module on several workers")
        .version(VERSION)
        .subcommand_required(true)
        .arg_required_else_help(true)
}

/// The command of a task, with its words and options.
fn command<'a>(alloc: Global, task: CommandTask) -> Result<Command<'a>, AllocError>
    ensures rules { IfOk result (λ c. HasRules c (rules_of task)) }
    ensures app { IfOk result (λ c. app_of c ≡ app_by task) }
{
    let taken = parameters(task);
    let mut command = Command::new(alloc, task.word())
        .about(task.about())
        .after_help(WHOLE);
    for parameter in taken {
        command = command.arg(argument(alloc, *parameter))?;
    }
    command.bin_name(task.title())
}
