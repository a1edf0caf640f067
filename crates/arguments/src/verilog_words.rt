//! The words that ask for a whole design: `--verilog`, several FILEs, and what is said of them.
//!
//! They are taken out of the command line, and what is left is one of the profile, with the first FILE, that is read as ever. So of
//! `races --verilog a.v b.v -I rtl --until 9` is left `races --until 9 -- a.v`.

ghost use Rattle.std.specs.Prelude.{◌≡◌, ◌≢◌, ◌++◌, ◌∷◌, IfErr, IfOk, OnOk, codes, map, string_bytes, take};
ghost use Rattle.arguments.specs.declared.said_words.SplitFault.TheVariants as faults;
ghost use Rattle.arguments.specs.VerilogWords as spec;
ghost use Rattle.arguments.specs.CommandWords.{texts_of};

use crate::request::NoRequest;
use crate::said_words::{DesignOption, SaidWords, SplitFault, is_among};
use std::alloc::{AllocError, Global};

/// A name, and what is given to it behind a `=`, if something is.
#[derive(Clone, Copy)]
pub struct NamedWord<'a> {
    pub name: &'a str,
    pub value: Option<&'a str>,
}

/// What words ask for a whole design.
#[derive(Drop)]
pub struct DesignWords<'a> {
    /// The paths of its files, in their order.
    pub files: Vec<&'a str>,
    /// Its top module, where one is given.
    pub top: Option<&'a str>,
    /// The folders in which files are looked up that are included.
    pub folders: Vec<String>,
    /// The macros that are defined before the files.
    pub definitions: Vec<NamedWord<'a>>,
    /// The values of parameters of the top modules.
    pub parameters: Vec<NamedWord<'a>>,
}

impl<'a> DesignWords<'a> {
    /// No files, and nothing said of them.
    pub fn new(alloc: Global) -> DesignWords<'a> {
        DesignWords {
            files: Vec::new(alloc),
            top: None,
            folders: Vec::new(alloc),
            definitions: Vec::new(alloc),
            parameters: Vec::new(alloc),
        }
    }
}

/// Words of a command line, split into those that ask for a whole design and a command line of the profile.
#[derive(Drop)]
pub enum SplitWords<'a> {
    /// They ask for no whole design.
    Profile,
    Whole {
        design: DesignWords<'a>,
        rest: Vec<String>,
    },
}

/// How an option is written.
fn written(option: DesignOption) -> &'static str
    ensures { result.now ≡ spec.written_option option }
{
    match option {
        DesignOption::Top => "--top <NAME>",
        DesignOption::Folder => "-I <DIR>",
        DesignOption::Definition => "-D <NAME[=TEXT]>",
        DesignOption::Parameter => "-P <NAME=VALUE>",
    }
}

/// That an option stands there without its value.
fn no_value(alloc: Global, option: DesignOption) -> Result<String, AllocError>
    ensures { IfOk result (λ text. string_bytes text ≡ codes "error: a value is required for '" ++ (spec.written_option option ++ codes "' but none was supplied\n")) }
{
    let mut text = String::from_str(alloc, "error: a value is required for '")?;
    text.push_str(written(option))?;
    text.push_str("' but none was supplied\n")?;
    Ok(text)
}

/// What is said of words that ask for no whole design. Fails where memory is refused.
fn refusal_words(alloc: Global, fault: SplitFault) -> Result<String, AllocError>
    ensures text { IfOk result (λ text. string_bytes text ≡ spec.refusal_words fault) }
    ensures known { IfOk result (λ _. fault ≢ faults.Memory) }
{
    match fault {
        SplitFault::Memory => Err(AllocError),
        SplitFault::NoValue(option) => no_value(alloc, option),
        SplitFault::SecondTop => String::from_str(
            alloc,
            "error: the argument '--top <NAME>' cannot be used multiple times\n",
        ),
        SplitFault::NoEquals => {
            String::from_str(alloc, "error: the argument '-P' takes NAME=VALUE\n")
        }
    }
}

/// The answer to words that ask for no whole design.
fn refuse(alloc: Global, fault: SplitFault) -> NoRequest
    ensures { spec.IsSaidBy fault result }
{
    match refusal_words(alloc, fault) {
        Ok(text) => NoRequest::Usage(text),
        Err(_) => NoRequest::Memory,
    }
}

/// How many words behind FILE are journals.
fn journals_behind(command: &str) -> usize
    ensures { result ≡ spec.journals_behind command.now }
{
    if is_among(command, &["replay", "explain", "waves"]) {
        1
    } else if command == "diff" {
        2
    } else {
        0
    }
}

/// Whether a command takes a FILE.
fn takes_files(command: &str) -> bool
    ensures { result ≡ spec.takes_files command.now }
{
    is_among(
        command,
        &[
            "run", "replay", "races", "check", "explain", "waves", "diff", "flatten",
        ],
    )
}

/// Whether `--verilog` stands among words, before any `--`.
#[tactic(auto, unfolding(crate::specs::VerilogWords::has_verilog))]
fn has_verilog(own: &[String]) -> bool
    ensures { result ≡ spec.has_verilog (texts_of own.now) }
{
    let mut left = own;
    while let [word, rest @ ..] = left {
        if word.as_str() == "--" {
            return false;
        }
        if word.as_str() == "--verilog" {
            return true;
        }
        left = rest;
    }
    false
}

/// Whether the words behind a command ask for a whole design: by `--verilog`, or by `flatten`.
fn ask_whole(command: &str, own: &[String]) -> bool
    ensures { result ≡ spec.asks_whole command.now (texts_of own.now) }
{
    if !takes_files(command) {
        return false;
    }
    command == "flatten" || has_verilog(own)
}

/// The first of some places, if there is one.
fn first_of<'p, 'w>(places: &'p [&'w str]) -> &'p [&'w str]
    ensures { result.now ≡ take 1 places.now }
{
    places.split_at(places.len().min(1)).0
}

/// Puts copies of words behind others.
fn push_words(alloc: Global, line: &mut Vec<String>, words: &[&str]) -> Result<(), AllocError>
    ensures { OnOk result (map string_bytes line.new.items ≡ map string_bytes line.old.items ++ map (λ word. word.now) words.now) }
{
    for word in words {
        line.push(String::from_str(alloc, word)?)?;
    }
    Ok(())
}

/// A command line of these words: the options, a `--`, a file, and journals.
fn line_of(
    alloc: Global,
    program: &str,
    command: &str,
    options: &[&str],
    file: &[&str],
    journals: &[&str],
) -> Result<Vec<String>, AllocError>
    ensures { IfOk result (λ line. map string_bytes line.items ≡ program.now ∷ command.now ∷ (map (λ word. word.now) options.now ++ (codes "--" ∷ (map (λ word. word.now) file.now ++ map (λ word. word.now) journals.now)))) }
{
    let mut line = Vec::new(alloc);
    push_words(alloc, &mut line, &[program, command])?;
    push_words(alloc, &mut line, options)?;
    push_words(alloc, &mut line, &["--"])?;
    push_words(alloc, &mut line, file)?;
    push_words(alloc, &mut line, journals)?;
    Ok(line)
}

/// A list of these words.
fn copied<'a>(alloc: Global, words: &[&'a str]) -> Result<Vec<&'a str>, AllocError>
    ensures { IfOk result (λ found. map (λ word. word.now) found.items ≡ map (λ word. word.now) words.entry.now) }
{
    let mut found = Vec::new(alloc);
    for word in words {
        found.push(*word)?;
    }
    Ok(found)
}

/// What is said of a whole design, and the command line that is left of a command.
fn split_of<'a>(
    alloc: Global,
    program: &str,
    command: &str,
    said: SaidWords<'a>,
) -> Result<SplitWords<'a>, AllocError>
    ensures { IfOk result (spec.IsSplitBy program.now command.now (spec.plain_said said.entry)) }
{
    let SaidWords {
        top,
        folders,
        definitions,
        parameters,
        options,
        places,
    } = said;
    let count = places.len().saturating_sub(journals_behind(command));
    let (paths, journals) = places.as_slice().split_at(count);
    let rest = line_of(
        alloc,
        program,
        command,
        options.as_slice(),
        first_of(paths),
        journals,
    )?;
    let design = DesignWords {
        files: copied(alloc, paths)?,
        top,
        folders,
        definitions,
        parameters,
    };
    Ok(SplitWords::Whole { design, rest })
}

/// Splits the words of a command that ask for a whole design.
fn split_whole<'a>(
    alloc: Global,
    program: &str,
    command: &str,
    own: &'a [String],
) -> Result<SplitWords<'a>, SplitFault>
    ensures split { IfOk result (spec.IsSplitIn program.now command.now (spec.words_in (texts_of own.entry.now))) }
    ensures refused { IfErr result (spec.IsFaultIn (spec.words_in (texts_of own.entry.now))) }
{
    let mut said = SaidWords::new(alloc);
    said.take_all(alloc, own)?;
    Ok(split_of(alloc, program, command, said)?)
}

/// Splits the words of a command line, of which the first is the program's name, where they ask for a whole design.
///
/// # Errors
///
/// What is said of the first word that is wrong; or that memory is refused.
pub fn split_words<'a>(alloc: Global, words: &'a [String]) -> Result<SplitWords<'a>, NoRequest>
    ensures split { IfOk result (spec.SplitsWords (texts_of words.now)) }
    ensures refused { IfErr result (spec.IsNoDesign (texts_of words.now)) }
{
    let [program, command, own @ ..] = words else {
        return Ok(SplitWords::Profile);
    };
    if !ask_whole(command.as_str(), own) {
        return Ok(SplitWords::Profile);
    }
    match split_whole(alloc, program.as_str(), command.as_str(), own) {
        Ok(split) => Ok(split),
        Err(fault) => Err(refuse(alloc, fault)),
    }
}
