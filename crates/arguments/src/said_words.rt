//! The words behind a command that asks for a whole design, one after another: what they say of it, and which they leave.

ghost use Rattle.std.specs.Prelude.{◌≡◌, Ok, IfErr, IfOk, OnOk, is_some, map, option_map};
ghost use Rattle.arguments.specs.CommandWords.{texts_of};
ghost use Rattle.arguments.specs.VerilogWords as spec;
ghost use Rattle.arguments.specs.declared.said_words.Awaited.TheVariants as awaits;

use crate::verilog_words::NamedWord;
use std::alloc::{AllocError, AllocFailed, Global};

/// What is said of a whole design by an option.
#[derive(Clone, Copy)]
pub(crate) enum DesignOption {
    Top,
    Folder,
    Definition,
    Parameter,
}

/// What is awaited behind a word.
#[derive(Clone, Copy)]
pub(crate) enum Awaited {
    Nothing,
    /// The value of an option of a whole design.
    Said(DesignOption),
    /// The value of another option.
    Value,
}

/// Why words ask for no whole design.
#[derive(Clone, Copy)]
pub(crate) enum SplitFault {
    Memory,
    /// An option stands there without its value.
    NoValue(DesignOption),
    /// `--top` is given twice.
    SecondTop,
    /// `-P` has no `=`.
    NoEquals,
}

impl From<AllocError> for SplitFault {
    ghost use Rattle.arguments.specs.declared.said_words.SplitFault.TheVariants as fault;

    ghost from_gives = { λ _ e. e ≡ fault.Memory };

    fn from(_: AllocError) -> SplitFault {
        SplitFault::Memory
    }
}

impl<T: Drop> From<AllocFailed<T>> for SplitFault {
    ghost use Rattle.arguments.specs.declared.said_words.SplitFault.TheVariants as fault;

    ghost from_gives = { λ _ e. e ≡ fault.Memory };

    fn from(_: AllocFailed<T>) -> SplitFault {
        SplitFault::Memory
    }
}

/// What the words so far say of a whole design, the options that they leave, and the words that are no options.
#[derive(Drop)]
pub(crate) struct SaidWords<'a> {
    pub(crate) top: Option<&'a str>,
    pub(crate) folders: Vec<String>,
    pub(crate) definitions: Vec<NamedWord<'a>>,
    pub(crate) parameters: Vec<NamedWord<'a>>,
    pub(crate) options: Vec<&'a str>,
    pub(crate) places: Vec<&'a str>,
}

/// Whether a word is one of these.
pub(crate) fn is_among(word: &str, all: &[&str]) -> bool
    ensures { result ≡ spec.is_one_of (map (λ one. one.now) all.now) word.now }
{
    let mut left = all;
    while let [one, rest @ ..] = left {
        if word == *one {
            return true;
        }
        left = rest;
    }
    false
}

/// What stands behind a beginning of a word, if the word begins so.
fn behind<'a>(word: &'a str, beginning: &str) -> Option<&'a str>
    ensures { option_map (λ rest. rest.now) result ≡ spec.behind_prefix beginning.now word.entry.now }
{
    word.strip_prefix(beginning)
}

/// An option, with what stands behind it in its word.
type Said<'a> = (DesignOption, &'a str);

/// An option, with what stands behind its beginning in a word, if the word begins so.
fn option_behind<'a>(option: DesignOption, word: &'a str, beginning: &str) -> Option<Said<'a>>
    ensures { spec.plain_option result ≡ spec.said_with option (spec.behind_prefix beginning.now word.entry.now) }
{
    let rest = behind(word, beginning)?;
    Some((option, rest))
}

/// `--top`, if a word is that alone.
fn top_alone(word: &str) -> Option<Said<'static>>
    ensures { spec.plain_option result ≡ spec.top_alone word.now }
{
    if word == "--top" {
        Some((DesignOption::Top, ""))
    } else {
        None
    }
}

/// The first of two that is there.
fn first_said<'a>(one: Option<Said<'a>>, other: Option<Said<'a>>) -> Option<Said<'a>>
    ensures { spec.plain_option result ≡ spec.or_said (spec.plain_option one.entry) (spec.plain_option other.entry) }
{
    match one {
        Some(said) => Some(said),
        None => other,
    }
}

/// What an option says of a whole design, with the rest of its word, if it is one that does.
fn design_option(word: &str) -> Option<Said<'_>>
    ensures { spec.plain_option result ≡ spec.said_by word.entry.now }
{
    let top = option_behind(DesignOption::Top, word, "--top=");
    let folder = option_behind(DesignOption::Folder, word, "-I");
    let definition = option_behind(DesignOption::Definition, word, "-D");
    let parameter = option_behind(DesignOption::Parameter, word, "-P");
    let short = first_said(folder, first_said(definition, parameter));
    first_said(top_alone(word), first_said(top, short))
}

/// A name, with what is given to it.
fn named_word(text: &str) -> NamedWord<'_>
    ensures { spec.plain_named result ≡ spec.named_text text.entry.now }
{
    match text.split_once('=') {
        Some((name, value)) => NamedWord {
            name,
            value: Some(value),
        },
        None => NamedWord {
            name: text,
            value: None,
        },
    }
}

/// Whether a word is an option.
fn is_option(word: &str) -> bool
    ensures { result ≡ spec.is_option word.now }
{
    match word.as_bytes() {
        [first, _, ..] => *first == b'-',
        _ => false,
    }
}

/// Whether a word is a long option.
fn is_long_option(word: &str) -> bool
    ensures { result ≡ spec.is_long_option word.now }
{
    match word.as_bytes() {
        [first, second, ..] => *first == b'-' && *second == b'-',
        _ => false,
    }
}

/// Whether something is given to the name of a word, behind a `=`.
fn has_value(word: &str) -> bool
    ensures { result ≡ is_some (spec.named_text word.now).1 }
{
    named_word(word).value.is_some()
}

/// Whether the word behind an option is its value: behind a long one that takes one and doesn't have it.
fn takes_next(word: &str) -> bool
    ensures { result ≡ spec.takes_next word.now }
{
    is_long_option(word)
        && !has_value(word)
        && !is_among(word, &["--versions", "--all", "--help", "--version"])
}

/// What is awaited behind an option that says nothing of a whole design.
fn awaited_behind(word: &str) -> Awaited
    ensures { result ≡ spec.awaited_behind word.now }
{
    if takes_next(word) {
        Awaited::Value
    } else {
        Awaited::Nothing
    }
}

/// Whether a word ends the options: a `--` that is no value.
fn ends_options(awaited: Awaited, word: &str) -> bool
    ensures { result ≡ spec.ends_options awaited word.now }
{
    match awaited {
        Awaited::Nothing => word == "--",
        _ => false,
    }
}

/// That no value of an option of a whole design is awaited at the end.
fn at_end(awaited: Awaited) -> Result<(), SplitFault>
    ensures taken { OnOk result ((words : spec.PlainWords) → spec.at_end words awaited ≡ Ok words) }
    ensures refused { IfErr result (λ found. (words : spec.PlainWords) → spec.IsFaultIn (spec.at_end words awaited) found) }
{
    match awaited {
        Awaited::Said(option) => Err(SplitFault::NoValue(option)),
        Awaited::Value => Ok(()),
        Awaited::Nothing => Ok(()),
    }
}

impl<'a> SaidWords<'a> {
    /// Nothing.
    pub(crate) fn new(alloc: Global) -> SaidWords<'a>
        ensures { spec.plain_said result ≡ spec.no_words }
    {
        SaidWords {
            top: None,
            folders: Vec::new(alloc),
            definitions: Vec::new(alloc),
            parameters: Vec::new(alloc),
            options: Vec::new(alloc),
            places: Vec::new(alloc),
        }
    }

    /// Takes the name of the top module.
    fn say_top(&mut self, value: &'a str) -> Result<(), SplitFault>
        ensures said { OnOk result (spec.with_top (spec.plain_said self.old) value.entry.now (spec.plain_said self.old).top ≡ Ok (spec.plain_said self.new)) }
        ensures refused { IfErr result (spec.IsFaultIn (spec.with_top (spec.plain_said self.old) value.entry.now (spec.plain_said self.old).top)) }
    {
        match self.top {
            Some(_) => Err(SplitFault::SecondTop),
            None => {
                self.top = Some(value);
                Ok(())
            }
        }
    }

    /// Takes the value of a parameter.
    fn say_parameter(&mut self, named: NamedWord<'a>) -> Result<(), SplitFault>
        ensures said { OnOk result (spec.with_parameter (spec.plain_said self.old) (spec.plain_named named.entry) ≡ Ok (spec.plain_said self.new)) }
        ensures refused { IfErr result (spec.IsFaultIn (spec.with_parameter (spec.plain_said self.old) (spec.plain_named named.entry))) }
    {
        match named.value {
            Some(_) => Ok(self.parameters.push(named)?),
            None => Err(SplitFault::NoEquals),
        }
    }

    /// Takes what an option says.
    fn say(&mut self, alloc: Global, option: DesignOption, value: &'a str) -> Result<(), SplitFault>
        ensures said { OnOk result (spec.with_said (spec.plain_said self.old) option value.entry.now ≡ Ok (spec.plain_said self.new)) }
        ensures refused { IfErr result (spec.IsFaultIn (spec.with_said (spec.plain_said self.old) option value.entry.now)) }
    {
        match option {
            DesignOption::Top => self.say_top(value),
            DesignOption::Folder => {
                self.folders.push(String::from_str(alloc, value)?)?;
                Ok(())
            }
            DesignOption::Definition => {
                self.definitions.push(named_word(value))?;
                Ok(())
            }
            DesignOption::Parameter => self.say_parameter(named_word(value)),
        }
    }

    /// Takes an option of a whole design, whose value is awaited where its word has none.
    fn take_own(
        &mut self,
        alloc: Global,
        option: DesignOption,
        value: &'a str,
    ) -> Result<Awaited, SplitFault>
        ensures taken { IfOk result (λ next. spec.with_own (spec.plain_said self.old) option value.entry.now ≡ Ok (spec.plain_said self.new, next)) }
        ensures refused { IfErr result (spec.IsFaultIn (spec.with_own (spec.plain_said self.old) option value.entry.now)) }
    {
        if value.is_empty() {
            return Ok(Awaited::Said(option));
        }
        self.say(alloc, option, value)?;
        Ok(Awaited::Nothing)
    }

    /// Takes a word that is no option of a whole design.
    fn take_other(&mut self, word: &'a str) -> Result<Awaited, AllocError>
        ensures { IfOk result (λ next. spec.with_other (spec.plain_said self.old) word.entry.now ≡ (spec.plain_said self.new, next)) }
    {
        if word == "--verilog" {
            return Ok(Awaited::Nothing);
        }
        if is_option(word) {
            self.options.push(word)?;
            return Ok(awaited_behind(word));
        }
        self.places.push(word)?;
        Ok(Awaited::Nothing)
    }

    /// Takes a word behind which nothing was awaited.
    fn take_free(&mut self, alloc: Global, word: &'a str) -> Result<Awaited, SplitFault>
        ensures taken { IfOk result (λ next. spec.with_word (spec.plain_said self.old) word.entry.now (spec.said_by word.entry.now) ≡ Ok (spec.plain_said self.new, next)) }
        ensures refused { IfErr result (spec.IsFaultIn (spec.with_word (spec.plain_said self.old) word.entry.now (spec.said_by word.entry.now))) }
    {
        match design_option(word) {
            Some((option, value)) => self.take_own(alloc, option, value),
            None => Ok(self.take_other(word)?),
        }
    }

    /// Takes a word by what is awaited, and answers what is awaited behind it.
    fn take(
        &mut self,
        alloc: Global,
        awaited: Awaited,
        word: &'a str,
    ) -> Result<Awaited, SplitFault>
        ensures taken { IfOk result (λ next. spec.word_taken (spec.plain_said self.old) awaited word.entry.now ≡ Ok (spec.plain_said self.new, next)) }
        ensures refused { IfErr result (spec.IsFaultIn (spec.word_taken (spec.plain_said self.old) awaited word.entry.now)) }
    {
        match awaited {
            Awaited::Said(option) => {
                self.say(alloc, option, word)?;
                Ok(Awaited::Nothing)
            }
            Awaited::Value => {
                self.options.push(word)?;
                Ok(Awaited::Nothing)
            }
            Awaited::Nothing => self.take_free(alloc, word),
        }
    }

    /// Takes words that are no options.
    fn take_places(&mut self, words: &'a [String]) -> Result<(), AllocError>
        ensures { OnOk result (spec.plain_said self.new ≡ spec.with_places (spec.plain_said self.old) (texts_of words.entry.now)) }
    {
        for word in words {
            self.places.push(word.as_str())?;
        }
        Ok(())
    }

    /// Takes all words behind a command, those behind a `--` as no options.
    pub(crate) fn take_all(&mut self, alloc: Global, own: &'a [String]) -> Result<(), SplitFault>
        ensures taken { OnOk result (spec.words_taken (spec.plain_said self.old) awaits.Nothing (texts_of own.entry.now) ≡ Ok (spec.plain_said self.new)) }
        ensures refused { IfErr result (spec.IsFaultIn (spec.words_taken (spec.plain_said self.old) awaits.Nothing (texts_of own.entry.now))) }
    {
        let mut awaited = Awaited::Nothing;
        let mut left = own;
        while let [word, rest @ ..] = left {
            let text = word.as_str();
            if ends_options(awaited, text) {
                return Ok(self.take_places(rest)?);
            }
            awaited = self.take(alloc, awaited, text)?;
            left = rest;
        }
        at_end(awaited)
    }
}
