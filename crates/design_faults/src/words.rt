//! What is said of faults.

ghost use Rattle.std.specs.Prelude.{◌≡◌, ◌++◌, OnOk, string_bytes};
ghost use Rattle.design_faults.specs.Words as spec;

use crate::later_names::{construct_name, form_name};
use crate::refused::WholeFault;
use crate::wrong_words::{design_words, statement_words, text_words};
use expression_syntax::faults::ExpectedToken;
use expression_syntax::refusals::Refused;
use lexemes::words::{keyword_text, sign_text};
use std::alloc::AllocError;
use syntax::parser::SyntaxReason;

/// A sentence with a name in it: what stands before the name, the name, and what stands behind it.
#[derive(Clone, Copy)]
struct Sentence {
    before: &'static str,
    name: &'static str,
    behind: &'static str,
}

/// A sentence without a name.
fn plain(words: &'static str) -> Sentence
    ensures { spec.sentence_text result ≡ words.now }
{
    Sentence {
        before: "",
        name: "",
        behind: words,
    }
}

/// That a sign or a word is expected.
fn expected(name: &'static str) -> Sentence
    ensures { spec.sentence_text result ≡ spec.is_expected name.now }
{
    Sentence {
        before: "`",
        name,
        behind: "` is expected here",
    }
}

/// That something isn't supported yet.
fn later(name: &'static str) -> Sentence
    ensures { spec.sentence_text result ≡ spec.is_later name.now }
{
    Sentence {
        before: "",
        name,
        behind: " isn't supported yet",
    }
}

/// That something isn't supported.
fn unsupported(name: &'static str) -> Sentence
    ensures { spec.sentence_text result ≡ spec.is_unsupported name.now }
{
    Sentence {
        before: "",
        name,
        behind: " isn't supported",
    }
}

/// What is said where something else was expected.
fn expected_sentence(found: ExpectedToken) -> Sentence
    ensures { spec.sentence_text result ≡ spec.expected_words found }
{
    match found {
        ExpectedToken::Expression => plain("an expression is expected here"),
        ExpectedToken::Statement => plain("a statement is expected here"),
        ExpectedToken::Item => plain(
            "an item of a module, or the end of what holds it, is expected here",
        ),
        ExpectedToken::Module => plain("`module` is expected here"),
        ExpectedToken::Name => plain("a name is expected here"),
        ExpectedToken::Digits => plain("the digits of a number are expected here"),
        ExpectedToken::Port => plain("a port is expected here"),
        ExpectedToken::Target => plain("what a value is given to is expected here"),
        ExpectedToken::Sign(sign) => expected(sign_text(sign)),
        ExpectedToken::Keyword(word) => expected(keyword_text(word)),
    }
}

/// What is said of tokens that are no modules.
fn syntax_sentence(reason: SyntaxReason) -> Sentence
    ensures { spec.sentence_text result ≡ spec.syntax_words reason }
{
    match reason {
        SyntaxReason::Expected(found) => expected_sentence(found),
        SyntaxReason::Deep => {
            plain(
                "more brackets, blocks and statements are open here, or more operators stand in a statement, than may",
            )
        }
    }
}

/// What is said of what this language doesn't have.
fn refused_sentence(construct: Refused) -> Sentence
    ensures { spec.sentence_text result ≡ spec.refused_words construct }
{
    match construct {
        Refused::WideNumber => unsupported("a number of more than 128 digits (3.5.1)"),
        Refused::MalformedNumber => unsupported("a digit that isn't one of this base (3.5.1)"),
        Refused::Real => unsupported("`real` (4.8)"),
        Refused::ChargeStorage => unsupported("`trireg` (4.6.3)"),
        Refused::Strength => unsupported("a strength (7.9)"),
        Refused::NetDelay => {
            unsupported("the delay of a net, a gate or a continuous assignment (6.1.3, 7.14)")
        }
        Refused::Pull => unsupported("`pullup` or `pulldown` (7.8)"),
        Refused::Switch => unsupported("a switch (7.5 to 7.7)"),
        Refused::Primitive => unsupported("a primitive (8)"),
        Refused::Configuration => unsupported("a configuration (13)"),
        Refused::Library => unsupported("a library (13.2)"),
        Refused::ProceduralAssignment => unsupported("`assign` or `deassign` in a process (9.3.1)"),
        Refused::Force => unsupported("`force` or `release` (9.3.2)"),
        Refused::NonblockingEvent => {
            unsupported("an event inside of a nonblocking assignment (9.7.7)")
        }
        Refused::SystemVerilog => {
            plain("this is SystemVerilog, and not Verilog (IEEE 1364-2005)")
        }
    }
}

/// What is said of a fault, behind what stands before it.
fn sentence_of(fault: WholeFault) -> Sentence
    ensures { spec.sentence_text result ≡ spec.own_words fault }
{
    match fault {
        WholeFault::Text(kind) => plain(text_words(kind)),
        WholeFault::TooMuchText => plain("the files have more text than 4294967295 bytes"),
        WholeFault::Syntax(reason) => syntax_sentence(reason),
        WholeFault::EarlyEnd(reason) => syntax_sentence(reason),
        WholeFault::Refused(construct) => refused_sentence(construct),
        WholeFault::LaterConstruct(construct) => later(construct_name(construct)),
        WholeFault::LaterForm(form) => later(form_name(form)),
        WholeFault::DeepBranches => {
            plain("more than 1024 branches or labels here, with the statements around them")
        }
        WholeFault::ModuleTwice => plain("a second module of this name (12.1)"),
        WholeFault::Design(wrong) => plain(design_words(wrong)),
        WholeFault::Statement(kind) => plain(statement_words(kind)),
        WholeFault::Timescales => {
            plain("of the modules some have a `timescale` before them, and others have none (19.8)")
        }
        WholeFault::NoModule => plain("the files have no module"),
        WholeFault::NoTopOfName => plain("no module has the name that --top gives"),
        WholeFault::NoTop => {
            plain("no module is left as the top one: each has an instance in another one")
        }
        WholeFault::UnknownTopParameter => {
            plain("no top module has a parameter of a name that -P gives a value")
        }
        WholeFault::ParameterValue => {
            plain("what -P gives a parameter is no expression of constants")
        }
    }
}

/// What stands before the words of a fault: that the text ends, where that is one.
fn words_before(fault: WholeFault) -> &'static str
    ensures { result.now ≡ spec.words_before fault }
{
    match fault {
        WholeFault::EarlyEnd(_) => "the text ends behind this: ",
        _ => "",
    }
}

/// Puts a sentence behind a text.
fn push_sentence(text: &mut String, sentence: Sentence) -> Result<(), AllocError>
    ensures { OnOk result (string_bytes text.new ≡ string_bytes text.old ++ spec.sentence_text sentence) }
{
    text.push_str(sentence.before)?;
    text.push_str(sentence.name)?;
    text.push_str(sentence.behind)
}

/// Puts what is said of a fault behind a text. Fails where memory is refused.
pub(crate) fn push_words(text: &mut String, fault: WholeFault) -> Result<(), AllocError>
    ensures { OnOk result (string_bytes text.new ≡ string_bytes text.old ++ spec.fault_words fault) }
{
    text.push_str(words_before(fault))?;
    push_sentence(text, sentence_of(fault))
}
