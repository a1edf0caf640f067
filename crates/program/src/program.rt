//! The program as a function of its words, files and writers.
//!
//! It reads the words into a request and does what is asked, and last it tells how that ended, if there is something to tell.
//!
//! What is told goes through the writer of standard error, and of that the clauses speak. How far long work is goes past it: the files
//! show it (`Files::progress`), and the line is gone before anything is written or told.

ghost use Rattle.std.specs.Prelude.{◌≡◌, ◌≢◌, ◌⊎◌, ◌≤◌, List, IfErr, IfOk, OnErr, OnOk, codes, option_map};
ghost use Rattle.clap.specs.Words.{Text};
ghost use Rattle.std.specs.Io.KnownBytes.{Appends, Keeps};
ghost use Rattle.journal.specs.Counted.{held};
ghost use Rattle.arguments.specs.CommandWords.{AreWrong, Asks, AsksFlatten, AsksRaces, Begins, IsNoRequest, texts_of};
ghost use Rattle.arguments.specs.VerilogWords.{IsNoDesign, LacksWord};
ghost use Rattle.program.specs.Subjects.{AreLeft, BySplit, sources_with};
ghost use Rattle.program.specs.Printed.{AsksCheckOf, HasEnded, HasExplainedPart, HasRefused, HaveDiffered, IsDone, IsLeft, IsUnprinted};
ghost use Rattle.program.specs.Program.{IsNoRequestStatus, help_text, right_text, status_of, version_text};
ghost use Rattle.files.specs.Saved.{KeepsFiles};
ghost use Rattle.program.specs.StandardError.{HasExplainedTold, HasNamedNoRegister, IsReported, IsUnfinished, IsWanting};
ghost use Rattle.program.specs.declared.ending.Ending.TheVariants as Ending;
ghost use Rattle.program.specs.declared.fault.CommandFault.TheVariants.{Memory};
ghost use Rattle.program.specs.ProgramLines.{fault_line, unread_line};
ghost use Rattle.telling.specs.FaultLines.{Tells};

use crate::checking::check;
use crate::differing::diff_journals;
use crate::ending::{Ending, finish, tell_fault};
use crate::explaining::explain_journal;
use crate::fault::CommandFault;
use crate::flattening::flatten;
use crate::observed::search_waves;
use crate::register_option::RegisterOption;
use crate::replaying::replay_journal;
use crate::running::run;
use crate::searching::search_races;
use crate::subject::AskedSource;
use crate::waving::dump_waves;
use arguments::{
    CheckRequest, DesignWords, FlattenRequest, NoRequest, RacesRequest, Request, SplitWords,
    VERSION, read_request, split_words,
};
use files::{FileFault, Files, send_off, show};
use journal::Counted;
use std::alloc::Global;
use std::io;
use std::io::{ErrorKind, Write};
use std::sync::Wait;
use std::thread::Threads;
use telling::{SubjectLine, show_path, tell, tell_lines};

/// The whole program; it answers the exit status. The first word is the program's name.
pub fn command<R: Threads + Wait + Sync, F: Files, O: Write, E: Write>(
    rt: &R,
    alloc: Global,
    words: &[String],
    files: &mut F,
    out: &mut Counted<O>,
    err: &mut Counted<E>,
) -> u8
    ensures range { result ≤ 7 }
    ensures done { result ≡ 0 → BySplit (F.held files.old) (texts_of words.now) (λ from words. IsDone from words (O.contents (held out.old)) (O.contents (held out.new)) (F.made files.old) (F.made files.new)) }
    ensures wrong { result ≡ 2 → LacksWord (texts_of words.now) ⊎ BySplit (F.held files.old) (texts_of words.now) (λ from words. AreWrong words ⊎ HasNamedNoRegister from words (O.contents (held out.old)) (O.contents (held out.new)) (F.made files.old) (F.made files.new) E.contents err.old err.new) }
    ensures refused { result ≡ 3 → Begins (texts_of words.now) (codes "check") → BySplit (F.held files.old) (texts_of words.now) (λ from words. HasRefused from words (O.contents (held out.old)) (O.contents (held out.new)) (F.made files.old) (F.made files.new)) }
    ensures faulty { result ≡ 5 → Begins (texts_of words.now) (codes "explain") → BySplit (F.held files.old) (texts_of words.now) (λ from words. HasExplainedTold from words (O.contents (held out.old)) (O.contents (held out.new)) E.contents err.old err.new) }
    ensures stopped { result ≡ 4 → BySplit (F.held files.old) (texts_of words.now) (λ from words. IsUnfinished from words (O.contents (held out.old)) (O.contents (held out.new)) (F.made files.old) (F.made files.new) E.contents err.old err.new) }
    ensures wanting { result ≡ 6 → (Keeps (O.contents (held out.old)) (O.contents (held out.new)) × KeepsFiles (F.made files.old) (F.made files.new)) ⊎ BySplit (F.held files.old) (texts_of words.now) (λ from words. IsWanting from words (O.contents (held out.old)) (O.contents (held out.new)) (F.made files.old) (F.made files.new) E.contents err.old err.new) }
    ensures several { result ≡ 7 → BySplit (F.held files.old) (texts_of words.now) (λ from words. HaveDiffered from words (O.contents (held out.old)) (O.contents (held out.new)) (F.made files.old) (F.made files.new)) }
    ensures nothing { IsUnprinted (texts_of words.now) result → Keeps (O.contents (held out.old)) (O.contents (held out.new)) }
    ensures unsaved { (result ≡ 2) ⊎ ((result ≡ 3) ⊎ (result ≡ 5)) → KeepsFiles (F.made files.old) (F.made files.new) }
    ensures silent { (result ≡ 0) ⊎ (result ≡ 7) → err.new ≡ err.old }
    ensures told { IsReported E.contents err.old err.new (texts_of words.now) result }
{
    let split = match split_words(alloc, words) {
        Ok(split) => split,
        Err(no_request) => return refuse(no_request, out, err),
    };
    match &split {
        SplitWords::Profile => command_of(rt, alloc, words, None, files, out, err),
        SplitWords::Whole { design, rest } => {
            command_of(rt, alloc, rest.as_slice(), Some(design), files, out, err)
        }
    }
}

/// Does what words of the profile ask for, of a whole design where others ask for one; it answers the exit status.
fn command_of<R: Threads + Wait + Sync, F: Files, O: Write, E: Write>(
    rt: &R,
    alloc: Global,
    words: &[String],
    design_words: Option<&DesignWords<'_>>,
    files: &mut F,
    out: &mut Counted<O>,
    err: &mut Counted<E>,
) -> u8
    ensures range { result ≤ 7 }
    ensures done { result ≡ 0 → IsDone (sources_with (F.held files.old) (option_map (λ w. w.now) design_words.entry)) (texts_of words.now) (O.contents (held out.old)) (O.contents (held out.new)) (F.made files.old) (F.made files.new) }
    ensures wrong { result ≡ 2 → AreWrong (texts_of words.now) ⊎ HasNamedNoRegister (sources_with (F.held files.old) (option_map (λ w. w.now) design_words.entry)) (texts_of words.now) (O.contents (held out.old)) (O.contents (held out.new)) (F.made files.old) (F.made files.new) E.contents err.old err.new }
    ensures refused { result ≡ 3 → Begins (texts_of words.now) (codes "check") → HasRefused (sources_with (F.held files.old) (option_map (λ w. w.now) design_words.entry)) (texts_of words.now) (O.contents (held out.old)) (O.contents (held out.new)) (F.made files.old) (F.made files.new) }
    ensures faulty { result ≡ 5 → Begins (texts_of words.now) (codes "explain") → HasExplainedTold (sources_with (F.held files.old) (option_map (λ w. w.now) design_words.entry)) (texts_of words.now) (O.contents (held out.old)) (O.contents (held out.new)) E.contents err.old err.new }
    ensures stopped { result ≡ 4 → IsUnfinished (sources_with (F.held files.old) (option_map (λ w. w.now) design_words.entry)) (texts_of words.now) (O.contents (held out.old)) (O.contents (held out.new)) (F.made files.old) (F.made files.new) E.contents err.old err.new }
    ensures wanting { result ≡ 6 → IsWanting (sources_with (F.held files.old) (option_map (λ w. w.now) design_words.entry)) (texts_of words.now) (O.contents (held out.old)) (O.contents (held out.new)) (F.made files.old) (F.made files.new) E.contents err.old err.new }
    ensures several { result ≡ 7 → HaveDiffered (sources_with (F.held files.old) (option_map (λ w. w.now) design_words.entry)) (texts_of words.now) (O.contents (held out.old)) (O.contents (held out.new)) (F.made files.old) (F.made files.new) }
    ensures nothing { IsUnprinted (texts_of words.now) result → Keeps (O.contents (held out.old)) (O.contents (held out.new)) }
    ensures unsaved { (result ≡ 2) ⊎ ((result ≡ 3) ⊎ (result ≡ 5)) → KeepsFiles (F.made files.old) (F.made files.new) }
    ensures silent { (result ≡ 0) ⊎ (result ≡ 7) → err.new ≡ err.old }
    ensures told { (all : List Text) → AreLeft all (option_map (λ w. w.now) design_words.entry) (texts_of words.now) → IsReported E.contents err.old err.new all result }
{
    match read_request(alloc, words) {
        Ok(request) => {
            let ended = perform(rt, alloc, &request, design_words, files, out);
            finish(ended, RegisterOption::of(&request), err)
        }
        Err(no_request) => refuse(no_request, out, err),
    }
}

/// Does what is asked.
fn perform<'a, R: Threads + Wait + Sync, F: Files, O: Write>(
    rt: &R,
    alloc: Global,
    request: &Request<'a>,
    design_words: Option<&'a DesignWords<'a>>,
    files: &mut F,
    out: &mut Counted<O>,
) -> Result<Ending, CommandFault<'a>>
    ensures ended { (words : List Text) → Asks words request.now → IfOk result (HasEnded (sources_with (F.held files.old) (option_map (λ w. w.now) design_words.entry)) words (O.contents (held out.old)) (O.contents (held out.new)) (F.made files.old) (F.made files.new)) }
    ensures checked { (words : List Text) → Asks words request.now → Begins words (codes "check") → IfErr result (λ fault. (status_of fault ≡ 1) ⊎ (status_of fault ≡ 6)) }
    ensures refused { (words : List Text) → Asks words request.now → Begins words (codes "explain") → IfErr result (λ fault. status_of fault ≡ 5 → HasExplainedPart (sources_with (F.held files.old) (option_map (λ w. w.now) design_words.entry)) words (O.contents (held out.old)) (O.contents (held out.new)) fault) }
    ensures nothing { (words : List Text) → Asks words request.now → IfErr result (λ fault. IsUnprinted words (status_of fault) → Keeps (O.contents (held out.old)) (O.contents (held out.new))) }
    ensures unsaved { IfErr result (λ fault. (status_of fault ≡ 3) ⊎ (status_of fault ≡ 5) → KeepsFiles (F.made files.old) (F.made files.new)) }
    ensures wanting { (words : List Text) → Asks words request.now → IfErr result (λ fault. status_of fault ≡ 6 → IsLeft (sources_with (F.held files.old) (option_map (λ w. w.now) design_words.entry)) words (O.contents (held out.old)) (O.contents (held out.new)) (F.made files.old) (F.made files.new)) }
{
    match request {
        Request::Run(request) => run(rt, alloc, request, design_words, files, out),
        Request::Replay(request) => replay_journal(alloc, request, design_words, files, out),
        Request::Races(request) => perform_races(alloc, request, design_words, files, out),
        Request::Check(request) => perform_check(alloc, request, design_words, files, out),
        Request::Explain(request) => explain_journal(alloc, request, design_words, files, out),
        Request::Waves(request) => dump_waves(alloc, request, design_words, files),
        Request::Diff(request) => diff_journals(alloc, request, design_words, files, out),
        Request::Flatten(request) => perform_flatten(alloc, request, design_words, files, out),
        Request::Version => perform_version(out),
    }
}

/// Writes the flat module of a whole design. Words that ask for one ask for a whole design (`split_words`): where none is asked for, FILE isn't read.
fn perform_flatten<'a, F: Files, O: Write>(
    alloc: Global,
    request: &FlattenRequest<'a>,
    design_words: Option<&'a DesignWords<'a>>,
    files: &mut F,
    out: &mut Counted<O>,
) -> Result<Ending, CommandFault<'a>>
    ensures ended { (words : List Text) → AsksFlatten words request.now → IfOk result (HasEnded (sources_with (F.held files.old) (option_map (λ w. w.now) design_words.entry)) words (O.contents (held out.old)) (O.contents (held out.new)) (F.made files.old) (F.made files.new)) }
    ensures nothing { IfErr result (λ fault. status_of fault ≢ 1 → Keeps (O.contents (held out.old)) (O.contents (held out.new))) }
    ensures unsaved { OnErr result (KeepsFiles (F.made files.old) (F.made files.new)) }
{
    match design_words {
        Some(words) => flatten(alloc, request, words, files, out),
        None => Err(CommandFault::Files(FileFault::CannotRead(request.file))),
    }
}

/// Searches for races of FILE, or for waves; what it ends with is what the search found, or that a register which is to be observed isn't there.
fn perform_races<'a, F: Files, O: Write>(
    alloc: Global,
    request: &RacesRequest<'a>,
    design_words: Option<&'a DesignWords<'a>>,
    files: &mut F,
    out: &mut O,
) -> Result<Ending, CommandFault<'a>>
    ensures ended { (words : List Text) → AsksRaces words request.now → IfOk result (HasEnded (sources_with (F.held files.old) (option_map (λ w. w.now) design_words.entry)) words (O.contents out.old) (O.contents out.new) (F.made files.old) (F.made files.new)) }
    ensures nothing { IfErr result (λ fault. (status_of fault ≡ 3) ⊎ (status_of fault ≡ 5) → Keeps (O.contents out.old) (O.contents out.new)) }
    ensures unsaved { IfErr result (λ fault. (status_of fault ≡ 3) ⊎ (status_of fault ≡ 5) → KeepsFiles (F.made files.old) (F.made files.new)) }
    ensures wanting { (words : List Text) → AsksRaces words request.now → IfErr result (λ fault. status_of fault ≡ 6 → IsLeft (sources_with (F.held files.old) (option_map (λ w. w.now) design_words.entry)) words (O.contents out.old) (O.contents out.new) (F.made files.old) (F.made files.new)) }
{
    if request.observed.is_lines() {
        search_races(alloc, request, design_words, files, out)
    } else {
        search_waves(alloc, request, design_words, files, out)
    }
}

/// Checks FILE, and shows that it is right; where it isn't, what it ends with is the diagnosis.
fn perform_check<'a, F: Files, O: Write>(
    alloc: Global,
    request: &CheckRequest<'a>,
    design_words: Option<&'a DesignWords<'a>>,
    files: &mut F,
    out: &mut Counted<O>,
) -> Result<Ending, CommandFault<'a>>
    ensures fault { IfErr result (λ fault. (status_of fault ≡ 1) ⊎ (status_of fault ≡ 6)) }
    ensures nothing { IfErr result (λ fault. status_of fault ≢ 1 → Keeps (O.contents (held out.old)) (O.contents (held out.new))) }
    ensures unsaved { KeepsFiles (F.made files.old) (F.made files.new) }
    ensures ended { (words : List Text) → AsksCheckOf words request.now.file.now → IfOk result (HasEnded (sources_with (F.held files.old) (option_map (λ w. w.now) design_words.entry)) words (O.contents (held out.old)) (O.contents (held out.new)) (F.made files.old) (F.made files.new)) }
{
    let asked = AskedSource {
        file: request.file,
        words: design_words,
    };
    match check(alloc, asked, request.all, files) {
        Ok(None) => show_right(request.file, out),
        Ok(Some(text)) => Ok(Ending::Wrong(text)),
        Err(fault) => Err(fault),
    }
}

/// Shows that a source is right.
fn show_right<O: Write>(path: &str, out: &mut Counted<O>) -> Result<Ending, CommandFault<'static>>
    ensures shown { OnOk result (Appends (O.contents (held out.old)) (O.contents (held out.new)) (right_text path.now)) }
    ensures done { IfOk result (λ ending. ending ≡ Ending.Done) }
    ensures fault { IfErr result (λ fault. status_of fault ≡ 1) }
{
    if !show_path(out, path, ": no fault\n") {
        return Err(CommandFault::Files(FileFault::CannotWrite));
    }
    send_off(out)?;
    Ok(Ending::Done)
}

/// Shows the version.
fn perform_version<O: Write>(out: &mut O) -> Result<Ending, CommandFault<'static>>
    ensures shown { OnOk result (Appends (O.contents out.old) (O.contents out.new) version_text) }
    ensures done { IfOk result (λ ending. ending ≡ Ending.Done) }
    ensures fault { IfErr result (λ fault. status_of fault ≡ 1) }
{
    show(out, "vsimtx ")?;
    show(out, VERSION)?;
    show(out, "\n")?;
    Ok(Ending::Done)
}

/// Answers words that can't be had: want of memory as such, and else that one isn't UTF-8.
pub fn without_words<E: Write>(error: &io::Error, err: &mut Counted<E>) -> u8
    ensures status { (result ≡ 2) ⊎ (result ≡ 6) }
    ensures unread { result ≡ 2 → Tells E.contents err.old err.new unread_line }
    ensures memory { result ≡ 6 → Tells E.contents err.old err.new (fault_line Memory) }
{
    match error.kind() {
        ErrorKind::OutOfMemory => tell_fault(CommandFault::Memory, err),
        _ => {
            tell(
                err,
                &SubjectLine::plain("a word of the command line isn't UTF-8"),
            );
            2
        }
    }
}

/// Answers words that make no request: help on standard output, `clap`'s text of wrong words on
/// standard error.
fn refuse<O: Write, E: Write>(no_request: NoRequest, out: &mut O, err: &mut Counted<E>) -> u8
    ensures status { IsNoRequestStatus no_request result }
    ensures helped { result ≡ 0 → Appends (O.contents out.old) (O.contents out.new) (help_text no_request) }
    ensures nothing { (result ≡ 2) ⊎ ((result ≡ 3) ⊎ (result ≡ 5)) → Keeps (O.contents out.old) (O.contents out.new) }
    ensures wanting { result ≡ 6 → Keeps (O.contents out.old) (O.contents out.new) }
    ensures silent { (result ≡ 0) ⊎ (result ≡ 7) → err.new ≡ err.old }
    ensures told { (words : List Text) → IsNoRequest words no_request ⊎ IsNoDesign words no_request → IsReported E.contents err.old err.new words result }
{
    match no_request {
        NoRequest::Help(text) => match show(out, text.as_str()) {
            Ok(()) => 0,
            Err(fault) => tell_fault(CommandFault::Files(fault), err),
        },
        NoRequest::Usage(text) => {
            tell_lines(err, text.as_str());
            2
        }
        NoRequest::Memory => tell_fault(CommandFault::Memory, err),
    }
}
