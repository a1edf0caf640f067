//! From the words of a command line to a request, or to why there is none.
//!
//! Each subcommand is a command of its own, over the words from its name on: of a command's own
//! arguments `clap` promises that a required one has a value, and that each value passed its
//! parser. So reading a path can't fail, and the options of a request are those of a run.

ghost use Rattle.std.specs.Prelude.{◌≡◌, ◌⊎◌, IfErr, IfOk, IfSome, OnOk, None, true, false, codes, drop, is_some, ◌≢◌};
ghost use Rattle.clap.specs.Words.{first_of, found_of, kind_of, rows_of};
ghost use Rattle.clap.specs.declared.error.kind.ErrorKind.TheVariants.{MissingSubcommand, OutOfMemory};
ghost use Rattle.clap.specs.declared.error.kind.ErrorKind.{ErrorKind};
ghost use Rattle.arguments.specs.Arguments.{Gives, GivesExplain, GivesRaces, GivesRun};
ghost use Rattle.arguments.specs.CommandWords.{Asks, AsksInVain, AsksNoTask, Begins, FailsAs, IsAskedBy, IsNoRequest, IsNoRequestBy, kind_in_vain, number_given, texts_of, word_of_task};
ghost use Rattle.arguments.specs.declared.command_task.CommandTask.{CommandTask};
ghost use Rattle.arguments.specs.declared.command_task.CommandTask.TheVariants.{Explain, Races, Run};
ghost use Rattle.arguments.specs.Observing.{IsObserved};
ghost use Rattle.arguments.specs.declared.observed.Observed.TheVariants.{Lines};

use crate::command_task::CommandTask;
use crate::commands::{missing, said_in_vain, task_matches, whole_matches};
use crate::given::{
    check_request, diff_request, explain_request, flatten_request, given_observed, gives_samples,
    gives_two_orders, has_no_radix, races_request, replay_request, run_request, tells_no_entry,
    tells_no_time, waves_request,
};
use crate::observed::Observed;
use crate::request::{NoRequest, Request};
use crate::vain_words::VainWords;
use clap::error::ErrorKind;
use clap::{ArgMatches, Error};
use std::alloc::{AllocError, Global};

/// The request that the words make. The first word is the program's name.
pub fn read_request<'a>(alloc: Global, words: &'a [String]) -> Result<Request<'a>, NoRequest>
    ensures asked { IfOk result (Asks (texts_of words.now)) }
    ensures refused { IfErr result (IsNoRequest (texts_of words.now)) }
{
    match parse(alloc, words) {
        Ok(request) => Ok(request),
        Err(error) => Err(refuse(alloc, &error)),
    }
}

/// What is answered to an error of this kind, or that memory is refused.
fn refuse(alloc: Global, error: &Error) -> NoRequest
    ensures { IsNoRequestBy (kind_of error.now) result }
{
    if matches!(error.kind(), ErrorKind::OutOfMemory) {
        return NoRequest::Memory;
    }
    match error.to_string(alloc) {
        Ok(text) if error.use_stderr() => NoRequest::Usage(text),
        Ok(text) => NoRequest::Help(text),
        Err(_) => NoRequest::Memory,
    }
}

/// What the words ask for: the version, or a task. Fails with what is said of words that ask for neither, or not so.
fn parse<'a>(alloc: Global, words: &'a [String]) -> Result<Request<'a>, Error>
    ensures asked { IfOk result (Asks (texts_of words.now)) }
    ensures failed { IfErr result (λ e. FailsAs (texts_of words.now) (kind_of e)) }
{
    if begins(words, "--version") {
        return Ok(Request::Version);
    }
    match asked_task(words) {
        Some(task) => parse_task(alloc, task, words),
        None => Err(no_task(alloc, words)),
    }
}

/// The task that the word after the program's name asks for.
fn asked_task(words: &[String]) -> Option<CommandTask>
    ensures some { IfSome result (λ task. Begins (texts_of words.now) (word_of_task task)) }
    ensures none { result ≡ None → (asked : CommandTask) → Begins (texts_of words.now) (word_of_task asked) → ⊥ }
{
    let tasks = CommandTask::every();
    for task in tasks {
        if begins(words, task.word()) {
            return Some(*task);
        }
    }
    None
}

/// What the words of a task ask for, or what is said of words that the task doesn't take.
fn parse_task<'a>(
    alloc: Global,
    task: CommandTask,
    words: &'a [String],
) -> Result<Request<'a>, Error>
    requires { Begins (texts_of words.now) (word_of_task task) }
    ensures asked { IfOk result (Asks (texts_of words.now)) }
    ensures failed { IfErr result (λ e. FailsAs (texts_of words.now) (kind_of e)) }
{
    let own = own_words(words);
    match task_matches(alloc, task, own) {
        Ok(matches) => asked_request(alloc, task, &matches),
        Err(error) => Err(error),
    }
}

/// What the words of a task ask for, by what was found in them.
fn asked_request<'a>(
    alloc: Global,
    task: CommandTask,
    matches: &ArgMatches<'a>,
) -> Result<Request<'a>, Error>
    requires { Gives task (found_of matches.now) }
    ensures asked { IfOk result (IsAskedBy task (rows_of (found_of matches.now))) }
    ensures failed { IfErr result (λ e. AsksInVain task (rows_of (found_of matches.now)) (kind_of e)) }
{
    match task {
        CommandTask::Run => asked_run(alloc, matches),
        CommandTask::Replay => Ok(Request::Replay(replay_request(matches))),
        CommandTask::Races => asked_races(alloc, matches),
        CommandTask::Check => Ok(Request::Check(check_request(matches))),
        CommandTask::Explain => asked_telling(alloc, matches),
        CommandTask::Waves => Ok(Request::Waves(waves_request(matches))),
        CommandTask::Diff => Ok(Request::Diff(diff_request(matches))),
        CommandTask::Flatten => Ok(Request::Flatten(flatten_request(matches))),
    }
}

/// The run that words ask for, unless by two orders.
fn asked_run<'a>(alloc: Global, matches: &ArgMatches<'a>) -> Result<Request<'a>, Error>
    requires { GivesRun (found_of matches.now) }
    ensures asked { IfOk result (IsAskedBy Run (rows_of (found_of matches.now))) }
    ensures failed { IfErr result (λ e. AsksInVain Run (rows_of (found_of matches.now)) (kind_of e)) }
{
    unless_in_vain(alloc, gives_two_orders(matches), VainWords::TwoOrders)?;
    Ok(Request::Run(run_request(matches)))
}

/// The search for races that words ask for, unless they ask to observe nothing that can be, or something else than lines of random orders.
fn asked_races<'a>(alloc: Global, matches: &ArgMatches<'a>) -> Result<Request<'a>, Error>
    requires { GivesRaces (found_of matches.now) }
    ensures asked { IfOk result (IsAskedBy Races (rows_of (found_of matches.now))) }
    ensures failed { IfErr result (λ e. AsksInVain Races (rows_of (found_of matches.now)) (kind_of e)) }
{
    match given_observed(matches) {
        Some(observed) => races_by(alloc, matches, observed),
        None => Err(in_vain(alloc, VainWords::NothingObserved)),
    }
}

/// The search for races that words ask for by what is to be observed, unless that is something else than lines of random orders.
fn races_by<'a>(
    alloc: Global,
    matches: &ArgMatches<'a>,
    observed: Observed<'a>,
) -> Result<Request<'a>, Error>
    requires given { GivesRaces (found_of matches.now) }
    requires observed { IsObserved (first_of (codes "observe") (rows_of (found_of matches.now))) observed }
    ensures asked { IfOk result (IsAskedBy Races (rows_of (found_of matches.now))) }
    ensures failed { IfErr result (λ e. AsksInVain Races (rows_of (found_of matches.now)) (kind_of e)) }
{
    unless_in_vain(
        alloc,
        samples_other(matches, observed),
        VainWords::SamplesObserved,
    )?;
    Ok(Request::Races(races_request(matches, observed)))
}

/// The telling of a journal that words ask for, unless in digits that a letter doesn't stand for, or of no entry, or no time.
fn asked_telling<'a>(alloc: Global, matches: &ArgMatches<'a>) -> Result<Request<'a>, Error>
    requires { GivesExplain (found_of matches.now) }
    ensures asked { IfOk result (IsAskedBy Explain (rows_of (found_of matches.now))) }
    ensures failed { IfErr result (λ e. AsksInVain Explain (rows_of (found_of matches.now)) (kind_of e)) }
{
    unless_in_vain(alloc, has_no_radix(matches), VainWords::NoRadix)?;
    unless_in_vain(alloc, tells_no_entry(matches), VainWords::NoEntries)?;
    unless_in_vain(alloc, tells_no_time(matches), VainWords::NoTimes)?;
    Ok(Request::Explain(explain_request(matches)))
}

/// Whether random orders are asked for, and something else than lines is to be observed.
fn samples_other(matches: &ArgMatches<'_>, observed: Observed<'_>) -> bool
    requires { GivesRaces (found_of matches.now) }
    ensures samples { result ≡ true → is_some (number_given (codes "samples") (rows_of (found_of matches.now))) ≡ true }
    ensures other { result ≡ true → observed.entry ≢ Lines }
{
    if !gives_samples(matches) {
        return false;
    }
    !observed.is_lines()
}

/// The word after the program's name is this one.
fn begins(words: &[String], name: &str) -> bool
    ensures yes { result ≡ true → Begins (texts_of words.now) name.now }
    ensures no { result ≡ false → Begins (texts_of words.now) name.now → ⊥ }
{
    match words.get(1) {
        Some(word) => word.as_str() == name,
        None => false,
    }
}

/// The words after the program's name.
fn own_words<'a>(words: &'a [String]) -> &'a [String]
    ensures { texts_of result.now ≡ drop 1 (texts_of words.now) }
{
    match words.split_first() {
        Some((_, own)) => own,
        None => words,
    }
}

/// An error that was made, or that memory is refused.
fn made(error: Result<Error, AllocError>) -> Error
    ensures { (kind : ErrorKind) → IfOk error (λ e. kind_of e ≡ kind) → (kind_of result ≡ OutOfMemory) ⊎ (kind_of result ≡ kind) }
{
    match error {
        Ok(error) => error,
        Err(refused) => Error::from(refused),
    }
}

/// What to say of words that ask in vain.
fn in_vain(alloc: Global, vain: VainWords) -> Error
    ensures { (kind_of result ≡ OutOfMemory) ⊎ (kind_of result ≡ kind_in_vain vain) }
{
    made(said_in_vain(alloc, vain))
}

/// Fails with what to say of words that ask in vain, where this test says that they do.
fn unless_in_vain(alloc: Global, asks_in_vain: bool, vain: VainWords) -> Result<(), Error>
    ensures clear { OnOk result (asks_in_vain ≡ false) }
    ensures asks { IfErr result (λ e. asks_in_vain ≡ true) }
    ensures kind { IfErr result (λ e. (kind_of e ≡ OutOfMemory) ⊎ (kind_of e ≡ kind_in_vain vain)) }
{
    if asks_in_vain {
        return Err(in_vain(alloc, vain));
    }
    Ok(())
}

/// What to say of words that ask for no task.
fn no_task(alloc: Global, words: &[String]) -> Error
    requires { AsksNoTask (texts_of words.now) }
    ensures { FailsAs (texts_of words.now) (kind_of result) }
{
    match whole_matches(alloc, words) {
        Err(error) => error,
        Ok(_) => missing_subcommand(alloc),
    }
}

/// What to say where no task is asked for, or that memory is refused.
fn missing_subcommand(alloc: Global) -> Error
    ensures { (kind_of result ≡ OutOfMemory) ⊎ (kind_of result ≡ MissingSubcommand) }
{
    made(missing(alloc))
}
