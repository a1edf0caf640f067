//! What was found in the words of a command, as a request.

ghost use Rattle.std.specs.Prelude.{◌≡◌, ◌≤◌, ◌^◌, ◌∷◌, IfSome, None, Some, codes, is_some, option_map, unwrap_or, false, true};
ghost use Rattle.clap.specs.Words.{first_of, first_value, found_of, rows_of};
ghost use Rattle.model.specs.Runs.{last_time};
ghost use Rattle.arguments.specs.Arguments.{IsGivenArgument, GivesRun, GivesReplay, GivesRaces, GivesCheck, GivesExplain, GivesWaves, GivesDiff, GivesFlatten, flag_parser, workers_parser, until_parser, entries_parser, seed_parser};
ghost use Rattle.arguments.specs.Observing.{IsObserved, ObservesNothing};
ghost use Rattle.arguments.specs.Options.{CanRun, CanSearch};
ghost use Rattle.arguments.specs.CommandWords.{HasNoRadix, IsCheckOf, IsDiffOf, IsExplainOf, IsFlattenOf, IsRacesOf, IsReplayOf, IsRunOf, IsWavesOf, at_least_two, is_behind, search_options_of, tells_no_entry, tells_no_time, flag_given, has_two_orders, number_given, options_of, radix_given, radix_of};

use crate::observed::{Observed, observed_by};
use crate::request::{
    CheckRequest, DiffRequest, ExplainRequest, FlattenRequest, RacesRequest, ReplayRequest,
    RunRequest, WavesRequest,
};
use crate::run_options::RunOptions;
use crate::search_options::SearchOptions;
use clap::ArgMatches;
use literals::Radix;

/// The options of a run of which the words say nothing.
const DEFAULT_RUN: RunOptions = RunOptions {
    workers: 2,
    until: None,
    max_entries: 1_000_000,
};

/// The options of a search of which the words say nothing.
const DEFAULT_SEARCH: SearchOptions = SearchOptions {
    until: None,
    max_entries: 1_000_000,
    max_states: 1_000_000,
    max_texts: 8,
    max_memory: 4096,
    samples: None,
    seed: 0,
};

/// The run that the words of `run` ask for, with the defaults of what they leave out.
pub fn run_request<'a>(matches: &ArgMatches<'a>) -> RunRequest<'a>
    requires given { GivesRun (found_of matches.now) }
    requires one_order { has_two_orders (rows_of (found_of matches.now)) ≡ false }
    ensures { IsRunOf (rows_of (found_of matches.now)) result }
{
    RunRequest {
        file: given_word(matches, "FILE"),
        options: options(matches),
        seed: given_seed(matches),
        journal: given_text(matches, "journal"),
    }
}

/// The replay that the words of `replay` ask for: of which journal, on which source.
pub fn replay_request<'a>(matches: &ArgMatches<'a>) -> ReplayRequest<'a>
    requires { GivesReplay (found_of matches.now) }
    ensures { IsReplayOf (rows_of (found_of matches.now)) result }
{
    ReplayRequest {
        file: given_word(matches, "FILE"),
        journal: given_word(matches, "JOURNAL"),
    }
}

/// What the words of `races` ask to observe of runs: the lines, where they leave it out. None where it is nothing that can be.
pub fn given_observed<'a>(matches: &ArgMatches<'a>) -> Option<Observed<'a>>
    ensures some { IfSome result (IsObserved (first_of (codes "observe") (rows_of (found_of matches.now)))) }
    ensures none { result ≡ None → ObservesNothing (first_of (codes "observe") (rows_of (found_of matches.now))) }
{
    match given_text(matches, "observe") {
        Some(text) => observed_by(text),
        None => Some(Observed::Lines),
    }
}

/// Whether random orders are asked for.
pub fn gives_samples(matches: &ArgMatches<'_>) -> bool
    requires { GivesRaces (found_of matches.now) }
    ensures { result ≡ is_some (number_given (codes "samples") (rows_of (found_of matches.now))) }
{
    given_number(matches, "samples").is_some()
}

/// The search that the words of `races` ask for, by what they ask to observe, with the defaults of what they leave out.
pub fn races_request<'a>(matches: &ArgMatches<'a>, observed: Observed<'a>) -> RacesRequest<'a>
    requires given { GivesRaces (found_of matches.now) }
    requires observed { IsObserved (first_of (codes "observe") (rows_of (found_of matches.now))) observed }
    ensures { IsRacesOf (rows_of (found_of matches.now)) result }
{
    RacesRequest {
        file: given_word(matches, "FILE"),
        search_options: search_options(matches),
        observed,
        journals: given_text(matches, "journals"),
    }
}

/// The check that the words of `check` ask for: of which source.
pub fn check_request<'a>(matches: &ArgMatches<'a>) -> CheckRequest<'a>
    requires { GivesCheck (found_of matches.now) }
    ensures { IsCheckOf (rows_of (found_of matches.now)) result }
{
    CheckRequest {
        file: given_word(matches, "FILE"),
        all: given_flag(matches, "all"),
    }
}

/// What the words of `flatten` ask for: of which source, and where its text is written, if that is given.
pub fn flatten_request<'a>(matches: &ArgMatches<'a>) -> FlattenRequest<'a>
    requires { GivesFlatten (found_of matches.now) }
    ensures { IsFlattenOf (rows_of (found_of matches.now)) result }
{
    FlattenRequest {
        file: given_word(matches, "FILE"),
        out: given_text(matches, "out"),
    }
}

/// Where a journal is told from its begin.
const FIRST_ENTRY: u32 = 1;

/// So by its times.
const FIRST_TIME: u64 = 0;

/// The explanation that the words of `explain` ask for: from which entry and which time on, and up to which, if that is given, in which
/// digits, whether with versions, and of which registers alone, if any are given.
pub fn explain_request<'a>(matches: &ArgMatches<'a>) -> ExplainRequest<'a>
    requires given { GivesExplain (found_of matches.now) }
    requires some { tells_no_entry (rows_of (found_of matches.now)) ≡ false }
    requires some_time { tells_no_time (rows_of (found_of matches.now)) ≡ false }
    ensures { IsExplainOf (rows_of (found_of matches.now)) result }
{
    ExplainRequest {
        file: given_word(matches, "FILE"),
        journal: given_word(matches, "JOURNAL"),
        from: given_count(matches, "from", FIRST_ENTRY),
        to: given_number(matches, "to"),
        from_time: given_first_time(matches),
        to_time: given_time(matches, "to-time"),
        radix: given_radix(matches),
        versions: given_flag(matches, "versions"),
        registers: given_text(matches, "registers"),
    }
}

/// Whether the first entry that is to be told stands behind the last one.
pub fn tells_no_entry(matches: &ArgMatches<'_>) -> bool
    requires { GivesExplain (found_of matches.now) }
    ensures { result ≡ tells_no_entry (rows_of (found_of matches.now)) }
{
    let from = given_count(matches, "from", FIRST_ENTRY);
    is_behind(from, given_number(matches, "to"))
}

/// Whether the first time that is to be told comes behind the last one.
pub fn tells_no_time(matches: &ArgMatches<'_>) -> bool
    requires { GivesExplain (found_of matches.now) }
    ensures { result ≡ tells_no_time (rows_of (found_of matches.now)) }
{
    let from = given_first_time(matches);
    is_time_behind(from, given_time(matches, "to-time"))
}

/// Whether a time comes behind another one, if that is given.
fn is_time_behind(from: u64, to: Option<u64>) -> bool
    ensures { result ≡ is_behind from to }
{
    match to {
        Some(to) => to < from,
        None => false,
    }
}

/// Whether an entry stands behind another one, if that is given.
fn is_behind(from: u32, to: Option<u32>) -> bool
    ensures { result ≡ is_behind from to }
{
    match to {
        Some(to) => to < from,
        None => false,
    }
}

/// The dump that the words of `waves` ask for: of which journal, on which source, and where it is written.
pub fn waves_request<'a>(matches: &ArgMatches<'a>) -> WavesRequest<'a>
    requires { GivesWaves (found_of matches.now) }
    ensures { IsWavesOf (rows_of (found_of matches.now)) result }
{
    WavesRequest {
        file: given_word(matches, "FILE"),
        journal: given_word(matches, "JOURNAL"),
        out: given_word(matches, "out"),
    }
}

/// The comparison that the words of `diff` ask for: of which journals, on which source, and whether of all times.
pub fn diff_request<'a>(matches: &ArgMatches<'a>) -> DiffRequest<'a>
    requires { GivesDiff (found_of matches.now) }
    ensures { IsDiffOf (rows_of (found_of matches.now)) result }
{
    DiffRequest {
        file: given_word(matches, "FILE"),
        first: given_word(matches, "J1"),
        second: given_word(matches, "J2"),
        all_times: given_flag(matches, "all"),
    }
}

/// The text that is given under a name, if one is.
fn given_text<'a>(matches: &ArgMatches<'a>, name: &str) -> Option<&'a str>
    ensures { first_of name.now (rows_of (found_of matches.now)) ≡ option_map (λ text. text.now) result }
{
    matches.get_str(name)
}

/// The word that is given under a name, where one has to be.
fn given_word<'a>(matches: &ArgMatches<'a>, name: &str) -> &'a str
    requires { is_some (first_value (found_of matches.now) name.now) ≡ true }
    ensures { first_of name.now (rows_of (found_of matches.now)) ≡ Some result.now }
{
    matches.get_str(name).unwrap()
}

/// Whether both a seed and a number of workers are given.
pub fn gives_two_orders(matches: &ArgMatches<'_>) -> bool
    ensures { result ≡ has_two_orders (rows_of (found_of matches.now)) }
{
    gives(matches, "seed") & gives(matches, "workers")
}

/// Whether something is given under this name.
fn gives(matches: &ArgMatches<'_>, name: &str) -> bool
    ensures { result ≡ is_some (first_of name.now (rows_of (found_of matches.now))) }
{
    match given_text(matches, name) {
        Some(_) => true,
        None => false,
    }
}

/// Whether an option without a value is given.
fn given_flag(matches: &ArgMatches<'_>, name: &str) -> bool
    requires { IsGivenArgument (found_of matches.now) name.now flag_parser }
    ensures { result ≡ flag_given name.now (rows_of (found_of matches.now)) }
{
    matches.get_flag(name)
}

/// How many workers take a run, and its limits: the defaults where none are given, and no limit of time.
fn options(matches: &ArgMatches<'_>) -> RunOptions
    requires { GivesRun (found_of matches.now) }
    ensures fit { CanRun result }
    ensures given { result ≡ options_of (rows_of (found_of matches.now)) }
{
    RunOptions {
        workers: given_workers(matches),
        until: given_until(matches),
        max_entries: given_count(matches, "max-entries", DEFAULT_RUN.max_entries),
    }
}

/// The limits of the runs of a search and its bounds, with the defaults of those that aren't given, and how many random orders are tried in
/// its place, if any are.
fn search_options(matches: &ArgMatches<'_>) -> SearchOptions
    requires { GivesRaces (found_of matches.now) }
    ensures given { result ≡ search_options_of (rows_of (found_of matches.now)) }
    ensures fit { CanSearch result }
{
    SearchOptions {
        until: given_until(matches),
        max_entries: given_count(matches, "max-entries", DEFAULT_SEARCH.max_entries),
        max_states: given_count(matches, "max-states", DEFAULT_SEARCH.max_states),
        max_texts: at_least_two(given_count(matches, "max-texts", DEFAULT_SEARCH.max_texts)),
        max_memory: given_count(matches, "max-memory", DEFAULT_SEARCH.max_memory),
        samples: given_number(matches, "samples"),
        seed: given_seed(matches).unwrap_or(DEFAULT_SEARCH.seed),
    }
}

/// A number, or two where it is less: so many texts a race has.
fn at_least_two(number: u32) -> u32
    ensures least { 2 ≤ result }
    ensures is { result ≡ at_least_two number }
{
    if number < 2 { 2 } else { number }
}

fn given_workers(matches: &ArgMatches<'_>) -> u32
    requires { IsGivenArgument (found_of matches.now) (codes "workers") workers_parser }
    ensures least { 1 ≤ result }
    ensures most { result ≤ 16 }
    ensures given { result ≡ unwrap_or (number_given (codes "workers") (rows_of (found_of matches.now))) 2 }
{
    matches
        .get_one::<u32>("workers")
        .unwrap_or(DEFAULT_RUN.workers)
}

fn given_until(matches: &ArgMatches<'_>) -> Option<u64>
    requires { IsGivenArgument (found_of matches.now) (codes "until") until_parser }
    ensures last { IfSome result (λ t. t ≤ last_time) }
    ensures given { result ≡ number_given (codes "until") (rows_of (found_of matches.now)) }
{
    matches.get_one::<u64>("until")
}

/// The first time that is told: 0 where none is given.
fn given_first_time(matches: &ArgMatches<'_>) -> u64
    requires { IsGivenArgument (found_of matches.now) (codes "from-time") until_parser }
    ensures { result ≡ unwrap_or (number_given (codes "from-time") (rows_of (found_of matches.now))) 0 }
{
    given_time(matches, "from-time").unwrap_or(FIRST_TIME)
}

/// The time that is given under this name.
fn given_time(matches: &ArgMatches<'_>, name: &str) -> Option<u64>
    requires { IsGivenArgument (found_of matches.now) name.now until_parser }
    ensures { result ≡ number_given name.now (rows_of (found_of matches.now)) }
{
    matches.get_one::<u64>(name)
}

/// In which digits values are told: binary ones where none are given.
fn given_radix(matches: &ArgMatches<'_>) -> Radix
    ensures { result ≡ radix_given (rows_of (found_of matches.now)) }
{
    match given_text(matches, "radix") {
        Some(letter) => radix_of(letter),
        None => Radix::Binary,
    }
}

/// Whether a letter is given that stands for no digits.
pub fn has_no_radix(matches: &ArgMatches<'_>) -> bool
    ensures { result ≡ true → HasNoRadix (first_of (codes "radix") (rows_of (found_of matches.now))) }
{
    match given_text(matches, "radix") {
        Some(letter) => stands_for_none(letter),
        None => false,
    }
}

/// Whether a letter stands for no digits.
fn stands_for_none(letter: &str) -> bool
    ensures { result ≡ true → HasNoRadix (Some letter.now) }
{
    if letter == "b" {
        return false;
    }
    if letter == "d" {
        return false;
    }
    letter != "h"
}

/// The digits that a letter stands for, binary ones where it is no other.
fn radix_of(letter: &str) -> Radix
    ensures { result ≡ radix_of letter.now }
{
    if letter == "d" {
        Radix::Decimal
    } else if letter == "h" {
        Radix::Hex
    } else {
        Radix::Binary
    }
}

fn given_seed(matches: &ArgMatches<'_>) -> Option<u64>
    requires { IsGivenArgument (found_of matches.now) (codes "seed") seed_parser }
    ensures { result ≡ number_given (codes "seed") (rows_of (found_of matches.now)) }
{
    matches.get_one::<u64>("seed")
}

/// The number that is given under this name, from 1 on, or this one.
fn given_count(matches: &ArgMatches<'_>, name: &str, default: u32) -> u32
    requires given { IsGivenArgument (found_of matches.now) name.now entries_parser }
    requires some { 1 ≤ default }
    ensures least { 1 ≤ result }
    ensures given { result ≡ unwrap_or (number_given name.now (rows_of (found_of matches.now))) default }
{
    given_number(matches, name).unwrap_or(default)
}

fn given_number(matches: &ArgMatches<'_>, name: &str) -> Option<u32>
    requires { IsGivenArgument (found_of matches.now) name.now entries_parser }
    ensures least { IfSome result (λ n. 1 ≤ n) }
    ensures given { result ≡ number_given name.now (rows_of (found_of matches.now)) }
{
    matches.get_one::<u32>(name)
}
