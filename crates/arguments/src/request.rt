//! What the words of a command line ask for, or why they ask for nothing.

ghost use Rattle.arguments.specs.Options.{CanRun, CanSearch};

use crate::observed::Observed;
use crate::run_options::RunOptions;
use crate::search_options::SearchOptions;
use literals::Radix;

/// What the program was asked to do.
#[derive(Drop)]
pub enum Request<'a> {
    Run(RunRequest<'a>),
    Replay(ReplayRequest<'a>),
    Races(RacesRequest<'a>),
    Check(CheckRequest<'a>),
    Explain(ExplainRequest<'a>),
    Waves(WavesRequest<'a>),
    Diff(DiffRequest<'a>),
    Flatten(FlattenRequest<'a>),
    Version,
}

/// `run FILE`, by a seed where one is given and else on workers, with a path for the journal where one is wanted.
#[derive(Drop)]
pub struct RunRequest<'a> {
    pub file: &'a str,
    pub options: RunOptions,
    pub seed: Option<u64>,
    pub journal: Option<&'a str>,
    ghost fit: { CanRun options },
}

/// `replay FILE JOURNAL`.
#[derive(Drop)]
pub struct ReplayRequest<'a> {
    pub file: &'a str,
    pub journal: &'a str,
}

/// `races FILE`, with what is compared of the runs, and the beginning of the paths of the journals where they are wanted.
#[derive(Drop)]
pub struct RacesRequest<'a> {
    pub file: &'a str,
    pub search_options: SearchOptions,
    pub observed: Observed<'a>,
    pub journals: Option<&'a str>,
    ghost fit: { CanSearch search_options },
}

/// `check FILE`, of each note at each of its places or of each kind once.
#[derive(Drop)]
pub struct CheckRequest<'a> {
    pub file: &'a str,
    pub all: bool,
}

/// `explain FILE JOURNAL`, of the entries from one number to another, which are counted from 1, and from one time to another; in which digits
/// values are told, and whether the versions of reads are; and of which registers alone, by their names, between which commas stand, where any
/// are given.
#[derive(Drop)]
pub struct ExplainRequest<'a> {
    pub file: &'a str,
    pub journal: &'a str,
    pub from: u32,
    pub to: Option<u32>,
    pub from_time: u64,
    pub to_time: Option<u64>,
    pub radix: Radix,
    pub versions: bool,
    pub registers: Option<&'a str>,
}

/// `waves FILE JOURNAL`, with the path of the value change dump.
#[derive(Drop)]
pub struct WavesRequest<'a> {
    pub file: &'a str,
    pub journal: &'a str,
    pub out: &'a str,
}

/// `diff FILE J1 J2`, of each register that differs at each time or at its first alone.
#[derive(Drop)]
pub struct DiffRequest<'a> {
    pub file: &'a str,
    pub first: &'a str,
    pub second: &'a str,
    pub all_times: bool,
}

/// `flatten FILE`, with a path for the text where one is given.
#[derive(Drop)]
pub struct FlattenRequest<'a> {
    pub file: &'a str,
    pub out: Option<&'a str>,
}

/// Why there is no request: help was asked for, the words are wrong, or memory was refused. A text
/// is what `clap` says.
#[derive(Drop)]
pub enum NoRequest {
    Help(String),
    Usage(String),
    Memory,
}
