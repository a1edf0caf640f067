//! How a command ended.

ghost use Rattle.std.specs.Prelude.{◌≡◌};
ghost use Rattle.telling.specs.FaultLines.{Tells};
ghost use Rattle.program.specs.ProgramLines.{fault_line};
ghost use Rattle.program.specs.Program.{compared_ending, ending_status, ended_status, ending_of, status_of};
ghost use Rattle.program.specs.StandardError.{IsEndTold, IsEndingTold, IsFindingTold};

use crate::fault::{CommandFault, Stop};
use crate::finding::SearchFinding;
use crate::lines::{fault_line, no_register_line, stop_line};
use crate::register_option::RegisterOption;
use journal::Counted;
use std::io::Write;
use telling::{tell, tell_text};

/// A command did what was asked, or its run was stopped, or its search found this, or this is wrong with the source that it
/// checked, or no register has a name that it was asked for, or the journals that it compared differ.
#[derive(Drop)]
pub enum Ending {
    Done,
    Stopped(Stop),
    Found(SearchFinding),
    Wrong(String),
    NoRegister(String),
    Differ,
}

impl Ending {
    /// How a run ended of which this is told.
    pub fn of_run(told: Option<Stop>) -> Ending
        ensures { result ≡ ending_of told }
    {
        match told {
            Some(stop) => Ending::Stopped(stop),
            None => Ending::Done,
        }
    }

    /// How a comparison ended, by whether the journals are the same.
    pub fn of_comparison(same: bool) -> Ending
        ensures { result ≡ compared_ending same }
    {
        match same {
            true => Ending::Done,
            false => Ending::Differ,
        }
    }

    /// The exit status.
    fn status(&self) -> u8
        ensures { result ≡ ending_status self.now }
    {
        match self {
            Ending::Done => 0,
            Ending::Stopped(stop) => stop.status(),
            Ending::Found(finding) => finding.status(),
            Ending::Wrong(_) => 3,
            Ending::NoRegister(_) => 2,
            Ending::Differ => 7,
        }
    }
}

/// Tells what is to be told of how a command ended, and answers the status. The option is that by which the command names registers.
pub fn finish<E: Write>(
    ended: Result<Ending, CommandFault<'_>>,
    option: RegisterOption,
    err: &mut Counted<E>,
) -> u8
    ensures status { result ≡ ended_status ended.entry }
    ensures told { IsEndTold E.contents err.old err.new option ended.entry }
{
    match ended {
        Ok(ending) => {
            tell_ending(&ending, option, err);
            ending.status()
        }
        Err(fault) => tell_fault(fault, err),
    }
}

/// Tells a stop, want of memory in a search, what is wrong with a source, or a name that no register has with the option that gave it, and
/// nothing of any other ending.
fn tell_ending<E: Write>(ending: &Ending, option: RegisterOption, err: &mut Counted<E>)
    ensures { IsEndingTold E.contents err.old err.new option ending.now }
{
    match ending {
        Ending::Done | Ending::Differ => {}
        Ending::Found(found) => tell_finding(*found, err),
        Ending::Stopped(stop) => tell(err, &stop_line(*stop)),
        Ending::Wrong(text) => tell_text(err, text.as_str()),
        Ending::NoRegister(name) => tell(err, &no_register_line(option, name.as_str())),
    }
}

/// Tells that memory was refused to a search, where it has come to that.
fn tell_finding<E: Write>(found: SearchFinding, err: &mut Counted<E>)
    ensures { IsFindingTold E.contents err.old err.new found }
{
    match found {
        SearchFinding::Memory => tell(err, &fault_line(&CommandFault::Memory)),
        SearchFinding::One | SearchFinding::Unfinished | SearchFinding::Several => {}
    }
}

/// Tells a fault, and answers its status.
pub fn tell_fault<E: Write>(fault: CommandFault<'_>, err: &mut Counted<E>) -> u8
    ensures status { result ≡ status_of fault.entry }
    ensures told { Tells E.contents err.old err.new (fault_line fault.entry) }
{
    tell(err, &fault_line(&fault));
    fault.status()
}
