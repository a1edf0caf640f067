//! Words that `clap` takes, and that ask for nothing that can be.

ghost use Rattle.std.specs.Prelude.{◌≡◌};
ghost use Rattle.arguments.specs.CommandWords.{kind_in_vain};

use crate::command_task::CommandTask;
use clap::error::ErrorKind;

/// Why words of a task, which `clap` takes, are answered by an error still.
#[derive(Clone, Copy)]
pub enum VainWords {
    /// They give a seed beside a number of workers.
    TwoOrders,
    /// They ask to observe nothing that can be.
    NothingObserved,
    /// They ask for random orders, and to observe something else than lines.
    SamplesObserved,
    /// They give a letter that stands for no digits.
    NoRadix,
    /// They ask for the entries from one on, and up to one before it.
    NoEntries,
    /// They ask for the entries from one time on, and up to one before it.
    NoTimes,
}

impl VainWords {
    /// The task that they ask for.
    pub fn task(self) -> CommandTask {
        match self {
            VainWords::TwoOrders => CommandTask::Run,
            VainWords::NothingObserved | VainWords::SamplesObserved => CommandTask::Races,
            VainWords::NoRadix | VainWords::NoEntries | VainWords::NoTimes => {
                CommandTask::Explain
            }
        }
    }

    /// The kind of the error.
    pub fn kind(self) -> ErrorKind
        ensures { result ≡ kind_in_vain self }
    {
        match self {
            VainWords::TwoOrders | VainWords::SamplesObserved => ErrorKind::ArgumentConflict,
            VainWords::NothingObserved
            | VainWords::NoRadix
            | VainWords::NoEntries
            | VainWords::NoTimes => ErrorKind::InvalidValue,
        }
    }

    /// What is said of them.
    pub fn text<'a>(self) -> &'a str {
        match self {
            VainWords::TwoOrders => {
                "the argument '--seed <S>' cannot be used with '--workers <N>'"
            }
            VainWords::NothingObserved => {
                "the argument '--observe <WHAT>' takes lines, lines-at-times, registers or registers=A,B"
            }
            VainWords::SamplesObserved => {
                "the argument '--samples <N>' cannot be used with '--observe <WHAT>', but for lines"
            }
            VainWords::NoRadix => "the argument '--radix <R>' takes b, d or h",
            VainWords::NoEntries => {
                "the argument '--to <N>' takes no number below that of '--from <N>'"
            }
            VainWords::NoTimes => {
                "the argument '--to-time <T>' takes no time before that of '--from-time <T>'"
            }
        }
    }
}
