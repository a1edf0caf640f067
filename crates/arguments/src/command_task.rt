//! The tasks of the program, each of which one word asks for.

ghost use Rattle.std.specs.Prelude.{◌≡◌};
ghost use Rattle.arguments.specs.CommandWords.{every_task, word_of_task};

/// What the word after the program's name may ask for, besides the program's version.
#[derive(Clone, Copy)]
pub enum CommandTask {
    Run,
    Replay,
    Races,
    Check,
    Explain,
    Waves,
    Diff,
    Flatten,
}

impl CommandTask {
    /// All tasks, in the order in which help shows them.
    pub fn every() -> &'static [CommandTask]
        ensures { result.now ≡ every_task }
    {
        &[
            CommandTask::Run,
            CommandTask::Replay,
            CommandTask::Races,
            CommandTask::Check,
            CommandTask::Explain,
            CommandTask::Waves,
            CommandTask::Diff,
            CommandTask::Flatten,
        ]
    }

    /// The word that asks for it.
    pub fn word<'a>(self) -> &'a str
        ensures { result.now ≡ word_of_task self }
    {
        match self {
            CommandTask::Run => "run",
            CommandTask::Replay => "replay",
            CommandTask::Races => "races",
            CommandTask::Check => "check",
            CommandTask::Explain => "explain",
            CommandTask::Waves => "waves",
            CommandTask::Diff => "diff",
            CommandTask::Flatten => "flatten",
        }
    }

    /// What help calls it.
    pub fn title<'a>(self) -> &'a str {
        match self {
            CommandTask::Run => "vsimtx run",
            CommandTask::Replay => "vsimtx replay",
            CommandTask::Races => "vsimtx races",
            CommandTask::Check => "vsimtx check",
            CommandTask::Explain => "vsimtx explain",
            CommandTask::Waves => "vsimtx waves",
            CommandTask::Diff => "vsimtx diff",
            CommandTask::Flatten => "vsimtx flatten",
        }
    }

    /// What help says of it.
    pub fn about<'a>(self) -> &'a str {
        match self {
            CommandTask::Run => "Simulates FILE and prints its lines",
            CommandTask::Replay => "Replays JOURNAL on FILE and prints its lines",
            CommandTask::Races =>
                "Searches the lawful orders of FILE and shows where its runs differ",
            CommandTask::Check => "Reads FILE and tells what is wrong with it",
            CommandTask::Explain => "Tells the entries of JOURNAL on FILE in words",
            CommandTask::Waves => {
                "Writes the registers of JOURNAL on FILE over time as a value change dump"
            }
            CommandTask::Diff => "Shows where two journals of FILE part, and what differs",
            CommandTask::Flatten => "Prints the flat module of a whole design of one FILE or more",
        }
    }
}
