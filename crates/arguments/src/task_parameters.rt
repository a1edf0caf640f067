//! Which words and options each command takes.

ghost use Rattle.std.specs.Prelude.{◌≡◌};
ghost use Rattle.arguments.specs.Arguments.{parameters_of};

use crate::command_task::CommandTask;
use crate::parameters::Parameter;
use crate::parameters::Parameter::{
    All, AllTimes, File, FirstJournal, FlatOut, From, FromTime, Journal, JournalTo, JournalsTo,
    MaxEntries, MaxMemory, MaxStates, MaxTexts, Observe, Out, Radix, Registers, Samples,
    SecondJournal, Seed, To, ToTime, Until, Versions, Workers,
};

/// What the command of a task takes, in the order in which help shows it.
pub fn parameters(task: CommandTask) -> &'static [Parameter]
    ensures { result.now ≡ parameters_of task }
{
    match task {
        CommandTask::Run => &[File, Workers, Until, MaxEntries, JournalTo, Seed],
        CommandTask::Replay => &[File, Journal],
        CommandTask::Races => &[
            File, Until, MaxEntries, MaxStates, MaxTexts, MaxMemory, JournalsTo, Samples, Seed,
            Observe,
        ],
        CommandTask::Check => &[File, All],
        CommandTask::Explain => &[
            File, Journal, From, To, FromTime, ToTime, Radix, Versions, Registers,
        ],
        CommandTask::Waves => &[File, Journal, Out],
        CommandTask::Diff => &[File, FirstJournal, SecondJournal, AllTimes],
        CommandTask::Flatten => &[File, FlatOut],
    }
}
