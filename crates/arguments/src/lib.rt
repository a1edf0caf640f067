//! The command line: from its words to what is asked, or to why nothing is.
//!
//! 1. `request` is what may be asked. `run_options` and `search_options` say how a design is run, and how far its orders are searched,
//!    and `observed` what is compared of its runs.
//! 2. `parameters` has the words and options as `clap` knows them, `task_parameters` which of them each command takes, and `commands`
//!    the commands, as `clap` knows them.
//! 3. `given` makes a request of what `clap` finds in the words, `vain_words` says of which it makes none, and `parsing` finds the `command_task` that the word after the
//!    program's name asks for, and reads its words.
//!
//! 4. `verilog_words` takes the words that ask for a whole design out of a command line, before the rest is read; `said_words` goes through
//!    them one after another.
//!
//! What the layer above uses: `split_words`, and `read_request`. The options of its request are those of the words, and proved to be in range.
//! No crate above calls `clap`, since a check that sees its calls takes long.
#![tactic(auto)]

mod command_task;
mod commands;
mod given;
mod observed;
mod parameters;
mod parsing;
mod request;
mod run_options;
mod said_words;
mod search_options;
mod task_parameters;
mod vain_words;
mod verilog_words;
mod version;

pub use observed::Observed;
pub use parsing::read_request;
pub use request::{
    CheckRequest, DiffRequest, ExplainRequest, FlattenRequest, NoRequest, RacesRequest,
    ReplayRequest, Request, RunRequest, WavesRequest,
};
pub use run_options::RunOptions;
pub use search_options::SearchOptions;
pub use verilog_words::{DesignWords, NamedWord, SplitWords, split_words};
pub use version::VERSION;
