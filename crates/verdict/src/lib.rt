//! What is told of a search of all lawful orders: the texts that it found and the races that were named, in lines.
//!
//! 1. `claim` is what a search has come to: all lawful runs were followed, it stopped, or random orders were tried.
//! 2. `verdict` puts into words how many texts there are and what that means for other runs. `phrases` has its parts, `endings` says how the runs end, and
//!    `stops` whose runs stop short.
//! 3. `race` puts a race into lines, or says that none was found between two texts, `difference` finds the first line in which the texts of its two runs differ, `order` says
//!    which processes print their lines in another order in another run, and `cut` by what a list of races was cut.
//!    `unseen` names registers whose values differ where no line shows it, and `reach` says how far in time a search came that met a limit.
//!    `parts` puts lines together of their parts.
//! 4. `waves` says the same of waves: of what runs have in common where more or less than their lines, in order, is compared.
//!
//! What the layer above uses: `push_verdict`, `push_race`, `push_line_order`, `push_unnamed`, `push_cut`, `push_followed`, `push_choices`, `push_raced_pair`, `push_unseen_line`, `push_wave` and `push_wave_verdict`, whose texts are pinned whole by
//! `specs/Verdicts`, `specs/RaceLines`, `specs/OrderLines`, `specs/CutLines`, `specs/ReachLines`, `specs/UnseenLines`, `specs/StopLines`, `specs/EndingLines` and `specs/WaveLines`, and `first_difference` and `line_length` (`specs/VerdictLines`).
#![tactic(auto)]

mod claim;
mod cut;
mod difference;
mod endings;
mod order;
mod parts;
mod phrases;
mod race;
mod reach;
mod stops;
mod unseen;
mod verdict;
mod waves;

pub use claim::{Claim, SampledOrders, SearchStop};
pub use cut::{ListCut, push_cut};
pub use difference::{Difference, first_difference, line_length};
pub use endings::RunEndings;
pub use order::{LineOrderDescription, PrinterDescription, push_line_order};
pub use race::{
    ProcessDescription, RaceDescription, RoleDescription, RunDescription, SiteDescription,
    push_line, push_race, push_unnamed,
};
pub use reach::{push_choices, push_followed};
pub use stops::{StopCause, StopDescription};
pub use unseen::{push_raced_pair, push_unseen_line};
pub use verdict::{Verdict, push_verdict};
pub use waves::{WaveDescription, WaveSite, WaveVerdict, push_wave, push_wave_verdict};
