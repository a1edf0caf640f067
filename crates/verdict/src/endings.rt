//! The line on how the runs of texts or waves end.

ghost use Rattle.std.specs.Prelude.{◌≡◌, ◌++◌, OnOk};
ghost use Rattle.verdict.specs.EndingLines.{cut_at_text, cut_head, cut_runs_text, cut_time_text, ended_runs_text, endings_text};

use crate::phrases::push_number;
use std::alloc::AllocError;

/// How runs end that come to an end: by which of these some do.
#[derive(Clone, Copy)]
pub struct RunEndings {
    /// By `$finish` (17.4.1).
    pub finish: bool,
    /// With no event left.
    pub quiet: bool,
    /// At the limit of time, where they are cut.
    pub cut: bool,
}

/// Puts behind a text that some runs are cut, or how each of them ends, by whether some stop short.
pub(crate) fn push_endings(
    text: &mut Vec<u8>,
    endings: RunEndings,
    short: bool,
    until: Option<u64>,
) -> Result<(), AllocError>
    ensures { OnOk result (text.new.items ≡ text.old.items ++ endings_text endings short until) }
{
    if endings.cut {
        return push_cut_runs(text, endings.finish | (endings.quiet | short), until);
    }
    if short {
        return Ok(());
    }
    text.extend_from_slice(ended_runs(endings.finish, endings.quiet))
}

/// Puts behind a text that runs are cut at the limit of time, where others aren't, or where each is.
fn push_cut_runs(text: &mut Vec<u8>, others: bool, until: Option<u64>) -> Result<(), AllocError>
    ensures { OnOk result (text.new.items ≡ text.old.items ++ cut_runs_text others until) }
{
    text.extend_from_slice(cut_head(others))?;
    push_cut_at(text, until)?;
    text.extend_from_slice(b")\n")
}

/// That runs are cut, where others aren't, or where each is.
fn cut_head(others: bool) -> &'static [u8]
    ensures { result.now ≡ cut_head others }
{
    match others {
        true => b"(some of these runs are cut",
        false => b"(each of these runs is cut",
    }
}

/// Puts behind a text at which time, if there is a limit.
fn push_cut_at(text: &mut Vec<u8>, until: Option<u64>) -> Result<(), AllocError>
    ensures { OnOk result (text.new.items ≡ text.old.items ++ cut_at_text until) }
{
    match until {
        Some(time) => push_cut_time(text, time),
        None => Ok(()),
    }
}

/// Puts behind a text that it is at this time.
fn push_cut_time(text: &mut Vec<u8>, time: u64) -> Result<(), AllocError>
    ensures { OnOk result (text.new.items ≡ text.old.items ++ cut_time_text time) }
{
    text.extend_from_slice(b" at time ")?;
    push_number(text, time)
}

/// How runs end of which none is cut, where each ends so: by whether some do by `$finish`, and some with no event left.
fn ended_runs(finish: bool, quiet: bool) -> &'static [u8]
    ensures { result.now ≡ ended_runs_text finish quiet }
{
    match (finish, quiet) {
        (true, true) => b"",
        (true, false) => b"(each of these runs ends by $finish)\n",
        (false, true) => b"(each of these runs ends with no event left)\n",
        (false, false) => b"",
    }
}
