//! How the runs of the texts that were found end: by `$finish`, with no event left, or at the limit of time.

ghost use Rattle.std.specs.Prelude.{◌≡◌};
ghost use Rattle.std.specs.List.{list_any};
ghost use Rattle.program.specs.Findings.{endings_of, ends_at_limit, ends_by_finish, ends_quiet, is_finish, is_until};

use explore::Shown;
use model::end::{End, Why};
use model::entry::Entry;
use verdict::RunEndings;

/// Whether a run was stopped by `$finish`.
fn is_finish(why: Why) -> bool
    ensures { result ≡ is_finish why }
{
    match why {
        Why::Finish => true,
        Why::Until | Why::Entries | Why::TooLong(_) | Why::Time | Why::Memory => false,
    }
}

/// Whether a run was stopped by the limit of time.
fn is_until(why: Why) -> bool
    ensures { result ≡ is_until why }
{
    match why {
        Why::Until => true,
        Why::Finish | Why::Entries | Why::TooLong(_) | Why::Time | Why::Memory => false,
    }
}

/// Whether a run with this end ends by `$finish`.
fn ends_by_finish(end: End) -> bool
    ensures { result ≡ ends_by_finish end }
{
    match end {
        End::Quiet => false,
        End::Running => false,
        End::Stopped(why) => is_finish(why),
    }
}

/// Whether a run with this end has no event left.
fn ends_quiet(end: End) -> bool
    ensures { result ≡ ends_quiet end }
{
    match end {
        End::Quiet => true,
        End::Running => false,
        End::Stopped(_) => false,
    }
}

/// Whether a run with this end is cut at the limit of time.
fn ends_at_limit(end: End) -> bool
    ensures { result ≡ ends_at_limit end }
{
    match end {
        End::Quiet => false,
        End::Running => false,
        End::Stopped(why) => is_until(why),
    }
}

/// Whether the run of one of these texts ends by `$finish`.
fn some_finish(shown: &[Shown<Entry, End>]) -> bool
    ensures { result ≡ list_any (λ s. ends_by_finish s.end) shown.now }
{
    shown.iter().any(|one| ends_by_finish(one.end))
}

/// Whether the run of one of these texts has no event left.
fn some_quiet(shown: &[Shown<Entry, End>]) -> bool
    ensures { result ≡ list_any (λ s. ends_quiet s.end) shown.now }
{
    shown.iter().any(|one| ends_quiet(one.end))
}

/// Whether the run of one of these texts is cut at the limit of time.
fn some_cut(shown: &[Shown<Entry, End>]) -> bool
    ensures { result ≡ list_any (λ s. ends_at_limit s.end) shown.now }
{
    shown.iter().any(|one| ends_at_limit(one.end))
}

/// How the runs of these texts end: by which of these some do.
pub(crate) fn endings_of(shown: &[Shown<Entry, End>]) -> RunEndings
    ensures { result ≡ endings_of shown.now }
{
    RunEndings {
        finish: some_finish(shown),
        quiet: some_quiet(shown),
        cut: some_cut(shown),
    }
}
