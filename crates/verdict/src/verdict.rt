//! The lines on the texts that were found.

ghost use Rattle.std.specs.Prelude.{◌≡◌, ◌++◌, OnOk, codes, option_map};
ghost use Rattle.verdict.specs.StopLines.{stops_text};
ghost use Rattle.verdict.specs.Verdicts.{asked_text, claim_text, endless_text, every_or_none, fewer_text, many_every, next_step_text, none_every, one_of_them, one_every, open_text, raise_head, raise_text, random_orders_text, run_prints, run_that_ends, sampled_text, so_far_text, verdict_text};

use crate::claim::{Claim, SampledOrders, SearchStop};
use crate::endings::{RunEndings, push_endings};
use crate::parts::{LinePart, push_parts};
use crate::phrases::{
    push_count, push_number, push_states, push_stop, push_stop_phrase, push_these_lines,
};
use crate::stops::{StopDescription, has_stops, push_stops};
use std::alloc::AllocError;

/// The texts that were found, and what they are among those of all lawful runs.
#[derive(Clone, Copy)]
pub struct Verdict<'a> {
    pub claim: Claim,
    /// The last time of the runs, if there is one.
    pub until: Option<u64>,
    /// How many texts with their ends were found.
    pub count: usize,
    /// Whether some of them end in different ways.
    pub ends: bool,
    /// How the runs of the texts end.
    pub endings: RunEndings,
    /// The first text, if there is one.
    pub first: &'a [u8],
    /// Those of the texts whose runs stop short.
    pub stops: &'a [StopDescription],
    /// The path that journals begin with, where they are saved.
    pub prefix: Option<&'a str>,
}

/// Puts the verdict behind a text. Where there is one text and no other is possible, that text is the end of it.
pub fn push_verdict(text: &mut Vec<u8>, verdict: &Verdict<'_>) -> Result<(), AllocError>
    ensures { OnOk result (text.new.items ≡ text.old.items ++ verdict_text verdict.entry.now.claim verdict.entry.now.until verdict.entry.now.count verdict.entry.now.ends verdict.entry.now.endings verdict.entry.now.first.now verdict.entry.now.stops.now (option_map (λ path. path.now) verdict.entry.now.prefix)) }
{
    push_count(text, verdict.count, verdict.ends)?;
    push_claim(text, verdict)
}

/// What the texts are among those of all lawful runs, behind their number.
fn push_claim(text: &mut Vec<u8>, verdict: &Verdict<'_>) -> Result<(), AllocError>
    ensures { OnOk result (text.new.items ≡ text.old.items ++ claim_text verdict.entry.now.claim verdict.entry.now.until verdict.entry.now.count verdict.entry.now.ends verdict.entry.now.endings verdict.entry.now.first.now verdict.entry.now.stops.now (option_map (λ path. path.now) verdict.entry.now.prefix)) }
{
    match verdict.claim {
        Claim::Every { states, endless } => match verdict.count {
            0 => push_none(text, verdict.until, endless, verdict.prefix),
            1 => push_one(text, verdict, states, endless),
            _ => push_many(text, verdict, b"text ", endless),
        },
        Claim::SoFar(stop) => push_stopped_search(text, verdict, stop),
        Claim::Sampled(orders) => push_samples(text, verdict, orders),
    }
}

/// That there may be other texts, and why, and whose runs stop short.
fn push_stopped_search(
    text: &mut Vec<u8>,
    verdict: &Verdict<'_>,
    stop: SearchStop,
) -> Result<(), AllocError>
    ensures { OnOk result (text.new.items ≡ text.old.items ++ (so_far_text stop verdict.entry.now.count ++ stops_text (codes "text ") (option_map (λ path. path.now) verdict.entry.now.prefix) verdict.entry.now.stops.now)) }
{
    push_so_far(text, stop, verdict.count)?;
    push_stops(text, b"text ", verdict.prefix, verdict.stops)
}

/// That the texts are those of random orders, and whose runs stop short.
fn push_samples(
    text: &mut Vec<u8>,
    verdict: &Verdict<'_>,
    orders: SampledOrders,
) -> Result<(), AllocError>
    ensures { OnOk result (text.new.items ≡ text.old.items ++ (sampled_text orders ++ stops_text (codes "text ") (option_map (λ path. path.now) verdict.entry.now.prefix) verdict.entry.now.stops.now)) }
{
    push_sampled(text, orders)?;
    push_stops(text, b"text ", verdict.prefix, verdict.stops)
}

/// That there may be other texts, why, and what may be done.
pub(crate) fn push_so_far(
    text: &mut Vec<u8>,
    stop: SearchStop,
    count: usize,
) -> Result<(), AllocError>
    ensures { OnOk result (text.new.items ≡ text.old.items ++ so_far_text stop count) }
{
    text.extend_from_slice(open_text(count))?;
    push_stop_phrase(text, stop)?;
    push_next_step(text, stop, count)
}

/// What may be done where a search stopped: of a limit that was met the option may take a greater number.
fn push_next_step(text: &mut Vec<u8>, stop: SearchStop, count: usize) -> Result<(), AllocError>
    ensures { OnOk result (text.new.items ≡ text.old.items ++ next_step_text count stop) }
{
    match stop {
        SearchStop::States(_) => push_raise(text, count, b"--max-states\n"),
        SearchStop::Texts(_) => push_raise(text, count, b"--max-texts\n"),
        SearchStop::Entries(_) => push_raise(text, count, b"--max-entries\n"),
        SearchStop::Megabytes(_) => push_raise(text, count, b"--max-memory\n"),
        SearchStop::Memory => text.extend_from_slice(b"\n"),
    }
}

/// That an option may take a greater number.
fn push_raise(text: &mut Vec<u8>, count: usize, option: &[u8]) -> Result<(), AllocError>
    ensures { OnOk result (text.new.items ≡ text.old.items ++ raise_text count option.now) }
{
    text.extend_from_slice(raise_head(count))?;
    text.extend_from_slice(option)
}

/// What stands before the option, where there are so many texts or waves: that a race may be mended first, where there are several.
fn raise_head(count: usize) -> &'static [u8]
    ensures { result.now ≡ raise_head count }
{
    if 1 < count {
        b"; mend a race and look again, or raise "
    } else {
        b"; raise "
    }
}

/// What stands before the reason for which there may be other texts: there are more than one already, or not.
fn open_text(count: usize) -> &'static [u8]
    ensures { result.now ≡ open_text count }
{
    if count > 1 {
        b" or more: "
    } else {
        b" so far: "
    }
}

/// That the texts are those of random orders, and there may be others.
pub(crate) fn push_sampled(text: &mut Vec<u8>, orders: SampledOrders) -> Result<(), AllocError>
    ensures { OnOk result (text.new.items ≡ text.old.items ++ sampled_text orders) }
{
    match orders.stop {
        Some(stop) => push_fewer(text, orders.made, orders.asked, stop),
        None => push_asked(text, orders.made),
    }
}

/// That all random orders were tried that were asked for.
fn push_asked(text: &mut Vec<u8>, made: u32) -> Result<(), AllocError>
    ensures { OnOk result (text.new.items ≡ text.old.items ++ asked_text made) }
{
    text.extend_from_slice(b" in ")?;
    push_orders(text, made)?;
    text.extend_from_slice(b" and those tried to name races: others may be possible\n")
}

/// That so many random orders were tried of so many that were asked for, and why no more were.
fn push_fewer(text: &mut Vec<u8>, made: u32, asked: u32, stop: SearchStop) -> Result<(), AllocError>
    ensures { OnOk result (text.new.items ≡ text.old.items ++ fewer_text made asked stop) }
{
    text.extend_from_slice(b" in ")?;
    push_number(text, made as u64)?;
    text.extend_from_slice(b" of ")?;
    push_orders(text, asked)?;
    text.extend_from_slice(b" and those tried to name races: ")?;
    push_stop(text, stop)
}

/// Puts so many random orders behind a text, with a word for one.
fn push_orders(text: &mut Vec<u8>, count: u32) -> Result<(), AllocError>
    ensures { OnOk result (text.new.items ≡ text.old.items ++ random_orders_text count) }
{
    push_number(text, count as u64)?;
    match count {
        1 => text.extend_from_slice(b" random lawful order"),
        _ => text.extend_from_slice(b" random lawful orders"),
    }
}

/// That no lawful run comes to an end, and where the journal of one that doesn't is saved, if it is.
pub(crate) fn push_none(
    text: &mut Vec<u8>,
    until: Option<u64>,
    endless: Option<usize>,
    prefix: Option<&str>,
) -> Result<(), AllocError>
    ensures { OnOk result (text.new.items ≡ text.old.items ++ none_every until endless (option_map (λ path. path.now) prefix.entry)) }
{
    push_parts(
        text,
        &[
            LinePart::Bytes(b": no lawful run"),
            LinePart::UpTo(until),
            LinePart::Bytes(b" comes to an end"),
            LinePart::Journal(prefix, endless),
            LinePart::Bytes(b"\n"),
        ],
    )
}

/// That some lawful runs don't come to an end, where one is known, and where its journal is saved, if it is.
pub(crate) fn push_endless(
    text: &mut Vec<u8>,
    endless: Option<usize>,
    prefix: Option<&str>,
) -> Result<(), AllocError>
    ensures { OnOk result (text.new.items ≡ text.old.items ++ endless_text endless (option_map (λ path. path.now) prefix.entry)) }
{
    match endless {
        Some(_) => push_parts(
            text,
            &[
                LinePart::Bytes(b"some lawful runs don't come to an end"),
                LinePart::Journal(prefix, endless),
                LinePart::Bytes(b"\n"),
            ],
        ),
        None => Ok(()),
    }
}

/// That every lawful run that comes to an end prints the same text, or that none does and each that stops short prints it, and that text behind all that is said.
fn push_one(
    text: &mut Vec<u8>,
    verdict: &Verdict<'_>,
    states: u64,
    endless: Option<usize>,
) -> Result<(), AllocError>
    ensures { OnOk result (text.new.items ≡ text.old.items ++ one_every states verdict.entry.now.until verdict.entry.now.endings verdict.entry.now.first.now verdict.entry.now.stops.now endless (option_map (λ path. path.now) verdict.entry.now.prefix)) }
{
    let some = has_stops(verdict.stops);
    push_parts(
        text,
        &[
            LinePart::Bytes(every_or_none(some)),
            LinePart::UpTo(verdict.until),
            LinePart::Bytes(run_prints(some)),
        ],
    )?;
    push_these_lines(text, verdict.first)?;
    push_states(text, states)?;
    push_endings(text, verdict.endings, some, verdict.until)?;
    push_stops(text, b"text ", verdict.prefix, verdict.stops)?;
    push_endless(text, endless, verdict.prefix)?;
    text.extend_from_slice(verdict.first)
}

/// Of which runs one text is told: of every lawful run, or of none, where its run stops short.
fn every_or_none(stops: bool) -> &'static [u8]
    ensures { result.now ≡ every_or_none stops }
{
    match stops {
        true => b": no lawful run",
        false => b": every lawful run",
    }
}

/// Which runs print the one text: those with an end, or those that stop short.
fn run_prints(stops: bool) -> &'static [u8]
    ensures { result.now ≡ run_prints stops }
{
    match stops {
        true => b" comes to an end, and every one that stops short prints ",
        false => b" that comes to an end prints ",
    }
}

/// That every lawful run that comes to an end has one of several texts, or of several waves, as this word says.
pub(crate) fn push_many(
    text: &mut Vec<u8>,
    verdict: &Verdict<'_>,
    word: &[u8],
    endless: Option<usize>,
) -> Result<(), AllocError>
    ensures { OnOk result (text.new.items ≡ text.old.items ++ many_every verdict.entry.now.until verdict.entry.now.ends verdict.entry.now.endings word.now verdict.entry.now.stops.now endless (option_map (λ path. path.now) verdict.entry.now.prefix)) }
{
    let some = has_stops(verdict.stops);
    push_parts(
        text,
        &[
            LinePart::Bytes(b": every lawful run"),
            LinePart::UpTo(verdict.until),
            LinePart::Bytes(run_that_ends(some)),
            LinePart::Bytes(one_of_them(verdict.ends)),
        ],
    )?;
    push_endings(text, verdict.endings, some, verdict.until)?;
    push_stops(text, word, verdict.prefix, verdict.stops)?;
    push_endless(text, endless, verdict.prefix)
}

/// Which runs have one of several texts: those with an end, and those that stop short, where some do.
fn run_that_ends(stops: bool) -> &'static [u8]
    ensures { result.now ≡ run_that_ends stops }
{
    match stops {
        true => b" that comes to an end or stops short",
        false => b" that comes to an end",
    }
}

/// What a run has of several texts: it has one of them with its end, or it prints one of them, where their ends are alike.
fn one_of_them(ends: bool) -> &'static [u8]
    ensures { result.now ≡ one_of_them ends }
{
    match ends {
        true => b" has one of them\n",
        false => b" prints one of them\n",
    }
}
