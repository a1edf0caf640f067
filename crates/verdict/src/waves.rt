//! The lines on waves: what two runs have in common where more or less than their lines, in order, is compared.

ghost use Rattle.std.specs.Prelude.{◌≡◌, ◌++◌, OnOk, codes, decimal, option_map, true};
ghost use Rattle.verdict.specs.WaveLines.{at_times_text, one_wave, register_parting_text, same_lines_text, same_text, side_text, sides_of, sides_text, these_or_all, these_registers, same_values_text, in_every_or_none, run_has, wave_claim_text, wave_count_text, wave_site_text, wave_text, wave_verdict_text};
ghost use Rattle.verdict.specs.StopLines.{stops_text};
ghost use Rattle.verdict.specs.Verdicts.{many_every, sampled_text, so_far_text};

use crate::claim::{Claim, SampledOrders, SearchStop};
use crate::endings::{RunEndings, push_endings};
use crate::parts::{LinePart, push_parts};
use crate::phrases::{push_between, push_number, push_states};
use crate::race::push_quoted;
use crate::stops::{StopDescription, has_stops, push_stops};
use crate::verdict::{Verdict, push_endless, push_many, push_none, push_sampled, push_so_far};
use std::alloc::AllocError;

/// The waves that were found, and what they are among those of all lawful runs.
#[derive(Clone, Copy)]
pub struct WaveVerdict<'a> {
    pub claim: Claim,
    /// The last time of the runs, if there is one.
    pub until: Option<u64>,
    /// How many waves with their ends were found.
    pub count: usize,
    /// Whether all registers of the design are observed.
    pub all: bool,
    /// How many registers are observed.
    pub registers: usize,
    /// How many lines are printed in a run that has the first wave.
    pub lines: usize,
    /// How the runs of the waves end.
    pub endings: RunEndings,
    /// Those of the waves whose runs stop short.
    pub stops: &'a [StopDescription],
    /// The path that journals begin with, where they are saved.
    pub prefix: Option<&'a str>,
}

/// In what a wave parts first from the first one: in a register when a time passes, in a line, in the time that passes, or in its end alone.
#[derive(Clone, Copy)]
pub enum WaveSite<'a> {
    Register { name: &'a str, time: &'a [u8] },
    Line,
    Time,
    End,
}

/// A wave that isn't the first one: its number, in what it parts first from that, and what stands there in each.
#[derive(Clone, Copy)]
pub struct WaveDescription<'a> {
    pub number: usize,
    pub prefix: Option<&'a str>,
    pub site: WaveSite<'a>,
    pub first: &'a [u8],
    pub second: &'a [u8],
}

/// Puts the lines on a wave behind a text.
pub fn push_wave(text: &mut Vec<u8>, wave: &WaveDescription<'_>) -> Result<(), AllocError>
    ensures { OnOk result (text.new.items ≡ text.old.items ++ wave_text wave.entry.now) }
{
    text.extend_from_slice(b"wave ")?;
    push_number(text, wave.number as u64)?;
    push_wave_site(text, wave.site)?;
    push_sides(text, wave)
}

/// Puts behind a text in what a wave parts first from the first one.
fn push_wave_site(text: &mut Vec<u8>, site: WaveSite<'_>) -> Result<(), AllocError>
    ensures { OnOk result (text.new.items ≡ text.old.items ++ wave_site_text site.entry) }
{
    match site {
        WaveSite::Register { name, time } => push_register(text, name, time),
        WaveSite::Line => text.extend_from_slice(b" parts from wave 1 in a line\n"),
        WaveSite::Time => text.extend_from_slice(b" parts from wave 1 in the time that passes\n"),
        WaveSite::End => text.extend_from_slice(
            b" has the lines and the values of wave 1, and another end\n",
        ),
    }
}

/// Puts behind a text that a wave parts from the first one in a register when a time passes.
fn push_register<'a>(text: &mut Vec<u8>, name: &'a str, time: &'a [u8]) -> Result<(), AllocError>
    ensures { OnOk result (text.new.items ≡ text.old.items ++ register_parting_text name.now time.now) }
{
    push_parts(
        text,
        &[
            LinePart::Bytes(b" parts from wave 1 in register "),
            LinePart::Bytes(name.as_bytes()),
            LinePart::Bytes(b" when time "),
            LinePart::Bytes(time),
            LinePart::Bytes(b" passes\n"),
        ],
    )
}

/// Puts what stands in both waves behind a text, unless they differ in their ends alone.
fn push_sides(text: &mut Vec<u8>, wave: &WaveDescription<'_>) -> Result<(), AllocError>
    ensures { OnOk result (text.new.items ≡ text.old.items ++ sides_of wave.entry.now.site wave.entry.now) }
{
    match wave.site {
        WaveSite::End => Ok(()),
        WaveSite::Register { .. } | WaveSite::Line | WaveSite::Time => push_both(text, wave),
    }
}

/// Puts what stands in the first wave and in another one behind a text.
fn push_both(text: &mut Vec<u8>, wave: &WaveDescription<'_>) -> Result<(), AllocError>
    ensures { OnOk result (text.new.items ≡ text.old.items ++ sides_text wave.entry.now) }
{
    push_side(text, wave.prefix, 1, wave.first)?;
    push_side(text, wave.prefix, wave.number, wave.second)
}

/// Puts what stands in a wave behind a text, and which journal has it, if that is saved.
fn push_side(
    text: &mut Vec<u8>,
    prefix: Option<&str>,
    number: usize,
    line: &[u8],
) -> Result<(), AllocError>
    ensures { OnOk result (text.new.items ≡ text.old.items ++ side_text (option_map (λ path. path.now) prefix.entry) number line.now) }
{
    push_parts(
        text,
        &[
            LinePart::Bytes(b"  in wave "),
            LinePart::Number(number as u64),
            LinePart::Journal(prefix, Some(number)),
            LinePart::Bytes(b" it"),
        ],
    )?;
    push_quoted(text, line)
}

/// Puts what is said of waves behind a text.
pub fn push_wave_verdict(text: &mut Vec<u8>, verdict: &WaveVerdict<'_>) -> Result<(), AllocError>
    ensures { OnOk result (text.new.items ≡ text.old.items ++ wave_verdict_text verdict.entry.now.claim verdict.entry.now.until verdict.entry.now.count verdict.entry.now.all verdict.entry.now.registers verdict.entry.now.lines verdict.entry.now.endings verdict.entry.now.stops.now (option_map (λ path. path.now) verdict.entry.now.prefix)) }
{
    push_wave_count(text, verdict.count)?;
    push_wave_claim(text, verdict)
}

/// How many waves there are.
fn push_wave_count(text: &mut Vec<u8>, count: usize) -> Result<(), AllocError>
    ensures { OnOk result (text.new.items ≡ text.old.items ++ wave_count_text count) }
{
    match count {
        0 => text.extend_from_slice(b"no wave"),
        1 => text.extend_from_slice(b"one wave"),
        _ => push_waves(text, count),
    }
}

/// How many waves there are, where there are several.
fn push_waves(text: &mut Vec<u8>, count: usize) -> Result<(), AllocError>
    ensures { OnOk result (text.new.items ≡ text.old.items ++ (decimal count ++ codes " waves")) }
{
    push_number(text, count as u64)?;
    text.extend_from_slice(b" waves")
}

/// What the waves are among those of all lawful runs, behind their number.
fn push_wave_claim(text: &mut Vec<u8>, verdict: &WaveVerdict<'_>) -> Result<(), AllocError>
    ensures { OnOk result (text.new.items ≡ text.old.items ++ wave_claim_text verdict.entry.now.claim verdict.entry.now.until verdict.entry.now.count verdict.entry.now.all verdict.entry.now.registers verdict.entry.now.lines verdict.entry.now.endings verdict.entry.now.stops.now (option_map (λ path. path.now) verdict.entry.now.prefix)) }
{
    match verdict.claim {
        Claim::Every { states, endless } => match verdict.count {
            0 => push_none(text, verdict.until, endless, verdict.prefix),
            1 => push_one_wave(text, verdict, states, endless),
            _ => push_many_waves(text, verdict, endless),
        },
        Claim::SoFar(stop) => push_stopped_search(text, verdict, stop),
        Claim::Sampled(orders) => push_samples(text, verdict, orders),
    }
}

/// That there may be other waves, and why, and whose runs stop short.
fn push_stopped_search(
    text: &mut Vec<u8>,
    verdict: &WaveVerdict<'_>,
    stop: SearchStop,
) -> Result<(), AllocError>
    ensures { OnOk result (text.new.items ≡ text.old.items ++ (so_far_text stop verdict.entry.now.count ++ stops_text (codes "wave ") (option_map (λ path. path.now) verdict.entry.now.prefix) verdict.entry.now.stops.now)) }
{
    push_so_far(text, stop, verdict.count)?;
    push_stops(text, b"wave ", verdict.prefix, verdict.stops)
}

/// That the waves are those of random orders, and whose runs stop short.
fn push_samples(
    text: &mut Vec<u8>,
    verdict: &WaveVerdict<'_>,
    orders: SampledOrders,
) -> Result<(), AllocError>
    ensures { OnOk result (text.new.items ≡ text.old.items ++ (sampled_text orders ++ stops_text (codes "wave ") (option_map (λ path. path.now) verdict.entry.now.prefix) verdict.entry.now.stops.now)) }
{
    push_sampled(text, orders)?;
    push_stops(text, b"wave ", verdict.prefix, verdict.stops)
}

/// That every lawful run that comes to an end has one of several waves.
fn push_many_waves(
    text: &mut Vec<u8>,
    verdict: &WaveVerdict<'_>,
    endless: Option<usize>,
) -> Result<(), AllocError>
    ensures { OnOk result (text.new.items ≡ text.old.items ++ many_every verdict.entry.now.until true verdict.entry.now.endings (codes "wave ") verdict.entry.now.stops.now endless (option_map (λ path. path.now) verdict.entry.now.prefix)) }
{
    let texts = Verdict {
        claim: verdict.claim,
        until: verdict.until,
        count: verdict.count,
        ends: true,
        endings: verdict.endings,
        first: &[],
        stops: verdict.stops,
        prefix: verdict.prefix,
    };
    push_many(text, &texts, b"wave ", endless)
}

/// That every lawful run that comes to an end has the same wave, or that none does and each that stops short has it.
fn push_one_wave(
    text: &mut Vec<u8>,
    verdict: &WaveVerdict<'_>,
    states: u64,
    endless: Option<usize>,
) -> Result<(), AllocError>
    ensures { OnOk result (text.new.items ≡ text.old.items ++ one_wave states verdict.entry.now.until verdict.entry.now.all verdict.entry.now.registers verdict.entry.now.lines verdict.entry.now.endings verdict.entry.now.stops.now endless (option_map (λ path. path.now) verdict.entry.now.prefix)) }
{
    let some = has_stops(verdict.stops);
    push_parts(
        text,
        &[
            LinePart::Bytes(in_every_or_none(some)),
            LinePart::UpTo(verdict.until),
            LinePart::Bytes(run_has(some)),
        ],
    )?;
    push_same(text, verdict.all, verdict.registers, verdict.lines)?;
    push_states(text, states)?;
    push_endings(text, verdict.endings, some, verdict.until)?;
    push_stops(text, b"wave ", verdict.prefix, verdict.stops)?;
    push_endless(text, endless, verdict.prefix)
}

/// Of which runs one wave is told: of every lawful run, or of none, where its run stops short.
fn in_every_or_none(stops: bool) -> &'static [u8]
    ensures { result.now ≡ in_every_or_none stops }
{
    match stops {
        true => b": no lawful run",
        false => b": in every lawful run",
    }
}

/// Which runs have the one wave: those with an end, or those that stop short.
fn run_has(stops: bool) -> &'static [u8]
    ensures { result.now ≡ run_has stops }
{
    match stops {
        true => b" comes to an end, and in every one that stops short ",
        false => b" that comes to an end ",
    }
}

/// What is the same in every run: the values of so many registers and so many lines, or the lines alone.
fn push_same(
    text: &mut Vec<u8>,
    all: bool,
    registers: usize,
    lines: usize,
) -> Result<(), AllocError>
    ensures { OnOk result (text.new.items ≡ text.old.items ++ same_text all registers lines) }
{
    match registers {
        0 => push_at_times(text, lines),
        _ => push_values(text, all, registers, lines),
    }
}

/// That so many registers, which are all or not, have the same values, and so many lines are printed.
fn push_values(
    text: &mut Vec<u8>,
    all: bool,
    registers: usize,
    lines: usize,
) -> Result<(), AllocError>
    ensures { OnOk result (text.new.items ≡ text.old.items ++ same_values_text all registers lines) }
{
    push_these_registers(text, all, registers)?;
    text.extend_from_slice(b" (and ")?;
    push_same_lines(text, lines)?;
    text.extend_from_slice(b")\n")
}

/// That so many registers, which are all or not, have the same values.
fn push_these_registers(text: &mut Vec<u8>, all: bool, registers: usize) -> Result<(), AllocError>
    ensures { OnOk result (text.new.items ≡ text.old.items ++ these_registers all registers) }
{
    match registers {
        1 => text.extend_from_slice(b"this register has the same values whenever time passes"),
        _ => push_between(
            text,
            these_or_all(all),
            registers as u64,
            b" registers have the same values whenever time passes",
        ),
    }
}

/// What stands before so many registers, by whether they are all of a design.
fn these_or_all(all: bool) -> &'static [u8]
    ensures { result.now ≡ these_or_all all }
{
    match all {
        true => b"all ",
        false => b"these ",
    }
}

/// That the same lines, so many, are printed.
fn push_same_lines(text: &mut Vec<u8>, lines: usize) -> Result<(), AllocError>
    ensures { OnOk result (text.new.items ≡ text.old.items ++ same_lines_text lines) }
{
    match lines {
        0 => text.extend_from_slice(b"no line is printed"),
        1 => text.extend_from_slice(b"the same line is printed"),
        _ => push_between(text, b"the same ", lines as u64, b" lines are printed"),
    }
}

/// That the same lines, so many, are printed at the same times.
fn push_at_times(text: &mut Vec<u8>, lines: usize) -> Result<(), AllocError>
    ensures { OnOk result (text.new.items ≡ text.old.items ++ at_times_text lines) }
{
    push_same_lines(text, lines)?;
    match lines {
        0 => text.extend_from_slice(b"\n"),
        _ => text.extend_from_slice(b" at the same times\n"),
    }
}
