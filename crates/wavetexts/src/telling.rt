//! Waves in lines: in what each parts first from the first one.

ghost use Rattle.std.specs.Prelude.{◌≡◌, OnOk, option_map};
ghost use Rattle.wavetexts.specs.ToldWaves.{IsWaveTold, TellsWaves, TellsOthers};

use crate::parting::parting_of;
use design::{Design, RegId};
use explore::Shown;
use model::end::End;
use model::entry::Entry;
use std::alloc::AllocError;
use verdict::{WaveDescription, push_wave};

/// What waves are told by: the design, the registers that are observed, and the path that their journals begin with, where they are saved.
#[derive(Clone, Copy)]
pub struct WaveNames<'a> {
    pub design: &'a Design,
    pub registers: &'a [RegId],
    pub prefix: Option<&'a str>,
}

// A wave, as it is told beside the first one.
fn told_wave<'a>(
    names: &WaveNames<'a>,
    first: &'a Shown<Entry, End>,
    other: &'a Shown<Entry, End>,
    number: usize,
) -> WaveDescription<'a>
    ensures { IsWaveTold names.entry.now.design.now.names names.entry.now.registers.now (option_map (λ path. path.now) names.entry.now.prefix) first.entry.now.text.items number other.entry.now.text.items result }
{
    let parting = parting_of(
        names.design,
        names.registers,
        first.text.as_slice(),
        other.text.as_slice(),
    );
    WaveDescription {
        number,
        prefix: names.prefix,
        site: parting.site,
        first: parting.first,
        second: parting.second,
    }
}

// Puts the lines on each of some waves behind a text, with numbers from 2 on. Fails where memory is refused.
fn push_others<'a>(
    text: &mut Vec<u8>,
    names: &WaveNames<'a>,
    first: &'a Shown<Entry, End>,
    others: &'a [Shown<Entry, End>],
) -> Result<(), AllocError>
    ensures { OnOk result (TellsOthers names.entry.now.design.now.names names.entry.now.registers.now (option_map (λ path. path.now) names.entry.now.prefix) first.entry.now.text.items 2 others.entry.now text.old.items text.new.items) }
{
    for (place, other) in others.iter().enumerate() {
        let told = told_wave(names, first, other, place + 2);
        push_wave(text, &told)?;
    }
    Ok(())
}

/// Puts the lines on each wave but the first one behind a text. Fails where memory is refused.
pub fn push_waves<'a>(
    text: &mut Vec<u8>,
    names: &WaveNames<'a>,
    waves: &'a [Shown<Entry, End>],
) -> Result<(), AllocError>
    ensures { OnOk result (TellsWaves names.entry.now.design.now.names names.entry.now.registers.now (option_map (λ path. path.now) names.entry.now.prefix) waves.entry.now text.old.items text.new.items) }
{
    match waves.split_first() {
        Some((first, others)) => push_others(text, names, first, others),
        None => Ok(()),
    }
}
