//! Registers whose values differ where no line shows it, in a line.
ghost use Rattle.std.specs.Prelude.{◌≡◌, ◌++◌, IfOk, OnOk, Some, codes};
ghost use Rattle.naming.specs.UnseenRegisters.{difference_line, further_names, named_register, raced_by, raced_register, raced_site, raced_text, register_names, unseen_text};

use crate::line_orders::printer_of;
use crate::places::SourcePlaces;
use accesses::{Pair, Site};
use design::{Design, RegId};
use races::UnseenDifference;
use std::alloc::AllocError;
use verdict::{push_raced_pair, push_unseen_line};

/// The name of a register, or `?` where the design has none with this number.
#[tactic(auto, using(crate::proofs::UnseenNames::known_name, crate::proofs::UnseenNames::unknown_name))]
fn name_of(design: &Design, register: RegId) -> &str
    ensures { result.now ≡ named_register design.entry.now register }
{
    let registers = design.registers();
    if register < registers {
        design.name(register)
    } else {
        "?"
    }
}

/// Puts the name of a register that follows another one behind a text.
fn push_further(text: &mut Vec<u8>, design: &Design, register: RegId) -> Result<(), AllocError>
    ensures { OnOk result (text.new.items ≡ text.old.items ++ (codes ", " ++ named_register design.now register)) }
{
    text.extend_from_slice(b", ")?;
    text.extend_from_slice(name_of(design, register).as_bytes())
}

/// Puts the names of registers that follow another one behind a text.
fn push_all_further(
    text: &mut Vec<u8>,
    design: &Design,
    registers: &[RegId],
) -> Result<(), AllocError>
    ensures { OnOk result (text.new.items ≡ text.old.items ++ further_names design.now registers.now) }
{
    for register in registers {
        push_further(text, design, *register)?;
    }
    Ok(())
}

/// Puts the name of a register and those of others that follow it behind a text.
fn push_first(
    text: &mut Vec<u8>,
    design: &Design,
    first: RegId,
    others: &[RegId],
) -> Result<(), AllocError>
    ensures { OnOk result (text.new.items ≡ text.old.items ++ (named_register design.now first ++ further_names design.now others.now)) }
{
    text.extend_from_slice(name_of(design, first).as_bytes())?;
    push_all_further(text, design, others)
}

/// Puts the names of registers behind a text.
fn push_names(text: &mut Vec<u8>, design: &Design, registers: &[RegId]) -> Result<(), AllocError>
    ensures { OnOk result (text.new.items ≡ text.old.items ++ register_names design.now registers.now) }
{
    match registers.split_first() {
        Some((first, others)) => push_first(text, design, *first, others),
        None => Ok(()),
    }
}

/// Puts a register for which two processes race behind a text.
fn push_raced_register(
    text: &mut Vec<u8>,
    design: &Design,
    register: RegId,
) -> Result<(), AllocError>
    ensures { OnOk result (text.new.items ≡ text.old.items ++ raced_register design.now register) }
{
    text.extend_from_slice(b"register ")?;
    text.extend_from_slice(name_of(design, register).as_bytes())
}

/// Puts for what two processes race behind a text.
fn push_raced_site(text: &mut Vec<u8>, design: &Design, site: Site) -> Result<(), AllocError>
    ensures { OnOk result (text.new.items ≡ text.old.items ++ raced_site design.now site) }
{
    match site {
        Site::Register(register) => push_raced_register(text, design, register),
        Site::Printing => text.extend_from_slice(b"the order of lines"),
        Site::Strobing => text.extend_from_slice(b"the order of strobes"),
        Site::Finishing => text.extend_from_slice(b"the end of the run"),
        Site::Updating => text.extend_from_slice(b"the order of updates"),
    }
}

/// Puts for what the processes of two entries race, when, and which two they are behind a text.
fn push_raced_by(
    text: &mut Vec<u8>,
    places: &SourcePlaces<'_>,
    design: &Design,
    pair: Pair,
) -> Result<(), AllocError>
    ensures { OnOk result (text.new.items ≡ text.old.items ++ raced_by design.now places.now.processes.now pair) }
{
    let mut site = Vec::new(places.alloc);
    push_raced_site(&mut site, design, pair.site)?;
    let first = printer_of(places.processes, pair.first.process);
    let second = printer_of(places.processes, pair.second.process);
    push_raced_pair(text, site.as_slice(), pair.time, first, second)
}

/// Puts so much behind a text where two entries are told.
fn push_raced(
    text: &mut Vec<u8>,
    places: &SourcePlaces<'_>,
    design: &Design,
    pair: Option<Pair>,
) -> Result<(), AllocError>
    ensures { OnOk result (text.new.items ≡ text.old.items ++ raced_text design.now places.now.processes.now pair) }
{
    match pair {
        Some(pair) => push_raced_by(text, places, design, pair),
        None => Ok(()),
    }
}

/// For what the processes of two entries race, when, and which two they are, where two entries are told.
fn raced_of(
    places: &SourcePlaces<'_>,
    design: &Design,
    pair: Option<Pair>,
) -> Result<Vec<u8>, AllocError>
    ensures { IfOk result (λ race. race.items ≡ raced_text design.now places.now.processes.now pair) }
{
    let mut race = Vec::new(places.alloc);
    push_raced(&mut race, places, design, pair)?;
    Ok(race)
}

/// Puts the line on registers that differ behind a text.
fn push_difference(
    text: &mut Vec<u8>,
    places: &SourcePlaces<'_>,
    design: &Design,
    difference: &UnseenDifference,
) -> Result<(), AllocError>
    ensures { OnOk result (text.new.items ≡ text.old.items ++ difference_line design.now places.now.processes.now (Some difference.now)) }
{
    let race = raced_of(places, design, difference.pair)?;
    let mut names = Vec::new(places.alloc);
    let registers = difference.registers.as_slice();
    push_names(&mut names, design, registers)?;
    push_unseen_line(
        text,
        race.as_slice(),
        names.as_slice(),
        registers.len(),
        difference.time,
    )
}

/// Puts the line on registers that differ behind a text, if some do.
fn push_difference_if(
    text: &mut Vec<u8>,
    places: &SourcePlaces<'_>,
    design: &Design,
    unseen: &Option<UnseenDifference>,
) -> Result<(), AllocError>
    ensures { OnOk result (text.new.items ≡ text.old.items ++ difference_line design.now places.now.processes.now unseen.now) }
{
    match unseen {
        Some(difference) => push_difference(text, places, design, difference),
        None => Ok(()),
    }
}

/// Puts the line on registers that differ where no line shows it behind a text, where one text is told and some do.
pub(crate) fn push_unseen(
    text: &mut Vec<u8>,
    places: &SourcePlaces<'_>,
    design: &Design,
    texts: usize,
    unseen: &Option<UnseenDifference>,
) -> Result<(), AllocError>
    ensures { OnOk result (text.new.items ≡ text.old.items ++ unseen_text design.now places.now.processes.now texts unseen.now) }
{
    match texts {
        1 => push_difference_if(text, places, design, unseen),
        _ => Ok(()),
    }
}
