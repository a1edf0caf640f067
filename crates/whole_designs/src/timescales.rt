//! The scales of time of modules (19.8).

ghost use Rattle.std.specs.Prelude.{◌≡◌, ◌≤◌, ◌+◌, None, IfOk, IfSome, map};

use lexemes::token::{TokenKind, VerilogToken};
use source_texts::settings::{ModuleSetting, SettingChange, TimeUnit};
use statement_parts::scales::{ModuleScale, TICKS, TimeScale};
use std::alloc::{AllocError, Global};
use syntax_tree::modules::ModuleDeclaration;

/// The power of a nanosecond, which the tick is called where no scale is told.
pub(crate) const NANOSECOND: u8 = 6;

/// The scales of modules, in their order, and the power of the tick.
#[derive(Drop)]
pub(crate) struct ModuleScales {
    pub(crate) scales: Vec<ModuleScale>,
    pub(crate) tick: u8,
}

/// The scales of modules, or the token of the first that has one where the first of all has none, or the other way round.
#[derive(Drop)]
pub(crate) enum FoundScales {
    Known(ModuleScales),
    Unlike(usize),
}

/// The unit and the precision that a `` `timescale`` tells.
#[derive(Clone, Copy)]
struct Timescale {
    unit: TimeUnit,
    precision: TimeUnit,
}

/// Which part of a scale.
#[derive(Clone, Copy)]
enum ScalePart {
    Unit,
    Precision,
}

/// What a setting says of the scale, where it says something of it: one, or that there is none.
fn said_of(setting: ModuleSetting) -> Option<Option<Timescale>> {
    match setting {
        ModuleSetting::Timescale { unit, precision } => Some(Some(Timescale { unit, precision })),
        ModuleSetting::Reset => Some(None),
        _ => None,
    }
}

/// For each module the scale that stands before it, if one does: what the last setting before it says. Settings and modules stand in the
/// order of the text.
fn timescales_of(
    alloc: Global,
    settings: &[SettingChange],
    modules: &[ModuleDeclaration],
) -> Result<Vec<Option<Timescale>>, AllocError> {
    let mut found = Vec::new(alloc);
    let mut left = settings;
    let mut standing = None;
    for module in modules {
        while let [change, rest @ ..] = left {
            if change.tokens_before > module.token {
                break;
            }
            standing = said_of(change.setting).unwrap_or(standing);
            left = rest;
        }
        found.push(standing)?;
    }
    Ok(found)
}

/// The token of the first module that has a scale where the first of all has none, or the other way round.
fn unlike_module(found: &[Option<Timescale>], modules: &[ModuleDeclaration]) -> Option<usize> {
    let has_one = found.first()?.is_some();
    for (scale, module) in found.iter().zip(modules) {
        if scale.is_some() != has_one {
            return Some(module.token);
        }
    }
    None
}

/// The power of a part of a scale.
fn power_of(found: Timescale, part: ScalePart) -> u8 {
    match part {
        ScalePart::Unit => found.unit.power,
        ScalePart::Precision => found.precision.power,
    }
}

/// The least power of such a part, that of a nanosecond where there is no scale.
fn least_power(found: &[Option<Timescale>], part: ScalePart) -> u8 {
    let mut least = None;
    for scale in found {
        if let Some(scale) = scale {
            let power = power_of(*scale, part);
            least = Some(power.min(least.unwrap_or(power)));
        }
    }
    least.unwrap_or(NANOSECOND)
}

/// Whether a token is a real number.
fn is_real(token: &VerilogToken) -> bool {
    match token.kind {
        TokenKind::RealNumber => true,
        _ => false,
    }
}

/// The part whose least power is that of the tick: the unit, where no delay is a part of one.
fn part_of_tick(tokens: &[VerilogToken]) -> ScalePart {
    if tokens.iter().any(is_real) {
        ScalePart::Precision
    } else {
        ScalePart::Unit
    }
}

/// A scale by the powers of the tick and of the least precision. Where there is none a unit is a tick.
fn scale_by(found: Option<Timescale>, tick: u8, least: u8) -> TimeScale
    ensures none { found ≡ None → result ≡ TICKS }
    ensures unit { IfSome found (λ f. tick ≤ f.unit.power → result.unit + tick ≡ f.unit.power) }
    ensures precision { IfSome found (λ f. tick ≤ f.precision.power → result.precision + tick ≡ f.precision.power) }
    ensures shown { IfSome found (λ f. least ≤ f.unit.power → result.shown + least ≡ f.unit.power) }
{
    match found {
        Some(found) => TimeScale {
            unit: found.unit.power.saturating_sub(tick),
            precision: found.precision.power.saturating_sub(tick),
            shown: found.unit.power.saturating_sub(least),
        },
        None => TICKS,
    }
}

/// The scales of modules by the power of the tick and by what stands before each.
fn scales_by(
    alloc: Global,
    tick: u8,
    found: &[Option<Timescale>],
    modules: &[ModuleDeclaration],
) -> Result<Vec<ModuleScale>, AllocError> {
    let least = least_power(found, ScalePart::Precision);
    let mut scales = Vec::new(alloc);
    for (scale, module) in found.iter().zip(modules) {
        scales.push(ModuleScale {
            token: module.token,
            scale: scale_by(*scale, tick, least),
        })?;
    }
    Ok(scales)
}

/// The scales of modules, in their order. The tick is the least unit of all where the text has no real number, and else the least
/// precision. Fails where memory is refused.
pub(crate) fn module_scales(
    alloc: Global,
    settings: &[SettingChange],
    tokens: &[VerilogToken],
    modules: &[ModuleDeclaration],
) -> Result<FoundScales, AllocError> {
    let found = timescales_of(alloc, settings, modules)?;
    if let Some(token) = unlike_module(found.as_slice(), modules) {
        return Ok(FoundScales::Unlike(token));
    }
    let tick = least_power(found.as_slice(), part_of_tick(tokens));
    let scales = scales_by(alloc, tick, found.as_slice(), modules)?;
    Ok(FoundScales::Known(ModuleScales { scales, tick }))
}
