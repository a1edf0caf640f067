//! The text of a dump of a whole design, with a scope for each of the design's (18.2).

ghost use Rattle.std.specs.Prelude.{◌≡◌, ◌<◌, ◌++◌, ◌&&◌, [], Some, length, map, get_or, option_map, if◌then◌else◌, IfOk, OnOk};
ghost use Rattle.std.specs.List.{list_any};
ghost use Rattle.std.specs.Str.{bytes_eq};
ghost use Rattle.waves.specs.Dump.{register_line};
ghost use Rattle.waves.specs.FullNames.{AreHomes, is_shown_name};
ghost use Rattle.waves.specs.ScopedDump.{change_lines, contents_text, plain_scope, register_within, registers_within, scope_line, scope_lines, scope_within, scope_word, scoped_header_text, scoped_text, scopes_text, shown_changes_text, number_of_tick, stands_in, tick_line, unit_of_tick, unknown_shown, unknown_shown_text};

use crate::full_names::{is_shown, own_name, scope_of};
use crate::lines::{push_named, push_new_time, push_value};
use crate::wave::{ValueChange, Wave};
use design::{Design, RegId};
use logic4::bits::Bits;
use std::alloc::{AllocError, Global};

/// How deep scopes stand in each other at most.
const MOST_DEEP: usize = 1024;

/// A scope of a design: its full name, and whether it is that of a module's instance.
#[derive(Clone, Copy)]
pub struct ShownScope<'a> {
    pub path: &'a str,
    pub is_instance: bool,
}

/// A design with its scopes, and the full names of the scopes in which its registers stand.
#[derive(Clone, Copy)]
struct DesignInScopes<'s, 'p, 'd, 'h> {
    scopes: &'s [ShownScope<'p>],
    design: &'d Design,
    homes: &'h [&'d [u8]],
}

/// The name of a register; nothing where there is no register of the number.
fn name_of(design: &Design, register: RegId) -> &[u8]
    ensures { result.now ≡ get_or design.now.names register [] }
{
    let registers = design.registers();
    if register < registers {
        design.name(register).as_bytes()
    } else {
        &[]
    }
}

/// The full names of the scopes in which the registers of a design stand. Fails where memory is refused.
fn homes_of(alloc: Global, design: &Design) -> Result<Vec<&[u8]>, AllocError>
    ensures { IfOk result (λ homes. AreHomes design.now.names homes.items) }
{
    let mut homes = Vec::new(alloc);
    for register in 0..design.registers() {
        homes.push(scope_of(name_of(design, register)))?;
    }
    Ok(homes)
}

/// The full name of the scope in which a register stands, by those of all registers.
fn home_of<'a>(homes: &[&'a [u8]], register: RegId) -> &'a [u8]
    ensures { result.now ≡ get_or (map (λ home. home.now) homes.now) register [] }
{
    let place = register as usize;
    if place < homes.len() {
        homes[place]
    } else {
        &[]
    }
}

/// Whether a scope has this full name.
fn has_path(scope: ShownScope<'_>, path: &[u8]) -> bool
    ensures { result ≡ bytes_eq scope.entry.path.now path.now }
{
    scope.path.as_bytes() == path
}

/// Whether one of some scopes has this full name.
fn any_has_path(scopes: &[ShownScope<'_>], path: &[u8]) -> bool
    ensures { result ≡ list_any (λ s. bytes_eq s.path.now path.now) scopes.now }
{
    scopes.iter().any(|scope| has_path(*scope, path))
}

/// Whether what is in a scope of this full name stands in another, or in none.
fn is_home(scopes: &[ShownScope<'_>], around: Option<&[u8]>, home: &[u8]) -> bool
    ensures { result ≡ stands_in (map plain_scope scopes.now) (option_map (λ path. path.now) around.entry) home.now }
{
    match around {
        Some(path) => home == path,
        None => !any_has_path(scopes, home),
    }
}

/// Whether a register of such a name is shown, and stands in a scope, or in none.
fn is_declared(scopes: &[ShownScope<'_>], around: Option<&[u8]>, name: &[u8], home: &[u8]) -> bool
    ensures { result ≡ (is_shown_name name.now && stands_in (map plain_scope scopes.now) (option_map (λ path. path.now) around.entry) home.now) }
{
    is_shown(name) && is_home(scopes, around, home)
}

/// Puts the line that declares a register behind a text, where it is declared there.
fn push_declared(
    text: &mut Vec<u8>,
    declared: bool,
    register: RegId,
    name: &[u8],
    width: u32,
) -> Result<(), AllocError>
    ensures { OnOk result (text.new.items ≡ text.old.items ++ (if declared then register_line register name.now width else [])) }
{
    if !declared {
        return Ok(());
    }
    push_named(text, register, name, width)
}

/// Puts the line that declares a register behind a text, where it stands in a scope, or in none, and is shown.
fn push_register_within(
    text: &mut Vec<u8>,
    all: &DesignInScopes<'_, '_, '_, '_>,
    around: Option<&[u8]>,
    register: RegId,
) -> Result<(), AllocError>
    requires named { register < length all.now.design.now.names }
    requires wide { register < length all.now.design.now.widths }
    requires homes { AreHomes all.now.design.now.names all.now.homes.now }
    ensures { OnOk result (text.new.items ≡ text.old.items ++ register_within (map plain_scope all.now.scopes.now) (option_map (λ path. path.now) around.entry) register (get_or all.now.design.now.names register []) (get_or all.now.design.now.widths register 0)) }
{
    let name = name_of(all.design, register);
    let home = home_of(all.homes, register);
    let declared = is_declared(all.scopes, around, name, home);
    let width = all.design.width(register);
    push_declared(text, declared, register, own_name(name), width)
}

/// Puts the lines of the registers that stand in a scope, or in none, behind a text.
fn push_registers_within(
    text: &mut Vec<u8>,
    all: &DesignInScopes<'_, '_, '_, '_>,
    around: Option<&[u8]>,
) -> Result<(), AllocError>
    requires { AreHomes all.now.design.now.names all.now.homes.now }
    ensures { OnOk result (text.new.items ≡ text.old.items ++ registers_within (map plain_scope all.now.scopes.now) (option_map (λ path. path.now) around.entry) 0 all.now.design.now.names all.now.design.now.widths) }
{
    for register in 0..all.design.registers() {
        push_register_within(text, all, around, register)?;
    }
    Ok(())
}

/// The word of a scope (18.2.3.4).
fn word_of(scope: ShownScope<'_>) -> &'static str
    ensures { result.now ≡ scope_word scope.entry.is_instance }
{
    if scope.is_instance { "module" } else { "begin" }
}

/// Puts the line at which a scope begins behind a text.
fn push_scope_line(text: &mut Vec<u8>, scope: ShownScope<'_>) -> Result<(), AllocError>
    ensures { OnOk result (text.new.items ≡ text.old.items ++ scope_line (plain_scope scope.entry)) }
{
    text.extend_from_slice(b"$scope ")?;
    text.extend_from_slice(word_of(scope).as_bytes())?;
    text.extend_from_slice(b" ")?;
    text.extend_from_slice(own_name(scope.path.as_bytes()))?;
    text.extend_from_slice(b" $end\n")
}

/// Puts the lines of what stands in a scope, or in none, behind a text: its registers, and then its scopes.
#[cycle(scoped)]
fn push_contents(
    text: &mut Vec<u8>,
    all: &DesignInScopes<'_, '_, '_, '_>,
    around: Option<&[u8]>,
    room: usize,
) -> Result<(), AllocError>
    requires { AreHomes all.now.design.now.names all.now.homes.now }
    ensures { OnOk result (text.new.items ≡ text.old.items ++ contents_text room (map plain_scope all.now.scopes.now) all.now.design.now.names all.now.design.now.widths (option_map (λ path. path.now) around.entry)) }
{
    push_registers_within(text, all, around)?;
    if room == 0 {
        return Ok(());
    }
    push_scopes(text, all, around, room - 1)
}

/// Puts the lines of the scopes that stand in a scope, or in none, behind a text.
#[cycle(scoped)]
fn push_scopes(
    text: &mut Vec<u8>,
    all: &DesignInScopes<'_, '_, '_, '_>,
    around: Option<&[u8]>,
    room: usize,
) -> Result<(), AllocError>
    requires { AreHomes all.now.design.now.names all.now.homes.now }
    ensures { OnOk result (text.new.items ≡ text.old.items ++ scopes_text room (map plain_scope all.now.scopes.now) all.now.design.now.names all.now.design.now.widths (option_map (λ path. path.now) around.entry)) }
{
    let scopes = all.scopes;
    for scope in scopes {
        push_scope_within(text, all, around, *scope, room)?;
    }
    Ok(())
}

/// Puts the lines of a scope behind a text, where it stands in another, or in none.
#[cycle(scoped)]
fn push_scope_within(
    text: &mut Vec<u8>,
    all: &DesignInScopes<'_, '_, '_, '_>,
    around: Option<&[u8]>,
    scope: ShownScope<'_>,
    room: usize,
) -> Result<(), AllocError>
    requires { AreHomes all.now.design.now.names all.now.homes.now }
    ensures { OnOk result (text.new.items ≡ text.old.items ++ scope_within (map plain_scope all.now.scopes.now) (option_map (λ path. path.now) around.entry) (λ path. contents_text room (map plain_scope all.now.scopes.now) all.now.design.now.names all.now.design.now.widths (Some path)) (plain_scope scope.entry)) }
{
    if !is_home(all.scopes, around, scope_of(scope.path.as_bytes())) {
        return Ok(());
    }
    push_scope(text, all, scope, room)
}

/// Puts the lines of a scope behind a text.
#[cycle(scoped)]
fn push_scope(
    text: &mut Vec<u8>,
    all: &DesignInScopes<'_, '_, '_, '_>,
    scope: ShownScope<'_>,
    room: usize,
) -> Result<(), AllocError>
    requires { AreHomes all.now.design.now.names all.now.homes.now }
    ensures { OnOk result (text.new.items ≡ text.old.items ++ scope_lines (plain_scope scope.entry) (contents_text room (map plain_scope all.now.scopes.now) all.now.design.now.names all.now.design.now.widths (Some scope.entry.path.now))) }
{
    push_scope_line(text, scope)?;
    push_contents(text, all, Some(scope.path.as_bytes()), room)?;
    text.extend_from_slice(b"$upscope $end\n")
}

/// Puts the line of a register that is all x behind a text, where the register is shown.
fn push_unknown_register(
    alloc: Global,
    text: &mut Vec<u8>,
    design: &Design,
    register: RegId,
) -> Result<(), AllocError>
    requires { register < length design.now.widths }
    ensures { OnOk result (text.new.items ≡ text.old.items ++ unknown_shown register (get_or design.now.names register []) (get_or design.now.widths register 0)) }
{
    let value = Bits::unknown(design.width(register));
    if !is_shown(name_of(design, register)) {
        return Ok(());
    }
    push_value(alloc, text, register, value)
}

/// Puts the lines of the registers that are shown, which are all x, behind a text.
fn push_unknown(alloc: Global, text: &mut Vec<u8>, design: &Design) -> Result<(), AllocError>
    ensures { OnOk result (text.new.items ≡ text.old.items ++ unknown_shown_text 0 design.now.names design.now.widths) }
{
    for register in 0..design.registers() {
        push_unknown_register(alloc, text, design, register)?;
    }
    Ok(())
}

/// Puts the lines of a change behind a text, where its register is shown, and gives the time that stands behind them.
fn push_change(
    alloc: Global,
    text: &mut Vec<u8>,
    standing: u64,
    change: ValueChange,
    shown: bool,
) -> Result<u64, AllocError>
    ensures time { IfOk result (λ time. time ≡ (if shown then change.time else standing)) }
    ensures text { OnOk result (text.new.items ≡ text.old.items ++ (if shown then change_lines standing change else [])) }
{
    if !shown {
        return Ok(standing);
    }
    push_new_time(text, standing, change.time)?;
    push_value(alloc, text, change.register, change.value)?;
    Ok(change.time)
}

/// Puts the lines of the changes of registers that are shown, and at last of the time of the end, behind a text.
fn push_shown_changes(
    alloc: Global,
    text: &mut Vec<u8>,
    design: &Design,
    changes: &[ValueChange],
    end: u64,
) -> Result<(), AllocError>
    ensures { OnOk result (text.new.items ≡ text.old.items ++ shown_changes_text design.now.names changes.now end) }
{
    let mut standing = 0;
    for change in changes {
        let shown = is_shown(name_of(design, change.register));
        let time = push_change(alloc, text, standing, *change, shown)?;
        standing = time;
    }
    push_new_time(text, standing, end)
}

/// How many of its unit a time is, by the power of ten femtoseconds.
fn number_of_tick(power: u8) -> &'static [u8]
    ensures { result.now ≡ number_of_tick power }
{
    match power % 3 {
        0 => b"1",
        1 => b"10",
        _ => b"100",
    }
}

/// The unit of a time, by the power of ten femtoseconds.
fn unit_of_tick(power: u8) -> &'static [u8]
    ensures { result.now ≡ unit_of_tick power }
{
    match power / 3 {
        0 => b"fs",
        1 => b"ps",
        2 => b"ns",
        3 => b"us",
        4 => b"ms",
        _ => b"s",
    }
}

/// Puts the line of the unit of all times behind a text.
fn push_tick(text: &mut Vec<u8>, power: u8) -> Result<(), AllocError>
    ensures { OnOk result (text.new.items ≡ text.old.items ++ tick_line power) }
{
    text.extend_from_slice(b"$timescale ")?;
    text.extend_from_slice(number_of_tick(power))?;
    text.extend_from_slice(b" ")?;
    text.extend_from_slice(unit_of_tick(power))?;
    text.extend_from_slice(b" $end\n")
}

/// Puts what stands before the first change behind a text.
fn push_scoped_header(
    alloc: Global,
    text: &mut Vec<u8>,
    tick: u8,
    all: &DesignInScopes<'_, '_, '_, '_>,
) -> Result<(), AllocError>
    requires { AreHomes all.now.design.now.names all.now.homes.now }
    ensures { OnOk result (text.new.items ≡ text.old.items ++ scoped_header_text tick (map plain_scope all.now.scopes.now) all.now.design.now.names all.now.design.now.widths) }
{
    push_tick(text, tick)?;
    push_contents(text, all, None, MOST_DEEP)?;
    text.extend_from_slice(b"$enddefinitions $end\n#0\n$dumpvars\n")?;
    push_unknown(alloc, text, all.design)?;
    text.extend_from_slice(b"$end\n")
}

/// The text of a wave of a whole design, with a scope for each of the design's, in which its registers stand by their own names. As
/// `value_change_dump`, but that registers which no text declares aren't shown, and that the unit of all times is told: a femtosecond,
/// multiplied by ten so often. Fails where memory is refused.
pub fn scoped_dump(
    alloc: Global,
    tick: u8,
    scopes: &[ShownScope<'_>],
    design: &Design,
    wave: &Wave,
) -> Result<Vec<u8>, AllocError>
    ensures { IfOk result (λ text. text.items ≡ scoped_text tick (map plain_scope scopes.now) design.now.names design.now.widths wave.now.changes.items wave.now.end) }
{
    let homes = homes_of(alloc, design)?;
    let all = DesignInScopes {
        scopes,
        design,
        homes: homes.as_slice(),
    };
    let mut text = Vec::new(alloc);
    push_scoped_header(alloc, &mut text, tick, &all)?;
    let changes = wave.changes.as_slice();
    push_shown_changes(alloc, &mut text, design, changes, wave.end)?;
    Ok(text)
}
