//! The token that a fault of a module tells.

ghost use Rattle.std.specs.Prelude.{◌≡◌, true, map, IfSome};
ghost use Rattle.locations.specs.PlainSpots.{plain_spot};
ghost use Rattle.diagnosis.specs.FaultLocations.{is_name, is_named, is_call, tells, wants, IsSpotAt};

use crate::notes::conversions;
use elaborate::ElabFault;
use locations::{Spot, is_process};
use tokens::token::Kind;

/// The greatest delay.
const LONGEST_DELAY: u64 = 4_294_967_295;

/// How many registers a module may have.
const MOST_REGISTERS: usize = 1024;

/// How many processes a module may have.
const MOST_PROCESSES: usize = 256;

/// Which token is looked for.
#[derive(Clone, Copy)]
pub enum Wanted<'a> {
    /// A name in statements.
    Use(&'a str),
    /// A name in statements with an index that is at least this.
    Select(&'a str, u64),
    /// A name in a declaration.
    Declaration(&'a str),
    /// Any name in a declaration.
    Register,
    /// A word that begins a process.
    Process,
    /// A call whose format doesn't fit its arguments.
    Call,
    /// A number that is no delay.
    LongDelay,
}

/// Which part of a module a token stands in.
#[derive(Clone, Copy)]
enum ModulePart {
    Header,
    Declaration,
    Statement,
}

impl ModulePart {
    /// The part in which the token behind one of this kind stands.
    fn after(self, kind: Kind) -> ModulePart {
        match kind {
            Kind::Reg => ModulePart::Declaration,
            Kind::Semicolon => ModulePart::Statement,
            _ => self,
        }
    }
}

fn is_named(spot: &Spot<'_>, name: &str) -> bool
    ensures { result ≡ is_named name.now (plain_spot spot.now) }
{
    spot.token.text.as_bytes() == name.as_bytes()
}

/// Whether a token of this kind is a name, and no word of the language.
fn is_name(kind: Kind) -> bool
    ensures { result ≡ is_name kind }
{
    match kind {
        Kind::Name => true,
        _ => false,
    }
}

/// Whether a token of this kind begins a call with a format: a `$display` or a `$strobe`.
fn is_call(kind: Kind) -> bool
    ensures { result ≡ is_call kind }
{
    match kind {
        Kind::Display | Kind::Strobe => true,
        _ => false,
    }
}

/// How many arguments a call has behind its format.
fn arguments(spots: &[Spot<'_>]) -> usize {
    let mut left = spots;
    let mut open = 1_usize;
    let mut n = 0_usize;
    while let [spot, rest @ ..] = left {
        match spot.token.kind {
            Kind::Open | Kind::OpenCurly => open = open.saturating_add(1),
            Kind::Close | Kind::CloseCurly => open = open.saturating_sub(1),
            Kind::Comma if open == 1 => n = n.saturating_add(1),
            _ => {}
        }
        if open == 0 {
            break;
        }
        left = rest;
    }
    n
}

/// Whether a call, of which this stands behind its word, has another number of arguments than its format has conversions for.
fn is_misfit(behind: &[Spot<'_>]) -> bool {
    match behind {
        [_, format, rest @ ..] => {
            conversions(format.token.text.as_bytes()) != Some(arguments(rest))
        }
        _ => false,
    }
}

/// Whether an index stands here that is at least this.
fn is_past(behind: &[Spot<'_>], width: u64) -> bool {
    match behind {
        [open, index, ..] => match open.token.kind {
            Kind::OpenSquare => index.token.value() >= width,
            _ => false,
        },
        _ => false,
    }
}

/// Whether a token is one that is looked for, by the part of the module in which it stands, and by what stands behind it.
fn is_wanted(wanted: Wanted<'_>, part: ModulePart, spot: &Spot<'_>, behind: &[Spot<'_>]) -> bool
    ensures { result ≡ true → wants wanted.entry (plain_spot spot.now) ≡ true }
{
    match (wanted, part) {
        (Wanted::Use(name), ModulePart::Statement) => is_named(spot, name),
        (Wanted::Select(name, width), ModulePart::Statement) => {
            is_named(spot, name) && is_past(behind, width)
        }
        (Wanted::Declaration(name), ModulePart::Declaration) => is_named(spot, name),
        (Wanted::Register, ModulePart::Declaration) => is_name(spot.token.kind),
        (Wanted::Process, _) => is_process(spot.token.kind),
        (Wanted::Call, _) => is_call(spot.token.kind) && is_misfit(behind),
        (Wanted::LongDelay, _) => spot.token.value() > LONGEST_DELAY,
        _ => false,
    }
}

/// One more than the greatest index of a register: 0 where it has no range.
fn indexes_of(spots: &[Spot<'_>], name: &str) -> u64 {
    let mut left = spots;
    let mut part = ModulePart::Header;
    let mut width = 0;
    while let [spot, rest @ ..] = left {
        match (part, spot.token.kind) {
            (_, Kind::Reg) => width = width_at(rest),
            (ModulePart::Declaration, _) if is_named(spot, name) => return width,
            _ => {}
        }
        part = part.after(spot.token.kind);
        left = rest;
    }
    0
}

/// The width of the range at the front, 0 where none is.
fn width_at(spots: &[Spot<'_>]) -> u64 {
    match spots {
        [open, most, ..] => match open.token.kind {
            Kind::OpenSquare => most.token.value().saturating_add(1),
            _ => 0,
        },
        _ => 0,
    }
}

/// The first byte of a wanted token, behind as many wanted ones as are to be passed.
fn find(spots: &[Spot<'_>], wanted: Wanted<'_>, passed: usize) -> Option<usize>
    ensures { IfSome result (λ byte. IsSpotAt (wants wanted.entry) (map plain_spot spots.now) byte) }
{
    let mut left = spots;
    let mut part = ModulePart::Header;
    let mut to_pass = passed;
    while let [spot, rest @ ..] = left {
        if is_wanted(wanted, part, spot, rest) {
            if to_pass == 0 {
                return Some(spot.byte);
            }
            to_pass -= 1;
        }
        part = part.after(spot.token.kind);
        left = rest;
    }
    None
}

/// The first byte of a register's name with an index that it hasn't.
fn find_select(spots: &[Spot<'_>], name: &str) -> Option<usize>
    ensures { IfSome result (λ byte. IsSpotAt (is_named name.now) (map plain_spot spots.now) byte) }
{
    find(spots, Wanted::Select(name, indexes_of(spots, name)), 0)
}

/// The first byte of the token that a fault tells, if it tells one.
pub fn told_byte(spots: &[Spot<'_>], fault: &ElabFault) -> Option<usize>
    ensures { IfSome result (λ byte. IsSpotAt (tells fault.now) (map plain_spot spots.now) byte) }
{
    match fault {
        ElabFault::Undeclared(name) => find(spots, Wanted::Use(name.as_str()), 0),
        ElabFault::DeclaredTwice(name) => find(spots, Wanted::Declaration(name.as_str()), 1),
        ElabFault::BadRange(name) => find(spots, Wanted::Declaration(name.as_str()), 0),
        ElabFault::BadIndex(name) => find_select(spots, name.as_str()),
        ElabFault::TooManyRegisters => find(spots, Wanted::Register, MOST_REGISTERS),
        ElabFault::TooManyProcesses => find(spots, Wanted::Process, MOST_PROCESSES),
        ElabFault::BadFormat => find(spots, Wanted::Call, 0),
        ElabFault::LongDelay => find(spots, Wanted::LongDelay, 0),
        _ => None,
    }
}
