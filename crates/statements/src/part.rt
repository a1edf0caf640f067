//! What a token does in its statement.

ghost use Rattle.std.specs.Prelude.{◌≡◌};
ghost use Rattle.statements.specs.Parts as parts;

use tokens::token::{Kind, is_kind};

/// What a token does in the statement that it stands in. A name is written by `=`, assigned by `<=`, read where its value is
/// wanted, or waited for in an event list; `$display` prints, `$strobe` strobes, and `$finish` finishes the run.
#[derive(Clone, Copy, PartialEq, Eq)]
pub enum StatementPart {
    Written,
    Assigned,
    Read,
    Awaited,
    Printing,
    Strobing,
    Finishing,
}

/// Whether two parts are the same.
pub(crate) fn is_part(one: StatementPart, other: StatementPart) -> bool
    ensures { result ≡ parts.same_part one other }
{
    one == other
}

/// Whether a name is assigned, by the kind of the token behind it and by whether a statement begins with it.
fn is_assigned(next: Kind, begins: bool) -> bool
    ensures { result ≡ parts.is_assigned next begins }
{
    is_kind(next, Kind::AtMost) && begins
}

/// What a name does, if it does something: by the kind of the token behind it, and by whether a statement begins with it, it
/// stands in an event list, or nothing is done there.
fn part_of_name(next: Kind, begins: bool, event_list: bool, silent: bool) -> Option<StatementPart>
    ensures { result ≡ parts.part_of_name next begins event_list silent }
{
    if is_kind(next, Kind::Assign) {
        return Some(StatementPart::Written);
    }
    if is_assigned(next, begins) {
        return Some(StatementPart::Assigned);
    }
    part_inside(event_list, silent)
}

/// What a name does that isn't the left side of an assignment, if it does something.
fn part_inside(event_list: bool, silent: bool) -> Option<StatementPart>
    ensures { result ≡ parts.part_inside event_list silent }
{
    if event_list {
        return Some(StatementPart::Awaited);
    }
    if silent {
        return None;
    }
    Some(StatementPart::Read)
}

/// What a token of this kind does, if it does something.
pub(crate) fn part_at(
    kind: Kind,
    next: Kind,
    begins: bool,
    event_list: bool,
    silent: bool,
) -> Option<StatementPart>
    ensures { result ≡ parts.part_at kind next begins event_list silent }
{
    match kind {
        Kind::Name => part_of_name(next, begins, event_list, silent),
        Kind::Display => Some(StatementPart::Printing),
        Kind::Strobe => Some(StatementPart::Strobing),
        Kind::Finish => Some(StatementPart::Finishing),
        _ => None,
    }
}
