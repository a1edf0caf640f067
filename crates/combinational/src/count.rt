//! The place behind plain statements: one further for each of them, those inside others among them.
ghost use Rattle.std.specs.Prelude.{◌≡◌, ◌+◌, length, IfSome};
ghost use Rattle.model.specs.Design.{inside, size};
ghost use Rattle.design.specs.DesignTrees.{statement_of, statements_of};

use design::tree::Statement;

/// The place behind plain statements, the first of which stands at this place. None where one of them isn't plain.
#[cycle(count)]
pub(crate) fn place_behind(place: usize, statements: &[Statement]) -> Option<usize>
    ensures { IfSome result (λ behind. behind ≡ place + size (statements_of statements.now)) }
{
    let mut behind = place;
    for statement in statements {
        behind = place_behind_one(behind, statement)?;
    }
    Some(behind)
}

// The place behind a plain statement at this place, and behind those inside it.
#[cycle(count)]
fn place_behind_one(place: usize, statement: &Statement) -> Option<usize>
    ensures { IfSome result (λ behind. behind ≡ place + 1 + length (inside (statement_of statement.now))) }
{
    let inside = place.checked_add(1)?;
    match statement {
        Statement::Empty => Some(inside),
        Statement::Assign(_, _) => Some(inside),
        Statement::If(_, body, otherwise) => {
            let second = place_behind(inside, body)?;
            place_behind(second, otherwise)
        }
        _ => None,
    }
}
