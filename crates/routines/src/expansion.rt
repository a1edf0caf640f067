//! What is called, and where statements stand.

ghost use Rattle.std.specs.Prelude.{◌≡◌, ◌+◌, ◌++◌, ◌∷◌, [], IfOk, OnOk};

use call_nodes::copies::copied_expression;
use call_nodes::nodes::{assignment_node, member_of, unknown_node};
use call_scopes::copied::CallScopes;
use constant_functions::calls::ConstantFunctions;
use routine_texts::table::{Routine, RoutineKind, routine_at};
use scopes::scope::{Entity, Reach};
use sizing::environment::ObjectValue;
use sizing::lowering::named_scope;
use statement_parts::faults::{Lowered, StatementKind, fault};
use statement_parts::scales::ModuleScale;
use std::alloc::Global;
use syntax_tree::expressions::VerilogExpression;
use syntax_tree::statements::VerilogStatement;

/// Where a statement stands: its scope, how many statements may stand in it still, whether a function's body is around it, and whether
/// its arguments are read later, as those of a `$strobe`.
#[derive(Clone, Copy)]
pub(crate) struct StatementSpot {
    pub(crate) scope: usize,
    pub(crate) room: u32,
    pub(crate) in_function: bool,
    pub(crate) in_strobe: bool,
}

/// A call: the name by which the scope with its variables is known where it stands, that scope, and the function's or task's own.
#[derive(Drop)]
pub(crate) struct CallScope {
    pub(crate) name: Vec<u8>,
    pub(crate) inner: usize,
    pub(crate) of: usize,
}

/// The expansion of the calls of a design.
#[derive(Drop)]
pub(crate) struct Expansion<'r, 't> {
    pub(crate) alloc: Global,
    pub(crate) scopes: CallScopes,
    pub(crate) routines: &'r [Routine<'t>],
    pub(crate) functions: ConstantFunctions<'t>,
    /// The scales of time of the modules, in the order of their tokens.
    pub(crate) scales: &'r [ModuleScale],
    /// The scopes of the functions and tasks in whose bodies the statement stands.
    pub(crate) open: Vec<usize>,
}

/// Adds a statement to others. Fails where memory is refused.
pub(crate) fn add(out: &mut Vec<VerilogStatement>, s: VerilogStatement) -> Lowered<()>
    ensures { OnOk result (out.new.items ≡ out.old.items ++ s ∷ []) }
{
    out.push(s)?;
    Ok(())
}

/// The number of the scope that a name stands for, if it stands for one.
fn scope_number(found: Option<Entity>) -> Option<usize> {
    match found? {
        Entity::Scope(number) => Some(number),
        Entity::Scopes { .. } => None,
        Entity::Object(_) => None,
        Entity::Event(_) => None,
        Entity::LoopVariable => None,
    }
}

/// The room of what stands inside of a statement. Refuses it where there is none.
pub(crate) fn inside(at: StatementSpot, token: usize) -> Lowered<StatementSpot>
    ensures { IfOk result (λ inner. (inner.room + 1 ≡ at.room) × (inner.scope ≡ at.scope)) }
{
    if at.room == 0 {
        return fault(token, StatementKind::DeepCalls);
    }
    Ok(StatementSpot {
        room: at.room - 1,
        ..at
    })
}

/// How many statements stand around the body of a call, as far as it counts how deep they may stand in each other.
const CALL_DEPTH: u32 = 8;

/// The room of the body of a call. Refuses it where there is none.
pub(crate) fn inside_call(at: StatementSpot, token: usize) -> Lowered<StatementSpot>
    ensures { IfOk result (λ inner. (inner.room + 8 ≡ at.room) × (inner.scope ≡ at.scope)) }
{
    if at.room < CALL_DEPTH {
        return fault(token, StatementKind::DeepCalls);
    }
    Ok(StatementSpot {
        room: at.room - CALL_DEPTH,
        ..at
    })
}

impl<'r, 't> Expansion<'r, 't> {
    /// The scope that a name stands for in a scope or outwards. Variables of the name are passed over: a function has one of its own name.
    fn scope_outwards(&self, scope: usize, name: &[u8]) -> Option<usize> {
        if let Some(found) = scope_number(self.scopes.design.tree.declared(scope, name)) {
            return Some(found);
        }
        match self.scopes.design.tree.outwards(Reach::Design, scope) {
            Some(outer) => self.scope_outwards(outer, name),
            None => None,
        }
    }

    /// The scope of what is called (10.2.2, 10.4.4).
    fn called_scope(&self, at: StatementSpot, e: &VerilogExpression) -> Lowered<Option<usize>> {
        match e {
            VerilogExpression::Name { name, .. } => {
                Ok(self.scope_outwards(at.scope, name.as_slice()))
            }
            VerilogExpression::Member { scope, name, .. } => {
                let place = self.scopes.design.place(at.scope);
                let around = named_scope(self.alloc, &place, scope)?;
                Ok(scope_number(self.scopes.design.tree.declared(around, name.as_slice())))
            }
            _ => Ok(None),
        }
    }

    /// The function or task whose scope is one.
    fn routine_of(&self, scope: usize) -> Option<&'r Routine<'t>> {
        let all = self.scopes.design.routines.as_slice();
        let number = all.partition_point(|placed| placed.scope < scope);
        let placed = all.get(number)?;
        if placed.scope != scope {
            return None;
        }
        routine_at(self.routines, placed.token)
    }

    /// What is called at a place, with its scope. Refuses what is no function, or no task, and one in whose body the call stands.
    pub(crate) fn called(
        &self,
        at: StatementSpot,
        token: usize,
        kind: RoutineKind,
        e: &VerilogExpression,
    ) -> Lowered<(usize, &'r Routine<'t>)> {
        let unknown = match kind {
            RoutineKind::Function => StatementKind::UnknownFunction,
            RoutineKind::Task => StatementKind::UnknownTask,
        };
        let Some(scope) = self.called_scope(at, e)? else {
            return fault(token, unknown);
        };
        let Some(routine) = self.routine_of(scope) else {
            return fault(token, unknown);
        };
        if routine.kind != kind {
            return fault(token, unknown);
        }
        routine.refuse_head()?;
        if self.open.as_slice().contains(&scope) {
            return fault(token, StatementKind::Recursion);
        }
        Ok((scope, routine))
    }

    /// The variables of a call: a copy of those of the function or task, where each call has some of its own, and else these.
    pub(crate) fn open_call(
        &mut self,
        at: StatementSpot,
        token: usize,
        of: usize,
        routine: &Routine<'_>,
    ) -> Lowered<CallScope> {
        let inner = if routine.has_own_variables() {
            self.scopes.copy_scope(token, of, routine.name)?
        } else {
            of
        };
        let name = self.scopes.declare_scope(at.scope, token, inner)?;
        Ok(CallScope { name, inner, of })
    }

    /// Whether what a scope declares is a variable.
    fn is_variable(&self, entity: Entity) -> bool {
        let Entity::Object(number) = entity else {
            return false;
        };
        match self.scopes.design.objects.get(number) {
            Some(object) => object.width().is_some()
                && matches!(&object.value, ObjectValue::Variable(_)),
            None => false,
        }
    }

    /// Adds statements that make all variables of a scope unknown, which is known by an expression (10.2.3).
    pub(crate) fn forget(
        &self,
        token: usize,
        scope: usize,
        known: &VerilogExpression,
        room: u32,
        out: &mut Vec<VerilogStatement>,
    ) -> Lowered<()> {
        if room == 0 {
            return fault(token, StatementKind::DeepCalls);
        }
        for number in 0..self.scopes.name_count(scope) {
            let Some((name, entity)) = self.scopes.name_at(scope, number)? else {
                return Ok(());
            };
            let path = copied_expression(self.alloc, known)?;
            let member = member_of(self.alloc, token, path, name.as_slice())?;
            let member = Box::new(self.alloc, member)?;
            if let Entity::Scope(inner) = entity {
                self.forget(token, inner, &member, room - 1, out)?;
            } else if self.is_variable(entity) {
                let unknown = unknown_node(self.alloc, token)?;
                let member = Box::into_inner(member);
                add(out, assignment_node(token, member, unknown))?;
            }
        }
        Ok(())
    }
}
