//! The processes of a design, with statements that have no calls.

ghost use Rattle.std.specs.Prelude.{◌≡◌, ◌≢◌, [], AllPairs, IfOk, OnOk};
ghost use Rattle.design_scopes.specs.Flat.{variable_names};
ghost use Rattle.routine_texts.specs.Processes.{AddsOnly, StandsInText};
ghost use Rattle.routines.specs.Designs.{AreMadeForPlaced, IsAmong, IsMadeForDesign, IsMadeForPlaced, IsPlainDesign};

use crate::expansion::{Expansion, StatementSpot};
use call_scopes::copied::{CallScopes, made_for};
use constant_functions::calls::ConstantFunctions;
use design_scopes::scoped::{PlacedProcess, ScopedDesign};
use routine_texts::finding::{process_at, processes_of};
use routine_texts::table::{Routine, routines_of};
use statement_parts::faults::{Lowered, StatementFault, StatementKind, fault};
use statement_parts::plain::PlainProcess;
use statement_parts::scales::ModuleScale;
use std::alloc::{AllocError, Global};
use std::mem;
use syntax_tree::modules::{ModuleDeclaration, ProcessConstruct};

/// How deep statements may stand in each other, with those of bodies that stand in the place of calls.
const MOST_DEEP: u32 = 1100;

/// A design with the variables of its calls, and its processes, without calls.
#[derive(Drop)]
pub struct PlainDesign {
    pub design: ScopedDesign,
    pub processes: Vec<PlainProcess>,
}

/// The processes of a text, and its functions and tasks.
#[derive(Drop)]
struct ProcessTexts<'t> {
    modules: &'t [ModuleDeclaration],
    processes: Vec<&'t ProcessConstruct>,
    routines: Vec<Routine<'t>>,
}

/// The processes of modules, and their functions and tasks. Fails where memory is refused.
fn texts_of(alloc: Global, modules: &[ModuleDeclaration]) -> Result<ProcessTexts<'_>, AllocError>
    ensures { IfOk result (λ texts. AddsOnly [] texts.processes.items (λ p. StandsInText modules.now p)) }
{
    let processes = processes_of(alloc, modules)?;
    let routines = routines_of(alloc, modules)?;
    Ok(ProcessTexts {
        modules,
        processes,
        routines,
    })
}

/// A process without calls.
fn plain_process(
    expansion: &mut Expansion<'_, '_>,
    processes: &[&ProcessConstruct],
    placed: PlacedProcess,
) -> Lowered<PlainProcess>
    ensures { IfOk result (λ made. IsMadeForPlaced (IsAmong processes.now) placed made) }
{
    let Some(process) = process_at(processes, placed.token) else {
        return fault(placed.token, StatementKind::Refused);
    };
    let spot = StatementSpot {
        scope: placed.scope,
        room: MOST_DEEP,
        in_function: false,
        in_strobe: false,
    };
    let body = expansion.whole(spot, &process.body)?;
    Ok(PlainProcess {
        scope: placed.scope,
        token: placed.token,
        repeats: process.repeats,
        body,
    })
}

/// Processes without calls, in their order.
fn plain_bodies(
    expansion: &mut Expansion<'_, '_>,
    processes: &[&ProcessConstruct],
    all: &[PlacedProcess],
) -> Lowered<Vec<PlainProcess>>
    ensures made { IfOk result (λ made. AreMadeForPlaced (IsAmong processes.now) all.now made.items) }
    ensures distinct { OnOk result (AllPairs (λ a b. a ≢ b) (variable_names expansion.new.scopes.design.objects.items)) }
{
    let mut made = Vec::new(expansion.alloc);
    for placed in all {
        let process = plain_process(expansion, processes, *placed)?;
        made.push(process)?;
    }
    made_for(0, expansion.scopes.design.refuse_same_names())?;
    Ok(made)
}

/// The processes of a design of a text, in their order. Those that the design names are put back behind it.
fn plain_design(
    alloc: Global,
    texts: &ProcessTexts<'_>,
    scales: &[ModuleScale],
    mut design: ScopedDesign,
) -> Lowered<PlainDesign>
    ensures { IfOk result (λ made. IsMadeForDesign (IsAmong texts.now.processes.items) design made) }
{
    let functions = ConstantFunctions::new(alloc, texts.modules)?;
    let placed = mem::replace(&mut design.processes, Vec::new(alloc));
    let mut expansion = Expansion {
        alloc,
        scopes: CallScopes::new(alloc, design),
        routines: texts.routines.as_slice(),
        functions,
        scales,
        open: Vec::new(alloc),
    };
    match plain_bodies(
        &mut expansion,
        texts.processes.as_slice(),
        placed.as_slice(),
    ) {
        Ok(processes) => {
            let Expansion { scopes, .. } = expansion;
            let CallScopes { mut design, .. } = scopes;
            design.processes = placed;
            Ok(PlainDesign { design, processes })
        }
        Err(found) => Err(found),
    }
}

/// The processes of a design of modules, in their order, with the bodies of functions and tasks in the place of their calls, and with delays
/// in ticks, by the scales of the modules, in their order; and the design, with the variables of the calls.
///
/// # Errors
///
/// What is wrong first with a call, at its token; `Memory` where memory is refused.
pub fn plain_processes(
    alloc: Global,
    modules: &[ModuleDeclaration],
    scales: &[ModuleScale],
    design: ScopedDesign,
) -> Lowered<PlainDesign>
    ensures { IfOk result (λ made. IsPlainDesign modules.now design made) }
{
    match texts_of(alloc, modules) {
        Ok(texts) => plain_design(alloc, &texts, scales, design),
        Err(found) => Err(StatementFault::from(found)),
    }
}
