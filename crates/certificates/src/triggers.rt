//! Lists of the events that processes wait for.
ghost use Rattle.std.specs.Prelude.{◌≡◌, ℕ, ◌==◌, ◌||◌, OnOk};
ghost use Rattle.std.specs.List.{list_any};
ghost use Rattle.design.specs.ControlWaking.{wakes_by};
ghost use Rattle.model.specs.Turns.{contains};
ghost use Rattle.model.specs.States as states;
ghost use Rattle.certificates.specs.Masks.{registers_of};
ghost use Rattle.certificates.specs.Marks.{is_marked};

use crate::masked::{Masked, Numbered};
use design::{RegId, Trigger};
use logic4::digit::Edge;
use model::tree::Change;
use std::alloc::AllocError;

/// A list of the events that processes wait for, with the mask of their registers.
pub type Triggers = Masked<Trigger>;

impl Numbered for Trigger {
    ghost number_of = { λ t. t.1 };

    fn number(&self) -> u32 {
        self.1
    }
}

// Whether a change of this kind is one that an event of an event control waits for (9.7.2).
fn matches(change: Change, edge: Edge) -> bool
    ensures { result ≡ states.edge_matches change edge }
{
    match edge {
        Edge::Same => false,
        Edge::Pos => matches!(change, Change::Any | Change::Posedge),
        Edge::Neg => matches!(change, Change::Any | Change::Negedge),
        Edge::Other => matches!(change, Change::Any),
    }
}

// Whether one of these events is one of a register.
fn is_any_on(triggers: &[Trigger], register: RegId) -> bool
    ensures { result ≡ list_any (λ t. t.1 == register) triggers.now }
{
    triggers.iter().any(|trigger| trigger.1 == register)
}

// Whether a change of a register, of this kind, is one for which one of these events stands.
fn is_any_met(triggers: &[Trigger], register: RegId, edge: Edge) -> bool
    ensures { result ≡ wakes_by triggers.now register edge }
{
    triggers.iter().any(|trigger| trigger.1 == register && matches(trigger.0, edge))
}

impl Masked<Trigger> {
    /// Whether somebody waits for events of a register.
    pub fn are_on(&self, register: RegId) -> bool
        ensures { result ≡ contains (registers_of self.now) register }
    {
        self.mask().may_have(register) && is_any_on(self.as_slice(), register)
    }

    /// Whether a change of a register, of this kind, is one that somebody waits for.
    pub fn are_met(&self, register: RegId, edge: Edge) -> bool
        ensures { result ≡ wakes_by self.now register edge }
    {
        self.mask().may_have(register) && is_any_met(self.as_slice(), register, edge)
    }

    /// Whether one of their registers is marked.
    pub(crate) fn is_any_register_marked(&self, marks: &[bool]) -> bool
        ensures { result ≡ list_any (λ r. is_marked marks.now r) (registers_of self.now) }
    {
        self.is_any_marked(marks)
    }

    /// Marks each of their registers.
    pub(crate) fn mark_registers(&self, marks: &mut Vec<bool>) -> Result<(), AllocError>
        ensures { OnOk result ((r : ℕ) → is_marked marks.new.items r ≡ (is_marked marks.old.items r || contains (registers_of self.now) r)) }
    {
        self.mark_all(marks)?;
        Ok(())
    }
}
