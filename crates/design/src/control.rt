//! Registers' numbers, and the event controls that wait for them.
ghost use Rattle.std.specs.Prelude.{◌≡◌, ◌==◌};
ghost use Rattle.std.specs.List.{list_any};
ghost use Rattle.design.specs.ControlWaking.{wakes_by};
ghost use Rattle.model.specs.States as states;

use logic4::digit::Edge;
use model::tree::Change;
use std::marker::Model;

/// The number of a register, in the order of the declarations.
pub type RegId = u32;

/// One event of an event control (9.7.2): the change that it waits for, and the register.
pub type Trigger = (Change, RegId);

/// An event control (9.7.2): the events that it waits for.
#[derive(Drop)]
pub struct Control {
    triggers: Vec<Trigger>,
}

impl Model for Control {
    ghost use Rattle.std.specs.Prelude.{List};
    ghost use Rattle.model.specs.Design.{Trigger};

    ghost Value = { List Trigger };

    ghost view = { λ c. c.triggers.items };
}

impl Control {
    /// An event control that waits for these events.
    pub fn new(triggers: Vec<Trigger>) -> Control
        ensures { result ≡ triggers.items }
    {
        Control { triggers }
    }

    /// The events that it waits for.
    pub fn triggers(&self) -> &[Trigger]
        ensures { result.now ≡ self.entry.now }
    {
        self.triggers.as_slice()
    }

    /// Whether it waits for a register: an event of it is a change of that, of whatever kind.
    pub fn waits_for(&self, register: RegId) -> bool
        ensures { result ≡ list_any (λ t. t.1 == register) self.now }
    {
        self.triggers.iter().any(|trigger| trigger.1 == register)
    }

    /// Whether a change of a register, of this kind, is one that it waits for.
    pub fn is_woken(&self, register: RegId, edge: Edge) -> bool
        ensures { result ≡ wakes_by self.now register edge }
    {
        self.triggers
            .iter()
            .any(|t| t.1 == register && matches(t.0, edge))
    }
}

// Whether a change of a register, of this kind, is one that an event of an event control waits for (9.7.2).
fn matches(change: Change, edge: Edge) -> bool
    ensures { result ≡ states.edge_matches change edge }
{
    match (change, edge) {
        (_, Edge::Same) => false,
        (Change::Any, _) => true,
        (Change::Posedge, Edge::Pos) => true,
        (Change::Negedge, Edge::Neg) => true,
        _ => false,
    }
}
