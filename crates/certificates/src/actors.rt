//! Sets of actors.
ghost use Rattle.std.specs.Prelude.{◌≡◌, ◌||◌, false, OnOk};
ghost use Rattle.loose.specs.declared.transition.LooseTransition.{LooseTransition as Actor};
ghost use Rattle.certificates.specs.Coming.{is_same, is_of_any, begins};
ghost use Rattle.certificates.specs.Actors.{has};

use crate::marked::{is_marked_at, mark};
use crate::note::StepNote;
use loose::transition::LooseTransition;
use std::alloc::{AllocError, Global};

/// A set of actors: of processes and of classes of registers. Each has a mark at the place of its number.
#[derive(Drop)]
pub(crate) struct Actors {
    processes: Vec<bool>,
    classes: Vec<bool>,
}

impl Actors {
    /// No actors.
    pub fn new(alloc: Global) -> Actors {
        Actors {
            processes: Vec::new(alloc),
            classes: Vec::new(alloc),
        }
    }

    /// Takes all actors out.
    pub fn clear(&mut self)
        ensures { (a : Actor) → has self.new a ≡ false }
    {
        self.processes.clear();
        self.classes.clear();
    }

    /// Takes an actor in.
    pub fn insert(&mut self, actor: LooseTransition) -> Result<(), AllocError>
        ensures { OnOk result ((a : Actor) → has self.new a ≡ (has self.old a || is_same actor a)) }
    {
        match actor {
            LooseTransition::Process(process) => mark(&mut self.processes, process),
            LooseTransition::FirstOf(class) => mark(&mut self.classes, class),
            LooseTransition::Change(_) => Ok(()),
        }
    }

    /// Whether an actor is one of them.
    pub fn contains(&self, actor: LooseTransition) -> bool
        ensures { result ≡ has self.now actor }
    {
        match actor {
            LooseTransition::Process(process) => is_marked_at(self.processes.as_slice(), process),
            LooseTransition::FirstOf(class) => is_marked_at(self.classes.as_slice(), class),
            LooseTransition::Change(_) => false,
        }
    }

    /// Whether a noted step is of one of them, or wakes one.
    pub fn begin_in(&self, note: &StepNote) -> bool
        ensures { result ≡ is_of_any (has self.now) note.now }
    {
        self.contains(note.owner) || note.woken.is_any_marked(self.processes.as_slice())
    }

    /// Takes in those whose next step comes of a noted step: its own actor, and the processes that it wakes.
    pub fn insert_begun(&mut self, note: &StepNote) -> Result<(), AllocError>
        ensures { OnOk result ((a : Actor) → has self.new a ≡ (has self.old a || begins note.now a)) }
    {
        self.insert(note.owner)?;
        note.woken.mark_all(&mut self.processes)
    }
}
