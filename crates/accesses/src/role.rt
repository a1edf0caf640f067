//! What the entries of a run do, and for what two of them race.
ghost use Rattle.std.specs.Prelude.{◌≡◌, IsTrue};
ghost use Rattle.accesses.specs.declared.role.Does.TheVariants.{Finishes};

use design::RegId;

/// What two entries race for: a register, the order of the lines that they print, the order of the lines of their `$strobe`
/// statements, whether the run is finished before the other one comes, or the order of the updates of their nonblocking assignments.
#[derive(Clone, Copy, PartialEq, Eq, Hash)]
pub enum Site {
    Register(RegId),
    Printing,
    Strobing,
    Finishing,
    Updating,
}

/// What an entry does where it races. An update is that of an earlier turn's nonblocking assignment, a turn runs whatever
/// else it does, and it schedules updates by nonblocking assignments.
#[derive(Clone, Copy)]
pub enum Does {
    Writes,
    Assigns,
    Updates,
    Reads,
    Waits,
    Prints,
    Strobes,
    Finishes,
    Runs,
    Schedules,
}

/// A process, and what it does.
#[derive(Clone, Copy)]
pub struct Role {
    pub process: u32,
    pub does: Does,
}

/// What is asked of the later entry of two in a second run: that it is one of its role, or that it does what that says.
#[derive(Clone, Copy)]
pub(crate) enum Asked {
    OfRole,
    InRole,
}

impl Role {
    /// Whether it is said to finish the run.
    pub(crate) fn finishes(self) -> bool
        ensures { IsTrue result → self.does ≡ Finishes }
    {
        match self.does {
            Does::Finishes => true,
            _ => false,
        }
    }
}
