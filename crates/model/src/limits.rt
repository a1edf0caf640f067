//! The most that a module may have.
ghost use Rattle.std.specs.Prelude.{◌≡◌};
ghost use Rattle.model.specs.ModuleLimits as limits;

/// Whose limits a module keeps: those of the profile, or those of whole designs.
#[derive(Clone, Copy, PartialEq, Eq, Debug)]
pub enum ModuleLimits {
    Profile,
    Whole,
}

impl ModuleLimits {
    /// The most registers.
    pub fn most_registers(self) -> usize
        ensures { result ≡ limits.most_registers self }
    {
        match self {
            ModuleLimits::Profile => 1024,
            ModuleLimits::Whole => 65_536,
        }
    }

    /// The most processes.
    pub fn most_processes(self) -> usize
        ensures { result ≡ limits.most_processes self }
    {
        match self {
            ModuleLimits::Profile => 256,
            ModuleLimits::Whole => 16_384,
        }
    }
}
