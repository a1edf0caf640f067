//! What this language lacks.

/// A construct that is refused, wherever it stands.
#[derive(Clone, Copy, PartialEq, Eq)]
pub enum Refused {
    /// A number of more digits than a vector has.
    WideNumber,
    /// A number whose digits aren't those of its base.
    MalformedNumber,
    /// `real` and `realtime` (4.8).
    Real,
    /// `trireg` (4.6.3).
    ChargeStorage,
    /// The strength of a driver or of a charge (7.9).
    Strength,
    /// The delay of a net, of a gate or of a continuous assignment (6.1.3, 7.14).
    NetDelay,
    /// `pullup` and `pulldown` (7.8).
    Pull,
    /// The switches (7.5 to 7.7).
    Switch,
    /// `primitive` (8).
    Primitive,
    /// `config` (13).
    Configuration,
    /// `library` and `include` of a library map file (13.2).
    Library,
    /// `assign` and `deassign` in a process (9.3.1).
    ProceduralAssignment,
    /// `force` and `release` (9.3.2).
    Force,
    /// `@` between the value of a nonblocking assignment and its effect (9.7.7).
    NonblockingEvent,
    /// A word, an operator or a declaration of SystemVerilog (IEEE 1800).
    SystemVerilog,
}

/// A construct that is refused, and the number of its token, counted from 0.
#[derive(Clone, Copy)]
pub struct SyntaxRefusal {
    pub token: usize,
    pub construct: Refused,
}
