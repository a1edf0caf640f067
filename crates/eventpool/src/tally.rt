//! The numbers of a pool that is closed.
ghost use Rattle.std.specs.Prelude.{◌≡◌, ◌+◌};

use std::marker::Model;

/// How many tickets were put into the deques of a pool, how many were taken and stolen, and how many were left. `close`
/// alone makes one.
#[derive(Drop)]
pub struct Tally {
    puts: u128,
    takes: u128,
    steals: u128,
    left: u128,
}

impl Model for Tally {
    ghost use Rattle.eventpool.specs.Pools.{PoolCounts};

    ghost Value = { PoolCounts };

    ghost use Rattle.std.specs.Prelude.{◌≡◌, ◌+◌};

    ghost view = { λ s. record { puts = s.puts; takes = s.takes; steals = s.steals; left = s.left } };

    ghost invariant = { λ s. s.puts ≡ s.takes + s.steals + s.left };
}

impl Tally {
    /// These numbers of a pool in which each ticket that was put was taken, stolen or left.
    pub(crate) fn new(puts: u128, takes: u128, steals: u128, left: u128) -> Tally
        requires { puts ≡ takes + steals + left }
        ensures { result ≡ record { puts = puts; takes = takes; steals = steals; left = left } }
    {
        Tally {
            puts,
            takes,
            steals,
            left,
        }
    }

    /// How many were put. Each was taken, was stolen or was left.
    pub fn puts(&self) -> u128
        ensures value { result ≡ self.now.puts }
        ensures all { self.now.puts ≡ self.now.takes + self.now.steals + self.now.left }
    {
        self.puts
    }

    /// How many the owners took.
    pub fn takes(&self) -> u128
        ensures value { result ≡ self.now.takes }
    {
        self.takes
    }

    /// How many the thieves stole.
    pub fn steals(&self) -> u128
        ensures value { result ≡ self.now.steals }
    {
        self.steals
    }

    /// How many were in the deques at the end.
    pub fn left(&self) -> u128
        ensures value { result ≡ self.now.left }
    {
        self.left
    }
}
