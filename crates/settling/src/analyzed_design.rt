//! A design with its combinational processes.
ghost use Rattle.std.specs.Prelude.{◌≡◌};
ghost use Rattle.combinational.specs.Found.{IsNetworkOf};

use combinational::{Network, network_of};
use design::Design;
use std::alloc::Global;
use std::marker::Model;

/// A design with its combinational processes, which are found once.
#[derive(Drop)]
pub struct AnalyzedDesign<'d> {
    design: &'d Design,
    network: Network,
}

impl<'d> Model for AnalyzedDesign<'d> {
    ghost use Rattle.design.specs.Compiled.{Compiled};
    ghost use Rattle.combinational.specs.Found.{IsNetworkOf};

    ghost Value = { Compiled };

    ghost use Rattle.std.specs.Coded.{codes};
    ghost use Rattle.design.specs.contracts.tree.Statement as statements;

    ghost coded = { Prim.hlevel (codes, statements.the_row.coded) };

    ghost view = { λ s. s.design.now };

    ghost invariant = { λ s. IsNetworkOf s.design.now s.network };
}

impl<'d> AnalyzedDesign<'d> {
    /// A design with those of its processes that are found to be combinational, and with none where memory is refused.
    pub fn of(alloc: Global, design: &'d Design) -> AnalyzedDesign<'d>
        ensures { result ≡ design.now }
    {
        match network_of(alloc, design) {
            Ok(network) => AnalyzedDesign { design, network },
            Err(_) => AnalyzedDesign {
                design,
                network: Network {
                    logics: Vec::new(alloc),
                    ranks: Vec::new(alloc),
                },
            },
        }
    }

    /// The design.
    pub fn design(&self) -> &'d Design
        ensures { result.now ≡ self.now }
    {
        self.design
    }

    /// Its combinational processes.
    pub fn network(&self) -> &Network
        ensures { IsNetworkOf self.now result.now }
    {
        &self.network
    }
}
