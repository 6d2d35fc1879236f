//! The terms with which a round is opened.

ghost use Rattle.std.specs.Prelude.{◌≡◌, ◌<◌, IfErr, IfOk};
ghost use Rattle.fr_core.specs.Targets.{IsLookable, IsTurnable};
ghost use Rattle.fr_round.specs.Knowledge.{Refuses, RefusesLook};
ghost use Rattle.fr_round.specs.Setups.{setup_of};

use crate::faults::Refusal;
use fr_graph::Net;

/// A network, its destination, and how many workers there are.
#[derive(Drop)]
pub struct RoundSetup {
    pub net: Net,
    pub dest: u32,
    pub workers: u32,
}

impl RoundSetup {
    /// Returns only the network.
    pub fn into_network(self) -> Net
        ensures { result ≡ self.net }
    {
        let RoundSetup {
            net,
            dest: _,
            workers: _,
        } = self;
        net
    }

    /// Refuses a turn of node `x` if it is not a node, is the destination, or has no link.
    pub fn check_turn(&self, x: u32) -> Result<(), Refusal>
        ensures turnable { IfOk result (λ _. IsTurnable self.now.net.nodes self.now.dest self.now.net.links x) }
        ensures refused { IfErr result (Refuses (setup_of self.now) x) }
    {
        if x < self.net.nodes() && x == self.dest {
            return Err(Refusal::Destination);
        }
        self.check_look(x)
    }

    /// Refuses a look at node `x` if it is not a node or has no link.
    pub fn check_look(&self, x: u32) -> Result<(), Refusal>
        ensures lookable { IfOk result (λ _. IsLookable self.now.net.nodes self.now.net.links x) }
        ensures refused { IfErr result (RefusesLook (setup_of self.now) x) }
    {
        if x >= self.net.nodes() {
            return Err(Refusal::NoNode);
        }
        if self.net.degree(x) == 0 {
            return Err(Refusal::Alone);
        }
        Ok(())
    }
}
