//! The two ways in which networks are settled: by a crew, or on the calling thread.

ghost use Rattle.std.specs.Prelude.{◌≡◌, ◌≢◌, ℕ, ◌<◌, ◌≤◌, IfOk, IfErr, OnOk, Some, length, replicate};
ghost use Rattle.fr_graph.specs.Batches.{AreMade};
ghost use Rattle.fr_graph.specs.Limits.{most_edits};
ghost use Rattle.fr_graph.specs.Network.{Network};
ghost use Rattle.fr_crew.specs.Settlements.{CanBegin, HoldsSinks, IsCounted};
ghost use Rattle.fr_crew.specs.declared.fault.CrewFault.TheVariants.{Start as CrewStart};
ghost use Rattle.fr_route.specs.Outcomes.{IsOutcome, IsRoundFault};
ghost use Rattle.fr_route.specs.Tries.{AreTried};
ghost use Rattle.fr_route.specs.Ways.{IsCountAnswer, NeverStarts, Settles};
ghost use Rattle.fr_route.specs.declared.fault.RouteFault.TheVariants.{Start};

use crate::fault::{NotMade, RouteFault};
use crate::outcome::{Outcome, any_can_turn, report_of};
use crate::revision::Revision;
use crate::spare_turns::SpareTurns;
use fr_crew::{CrewFault, settled_counts_alone};
use fr_graph::{Net, Turns};
use std::alloc::Global;

/// Settles networks by a crew, or on the calling thread: a closure over [`settled_counts`](fr_crew::settled_counts), or
/// [`counts_without_crew`], with an allocator. Everything that is the same in both ways is a method of this type.
#[derive(Drop)]
pub(crate) struct Settler<'a, F> {
    pub(crate) alloc: Global,
    settle: &'a F,
}

/// The settled counts of a network, on the calling thread, for a [`Settler`]. It is a function of this crate because a
/// function of another crate has no proof as a value, and because a closure is proved again at each place.
pub(crate) fn counts_without_crew(
    net: &Net,
    dest: u32,
    from: Option<&[u32]>,
    turns: Turns,
) -> Result<Turns, CrewFault>
    requires { CanBegin net.now dest from turns }
    ensures answer { IsCountAnswer net.now dest result }
    ensures no_start { IfErr result (λ fault. fault ≢ CrewStart) }
{
    settled_counts_alone(net, dest, from, turns)
}

impl<'a, F: Fn(&Net, u32, Option<&[u32]>, Turns) -> Result<Turns, CrewFault>> Settler<'a, F> {
    /// A settler with this allocator and this way to get settled counts.
    pub(crate) fn new(alloc: Global, settle: &'a F) -> Settler<'a, F>
        ensures { result.settle.now ≡ settle.now }
    {
        Settler { alloc, settle }
    }

    /// The settled counts of a network, by this way.
    fn settled_turns(
        &self,
        net: &Net,
        dest: u32,
        from: Option<&[u32]>,
        turns: Turns,
    ) -> Result<Turns, CrewFault>
        requires settles { Settles F.pre F.post self.now.settle.now }
        requires begin { CanBegin net.now dest from turns }
        ensures answer { IsCountAnswer net.now dest result }
        ensures no_start { NeverStarts F.post self.now.settle.now → IfErr result (λ fault. fault ≢ CrewStart) }
    {
        (self.settle)(net, dest, from, turns)
    }

    /// The settled counts of a network. If no node of `from` can turn, there are no turns, and the call only looks at
    /// these nodes.
    fn settled_from(
        &self,
        net: &Net,
        dest: u32,
        from: &[u32],
        turns: Turns,
    ) -> Result<Turns, CrewFault>
        requires settles { Settles F.pre F.post self.now.settle.now }
        requires from { (dest < net.now.nodes) × HoldsSinks net.now dest from.now }
        requires none { turns ≡ replicate net.now.nodes 0 }
        ensures answer { IsCountAnswer net.now dest result }
        ensures no_start { NeverStarts F.post self.now.settle.now → IfErr result (λ fault. fault ≢ CrewStart) }
    {
        net.network_law();
        if !any_can_turn(net, dest, turns.counts(), from) {
            return Ok(turns);
        }
        self.settled_turns(net, dest, Some(from), turns)
    }

    /// The settled counts of a network whose sinks are not known. Fails with `Range` if the destination is not a node,
    /// which is tested first.
    pub(crate) fn first_counts(&self, net: &Net, dest: u32) -> Result<Turns, RouteFault>
        requires { Settles F.pre F.post self.now.settle.now }
        ensures counted { IfOk result (IsCounted net.now.nodes dest net.now.links) }
        ensures fault { IfErr result (IsRoundFault (NeverStarts F.post self.now.settle.now) net.now dest) }
    {
        if dest >= net.nodes() {
            return Err(RouteFault::Range);
        }
        let turns = Turns::none(self.alloc, net.nodes())?;
        Ok(self.settled_turns(net, dest, None, turns)?)
    }

    /// The outcome of a round on a network. `turns` is a table in which no node has turned yet. Each node that can turn
    /// at first must be in `from`.
    pub(crate) fn outcome(
        &self,
        net: &Net,
        dest: u32,
        from: &[u32],
        turns: Turns,
    ) -> Result<Outcome, RouteFault>
        requires settles { Settles F.pre F.post self.now.settle.now }
        requires from { (dest < net.now.nodes) × HoldsSinks net.now dest from.now }
        requires none { turns ≡ replicate net.now.nodes 0 }
        ensures outcome { IfOk result (IsOutcome net.now dest) }
        ensures fault { IfErr result (IsRoundFault (NeverStarts F.post self.now.settle.now) net.now dest) }
    {
        let turns = self.settled_from(net, dest, from, turns)?;
        let report = report_of(net, dest, &turns);
        Ok(Outcome {
            dest,
            turns,
            report,
        })
    }

    /// Makes the edits of a revision in a network, if the network that they make can be settled, and returns the
    /// outcome of the round on it. `spare` is a table for the round. Each node that can turn at first must be in
    /// `from`.
    pub(crate) fn edited_outcome(
        &self,
        net: &mut Net,
        spare: &mut SpareTurns,
        revision: &Revision<'_>,
        from: &[u32],
    ) -> Result<Outcome, NotMade>
        requires settles { Settles F.pre F.post self.now.settle.now }
        requires few { (revision.now.dest < net.old.nodes) × (length revision.now.edits.now ≤ most_edits) }
        requires from { (made : Network) → AreMade net.old revision.now.edits.now made
            → HoldsSinks made revision.now.dest from.now }
        ensures { AreTried (NeverStarts F.post self.now.settle.now) net.old revision.now result net.new }
    {
        let dest = revision.dest;
        let outcome = net.edit_if(
            self.alloc,
            revision.edits,
            |made|
                requires settles { Settles F.pre F.post self.now.settle.now }
                requires from { (dest < made.now.nodes) × HoldsSinks made.now dest from.now }
                ensures outcome { IfOk result (IsOutcome made.entry.now dest) }
                ensures fault { IfErr result
                    (IsRoundFault (NeverStarts F.post self.entry.now.settle.now) made.entry.now dest) }
            {
                let turns = spare.take(self.alloc, made.nodes())?;
                self.outcome(made, dest, from, turns)
            },
        )?;
        Ok(outcome)
    }
}
