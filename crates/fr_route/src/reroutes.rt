//! What a change reroutes, for a caller that asks for all of it.

ghost use Rattle.std.specs.Prelude.{◌≡◌, [], IfOk};
ghost use Rattle.fr_ways.specs.PushLists.{AreListed};

use crate::changed_nodes::ChangedNodes;
use crate::way_notes::WayNotes;
use fr_ways::PushList;
use std::alloc::{AllocError, Global};
use std::marker::Model;

/// What the last change has rerouted: the nodes whose next hop has changed, and what has to be pushed to routers that hold
/// all their ways. The value in contracts has the nodes in push order, and the pushes of both phases.
#[derive(Debug)]
pub struct Reroutes {
    pub(crate) told: ChangedNodes,
}

// Written by hand: code that drops reroutes proves this one call. With a derived Drop it proves how each part is dropped.
impl Drop for Reroutes {
    fn drop(self) {
        let Reroutes { told } = self;
        drop(told);
    }
}

impl Model for Reroutes {
    ghost use Rattle.fr_route.specs.Reroutes.{Rerouted};

    ghost Value = { Rerouted };

    ghost use Rattle.fr_route.specs.Rerouting.{rerouted_in, IsAsking};

    ghost view = { rerouted_in };

    ghost invariant = { IsAsking };
}

impl Reroutes {
    /// No reroutes. Fails with `AllocError` if an allocation is refused. O(1).
    pub fn none(alloc: Global) -> Result<Reroutes, AllocError>
        ensures { IfOk result (λ made. (made.nodes ≡ []) × (made.shrink ≡ []) × (made.grow ≡ [])) }
    {
        let notes = Box::new(alloc, WayNotes::new(alloc)?)?;
        Ok(Reroutes {
            told: ChangedNodes::InList(Vec::new(alloc), Some(notes)),
        })
    }

    /// The nodes whose next hop has changed, in push order. O(1).
    pub fn nodes(&self) -> &[u32]
        ensures { result.now ≡ self.now.nodes }
    {
        self.told.nodes()
    }

    /// The first phase: the nodes that lose ways, each with those that it keeps. Nodes that keep one come first, by number;
    /// then come those that keep none, by number. O(1).
    pub fn shrink(&self) -> PushList<'_>
        ensures { AreListed self.now.shrink result }
    {
        self.told.way_changes().shrink()
    }

    /// The second phase: the nodes whose list after the first phase differs from their new one, by number, each with its new
    /// list. O(1).
    pub fn grow(&self) -> PushList<'_>
        ensures { AreListed self.now.grow result }
    {
        self.told.way_changes().grow()
    }
}
