//! The pushes of two phases in plain lists, wherever they are kept.

ghost use Rattle.std.specs.Prelude.{ℕ, List};
ghost use Rattle.fr_route.specs.Listed.{ArePhasesListed};
ghost use Rattle.fr_ways.specs.Faults.{ArePhases};
ghost use Rattle.fr_ways.specs.Phases.{growths, shrinks};

use fr_ways::{PushList, TwoPhases, WayChanges};

/// The pushes of two phases in plain lists.
#[derive(Clone, Copy)]
pub(crate) struct ListedPhases<'a> {
    pub(crate) shrink: PushList<'a>,
    pub(crate) grow: PushList<'a>,
}

/// The pushes that were planned between two tables.
pub(crate) fn from_plan(phases: &TwoPhases) -> ListedPhases<'_>
    ensures { (old new : List (List ℕ)) → ArePhases old new phases.now
        → ArePhasesListed (shrinks old new) (growths old new) result }
{
    ListedPhases {
        shrink: phases.shrink.as_list(),
        grow: phases.grow.as_list(),
    }
}

/// The pushes that were noted of a change.
pub(crate) fn from_changes(changes: &WayChanges) -> ListedPhases<'_>
    ensures { ArePhasesListed changes.now.shrink changes.now.grow result }
{
    ListedPhases {
        shrink: changes.shrink(),
        grow: changes.grow(),
    }
}
