//! Routes round a link that fails, and which nodes are rerouted.

ghost use Rattle.std.specs.Prelude.{◌≡◌, ◌<◌, IfOk, OnErr};
ghost use Rattle.fr_route.specs.Changes.{IsChanged};
ghost use Rattle.fr_route.specs.Reroutes.{AreRerouted};
ghost use Rattle.fr_route.specs.Routes.{IsWalked};
ghost use Rattle.fr_route.specs.declared.change.Change.TheVariants.{Cut};

use fr_route::{Change, NotMade, Report, RouteFault, Router, Walked};
use std::alloc::Global;

/// Takes the link between `u` and `v` out, settles the network on this thread, and answers the way of node `x` after it.
pub fn way_round(
    alloc: Global,
    router: &mut Router,
    u: u32,
    v: u32,
    x: u32,
) -> Result<Walked, RouteFault>
    requires { x < router.old.nodes }
    ensures cut { IfOk result (λ _. IsChanged router.old (Cut u v) router.new) }
    ensures walked { IfOk result (IsWalked router.new x) }
{
    let _report = router.change_alone(alloc, Change::Cut { u, v })?;
    router.walk(alloc, x)
}

/// The same cut, for a caller with a table of hops: only those of the nodes in the list are new, and `next_hop` has them. They are pushed in
/// the order of the list.
pub fn rerouted_by_cut(
    alloc: Global,
    router: &mut Router,
    u: u32,
    v: u32,
    rerouted: &mut Vec<u32>,
) -> Result<Report, NotMade>
    ensures cut { IfOk result (λ _. IsChanged router.old (Cut u v) router.new) }
    ensures rerouted { IfOk result (λ _. AreRerouted router.old router.new rerouted.new.items) }
    ensures unchanged { OnErr result (router.new ≡ router.old) }
{
    router.change_telling_alone(alloc, Change::Cut { u, v }, rerouted)
}
