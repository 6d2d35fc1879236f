//! The targets of a machine's workers.

ghost use Rattle.std.specs.Prelude.{◌≡◌, ◌↔◌, IsTrue, IfSome, IfNone};
ghost use Rattle.fr_core.specs.Targets.{node_of, IsUnturnable, IsUnlookable, IsTargetRefused};
ghost use Rattle.fr_core.specs.Targets.{IsFirstBadTarget, AreAccepted, AreAllAccepted, lists_of};
ghost use Rattle.fr_core.specs.Sound.{IsFirstRefused};

use fr_graph::Net;

/// One target of a worker of a machine.
#[derive(Debug, Drop, Clone, Copy, PartialEq, Eq)]
pub enum Target {
    /// Turn this node, if it is a sink.
    Turn(u32),
    /// Look whether a link points away from this node, and turn nothing.
    Look(u32),
}

impl Target {
    /// The node of the target.
    pub(crate) fn node(self) -> u32
        ensures { result ≡ node_of self }
    {
        match self {
            Target::Turn(x) | Target::Look(x) => x,
        }
    }
}

/// Whether a look at node `x` is refused: it is not a node, or has no link.
fn is_look_refused(net: &Net, x: u32) -> bool
    ensures { IsTrue result ↔ IsUnlookable net.now.nodes net.now.links x }
{
    x >= net.nodes() || net.degree(x) == 0
}

/// Whether a turn of node `x` is refused: a look at it is, or it is the destination.
fn is_turn_refused(net: &Net, dest: u32, x: u32) -> bool
    ensures { IsTrue result ↔ IsUnturnable net.now.nodes dest net.now.links x }
{
    is_look_refused(net, x) || x == dest
}

/// Whether a machine refuses the target.
fn is_refused(net: &Net, dest: u32, target: Target) -> bool
    ensures { IsTrue result ↔ IsTargetRefused net.now.nodes dest net.now.links target }
{
    match target {
        Target::Turn(x) => is_turn_refused(net, dest, x),
        Target::Look(x) => is_look_refused(net, x),
    }
}

/// The place of the first target that a machine refuses.
fn first_refused(net: &Net, dest: u32, targets: &[Target]) -> Option<usize>
    ensures found { IfSome result (IsFirstRefused net.now.nodes dest net.now.links targets.now) }
    ensures none { IfNone result (AreAccepted net.now.nodes dest net.now.links targets.now) }
{
    for (at, target) in targets.iter().enumerate() {
        if is_refused(net, dest, *target) {
            return Some(at);
        }
    }
    None
}

/// The worker and the place of the first target that a machine refuses.
pub(crate) fn find_refused_target(
    net: &Net,
    dest: u32,
    targets: &[Vec<Target>],
) -> Option<(usize, usize)>
    ensures found { IfSome result (λ p. IsFirstBadTarget net.now.nodes dest net.now.links
        (lists_of targets.now) p.0 p.1) }
    ensures none { IfNone result (AreAllAccepted net.now.nodes dest net.now.links (lists_of targets.now)) }
{
    for (worker, list) in targets.iter().enumerate() {
        if let Some(at) = first_refused(net, dest, list) {
            return Some((worker, at));
        }
    }
    None
}
