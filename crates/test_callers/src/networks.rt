//! Networks from links.

ghost use Rattle.std.specs.Prelude.{◌≡◌, ℕ, ◌<◌, length, IfOk};
ghost use Rattle.fr_graph.specs.Faults.{IsFaultless, IsNetworkOf};
ghost use Rattle.fr_graph.specs.Edits.{without};
ghost use Rattle.fr_graph.specs.Order.{in_order};

use fr_net::{First, Net, NetFault};
use std::alloc::Global;

/// The network of these links once the link between `u` and `v` has failed.
pub fn after_cut(
    alloc: Global,
    nodes: u32,
    links: &[(u32, u32)],
    u: u32,
    v: u32,
) -> Result<Net, NetFault>
    ensures faultless { IfOk result (λ _. IsFaultless nodes links.now) }
    ensures cut { IfOk result (IsNetworkOf nodes (without u v (in_order links.now))) }
{
    let net = Net::new(alloc, nodes, links)?;
    net.with_cut(alloc, u, v)
}

/// To how many neighbours the links of node `x` point.
pub fn outward(net: &Net, x: u32) -> usize
    requires { x < net.now.nodes }
{
    let row = net.row(x);
    row.iter()
        .filter(|(_, first)| *first == First::Outward)
        .count()
}
