//! The faults of links that are found without memory.

ghost use Rattle.std.specs.Prelude.{◌≡◌, map, Contains, IfSome, IfNone};
ghost use Rattle.fr_graph.specs.Evidence.{NamesFirst};
ghost use Rattle.fr_graph.specs.Faults.{IsFirstFault, IsInRange, IsOutOfRange, PassFirstTests};
ghost use Rattle.fr_graph.specs.Links.{HasNoSelfLink};
ghost use Rattle.fr_graph.specs.declared.fault.NetFault.TheVariants.{Range, SelfLink};
ghost use Rattle.revroute_c.specs.Records.{link_of};

use crate::records::Link;
use fr_graph::{MAX_LINKS, MAX_NODES, NetFault};

/// The first end of a link that is not a node, or 0 if there are no nodes.
fn first_outside(nodes: u32, links: &[Link]) -> Option<u32>
    ensures found { IfSome result (IsOutOfRange nodes (map link_of links.now)) }
    ensures names { IfSome result (λ x. NamesFirst nodes (map link_of links.now) (Range x)) }
    ensures none { IfNone result (IsInRange nodes (map link_of links.now)) }
{
    if nodes == 0 {
        return Some(0);
    }
    for link in links {
        if link.tail >= nodes {
            return Some(link.tail);
        }
        if link.head >= nodes {
            return Some(link.head);
        }
    }
    None
}

/// The node of the first link that connects a node with itself.
fn first_self_link(links: &[Link]) -> Option<u32>
    ensures found { IfSome result (λ x. Contains (map link_of links.now) (x, x)) }
    ensures names { IfSome result (λ x. NamesFirst 0 (map link_of links.now) (SelfLink x)) }
    ensures none { IfNone result (HasNoSelfLink (map link_of links.now)) }
{
    for link in links {
        if link.tail == link.head {
            return Some(link.tail);
        }
    }
    None
}

/// The first fault of links, if it is one that is found without memory: too many nodes or links, an end that is not a
/// node, or a link from a node to itself. `Net::new` tests the same, but takes pairs, for which the links of a caller
/// have to be copied. O(m).
pub(crate) fn early_fault(nodes: u32, links: &[Link]) -> Option<NetFault>
    ensures first { IfSome result (IsFirstFault nodes (map link_of links.now)) }
    ensures names { IfSome result (NamesFirst nodes (map link_of links.now)) }
    ensures none { IfNone result (PassFirstTests nodes (map link_of links.now)) }
{
    if nodes > MAX_NODES || links.len() > MAX_LINKS {
        return Some(NetFault::TooMany);
    }
    if let Some(x) = first_outside(nodes, links) {
        return Some(NetFault::Range(x));
    }
    if let Some(node) = first_self_link(links) {
        return Some(NetFault::SelfLink(node));
    }
    None
}
