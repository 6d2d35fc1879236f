//! Tests of a list of links that do not depend on their order.

ghost use Rattle.std.specs.Prelude.{◌≡◌, ℕ, IfSome, IfNone, Contains};
ghost use Rattle.fr_graph.specs.Links.{HasNoSelfLink};
ghost use Rattle.fr_graph.specs.Evidence.{NamesFirst};
ghost use Rattle.fr_graph.specs.declared.fault.NetFault.TheVariants.{Range, SelfLink};
ghost use Rattle.fr_graph.specs.Faults.{IsInRange, IsOutOfRange};

/// The first end of a link that is not a node, or 0 if there is no node. `None` if all ends are nodes.
pub(crate) fn first_outside(nodes: u32, links: &[(u32, u32)]) -> Option<u32>
    ensures found { IfSome result (IsOutOfRange nodes links.now) }
    ensures names { IfSome result (λ x. NamesFirst nodes links.now (Range x)) }
    ensures none { IfNone result (IsInRange nodes links.now) }
{
    if nodes == 0 {
        return Some(0);
    }
    for (tail, head) in links {
        if *tail >= nodes {
            return Some(*tail);
        }
        if *head >= nodes {
            return Some(*head);
        }
    }
    None
}

/// The node of the first link that joins a node with itself.
pub(crate) fn first_self_link(links: &[(u32, u32)]) -> Option<u32>
    ensures found { IfSome result (λ x. Contains links.now (x, x)) }
    ensures names { IfSome result (λ x. NamesFirst 0 links.now (SelfLink x)) }
    ensures none { IfNone result (HasNoSelfLink links.now) }
{
    for (tail, head) in links {
        if tail == head {
            return Some(*tail);
        }
    }
    None
}
