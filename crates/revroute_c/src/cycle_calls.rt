//! Calls that name the cycle of links that are refused.

ghost use Rattle.std.specs.Prelude.{◌≡◌, ◌≤◌, ◌⊎◌, ◌↔◌, None, length, map};
ghost use Rattle.fr_graph.specs.Faults.{PassFirstTests};
ghost use Rattle.fr_graph.specs.Limits.{most_edits};
ghost use Rattle.revroute_c.specs.ClosedWalks.{HasNoWalkOfChange, HasNoWalkOfNetwork};
ghost use Rattle.revroute_c.specs.ClosedWalks.{IsWalkOfChange, IsWalkOfNetwork};
ghost use Rattle.revroute_c.specs.Lending.{IsUnchanged};
ghost use Rattle.revroute_c.specs.Questions.{no_network};
ghost use Rattle.revroute_c.specs.Records.{AreKnown, link_of};
ghost use Rattle.revroute_c.specs.Replies.{outcome, GivesList};
ghost use Rattle.revroute_c.specs.Statuses.{REVROUTE_ANSWERED, REVROUTE_TOO_SHORT};
ghost use Rattle.revroute_c.specs.Statuses.{REVROUTE_NO_MEMORY, REVROUTE_NO_NETWORK};
ghost use Rattle.revroute_c.specs.Statuses.{REVROUTE_NO_WALK};

use crate::closed_walks::{walk_of_change, walk_of_network};
use crate::handle::Handle;
use crate::records::{Link, LinkEdit};
use crate::statuses::{NO_MEMORY, NO_NETWORK, TOO_SHORT};
use std::alloc::Global;

/// Writes the cycle for which [`revroute_change`] refuses these edits to the front of `nodes`, and its length to
/// `size`. The first node comes again at the end. Returns `NO_WALK` if the edits are not refused for a cycle; if an
/// edit has an unknown kind or there are too many, this needs no memory. `TOO_SHORT`, `NO_NETWORK` and `NO_MEMORY` are
/// as for [`revroute_links`]. Nothing changes. O(n + m), and the cost of the edits.
#[unsafe(no_mangle)]
pub extern "C" fn revroute_closed_walk(
    alloc: Global,
    handle: &mut Handle,
    edits: &[LinkEdit],
    nodes: &mut [u32],
    size: &mut usize,
) -> u32
    ensures same { IsUnchanged handle.old handle.new }
    // Exactly the cycle of a JSON answer.
    ensures gives { GivesList (IsWalkOfChange handle.old.session edits.now)
        (outcome result nodes.old nodes.new size.new) }
    ensures no_network { (result ≡ REVROUTE_NO_NETWORK) ↔ (handle.old.session ≡ None) }
    // Only if there is no such cycle.
    ensures no_walk { result ≡ REVROUTE_NO_WALK → HasNoWalkOfChange handle.old.session edits.now }
    // Never for too many edits or an unknown kind.
    ensures no_memory { result ≡ REVROUTE_NO_MEMORY → AreKnown edits.now × (length edits.now ≤ most_edits) }
    ensures status { (result ≡ REVROUTE_ANSWERED) ⊎ ((REVROUTE_TOO_SHORT ≤ result) × (result ≤ REVROUTE_NO_NETWORK))
        ⊎ (result ≡ REVROUTE_NO_WALK) }
{
    *size = 0;
    match handle.pointer().value_mut() {
        Some(state) => walk_of_change(state.session(), alloc, edits, nodes, size),
        None => NO_NETWORK,
    }
}

/// Writes the cycle for which [`revroute_open`] refuses these links with this number of nodes, as
/// [`revroute_closed_walk`] does for edits. It needs no session. It also needs no memory to return `NO_WALK` for the
/// faults that [`revroute_open`] finds without memory. O(n + m).
#[unsafe(no_mangle)]
pub extern "C" fn revroute_closed_walk_of(
    alloc: Global,
    nodes: u32,
    links: &[Link],
    walk: &mut [u32],
    size: &mut usize,
) -> u32
    ensures gives { GivesList (IsWalkOfNetwork nodes (map link_of links.now))
        (outcome result walk.old walk.new size.new) }
    ensures no_walk { result ≡ REVROUTE_NO_WALK → HasNoWalkOfNetwork nodes (map link_of links.now) }
    // Never for links that `revroute_open` refuses without memory.
    ensures no_memory { result ≡ REVROUTE_NO_MEMORY → PassFirstTests nodes (map link_of links.now) }
    ensures status { (result ≡ REVROUTE_ANSWERED) ⊎ (result ≡ REVROUTE_TOO_SHORT) ⊎ (result ≡ REVROUTE_NO_MEMORY)
        ⊎ (result ≡ REVROUTE_NO_WALK) }
{
    *size = 0;
    walk_of_network(alloc, nodes, links, walk, size)
}
