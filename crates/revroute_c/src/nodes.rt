//! The calls by which C drives a node: a router that needs no controller.

ghost use Rattle.std.specs.Prelude.{◌≡◌, ◌≢◌, ◌↔◌, ◌⊎◌, None, false, true, ⊤};
ghost use denote.RawPtr.{null_ptr};
ghost use Rattle.fr_node.specs.Nodes.{lets_in, sends_to};
ghost use Rattle.revroute_c.specs.NodeCalls.{ActsAgain, AreGatesOf, AreWaysOf, ConfirmsWritten, HearsBytes, InNode};
ghost use Rattle.revroute_c.specs.NodeCalls.{IsNoStart, IsOpened, IsOpenedGateway, IsSafeGate, IsSafeWay, IsStateOf};
ghost use Rattle.revroute_c.specs.NodeCalls.{KnowsNeighbour, OfNode, SaysBytesTo, SetsCostTo, TellsNews, TellsNodeDistance, TicksOnce};
ghost use Rattle.revroute_c.specs.NodeCalls.{TurnsLink, number_of_flag, policy_of};
ghost use Rattle.revroute_c.specs.NodeLending.{IsSameNode};
ghost use Rattle.revroute_c.specs.Replies.{outcome, GivesList};
ghost use Rattle.revroute_c.specs.Statuses.{REVROUTE_ANSWERED, REVROUTE_NO_MEMORY};
ghost use Rattle.revroute_c.specs.Statuses.{REVROUTE_NO_NETWORK, REVROUTE_REFUSED, REVROUTE_TOO_SHORT};

use crate::node_handle::NodeHandle;
use crate::node_state::NodeState;
use crate::statuses::{ANSWERED, NO_MEMORY, NO_NETWORK, REFUSED};
use fr_node::{Node, Policy, Rise};
use std::alloc::Global;

/// When a node changes its height.
#[repr(C)]
#[derive(Clone, Copy)]
pub struct NodePolicy {
    /// When it raises its height: one of [`FULL`] and [`TOP`].
    pub rise: u32,
    /// The ceiling of [`TOP`].
    pub ceiling: u32,
    /// Whether it lowers its height with [`FULL`]. 0: no.
    pub lower: u32,
    /// Whether it waits for acknowledgements before it uses a greater height. 0: no.
    pub wait: u32,
}

/// The node raises its height above all neighbours if it has no way.
const FULL: u32 = 0;

/// The node rises to the top if no neighbour offers its height or less, and comes down to the best offer.
const TOP: u32 = 1;

/// The policy that a struct of C names. A kind that is not `FULL` counts as `TOP`.
fn policy_in(policy: NodePolicy) -> Policy
    ensures { result ≡ policy_of policy }
{
    let rise = if policy.rise == FULL {
        Rise::Full
    } else {
        Rise::Top(policy.ceiling)
    };
    Policy {
        rise,
        lower: policy.lower != 0,
        wait: policy.wait != 0,
    }
}

/// Starts a router, and puts it into `handle`. A node that was there is closed. `me`, `boot`, `height` and the policy
/// are as for [`Node::new`]. Nothing has to be written for it yet, because it has no links. Returns `ANSWERED`, or:
///
/// - `REFUSED`: the policy has an unknown kind of rise, or the height is 2^63 or more. This is tested first.
/// - `NO_MEMORY`: an allocation was refused.
///
/// In both cases the handle is unchanged. O(1).
#[unsafe(no_mangle)]
pub extern "C" fn revroute_node_open(
    alloc: Global,
    handle: &mut NodeHandle,
    me: u32,
    boot: u64,
    height: u64,
    policy: &NodePolicy,
) -> u32
    // A restart by `routers_law`, with the number, start, height and policy of the call, and no links.
    ensures opened { result ≡ REVROUTE_ANSWERED
        → OfNode (IsOpened me boot height policy.now) ⊥ handle.new.node_state }
    ensures kept { result ≢ REVROUTE_ANSWERED → handle.new ≡ handle.old }
    // Exactly for an unknown kind of rise or a height of 2^63 or more.
    ensures refused { (result ≡ REVROUTE_REFUSED) ↔ IsNoStart height policy.now }
    ensures status { (result ≡ REVROUTE_ANSWERED) ⊎ (result ≡ REVROUTE_NO_MEMORY) ⊎ (result ≡ REVROUTE_REFUSED) }
{
    if policy.rise > TOP {
        return REFUSED;
    }
    let Ok(node) = Node::new(alloc, me, boot, height, policy_in(*policy)) else {
        return REFUSED;
    };
    match Box::new(alloc, NodeState::new(alloc, node)) {
        Ok(node_state) => {
            handle.pointer().put(alloc, node_state);
            ANSWERED
        }
        Err(_) => NO_MEMORY,
    }
}

/// Starts a gateway, and puts it into `handle`. A node that was there is closed. `me` and `boot` are as for
/// [`Node::gateway`]. Returns `NO_MEMORY` if an allocation was refused; then the handle is unchanged. O(1).
#[unsafe(no_mangle)]
pub extern "C" fn revroute_node_open_gateway(
    alloc: Global,
    handle: &mut NodeHandle,
    me: u32,
    boot: u64,
) -> u32
    // A restart by `routers_law`, with the number and the start of the call, and no links.
    ensures opened { result ≡ REVROUTE_ANSWERED → OfNode (IsOpenedGateway me boot) ⊥ handle.new.node_state }
    ensures kept { result ≢ REVROUTE_ANSWERED → handle.new ≡ handle.old }
    ensures status { (result ≡ REVROUTE_ANSWERED) ⊎ (result ≡ REVROUTE_NO_MEMORY) }
{
    let node = Node::gateway(alloc, me, boot);
    match Box::new(alloc, NodeState::new(alloc, node)) {
        Ok(node_state) => {
            handle.pointer().put(alloc, node_state);
            ANSWERED
        }
        Err(_) => NO_MEMORY,
    }
}

/// Makes a neighbour known, as [`Node::know`] does, with the cost of the link to it. The link is down. This is the only
/// call on an open node that takes memory. Returns `ANSWERED`, or:
///
/// - `REFUSED`: the neighbour is the router itself, or the cost is 0.
/// - `NO_MEMORY`: an allocation was refused.
/// - `NO_NETWORK`: the handle is null.
///
/// In these cases the node is unchanged. O(d) for d known neighbours.
#[unsafe(no_mangle)]
pub extern "C" fn revroute_node_know(handle: &mut NodeHandle, neighbour: u32, cost: u32) -> u32
    // `REFUSED` exactly for the router itself or the cost 0, with memory or without.
    ensures known { InNode (KnowsNeighbour neighbour cost result) (result ≡ REVROUTE_NO_NETWORK)
        handle.old.node_state handle.new.node_state }
    ensures same_handle { handle.new.at ≡ handle.old.at }
{
    match handle.pointer().value_mut() {
        Some(node_state) => node_state.know(neighbour, cost),
        None => NO_NETWORK,
    }
}

/// Call this when the link to a neighbour comes up. If the neighbour is not known, no link changes. The policy may
/// change the height. Then ways and gates have to be written: until [`revroute_node_written`] nothing is said. Events
/// may come meanwhile. Returns `NO_NETWORK` if the handle is null. It takes no memory. O(d).
#[unsafe(no_mangle)]
pub extern "C" fn revroute_node_link_up(handle: &mut NodeHandle, neighbour: u32) -> u32
    // The link is then up, and nothing else that is known of links changes. The call is a step of `routers_law`.
    ensures up { InNode (TurnsLink neighbour true result) (result ≡ REVROUTE_NO_NETWORK)
        handle.old.node_state handle.new.node_state }
    ensures same_handle { handle.new.at ≡ handle.old.at }
{
    match handle.pointer().value_mut() {
        Some(node_state) => node_state.set_link_state(neighbour, true),
        None => NO_NETWORK,
    }
}

/// Call this when the link to a neighbour goes down. All else is as for [`revroute_node_link_up`]. O(d).
#[unsafe(no_mangle)]
pub extern "C" fn revroute_node_link_down(handle: &mut NodeHandle, neighbour: u32) -> u32
    // As for `revroute_node_link_up`, but the link is then down.
    ensures down { InNode (TurnsLink neighbour false result) (result ≡ REVROUTE_NO_NETWORK)
        handle.old.node_state handle.new.node_state }
    ensures same_handle { handle.new.at ≡ handle.old.at }
{
    match handle.pointer().value_mut() {
        Some(node_state) => node_state.set_link_state(neighbour, false),
        None => NO_NETWORK,
    }
}

/// Changes what it costs this router to send a packet to a neighbour, as [`Node::set_cost`] does. What was heard on the
/// link stays. If the neighbour is not known, no link changes. All else is as for [`revroute_node_link_up`]. Returns
/// `ANSWERED`, or:
///
/// - `REFUSED`: the cost is 0.
/// - `NO_NETWORK`: the handle is null.
///
/// In these cases the node is unchanged. O(d).
#[unsafe(no_mangle)]
pub extern "C" fn revroute_node_set_cost(handle: &mut NodeHandle, neighbour: u32, cost: u32) -> u32
    // `REFUSED` exactly for the cost 0. Otherwise the link has this cost, nothing else that is known of links changes,
    // and the call is a step of `routers_law`.
    ensures cost { InNode (SetsCostTo neighbour cost result) (result ≡ REVROUTE_NO_NETWORK)
        handle.old.node_state handle.new.node_state }
    ensures same_handle { handle.new.at ≡ handle.old.at }
{
    match handle.pointer().value_mut() {
        Some(node_state) => node_state.set_cost(neighbour, cost),
        None => NO_NETWORK,
    }
}

/// Lets a tick pass on all links, as [`Node::tick`] does. Returns 1 if a link counts as up no longer, because its
/// neighbour has said nothing to this start of the router for `patience` ticks: then ways and gates have to be written,
/// as after [`revroute_node_link_up`]. Returns 0 otherwise, which is no event, and for a null handle. It takes no
/// memory. O(d).
#[unsafe(no_mangle)]
pub extern "C" fn revroute_node_tick(handle: &mut NodeHandle, patience: u32) -> u32
    // 1 exactly if a link was lost, which is an event, and 0 otherwise.
    ensures ticks { InNode (TicksOnce patience result) (result ≡ 0) handle.old.node_state handle.new.node_state }
    ensures same_handle { handle.new.at ≡ handle.old.at }
{
    match handle.pointer().value_mut() {
        Some(node_state) => node_state.tick(patience),
        None => 0,
    }
}

/// Lets the policy change the height once more, as [`Node::act`] does. Returns 1 if that has changed something: then ways
/// and gates have to be written, as after [`revroute_node_link_up`]. Returns 0 if nothing has changed, which is no event,
/// and for a null handle. Each event takes one step of the policy, so call this until it returns 0. It takes no memory.
/// O(d).
#[unsafe(no_mangle)]
pub extern "C" fn revroute_node_act(handle: &mut NodeHandle) -> u32
    // 1 exactly if that has changed something, and 0 otherwise; then nothing has changed.
    ensures acts { InNode (ActsAgain result) (result ≡ 0) handle.old.node_state handle.new.node_state }
    ensures same_handle { handle.new.at ≡ handle.old.at }
{
    match handle.pointer().value_mut() {
        Some(node_state) => node_state.act(),
        None => 0,
    }
}

/// Hears the message with these bytes. If the message is taken, then ways and gates have to be written, as after
/// [`revroute_node_link_up`]. If not, because it is repeated, for example, then the node is unchanged. Returns
/// `ANSWERED`, or:
///
/// - `NO_MESSAGE`: the bytes are not a message, because of their number or their header.
/// - `LATER_START`: the message is for this router and from a known neighbour, and this neighbour knows a start of this
///   router with a greater number. So the number of this start was not greater than all before it, or another router has
///   the same number. This node hears nothing from such neighbours: it should be closed.
/// - `NO_NETWORK`: the handle is null.
///
/// In these cases the node is unchanged. It takes no memory. O(d).
#[unsafe(no_mangle)]
pub extern "C" fn revroute_node_hear(handle: &mut NodeHandle, bytes: &[u8]) -> u32
    // As by `Node::hear`, so the call is a step of `routers_law`. A message that the node does not take changes
    // nothing. `NO_MESSAGE` exactly for bytes that are not a message, `LATER_START` exactly as by `Node::hear`.
    ensures heard { InNode (HearsBytes bytes.now result) (result ≡ REVROUTE_NO_NETWORK)
        handle.old.node_state handle.new.node_state }
    ensures same_handle { handle.new.at ≡ handle.old.at }
{
    match handle.pointer().value_mut() {
        Some(node_state) => node_state.hear(bytes),
        None => NO_NETWORK,
    }
}

/// The caller says that the ways and gates that were handed out with this number are written. From then on messages may
/// be said. Returns `ANSWERED`, or:
///
/// - `OUTDATED`: an event came after them. The ways and gates have to be written as they are now.
/// - `NO_NETWORK`: the handle is null.
///
/// In both cases the node is unchanged. O(1).
#[unsafe(no_mangle)]
pub extern "C" fn revroute_node_written(handle: &mut NodeHandle, state: u64) -> u32
    // `OUTDATED` exactly if an event came after the ways and gates with that number.
    ensures written { InNode (ConfirmsWritten state result) (result ≡ REVROUTE_NO_NETWORK)
        handle.old.node_state handle.new.node_state }
    ensures same_handle { handle.new.at ≡ handle.old.at }
{
    match handle.pointer().value_mut() {
        Some(node_state) => node_state.written(state),
        None => NO_NETWORK,
    }
}

/// Says the message for a neighbour now: writes its bytes to the front of `message`, and their number to `size`. It may
/// be said as often as the caller likes. Returns `ANSWERED`, or:
///
/// - `UNWRITTEN`: ways and gates are not written yet. This is tested first.
/// - `TOO_SHORT`: the place has less than 64 bytes. `size` is 64.
/// - `LINK_DOWN`: the neighbour is not known, or the caller has not said that the link to it is up.
/// - `NO_NETWORK`: the handle is null.
///
/// In these cases the node and the place are unchanged, and `size` is 0 except for `TOO_SHORT`. O(d).
#[unsafe(no_mangle)]
pub extern "C" fn revroute_node_say(
    handle: &mut NodeHandle,
    neighbour: u32,
    message: &mut [u8],
    size: &mut usize,
) -> u32
    // The message is true by `routers_law`, and its bytes are in the buffer. The node says nothing until the caller
    // says that ways and gates are written, to a neighbour whose link the caller does not say is up, or for a buffer
    // that is too short, under 64 bytes.
    ensures says { InNode (SaysBytesTo neighbour (outcome result message.old message.new size.new))
        ((result ≡ REVROUTE_NO_NETWORK) × (message.new ≡ message.old) × (size.new ≡ 0))
        handle.old.node_state handle.new.node_state }
    ensures same_handle { handle.new.at ≡ handle.old.at }
{
    *size = 0;
    match handle.pointer().value_mut() {
        Some(node_state) => node_state.say(neighbour, message, size),
        None => NO_NETWORK,
    }
}

/// Writes to `news` whether there is news for a neighbour: 1 if there is a message for it, which differs from the last
/// one that was said by more than its stamp, and 0 otherwise. Returns `ANSWERED`, or:
///
/// - `UNWRITTEN`: ways and gates are not written yet.
/// - `NO_NETWORK`: the handle is null.
///
/// In both cases `news` is unchanged. O(d).
#[unsafe(no_mangle)]
pub extern "C" fn revroute_node_has_news(
    handle: &mut NodeHandle,
    neighbour: u32,
    news: &mut u32,
) -> u32
    // A message is news if it differs from the last one that the node said by more than its stamp. There is no news
    // before ways and gates are written.
    ensures news { OfNode (TellsNews neighbour result news.old news.new)
        ((result ≡ REVROUTE_NO_NETWORK) × (news.new ≡ news.old)) handle.old.node_state }
    ensures same { IsSameNode handle.old handle.new }
{
    match handle.pointer().value_mut() {
        Some(node_state) => node_state.tell_news(neighbour, news),
        None => NO_NETWORK,
    }
}

/// Writes the neighbours to which packets may be sent to the front of `ways`, the nearest first, and equally near ones
/// by number, and their number to `size`. A gateway has none. Writes to `state` the number that
/// [`revroute_node_written`] wants once they and the gates are written. Returns `ANSWERED`, or:
///
/// - `TOO_SHORT`: there is too little room.
/// - `NO_NETWORK`: the handle is null. `size` is 0, and `state` is unchanged.
///
/// In both cases `ways` is unchanged. The node never changes. It takes no memory. O(d log d).
#[unsafe(no_mangle)]
pub extern "C" fn revroute_node_ways(
    handle: &mut NodeHandle,
    ways: &mut [u32],
    size: &mut usize,
    state: &mut u64,
) -> u32
    ensures same { IsSameNode handle.old handle.new }
    ensures gives { GivesList (AreWaysOf handle.old.node_state) (outcome result ways.old ways.new size.new) }
    // The number that confirms them.
    ensures state { IsStateOf handle.old.node_state state.old state.new }
    ensures no_network { (result ≡ REVROUTE_NO_NETWORK) ↔ (handle.old.node_state ≡ None) }
    ensures status { (result ≡ REVROUTE_ANSWERED) ⊎ (result ≡ REVROUTE_TOO_SHORT) ⊎ (result ≡ REVROUTE_NO_NETWORK) }
{
    *size = 0;
    match handle.pointer().value_mut() {
        Some(node_state) => node_state.list_ways(ways, size, state),
        None => NO_NETWORK,
    }
}

/// Writes the neighbours that are let in to the front of `gates`, in the order in which they were made known. All else
/// is as for [`revroute_node_ways`]. O(d).
#[unsafe(no_mangle)]
pub extern "C" fn revroute_node_gates(
    handle: &mut NodeHandle,
    gates: &mut [u32],
    size: &mut usize,
    state: &mut u64,
) -> u32
    ensures same { IsSameNode handle.old handle.new }
    ensures gives { GivesList (AreGatesOf handle.old.node_state) (outcome result gates.old gates.new size.new) }
    // The number that confirms them.
    ensures state { IsStateOf handle.old.node_state state.old state.new }
    ensures no_network { (result ≡ REVROUTE_NO_NETWORK) ↔ (handle.old.node_state ≡ None) }
    ensures status { (result ≡ REVROUTE_ANSWERED) ⊎ (result ≡ REVROUTE_TOO_SHORT) ⊎ (result ≡ REVROUTE_NO_NETWORK) }
{
    *size = 0;
    match handle.pointer().value_mut() {
        Some(node_state) => node_state.list_gates(gates, size, state),
        None => NO_NETWORK,
    }
}

/// Writes to `distance` the cost of the nearest route from this router to a gateway, by what it has heard: 0 at a
/// gateway. Returns `ANSWERED`, or:
///
/// - `NO_ROUTE`: there is no way, or no way has a distance.
/// - `NO_NETWORK`: the handle is null.
///
/// In both cases `distance` is unchanged. O(d).
#[unsafe(no_mangle)]
pub extern "C" fn revroute_node_distance(handle: &mut NodeHandle, distance: &mut u32) -> u32
    // `NO_ROUTE` only without a distance.
    ensures distance { OfNode (TellsNodeDistance result distance.old distance.new)
        ((result ≡ REVROUTE_NO_NETWORK) × (distance.new ≡ distance.old)) handle.old.node_state }
    ensures same { IsSameNode handle.old handle.new }
{
    match handle.pointer().value_mut() {
        Some(node_state) => node_state.tell_distance(distance),
        None => NO_NETWORK,
    }
}

/// Writes the height in use to `height`. Returns `NO_NETWORK` if the handle is null; then `height` is unchanged. O(1).
#[unsafe(no_mangle)]
pub extern "C" fn revroute_node_height(handle: &mut NodeHandle, height: &mut u64) -> u32
    ensures height { OfNode (λ k. (result ≡ REVROUTE_ANSWERED) × (height.new ≡ k.own.used))
        ((result ≡ REVROUTE_NO_NETWORK) × (height.new ≡ height.old)) handle.old.node_state }
    ensures same { IsSameNode handle.old handle.new }
{
    match handle.pointer().value_mut() {
        Some(node_state) => {
            *height = node_state.height();
            ANSWERED
        }
        None => NO_NETWORK,
    }
}

/// Returns 1 if packets from a neighbour are let in, and 0 if they are to be dropped, as for a null handle. O(d).
#[unsafe(no_mangle)]
pub extern "C" fn revroute_node_lets_in(handle: &mut NodeHandle, neighbour: u32) -> u32
    ensures open { OfNode (λ k. result ≡ number_of_flag (lets_in k neighbour)) (result ≡ 0) handle.old.node_state }
    // An open gate is one of `routers_law`.
    ensures safe { OfNode (IsSafeGate neighbour result) ⊤ handle.old.node_state }
    ensures same { IsSameNode handle.old handle.new }
{
    match handle.pointer().value_mut() {
        Some(node_state) => node_state.lets_in(neighbour),
        None => 0,
    }
}

/// Returns 1 if packets may be sent to a neighbour, and 0 otherwise, as for a null handle. O(d).
#[unsafe(no_mangle)]
pub extern "C" fn revroute_node_sends_to(handle: &mut NodeHandle, neighbour: u32) -> u32
    ensures way { OfNode (λ k. result ≡ number_of_flag (sends_to k neighbour)) (result ≡ 0) handle.old.node_state }
    // A way is one of `routers_law`.
    ensures safe { OfNode (IsSafeWay neighbour result) ⊤ handle.old.node_state }
    ensures same { IsSameNode handle.old handle.new }
{
    match handle.pointer().value_mut() {
        Some(node_state) => node_state.sends_to(neighbour),
        None => 0,
    }
}

/// Closes a node. The handle is then null. O(1).
#[unsafe(no_mangle)]
pub extern "C" fn revroute_node_close(alloc: Global, handle: &mut NodeHandle)
    ensures none { handle.new.node_state ≡ None }
    ensures null { handle.new.at ≡ null_ptr }
{
    drop(handle.pointer().take(alloc));
}
