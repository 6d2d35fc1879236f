//! What the handle of a node points to.

ghost use Rattle.std.specs.Prelude.{◌≡◌, ◌<◌, ◌≤◌, ◌⊎◌, [], IsTrue, Some, length, true, vec_capacity, vec_len, ⊤};
ghost use Rattle.fr_node.specs.Events.{gates_of};
ghost use Rattle.fr_node.specs.Nodes.{lets_in, sends_to};
ghost use Rattle.revroute_c.specs.NodeCalls.{ActsAgain, AreGatesOf, AreNeighbours, AreWaysOf, ConfirmsWritten, HearsBytes};
ghost use Rattle.revroute_c.specs.NodeCalls.{HearsMessage, InNode, IsSafeGate, IsSafeWay, IsStateOf, KnowsNeighbour, OfNode, SaysBytesTo, SetsCostTo};
ghost use Rattle.revroute_c.specs.NodeCalls.{TellsNews, TellsNodeDistance, TicksOnce, TurnsLink, neighbours_of};
ghost use Rattle.revroute_c.specs.NodeCalls.{number_of_flag};
ghost use Rattle.revroute_c.specs.Replies.{outcome, GivesList, IsWritten};

use crate::replies::hand_out;
use crate::statuses::{
    ANSWERED, LATER_START, LINK_DOWN, NO_MEMORY, NO_MESSAGE, NO_ROUTE, OUTDATED, REFUSED,
    TOO_SHORT, UNWRITTEN,
};
use fr_node::{CUT_OFF, MESSAGE_LENGTH, Message, Node, NodeFault, Way};
use std::alloc::Global;
use std::marker::Model;

/// What the handle of a node points to: the node, and lists with capacity for the ways and gates of all known
/// neighbours, so that a question takes no memory.
#[derive(Drop)]
pub(crate) struct NodeState {
    node: Node,
    ways: Vec<Way>,
    gates: Vec<u32>,
}

impl Model for NodeState {
    ghost use Rattle.revroute_c.specs.NodeStates.{HeldNode};

    ghost Value = { HeldNode };

    ghost use Rattle.revroute_c.specs.NodeStateInside.{HasCapacity, kept_in};

    ghost view = { kept_in };

    ghost invariant = { HasCapacity };
}

impl NodeState {
    /// The node state of a node that starts.
    pub(crate) fn new(alloc: Global, node: Node) -> NodeState
        requires links { node.links.items ≡ [] }
        ensures { result ≡ Some node }
    {
        NodeState {
            node,
            ways: Vec::new(alloc),
            gates: Vec::new(alloc),
        }
    }

    /// Makes a neighbour known, with the cost of the link to it.
    pub(crate) fn know(&mut self, neighbour: u32, cost: u32) -> u32
        ensures { InNode (KnowsNeighbour neighbour cost result) ⊥ self.old self.new }
    {
        if neighbour == self.node.me() || cost == 0 {
            return REFUSED;
        }
        let count = self.node.neighbours();
        if !reserve_one_more(&mut self.ways, count) || !reserve_one_more(&mut self.gates, count) {
            return NO_MEMORY;
        }
        match self.node.know(neighbour, cost) {
            Ok(()) => ANSWERED,
            Err(NodeFault::Itself) => REFUSED,
            Err(_) => NO_MEMORY,
        }
    }

    /// Takes the event that the link to a neighbour comes up or goes down.
    pub(crate) fn set_link_state(&mut self, neighbour: u32, up: bool) -> u32
        ensures { InNode (TurnsLink neighbour up result) ⊥ self.old self.new }
    {
        if up {
            self.node.link_up(neighbour);
        } else {
            self.node.link_down(neighbour);
        }
        ANSWERED
    }

    /// Takes the event that it costs something else to send a packet to a neighbour.
    pub(crate) fn set_cost(&mut self, neighbour: u32, cost: u32) -> u32
        ensures { InNode (SetsCostTo neighbour cost result) ⊥ self.old self.new }
    {
        if cost == 0 {
            return self.unchanged(REFUSED);
        }
        self.node.set_cost(neighbour, cost);
        ANSWERED
    }

    /// Lets a tick pass. Returns whether a link was lost, as a number.
    pub(crate) fn tick(&mut self, patience: u32) -> u32
        ensures { InNode (TicksOnce patience result) ⊥ self.old self.new }
    {
        number(self.node.tick(patience))
    }

    /// Lets the policy act once more. Returns whether that has changed something, as a number.
    pub(crate) fn act(&mut self) -> u32
        ensures { InNode (ActsAgain result) ⊥ self.old self.new }
    {
        number(self.node.act())
    }

    /// Hears the message with these bytes.
    pub(crate) fn hear(&mut self, bytes: &[u8]) -> u32
        ensures { InNode (HearsBytes bytes.now result) ⊥ self.old self.new }
    {
        match Message::read(bytes) {
            Some(message) => self.hear_message(&message),
            None => self.unchanged(NO_MESSAGE),
        }
    }

    /// The status of a call that changes nothing.
    fn unchanged(&self, status: u32) -> u32
        ensures held { OfNode (λ _. ⊤) ⊥ self.now }
        ensures status { result ≡ status }
    {
        // A field has to be read, because only then the proof knows that the node state holds a node.
        let _read = self.node.state();
        status
    }

    /// Hears a message.
    fn hear_message(&mut self, message: &Message) -> u32
        ensures { InNode (HearsMessage message.now result) ⊥ self.old self.new }
    {
        match self.node.hear(message) {
            Ok(()) => ANSWERED,
            Err(_) => LATER_START,
        }
    }

    /// The caller says that the ways and gates with this number are written.
    pub(crate) fn written(&mut self, state: u64) -> u32
        ensures { InNode (ConfirmsWritten state result) ⊥ self.old self.new }
    {
        match self.node.written(state) {
            Ok(()) => ANSWERED,
            Err(_) => OUTDATED,
        }
    }

    /// Says a message to a neighbour, if ways and gates are written. `size` must be 0.
    pub(crate) fn say(&mut self, neighbour: u32, place: &mut [u8], size: &mut usize) -> u32
        requires { size.old ≡ 0 }
        ensures { InNode (SaysBytesTo neighbour (outcome result place.old place.new size.new)) ⊥ self.old self.new }
    {
        if !self.node.is_written() {
            return UNWRITTEN;
        }
        if place.len() < MESSAGE_LENGTH {
            *size = MESSAGE_LENGTH;
            return TOO_SHORT;
        }
        match self.node.say(neighbour) {
            Ok(Some(message)) => hand_out(&message.write(), place, size),
            Ok(None) => LINK_DOWN,
            Err(_) => UNWRITTEN,
        }
    }

    /// Writes whether there is news for a neighbour, if ways and gates are written.
    pub(crate) fn tell_news(&self, neighbour: u32, news: &mut u32) -> u32
        ensures { OfNode (TellsNews neighbour result news.old news.new) ⊥ self.now }
    {
        match self.node.has_news(neighbour) {
            Ok(is_news) => {
                *news = number(is_news);
                ANSWERED
            }
            Err(_) => UNWRITTEN,
        }
    }

    /// Writes the neighbours to which packets may be sent, nearest first, and the number of the ways and gates.
    pub(crate) fn list_ways(&mut self, place: &mut [u32], size: &mut usize, state: &mut u64) -> u32
        ensures same { self.new ≡ self.old }
        ensures gives { GivesList (AreWaysOf self.old) (outcome result place.old place.new size.new) }
        ensures state { IsStateOf self.old state.old state.new }
        ensures status { (result ≡ ANSWERED) ⊎ (result ≡ TOO_SHORT) }
    {
        *state = self.node.state();
        write_ways(&self.node, &mut self.ways, place, size)
    }

    /// Writes the neighbours that are let in, and the number of the ways and gates.
    pub(crate) fn list_gates(&mut self, place: &mut [u32], size: &mut usize, state: &mut u64) -> u32
        ensures same { self.new ≡ self.old }
        ensures gives { GivesList (AreGatesOf self.old) (outcome result place.old place.new size.new) }
        ensures state { IsStateOf self.old state.old state.new }
        ensures status { (result ≡ ANSWERED) ⊎ (result ≡ TOO_SHORT) }
    {
        *state = self.node.state();
        write_gates(&self.node, &mut self.gates, place, size)
    }

    /// Writes the distance, if there is a way.
    pub(crate) fn tell_distance(&self, distance: &mut u32) -> u32
        ensures { OfNode (TellsNodeDistance result distance.old distance.new) ⊥ self.now }
    {
        let found = self.node.distance();
        if found == CUT_OFF {
            return NO_ROUTE;
        }
        *distance = found;
        ANSWERED
    }

    /// The height in use.
    pub(crate) fn height(&self) -> u64
        ensures { OfNode (λ k. result ≡ k.own.used) ⊥ self.now }
    {
        self.node.height()
    }

    /// Whether packets from a neighbour are let in, as a number.
    pub(crate) fn lets_in(&self, neighbour: u32) -> u32
        ensures open { OfNode (λ k. result ≡ number_of_flag (lets_in k neighbour)) ⊥ self.now }
        ensures safe { OfNode (IsSafeGate neighbour result) ⊥ self.now }
    {
        number(self.node.lets_in(neighbour))
    }

    /// Whether packets may be sent to a neighbour, as a number.
    pub(crate) fn sends_to(&self, neighbour: u32) -> u32
        ensures way { OfNode (λ k. result ≡ number_of_flag (sends_to k neighbour)) ⊥ self.now }
        ensures safe { OfNode (IsSafeWay neighbour result) ⊥ self.now }
    {
        number(self.node.sends_to(neighbour))
    }
}

/// Empties a list, and reserves capacity for one entry more than this number. Returns false if an allocation was
/// refused; then the list has the capacity that it had.
fn reserve_one_more<T: Drop>(list: &mut Vec<T>, count: usize) -> bool
    ensures more { result ≡ true → count < vec_capacity list.new }
    ensures kept { vec_capacity list.old ≤ vec_capacity list.new }
{
    list.clear();
    match count.checked_add(1) {
        Some(wanted) => list.reserve(wanted).is_ok(),
        None => false,
    }
}

/// A flag as a number.
fn number(flag: bool) -> u32
    ensures value { result ≡ number_of_flag flag }
    ensures set { result ≡ 1 → IsTrue flag }
{
    if flag { 1 } else { 0 }
}

/// Writes the neighbours to which a node may send packets, nearest first. The content of the list is lost.
fn write_ways(node: &Node, list: &mut Vec<Way>, place: &mut [u32], size: &mut usize) -> u32
    requires { vec_len node.now.links ≤ vec_capacity list.old }
    ensures gives { GivesList (AreNeighbours node.now) (outcome result place.old place.new size.new) }
    ensures capacity { vec_capacity list.new ≡ vec_capacity list.old }
    ensures status { (result ≡ ANSWERED) ⊎ (result ≡ TOO_SHORT) }
{
    node.list_ways(list);
    hand_out_ways(list, place, size)
}

/// Writes the neighbours that a node lets in. The content of the list is lost.
fn write_gates(node: &Node, list: &mut Vec<u32>, place: &mut [u32], size: &mut usize) -> u32
    requires { vec_len node.now.links ≤ vec_capacity list.old }
    ensures gives { GivesList (λ gates. gates ≡ gates_of node.now) (outcome result place.old place.new size.new) }
    ensures capacity { vec_capacity list.new ≡ vec_capacity list.old }
    ensures status { (result ≡ ANSWERED) ⊎ (result ≡ TOO_SHORT) }
{
    node.list_gates(list);
    hand_out(list, place, size)
}

/// Writes the neighbours of ways to the front of a place if there is room, and their number to `size` in any case.
fn hand_out_ways(ways: &[Way], place: &mut [u32], size: &mut usize) -> u32
    ensures written { result ≡ ANSWERED → IsWritten (neighbours_of ways.now) place.old place.new }
    ensures too_short { result ≡ TOO_SHORT → (length place.old < length ways.now) × (place.new ≡ place.old) }
    ensures size { size.new ≡ length ways.now }
    ensures status { (result ≡ ANSWERED) ⊎ (result ≡ TOO_SHORT) }
{
    *size = ways.len();
    if ways.len() > place.len() {
        return TOO_SHORT;
    }
    fill_ways(ways, &mut place[..ways.len()]);
    ANSWERED
}

/// Writes the neighbours of ways to a place of exactly their length.
fn fill_ways(ways: &[Way], place: &mut [u32])
    requires { length place.old ≡ length ways.now }
    ensures { place.new ≡ neighbours_of ways.now }
{
    for at in 0..ways.len() {
        place[at] = ways[at].neighbour;
    }
}
