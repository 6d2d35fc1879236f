//! Datagrams of neighbours, for a router without a controller.

ghost use Rattle.std.specs.Prelude.{◌≡◌, ◌≢◌, ◌≤◌, IfErr, IfOk, OnErr, OnOk, vec_capacity, vec_len};
ghost use Rattle.fr_node.specs.Bytes.{bytes_of};
ghost use Rattle.fr_node.specs.Distances.{AreWays};
ghost use Rattle.fr_node.specs.Events.{gates_of};
ghost use Rattle.fr_node.specs.declared.fault.NodeFault.TheVariants.{LaterStart};

use fr_node::{Message, Node, NodeFault, Way};

/// What a router writes to its forwarding table: its ways, and the neighbours that it lets in.
#[derive(Drop)]
pub struct Table {
    pub ways: Vec<Way>,
    pub gates: Vec<u32>,
}

/// Hears a datagram, and lists what the router has to write then. Returns the number of this table. Bytes that are no
/// message change nothing. Nor does a message from which the router learns that it has started later: this is the only
/// fault.
pub fn receive(node: &mut Node, bytes: &[u8], table: &mut Table) -> Result<u64, NodeFault>
    requires ways { vec_len node.old.links ≤ vec_capacity table.old.ways }
    requires gates { vec_len node.old.links ≤ vec_capacity table.old.gates }
    ensures lists { IfOk result (λ state. (state ≡ node.new.events) × AreWays node.new table.new.ways.items
        × (table.new.gates.items ≡ gates_of node.new)) }
    ensures later { IfErr result (λ fault. (fault ≡ LaterStart) × (node.new ≡ node.old)) }
    ensures noise { ((m : Message) → bytes_of m ≢ bytes.now) → node.new ≡ node.old }
{
    if let Some(message) = Message::read(bytes) {
        node.hear(&message)?;
    }
    node.list_ways(&mut table.ways);
    node.list_gates(&mut table.gates);
    Ok(node.state())
}
