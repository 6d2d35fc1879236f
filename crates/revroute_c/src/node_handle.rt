//! The handle that C has of a node.

ghost use Rattle.std.specs.Prelude.{◌≡◌};
ghost use Rattle.std.specs.Borrow.{sem};
ghost use Rattle.revroute_c.specs.NodeStates.{HeldNode, no_node};
ghost use Rattle.revroute_c.specs.Owning.{owned_at};
ghost use Rattle.revroute_c.specs.contracts.node_state.NodeState.{the_row as node_row};

use crate::box_pointer::{BoxPointer, NullValue};
use crate::node_state::NodeState;
use std::marker::{Model, Send};

impl NullValue for NodeState {
    ghost null_value = { no_node };
}

/// The handle that C has of a node: a pointer that only this library reads. Null is no node, so C makes a handle by
/// writing null.
#[repr(C)]
#[derive(Drop)]
pub struct NodeHandle {
    at: *mut u8,
    pub ghost node_state: { HeldNode },
}

impl Model for NodeHandle {
    ghost also_owns = { λ handle. owned_at node_row no_node handle.at handle.node_state };
}

// A handle owns its node state, which may go to another thread.
unsafe impl Send for NodeHandle {}

impl NodeHandle {
    ghost use Rattle.revroute_c.specs.NodeLending.{LendsPointer, handle_of};

    /// The handle as a pointer to its node state, in place.
    pub(crate) fn pointer(&mut self) -> &mut BoxPointer<NodeState>
        ensures* writes_back { sem 𝓛 (LendsPointer self.entry result) }
        ensures same { handle_of result.now ≡ self.old }
    {
        // Both are one pointer, and own the same.
        unsafe { &mut *(self as *mut NodeHandle).cast::<BoxPointer<NodeState>>() }
    }
}
