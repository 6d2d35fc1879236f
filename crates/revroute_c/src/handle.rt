//! The handle that C has of a session.

ghost use Rattle.std.specs.Prelude.{◌≡◌, ℕ, List, Option};
ghost use Rattle.std.specs.Borrow.{sem};
ghost use Rattle.fr_route.specs.States.{State};
ghost use Rattle.fr_readers.specs.Published.{WayPushes, published};
ghost use Rattle.fr_shared.specs.HopTables.{HopKnowledge};
ghost use Rattle.fr_shared.specs.WayTables.{WayKnowledge};
ghost use Rattle.revroute_c.specs.SessionStates.{no_session, held};
ghost use Rattle.revroute_c.specs.Owning.{owned_at};
ghost use Rattle.revroute_c.specs.contracts.session_state.SessionState.{the_row as session_row};

use crate::box_pointer::{BoxPointer, NullValue};
use crate::session_state::SessionState;
use std::marker::{Model, Send};

impl NullValue for SessionState {
    ghost null_value = { no_session };
}

/// The handle that C has of a session: a pointer that only this library reads. Null is a session without a network, so
/// C makes a new handle by writing null.
#[repr(C)]
#[derive(Drop)]
pub struct Handle {
    at: *mut u8,
    pub ghost session: { Option State },
    pub ghost rerouted: { List ℕ },
    pub ghost table: { Option HopKnowledge },
    pub ghost ways: { Option WayKnowledge },
    pub ghost pushes: { WayPushes },
    pub ghost begun: { List ℕ },
}

impl Model for Handle {
    ghost also_owns = { λ handle. owned_at session_row no_session handle.at
        (held (published handle.session handle.rerouted handle.table handle.ways handle.pushes) handle.begun) };
}

// A handle owns its session state, which may go to another thread.
unsafe impl Send for Handle {}

impl Handle {
    ghost use Rattle.revroute_c.specs.Lending.{LendsPointer, handle_of};

    /// The handle as a pointer to its session state, in place.
    pub(crate) fn pointer(&mut self) -> &mut BoxPointer<SessionState>
        ensures* writes_back { sem 𝓛 (LendsPointer self.entry result) }
        ensures same { handle_of result.now ≡ self.old }
    {
        // Both are one pointer, and own the same.
        unsafe { &mut *(self as *mut Handle).cast::<BoxPointer<SessionState>>() }
    }
}
