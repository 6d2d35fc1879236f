//! What the handle of a session points to.

ghost use Rattle.std.specs.Prelude.{◌≡◌};
ghost use Rattle.revroute_c.specs.SessionStates.{no_session};

use fr_readers::PublishedSession;
use fr_route::Session;
use std::alloc::Global;
use std::marker::Model;

/// What the handle of a session points to: the session, the nodes that its last accepted round rerouted, the tables of
/// its readers, the pushes of the last change that a caller asked for, and the bytes of a line that has begun. The list
/// of ways belongs to no value: it is the room in which a question puts the ways of a node together, so that the next
/// question does not allocate.
#[derive(Drop)]
pub(crate) struct SessionState {
    pub(crate) published: PublishedSession,
    pub(crate) begun: Vec<u8>,
    pub(crate) ways: Vec<u32>,
}

impl Model for SessionState {
    ghost use Rattle.revroute_c.specs.SessionStates.{Held};

    ghost Value = { Held };

    ghost use Rattle.revroute_c.specs.SessionStateInside.{held_in};

    ghost view = { held_in };
}

impl SessionState {
    /// A session state without a network, which holds no memory.
    pub(crate) fn new(alloc: Global) -> SessionState
        ensures { result ≡ no_session }
    {
        SessionState {
            published: PublishedSession::new(alloc),
            begun: Vec::new(alloc),
            ways: Vec::new(alloc),
        }
    }

    /// The session, for questions.
    pub(crate) fn session(&self) -> &Session
        ensures { result.now ≡ self.now.session }
    {
        self.published.session()
    }
}
