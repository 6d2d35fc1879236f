//! Opening readers of the ways of a session.

ghost use Rattle.std.specs.Prelude.{◌≡◌, IfOk, OnErr};
ghost use Rattle.revroute_c.specs.Lending.{held_by, IsNull};
ghost use Rattle.revroute_c.specs.ReaderOpening.{OpensWays, ReadsWaysOf};

use crate::handle::Handle;
use crate::session_state::SessionState;
use fr_shared::ways::Reader;
use std::alloc::{AllocError, Global};

/// A reader of the session's ways.
pub(crate) fn way_reader_in(
    state: &mut SessionState,
    alloc: Global,
) -> Result<Box<Reader>, AllocError>
    ensures opens { OpensWays state.old state.new }
    ensures reader { IfOk result (λ reader. ReadsWaysOf state.new reader.value) }
{
    state.published.table_law();
    let reader = state.published.way_reader(alloc)?;
    state.published.table_law();
    Ok(Box::new(alloc, reader)?)
}

/// Makes a reader of the ways of a new session, which the null handle gets.
pub(crate) fn way_reader_of_new_session(
    handle: &mut Handle,
    alloc: Global,
) -> Result<Box<Reader>, AllocError>
    requires { IsNull handle.old }
    ensures opens { OpensWays (held_by handle.old) (held_by handle.new) }
    ensures reader { IfOk result (λ reader. ReadsWaysOf (held_by handle.new) reader.value) }
    ensures kept { OnErr result (handle.new ≡ handle.old) }
{
    let mut state = Box::new(alloc, SessionState::new(alloc))?;
    let reader = way_reader_in(&mut state, alloc)?;
    handle.pointer().put(alloc, state);
    Ok(reader)
}
