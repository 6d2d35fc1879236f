//! The engine for programs in C, and for all that can call C: a session behind a handle, without threads and locks.
//!
//! `embed/c/revroute.h` declares these calls, and says what a caller must ensure. A slice is a pointer and a length
//! there. The pointer is never null, since the header passes another address for null. The allocator has no bytes, so C
//! passes nothing for it.
#![tactic(auto)]

ghost use Rattle.std.specs.Prelude.{◌≡◌, ◌<◌, ◌⊎◌, length};
ghost use denote.RawPtr.{null_ptr};
ghost use Rattle.revroute_c.specs.SessionStates.{no_session};
ghost use Rattle.revroute_c.specs.Lending.{held_by};
ghost use Rattle.revroute_c.specs.Replies.{IsWritten};
ghost use Rattle.revroute_c.specs.Statuses.{REVROUTE_ANSWERED, REVROUTE_TOO_SHORT};

mod box_pointer;
mod closed_walks;
mod cycle_calls;
mod handle;
mod line_calls;
mod link_faults;
mod node_handle;
mod node_state;
mod nodes;
mod phases;
mod pieces;
mod push_orders;
mod question_calls;
mod questions;
mod reader_calls;
mod reader_handle;
mod reader_opening;
mod readers;
mod records;
mod replies;
mod round_calls;
mod rounds;
mod session_state;
mod statuses;
mod tables;
mod way_calls;
mod way_reader_calls;
mod way_reader_handle;
mod way_reader_opening;
mod way_readers;
mod ways;

use fr_route::VERSION;
use handle::Handle;
use node_handle::NodeHandle;
use reader_handle::ReaderHandle;
use replies::hand_out;
use statuses::TOO_SHORT;
use std::alloc::Global;
use std::marker::Send;
use way_reader_handle::WayReaderHandle;

/// Releases all memory of the session. The handle is then null. O(1).
#[unsafe(no_mangle)]
pub extern "C" fn revroute_close(alloc: Global, handle: &mut Handle)
    // The session then holds nothing, and its handle is null.
    ensures none { held_by handle.new ≡ no_session }
    ensures null { handle.new.at ≡ null_ptr }
{
    drop(handle.pointer().take(alloc));
}

/// Writes the version of the engine to the front of the buffer, and its length to `size`. Returns `TOO_SHORT` if the
/// buffer is too short; then it is unchanged. O(1).
#[unsafe(no_mangle)]
pub extern "C" fn revroute_version(text: &mut [u8], size: &mut usize) -> u32
    ensures written { result ≡ REVROUTE_ANSWERED → IsWritten VERSION.now text.old text.new }
    ensures too_short { result ≡ REVROUTE_TOO_SHORT → (length text.old < length VERSION.now) × (text.new ≡ text.old) }
    ensures size { size.new ≡ length VERSION.now }
    ensures status { (result ≡ REVROUTE_ANSWERED) ⊎ (result ≡ REVROUTE_TOO_SHORT) }
{
    hand_out(VERSION.as_bytes(), text, size)
}

/// Compiles only if values of type `T` may go to another thread.
fn may_be_sent<T: Send>() {}

/// Shows that each handle may go to another thread. It only has to pass the check.
fn handles_may_be_sent() {
    may_be_sent::<Handle>();
    may_be_sent::<NodeHandle>();
    may_be_sent::<ReaderHandle>();
    may_be_sent::<WayReaderHandle>();
}
