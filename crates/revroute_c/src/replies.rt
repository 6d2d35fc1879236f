//! Answers in the caller's buffer.

ghost use Rattle.std.specs.Prelude.{◌≡◌, ◌≢◌, ◌≤◌, ◌<◌, ◌⊎◌, false, length};
ghost use Rattle.fr_route.specs.Blank.{is_blank};
ghost use Rattle.revroute_c.specs.Lending.{held_by, IsNull};
ghost use Rattle.revroute_c.specs.Replies.{least_room, outcome, AnswersApart, IsWritten};

use crate::handle::Handle;
use crate::session_state::SessionState;
use crate::statuses::{ANSWERED, BLANK, NO_MEMORY, TOO_SHORT};
use fr_route::AnswerFault;
use std::alloc::Global;

/// The least room for an answer, in bytes. Each answer that changes the session fits into it. So if an answer is too
/// long for a buffer of this length, nothing has changed.
pub(crate) const LEAST_ROOM: usize = 64;

/// Writes items to the front of a buffer if there is room, and their number to `size` in any case.
pub(crate) fn hand_out<T: Copy>(items: &[T], buffer: &mut [T], size: &mut usize) -> u32
    ensures written { result ≡ ANSWERED → IsWritten items.now buffer.old buffer.new }
    ensures too_short { result ≡ TOO_SHORT → (length buffer.old < length items.now) × (buffer.new ≡ buffer.old) }
    ensures size { size.new ≡ length items.now }
    ensures status { (result ≡ ANSWERED) ⊎ (result ≡ TOO_SHORT) }
{
    *size = items.len();
    if items.len() > buffer.len() {
        return TOO_SHORT;
    }
    buffer[..items.len()].copy_from_slice(items);
    ANSWERED
}

/// Answers a line that is not blank, in a buffer of at least [`LEAST_ROOM`] bytes. `size` must be 0, and stays 0 if
/// there is no memory.
pub(crate) fn reply(
    state: &mut SessionState,
    alloc: Global,
    line: &[u8],
    answer: &mut [u8],
    size: &mut usize,
) -> u32
    requires asks { is_blank line.now ≡ false }
    requires room { least_room ≤ length answer.old }
    requires size { size.old ≡ 0 }
    ensures answers { AnswersApart line.now state.old state.new (outcome result answer.old answer.new size.new) }
    ensures not_blank { result ≢ BLANK }
{
    match state.published.answer_line(alloc, line) {
        Ok(Some(text)) => hand_out(text.as_bytes(), answer, size),
        Err(AnswerFault::Memory) => NO_MEMORY,
        Ok(None) | Err(AnswerFault::Start) => unreachable!(),
    }
}

/// Answers a line as [`reply`] does, in a new session. The null handle gets the session if the line is answered.
pub(crate) fn reply_in_new_session(
    handle: &mut Handle,
    alloc: Global,
    line: &[u8],
    answer: &mut [u8],
    size: &mut usize,
) -> u32
    requires null { IsNull handle.old }
    requires asks { is_blank line.now ≡ false }
    requires room { least_room ≤ length answer.old }
    requires size { size.old ≡ 0 }
    ensures answers { AnswersApart line.now (held_by handle.old) (held_by handle.new)
        (outcome result answer.old answer.new size.new) }
    ensures kept { ¬ (result ≡ ANSWERED) → handle.new ≡ handle.old }
{
    let Ok(mut state) = Box::new(alloc, SessionState::new(alloc)) else {
        return NO_MEMORY;
    };
    let status = reply(&mut state, alloc, line, answer, size);
    if status == ANSWERED {
        handle.pointer().put(alloc, state);
    }
    status
}
