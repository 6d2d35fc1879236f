//! Lines whose bytes come in pieces that can end anywhere.

ghost use Rattle.std.specs.Prelude.{◌≡◌, ◌≢◌, ◌≤◌, ◌<◌, ◌+◌, ◌++◌, ◌⊎◌, ◌↔◌, [], true, length};
ghost use Rattle.fr_bytes.specs.Bytes.{most_bytes};
ghost use Rattle.fr_route.specs.Blank.{is_blank as is_blank_line};
ghost use Rattle.revroute_c.specs.Lending.{held_by, IsNull};
ghost use Rattle.revroute_c.specs.Pieces.{TakesPiece};
ghost use Rattle.revroute_c.specs.Replies.{least_room, outcome, AnswersLine};

use crate::handle::Handle;
use crate::replies::reply;
use crate::session_state::SessionState;
use crate::statuses::{ANSWERED, BEGUN, BLANK, NO_MEMORY, TOO_LONG};
use fr_bytes::{MAX_BYTES, front_size};
use fr_route::is_blank;
use std::alloc::Global;
use std::mem::replace;

/// The result of a call with a piece: its status, and how many bytes of the piece were taken.
#[derive(Drop)]
pub(crate) struct Taken {
    status: u32,
    count: usize,
}

impl Taken {
    /// Writes the count to `taken`, and returns the status.
    pub(crate) fn tell(self, taken: &mut usize) -> u32
        ensures status { result ≡ self.status }
        ensures count { taken.new ≡ self.count }
    {
        *taken = self.count;
        self.status
    }
}

/// Takes a piece up to its first newline, and answers the line that ends there. Without a newline, the whole piece is
/// kept after what had begun. `size` must be 0.
pub(crate) fn take_front(
    state: &mut SessionState,
    alloc: Global,
    piece: &[u8],
    answer: &mut [u8],
    size: &mut usize,
) -> Taken
    requires room { least_room ≤ length answer.old }
    requires size { size.old ≡ 0 }
    ensures { TakesPiece piece.now state.old state.new result.count
        (outcome result.status answer.old answer.new size.new) }
{
    let kept = state.begun.len();
    let end = front_size(piece);
    // This comes before the line is kept, so that a blank line allocates nothing.
    if end < piece.len() && is_blank_with(&state.begun, &piece[..end]) {
        state.begun.clear();
        return Taken {
            status: BLANK,
            count: end + 1,
        };
    }
    let held = keep_unfinished_line(&mut state.begun, &piece[..end]);
    if held != BEGUN {
        return Taken {
            status: held,
            count: 0,
        };
    }
    if end == piece.len() {
        return Taken {
            status: BEGUN,
            count: end,
        };
    }
    let status = finish_line(state, alloc, answer, size);
    if status > BLANK {
        state.begun.truncate(kept);
        return Taken { status, count: 0 };
    }
    Taken {
        status,
        count: end + 1,
    }
}

/// Takes a piece as [`take_front`] does, in a new session. The null handle gets the session if it holds anything then.
pub(crate) fn take_in_new_session(
    handle: &mut Handle,
    alloc: Global,
    piece: &[u8],
    answer: &mut [u8],
    size: &mut usize,
) -> Taken
    requires null { IsNull handle.old }
    requires room { least_room ≤ length answer.old }
    requires size { size.old ≡ 0 }
    ensures takes { TakesPiece piece.now (held_by handle.old) (held_by handle.new) result.count
        (outcome result.status answer.old answer.new size.new) }
    ensures same_handle { result.status ≢ ANSWERED → result.status ≢ BEGUN → handle.new.at ≡ handle.old.at }
{
    let end = front_size(piece);
    if end < piece.len() && is_blank_with(&[], &piece[..end]) {
        return Taken {
            status: BLANK,
            count: end + 1,
        };
    }
    let Ok(mut state) = Box::new(alloc, SessionState::new(alloc)) else {
        return Taken {
            status: NO_MEMORY,
            count: 0,
        };
    };
    let taken = take_front(&mut state, alloc, piece, answer, size);
    if taken.status == ANSWERED || taken.status == BEGUN {
        handle.pointer().put(alloc, state);
    }
    taken
}

/// Ends the line that has begun, and answers it. The line stays if it cannot be answered.
pub(crate) fn finish_line(
    state: &mut SessionState,
    alloc: Global,
    answer: &mut [u8],
    size: &mut usize,
) -> u32
    requires room { least_room ≤ length answer.old }
    requires size { size.old ≡ 0 }
    ensures answers { AnswersLine state.old.begun state.old state.new
        (outcome result answer.old answer.new size.new) }
    ensures ended { result ≤ BLANK → state.new.begun ≡ [] }
    ensures still { BLANK < result → state.new.begun ≡ state.old.begun }
{
    if is_blank(&state.begun) {
        state.begun.clear();
        return BLANK;
    }
    let line = replace(&mut state.begun, Vec::new(alloc));
    let status = reply(state, alloc, &line, answer, size);
    if status != ANSWERED {
        state.begun = line;
    }
    status
}

/// Whether what has begun and this end of it are a blank line within the limit.
fn is_blank_with(begun: &[u8], end: &[u8]) -> bool
    ensures { (result ≡ true)
        ↔ ((is_blank_line (begun.now ++ end.now) ≡ true) × (length (begun.now ++ end.now) ≤ most_bytes)) }
{
    let fits = begun.len() <= MAX_BYTES && end.len() <= MAX_BYTES - begun.len();
    fits && is_blank(begun) && is_blank(end)
}

/// Keeps bytes without a newline after what has begun.
fn keep_unfinished_line(begun: &mut Vec<u8>, bytes: &[u8]) -> u32
    ensures held { result ≡ BEGUN → begun.new.items ≡ begun.old.items ++ bytes.now }
    ensures within { result ≡ BEGUN → length begun.new.items ≤ most_bytes }
    ensures unchanged { result ≢ BEGUN → begun.new.items ≡ begun.old.items }
    ensures too_long { result ≡ TOO_LONG → most_bytes < length begun.old.items + length bytes.now }
    ensures no_memory { result ≡ NO_MEMORY → bytes.now ≢ [] }
    ensures status { (result ≡ BEGUN) ⊎ (result ≡ TOO_LONG) ⊎ (result ≡ NO_MEMORY) }
{
    if begun.len() > MAX_BYTES || bytes.len() > MAX_BYTES - begun.len() {
        return TOO_LONG;
    }
    if bytes.is_empty() || begun.extend_from_slice(bytes).is_ok() {
        return BEGUN;
    }
    NO_MEMORY
}
