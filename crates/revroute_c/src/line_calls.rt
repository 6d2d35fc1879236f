//! Calls that answer lines.

ghost use Rattle.std.specs.Prelude.{◌≡◌, ◌≢◌, ◌≤◌, ◌<◌, [], None, length};
ghost use Rattle.revroute_c.specs.Lending.{held_by};
ghost use Rattle.revroute_c.specs.Pieces.{TakesPiece};
ghost use Rattle.revroute_c.specs.Replies.{outcome, AnswersApart, AnswersLine};
ghost use Rattle.revroute_c.specs.Statuses.{REVROUTE_ANSWERED, REVROUTE_BLANK};
ghost use Rattle.revroute_c.specs.Statuses.{REVROUTE_BEGUN};

use crate::handle::Handle;
use crate::pieces::{finish_line, take_front, take_in_new_session};
use crate::replies::{LEAST_ROOM, reply, reply_in_new_session};
use crate::statuses::{ANSWERED, BLANK, NO_MEMORY, TOO_SHORT};
use fr_route::is_blank;
use std::alloc::Global;

/// Answers a line, given without its newline. A null handle is a session without a network. Writes the answer, without
/// a newline, to the front of the buffer, and its length to `size`. Returns `ANSWERED`, or:
///
/// - `BLANK`: the line is blank and has no answer. `size` is 0. A blank line allocates nothing.
/// - `TOO_SHORT`: the buffer is too short. `size` is the length of the answer. For a buffer of less than
///   [`LEAST_ROOM`] bytes it is [`LEAST_ROOM`]; this is tested first.
/// - `NO_MEMORY`: an allocation was refused. `size` is 0.
///
/// In these three cases the session is unchanged, and so are the handle's own bytes: a null handle stays null and owns
/// nothing. The cost is that of [`Session::answer_line_telling_alone`](fr_route::Session::answer_line_telling_alone).
#[unsafe(no_mangle)]
pub extern "C" fn revroute_answer(
    alloc: Global,
    handle: &mut Handle,
    line: &[u8],
    answer: &mut [u8],
    size: &mut usize,
) -> u32
    // The answer is that of the definitions. The session keeps a line that has begun, and the nodes that the last
    // accepted line rerouted, in push order; they are pushed to readers before the call returns, and to readers of
    // ways exactly the shrinks, then the grows. `BLANK` exactly for a blank line, with memory or without, if the
    // buffer has at least 64 bytes. `TOO_SHORT` for a smaller buffer; otherwise only if the answer is longer than the
    // buffer, with the length of the answer. After any status but `ANSWERED` everything is unchanged.
    ensures answers { AnswersApart line.now (held_by handle.old) (held_by handle.new)
        (outcome result answer.old answer.new size.new) }
    ensures kept { ¬ (result ≡ REVROUTE_ANSWERED) → handle.new.at ≡ handle.old.at }
{
    *size = 0;
    if answer.len() < LEAST_ROOM {
        *size = LEAST_ROOM;
        return TOO_SHORT;
    }
    if is_blank(line) {
        return BLANK;
    }
    match handle.pointer().value_mut() {
        Some(state) => reply(state, alloc, line, answer, size),
        None => reply_in_new_session(handle, alloc, line, answer, size),
    }
}

/// Takes a piece of input up to its first newline, and answers the line that ends there. The line is what had begun
/// before, and this part of the piece. Writes to `taken` how many bytes were taken. Returns as [`revroute_answer`]
/// does, or:
///
/// - `BEGUN`: the piece has no newline. All of it is kept after what had begun.
/// - `TOO_LONG`: the line has more than 16,777,216 bytes. Such a line is never answered or kept.
///
/// A blank line that ends allocates nothing. After `TOO_LONG`, `TOO_SHORT` and `NO_MEMORY` nothing was taken and
/// everything is unchanged, also the handle's own bytes, so the caller can pass the piece again. O(b) for b bytes
/// taken, and at a newline the cost of [`revroute_answer`].
#[unsafe(no_mangle)]
pub extern "C" fn revroute_take(
    alloc: Global,
    handle: &mut Handle,
    piece: &[u8],
    answer: &mut [u8],
    size: &mut usize,
    taken: &mut usize,
) -> u32
    // Bytes are taken through the first newline, and the line that ends there is answered as by `revroute_answer`.
    // Without a newline the bytes are kept. `TOO_LONG` only for a line above 16,777,216 bytes. After a fault nothing
    // is taken.
    ensures takes { TakesPiece piece.now (held_by handle.old) (held_by handle.new) taken.new
        (outcome result answer.old answer.new size.new) }
    ensures same_handle { result ≢ REVROUTE_ANSWERED → result ≢ REVROUTE_BEGUN → handle.new.at ≡ handle.old.at }
{
    *size = 0;
    *taken = 0;
    if answer.len() < LEAST_ROOM {
        *size = LEAST_ROOM;
        return TOO_SHORT;
    }
    match handle.pointer().value_mut() {
        Some(state) => take_front(state, alloc, piece, answer, size).tell(taken),
        None => take_in_new_session(handle, alloc, piece, answer, size).tell(taken),
    }
}

/// Ends the line that has begun, as the end of an input does, and answers it as [`revroute_answer`] does, at the same
/// cost.
#[unsafe(no_mangle)]
pub extern "C" fn revroute_finish(
    alloc: Global,
    handle: &mut Handle,
    answer: &mut [u8],
    size: &mut usize,
) -> u32
    // As for `revroute_answer`.
    ensures answers { AnswersLine handle.old.begun (held_by handle.old) (held_by handle.new)
        (outcome result answer.old answer.new size.new) }
    ensures ended { result ≤ REVROUTE_BLANK → handle.new.begun ≡ [] }
    // After a fault the line that has begun is kept.
    ensures still { REVROUTE_BLANK < result → handle.new.begun ≡ handle.old.begun }
    ensures same_handle { handle.new.at ≡ handle.old.at }
{
    *size = 0;
    if answer.len() < LEAST_ROOM {
        *size = LEAST_ROOM;
        return TOO_SHORT;
    }
    match handle.pointer().value_mut() {
        Some(state) => finish_line(state, alloc, answer, size),
        None => BLANK,
    }
}
