//! A conversation: the bytes of an input come in pieces that can end anywhere, and each line is answered once it has
//! ended.

ghost use Rattle.std.specs.Prelude.{◌≡◌, ◌≢◌, ◌<◌, ◌≤◌, ◌+◌, ◌++◌, ◌↔◌, ◌∷◌, []};
ghost use Rattle.std.specs.Prelude.{length, take, true, IfErr, IfOk, OnOk, OnErr};
ghost use Rattle.fr_route.specs.Blank.{is_blank as is_blank_line};
ghost use Rattle.fr_bytes.specs.Lines.{lines_of};
ghost use Rattle.fr_bytes.specs.Bytes.{most_bytes};
ghost use Rattle.fr_command.specs.Conversations.{Takes, Ends, silence, silence_in};
ghost use Rattle.fr_command.specs.Conversations.{carried, line_size, point_of, text_of};
ghost use Rattle.fr_command.specs.Faults.{IsTakeFault, IsFinishFault, StartsNone};
ghost use Rattle.fr_command.specs.InPieces.{IsHoldFault};

use crate::fault::run_fault;
use crate::responder::{Responder, Tally};
use fr_bytes::{MAX_BYTES, RunFault, front_size};
use fr_crew::{Crew, Gate};
use fr_route::{Form, Session, is_blank};
use std::alloc::Global;
use std::marker::Model;
use std::sync::Wait;
use std::thread::Threads;

/// The result for a piece: how many bytes were taken, and the answer to the line that ended there.
#[derive(Debug, Drop)]
pub struct Taken {
    /// How many bytes of the piece were taken.
    pub count: usize,
    /// The answer, without a newline. `None` for a blank line, and if no line has ended.
    pub answer: Option<String>,
}

/// A session that answers in one form, and the line that has begun. The value in contracts is the form, the state of
/// the session, how many lines have ended, how many of them were answered and refused, and the bytes of that line.
#[derive(Debug, Drop)]
pub struct Conversation {
    form: Form,
    responder: Responder,
    begun: Vec<u8>,
}

impl Model for Conversation {
    ghost use Rattle.std.specs.Prelude.{◌≡◌, ◌≤◌, ◌∷◌, [], length};
    ghost use Rattle.fr_bytes.specs.Lines.{lines_of};
    ghost use Rattle.fr_bytes.specs.Bytes.{most_bytes};
    ghost use Rattle.fr_command.specs.Conversations.{Talk, talk_at};

    ghost Value = { Talk };

    ghost view = { λ c. talk_at c.form c.responder c.begun.items };

    ghost invariant = { λ c. (lines_of c.begun.items ≡ c.begun.items ∷ []) × (length c.begun.items ≤ most_bytes) };
}

impl Conversation {
    /// A conversation without a network and without bytes, which answers as text. O(1).
    pub fn new(alloc: Global) -> Conversation
        ensures { result ≡ silence }
    {
        Conversation::with_form(alloc, Form::Text)
    }

    /// A conversation without a network and without bytes, which answers in this form. O(1).
    pub fn with_form(alloc: Global, form: Form) -> Conversation
        ensures { result ≡ silence_in form }
    {
        Conversation {
            form,
            responder: Responder::new(alloc),
            begun: Vec::new(alloc),
        }
    }

    /// The session, in the state after the lines that have ended. O(1).
    pub fn session(&self) -> &Session
        ensures { result.now ≡ self.now.state }
    {
        self.responder.session()
    }

    /// How many of the lines that have ended were answered, and how many of these were refused.
    pub(crate) fn tally(&self) -> Tally
        ensures answered { result.answered ≡ self.now.answered }
        ensures refused { result.refused ≡ self.now.refused }
    {
        self.responder.tally()
    }

    /// The line that has begun: what was taken after the last newline. O(1).
    pub fn begun(&self) -> &[u8]
        ensures line { result.now ≡ self.now.begun }
        ensures alone { lines_of result.now ≡ result.now ∷ [] }
        ensures within { length result.now ≤ most_bytes }
    {
        &self.begun
    }

    /// Takes a piece up to its first newline, and answers the line that ends there. Without a newline, the whole piece
    /// is added to the line that has begun.
    ///
    /// Fails with `TooLong` if the line has more than [`MAX_BYTES`] bytes; with `Start` if a thread could not be
    /// started, which never happens if the budget is 0; and with `Memory` if there is no memory for the line or its
    /// answer. A blank line that ends in the piece needs no memory. It never fails with `Read` or `Write`. If it fails,
    /// nothing was taken, and the caller can pass the piece again.
    ///
    /// O(b) for b bytes taken, and at a newline the cost of [`Session::answer_line_in`].
    pub fn push_piece<T: Threads + Wait + Sync, G: Gate + Sync>(
        &mut self,
        crew: &Crew<'_, T, G>,
        piece: &[u8],
    ) -> Result<Taken, RunFault>
        ensures count { IfOk result (λ taken. taken.count ≡ line_size piece.now) }
        // A piece without a newline is kept.
        ensures takes { IfOk result
            (λ taken. Takes self.old (take taken.count piece.now) (text_of taken.answer) self.new) }
        // The line has at most 16,777,216 bytes.
        ensures within { OnOk result (length (carried self.old piece.now) ≤ most_bytes) }
        // A fault takes nothing.
        ensures unchanged { OnErr result (self.new ≡ self.old) }
        // `TooLong` only for a longer line. `Start` only as for `run`, and `Memory` only at a line that is not blank
        // or has not ended.
        ensures fault { IfErr result
            (IsTakeFault (point_of self.old) (carried self.old piece.now) piece.now) }
        ensures no_start { StartsNone crew.now.plan.now → result ≢ Err RunFault.Start }
    {
        let kept = self.begun.len();
        let end = front_size(piece);
        // This comes before the line is kept, so that a blank line allocates nothing.
        if self.ends_blank(piece, end) {
            self.begun.clear();
            self.responder.count_blank_line();
            return Ok(Taken {
                count: end + 1,
                answer: None,
            });
        }
        self.keep_unfinished_line(&piece[..end])?;
        if end == piece.len() {
            return Ok(Taken {
                count: end,
                answer: None,
            });
        }
        match self.end_line(crew) {
            Ok(answer) => Ok(Taken {
                count: end + 1,
                answer,
            }),
            Err(fault) => {
                self.begun.truncate(kept);
                Err(fault)
            }
        }
    }

    /// Gives back an answer that is no longer needed. The next answer uses its memory. A caller that gives back each
    /// answer saves an allocation for each line. O(1).
    pub fn reuse(&mut self, answer: Option<String>)
        ensures { self.new ≡ self.old }
    {
        if let Some(text) = answer {
            self.responder.reuse(text);
        }
    }

    /// Ends the line that has begun, as the end of an input does, and answers it. Returns `None` for a blank line.
    /// Fails with `Start` or `Memory` as [`push_piece`](Conversation::push_piece) does; then nothing has changed. The cost is that
    /// of [`Session::answer_line_in`].
    pub fn end_line<T: Threads + Wait + Sync, G: Gate + Sync>(
        &mut self,
        crew: &Crew<'_, T, G>,
    ) -> Result<Option<String>, RunFault>
        ensures ends { IfOk result (λ answer. Ends self.old (text_of answer) self.new) }
        ensures unchanged { OnErr result (self.new ≡ self.old) }
        ensures fault { IfErr result (IsFinishFault (point_of self.old) self.old.begun) }
        ensures no_start { StartsNone crew.now.plan.now → result ≢ Err RunFault.Start }
    {
        match self.responder.answer(crew, self.form, &self.begun) {
            Ok(answer) => {
                self.begun.clear();
                Ok(answer)
            }
            Err(fault) => Err(run_fault(fault)),
        }
    }

    /// Whether the line that has begun ends after the first `front` bytes of this piece, is blank, and is within the
    /// limit.
    fn ends_blank(&self, piece: &[u8], front: usize) -> bool
        requires { front ≤ length piece.now }
        ensures { (result ≡ true)
            ↔ ((front < length piece.now) × (is_blank_line (self.now.begun ++ take front piece.now) ≡ true)
            × (length (self.now.begun ++ take front piece.now) ≤ most_bytes)) }
    {
        front < piece.len()
            && front <= MAX_BYTES - self.begun.len()
            && is_blank(&self.begun)
            && is_blank(&piece[..front])
    }

    /// Keeps bytes without a newline after those of the line that has begun.
    fn keep_unfinished_line(&mut self, bytes: &[u8]) -> Result<(), RunFault>
        requires { lines_of bytes.now ≡ bytes.now ∷ [] }
        ensures ok { OnOk result ((self.new.begun ≡ self.old.begun ++ bytes.now)
            × (point_of self.new ≡ point_of self.old)
            × (self.new.form ≡ self.old.form)) }
        ensures within { OnOk result (length self.old.begun + length bytes.now ≤ most_bytes) }
        ensures unchanged { OnErr result (self.new ≡ self.old) }
        ensures fault { IfErr result (IsHoldFault self.old.begun bytes.now) }
    {
        if bytes.len() > MAX_BYTES - self.begun.len() {
            return Err(RunFault::TooLong);
        }
        if bytes.is_empty() || self.begun.extend_from_slice(bytes).is_ok() {
            return Ok(());
        }
        Err(RunFault::Memory)
    }
}
