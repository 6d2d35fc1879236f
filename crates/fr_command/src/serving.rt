//! Serving: each line of a stream is answered before more of it is read.

ghost use Rattle.std.specs.Prelude.{◌≡◌, ◌≢◌, ◌∷◌, ◌++◌, [], ℕ, List, take, IfOk, OnOk, OnErr, IfErr};
ghost use Rattle.std.specs.Io.KnownBytes.{Appends};
ghost use Rattle.fr_bytes.specs.Lines.{lines_of};
ghost use Rattle.fr_bytes.specs.Bytes.{IsBeginning};
ghost use Rattle.fr_bytes.specs.Streams.{ReadsNothing, Writes};
ghost use Rattle.fr_route.specs.declared.form.Form.TheVariants.{Text};
ghost use Rattle.fr_command.specs.Conversations.{Ends, line_size, point_of, silence_in, text_of};
ghost use Rattle.fr_command.specs.Faults.{IsServeFault, IsServeFaultIn, StartsNone};
ghost use Rattle.fr_command.specs.InLines.{IsLineFault};
ghost use Rattle.fr_command.specs.InPieces.{Answers, IsFrontFault, IsPieceFault, Tells};
ghost use Rattle.fr_command.specs.Services.{AnswersInTime, Serves, ServesText};

use crate::conversation::{Conversation, Taken};
use crate::responder::Tally;
use fr_bytes::{MAX_BYTES, PIECE, RunFault, Stream, send_whole};
use fr_crew::{Crew, Gate};
use fr_route::Form;
use std::sync::Wait;
use std::thread::Threads;

/// Answers each line of the stream that is not blank as text. Each read begins only after all lines that had ended were
/// answered and the answers were flushed, so a caller that waits for an answer before it sends the next line is served.
/// At the end of the stream it has written exactly what [`run`](crate::run) writes. The input may have any length, and
/// each line at most [`MAX_BYTES`] bytes. It waits for the stream, and for the threads that settle networks, as
/// [`run`](crate::run) does. [`Joined`](crate::Joined) makes a stream of a reader and a writer.
///
/// Fails with `Read` if a read fails, and with `TooLong` at the first byte that makes a line too long, after which
/// nothing is read; then all lines that had ended were answered. Fails with `Start` if a thread cannot be started for a
/// line, or with `Memory` if there is no memory for it; then the lines before it were answered, and the lines after it
/// that were already read are lost. It never fails with `Start` if the budget is 0 or there is one worker. Fails with
/// `Write` if a write or a flush fails; then a prefix of the output was written.
///
/// The cost is that of `run`, but memory is needed only for the longest line.
pub fn serve<T: Threads + Wait + Sync, S: Stream, G: Gate + Sync>(
    crew: &Crew<'_, T, G>,
    stream: &mut S,
) -> Result<(), RunFault>
    // Exactly what `run` writes. A last line needs no newline.
    ensures ok { OnOk result (ServesText (S.traffic stream.old) (S.traffic stream.new)) }
    // After `Read`, exactly the lines that had ended were answered. After `Write`, a prefix of the output was
    // written. After `TooLong`, `Start` or `Memory`, the lines before the failed one were answered; lines that were
    // read after it are lost. `Start` only as for `run`.
    ensures fault { IfErr result (IsServeFault (S.traffic stream.old) (S.traffic stream.new)) }
    // When a read of a stream with a log begins, exactly the lines that have ended are answered, and all answers are
    // flushed. `Connection` of `crates/test_callers` is such a stream. `Joined`, which the program uses, has no log,
    // so tests take the place of this clause there.
    ensures in_time { AnswersInTime Text (S.traffic stream.old).log (S.traffic stream.new).log }
    ensures no_start { StartsNone crew.now.plan.now → result ≢ Err RunFault.Start }
{
    match serve_in(crew, Form::Text, stream) {
        Ok(_) => Ok(()),
        Err(fault) => Err(fault),
    }
}

/// Answers each line of the stream as [`serve`] does, in this form, and returns how many lines were answered and
/// refused. It reads and writes, fails and costs as `serve` does.
pub fn serve_in<T: Threads + Wait + Sync, S: Stream, G: Gate + Sync>(
    crew: &Crew<'_, T, G>,
    form: Form,
    stream: &mut S,
) -> Result<Tally, RunFault>
    ensures ok { IfOk result (Serves form (S.traffic stream.old) (S.traffic stream.new)) }
    ensures fault { IfErr result (IsServeFaultIn form (S.traffic stream.old) (S.traffic stream.new)) }
    ensures in_time { AnswersInTime form (S.traffic stream.old).log (S.traffic stream.new).log }
    ensures no_start { StartsNone crew.now.plan.now → result ≢ Err RunFault.Start }
{
    let mut conversation = Conversation::with_form(crew.alloc, form);
    serve_conversation(crew, &mut conversation, stream)
}

/// The same, in a conversation in which nothing was said yet. Its caller owns the conversation, so that no exit of
/// this loop has to drop it.
fn serve_conversation<T: Threads + Wait + Sync, S: Stream, G: Gate + Sync>(
    crew: &Crew<'_, T, G>,
    conversation: &mut Conversation,
    stream: &mut S,
) -> Result<Tally, RunFault>
    requires { conversation.old ≡ silence_in conversation.old.form }
    ensures ok { IfOk result (Serves conversation.old.form (S.traffic stream.old) (S.traffic stream.new)) }
    ensures fault { IfErr result
        (IsServeFaultIn conversation.old.form (S.traffic stream.old) (S.traffic stream.new)) }
    ensures in_time { AnswersInTime conversation.old.form (S.traffic stream.old).log (S.traffic stream.new).log }
    ensures no_start { StartsNone crew.now.plan.now → result ≢ Err RunFault.Start }
{
    let mut piece = [0u8; PIECE];
    'reads: for _ in crew.rt.forever() {
        let room = PIECE.min(MAX_BYTES + 1 - conversation.begun().len());
        let count = stream.read(&mut piece[..room])?;
        if count == 0 {
            return answer_last_line(crew, conversation, stream);
        }
        answer_piece(crew, conversation, &piece[..count], stream)?;
    }
    unreachable!()
}

/// Answers the lines that end in a piece, and flushes.
fn answer_piece<T: Threads + Wait + Sync, S: Stream, G: Gate + Sync>(
    crew: &Crew<'_, T, G>,
    conversation: &mut Conversation,
    piece: &[u8],
    stream: &mut S,
) -> Result<(), RunFault>
    requires { lines_of conversation.old.begun ≡ conversation.old.begun ∷ [] }
    ensures ok { OnOk result
        (Answers conversation.old piece.now conversation.new (S.traffic stream.old) (S.traffic stream.new)) }
    ensures fault { IfErr result (IsPieceFault conversation.old piece.now conversation.new
        (S.traffic stream.old).written (S.traffic stream.new).written) }
    ensures unread { ReadsNothing (S.traffic stream.old) (S.traffic stream.new) }
    ensures no_start { StartsNone crew.now.plan.now → result ≢ Err RunFault.Start }
{
    let mut done = 0;
    while done < piece.len() {
        let count = answer_first_line(crew, conversation, &piece[done..], stream)?;
        done += count;
    }
    stream.flush()
}

/// Answers the first line that ends in a piece, if there is one, and returns how many bytes were taken.
fn answer_first_line<T: Threads + Wait + Sync, S: Stream, G: Gate + Sync>(
    crew: &Crew<'_, T, G>,
    conversation: &mut Conversation,
    piece: &[u8],
    stream: &mut S,
) -> Result<usize, RunFault>
    ensures count { IfOk result (λ count. count ≡ line_size piece.now) }
    ensures ok { IfOk result (λ count. Tells conversation.old (take count piece.now) conversation.new
        (S.traffic stream.old) (S.traffic stream.new)) }
    ensures fault { IfErr result (IsFrontFault conversation.old piece.now conversation.new
        (S.traffic stream.old).written (S.traffic stream.new).written) }
    ensures unread { ReadsNothing (S.traffic stream.old) (S.traffic stream.new) }
    ensures no_start { StartsNone crew.now.plan.now → result ≢ Err RunFault.Start }
{
    let Taken { count, answer } = conversation.push_piece(crew, piece)?;
    send_answer(stream, &answer)?;
    conversation.reuse(answer);
    Ok(count)
}

/// Answers the last line, which the end of the input ends, flushes, and returns how many lines were answered and
/// refused.
fn answer_last_line<T: Threads + Wait + Sync, S: Stream, G: Gate + Sync>(
    crew: &Crew<'_, T, G>,
    conversation: &mut Conversation,
    stream: &mut S,
) -> Result<Tally, RunFault>
    ensures ok { IfOk result (λ tally. (text : List ℕ) × Ends conversation.old text conversation.new
        × Appends (S.traffic stream.old).written (S.traffic stream.new).written text
        × (tally.answered ≡ conversation.new.answered) × (tally.refused ≡ conversation.new.refused)) }
    ensures fault { IfErr result (IsLineFault conversation.old.form (point_of conversation.old) conversation.old.begun
        (S.traffic stream.old).written (S.traffic stream.new).written) }
    ensures unread { ReadsNothing (S.traffic stream.old) (S.traffic stream.new) }
    ensures no_start { StartsNone crew.now.plan.now → result ≢ Err RunFault.Start }
{
    let answer = conversation.end_line(crew)?;
    send_answer(stream, &answer)?;
    stream.flush()?;
    Ok(conversation.tally())
}

/// Writes an answer and a newline, if there is one.
fn send_answer<S: Stream>(stream: &mut S, answer: &Option<String>) -> Result<(), RunFault>
    ensures ok { OnOk result (Writes (S.traffic stream.old) (S.traffic stream.new) (text_of answer.now)) }
    ensures err { OnErr result ((out : List ℕ) × IsBeginning out (text_of answer.now)
        × Writes (S.traffic stream.old) (S.traffic stream.new) out) }
    ensures kind { IfErr result (λ fault. fault ≡ RunFault.Write) }
{
    match answer {
        Some(text) => send_line(stream, text.as_bytes()),
        None => Ok(()),
    }
}

/// Writes a line and its newline.
fn send_line<S: Stream>(stream: &mut S, line: &[u8]) -> Result<(), RunFault>
    ensures ok { OnOk result (Writes (S.traffic stream.old) (S.traffic stream.new) (line.now ++ 10 ∷ [])) }
    ensures err { OnErr result ((out : List ℕ) × IsBeginning out (line.now ++ 10 ∷ [])
        × Writes (S.traffic stream.old) (S.traffic stream.new) out) }
    ensures kind { IfErr result (λ fault. fault ≡ RunFault.Write) }
{
    send_whole(stream, line)?;
    send_whole(stream, b"\n")
}
