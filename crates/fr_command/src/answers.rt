//! Answering the lines of an input.

ghost use Rattle.std.specs.Prelude.{◌≡◌, ◌≢◌, [], ◌∷◌, List, ℕ, IfErr, IfNone};
ghost use Rattle.std.specs.Prelude.{IfOk, IfSome, OnOk, string_bytes};
ghost use Rattle.std.specs.Io.KnownBytes.{Appends};
ghost use Rattle.fr_command.specs.Faults.{StartsNone};
ghost use Rattle.fr_command.specs.InLines.{IsAnsweringFault, IsLineFault, IsUnanswered};
ghost use Rattle.fr_command.specs.Outputs.{WritesOutputIn};
ghost use Rattle.fr_command.specs.Points.{AreAnswersIn, first_point};

use crate::fault::run_fault;
use crate::responder::{Responder, Tally};
use fr_bytes::{Lines, RunFault, write_whole};
use fr_crew::{Crew, Gate};
use fr_route::{AnswerFault, Form};
use std::io::Write;
use std::sync::Wait;
use std::thread::Threads;

/// Writes the answer to each line of the input that is not blank, in this form, and returns how many lines were
/// answered and refused.
pub(crate) fn answer_all<T: Threads + Wait + Sync, W: Write, G: Gate + Sync>(
    crew: &Crew<'_, T, G>,
    form: Form,
    input: &[u8],
    writer: &mut W,
) -> Result<Tally, RunFault>
    ensures ok { IfOk result (WritesOutputIn form input.now (W.contents writer.old) (W.contents writer.new)) }
    ensures fault { IfErr result (IsAnsweringFault form input.now (W.contents writer.old) (W.contents writer.new)) }
    ensures no_start { StartsNone crew.now.plan.now → result ≢ Err RunFault.Start }
{
    let mut responder = Responder::new(crew.alloc);
    answer_each(crew, form, &mut responder, input, writer)
}

/// The same, by a responder that was asked nothing yet. Its caller owns the responder, so that no exit of this loop has
/// to drop it.
fn answer_each<T: Threads + Wait + Sync, W: Write, G: Gate + Sync>(
    crew: &Crew<'_, T, G>,
    form: Form,
    responder: &mut Responder,
    input: &[u8],
    writer: &mut W,
) -> Result<Tally, RunFault>
    requires { responder.old ≡ first_point }
    ensures ok { IfOk result (WritesOutputIn form input.now (W.contents writer.old) (W.contents writer.new)) }
    ensures fault { IfErr result (IsAnsweringFault form input.now (W.contents writer.old) (W.contents writer.new)) }
    ensures no_start { StartsNone crew.now.plan.now → result ≢ Err RunFault.Start }
{
    for line in Lines::new(input) {
        answer_one(crew, form, responder, line, writer)?;
    }
    Ok(responder.tally())
}

/// Writes the answer to a line and a newline, or nothing for a blank line.
fn answer_one<T: Threads + Wait + Sync, W: Write, G: Gate + Sync>(
    crew: &Crew<'_, T, G>,
    form: Form,
    responder: &mut Responder,
    line: &[u8],
    writer: &mut W,
) -> Result<(), RunFault>
    ensures ok { OnOk result ((out : List ℕ) × AreAnswersIn form responder.old (line.now ∷ []) out responder.new
        × Appends (W.contents writer.old) (W.contents writer.new) out) }
    ensures fault { IfErr result
        (IsLineFault form responder.old line.now (W.contents writer.old) (W.contents writer.new)) }
    ensures no_start { StartsNone crew.now.plan.now → result ≢ Err RunFault.Start }
{
    match answer_text(crew, form, responder, line) {
        Ok(Some(text)) => {
            let written = write_whole(writer, text.as_bytes());
            responder.reuse(text);
            written
        }
        Ok(None) => Ok(()),
        Err(fault) => Err(run_fault(fault)),
    }
}

/// The answer to a line with a newline after it, or `None` for a blank line.
fn answer_text<T: Threads + Wait + Sync, G: Gate + Sync>(
    crew: &Crew<'_, T, G>,
    form: Form,
    responder: &mut Responder,
    line: &[u8],
) -> Result<Option<String>, AnswerFault>
    ensures blank { IfOk result
        (λ answer. IfNone answer (AreAnswersIn form responder.old (line.now ∷ []) [] responder.new)) }
    ensures text { IfOk result
        (λ answer. IfSome answer
        (λ text. AreAnswersIn form responder.old (line.now ∷ []) (string_bytes text) responder.new)) }
    ensures fault { IfErr result (IsUnanswered responder.old line.now) }
    ensures no_start { StartsNone crew.now.plan.now → result ≢ Err AnswerFault.Start }
{
    let Some(mut text) = responder.answer(crew, form, line)? else {
        return Ok(None);
    };
    match text.push('\n') {
        Ok(()) => Ok(Some(text)),
        Err(_) => Err(AnswerFault::Memory),
    }
}
