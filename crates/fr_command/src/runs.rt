//! A run: it reads the whole input, and answers its lines one after the other.

ghost use Rattle.std.specs.Prelude.{◌≡◌, ◌≢◌, List, ℕ, IfErr, IfOk};
ghost use Rattle.fr_bytes.specs.Bytes.{ReadsInput, ReadsAtMostOneTooMany};
ghost use Rattle.fr_command.specs.Faults.{IsRunFault, IsRunFaultIn, StartsNone};
ghost use Rattle.fr_command.specs.Outputs.{WritesOutput, WritesOutputIn};

use crate::answers::answer_all;
use crate::responder::Tally;
use fr_bytes::{RunFault, flush, read_input};
use fr_crew::{Crew, Gate, Plan};
use fr_route::Form;
use std::alloc::Global;
use std::io::{Read, Write};
use std::sync::Wait;
use std::thread::Threads;

/// Reads the whole input, answers each line that is not blank as text, and returns how many lines were answered. It
/// flushes once, at the end. Each line ends at a newline (byte 10). `specs/Answers.antt` of fr_route defines the
/// answers. Threads settle each network, with this plan and gate; no answer depends on them. The call waits for these
/// threads, which end once the calls of the gate return. At most one byte more than [`MAX_BYTES`](crate::MAX_BYTES)
/// is read.
///
/// Fails with `Read` if a read fails, with `TooLong` if the input is longer than the limit, and with `Memory` if there
/// is no memory for the input; then nothing was written. Fails with `Write` if a write or the flush fails; then a
/// prefix of the output was written. Fails with `Start` if a thread cannot be started for a line, or with `Memory`
/// if there is no memory for it; then the answers to the lines before it were written. With the budget 0 there are no
/// threads, and it never fails with `Start`.
///
/// O(b) for b bytes of input, and the cost of [`Session::answer_line`](fr_route::Session::answer_line) for each line.
pub fn run<T: Threads + Wait + Sync, R: Read, W: Write, G: Gate + Sync>(
    rt: &T,
    alloc: Global,
    reader: &mut R,
    writer: &mut W,
    plan: &Plan,
    gate: &G,
) -> Result<u64, RunFault>
    // Exactly the output of the definitions, and the number of lines that got an answer.
    ensures ok { IfOk result (λ count. (bytes : List ℕ)
        × ReadsInput (R.remaining reader.old) (R.remaining reader.new) bytes
        × WritesOutput bytes (W.contents writer.old) (W.contents writer.new) count) }
    // At most one byte past the limit is read.
    ensures limit { ReadsAtMostOneTooMany (R.remaining reader.old) (R.remaining reader.new) }
    // After `Read` or `TooLong`, nothing was written. After `Write`, a prefix of the output was written. After
    // `Start` or `Memory`, the answers before the failed line were written; after `Memory`, it is also possible that
    // nothing was written. `Start` only at an accepted line after which a node can turn.
    ensures fault { IfErr result (IsRunFault (R.remaining reader.old) (R.remaining reader.new)
        (W.contents writer.old) (W.contents writer.new)) }
    ensures no_start { StartsNone plan.now → result ≢ Err RunFault.Start }
{
    let crew = Crew {
        rt,
        alloc,
        plan,
        gate,
    };
    match run_in(&crew, Form::Text, reader, writer) {
        Ok(tally) => Ok(tally.answered),
        Err(fault) => Err(fault),
    }
}

/// Answers the whole input as [`run`] does, in this form, and also returns how many lines were refused. It reads and
/// writes, fails and costs as `run` does.
pub fn run_in<T: Threads + Wait + Sync, R: Read, W: Write, G: Gate + Sync>(
    crew: &Crew<'_, T, G>,
    form: Form,
    reader: &mut R,
    writer: &mut W,
) -> Result<Tally, RunFault>
    // The output in this form, with how many lines got an answer, and how many were refused.
    ensures ok { IfOk result (λ tally. (bytes : List ℕ)
        × ReadsInput (R.remaining reader.old) (R.remaining reader.new) bytes
        × WritesOutputIn form bytes (W.contents writer.old) (W.contents writer.new) tally) }
    ensures limit { ReadsAtMostOneTooMany (R.remaining reader.old) (R.remaining reader.new) }
    ensures fault { IfErr result (IsRunFaultIn form (R.remaining reader.old) (R.remaining reader.new)
        (W.contents writer.old) (W.contents writer.new)) }
    ensures no_start { StartsNone crew.now.plan.now → result ≢ Err RunFault.Start }
{
    let input = read_input(crew.alloc, reader)?;
    let tally = answer_all(crew, form, &input, writer)?;
    flush(writer)?;
    Ok(tally)
}
