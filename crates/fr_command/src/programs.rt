//! What the program does: the task of its command line, from a reader to a writer, and the exit status.

ghost use Rattle.std.specs.Prelude.{◌≡◌, ℕ, List, IfOk, IfErr, map};
ghost use Rattle.std.specs.Io.KnownBytes.{Appends};
ghost use Rattle.fr_bytes.specs.Bytes.{IsBeginning};
ghost use Rattle.fr_bytes.specs.Streams.{traffic_of};
ghost use Rattle.fr_command.specs.Programs.{DoesTask, FailsTask, IsDone, IsFailure, IsStatus, IsUntold, PrintsAsked};
ghost use Rattle.fr_command.specs.Programs.{failure_text, form_of, status_of};

use crate::fault::run_end;
use crate::play::play_drawn;
use crate::responder::Tally;
use crate::runs::run_in;
use crate::serving::serve_in;
use crate::words::command_line;
use fr_bytes::{Joined, RunFault, write_out};
use fr_cli::{CommandLine, Task, TaskFault};
use fr_crew::{Crew, OpenGate, Plan};
use fr_route::Form;
use std::alloc::Global;
use std::io::{Read, Write};
use std::sync::Wait;
use std::thread::Threads;

/// The exit status if a line was refused, with `--strict`.
const REFUSED: u8 = 3;

/// Why the program ends without having done what its words ask for.
#[derive(Debug, Drop, PartialEq, Eq)]
pub enum Failure {
    /// The words are not those of the command line. The text says what is wrong.
    Usage { text: String },
    /// A run or a play failed with this fault, or the text of help or of the version could not be written, or an
    /// allocation was refused before the task began.
    Stopped(RunFault),
    /// A service failed with this fault.
    StoppedServing(RunFault),
}

impl Failure {
    /// The exit status, which is 2 for a usage error and 1 otherwise, and the text for standard error. O(1).
    pub fn end(&self) -> (u8, &str)
        // 2 for a usage error and 1 for a fault.
        ensures status { result.0 ≡ status_of self.now }
        // The text of the usage error, or the line of exactly this fault.
        ensures text { result.1.now ≡ failure_text self.now }
    {
        match self {
            Failure::Usage { text } => (2, text.as_str()),
            // A service without threads goes on where a run has to stop.
            Failure::StoppedServing(RunFault::Start) => {
                (1, "revroute: no thread (serve --alone needs none)")
            }
            Failure::Stopped(fault) | Failure::StoppedServing(fault) => run_end(fault),
        }
    }
}

/// Does what the words ask for: the task, which reads from the stream and writes to it; or it writes the text of help or
/// of the version, flushes, and reads nothing. The first word is the program's name. Returns the exit status: 3 if a
/// line was refused and the words have `--strict`, and otherwise 0.
///
/// Fails with `Usage` if the words are not those of the command line; then nothing was read or written. Fails with
/// `Stopped` or `StoppedServing` if the task fails, as [`run`](crate::run), [`serve`](crate::serve) and [`play_drawn`]
/// do, or with `Stopped` if there is no memory for the words or if help or the version cannot be written. It costs what
/// the task costs, and O(b) for b bytes of words.
pub fn program<'a, T: Threads + Wait + Sync, R: Read, W: Write>(
    rt: &T,
    alloc: Global,
    words: &'a [&'a str],
    stream: &mut Joined<R, W>,
) -> Result<u8, Failure>
    // The answers have the form of the flags `--json` and `--ways`. The status is 3 exactly if a line was refused and
    // `--strict` was given, otherwise 0. It is 0 or 3 only if the task was done, or help or the version was written.
    ensures done { IfOk result (IsDone (map (λ s. s.now) words.entry.now)
        (traffic_of (R.remaining stream.old.reader) (W.contents stream.old.writer))
        (traffic_of (R.remaining stream.new.reader) (W.contents stream.new.writer))) }
    // After a usage error nothing was read or written. Otherwise the call has the fault of the task.
    ensures failed { IfErr result (IsFailure (map (λ s. s.now) words.entry.now)
        (traffic_of (R.remaining stream.old.reader) (W.contents stream.old.writer))
        (traffic_of (R.remaining stream.new.reader) (W.contents stream.new.writer))) }
{
    match command_line(alloc, words) {
        Ok(line) => perform_task(rt, alloc, &line, stream),
        Err(fault) => end_without_task(fault, &mut stream.writer),
    }
}

/// Does the task of a command line.
fn perform_task<T: Threads + Wait + Sync, R: Read, W: Write>(
    rt: &T,
    alloc: Global,
    line: &CommandLine,
    stream: &mut Joined<R, W>,
) -> Result<u8, Failure>
    ensures done { IfOk result (DoesTask line.now.task line.now
        (traffic_of (R.remaining stream.old.reader) (W.contents stream.old.writer))
        (traffic_of (R.remaining stream.new.reader) (W.contents stream.new.writer))) }
    ensures failed { IfErr result (FailsTask line.now.task (form_of line.now)
        (traffic_of (R.remaining stream.old.reader) (W.contents stream.old.writer))
        (traffic_of (R.remaining stream.new.reader) (W.contents stream.new.writer))) }
{
    let form = answer_form(line);
    match line.task {
        Task::Run(plan) => {
            let crew = crew_of(rt, alloc, &plan);
            match run_in(&crew, form, &mut stream.reader, &mut stream.writer) {
                Ok(tally) => Ok(status_for(line, tally)),
                Err(fault) => Err(Failure::Stopped(fault)),
            }
        }
        Task::Serve(plan) => match serve_in(&crew_of(rt, alloc, &plan), form, stream) {
            Ok(tally) => Ok(status_for(line, tally)),
            Err(fault) => Err(Failure::StoppedServing(fault)),
        },
        Task::Play(draw) => {
            match play_drawn(alloc, &mut stream.reader, &mut stream.writer, draw) {
                Ok(_decided) => Ok(0),
                Err(fault) => Err(Failure::Stopped(fault)),
            }
        }
    }
}

/// The form of the answers.
fn answer_form(line: &CommandLine) -> Form
    ensures { result ≡ form_of line.now }
{
    if line.ways {
        Form::JsonWithWays
    } else if line.json {
        Form::Json
    } else {
        Form::Text
    }
}

/// The exit status for a task that was done.
fn status_for(line: &CommandLine, tally: Tally) -> u8
    ensures { IsStatus line.now tally.refused result }
{
    if line.strict && tally.refused > 0 {
        REFUSED
    } else {
        0
    }
}

/// The crew of a plan, with the gate open.
fn crew_of<'a, T: Threads + Wait + Sync>(
    rt: &'a T,
    alloc: Global,
    plan: &'a Plan,
) -> Crew<'a, T, OpenGate> {
    Crew {
        rt,
        alloc,
        plan,
        gate: &OpenGate,
    }
}

/// Ends the program if the words ask for no task: writes the text that they ask for, or fails.
fn end_without_task<W: Write>(fault: TaskFault, writer: &mut W) -> Result<u8, Failure>
    ensures done { IfOk result
        (λ status. (status ≡ 0) × PrintsAsked fault (W.contents writer.old) (W.contents writer.new)) }
    ensures failed { IfErr result (IsUntold fault (W.contents writer.old) (W.contents writer.new)) }
{
    match fault {
        TaskFault::Usage { text, asked: true } => print_text(&text, writer),
        TaskFault::Usage { text, asked: false } => Err(Failure::Usage { text }),
        TaskFault::Version { text } => print_text(&text, writer),
        TaskFault::Memory => Err(Failure::Stopped(RunFault::Memory)),
    }
}

/// Writes a text, flushes, and returns the exit status 0.
fn print_text<W: Write>(text: &str, writer: &mut W) -> Result<u8, Failure>
    ensures done { IfOk result
        (λ status. (status ≡ 0) × Appends (W.contents writer.old) (W.contents writer.new) text.now) }
    ensures failed { IfErr result (λ failure. (failure ≡ Failure.Stopped RunFault.Write)
        × ((out : List ℕ) × IsBeginning out text.now
        × Appends (W.contents writer.old) (W.contents writer.new) out)) }
{
    match write_out(writer, text.as_bytes()) {
        Ok(()) => Ok(0),
        Err(fault) => Err(Failure::Stopped(fault)),
    }
}
