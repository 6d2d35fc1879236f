//! A connection that keeps a log, and a service over it.

ghost use Rattle.std.specs.Prelude.{◌≡◌, ◌++◌, ◌∷◌, ◌≤◌, ◌<◌, [], map, take, length, IfOk, IfErr, OnOk, OnErr};
ghost use Rattle.std.specs.List.{AllByRecursion};
ghost use Rattle.fr_command.specs.Outputs.{IsOutput};
ghost use Rattle.fr_command.specs.Services.{IsAnsweredAt};
ghost use Rattle.fr_route.specs.declared.form.Form.TheVariants.{Text};
ghost use Rattle.test_callers.specs.Marks.{moment_of};

use fr_command::{RunFault, Stream, serve};
use fr_crew::{Crew, OpenGate, Plan};
use std::alloc::{AllocError, Global};
use std::sync::Wait;
use std::thread::Threads;

/// What had been read, written and delivered at a moment.
#[derive(Drop)]
pub struct Mark {
    pub read: Vec<u8>,
    pub written: Vec<u8>,
    pub delivered: Vec<u8>,
}

impl Mark {
    /// A mark of the same moment.
    fn copied(&self) -> Result<Mark, AllocError>
        ensures { IfOk result (λ mark. moment_of mark ≡ moment_of self.now) }
    {
        Ok(Mark {
            read: copy_of(&self.read)?,
            written: copy_of(&self.written)?,
            delivered: copy_of(&self.delivered)?,
        })
    }
}

/// A copy of some bytes.
fn copy_of(bytes: &Vec<u8>) -> Result<Vec<u8>, AllocError>
    ensures { IfOk result (λ copy. copy.items ≡ bytes.now.items) }
{
    bytes.clone()
}

/// A connection to a client that sends some bytes. Writes collect bytes, and a flush delivers them. Each read adds a
/// mark to the log. A read without memory for its mark waits for memory, because no read may be missing in the log.
#[derive(Drop)]
pub struct Connection<'a, T: Wait> {
    rt: &'a T,
    /// The bytes that are left to read.
    pub rest: &'a [u8],
    /// What was read, written and delivered so far.
    pub done: Mark,
    /// The log: the moment at which each read began.
    pub reads: Vec<Mark>,
}

impl<'a, T: Wait> Connection<'a, T> {
    ghost use Rattle.test_callers.specs.Marks.{traffic_in};
    ghost use Rattle.fr_bytes.specs.Streams.{first_log};
    ghost use Rattle.std.specs.Prelude.{Some};

    /// The connection to a client that sends these bytes.
    pub fn new(rt: &'a T, alloc: Global, sent: &'a [u8]) -> Connection<'a, T>
        ensures rest { result.rest.now ≡ sent.now }
        ensures written { result.done.written.items ≡ [] }
        ensures log { (traffic_in result.rest.now result.done result.reads.items).log ≡ Some first_log }
    {
        Connection {
            rt,
            rest: sent,
            done: Mark {
                read: Vec::new(alloc),
                written: Vec::new(alloc),
                delivered: Vec::new(alloc),
            },
            reads: Vec::new(alloc),
        }
    }
}

impl<'a, T: Wait> Stream for Connection<'a, T> {
    ghost use Rattle.test_callers.specs.Marks.{traffic_in};

    ghost traffic = { λ it. traffic_in it.rest.now it.done it.reads.items };

    fn read(&mut self, piece: &mut [u8]) -> Result<usize, RunFault> {
        for _ in self.rt.forever() {
            if push_mark(&mut self.reads, &self.done).is_ok() {
                return receive(&mut self.rest, &mut self.done.read, piece);
            }
        }
        unreachable!()
    }

    fn write(&mut self, bytes: &[u8]) -> Result<usize, RunFault> {
        match self.done.written.extend_from_slice(bytes) {
            Ok(()) => Ok(bytes.len()),
            Err(_) => Err(RunFault::Write),
        }
    }

    fn flush(&mut self) -> Result<(), RunFault> {
        match copy_of(&self.done.written) {
            Ok(bytes) => {
                self.done.delivered = bytes;
                Ok(())
            }
            Err(_) => Err(RunFault::Write),
        }
    }
}

/// Adds a mark of this moment to a log.
fn push_mark(reads: &mut Vec<Mark>, done: &Mark) -> Result<(), AllocError>
    ensures ok { OnOk result
        (map moment_of reads.new.items ≡ map moment_of reads.old.items ++ moment_of done.now ∷ []) }
    ensures err { OnErr result (reads.new.items ≡ reads.old.items) }
{
    let mark = done.copied()?;
    match reads.push(mark) {
        Ok(()) => Ok(()),
        Err(_) => Err(AllocError),
    }
}

/// Moves the first bytes of `rest` into a piece, as many as fit, and appends them to `read`.
fn receive(rest: &mut &[u8], read: &mut Vec<u8>, piece: &mut [u8]) -> Result<usize, RunFault>
    ensures ok { IfOk result (λ count. (rest.old.now ≡ take count piece.new ++ rest.new.now)
        × (read.new.items ≡ read.old.items ++ take count piece.new)) }
    ensures bound { IfOk result (λ count. count ≤ length piece.old) }
    ensures end { IfOk result (λ count. count ≡ 0 → 0 < length piece.old → rest.new.now ≡ []) }
    ensures err { OnErr result ((rest.new.now ≡ rest.old.now) × (read.new.items ≡ read.old.items)) }
    ensures kind { IfErr result (λ fault. fault ≡ RunFault.Read) }
{
    let count = piece.len().min(rest.len());
    let (given, left) = rest.split_at(count);
    if read.extend_from_slice(given).is_err() {
        return Err(RunFault::Read);
    }
    piece[..count].copy_from_slice(given);
    *rest = left;
    Ok(count)
}

/// Serves a client that sends these bytes, without a thread, and returns the connection. At each read all lines that had
/// ended were answered, and the answers were delivered, also if the service failed later.
pub fn serve_client<'a, T: Threads + Wait + Sync>(
    rt: &'a T,
    alloc: Global,
    sent: &'a [u8],
) -> (Connection<'a, T>, Result<(), RunFault>)
    ensures in_time { AllByRecursion (IsAnsweredAt Text) (map moment_of result.0.reads.items) }
    ensures ok { OnOk result.1 ((result.0.rest.now ≡ []) × IsOutput sent.now result.0.done.written.items) }
{
    let plan = Plan::new(1, 0, 0).unwrap();
    let crew = Crew {
        rt,
        alloc,
        plan: &plan,
        gate: &OpenGate,
    };
    let mut connection = Connection::new(rt, alloc, sent);
    let end = serve(&crew, &mut connection);
    (connection, end)
}
