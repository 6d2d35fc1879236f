//! Streams: a reader and a writer in one value, so that a contract can say what was written before each read.

ghost use Rattle.std.specs.Prelude.{◌≡◌, ◌≤◌, ◌<◌, ℕ, [], IfOk, IfErr, OnOk, OnErr, length, take};
ghost use Rattle.std.specs.Io.KnownBytes.{IsAtEnd};
ghost use Rattle.fr_bytes.specs.Streams.{Traffic, Reads, Writes, Flushes};

use crate::fault::RunFault;
use std::io::{Read, Write};

/// A source of bytes and a sink for the answers to them. Contracts see its traffic: the bytes that are left to read,
/// the bytes that were written, and a log of all reads, writes and flushes, each where it is known.
pub trait Stream {
    /// What is known of the stream.
    ghost traffic: { Self → Traffic };

    /// Reads once into `piece`, and returns how many bytes were read. If `piece` is not empty and the result is 0, the
    /// stream is at its end. Fails with `Read` if the read fails. The cost is that of the read.
    fn read(&mut self, piece: &mut [u8]) -> Result<usize, RunFault>
        ensures ok { IfOk result (λ count. Reads (traffic self.old) (traffic self.new) (take count piece.new)) }
        ensures bound { IfOk result (λ count. count ≤ length piece.old) }
        ensures end { IfOk result (λ count. count ≡ 0 → 0 < length piece.old → IsAtEnd (traffic self.new).left) }
        // Then no byte was taken.
        ensures err { OnErr result (Reads (traffic self.old) (traffic self.new) []) }
        ensures kind { IfErr result (λ fault. fault ≡ RunFault.Read) };

    /// Writes once, and returns how many of the bytes were accepted. Fails with `Write` if the write fails; then no
    /// byte was accepted. The cost is that of the write.
    fn write(&mut self, bytes: &[u8]) -> Result<usize, RunFault>
        ensures ok { IfOk result (λ count. Writes (traffic self.old) (traffic self.new) (take count bytes.now)) }
        ensures bound { IfOk result (λ count. count ≤ length bytes.now) }
        // Then no byte was written.
        ensures err { OnErr result (Writes (traffic self.old) (traffic self.new) []) }
        ensures kind { IfErr result (λ fault. fault ≡ RunFault.Write) };

    /// Flushes what was written. Fails with `Write` if the flush fails. The cost is that of the flush.
    fn flush(&mut self) -> Result<(), RunFault>
        ensures ok { OnOk result (Flushes (traffic self.old) (traffic self.new)) }
        ensures err { OnErr result (Writes (traffic self.old) (traffic self.new) []) }
        ensures kind { IfErr result (λ fault. fault ≡ RunFault.Write) };
}

/// The stream of a reader and a writer. Each of its calls is one call of these. Its log is not known.
#[derive(Debug, Drop)]
pub struct Joined<R, W> {
    /// Where the bytes come from.
    pub reader: R,
    /// Where the answers go.
    pub writer: W,
}

impl<R: Read, W: Write> Stream for Joined<R, W> {
    ghost use Rattle.fr_bytes.specs.Streams.{traffic_of};

    ghost traffic = { λ it. traffic_of (R.remaining it.reader) (W.contents it.writer) };

    fn read(&mut self, piece: &mut [u8]) -> Result<usize, RunFault> {
        match self.reader.read(piece) {
            Ok(count) => Ok(count),
            Err(_) => Err(RunFault::Read),
        }
    }

    fn write(&mut self, bytes: &[u8]) -> Result<usize, RunFault> {
        match self.writer.write(bytes) {
            Ok(count) => Ok(count),
            Err(_) => Err(RunFault::Write),
        }
    }

    fn flush(&mut self) -> Result<(), RunFault> {
        match self.writer.flush() {
            Ok(()) => Ok(()),
            Err(_) => Err(RunFault::Write),
        }
    }
}

/// Writes all of the bytes to a stream. Fails with `Write` if a write fails or accepts no byte; then a prefix of the
/// bytes was written. O(b) for b bytes.
pub fn send_whole<S: Stream>(stream: &mut S, bytes: &[u8]) -> Result<(), RunFault>
    ensures ok { OnOk result (Writes (S.traffic stream.old) (S.traffic stream.new) bytes.now) }
    ensures err { OnErr result ((n : ℕ) × Writes (S.traffic stream.old) (S.traffic stream.new) (take n bytes.now)) }
    ensures kind { IfErr result (λ fault. fault ≡ RunFault.Write) }
{
    let mut done = 0;
    while done < bytes.len() {
        let count = stream.write(&bytes[done..])?;
        if count == 0 {
            return Err(RunFault::Write);
        }
        done += count;
    }
    Ok(())
}
