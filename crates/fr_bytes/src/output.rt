//! Writing all of some bytes, or a prefix of them if a write fails.

ghost use Rattle.std.specs.Prelude.{◌≡◌, ℕ, List, OnOk, OnErr, IfErr, take};
ghost use Rattle.std.specs.Io.KnownBytes.{Appends, Keeps};
ghost use Rattle.fr_bytes.specs.Bytes.{IsBeginning};

use crate::fault::RunFault;
use std::io::Write;

/// Writes all of the bytes. Fails with `Write` if a write fails or accepts no byte; then a prefix of the bytes was
/// written. O(b) for b bytes.
pub fn write_whole<W: Write>(writer: &mut W, bytes: &[u8]) -> Result<(), RunFault>
    ensures ok { OnOk result (Appends (W.contents writer.old) (W.contents writer.new) bytes.now) }
    // A prefix of the bytes was written.
    ensures err { OnErr result ((n : ℕ) × Appends (W.contents writer.old) (W.contents writer.new) (take n bytes.now)) }
    ensures kind { IfErr result (λ fault. fault ≡ RunFault.Write) }
{
    let mut done = 0;
    while done < bytes.len() {
        match writer.write(&bytes[done..]) {
            Ok(0) | Err(_) => return Err(RunFault::Write),
            Ok(count) => done += count,
        }
    }
    Ok(())
}

/// Writes all of the bytes and flushes once. Fails with `Write` if a write or the flush fails, or if a write accepts no
/// byte; then a prefix of the bytes was written. O(b) for b bytes.
pub fn write_out<W: Write>(writer: &mut W, bytes: &[u8]) -> Result<(), RunFault>
    ensures ok { OnOk result (Appends (W.contents writer.old) (W.contents writer.new) bytes.now) }
    ensures err { OnErr result ((front : List ℕ) × IsBeginning front bytes.now
        × Appends (W.contents writer.old) (W.contents writer.new) front) }
    ensures kind { IfErr result (λ fault. fault ≡ RunFault.Write) }
{
    write_whole(writer, bytes)?;
    flush(writer)
}

/// Flushes a writer. Fails with `Write` if that fails. The cost is that of the flush.
pub fn flush<W: Write>(writer: &mut W) -> Result<(), RunFault>
    ensures kept { Keeps (W.contents writer.old) (W.contents writer.new) }
    ensures kind { IfErr result (λ fault. fault ≡ RunFault.Write) }
{
    match writer.flush() {
        Ok(()) => Ok(()),
        Err(_) => Err(RunFault::Write),
    }
}
