//! Reading the whole input.

ghost use Rattle.fr_bytes.specs.declared.input.TheConstants.{MAX_BYTES};
ghost use Rattle.std.specs.Prelude.{◌≡◌, ◌<◌, ◌≤◌, length, take, IfOk, IfErr, OnErr};
ghost use Rattle.std.specs.Io.KnownBytes.{Consumes, Keeps, IsAtEnd};
ghost use Rattle.fr_bytes.specs.Bytes.{ReadsInput, ReadsAtMostOneTooMany};
ghost use Rattle.fr_bytes.specs.Faults.{IsInputFault};

use crate::fault::RunFault;
use std::alloc::Global;
use std::io::Read;

/// The greatest number of bytes of an input.
pub const MAX_BYTES: usize = 16_777_216;

/// How many bytes of an input are requested at once.
pub const PIECE: usize = 65_536;

/// Reads all bytes of the reader, at most [`MAX_BYTES`]. In every case it reads at most one byte more than that.
///
/// Fails with `Read` if a read fails, with `TooLong` if the reader has more bytes, and with `Memory` if there is no
/// memory for bytes that were read. It never fails with `Write` or `Start`. O(b) for b bytes read.
pub fn read_input<R: Read>(alloc: Global, reader: &mut R) -> Result<Vec<u8>, RunFault>
    // Exactly the bytes that the reader had.
    ensures ok { IfOk result (λ input. ReadsInput (R.remaining reader.old) (R.remaining reader.new) input.items) }
    ensures limit { ReadsAtMostOneTooMany (R.remaining reader.old) (R.remaining reader.new) }
    ensures fault { IfErr result (IsInputFault (R.remaining reader.old) (R.remaining reader.new)) }
{
    let mut piece = [0u8; PIECE];
    read_by_pieces(alloc, reader, &mut piece)
}

/// Reads all bytes of the reader as [`read_input`] does, by reads of at most as many bytes as `piece` has.
fn read_by_pieces<R: Read>(
    alloc: Global,
    reader: &mut R,
    piece: &mut [u8],
) -> Result<Vec<u8>, RunFault>
    requires { 0 < length piece.old }
    ensures ok { IfOk result (λ input. ReadsInput (R.remaining reader.old) (R.remaining reader.new) input.items) }
    ensures limit { ReadsAtMostOneTooMany (R.remaining reader.old) (R.remaining reader.new) }
    ensures fault { IfErr result (IsInputFault (R.remaining reader.old) (R.remaining reader.new)) }
{
    let mut input = Vec::new(alloc);
    'reads: while input.len() <= MAX_BYTES {
        let room = piece.len().min(MAX_BYTES + 1 - input.len());
        let count = read_piece(reader, &mut piece[..room])?;
        if count == 0 {
            return Ok(input);
        }
        if input.extend_from_slice(&piece[..count]).is_err() {
            return Err(RunFault::Memory);
        }
    }
    Err(RunFault::TooLong)
}

/// Reads once into `piece`, and returns how many bytes were read. If `piece` is not empty and the result is 0, the
/// reader is at its end. Fails with `Read` if the read fails. The cost is that of the read.
pub fn read_piece<R: Read>(reader: &mut R, piece: &mut [u8]) -> Result<usize, RunFault>
    ensures brings { IfOk result (λ count. count ≡ 0 → 0 < length piece.old → IsAtEnd (R.remaining reader.new)) }
    ensures bytes { IfOk result
        (λ count. Consumes (R.remaining reader.old) (R.remaining reader.new) (take count piece.new)) }
    ensures bound { IfOk result (λ count. count ≤ length piece.old) }
    ensures fault { IfErr result (λ fault. fault ≡ RunFault.Read) }
    ensures kept { OnErr result (Keeps (R.remaining reader.old) (R.remaining reader.new)) }
{
    match reader.read(piece) {
        Ok(count) => Ok(count),
        Err(_) => Err(RunFault::Read),
    }
}
