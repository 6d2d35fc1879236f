//! Why a run, a service, a play or a drawing stopped.

ghost use Rattle.std.specs.Prelude.{◌≡◌};
ghost use Rattle.fr_bytes.specs.declared.fault.RunFault.TheVariants.{Memory};

use std::alloc::AllocError;
use thiserror::Error;

/// Why a run, a service, a play or a drawing stopped. Plays and drawings write only at their end, so if they stop with
/// a fault other than `Write`, they have written nothing.
#[derive(Debug, Drop, Error, PartialEq, Eq)]
pub enum RunFault {
    /// A read failed. A service has written the answers to all lines that had ended; the others have written nothing.
    #[error("read fault")]
    Read,
    /// A write or the flush failed, or a write accepted no byte. What was written is a prefix of the output.
    #[error("write fault")]
    Write,
    /// The input has more than [`MAX_BYTES`](crate::MAX_BYTES) bytes; then nothing was written. In a service, one line
    /// has more bytes; then the answers to the lines before it were written.
    #[error("input too long")]
    TooLong,
    /// A thread could not be started. The answers to the lines before the current one were written.
    #[error("no thread")]
    Start,
    /// An allocation was refused. The answers to the lines before the current one were written, or nothing if the input
    /// of a run did not fit into memory.
    #[error("no memory")]
    Memory,
}

// Written by hand, because clauses say which fault a `?` returns.
impl From<AllocError> for RunFault {
    ghost from_gives = { λ _ fault. fault ≡ Memory };

    fn from(_refused: AllocError) -> RunFault {
        RunFault::Memory
    }
}
