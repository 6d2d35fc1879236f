//! Reading a line as a request. `specs/Requests.antt` defines which line is which request.

ghost use Rattle.std.specs.Prelude.{◌≡◌, ◌≢◌, ◌∷◌, [], Ok, Err, IfOk, IfErr, OnOk};
ghost use Rattle.fr_requests.specs.declared.requests.LineFault.TheVariants.{Memory};
ghost use Rattle.fr_requests.specs.Requests.{plain, reading};

use crate::read::read_value;
use crate::requests::{LineFault, Request};
use crate::word_lines::{list_request_after, request_of, short_request_after};
use crate::words::opening_word;
use json::Scratch;
use std::alloc::{AllocError, Global};
use std::fmt::{self, Formatter, Write};

/// The memory for a longer line is not kept.
const LONGEST_KEPT: usize = 1 << 16;

/// Reads lines as requests, and keeps some memory from one line to the next. A new reader, by `LineReader::default`,
/// has none. It gives back the memory for a line of more than 64 KB.
#[derive(Default, Drop)]
pub struct LineReader {
    // For the first line that is not read by its bytes, and for each such line after it.
    scratch: Option<Box<Scratch>>,
}

impl LineReader {
    /// Returns the request of a line. White space is allowed wherever JSON allows it. Fails with `NotJson` or
    /// `NotRequest` if the line is not a request, as [`LineFault`] says, and with `Memory` if an allocation is refused.
    /// The line alone determines every fault except `Memory`.
    ///
    /// O(b) for a line of b bytes. It reads most requests by their bytes, and allocates only their lists. For every
    /// other line, as one with an escape or an empty list, it makes a value of JSON; the first of them also makes 16 KB
    /// of memory for all.
    pub fn read(&mut self, alloc: Global, line: &[u8]) -> Result<Request, LineFault>
        ensures ok { IfOk result (λ request. reading line.now ≡ Ok (plain request)) }
        // `NotJson` exactly if the line is not JSON, `NotRequest` exactly if its value is not a request.
        ensures refused { IfErr result (λ fault. fault ≢ Memory → reading line.now ≡ Err fault) }
    {
        if let Some((word, rest)) = opening_word(line) {
            if let Some(brief) = short_request_after(word, rest) {
                return Ok(request_of(brief));
            }
        }
        self.read_long_line(alloc, line)
    }

    /// The request of a line with a list, or of one that is not read by its bytes. It is not inlined, so that other
    /// lines do not pay for its local variables.
    #[inline(never)]
    fn read_long_line(&mut self, alloc: Global, line: &[u8]) -> Result<Request, LineFault>
        ensures ok { IfOk result (λ request. reading line.now ≡ Ok (plain request)) }
        ensures refused { IfErr result (λ fault. fault ≢ Memory → reading line.now ≡ Err fault) }
    {
        if let Some((word, rest)) = opening_word(line) {
            if let Some(request) = list_request_after(alloc, word, rest)? {
                return Ok(request);
            }
        }
        let read = read_value(alloc, line, self.scratch(alloc)?);
        if line.len() > LONGEST_KEPT {
            self.scratch = None;
        }
        read
    }

    /// The memory for values of JSON, which is made when it is first needed.
    fn scratch(&mut self, alloc: Global) -> Result<&mut Scratch, AllocError> {
        let scratch = match self.scratch.take() {
            Some(scratch) => scratch,
            None => Box::new(alloc, Scratch::new(alloc))?,
        };
        Ok(self.scratch.insert(scratch))
    }
}

// Written by hand, because `Scratch` has no `Debug`. The memory means nothing to a reader of the text.
impl fmt::Debug for LineReader {
    fn fmt<W: Write>(&self, f: &mut Formatter<W>) -> Result<(), fmt::Error> {
        f.write_str("LineReader")
    }
}

/// Returns the request of one line, as [`LineReader::read`] does for each line of many. O(b) for a line of b bytes, and
/// the cost of 16 KB of memory if the line is not read by its bytes.
pub fn read_line(alloc: Global, line: &[u8]) -> Result<Request, LineFault>
    ensures ok { IfOk result (λ request. reading line.now ≡ Ok (plain request)) }
    ensures refused { IfErr result (λ fault. fault ≢ Memory → reading line.now ≡ Err fault) }
{
    LineReader::default().read(alloc, line)
}
