//! From an input to a page with its story.

ghost use Rattle.std.specs.Prelude.{IfOk, IfErr, OnOk, string_bytes};
ghost use Rattle.fr_bytes.specs.Bytes.{ReadsAtMostOneTooMany};
ghost use Rattle.revdot.specs.Pages.{IsPage};
ghost use Rattle.revdot.specs.Written.{WritesText, IsTextFault};

use crate::story::push_story;
use fr_bytes::{RunFault, read_input, write_out};
use std::alloc::{AllocError, Global};
use std::io::{Read, Write};

/// Writes one page with the story of the lines of the input, between the two parts of the viewer. It reads the whole
/// input, answers its lines in a session, and flushes once. It reads at most one byte more than the limit of
/// 16,777,216 bytes. If it fails with any fault but `Write`, it has written nothing. Comments have no answer. Those
/// that say where nodes are or what they are called are in the story.
///
/// The whole text is made before any of it is written. On a network of at most 256 nodes the first 4,096 turns of each
/// round are made again, one by one; each takes time linear in the nodes and links. Of a round on a larger network the
/// page has only the size. A change takes room for what the round changed, and each 256th line for the whole state.
pub fn page<R: Read, W: Write>(
    alloc: Global,
    reader: &mut R,
    writer: &mut W,
    first_part: &str,
    last_part: &str,
) -> Result<(), RunFault>
    // The page has each line, request and answer. For a network of up to 256 nodes, it also has each round, with up
    // to 4,096 turns, and the pushes of the round. For a change it has what the round changed, which determines the
    // links after the round. After each 256th line, it has the whole state. Changes list exactly the nodes with new
    // ways, and whole states list all ways. The page has the comments that begin with `# places ` or `# names `,
    // percent-encoded, and no other ones.
    ensures ok { OnOk result
        (WritesText (IsPage first_part.now last_part.now) (R.remaining reader.old) (R.remaining reader.new)
        (W.contents writer.old) (W.contents writer.new)) }
    ensures limit { ReadsAtMostOneTooMany (R.remaining reader.old) (R.remaining reader.new) }
    // As for `draw`.
    ensures fault { IfErr result
        (IsTextFault (IsPage first_part.now last_part.now) (R.remaining reader.old) (R.remaining reader.new)
        (W.contents writer.old) (W.contents writer.new)) }
{
    let input = read_input(alloc, reader)?;
    let text = page_of(alloc, &input, first_part, last_part)?;
    write_out(writer, text.as_bytes())
}

/// The page of an input.
fn page_of(
    alloc: Global,
    input: &[u8],
    first_part: &str,
    last_part: &str,
) -> Result<String, AllocError>
    ensures { IfOk result (λ text. IsPage first_part.now last_part.now input.now (string_bytes text)) }
{
    let mut text = String::new(alloc);
    text.push_str(first_part)?;
    push_story(&mut text, alloc, input)?;
    text.push_str(last_part)?;
    Ok(text)
}
