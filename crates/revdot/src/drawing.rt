//! From an input to its picture.

ghost use Rattle.std.specs.Prelude.{IfOk, IfErr, OnOk, string_bytes};
ghost use Rattle.fr_bytes.specs.Bytes.{ReadsAtMostOneTooMany};
ghost use Rattle.revdot.specs.Drawings.{IsDrawing, IsPictureOf};
ghost use Rattle.revdot.specs.Written.{WritesText, IsTextFault};

use crate::answered_session::session_after;
use crate::graphs::{Direction, Label};
use crate::settled::{push_settled, push_settled_ways};
use crate::strips::push_strip;
use fr_bytes::{RunFault, read_input, write_out};
use fr_route::Session;
use std::alloc::{AllocError, Global};
use std::io::{Read, Write};

/// What to draw of the network that an input leaves.
#[derive(Clone, Copy)]
pub enum Picture {
    /// The network after the last line.
    Network,
    /// The network after the last line, and which way of each node is the nearest.
    Ways,
    /// Each turn of the last round, and then the network after it.
    Turns,
}

/// Writes one graph of the state that the lines of the input leave. It reads the whole input, answers its lines in a
/// session, and flushes once. It reads at most one byte more than the limit of 16,777,216 bytes. If it fails with any
/// fault but `Write`, it has written nothing. Comments have no answer.
pub fn draw<R: Read, W: Write>(
    alloc: Global,
    reader: &mut R,
    writer: &mut W,
    picture: Picture,
    direction: Direction,
) -> Result<(), RunFault>
    // A comment, a line whose first byte apart from tabs, carriage returns and spaces is `#`, has no answer and
    // changes nothing. The graph names its direction as Graphviz does, and with `--ways` it shows the first way of
    // each node. Without a network there is no graph. With `--turns`, the output begins with one graph for each turn
    // of the last round, up to 1,000 turns, and the text below the last graph says how many turns have none.
    ensures ok { OnOk result (WritesText (IsDrawing picture direction) (R.remaining reader.old) (R.remaining reader.new)
        (W.contents writer.old) (W.contents writer.new)) }
    ensures limit { ReadsAtMostOneTooMany (R.remaining reader.old) (R.remaining reader.new) }
    // `TooLong` only if the input has a byte too many. After `Write`, a prefix of the output was written. After any
    // other fault, nothing was written.
    ensures fault { IfErr result (IsTextFault (IsDrawing picture direction) (R.remaining reader.old)
        (R.remaining reader.new) (W.contents writer.old) (W.contents writer.new)) }
{
    let input = read_input(alloc, reader)?;
    let text = picture_of_input(alloc, &input, picture, direction)?;
    write_out(writer, text.as_bytes())
}

/// The picture of the network that an input leaves.
fn picture_of_input(
    alloc: Global,
    input: &[u8],
    picture: Picture,
    direction: Direction,
) -> Result<String, AllocError>
    ensures { IfOk result (λ text. IsDrawing picture direction input.now (string_bytes text)) }
{
    let session = session_after(alloc, input)?;
    picture_of(alloc, &session, picture, direction)
}

/// The picture of a session's network.
fn picture_of(
    alloc: Global,
    session: &Session,
    picture: Picture,
    direction: Direction,
) -> Result<String, AllocError>
    ensures { IfOk result (λ text. IsPictureOf picture direction session.now (string_bytes text)) }
{
    let mut text = String::new(alloc);
    let Some(router) = session.router() else {
        return Ok(text);
    };
    match picture {
        Picture::Network => push_settled(&mut text, alloc, router, direction, Label::Plain)?,
        Picture::Ways => push_settled_ways(&mut text, alloc, router, direction)?,
        Picture::Turns => push_strip(&mut text, alloc, router, direction)?,
    }
    Ok(text)
}
