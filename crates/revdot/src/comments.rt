//! Comments of an input, which ask for nothing.

ghost use Rattle.std.specs.Prelude.{◌≡◌, ◌++◌, ◌<◌, ◌∷◌, [], OnOk, string_bytes};
ghost use Rattle.std.specs.List.{flat_map};
ghost use Rattle.revdot.specs.Comments.{comment_text, encoded_byte, hex_digit as hex_digit_of};
ghost use Rattle.revdot.specs.Comments.{is_comment as is_comment_of, is_for_viewer as is_for_viewer_of};
ghost use Rattle.revdot.specs.Comments.{is_kept as is_kept_of};

use std::alloc::AllocError;

/// Whether a line is a comment: its first byte that is not a tab, a carriage return or a space is `#`.
pub fn is_comment(line: &[u8]) -> bool
    ensures { result ≡ is_comment_of line.now }
{
    for byte in line {
        let is_space = *byte == b'\t' || *byte == b'\r' || *byte == b' ';
        if !is_space {
            return *byte == b'#';
        }
    }
    false
}

/// Appends what a page has of a comment: a line, percent-encoded, if it is for the viewer, and nothing if it is not.
pub fn push_comment(story: &mut String, line: &[u8]) -> Result<(), AllocError>
    ensures { OnOk result (string_bytes story.new ≡ string_bytes story.old ++ comment_text line.now) }
{
    if !is_for_viewer(line) {
        return Ok(());
    }
    push_encoded(story, line)?;
    story.push_str("\n")
}

/// Whether a comment says where nodes are or what they are called.
fn is_for_viewer(line: &[u8]) -> bool
    ensures { result ≡ is_for_viewer_of line.now }
{
    line.starts_with(b"# places ") || line.starts_with(b"# names ")
}

/// Appends a line, percent-encoded.
fn push_encoded(story: &mut String, line: &[u8]) -> Result<(), AllocError>
    ensures { OnOk result (string_bytes story.new ≡ string_bytes story.old ++ flat_map encoded_byte line.now) }
{
    for byte in line {
        push_byte(story, *byte)?;
    }
    Ok(())
}

/// Appends a byte as it is, or percent-encoded.
fn push_byte(story: &mut String, byte: u8) -> Result<(), AllocError>
    ensures { OnOk result (string_bytes story.new ≡ string_bytes story.old ++ encoded_byte byte) }
{
    if is_kept(byte) {
        return push_ascii(story, byte);
    }
    push_ascii(story, b'%')?;
    push_ascii(story, hex_digit(byte / 16))?;
    push_ascii(story, hex_digit(byte % 16))
}

/// Whether a byte is written as it is.
fn is_kept(byte: u8) -> bool
    ensures { result ≡ is_kept_of byte }
{
    b' ' <= byte && byte <= b'~' && byte != b'%' && byte != b'<'
}

/// The digit of base 16 with this value.
fn hex_digit(value: u8) -> u8
    requires { value < 16 }
    ensures digit { result ≡ hex_digit_of value }
    ensures ascii { result < 128 }
{
    if value < 10 {
        b'0' + value
    } else {
        b'A' + (value - 10)
    }
}

/// Appends a character of ASCII.
fn push_ascii(story: &mut String, character: u8) -> Result<(), AllocError>
    requires { character < 128 }
    ensures { OnOk result (string_bytes story.new ≡ string_bytes story.old ++ character ∷ []) }
{
    story.push(char::from(character))
}
