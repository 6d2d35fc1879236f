//! The lines of an input.

ghost use Rattle.std.specs.Prelude.{◌≡◌, ◌+◌, ◌==◌, ◌<◌, ◌∷◌, [], ℕ, List, length, position, IfSome};
ghost use Rattle.std.specs.List.{position_or_len};
ghost use Rattle.std.specs.Option.{option_copied, option_map_or};
ghost use Rattle.std.specs.Iterator.{YieldsFirstRef, item_count};
ghost use Rattle.fr_bytes.specs.Lines.{lines_of, lines_left};

/// Iterates over the lines of an input. The bytes after the last newline (byte 10) are a line too, even if there are
/// none. Iterating over all lines takes linear time.
#[derive(Drop)]
pub struct Lines<'a> {
    rest: Option<&'a [u8]>,
}

impl<'a> Lines<'a> {
    /// The lines of this input. O(1).
    pub fn new(input: &'a [u8]) -> Lines<'a>
        ensures { lines_left result ≡ lines_of input.now }
    {
        Lines { rest: Some(input) }
    }
}

impl<'a> Iterator for Lines<'a> {
    type Item = &'a [u8];

    ghost next_gives = { YieldsFirstRef lines_left };

    ghost remaining = { item_count lines_left };

    fn next(&mut self) -> Option<&'a [u8]> {
        let (line, rest) = first_line(self.rest?);
        self.rest = rest;
        Some(line)
    }
}

/// Splits a text after its first line: returns the line, and the text after its newline if it has one. O(b) for a line
/// of b bytes.
pub fn first_line(text: &[u8]) -> (&[u8], Option<&[u8]>)
    ensures first { lines_of text.now ≡ result.0.now ∷ option_map_or lines_of (option_copied result.1) [] }
    ensures shorter { IfSome result.1 (λ rest. length rest.now < length text.now) }
{
    match line_end(text) {
        Some(end) => (&text[..end], Some(&text[end + 1..])),
        None => (text, None),
    }
}

/// Where the first line of a text ends, if it has a newline.
fn line_end(text: &[u8]) -> Option<usize>
    ensures { result ≡ position (λ x. x == 10) text.now }
{
    text.iter().position(|byte| *byte == b'\n')
}

/// How many bytes of a text are before its first newline: all of them if there is none. O(b) for b of these bytes.
pub fn front_size(text: &[u8]) -> usize
    ensures { result ≡ position_or_len (λ x. x == 10) text.now }
{
    line_end(text).unwrap_or(text.len())
}
