//! Blank lines, which ask for nothing.

ghost use Rattle.std.specs.Prelude.{◌≡◌};
ghost use Rattle.fr_route.specs.Blank.{is_blank as is_blank_line};

/// Whether a line contains only tabs, carriage returns and spaces. O(b) for b bytes.
pub fn is_blank(line: &[u8]) -> bool
    ensures { result ≡ is_blank_line line.now }
{
    // A loop, because a closure takes far longer to prove.
    for byte in line {
        let is_space = *byte == b'\t' || *byte == b'\r' || *byte == b' ';
        if !is_space {
            return false;
        }
    }
    true
}
