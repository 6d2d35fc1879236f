//! Printing, and texts that are made piece by piece. If an allocation is refused, a text is too short, and the
//! comparison then fails.

use std::fmt::{Debug, Write};

/// Prints a line of the cases.
pub fn echo<R: Print>(rt: &R, line: &str) {
    let _ = rt.println(line);
}

/// Prints a line of the answer to a case.
pub fn tell<R: Print>(rt: &R, line: &str) {
    let _ = println!(rt; "  {line}");
}

/// Prints a value as one line of the answer to a case.
pub fn tell_value<R: Print, T: Debug>(rt: &R, value: &T) {
    let _ = println!(rt; "  {value:?}");
}

/// Prints each line of a text.
pub fn tell_lines<R: Print>(rt: &R, text: &[u8]) {
    match str::from_utf8(text) {
        Ok(text) => {
            for line in text.lines() {
                tell(rt, line);
            }
        }
        Err(_) => tell(rt, "no text"),
    }
}

/// Appends a value, after a blank unless it is the first one.
pub fn put<T: Debug>(text: &mut String, value: &T) {
    put_word(text, if text.is_empty() { "" } else { " " });
    let _ = write!(text, "{value:?}");
}

/// Appends a word.
pub fn put_word(text: &mut String, word: &str) {
    let _ = text.push_str(word);
}
