//! The answer to a case, as text.

use std::alloc::Global;
use std::fmt::{Debug, Display, Write};

/// A text that grows piece by piece. If an allocation is refused, or the input is not a case, the whole text says so.
/// Callers need not handle it.
#[derive(Drop)]
pub struct Answer {
    /// The allocator for a case.
    pub alloc: Global,
    text: String,
    is_whole: bool,
    is_of_case: bool,
}

impl Answer {
    /// An empty text.
    pub fn new(alloc: Global) -> Answer {
        Answer {
            alloc,
            text: String::new(alloc),
            is_whole: true,
            is_of_case: true,
        }
    }

    /// The text.
    pub fn text(&self) -> &str {
        if !self.is_of_case {
            "no such case"
        } else if !self.is_whole {
            "no memory"
        } else {
            self.text.as_str()
        }
    }

    /// Notes that the input is not a case.
    pub fn note_no_case(&mut self) {
        self.is_of_case = false;
    }

    /// Notes whether an allocation was refused.
    pub fn note(&mut self, had_memory: bool) {
        if !had_memory {
            self.is_whole = false;
        }
    }

    /// Appends words.
    pub fn say(&mut self, words: &str) {
        if self.text.push_str(words).is_err() {
            self.is_whole = false;
        }
    }

    /// Appends a value, as `Debug` writes it.
    pub fn put<T: Debug>(&mut self, value: &T) {
        if write!(self.text, "{value:?}").is_err() {
            self.is_whole = false;
        }
    }

    /// Appends a value, as `Display` writes it.
    pub fn show<T: Display>(&mut self, value: &T) {
        if write!(self.text, "{value}").is_err() {
            self.is_whole = false;
        }
    }

    /// Appends a comma before the next item.
    pub fn comma(&mut self) {
        if !self.text.is_empty() {
            self.say(", ");
        }
    }
}
