//! Reporting faults.

ghost use Rattle.std.specs.Prelude.{◌≡◌, Ok, IfSome};

use std::alloc::Global;
use std::fmt::{Debug, Display, Write};

/// The result of a call. A fault, which must be missing memory or a missing thread, is reported.
pub fn value_or_report<T: Drop, E: Display + Drop, R: Eprint>(
    rt: &R,
    outcome: Result<T, E>,
) -> Option<T>
    ensures { IfSome result (λ value. outcome ≡ Ok value) }
{
    match outcome {
        Ok(value) => Some(value),
        Err(fault) => {
            tell(rt, fault);
            None
        }
    }
}

/// Writes to standard output what must not happen.
pub fn say<R: Print>(rt: &R, text: &str) {
    let _ = rt.println(text);
}

/// Reports a fault.
pub fn tell<E: Display + Drop, R: Eprint>(rt: &R, fault: E) {
    let _ = rt.eprintln(fault);
}

/// The results of calls, as text. The text is incomplete if memory or a thread was missing.
#[derive(Drop)]
pub struct Answer {
    text: String,
    is_whole: bool,
}

impl Answer {
    /// An empty text.
    pub fn new(alloc: Global) -> Answer {
        Answer {
            text: String::new(alloc),
            is_whole: true,
        }
    }

    /// The text, if it is complete.
    pub fn whole(&self) -> Option<&str> {
        if self.is_whole {
            Some(self.text.as_str())
        } else {
            None
        }
    }

    /// The result of a call. A fault is reported, and the answer is then incomplete.
    pub fn value_or_report<T: Drop, E: Display + Drop, R: Eprint>(
        &mut self,
        rt: &R,
        outcome: Result<T, E>,
    ) -> Option<T>
        ensures { IfSome result (λ value. outcome ≡ Ok value) }
    {
        let value = value_or_report(rt, outcome);
        if value.is_none() {
            self.is_whole = false;
        }
        value
    }

    /// Reports a fault, which makes the answer incomplete.
    pub fn lack<E: Display + Drop, R: Eprint>(&mut self, rt: &R, fault: E) {
        self.is_whole = false;
        tell(rt, fault);
    }

    /// Appends words and a blank.
    pub fn say(&mut self, words: &str) {
        let blank = if self.text.is_empty() { "" } else { " " };
        if self.text.push_str(blank).is_err() || self.text.push_str(words).is_err() {
            self.is_whole = false;
        }
    }

    /// Appends a link and a blank.
    pub fn put_link(&mut self, tail: u32, head: u32) {
        self.say("");
        if write!(self.text, "{tail}>{head}").is_err() {
            self.is_whole = false;
        }
    }

    /// Appends a value in its debug form and a blank.
    pub fn put<T: Debug>(&mut self, value: &T) {
        self.say("");
        if write!(self.text, "{value:?}").is_err() {
            self.is_whole = false;
        }
    }
}
