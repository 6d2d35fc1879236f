//! The answer to a case, as text.

use fr_net::Net;
use std::alloc::{AllocError, Global};
use std::fmt::{Debug, Write};

/// A text that grows piece by piece. If an allocation is refused, the whole text says so. Callers need not handle it.
#[derive(Drop)]
pub struct Answer {
    text: String,
    is_whole: bool,
}

impl Answer {
    /// An empty text.
    pub fn new(alloc: Global) -> Answer {
        Answer {
            text: String::new(alloc),
            is_whole: true,
        }
    }

    /// The text.
    pub fn text(&self) -> &str {
        if self.is_whole {
            self.text.as_str()
        } else {
            "no memory"
        }
    }

    /// Appends words.
    pub fn say(&mut self, words: &str) {
        if self.text.push_str(words).is_err() {
            self.is_whole = false;
        }
    }

    /// Appends a label and a value.
    pub fn put<T: Debug>(&mut self, label: &str, value: &T) {
        self.say(label);
        if write!(self.text, "{value:?}").is_err() {
            self.is_whole = false;
        }
    }

    /// Appends the links of a network.
    pub fn put_links(&mut self, alloc: Global, net: &Net) {
        let links: Result<Vec<(u32, u32)>, AllocError> = net.links().collect(alloc);
        match links {
            Ok(links) => self.put("links ", &links),
            Err(_) => self.is_whole = false,
        }
    }
}
