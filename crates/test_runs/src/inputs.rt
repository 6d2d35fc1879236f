//! Inputs that are made: from a line of the cases, from repeated bytes, a batch or a chain of so many links.

use crate::telling::put_word;
use serde_json::Value;
use std::alloc::Global;
use std::fmt::Write as FmtWrite;
use std::io;
use std::io::Read;

/// The line of an input for a line of a case: the text of a JSON string, or else the line itself.
pub fn unescaped(alloc: Global, line: &str) -> String {
    let mut text = String::new(alloc);
    if line.starts_with('"') {
        if let Ok(value) = Value::from_str(alloc, line) {
            put_word(&mut text, value.as_str().unwrap_or("no text"));
        }
    } else {
        put_word(&mut text, line);
    }
    text
}

/// Provides so many copies of one byte, and then of another one, as many at a time as there is room for.
#[derive(Drop)]
pub struct MadeReader {
    pub first: (u8, usize),
    pub second: (u8, usize),
}

impl Read for MadeReader {
    fn read(&mut self, buf: &mut [u8]) -> io::Result<usize> {
        if self.first.1 == 0 {
            self.first = self.second;
            self.second.1 = 0;
        }
        let (byte, left) = self.first;
        let count = left.min(buf.len());
        buf[..count].fill(byte);
        self.first.1 = left - count;
        Ok(count)
    }
}

/// A chain of four nodes and a batch of so many edits, which alternately cut the link from 1 to 0 and add it again.
pub fn by_turns(alloc: Global, count: u32) -> String {
    let mut input = String::new(alloc);
    put_word(
        &mut input,
        "[\"net\",4,0,[[1,0],[2,1],[3,2]]]\n[\"batch\",[",
    );
    for i in 0..count {
        put_word(&mut input, if i > 0 { "," } else { "" });
        put_word(
            &mut input,
            if i % 2 == 0 {
                "[\"cut\",1,0]"
            } else {
                "[\"add\",1,0]"
            },
        );
    }
    put_word(&mut input, "]]\n[\"links\"]\n");
    input
}

/// A network of so many nodes with destination 0 and a link from each node from `first` on to the next one, and the
/// questions.
pub fn long_chain(alloc: Global, nodes: u32, first: u32) -> String {
    let mut input = String::new(alloc);
    put_net(&mut input, nodes);
    for tail in first..nodes.saturating_sub(1) {
        put_word(&mut input, if tail > first { "," } else { "" });
        put_link(&mut input, tail, tail + 1);
    }
    put_word(&mut input, "]]\n[\"links\"]\n[\"counts\"]\n[\"hops\"]\n");
    input
}

/// Appends the beginning of the line of a network.
fn put_net(input: &mut String, nodes: u32) {
    let _ = write!(input, "[\"net\",{nodes},0,[");
}

/// Appends a link.
fn put_link(input: &mut String, tail: u32, head: u32) {
    let _ = write!(input, "[{tail},{head}]");
}
