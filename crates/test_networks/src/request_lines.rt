//! Lines and their requests.

use crate::answers::Answer;
use crate::cases::{count, items, length, word};
use fr_net::{LineFault, LineReader, Request, read_line};
use serde_json::Value;

/// Answers a question about lines. Returns whether it is such a question.
pub fn answer(answer: &mut Answer, asked: &str, given: &[Value]) -> bool {
    match (asked, given) {
        ("line", [line]) => {
            let line = word(answer, line).as_bytes();
            tell(answer, line);
        }
        ("bytes", [given]) => {
            let line = bytes(answer, given);
            tell(answer, &line);
        }
        ("fronts", [line]) => {
            let line = word(answer, line).as_bytes();
            tell_fronts(answer, line);
        }
        ("nested", [opening, closing, depth]) => {
            let line = nested(answer, opening, closing, depth);
            tell(answer, line.text().as_bytes());
        }
        _ => return false,
    }
    true
}

fn bytes(answer: &mut Answer, given: &Value) -> Vec<u8> {
    let mut bytes = Vec::new(answer.alloc);
    for item in items(answer, given) {
        let byte = byte(answer, item);
        answer.note(bytes.push(byte).is_ok());
    }
    bytes
}

fn byte(answer: &mut Answer, value: &Value) -> u8 {
    let byte = count(answer, value);
    if byte < 256 {
        return byte as u8;
    }
    answer.note_no_case();
    0
}

/// Writes the request of a line.
fn tell(answer: &mut Answer, line: &[u8]) {
    let read = read_line(answer.alloc, line);
    put_read(answer, read);
}

/// Writes the request of each beginning of a line, from one byte to all but one. One reader reads them all.
fn tell_fronts(answer: &mut Answer, line: &[u8]) {
    let mut reader = LineReader::default();
    for end in 1..line.len() {
        let read = reader.read(answer.alloc, &line[..end]);
        put_read(answer, read);
    }
}

/// Writes what was read.
fn put_read(answer: &mut Answer, read: Result<Request, LineFault>) {
    answer.comma();
    match read {
        Ok(request) => answer.put(&request),
        Err(fault) => answer.put(&fault),
    }
}

/// A line with so many opening brackets, a 0, and as many closing brackets.
fn nested(answer: &mut Answer, opening: &Value, closing: &Value, depth: &Value) -> Answer {
    let depth = length(answer, depth);
    let mut line = Answer::new(answer.alloc);
    say_times(&mut line, word(answer, opening), depth);
    line.say("0");
    say_times(&mut line, word(answer, closing), depth);
    line
}

fn say_times(line: &mut Answer, piece: &str, times: usize) {
    for _ in 0..times {
        line.say(piece);
    }
}
