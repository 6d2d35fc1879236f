//! Finding the cases among the lines of the file, and reading their words.

use crate::answers::tell_answer;
use crate::inputs::unescaped;
use crate::routers::tell_router;
use crate::sessions::tell_session;
use crate::telling::{echo, put_word, tell};
use serde_json::Value;
use std::alloc::Global;
use std::sync::Wait;
use std::thread::Threads;

/// A case: its question, its lines, and the line that ended them.
#[derive(Clone, Copy)]
pub struct Case<'a> {
    asked: &'a Value,
    /// The lines, unchanged.
    pub lines: &'a str,
    /// The line after them.
    end: &'a str,
}

impl<'a> Case<'a> {
    /// The item of the case at a place: the word of the question, or one of its arguments.
    pub fn value(&self, place: usize) -> Option<&'a Value> {
        self.asked.get(place)
    }

    /// The text at a place.
    pub fn text(&self, place: usize) -> Option<&'a str> {
        self.asked.get(place)?.as_str()
    }

    /// The number at a place.
    pub fn number(&self, place: usize) -> Option<u64> {
        self.asked.get(place)?.as_u64()
    }

    /// The number at a place, if it is below 2^32.
    pub fn small(&self, place: usize) -> Option<u32> {
        u32::try_from(self.number(place)?).ok()
    }

    /// The input of the lines.
    pub fn input(&self, alloc: Global) -> String {
        let mut input = String::new(alloc);
        for line in self.lines.lines() {
            put_word(&mut input, &unescaped(alloc, line));
            put_word(&mut input, "\n");
        }
        if self.end.ends_with("without newline") {
            input.pop();
        }
        input
    }
}

/// A case whose lines are still being read, if there is one: its first line without the colon, and the lines so far.
#[derive(Drop)]
struct Begun {
    first: String,
    lines: String,
}

/// Prints the answer to each case of the file.
pub fn tell_all<R: Threads + Wait + Sync + AllocGlobal + Print>(rt: &R, file: &[u8]) {
    let mut begun = Begun {
        first: String::new(rt.alloc()),
        lines: String::new(rt.alloc()),
    };
    if let Ok(text) = str::from_utf8(file) {
        for line in text.lines() {
            take(rt, &mut begun, line);
        }
    }
}

/// Takes one line of the file.
fn take<R: Threads + Wait + Sync + AllocGlobal + Print>(rt: &R, begun: &mut Begun, line: &str) {
    if !begun.first.is_empty() {
        if line.starts_with("end") {
            tell_case(rt, &begun.first, &begun.lines, line);
            begun.first.clear();
            begun.lines.clear();
        } else {
            put_word(&mut begun.lines, line);
            put_word(&mut begun.lines, "\n");
        }
        return;
    }
    echo(rt, line);
    if line.is_empty() || line.starts_with('#') {
        return;
    }
    match line.strip_suffix(':') {
        Some(first) => put_word(&mut begun.first, first),
        None => tell_case(rt, line, "", ""),
    }
}

/// Prints the answer to a case whose first line is already printed.
fn tell_case<R: Threads + Wait + Sync + AllocGlobal + Print>(
    rt: &R,
    first: &str,
    lines: &str,
    end: &str,
) {
    let told = match Value::from_str(rt.alloc(), first) {
        Ok(asked) => tell_asked(
            rt,
            &Case {
                asked: &asked,
                lines,
                end,
            },
        ),
        Err(_) => None,
    };
    if told.is_none() {
        tell(rt, "no such case");
    }
}

/// Prints the answer to a case with its lines; for some cases line by line, for others after all of them. `None` if
/// there is no such case.
fn tell_asked<R: Threads + Wait + Sync + AllocGlobal + Print>(
    rt: &R,
    case: &Case<'_>,
) -> Option<()> {
    match case.text(0)? {
        "session" => {
            tell_session(rt, case.lines);
            echo(rt, case.end);
            Some(())
        }
        "router" => {
            tell_router(rt, case.lines);
            echo(rt, case.end);
            Some(())
        }
        word => {
            echo_lines(rt, case);
            tell_answer(rt, word, case)
        }
    }
}

/// Prints the lines of a case, if it has any, and the line that ends them.
fn echo_lines<R: Print>(rt: &R, case: &Case<'_>) {
    for line in case.lines.lines() {
        echo(rt, line);
    }
    if !case.end.is_empty() {
        echo(rt, case.end);
    }
}
