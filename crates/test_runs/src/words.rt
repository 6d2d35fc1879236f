//! The tasks of command lines, and the texts of faults.

use crate::cases::Case;
use crate::telling::{tell, tell_lines, tell_value};
use fr_command::{
    CommandLine, RunFault, Task, TaskFault, command_line, run_end, task_end, task_of,
};
use fr_route::{AnswerFault, RouteFault};
use serde_json::Value;
use std::alloc::Global;
use std::fmt::Display;

/// `["words", [word, ..]]`: the task that the words ask for with its flags, or the status, what they ask for, and the
/// text. `["words", [word, ..], begin, middle, end]`: the same, but whether the text begins with `begin`, contains
/// `middle` and ends with `end`.
pub fn tell_words<R: AllocGlobal + Print>(rt: &R, case: &Case<'_>) -> Option<()> {
    let words = texts_of(rt.alloc(), case.value(1)?.as_array()?);
    let line = command_line(rt.alloc(), &words);
    if !is_of(&line, &task_of(rt.alloc(), &words)) {
        tell(rt, "but task_of returns another task or fault");
    }
    match line {
        Ok(line) => tell_command_line(rt, &line),
        Err(fault) => tell_end(rt, &fault, case),
    }
    Some(())
}

/// Whether a task, or the fault in its place, is that of a command line.
fn is_of(line: &Result<CommandLine, TaskFault>, task: &Result<Task, TaskFault>) -> bool {
    match (line, task) {
        (Ok(line), Ok(task)) => line.task == *task,
        (Err(fault), Err(other)) => fault == other,
        _ => false,
    }
}

/// Prints a task, and the flags that were given.
fn tell_command_line<R: Print>(rt: &R, line: &CommandLine) {
    tell_value(rt, &line.task);
    if line.json {
        tell(rt, "json");
    }
    if line.ways {
        tell(rt, "ways");
    }
    if line.strict {
        tell(rt, "strict");
    }
}

/// The texts of a list.
fn texts_of(alloc: Global, list: &[Value]) -> Vec<&str> {
    let mut texts = Vec::new(alloc);
    for value in list {
        let _ = texts.push(value.as_str().unwrap_or("no text"));
    }
    texts
}

/// Prints how the program ends with a fault.
fn tell_end<R: Print>(rt: &R, fault: &TaskFault, case: &Case<'_>) {
    let (status, text) = task_end(fault);
    tell_value(rt, &status);
    match fault {
        TaskFault::Usage { asked: true, .. } => tell(rt, "help was asked for"),
        TaskFault::Version { .. } => tell(rt, "the version was asked for"),
        _ => {}
    }
    let text = text.trim_end();
    match (case.text(2), case.text(3), case.text(4)) {
        (Some(begin), Some(middle), Some(end)) => {
            tell_part(rt, "begins", begin, text.starts_with(begin));
            tell_part(rt, "holds", middle, text.contains(middle));
            tell_part(rt, "ends", end, text.ends_with(end));
        }
        _ => tell_lines(rt, text.as_bytes()),
    }
}

/// Prints whether a part is in the expected place of the text, if a part is expected.
fn tell_part<R: Print>(rt: &R, what: &str, part: &str, stands: bool) {
    if !part.is_empty() {
        tell_pair(rt, if stands { what } else { "lacks" }, part);
    }
}

fn tell_pair<R: Print>(rt: &R, what: &str, part: &str) {
    let _ = println!(rt; "  {what}: {part}");
}

/// `["faults"]`: how runs end, and then the faults of routers, of sessions and of command lines.
pub fn tell_faults<R: Print>(rt: &R) -> Option<()> {
    tell_value(rt, &run_end(&RunFault::Read));
    tell_value(rt, &run_end(&RunFault::Write));
    tell_value(rt, &run_end(&RunFault::TooLong));
    tell_value(rt, &run_end(&RunFault::Start));
    tell_value(rt, &run_end(&RunFault::Memory));
    tell_shown(rt, &RouteFault::Range);
    tell_shown(rt, &RouteFault::Start);
    tell_shown(rt, &RouteFault::Memory);
    tell_shown(rt, &AnswerFault::Start);
    tell_shown(rt, &AnswerFault::Memory);
    tell_value(rt, &task_end(&TaskFault::Memory));
    Some(())
}

fn tell_shown<R: Print, T: Display>(rt: &R, value: &T) {
    let _ = println!(rt; "  {value}");
}
