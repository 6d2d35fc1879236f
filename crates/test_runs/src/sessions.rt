//! A session that answers lines, and another one that answers the requests of these lines.

use crate::inputs::unescaped;
use crate::telling::{echo, tell, tell_value};
use fr_crew::{OpenGate, Plan};
use fr_net::{Request, read_line};
use fr_route::{AnswerFault, Session};
use std::sync::Wait;
use std::thread::Threads;

/// Prints each line with its answer.
pub fn tell_session<R: Threads + Wait + Sync + AllocGlobal + Print>(rt: &R, lines: &str) {
    let mut by_line = Session::new();
    let mut by_request = Session::new();
    for line in lines.lines() {
        echo(rt, line);
        tell_line(rt, &mut by_line, &mut by_request, line);
    }
}

/// Prints the answer to a line, and the answer to its request if that is another one.
fn tell_line<R: Threads + Wait + Sync + AllocGlobal + Print>(
    rt: &R,
    by_line: &mut Session,
    by_request: &mut Session,
    line: &str,
) {
    let Some(plan) = Plan::new(2, 0, 1_000) else {
        return;
    };
    let asked = unescaped(rt.alloc(), line);
    let answer = by_line.answer_line(rt, rt.alloc(), asked.as_bytes(), &plan, &OpenGate);
    tell_value(rt, &answer);
    let other = answer_request(rt, by_request, asked.as_bytes(), &plan);
    if other != answer {
        tell(rt, "and to its request:");
        tell_value(rt, &other);
    }
}

/// The answer to the request of a line, or `None` if the line is not a request.
fn answer_request<R: Threads + Wait + Sync + AllocGlobal>(
    rt: &R,
    session: &mut Session,
    line: &[u8],
    plan: &Plan,
) -> Result<Option<String>, AnswerFault> {
    match read_line(rt.alloc(), line) {
        Ok(request) => answer(rt, session, &request, plan),
        Err(_) => Ok(None),
    }
}

fn answer<R: Threads + Wait + Sync + AllocGlobal>(
    rt: &R,
    session: &mut Session,
    request: &Request,
    plan: &Plan,
) -> Result<Option<String>, AnswerFault> {
    match session.answer(rt, rt.alloc(), request, plan, &OpenGate) {
        Ok(text) => Ok(Some(text)),
        Err(fault) => Err(fault),
    }
}
