//! The lines of one session. If a line fails for want of memory or a thread, the session must answer as before, and the
//! line must be answered when it is asked again.

use crate::telling::value_or_report;
use fr_crew::{Crew, OpenGate, Plan};
use fr_net::{Question, Request};
use fr_route::{AnswerFault, AnswerSpace, Form, Line, Session};
use std::alloc::Global;
use std::sync::Wait;
use std::thread::Threads;

/// A line before there is a network is refused. A settled chain is parted, and closed again from its other end. A batch
/// moves a link, and then the destination moves. Then two nodes are joined by a link that cannot point from the first to
/// the second, so one node has two ways. The last lines are refused.
const LINES: [&str; 34] = [
    r#"["links"]"#,
    r#"["net",4,0,[[1,0],[2,1],[3,2]]]"#,
    r#"["links"]"#,
    r#"["cut",1,0]"#,
    r#"["links"]"#,
    r#"["walk",3]"#,
    r#"["nearest",3]"#,
    r#"["add",3,0]"#,
    r#"["counts"]"#,
    r#"["links"]"#,
    r#"["walk",1]"#,
    r#"["add",0,1]"#,
    r#"["hops"]"#,
    r#"["pushes",[]]"#,
    r#"["phases",[[]]]"#,
    r#"["batch",[["cut",3,0],["add",1,0]]]"#,
    r#"["dest",3]"#,
    r#"["join",3,1]"#,
    r#"["links"]"#,
    r#"["ways"]"#,
    r#"["ways",1]"#,
    r#"["nearest",0]"#,
    r#"["walk",99]"#,
    r#"["nearest",4]"#,
    r#"["ways",4]"#,
    r#"["dest",4]"#,
    r#"["cut",0,2]"#,
    r#"["walk",3"#,
    r#"["walk"]"#,
    r#"["pushes",["here",0,0,0,0]]"#,
    r#"["phases",["here",[],[],[],[]]]"#,
    r#"["pushes",[4]]"#,
    r#"["net",2,0,[[1,0],[0,1]]]"#,
    r#"["batch",[["cut",0,1],["add",2,2]]]"#,
];

/// Writes the answers to the lines, as text, then as JSON, and then as JSON with ways.
pub fn tell_session<R: Threads + Wait + Sync + Alloc<A = Global> + Print + Eprint>(rt: &R) {
    let Some(plan) = Plan::new(3, 0, 1000) else {
        return;
    };
    tell_lines(rt, Form::Text, &plan);
    tell_lines(rt, Form::Json, &plan);
    tell_lines(rt, Form::JsonWithWays, &plan);
}

/// Writes the answers of a new session to the lines.
fn tell_lines<R: Threads + Wait + Sync + Alloc<A = Global> + Print + Eprint>(
    rt: &R,
    form: Form,
    plan: &Plan,
) {
    let mut session = Session::new();
    for line in LINES {
        tell_line(rt, &mut session, form, line, plan);
    }
}

/// Writes the answer to a line. If memory or a thread was missing, the links must be unchanged.
fn tell_line<R: Threads + Wait + Sync + Alloc<A = Global> + Print + Eprint>(
    rt: &R,
    session: &mut Session,
    form: Form,
    line: &str,
    plan: &Plan,
) {
    let before = links(rt, session, plan);
    let mut answer = answered(rt, session, form, line, plan);
    if answer.is_none() {
        if links(rt, session, plan) != before {
            let _ = rt.println("the session has changed");
        }
        answer = answered(rt, session, form, line, plan);
    }
    let _ = match answer {
        Some(text) => rt.println(text),
        None => rt.println("no answer"),
    };
}

/// The answer to a line that is not blank. `None` if memory or a thread was missing, which is reported.
fn answered<R: Threads + Wait + Sync + Alloc<A = Global> + Eprint>(
    rt: &R,
    session: &mut Session,
    form: Form,
    line: &str,
    plan: &Plan,
) -> Option<String> {
    match form {
        Form::Text => value_or_report(
            rt,
            session.answer_line(rt, rt.alloc(), line.as_bytes(), plan, &OpenGate),
        )?,
        Form::Json | Form::JsonWithWays => value_or_report(
            rt,
            json_answer(rt, session, form, line, plan),
        )?,
    }
}

/// The answer in a form of JSON, as to the first line of an input.
fn json_answer<R: Threads + Wait + Sync + Alloc<A = Global>>(
    rt: &R,
    session: &mut Session,
    form: Form,
    line: &str,
    plan: &Plan,
) -> Result<Option<String>, AnswerFault> {
    let alloc = rt.alloc();
    let crew = Crew {
        rt,
        alloc,
        plan,
        gate: &OpenGate,
    };
    let line = Line {
        number: 1,
        bytes: line.as_bytes(),
    };
    let answer = session.answer_line_in(&crew, form, line, &mut AnswerSpace::new(alloc))?;
    Ok(answer.map(|it| it.text))
}

/// The answer of the session to the question for its links, asked once more if it fails.
fn links<R: Threads + Wait + Sync + Alloc<A = Global> + Eprint>(
    rt: &R,
    session: &mut Session,
    plan: &Plan,
) -> Option<String> {
    match links_once(rt, session, plan) {
        Some(text) => Some(text),
        None => links_once(rt, session, plan),
    }
}

/// The same, asked once.
fn links_once<R: Threads + Wait + Sync + Alloc<A = Global> + Eprint>(
    rt: &R,
    session: &mut Session,
    plan: &Plan,
) -> Option<String> {
    value_or_report(rt, asked_for_links(rt, session, plan))
}

/// The session's answer to the question for its links.
fn asked_for_links<R: Threads + Wait + Sync + Alloc<A = Global>>(
    rt: &R,
    session: &mut Session,
    plan: &Plan,
) -> Result<String, AnswerFault> {
    let request = Request::Ask(Question::Links);
    session.answer(rt, rt.alloc(), &request, plan, &OpenGate)
}
