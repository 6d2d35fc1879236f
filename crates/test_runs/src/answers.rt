//! The words of the cases, and their questions.

use crate::cases::Case;
use crate::gates::tell_held;
use crate::inputs::{MadeReader, by_turns, long_chain};
use crate::outcomes::{tell_first, tell_outcome};
use crate::runs::{FEW_PLANS, PLANS, run_alone, run_of, tell_in, tell_plans};
use crate::streams::{tell_narrow_writes, tell_slow_reads};
use crate::tasks::{draw_at, outcome_of, task_at};
use crate::telling::tell;
use crate::words::{tell_faults, tell_words};
use crate::{changes, plays};
use fr_command::{Form, Task};
use serde_json::Value;
use std::sync::Wait;
use std::thread::Threads;

/// Prints the answer to a case. `None` if there is no such case.
pub fn tell_answer<R: Threads + Wait + Sync + AllocGlobal + Print>(
    rt: &R,
    word: &str,
    case: &Case<'_>,
) -> Option<()> {
    match word {
        "run" => tell_run(rt, &case.input(rt.alloc())),
        "form" => tell_form(rt, case),
        "made" => tell_made(rt, case),
        "beginnings" => tell_beginnings(rt, case),
        "gate" => tell_gate(rt, case),
        "batch" => tell_batch(rt, case),
        "chain" => tell_chain(rt, case),
        "play" => tell_play(rt, case),
        "drawn play" => tell_drawn_play(rt, case),
        "drawn changes" => tell_drawn_changes(rt, case),
        "reads fail" => tell_reads(rt, case),
        "writes fail" => tell_writes(rt, case),
        "words" => tell_words(rt, case),
        "faults" => tell_faults(rt),
        _ => None,
    }
}

/// `["run"]`: a run of the lines under each of the plans.
fn tell_run<R: Threads + Wait + Sync + AllocGlobal + Print>(rt: &R, input: &str) -> Option<()> {
    let outcome = run_of(rt, input);
    tell_outcome(rt, &outcome);
    tell_plans(rt, input, PLANS, &outcome);
    Some(())
}

/// `["form", form]`: a run of the lines in this form, `text`, `json` or `json ways`, and how many lines were answered
/// and refused. Then whether a service writes the same.
fn tell_form<R: Threads + Wait + Sync + AllocGlobal + Print>(
    rt: &R,
    case: &Case<'_>,
) -> Option<()> {
    let form = match case.text(1)? {
        "text" => Form::Text,
        "json" => Form::Json,
        "json ways" => Form::JsonWithWays,
        _ => return None,
    };
    tell_in(rt, form, &case.input(rt.alloc()));
    Some(())
}

/// `["made", [byte, count], [byte, count]]`: a run of an input of so many copies of one byte, and then of another one.
fn tell_made<R: Threads + Wait + Sync + AllocGlobal + Print>(
    rt: &R,
    case: &Case<'_>,
) -> Option<()> {
    let mut reader = MadeReader {
        first: bytes_in(case.value(1)?)?,
        second: bytes_in(case.value(2)?)?,
    };
    tell_outcome(rt, &run_alone(rt, &mut reader));
    Some(())
}

/// A byte, and how often it comes.
fn bytes_in(value: &Value) -> Option<(u8, usize)> {
    let byte = u8::try_from(value.get(0)?.as_u64()?).ok()?;
    let count = usize::try_from(value.get(1)?.as_u64()?).ok()?;
    Some((byte, count))
}

/// `["beginnings", request]`: whether each beginning of a request, without its last byte, is refused as no JSON.
fn tell_beginnings<R: Threads + Wait + Sync + AllocGlobal + Print>(
    rt: &R,
    case: &Case<'_>,
) -> Option<()> {
    let line = case.value(1)?.to_string(rt.alloc()).ok()?;
    let bytes = line.as_bytes();
    for end in 1..bytes.len() {
        let outcome = run_alone(rt, &mut &bytes[..end]);
        if outcome.out.as_slice() != b"refused 1\n".as_slice() {
            tell_outcome(rt, &outcome);
            return Some(());
        }
    }
    tell(rt, "each is refused as no JSON");
    Some(())
}

/// `["gate", held, until]`: a run of the lines under a gate that holds a worker until another is answered.
fn tell_gate<R: Threads + Wait + Sync + AllocGlobal + Print>(
    rt: &R,
    case: &Case<'_>,
) -> Option<()> {
    let (held, until) = (case.small(1)?, case.small(2)?);
    tell_held(rt, &case.input(rt.alloc()), held, until);
    Some(())
}

/// `["batch", count]`: a run of a batch of so many edits.
fn tell_batch<R: Threads + Wait + Sync + AllocGlobal + Print>(
    rt: &R,
    case: &Case<'_>,
) -> Option<()> {
    let input = by_turns(rt.alloc(), case.small(1)?);
    tell_outcome(rt, &run_of(rt, &input));
    Some(())
}

/// `["chain", nodes, first]`: the first line of a run of a chain from a node on, and whether runs under other plans
/// write the same.
fn tell_chain<R: Threads + Wait + Sync + AllocGlobal + Print>(
    rt: &R,
    case: &Case<'_>,
) -> Option<()> {
    let (nodes, first) = (case.small(1)?, case.small(2)?);
    let input = long_chain(rt.alloc(), nodes, first);
    let outcome = run_of(rt, &input);
    tell_first(rt, &outcome);
    tell_plans(rt, &input, FEW_PLANS, &outcome);
    Some(())
}

/// `["play", workers, seed, steps]`: a play on the network of the lines.
fn tell_play<R: Threads + Wait + Sync + AllocGlobal + Print>(
    rt: &R,
    case: &Case<'_>,
) -> Option<()> {
    let task = task_at(case, 0)?;
    let input = case.input(rt.alloc());
    tell_outcome(rt, &outcome_of(rt, task, &mut input.as_bytes()));
    Some(())
}

/// `["drawn play", workers, seed, steps]`: whether a play is that of the schedule that is drawn.
fn tell_drawn_play<R: Threads + Wait + Sync + AllocGlobal + Print>(
    rt: &R,
    case: &Case<'_>,
) -> Option<()> {
    let (draw, seed) = (draw_at(case, 0)?, case.number(2)?);
    plays::tell_drawn(rt, draw, seed, &case.input(rt.alloc()))
}

/// `["drawn changes", seed, steps]`: whether drawn changes of a router have the results that they must have.
fn tell_drawn_changes<R: Threads + Wait + Sync + AllocGlobal + Print>(
    rt: &R,
    case: &Case<'_>,
) -> Option<()> {
    let (seed, steps) = (case.number(1)?, case.small(2)?);
    changes::tell_drawn(rt, seed, steps, &case.input(rt.alloc()))
}

/// `["reads fail", most, task..]`: a task on the lines, with readers of which only so many reads succeed.
fn tell_reads<R: Threads + Wait + Sync + AllocGlobal + Print>(
    rt: &R,
    case: &Case<'_>,
) -> Option<()> {
    let (most, task) = (case.small(1)?, task_at(case, 2)?);
    tell_slow_reads(rt, task, &case.input(rt.alloc()), most);
    Some(())
}

/// `["writes fail", most, enough, task..]`: the same with writers.
fn tell_writes<R: Threads + Wait + Sync + AllocGlobal + Print>(
    rt: &R,
    case: &Case<'_>,
) -> Option<()> {
    let (most, enough, task) = (case.small(1)?, case.small(2)?, task_at(case, 3)?);
    tell_narrow_writes(rt, task, &case.input(rt.alloc()), most, enough);
    Some(())
}
