//! The words of the cases, and their questions.

use crate::answers::Answer;
use crate::fault::Fault;
use crate::values::{items, named, word};
use crate::{counts, crews, gates, live_walks, logs, rounds, stealing, threads};
use serde_json::Value;
use std::alloc::Global;
use std::sync::Wait;
use std::thread::Threads;

/// What a case can ask for. The last sixteen are about threads and gates, which are not data.
#[derive(Clone, Copy)]
enum Asked {
    Open,
    Calls,
    Refused,
    OneWorker,
    Walk,
    Plan,
    SamePlans,
    Settle,
    Telling,
    End,
    LongChain,
    Counts,
    CountsAlone,
    CallsOfOne,
    TwoThreadsTurn,
    WalksBesideTwoThreads,
    Told,
    Held,
    ChainHeld,
    InTurn,
    OddHeld,
    Slow,
    TriedAgain,
    Together,
    Shared,
    LooksAgain,
    EachTurns,
    Logs,
    Plans,
}

/// The words that ask.
const WORDS: [(&str, Asked); 29] = [
    ("open", Asked::Open),
    ("calls", Asked::Calls),
    ("refused", Asked::Refused),
    ("one worker", Asked::OneWorker),
    ("walk", Asked::Walk),
    ("plan", Asked::Plan),
    ("same plans", Asked::SamePlans),
    ("settle", Asked::Settle),
    ("telling", Asked::Telling),
    ("end", Asked::End),
    ("long chain", Asked::LongChain),
    ("counts", Asked::Counts),
    ("counts alone", Asked::CountsAlone),
    ("calls of one", Asked::CallsOfOne),
    ("two threads turn", Asked::TwoThreadsTurn),
    ("walks beside two threads", Asked::WalksBesideTwoThreads),
    ("told", Asked::Told),
    ("held", Asked::Held),
    ("chain held", Asked::ChainHeld),
    ("in turn", Asked::InTurn),
    ("odd held", Asked::OddHeld),
    ("slow", Asked::Slow),
    ("tried again", Asked::TriedAgain),
    ("together", Asked::Together),
    ("shared", Asked::Shared),
    ("looks again", Asked::LooksAgain),
    ("each turns", Asked::EachTurns),
    ("logs", Asked::Logs),
    ("plans", Asked::Plans),
];

/// Appends the answer to the case of a line.
pub fn answer<R: Threads + Wait + Sync + Alloc<A = Global>>(
    rt: &R,
    text: &mut Answer,
    line: &str,
) -> Result<(), Fault> {
    match Value::from_str(rt.alloc(), line) {
        Ok(case) => put_answer(rt, text, &case),
        Err(_) => Err(Fault::NoCase),
    }
}

/// Appends the answer to a case.
fn put_answer<R: Threads + Wait + Sync + Alloc<A = Global>>(
    rt: &R,
    text: &mut Answer,
    case: &Value,
) -> Result<(), Fault> {
    let [first, case @ ..] = items(case)? else {
        return Err(Fault::NoCase);
    };
    match named(word(first)?, &WORDS)? {
        Asked::Open => rounds::open(rt.alloc(), text, case),
        Asked::Calls => rounds::calls(rt.alloc(), text, case),
        Asked::Refused => rounds::refused(rt.alloc(), text, case),
        Asked::OneWorker => rounds::one_worker(rt.alloc(), text, case),
        Asked::Walk => live_walks::walk(rt.alloc(), text, case),
        Asked::Plan => crews::plan_of(text, case),
        Asked::SamePlans => crews::same_plans(text, case),
        Asked::Settle => crews::settle_all(rt, text, case),
        Asked::Telling => crews::settle_and_tell(rt, text, case),
        Asked::End => crews::settle_to_end(rt, text, case),
        Asked::LongChain => crews::settle_chain(rt, text, case),
        Asked::Counts => counts::counts(rt, text, case),
        Asked::CountsAlone => counts::counts_alone(rt.alloc(), text, case),
        Asked::CallsOfOne => counts::calls_of_one(rt, text, case),
        Asked::TwoThreadsTurn => threads::two_turn(rt, text),
        Asked::WalksBesideTwoThreads => threads::walk_beside_two(rt, text),
        Asked::Told => gates::gate_in_order(rt, text, case),
        Asked::Held => gates::one_held(rt, text, case),
        Asked::ChainHeld => gates::chain_held(rt, text, case),
        Asked::InTurn => gates::in_turn(rt, text, case),
        Asked::OddHeld => gates::odd_held(rt, text),
        Asked::Slow => gates::slow(rt, text),
        Asked::TriedAgain => gates::tried_again(rt, text),
        Asked::Together => stealing::together(rt, text, case),
        Asked::Shared => stealing::shared(rt, text),
        Asked::LooksAgain => stealing::looks_again(rt, text),
        Asked::EachTurns => stealing::each_turns(rt, text, case),
        Asked::Logs => logs::logs(rt, text, case),
        Asked::Plans => logs::plans_followed(rt, text, case),
    }
}
