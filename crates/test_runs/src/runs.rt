//! The result of a run under one plan and under others. No answer depends on the plan.

use crate::outcomes::{Outcome, tell_outcome};
use crate::telling::{tell, tell_lines, tell_value};
use fr_command::{Form, Joined, run, run_in, serve_in};
use fr_crew::{Crew, Gate, OpenGate, Plan};
use std::io::Read;
use std::sync::Wait;
use std::thread::Threads;

/// Numbers of workers with budgets.
pub const PLANS: &[(u32, u64)] = &[
    (1, 0),
    (1, 2),
    (1, 1000),
    (1, 1_000_000_000),
    (3, 0),
    (3, 2),
    (3, 1000),
    (3, 1_000_000_000),
    (16, 0),
    (16, 2),
    (16, 1000),
    (16, 1_000_000_000),
];

/// The same for long inputs.
pub const FEW_PLANS: &[(u32, u64)] = &[(1, 0), (1, 20_000), (2, 20_000), (8, 20_000)];

/// The result of a run under a plan.
pub fn run_by<T: Threads + Wait + Sync + AllocGlobal, R: Read, G: Gate + Sync>(
    rt: &T,
    reader: &mut R,
    plan: &Plan,
    gate: &G,
) -> Outcome {
    let mut out = Vec::new(rt.alloc());
    let end = run(rt, rt.alloc(), reader, &mut out, plan, gate);
    Outcome { out, end }
}

/// The result of a run of a reader by one worker that makes no call, with the gate open.
pub fn run_alone<T: Threads + Wait + Sync + AllocGlobal, R: Read>(
    rt: &T,
    reader: &mut R,
) -> Outcome {
    let plan = Plan::new(1, 0, 0).unwrap();
    run_by(rt, reader, &plan, &OpenGate)
}

/// The same for an input as a text.
pub fn run_of<T: Threads + Wait + Sync + AllocGlobal>(rt: &T, input: &str) -> Outcome {
    run_alone(rt, &mut input.as_bytes())
}

/// Prints whether the run of an input has this result under each of the plans, or the first one under which it has
/// another result.
pub fn tell_plans<R: Threads + Wait + Sync + AllocGlobal + Print>(
    rt: &R,
    input: &str,
    plans: &[(u32, u64)],
    wanted: &Outcome,
) {
    for (workers, budget) in plans {
        if !comes_to(rt, input, *workers, *budget, wanted) {
            return;
        }
    }
    tell(rt, "by all plans");
}

/// Whether the run of an input by so many workers, each with so many calls, has this result. Any other result is
/// printed.
fn comes_to<R: Threads + Wait + Sync + AllocGlobal + Print>(
    rt: &R,
    input: &str,
    workers: u32,
    budget: u64,
    wanted: &Outcome,
) -> bool {
    let Some(plan) = Plan::new(workers, 0, budget) else {
        tell(rt, "no such plan");
        return false;
    };
    let outcome = run_by(rt, &mut input.as_bytes(), &plan, &OpenGate);
    let comes = outcome == *wanted;
    if !comes {
        let _ = println!(rt; "  by {workers} workers with {budget} calls:");
        tell_outcome(rt, &outcome);
    }
    comes
}

/// Prints the result of a run in a form, and whether a service has the same one.
pub fn tell_in<R: Threads + Wait + Sync + AllocGlobal + Print>(rt: &R, form: Form, input: &str) {
    let Some(plan) = Plan::new(2, 0, 1_000) else {
        return;
    };
    let crew = Crew {
        rt,
        alloc: rt.alloc(),
        plan: &plan,
        gate: &OpenGate,
    };
    let mut out = Vec::new(rt.alloc());
    let end = run_in(&crew, form, &mut input.as_bytes(), &mut out);
    tell_lines(rt, &out);
    tell_value(rt, &end);
    let mut stream = Joined {
        reader: input.as_bytes(),
        writer: Vec::new(rt.alloc()),
    };
    let same = serve_in(&crew, form, &mut stream) == end;
    tell(
        rt,
        if same && stream.writer == out {
            "and as it comes"
        } else {
            "but not as it comes"
        },
    );
}
