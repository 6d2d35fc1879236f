//! Runs, services and plays with any reader and writer.

use crate::cases::Case;
use crate::outcomes::Outcome;
use fr_command::{Draw, Joined, RunFault, Task, play_drawn, run, serve};
use fr_crew::{Crew, OpenGate, Plan};
use std::io::{Read, Write};
use std::sync::Wait;
use std::thread::Threads;

/// The task of a case, from a place on: a run or a service on one thread, or a play with the numbers of a draw.
pub fn task_at(case: &Case<'_>, place: usize) -> Option<Task> {
    match case.text(place)? {
        "run" => Some(Task::Run(Plan::new(1, 0, 0)?)),
        "serve" => Some(Task::Serve(Plan::new(1, 0, 0)?)),
        "play" => Some(Task::Play(draw_at(case, place)?)),
        _ => None,
    }
}

/// The draw with the numbers after a place: of workers, the seed, and of steps.
pub fn draw_at(case: &Case<'_>, place: usize) -> Option<Draw> {
    if place > 1_000 {
        return None;
    }
    Draw::new(
        case.small(place + 1)?,
        case.number(place + 2)?,
        case.small(place + 3)?,
    )
}

/// Does a task with the gate open. The result of a service is 0.
pub fn perform_task<T: Threads + Wait + Sync + AllocGlobal, R: Read, W: Write>(
    rt: &T,
    task: Task,
    reader: &mut R,
    writer: &mut W,
) -> Result<u64, RunFault> {
    match task {
        Task::Run(plan) => run(rt, rt.alloc(), reader, writer, &plan, &OpenGate),
        Task::Serve(plan) => {
            let mut stream = Joined { reader, writer };
            let crew = Crew {
                rt,
                alloc: rt.alloc(),
                plan: &plan,
                gate: &OpenGate,
            };
            serve(&crew, &mut stream).map(|()| 0)
        }
        Task::Play(draw) => play_drawn(rt.alloc(), reader, writer, draw),
    }
}

/// The result of a task with a writer that accepts everything.
pub fn outcome_of<T: Threads + Wait + Sync + AllocGlobal, R: Read>(
    rt: &T,
    task: Task,
    reader: &mut R,
) -> Outcome {
    let mut out = Vec::new(rt.alloc());
    let end = perform_task(rt, task, reader, &mut out);
    Outcome { out, end }
}
