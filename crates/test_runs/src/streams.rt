//! Readers and writers that fail, and how runs, services and plays handle them.

use crate::outcomes::{Outcome, tell_outcome};
use crate::tasks::{outcome_of, perform_task};
use crate::telling::tell;
use fr_command::{RunFault, Task};
use std::alloc::Global;
use std::io;
use std::io::{Read, Write};
use std::sync::Wait;
use std::thread::Threads;

/// Provides one byte at a time. After so many successful reads one fails, and later ones succeed again, so that a loop
/// that continues is noticed.
#[derive(Drop)]
struct SlowReader<'a> {
    rest: &'a [u8],
    good: u32,
}

impl<'a> Read for SlowReader<'a> {
    fn read(&mut self, buf: &mut [u8]) -> io::Result<usize> {
        if self.good == 0 {
            self.good = u32::MAX;
            return Err(io::Error::from(io::ErrorKind::Interrupted));
        }
        self.good -= 1;
        let room = buf.len().min(1);
        self.rest.read(&mut buf[..room])
    }
}

/// Prints the result of a task for each number of successful reads from 0 to `most - 1`, if it differs from the result
/// for one read less.
pub fn tell_slow_reads<R: Threads + Wait + Sync + AllocGlobal + Print>(
    rt: &R,
    task: Task,
    input: &str,
    most: u32,
) {
    let mut last = None;
    for good in 0..most {
        let mut reader = SlowReader {
            rest: input.as_bytes(),
            good,
        };
        let outcome = outcome_of(rt, task, &mut reader);
        if !is_told(&last, &outcome) {
            let _ = println!(rt; "  from {good} good reads on:");
            tell_outcome(rt, &outcome);
            last = Some(outcome);
        }
    }
}

/// Whether an outcome is the last one that was printed.
fn is_told(last: &Option<Outcome>, outcome: &Outcome) -> bool {
    match last {
        Some(last) => last == outcome,
        None => false,
    }
}

/// Accepts at most three bytes. After so many successful calls one fails or accepts no byte, and later ones succeed
/// again, so that a loop that continues is noticed.
#[derive(Drop)]
struct NarrowWriter {
    out: Vec<u8>,
    good: u32,
    fails: bool,
    failed: bool,
    flushed: bool,
    flush_failed: bool,
}

impl NarrowWriter {
    fn new(alloc: Global, good: u32, fails: bool) -> NarrowWriter {
        NarrowWriter {
            out: Vec::new(alloc),
            good,
            fails,
            failed: false,
            flushed: false,
            flush_failed: false,
        }
    }

    /// Whether everything was written and then flushed if all calls succeeded; otherwise a prefix was written, with
    /// no flush after the failure. If a flush at the end failed, everything was written.
    fn fits(&self, end: &Result<u64, RunFault>, whole: &Outcome, flushes_once: bool) -> bool {
        match end {
            Err(RunFault::Write) if self.flush_failed && flushes_once => {
                !self.flushed && self.out == whole.out
            }
            Err(RunFault::Write) => {
                self.failed && !self.flushed && whole.out.starts_with(&self.out)
            }
            _ => { !self.failed && self.flushed && *end == whole.end && self.out == whole.out }
        }
    }
}

impl Write for NarrowWriter {
    fn write(&mut self, buf: &[u8]) -> io::Result<usize> {
        self.flushed = false;
        if self.good == 0 {
            self.good = u32::MAX;
            self.failed = true;
            return if self.fails {
                Err(io::Error::from(io::ErrorKind::Interrupted))
            } else {
                Ok(0)
            };
        }
        self.good -= 1;
        let count = buf.len().min(3);
        self.out.extend_from_slice(&buf[..count])?;
        Ok(count)
    }

    fn flush(&mut self) -> io::Result<()> {
        self.flushed = self.good > 0;
        if self.good == 0 {
            self.failed = true;
            self.flush_failed = true;
            return Err(io::Error::from(io::ErrorKind::Interrupted));
        }
        Ok(())
    }
}

/// A task with its input, and its result if no call fails.
#[derive(Drop)]
struct Undisturbed<'a> {
    task: Task,
    input: &'a str,
    outcome: Outcome,
}

impl<'a> Undisturbed<'a> {
    fn new<R: Threads + Wait + Sync + AllocGlobal>(
        rt: &R,
        task: Task,
        input: &'a str,
    ) -> Undisturbed<'a> {
        Undisturbed {
            task,
            input,
            outcome: outcome_of(rt, task, &mut input.as_bytes()),
        }
    }

    /// Whether the task stops with a writer as it must, and has done everything if that is expected.
    fn stops<R: Threads + Wait + Sync + AllocGlobal>(
        &self,
        rt: &R,
        mut writer: NarrowWriter,
        done: bool,
    ) -> bool {
        let end = perform_task(rt, self.task, &mut self.input.as_bytes(), &mut writer);
        let flushes_once = !matches!(self.task, Task::Serve(_));
        writer.fits(&end, &self.outcome, flushes_once) && (!done || end.is_ok())
    }
}

/// Prints what a task writes and returns, and whether it stops as it must with writers of which so many calls succeed,
/// from 0 to `most - 1`. If at least `enough` calls succeed, it must have done everything.
pub fn tell_narrow_writes<R: Threads + Wait + Sync + AllocGlobal + Print>(
    rt: &R,
    task: Task,
    input: &str,
    most: u32,
    enough: u32,
) {
    let undisturbed = Undisturbed::new(rt, task, input);
    tell_outcome(rt, &undisturbed.outcome);
    for good in 0..most {
        let fails = NarrowWriter::new(rt.alloc(), good, true);
        let takes_none = NarrowWriter::new(rt.alloc(), good, false);
        if !undisturbed.stops(rt, fails, good >= enough)
            || !undisturbed.stops(rt, takes_none, good >= enough)
        {
            let _ = println!(rt; "  but not after {good} good calls");
            return;
        }
    }
    tell(rt, "and stops with each writer");
}
