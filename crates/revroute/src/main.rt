//! The program `revroute`. It answers the lines of standard input on standard output, all of them at the end or each as
//! it comes, or plays full reversal step by step.
#![tactic(auto)]

use fr_command::{Failure, Joined, RunFault, program};
use std::alloc::Global;
use std::io::{BufWriter, ErrorKind};
use std::process::ExitCode;
use std::rt::Env;
use std::sync::Wait;
use std::thread::Threads;
use std::{env, io};

fn main(rt: HostRuntime) -> ExitCode {
    let end = match words_of(&rt) {
        Ok(words) => run_program(&rt, &words),
        Err(failure) => Err(failure),
    };
    match end {
        Ok(status) => ExitCode::from(status),
        Err(failure) => {
            let (status, text) = failure.end();
            let _ = rt.eprintln(text.trim_end());
            ExitCode::from(status)
        }
    }
}

/// The words of the command line, with the program's name first. A word that is not UTF-8 is a usage error.
fn words_of<R: Env + Alloc<A = Global>>(rt: &R) -> Result<Vec<String>, Failure> {
    match env::args(rt) {
        Ok(words) => words
            .collect(rt.alloc())
            .map_err(|_| Failure::Stopped(RunFault::Memory)),
        Err(error) if error.kind() == ErrorKind::InvalidData => {
            match String::from_str(rt.alloc(), "error: a word is not UTF-8") {
                Ok(text) => Err(Failure::Usage { text }),
                Err(_) => Err(Failure::Stopped(RunFault::Memory)),
            }
        }
        Err(_) => Err(Failure::Stopped(RunFault::Memory)),
    }
}

/// Does what the words ask for, from standard input to standard output, and returns the exit status.
fn run_program<R: Threads + Wait + Sync + Alloc<A = Global> + Input + Print>(
    rt: &R,
    words: &[String],
) -> Result<u8, Failure> {
    let mut texts = Vec::new(rt.alloc());
    for word in words {
        if texts.push(word.as_str()).is_err() {
            return Err(Failure::Stopped(RunFault::Memory));
        }
    }
    let Ok(writer) = BufWriter::new(rt.alloc(), io::writer(rt)) else {
        return Err(Failure::Stopped(RunFault::Memory));
    };
    let reader = rt.reader();
    program(rt, rt.alloc(), &texts, &mut Joined { reader, writer })
}
