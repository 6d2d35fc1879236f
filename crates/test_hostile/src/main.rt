//! Makes each call that needs memory or threads, and writes its result to standard output. If a call fails because
//! memory or a thread is missing, this is reported on standard error, and the call is made once more. So standard
//! output is the same whenever only one allocation or one thread of the process is refused, whichever it is.
//! checks/hostile/check refuses each one in turn. The state after a failed call is checked as well.
#![tactic(auto)]

mod calls;
mod growing;
mod logs;
mod nodes;
mod published;
mod sessions;
mod telling;
mod ways;

use calls::{CALLS, Call, make};
use sessions::tell_session;
use std::alloc::Global;
use std::rt::HostRuntime;
use std::sync::Wait;
use std::thread::Threads;
use telling::Answer;

fn main(rt: HostRuntime) {
    for call in CALLS {
        tell_call(&rt, call);
    }
    tell_session(&rt);
}

/// Makes a call, once more if it fails, and writes its answer.
fn tell_call<R: Threads + Wait + Sync + Alloc<A = Global> + Print + Eprint>(rt: &R, call: Call) {
    for _ in 0..2 {
        let mut answer = Answer::new(rt.alloc());
        make(rt, &mut answer, call);
        if let Some(text) = answer.whole() {
            let _ = rt.println(text);
            return;
        }
    }
    let _ = rt.println("no answer");
}
