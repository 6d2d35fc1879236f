//! Routers of `fr_node` beside an adversary that draws which messages are heard, which links come up and go down, and
//! which routers restart. Each line of standard input is a word and a number:
//!
//!     steps N   draws N steps with each policy, over all links between a few routers
//!     rest N    draws N histories with each kind of routers; then links stay, of which some work one way, ticks pass,
//!               and messages arrive
//!     again N   lets routers on a line hear one old message N times, also with later stamps
//!
//! The program prints what happened, how often a tick ended that a link counted as up, in how many steps the library
//! differed from the rules (rules.rt), and in how many routers used a loop. Of histories it also prints how many did
//! not come to rest, after how many a router that is connected to a gateway was not served, after how many a router had
//! not the least cost, and in how many a router announced more heights than it may. Then it looks for what four kinds
//! of routers do not keep, and one kind without ticks, and has to see that in at most ten times as many histories.
#![tactic(auto)]

mod draws;
mod kinds;
mod links;
mod repeats;
mod rest;
mod rules;
mod world;

use fr_node::{NodeFault, Policy, Rise};
use kinds::{Kind, Promise};
use rest::{PATIENCE, Rests};
use std::alloc::Global;
use std::io;
use world::{Findings, World};

/// What routers of each kind keep, and what they do not.
const KEPT: [(Kind, Promise); 5] = [
    (Kind::Full, Promise::Bounded),
    (Kind::Lowering, Promise::Served),
    (Kind::Top, Promise::Shortest),
    (Kind::Ceilings, Promise::Shortest),
    (Kind::Mixed, Promise::NoLoop),
];

const NOT_KEPT: [(Kind, Promise); 4] = [
    (Kind::Full, Promise::AllRest),
    (Kind::Lowering, Promise::Bounded),
    (Kind::LowCeiling, Promise::Served),
    (Kind::Mixed, Promise::Served),
];

/// In how many times as many histories the program looks at most for what is not kept.
const TIMES: u32 = 10;

fn main(rt: HostRuntime) -> io::Result<()> {
    for line in rt.lines(rt.alloc()) {
        let line = line?;
        let line = line.as_str().trim();
        rt.println(line)?;
        if let Some(steps) = number_after(line, "steps ") {
            for choice in 0..8 {
                tell_steps(&rt, steps, choice)?;
            }
        }
        if let Some(histories) = number_after(line, "rest ") {
            for (kind, promise) in KEPT {
                tell_kept(&rt, histories, kind, promise)?;
            }
            for (kind, promise) in NOT_KEPT {
                tell_broken(&rt, histories, (kind, promise), Some(PATIENCE))?;
            }
            tell_broken(&rt, histories, (Kind::Top, Promise::Served), None)?;
        }
        if let Some(times) = number_after(line, "again ") {
            tell_repeats(&rt, times)?;
        }
    }
    Ok(())
}

fn number_after(line: &str, word: &str) -> Option<u32> {
    line.strip_prefix(word)?.parse::<u32>().ok()
}

/// Prints what happens with one policy.
fn tell_steps<R: Alloc<A = Global> + Print>(rt: &R, steps: u32, choice: u32) -> io::Result<()> {
    let policy = Policy {
        rise: if choice % 2 == 0 {
            Rise::Full
        } else {
            Rise::Top(12)
        },
        lower: choice / 2 % 2 == 1,
        wait: choice / 4 % 2 == 1,
    };
    match draw_steps(rt.alloc(), policy, steps) {
        Ok(found) => {
            let Findings {
                steps,
                heard,
                events,
                restarts,
                lost,
                used,
                differ,
                loops,
            } = found;
            println!(rt;
                "  {policy:?}: {steps} steps, {heard} heard, {events} events, {restarts} restarts, {lost} lost, {used} used; {differ} differ, {loops} loops"
            )
        }
        Err(fault) => rt.println(fault),
    }
}

/// Draws so many steps, in worlds of four and five routers with one or two gateways or none.
fn draw_steps(alloc: Global, policy: Policy, steps: u32) -> Result<Findings, NodeFault> {
    let mut all = Findings::default();
    for world in 0..6u32 {
        let mut world = World::new(
            alloc,
            Kind::Same(policy),
            (4 + world % 2, world / 2),
            u64::from(world) + 1,
        )?;
        for _ in 0..steps / 6 {
            world.step()?;
        }
        all = all.and(world.found());
    }
    Ok(all)
}

/// Prints what comes of histories of one kind.
fn tell_kept<R: Alloc<A = Global> + Print>(
    rt: &R,
    histories: u32,
    kind: Kind,
    promise: Promise,
) -> io::Result<()> {
    match rest::draw_histories(rt.alloc(), (kind, promise), Some(PATIENCE), histories) {
        Ok(rests) => {
            let Rests {
                found,
                joined,
                restless,
                unserved,
                longer,
                above,
            } = rests;
            let Findings {
                lost,
                differ,
                loops,
                ..
            } = found;
            println!(rt;
                "  {kind:?}, {promise:?}: {joined} joined, {lost} lost; {differ} differ, {loops} loops, {restless} restless, {unserved} unserved, {longer} longer, {above} above"
            )
        }
        Err(fault) => rt.println(fault),
    }
}

/// Prints whether it is seen that routers of this kind do not keep a promise.
fn tell_broken<R: Alloc<A = Global> + Print>(
    rt: &R,
    histories: u32,
    (kind, promise): (Kind, Promise),
    patience: Option<u32>,
) -> io::Result<()> {
    let most = histories.saturating_mul(TIMES);
    match rest::is_broken(rt.alloc(), (kind, promise), patience, most) {
        Ok(is_broken) => {
            let seen = if is_broken { "seen" } else { "NOT SEEN" };
            let ticks = if patience.is_none() {
                " without ticks"
            } else {
                ""
            };
            println!(rt; "  {kind:?}{ticks} does not keep {promise:?}: {seen}")
        }
        Err(fault) => rt.println(fault),
    }
}

/// Prints what comes of one old message.
fn tell_repeats<R: Alloc<A = Global> + Print>(rt: &R, times: u32) -> io::Result<()> {
    for kind in repeats::KINDS {
        let old = repeats::changes(rt.alloc(), kind, times, false);
        let late = repeats::changes(rt.alloc(), kind, times, true);
        match (old, late) {
            (Ok(old), Ok(late)) => {
                let seen = if late == times { "seen" } else { "NOT SEEN" };
                println!(rt; "  {kind:?}: {old} changes; with later stamps: {seen}")?;
            }
            (Err(fault), _) | (_, Err(fault)) => rt.println(fault)?,
        }
    }
    Ok(())
}
