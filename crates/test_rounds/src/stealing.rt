//! Who makes the turns of a crew. In most cases one worker has all candidates, so each call of another worker is on a
//! candidate that it stole.

use crate::answers::Answer;
use crate::crews::{long_chain, plan, put_turns};
use crate::fault::Fault;
use crate::gates::reaches;
use crate::values::small_number;
use fr_crew::{Crew, CrewWork, Gate, OpenGate, Plan, settle, settle_telling};
use fr_net::Net;
use serde_json::Value;
use std::alloc::Global;
use std::sync::Wait;
use std::sync::atomic::{AtomicU64, Ordering};
use std::thread::{Threads, yield_now};

/// A gate at which so many workers meet before each of their first calls. Once a worker has waited up to the limit,
/// nobody waits any more.
#[derive(Drop)]
struct MeetingGate {
    workers: u64,
    calls: u64,
    came: AtomicU64,
    missed: AtomicU64,
}

impl MeetingGate {
    fn new(workers: u32, calls: u64) -> MeetingGate {
        MeetingGate {
            workers: u64::from(workers),
            calls,
            came: AtomicU64::new(0),
            missed: AtomicU64::new(0),
        }
    }

    /// Whether all workers came to each meeting.
    fn all_came(&self) -> bool {
        self.missed.load(Ordering::SeqCst) == 0
    }
}

impl Gate for MeetingGate {
    fn before(&self, _worker: u32, call: u64) {
        if call <= self.calls && self.all_came() {
            self.came.fetch_add(1, Ordering::SeqCst);
            if !reaches(&self.came, self.workers.saturating_mul(call)) {
                self.missed.fetch_add(1, Ordering::SeqCst);
            }
        }
    }

    fn after(&self, _worker: u32, _call: u64) {}
}

/// A link from node 0 to each of so many leaves. Their numbers are multiples of `step`.
fn star(alloc: Global, step: u32, leaves: u32) -> Result<Net, Fault> {
    let mut links = Vec::new(alloc);
    let mut leaf = 0u32;
    for _ in 0..leaves {
        leaf = leaf.saturating_add(step);
        links.push((0, leaf))?;
    }
    Ok(Net::new(alloc, leaf.saturating_add(1), &links)?)
}

/// Settles a network with destination 0, and appends how many turns all workers made, how many the finisher made, and
/// how many each worker made.
fn put_each_turned<R: Threads + Wait + Sync + Alloc<A = Global>, G: Gate + Sync>(
    crew: &Crew<'_, R, G>,
    text: &mut Answer,
    net: Net,
) -> Result<(), Fault> {
    let CrewWork {
        settled,
        turned,
        ..
    } = settle_telling(crew, net, 0)?;
    put_turns(text, &settled);
    text.put(", turned ", &turned);
    Ok(())
}

/// `["together", workers, calls]`: a star whose leaves are all dealt to worker 0, one for each of so many calls of each
/// worker. The workers meet before each call. Who made how many turns, and whether all came to each meeting.
pub fn together<R: Threads + Wait + Sync + Alloc<A = Global>>(
    rt: &R,
    text: &mut Answer,
    asked: &[Value],
) -> Result<(), Fault> {
    let [workers, calls] = asked else {
        return Err(Fault::NoCase);
    };
    let (workers, calls) = (small_number(workers)?, small_number(calls)?);
    let plan = plan(workers, 1000)?;
    let net = star(rt.alloc(), workers, workers.saturating_mul(calls))?;
    let gate = MeetingGate::new(workers, u64::from(calls));
    let crew = Crew {
        rt,
        alloc: rt.alloc(),
        plan: &plan,
        gate: &gate,
    };
    put_each_turned(&crew, text, net)?;
    text.put(", all came ", &gate.all_came());
    Ok(())
}

/// A call of a worker: its number, and that of the call.
type Numbered = (u32, u64);

/// Which calls a gate holds, and until which other call comes. Worker 1 has nine candidates. Before worker 0 turns node
/// 2, worker 1 takes all of them out of its deque. Then worker 0 waits for one call more of worker 1.
const HOLDS: [(Numbered, Numbered); 3] = [((0, 1), (1, 9)), ((1, 9), (0, 2)), ((0, 2), (1, 10))];

/// A gate for two workers that holds the calls of [`HOLDS`].
#[derive(Drop)]
struct OrderedGate {
    of_first: AtomicU64,
    of_second: AtomicU64,
    missed: AtomicU64,
}

impl OrderedGate {
    fn new() -> OrderedGate {
        OrderedGate {
            of_first: AtomicU64::new(0),
            of_second: AtomicU64::new(0),
            missed: AtomicU64::new(0),
        }
    }

    /// To how many calls this worker has come.
    fn came(&self, worker: u32) -> &AtomicU64 {
        if worker == 0 {
            &self.of_first
        } else {
            &self.of_second
        }
    }

    /// Whether each call came that another one was held for.
    fn all_came(&self) -> bool {
        self.missed.load(Ordering::SeqCst) == 0
    }
}

impl Gate for OrderedGate {
    fn before(&self, worker: u32, call: u64) {
        self.came(worker).fetch_add(1, Ordering::SeqCst);
        for (held, (other, until)) in HOLDS {
            if held == (worker, call) && !reaches(self.came(other), until) {
                self.missed.fetch_add(1, Ordering::SeqCst);
            }
        }
    }

    fn after(&self, _worker: u32, _call: u64) {}
}

/// A hub, node 2, to which node 0 and the odd nodes up to 15 have a link. Node 17 has a link to node 0.
fn hub(alloc: Global) -> Result<Net, Fault> {
    let mut links = Vec::new(alloc);
    links.push((0, 2))?;
    for half in 0..8u32 {
        links.push((2 * half + 1, 2))?;
    }
    links.push((17, 0))?;
    Ok(Net::new(alloc, 18, &links)?)
}

/// `["shared"]`: the hub by two workers. Worker 0 is dealt the hub, and worker 1 all others. Once worker 1 has tried
/// these in vain, worker 0 turns the hub, and the nodes around it are its candidates. Who made how many turns, the
/// counts, and whether worker 1 came to another call.
pub fn shared<R: Threads + Wait + Sync + Alloc<A = Global>>(
    rt: &R,
    text: &mut Answer,
) -> Result<(), Fault> {
    let plan = plan(2, 1000)?;
    let gate = OrderedGate::new();
    let it = settle(rt, rt.alloc(), hub(rt.alloc())?, 0, &plan, &gate)?;
    put_turns(text, &it);
    text.put(", counts ", &it.counts);
    text.put(", all came ", &gate.all_came());
    Ok(())
}

/// How often a gate lets other threads run, so that a worker that looks for a candidate finds none.
const LONGER: u32 = 1000;

/// A gate for two workers. It holds worker 1 before its ninth call until worker 0 comes to its first one. It holds worker
/// 0 before that call until worker 1 has made nine calls and looked for another candidate, and before its second call
/// until worker 1 comes to its tenth one.
#[derive(Drop)]
struct LookingGate {
    began: AtomicU64,
    came: AtomicU64,
    answered: AtomicU64,
    missed: AtomicU64,
}

impl LookingGate {
    fn new() -> LookingGate {
        LookingGate {
            began: AtomicU64::new(0),
            came: AtomicU64::new(0),
            answered: AtomicU64::new(0),
            missed: AtomicU64::new(0),
        }
    }

    fn wait(&self, counted: &AtomicU64, count: u64) {
        if !reaches(counted, count) {
            self.missed.fetch_add(1, Ordering::SeqCst);
        }
    }

    /// Whether each call came that another one was held for.
    fn all_came(&self) -> bool {
        self.missed.load(Ordering::SeqCst) == 0
    }
}

impl Gate for LookingGate {
    fn before(&self, worker: u32, call: u64) {
        if worker == 1 {
            self.came.fetch_add(1, Ordering::SeqCst);
        }
        match (worker, call) {
            (0, 1) => {
                self.began.fetch_add(1, Ordering::SeqCst);
                self.wait(&self.answered, 9);
                for _ in 0..LONGER {
                    yield_now();
                }
            }
            (0, 2) => self.wait(&self.came, 10),
            (1, 9) => self.wait(&self.began, 1),
            _ => {}
        }
    }

    fn after(&self, worker: u32, _call: u64) {
        if worker == 1 {
            self.answered.fetch_add(1, Ordering::SeqCst);
        }
    }
}

/// `["looks again"]`: the hub by two workers. Worker 1 has tried all its candidates and found no other one before worker
/// 0 turns the hub. Who made how many turns, the counts, and whether worker 1 came to another call.
pub fn looks_again<R: Threads + Wait + Sync + Alloc<A = Global>>(
    rt: &R,
    text: &mut Answer,
) -> Result<(), Fault> {
    let plan = plan(2, 1000)?;
    let gate = LookingGate::new();
    let it = settle(rt, rt.alloc(), hub(rt.alloc())?, 0, &plan, &gate)?;
    put_turns(text, &it);
    text.put(", counts ", &it.counts);
    text.put(", all came ", &gate.all_came());
    Ok(())
}

/// How often the runs are repeated, since a busy machine may leave a thread no time.
const REPEATS: u32 = 10;

/// How many workers make less than one of a hundred turns, in so many runs on the chain of 1,024 nodes.
fn count_idle<R: Threads + Wait + Sync + Alloc<A = Global>>(
    rt: &R,
    plan: &Plan,
    runs: u32,
) -> Result<u32, Fault> {
    let alloc = rt.alloc();
    let crew = Crew {
        rt,
        alloc,
        plan,
        gate: &OpenGate,
    };
    let mut idle = 0u32;
    for _ in 0..runs {
        let CrewWork {
            settled,
            turned,
            ..
        } = settle_telling(&crew, long_chain(alloc, 1024, 0)?, 0)?;
        for (_, turns) in &turned {
            if turns.saturating_mul(100) < settled.by_workers {
                idle = idle.saturating_add(1);
            }
        }
    }
    Ok(idle)
}

/// `["each turns", workers, runs]`: the chain of 1,024 nodes by so many workers, so often. Whether at most two of a hundred
/// workers make less than one of a hundred turns.
pub fn each_turns<R: Threads + Wait + Sync + Alloc<A = Global>>(
    rt: &R,
    text: &mut Answer,
    asked: &[Value],
) -> Result<(), Fault> {
    let [workers, runs] = asked else {
        return Err(Fault::NoCase);
    };
    let (workers, runs) = (small_number(workers)?, small_number(runs)?);
    let plan = plan(workers, 1_000_000)?;
    let mut is_shared = false;
    for _ in 0..REPEATS {
        if !is_shared {
            let idle = count_idle(rt, &plan, runs)?;
            is_shared = idle.saturating_mul(50) <= workers.saturating_mul(runs);
        }
    }
    text.put("each turns ", &is_shared);
    Ok(())
}
