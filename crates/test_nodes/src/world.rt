//! A few routers, an adversary that draws what happens, and what is found at each step.

use crate::draws::Draws;
use crate::kinds::Kind;
use crate::links::cost;
use crate::rules::Rules;
use fr_node::{CUT_OFF, Message, Node, NodeFault, Policy, Rise, Way};
use std::alloc::Global;

/// The most routers of a world.
pub const MOST_ROUTERS: usize = 16;

/// After an event the policy rests once it has acted again so often.
const MOST_ACTS: u32 = 3;

/// How many messages can still be heard. A new one takes the place of a drawn one.
const POOL: usize = 40;

/// One router: by the library and by the rules.
#[derive(Drop)]
struct Both {
    node: Node,
    rules: Rules,
}

impl Both {
    /// Lets the policy go on. Returns whether it rests soon, and whether library and rules agree on each step.
    fn rests(&mut self) -> Result<bool, NodeFault> {
        for _ in 0..=MOST_ACTS {
            let state = self.node.state();
            let acts = self.node.act();
            if acts != self.rules.act()? || (self.node.state() != state) != acts {
                return Ok(false);
            }
            if !acts {
                return Ok(true);
            }
        }
        Ok(false)
    }
}

/// What was found so far.
#[derive(Clone, Copy, Default)]
pub struct Findings {
    pub steps: u32,
    pub heard: u32,
    pub events: u32,
    pub restarts: u32,
    /// How often a tick ended that a link counted as up.
    pub lost: u32,
    pub used: u32,
    pub differ: u32,
    pub loops: u32,
}

impl Findings {
    /// Both together.
    pub fn and(self, other: Findings) -> Findings {
        Findings {
            steps: self.steps.wrapping_add(other.steps),
            heard: self.heard.wrapping_add(other.heard),
            events: self.events.wrapping_add(other.events),
            restarts: self.restarts.wrapping_add(other.restarts),
            lost: self.lost.wrapping_add(other.lost),
            used: self.used.wrapping_add(other.used),
            differ: self.differ.wrapping_add(other.differ),
            loops: self.loops.wrapping_add(other.loops),
        }
    }
}

/// What can be seen of a router: its height and distance, and its ways and gates, a bit for each.
#[derive(Clone, Copy, Default, PartialEq, Eq)]
pub struct Seen {
    pub height: u64,
    pub distance: u32,
    pub ways: u32,
    pub gates: u32,
}

#[derive(Drop)]
pub struct World {
    alloc: Global,
    count: u32,
    gateways: u32,
    seed: u64,
    boots: u64,
    routers: Vec<Both>,
    pool: Vec<Message>,
    draws: Draws,
    found: Findings,
}

impl World {
    /// Routers of this kind, of which the first ones are gateways. All links are down.
    pub fn new(
        alloc: Global,
        kind: Kind,
        (routers, gateways): (u32, u32),
        seed: u64,
    ) -> Result<World, NodeFault> {
        let mut draws = Draws::from(seed);
        let mut all = Vec::new(alloc);
        for x in 0..routers {
            let policy = kind.policy(&mut draws, routers);
            let both = start(alloc, policy, (x, routers), (1, seed), x < gateways)?;
            all.reserve(1)?;
            all.push_reserved(both);
        }
        Ok(World {
            alloc,
            count: routers,
            gateways,
            seed,
            boots: 1,
            routers: all,
            pool: Vec::new(alloc),
            draws,
            found: Findings::default(),
        })
    }

    pub fn count(&self) -> u32 {
        self.count
    }

    /// What it costs router x to send a packet to router w.
    pub fn cost(&self, x: u32, w: u32) -> u32 {
        match self.routers.get(x as usize) {
            Some(both) => both.rules.cost(w),
            None => CUT_OFF,
        }
    }

    /// The ceiling of each router: costs from there on do not count.
    pub fn ceilings(&self) -> [u32; MOST_ROUTERS] {
        let mut ceilings = [CUT_OFF; MOST_ROUTERS];
        for (both, it) in self.routers.iter().zip(ceilings.iter_mut()) {
            if let Rise::Top(ceiling) = both.rules.policy().rise {
                *it = ceiling;
            }
        }
        ceilings
    }

    /// The first of the ways that a router lists.
    pub fn first_way(&self, x: u32) -> Result<Option<Way>, NodeFault> {
        let Some(both) = self.routers.get(x as usize) else {
            return Ok(None);
        };
        let mut ways = Vec::new(self.alloc);
        ways.reserve(both.node.neighbours())?;
        both.node.list_ways(&mut ways);
        Ok(ways.first().copied())
    }

    pub fn is_gateway(&self, x: u32) -> bool {
        x < self.gateways
    }

    pub fn draws(&mut self) -> &mut Draws {
        &mut self.draws
    }

    pub fn found(&self) -> Findings {
        self.found
    }

    /// Draws what happens next, and looks for loops and differences.
    pub fn step(&mut self) -> Result<(), NodeFault> {
        let routers = self.count;
        let x = self.draws.below(routers);
        let w = self.draws.below(routers);
        match self.draws.below(400) {
            0 => self.restart(x)?,
            1..=3 => self.set_up(x, w, false)?,
            4..=36 => self.set_up(x, w, true)?,
            37..=40 => self.set_cost(x, w)?,
            41..=60 => {
                let patience = self.draws.below(12);
                self.tick(x, patience)?;
            }
            61..=210 => {
                if let Some(message) = self.say(x, w)? {
                    self.keep(message)?;
                }
            }
            _ => self.hear_any()?,
        }
        self.look();
        Ok(())
    }

    /// Looks for differences and loops after a step.
    pub fn look(&mut self) {
        self.found.steps = self.found.steps.wrapping_add(1);
        self.compare();
        self.look_for_loops();
    }

    /// A router starts again, and has forgotten everything but its neighbours.
    fn restart(&mut self, x: u32) -> Result<(), NodeFault> {
        self.boots = self.boots.wrapping_add(1);
        self.found.restarts = self.found.restarts.wrapping_add(1);
        let is_gateway = self.is_gateway(x);
        let size = (x, self.count);
        if let Some(both) = self.routers.get_mut(x as usize) {
            *both = start(
                self.alloc,
                both.rules.policy(),
                size,
                (self.boots, self.seed),
                is_gateway,
            )?;
        }
        Ok(())
    }

    /// A router is told that its link to a neighbour is up, or down. The neighbour may learn it later, or never.
    pub fn set_up(&mut self, x: u32, w: u32, up: bool) -> Result<(), NodeFault> {
        let Some(both) = self.routers.get_mut(x as usize) else {
            return Ok(());
        };
        if x == w {
            return Ok(());
        }
        both.rules.set_up(w, up);
        both.rules.act()?;
        if up {
            both.node.link_up(w);
        } else {
            both.node.link_down(w);
        }
        self.end_event(x)
    }

    /// It costs a router something else to send a packet to a neighbour. In a world in which each link costs 1 it costs 1
    /// again.
    fn set_cost(&mut self, x: u32, w: u32) -> Result<(), NodeFault> {
        let other = self
            .seed
            .wrapping_add(u64::from(self.draws.below(100)).wrapping_mul(2));
        let cost = cost(other, x, w);
        let Some(both) = self.routers.get_mut(x as usize) else {
            return Ok(());
        };
        if x == w {
            return Ok(());
        }
        both.rules.set_cost(w, cost);
        both.rules.act()?;
        both.node.set_cost(w, cost);
        self.end_event(x)
    }

    /// A tick passes at a router.
    pub fn tick(&mut self, x: u32, patience: u32) -> Result<(), NodeFault> {
        let Some(both) = self.routers.get_mut(x as usize) else {
            return Ok(());
        };
        let is_event = both.rules.tick(patience);
        let before = both.node.state();
        let is_lost = both.node.tick(patience);
        if is_lost != is_event || (both.node.state() != before) != is_event {
            self.found.differ = self.found.differ.wrapping_add(1);
        }
        if is_event {
            self.found.lost = self.found.lost.wrapping_add(1);
            both.rules.act()?;
            return self.end_event(x);
        }
        Ok(())
    }

    /// After an event of a router. Each other time its policy goes on until it rests. Then its table is written.
    fn end_event(&mut self, x: u32) -> Result<(), NodeFault> {
        self.found.events = self.found.events.wrapping_add(1);
        let goes_on = self.found.events % 2 == 0;
        let Some(both) = self.routers.get_mut(x as usize) else {
            return Ok(());
        };
        if goes_on && !both.rests()? {
            self.found.differ = self.found.differ.wrapping_add(1);
        }
        // Until then it says nothing.
        if !matches!(both.node.say(x), Err(NodeFault::Unwritten)) {
            self.found.differ = self.found.differ.wrapping_add(1);
        }
        both.node.written(both.node.state())
    }

    /// What a router says to a neighbour.
    pub fn say(&mut self, x: u32, w: u32) -> Result<Option<Message>, NodeFault> {
        let Some(both) = self.routers.get_mut(x as usize) else {
            return Ok(None);
        };
        let said = both.node.say(w)?;
        if said != both.rules.say(w) {
            self.found.differ = self.found.differ.wrapping_add(1);
        }
        Ok(said)
    }

    /// A message joins the pool.
    pub fn keep(&mut self, message: Message) -> Result<(), NodeFault> {
        if self.pool.len() < POOL {
            self.pool.reserve(1)?;
            self.pool.push_reserved(message);
        } else {
            let at = self.draws.below(POOL as u32);
            if let Some(old) = self.pool.get_mut(at as usize) {
                *old = message;
            }
        }
        Ok(())
    }

    /// All messages of the pool are lost.
    pub fn lose_all(&mut self) {
        self.pool.clear();
    }

    /// A drawn message of the pool is heard. It stays in the pool.
    pub fn hear_any(&mut self) -> Result<(), NodeFault> {
        let at = self.draws.below(POOL as u32);
        match self.pool.get(at as usize).copied() {
            Some(message) => self.hear(&message),
            None => Ok(()),
        }
    }

    /// A message is heard, as bytes.
    pub fn hear(&mut self, message: &Message) -> Result<(), NodeFault> {
        let Some(both) = self.routers.get_mut(message.to as usize) else {
            return Ok(());
        };
        self.found.heard = self.found.heard.wrapping_add(1);
        let is_event = both.rules.hear(message);
        let Some(read) = Message::read(&message.write()) else {
            self.found.differ = self.found.differ.wrapping_add(1);
            return Ok(());
        };
        let before = both.node.state();
        both.node.hear(&read)?;
        if both.node.is_written() == is_event || (both.node.state() != before) != is_event {
            self.found.differ = self.found.differ.wrapping_add(1);
        }
        if is_event {
            both.rules.act()?;
            return self.end_event(message.to);
        }
        Ok(())
    }

    pub fn seen(&self, x: u32) -> Seen {
        let mut seen = Seen::default();
        if let Some(both) = self.routers.get(x as usize) {
            seen.height = both.node.height();
            seen.distance = both.node.distance();
            for w in 0..self.count {
                seen.ways |= u32::from(both.node.sends_to(w)).wrapping_shl(w);
                seen.gates |= u32::from(both.node.lets_in(w)).wrapping_shl(w);
            }
        }
        seen
    }

    /// The number of the last announcement of a router.
    pub fn announced(&self, x: u32) -> u64 {
        self.routers
            .get(x as usize)
            .map(|both| both.rules.announced())
            .unwrap_or(0)
    }

    /// How many announcements of its neighbour w router x has not heard, if no earlier message arrives any more.
    pub fn unheard(&self, x: u32, w: u32) -> u64 {
        match (self.routers.get(x as usize), self.routers.get(w as usize)) {
            (Some(to), Some(from)) => {
                let number = from.rules.announced();
                number.wrapping_sub(to.rules.heard_of(w, from.rules.boot()))
            }
            _ => 0,
        }
    }

    /// Compares what the library and the rules say of each router.
    fn compare(&mut self) {
        let routers = self.count;
        let mut same = true;
        for both in &self.routers {
            same = same && is_same(both, routers);
        }
        if !same {
            self.found.differ = self.found.differ.wrapping_add(1);
        }
    }

    /// Looks for a loop of used links: takes away routers that use no link to one that is left, as often as there are
    /// routers. Those that are left are on a loop, or lead to one.
    fn look_for_loops(&mut self) {
        let used = self.used();
        let mut left = u32::MAX;
        for _ in 0..self.count {
            for (x, used) in used.iter().enumerate() {
                if used & left == 0 {
                    left &= !1u32.wrapping_shl(x as u32);
                }
            }
        }
        for used in used {
            self.found.used = self.found.used.wrapping_add(used.count_ones());
            if used & left != 0 {
                self.found.loops = self.found.loops.wrapping_add(1);
                return;
            }
        }
    }

    fn is_used(&self, x: u32, w: u32) -> bool {
        match (self.routers.get(x as usize), self.routers.get(w as usize)) {
            (Some(from), Some(to)) => from.node.sends_to(w) && to.node.lets_in(x),
            _ => false,
        }
    }

    /// The routers to which each router uses a link, a bit for each: it sends to them, and they let it in.
    fn used(&self) -> [u32; MOST_ROUTERS] {
        let mut used = [0; MOST_ROUTERS];
        for (x, row) in (0..self.count).zip(used.iter_mut()) {
            for w in 0..self.count {
                if self.is_used(x, w) {
                    *row |= 1u32.wrapping_shl(w);
                }
            }
        }
        used
    }
}

/// A router that starts, with all other routers as neighbours.
fn start(
    alloc: Global,
    policy: Policy,
    (x, routers): (u32, u32),
    (boot, seed): (u64, u64),
    gateway: bool,
) -> Result<Both, NodeFault> {
    let height = start_height(policy, x, boot, gateway);
    let mut node = if gateway {
        Node::gateway(alloc, x, boot)
    } else {
        Node::new(alloc, x, boot, height, policy)?
    };
    for w in 0..routers {
        if w != x {
            node.know(w, cost(seed, x, w))?;
        }
    }
    let rules = Rules::start(alloc, (x, routers), (boot, seed), height, gateway, policy)?;
    Ok(Both { node, rules })
}

/// The height at which a router starts: its number, or none at every other start, if its policy can do without.
fn start_height(policy: Policy, x: u32, boot: u64, gateway: bool) -> u64 {
    match policy.rise {
        _ if gateway => 0,
        Rise::Top(_) if (u64::from(x).wrapping_add(boot)) % 2 == 0 => u64::from(CUT_OFF),
        _ => u64::from(x),
    }
}

fn is_same(both: &Both, routers: u32) -> bool {
    let Both { node, rules } = both;
    for w in 0..routers {
        if node.sends_to(w) != rules.sends_to(w) || node.lets_in(w) != rules.lets_in(w) {
            return false;
        }
    }
    node.height() == rules.height() && node.distance() == rules.distance()
}
