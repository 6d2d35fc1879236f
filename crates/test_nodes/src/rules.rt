//! What a router has to do, written from the rules of the protocol and not from the library. It keeps all announcements
//! since the one whose height is in use, and looks through them.

use crate::links::cost;
use fr_node::{CUT_OFF, Message, Policy, Rise};
use std::alloc::{AllocError, Global};

/// What a router knows of a neighbour.
#[derive(Clone, Copy)]
struct Seen {
    neighbour: u32,
    cost: u32,
    /// Whether the router was told that the link is up, and whether it still counts as up.
    carrier: bool,
    up: bool,
    /// The tick after which the link was last known to work both ways, or was given time to.
    works_since: u64,
    /// Whether the neighbour was heard lately, and the tick after which it was last heard.
    is_heard: bool,
    heard_since: u64,
    peer: u64,
    stamp: u64,
    number: u64,
    height: u64,
    distance: u32,
    acked: u64,
}

/// One announcement: its number and the height.
#[derive(Clone, Copy)]
struct Said {
    number: u64,
    height: u64,
}

#[derive(Drop)]
pub struct Rules {
    me: u32,
    boot: u64,
    gateway: bool,
    policy: Policy,
    used: u64,
    said: Vec<Said>,
    seen: Vec<Seen>,
    /// How many messages it has said.
    stamp: u64,
    /// How many ticks have passed.
    ticks: u64,
}

impl Rules {
    pub fn start(
        alloc: Global,
        (me, routers): (u32, u32),
        (boot, seed): (u64, u64),
        used: u64,
        gateway: bool,
        policy: Policy,
    ) -> Result<Rules, AllocError> {
        let mut said = Vec::new(alloc);
        said.push(Said {
            number: 1,
            height: used,
        })?;
        let mut seen = Vec::new(alloc);
        for neighbour in 0..routers {
            seen.push(Seen {
                neighbour,
                cost: cost(seed, me, neighbour),
                carrier: false,
                up: false,
                works_since: 0,
                is_heard: false,
                heard_since: 0,
                peer: 0,
                stamp: 0,
                number: 0,
                height: 0,
                distance: CUT_OFF,
                acked: 0,
            })?;
        }
        Ok(Rules {
            me,
            boot,
            gateway,
            policy,
            used,
            said,
            seen,
            stamp: 0,
            ticks: 0,
        })
    }

    pub fn policy(&self) -> Policy {
        self.policy
    }

    pub fn boot(&self) -> u64 {
        self.boot
    }

    /// The number of the last announcement.
    pub fn announced(&self) -> u64 {
        self.last().number
    }

    /// The number of the last announcement that was heard of this start of a neighbour, or 0.
    pub fn heard_of(&self, w: u32, start: u64) -> u64 {
        match self.seen(w) {
            Some(seen) if seen.peer == start => seen.number,
            _ => 0,
        }
    }

    pub fn height(&self) -> u64 {
        self.used
    }

    pub fn cost(&self, w: u32) -> u32 {
        match self.seen(w) {
            Some(seen) => seen.cost,
            None => CUT_OFF,
        }
    }

    pub fn set_cost(&mut self, w: u32, cost: u32) {
        if let Some(seen) = self.seen.get_mut(w as usize) {
            seen.cost = cost;
        }
    }

    pub fn set_up(&mut self, w: u32, up: bool) {
        if let Some(seen) = self.seen.get_mut(w as usize) {
            seen.carrier = up;
            seen.up = up;
            seen.works_since = self.ticks;
        }
    }

    /// A tick passes. Returns whether a link counts as up no longer: for so many ticks the neighbour has not said to
    /// this start of the router that it hears it.
    pub fn tick(&mut self, patience: u32) -> bool {
        self.ticks = self.ticks.wrapping_add(1);
        let mut is_lost = false;
        for seen in self.seen.iter_mut() {
            if seen.up && self.ticks.wrapping_sub(seen.works_since) >= u64::from(patience) {
                seen.up = false;
                is_lost = true;
            }
            if self.ticks.wrapping_sub(seen.heard_since) >= u64::from(patience) {
                seen.is_heard = false;
            }
        }
        is_lost
    }

    /// Hears a message, and returns whether it counts: it is for this router, and the last one of its sender.
    pub fn hear(&mut self, m: &Message) -> bool {
        let last = self.last().number;
        if m.to != self.me {
            return false;
        }
        let Some(seen) = self.seen.get_mut(m.from as usize) else {
            return false;
        };
        if m.boot < seen.peer || m.boot == seen.peer && m.stamp <= seen.stamp {
            return false;
        }
        seen.stamp = m.stamp;
        seen.is_heard = true;
        seen.heard_since = self.ticks;
        if m.boot > seen.peer {
            seen.works_since = self.ticks;
            seen.peer = m.boot;
            seen.number = 0;
            seen.height = 0;
            seen.acked = 0;
            seen.distance = CUT_OFF;
        }
        if m.echo != self.boot {
            return true;
        }
        seen.up = seen.carrier;
        seen.works_since = self.ticks;
        if m.heard <= last {
            seen.acked = seen.acked.max(m.heard);
        }
        if m.number >= seen.number {
            seen.number = m.number;
            seen.height = m.height;
            seen.distance = m.distance;
        }
        true
    }

    fn last(&self) -> Said {
        self.said.last().copied().unwrap_or(Said {
            number: 1,
            height: 0,
        })
    }

    fn seen(&self, w: u32) -> Option<Seen> {
        self.seen.get(w as usize).copied()
    }

    fn is_lower(&self, seen: Seen, than: u64) -> bool {
        seen.number > 0 && (seen.height < than || seen.height == than && seen.neighbour < self.me)
    }

    pub fn sends_to(&self, w: u32) -> bool {
        self.seen(w).is_some_and(|seen| !self.gateway && seen.up && self.is_lower(seen, self.used))
    }

    /// The least height that the neighbour may have in mind. `None`: not known.
    fn floor(&self, seen: Seen) -> Option<u64> {
        let first = self.said.first().map(|said| said.number)?;
        if seen.acked < first {
            return None;
        }
        let mut floor = None;
        for said in &self.said {
            if said.number >= seen.acked {
                floor = Some(said.height.min(floor.unwrap_or(said.height)));
            }
        }
        floor
    }

    pub fn lets_in(&self, w: u32) -> bool {
        match self.seen(w) {
            Some(seen) => seen.up
                && (self.gateway || self.floor(seen).is_some_and(|floor| floor >= self.used)),
            None => false,
        }
    }

    pub fn distance(&self) -> u32 {
        if self.gateway {
            return 0;
        }
        let mut least = CUT_OFF;
        for seen in &self.seen {
            if self.sends_to(seen.neighbour) {
                least = least.min(seen.distance.saturating_add(seen.cost));
            }
        }
        least
    }

    pub fn say(&mut self, w: u32) -> Option<Message> {
        let seen = self.seen(w)?;
        if !seen.carrier {
            return None;
        }
        let last = self.last();
        self.stamp = self.stamp.wrapping_add(1);
        Some(Message {
            from: self.me,
            to: w,
            boot: self.boot,
            echo: if seen.is_heard { seen.peer } else { 0 },
            number: last.number,
            height: last.height,
            heard: seen.number,
            distance: self.distance(),
            stamp: self.stamp,
        })
    }

    /// Announces a height by the policy, and uses it if it may. Returns whether it has done one of the two.
    pub fn act(&mut self) -> Result<bool, AllocError> {
        if self.gateway {
            return Ok(false);
        }
        let last = self.last();
        let before = (last.number, self.used);
        if last.height == self.used {
            let number = last.number.saturating_add(1);
            if let Some(height) = self.lower() {
                self.said.push(Said { number, height })?;
                self.used = height;
            } else if let Some(height) = self.raise() {
                if height > self.used {
                    self.said.push(Said { number, height })?;
                }
            }
        }
        let last = self.last();
        if last.height != self.used && self.may_use(last.height) {
            self.used = last.height;
            self.said.clear();
            self.said.push(last)?;
        }
        Ok((last.number, self.used) != before)
    }

    fn may_use(&self, height: u64) -> bool {
        for seen in &self.seen {
            let is_open = self.lets_in(seen.neighbour);
            if self.policy.wait
                && is_open
                && !self.floor(*seen).is_some_and(|floor| floor >= height)
            {
                return false;
            }
        }
        true
    }

    /// The least cost of a route over a neighbour, by the heights that they announced. It has to be below the ceiling.
    fn best_offer(&self, ceiling: u32) -> Option<u64> {
        let mut best: Option<u64> = None;
        for seen in &self.seen {
            let offer = seen.height.saturating_add(u64::from(seen.cost));
            if seen.up && seen.number > 0 && offer < u64::from(ceiling) {
                best = Some(offer.min(best.unwrap_or(offer)));
            }
        }
        best
    }

    /// The best offer, if it is lower, and all neighbours are let in.
    fn offered(&self, ceiling: u32) -> Option<u64> {
        for seen in &self.seen {
            if seen.up && !self.lets_in(seen.neighbour) {
                return None;
            }
        }
        self.best_offer(ceiling).filter(|offer| *offer < self.used)
    }

    /// The top, if nobody offers this height.
    fn top(&self, ceiling: u32) -> Option<u64> {
        match self.best_offer(ceiling) {
            Some(offer) if offer <= self.used => None,
            _ => Some(u64::from(CUT_OFF)),
        }
    }

    fn lower(&self) -> Option<u64> {
        if let Rise::Top(ceiling) = self.policy.rise {
            return self.offered(ceiling);
        }
        let distance = self.distance();
        let height = u64::from(distance);
        if !self.policy.lower || distance == CUT_OFF || height >= self.used {
            return None;
        }
        for seen in &self.seen {
            if self.sends_to(seen.neighbour)
                && seen.distance < distance
                && self.is_lower(*seen, height)
            {
                return Some(height);
            }
        }
        None
    }

    fn raise(&self) -> Option<u64> {
        match self.policy.rise {
            Rise::Full => self.above_all(),
            Rise::Top(ceiling) => self.top(ceiling),
        }
    }

    fn above_all(&self) -> Option<u64> {
        let mut most = None;
        for seen in &self.seen {
            if seen.up {
                if seen.number == 0 || self.is_lower(*seen, self.used) {
                    return None;
                }
                most = Some(seen.height.max(most.unwrap_or(0)));
            }
        }
        most?.checked_add(1)
    }
}
