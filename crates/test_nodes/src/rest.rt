//! Histories that come to rest: anything happens for a while; then links stay as they are, and messages arrive, except
//! over links that work one way.

use crate::draws::Draws;
use crate::kinds::{Kind, Promise};
use crate::links::{Links, is_set, routers_where};
use crate::world::{Findings, MOST_ROUTERS, Seen, World};
use fr_node::{CUT_OFF, NodeFault};
use std::alloc::Global;

/// Rounds in which messages are lost, held back and repeated, and the most rounds in which all arrive.
const UNFAIR_ROUNDS: u32 = 12;

const MOST_ROUNDS: u32 = 400;

/// The patience of the ticks between the rounds in which all messages arrive. Two rounds are enough to hear a neighbour
/// and to be told that it hears.
pub const PATIENCE: u32 = 3;

/// What came of histories.
#[derive(Clone, Copy, Default)]
pub struct Rests {
    pub found: Findings,
    /// How many routers that are no gateways were connected to one.
    pub joined: u32,
    /// Histories in which connected routers still changed after `MOST_ROUNDS`.
    pub restless: u32,
    /// Histories at whose end a connected router has no way, or a way on which its packets are not let in.
    pub unserved: u32,
    /// Histories at whose end a router's height or distance is not the least cost, or its first way is on no such route.
    pub longer: u32,
    /// Histories in which a connected router announced more heights than it may.
    pub above: u32,
}

/// Draws so many histories.
pub fn draw_histories(
    alloc: Global,
    (kind, promise): (Kind, Promise),
    patience: Option<u32>,
    histories: u32,
) -> Result<Rests, NodeFault> {
    let mut rests = Rests::default();
    for seed in 0..histories {
        rests.draw(alloc, (kind, promise), patience, seed)?;
    }
    Ok(rests)
}

/// Whether one of so many histories does not keep what is promised. It is the last one that is drawn.
pub fn is_broken(
    alloc: Global,
    (kind, promise): (Kind, Promise),
    patience: Option<u32>,
    histories: u32,
) -> Result<bool, NodeFault> {
    let mut rests = Rests::default();
    for seed in 0..histories {
        rests.draw(alloc, (kind, promise), patience, seed)?;
        if rests.has_broken() {
            return Ok(true);
        }
    }
    Ok(false)
}

impl Rests {
    /// Whether a history did not keep what was promised.
    fn has_broken(self) -> bool {
        self.restless > 0 || self.unserved > 0 || self.longer > 0 || self.above > 0
    }

    /// Draws a history of 2 to 16 routers, of which none to three are gateways, and adds what comes of it. Each other one
    /// has links that work one way.
    fn draw(
        &mut self,
        alloc: Global,
        (kind, promise): (Kind, Promise),
        patience: Option<u32>,
        seed: u32,
    ) -> Result<(), NodeFault> {
        let mut draws = Draws::from(u64::from(seed).wrapping_add(1 << 32));
        let routers = draws.below(15).wrapping_add(2);
        let gateways = draws.below(4).min(routers);
        let mut links = Links::drawn(&mut draws, routers);
        if draws.below(2) == 0 {
            links = links.with_one_way(&mut draws, routers);
        }
        let mut world = World::new(alloc, kind, (routers, gateways), u64::from(seed) + 1)?;
        for _ in 0..draws.below(200) {
            world.step()?;
        }
        let loses_all = draws.below(2) == 0;
        if loses_all {
            world.lose_all();
        }
        self.end(&mut world, &links, (promise, patience), loses_all)?;
        self.found = self.found.and(world.found());
        Ok(())
    }

    /// Lets messages arrive over these links, and adds what comes of it.
    fn end(
        &mut self,
        world: &mut World,
        links: &Links,
        (promise, patience): (Promise, Option<u32>),
        loses_all: bool,
    ) -> Result<(), NodeFault> {
        set_links(world, links)?;
        let all = world.count();
        let gateways = routers_where(all, |x| world.is_gateway(x));
        let joined = links.joined_to(gateways, all);
        self.joined = self.joined.wrapping_add((joined & !gateways).count_ones());
        let limits = limits(world, links);
        for _ in 0..UNFAIR_ROUNDS {
            exchange_some(world, links)?;
        }
        let looked_at = match promise {
            Promise::NoLoop => return Ok(()),
            Promise::Served | Promise::Bounded => joined,
            Promise::AllRest | Promise::Shortest => u32::MAX,
        };
        let least = links.least_costs(gateways, &world.ceilings(), world);
        let served = match promise {
            Promise::Shortest => routers_where(all, |x| cost_at(&least, x) != CUT_OFF),
            _ => joined,
        };
        if !comes_to_rest(world, links, patience, looked_at)? {
            self.restless = self.restless.wrapping_add(1);
        } else if !are_served(world, served & !gateways) {
            self.unserved = self.unserved.wrapping_add(1);
        } else if matches!(promise, Promise::Shortest) && !are_shortest(world, &least, joined)? {
            self.longer = self.longer.wrapping_add(1);
        }
        if matches!(promise, Promise::Bounded) && loses_all && is_above(world, &limits, joined) {
            self.above = self.above.wrapping_add(1);
        }
        Ok(())
    }
}

/// Each link of these is up at both ends, and all others are down.
pub fn set_links(world: &mut World, links: &Links) -> Result<(), NodeFault> {
    for x in 0..world.count() {
        for w in 0..world.count() {
            world.set_up(x, w, links.joins(x, w))?;
            world.look();
        }
    }
    Ok(())
}

/// The greatest number that the last announcement of each router may have. A router that is no gateway may announce one
/// height for each link of a path to a gateway, and one for each announcement that was not heard along it.
fn limits(world: &World, links: &Links) -> [u64; MOST_ROUTERS] {
    let mut more = [u64::MAX; MOST_ROUTERS];
    for _ in 0..=world.count() {
        for x in 0..world.count() {
            let mut least = if world.is_gateway(x) { 0 } else { u64::MAX };
            for w in 0..world.count() {
                if links.works(x, w) {
                    let beyond = more.get(w as usize).copied().unwrap_or(u64::MAX);
                    least = least.min(beyond.saturating_add(1).saturating_add(world.unheard(x, w)));
                }
            }
            if let Some(it) = more.get_mut(x as usize) {
                *it = least;
            }
        }
    }
    for (x, it) in more.iter_mut().enumerate() {
        *it = it.saturating_add(world.announced(x as u32));
    }
    more
}

/// Each router says something to each neighbour. Some messages are lost, some come later, and earlier ones come again.
fn exchange_some(world: &mut World, links: &Links) -> Result<(), NodeFault> {
    for x in 0..world.count() {
        for w in 0..world.count() {
            if links.carries(x, w) {
                exchange_one(world, x, w)?;
                world.look();
            }
        }
    }
    Ok(())
}

fn exchange_one(world: &mut World, x: u32, w: u32) -> Result<(), NodeFault> {
    let Some(message) = world.say(x, w)? else {
        return Ok(());
    };
    match world.draws().below(8) {
        0 => Ok(()),
        1..=3 => world.keep(message),
        4 => world.hear_any(),
        _ => world.hear(&message),
    }
}

/// Delivers all messages until nothing changes at these routers for two rounds, after the ticks in which both ends of a
/// link lose it.
fn comes_to_rest(
    world: &mut World,
    links: &Links,
    patience: Option<u32>,
    looked_at: u32,
) -> Result<bool, NodeFault> {
    let mut still = 0u32;
    for round in 0..MOST_ROUNDS {
        still = if exchange_all(world, links, patience, looked_at)? || round < 2 * PATIENCE {
            0
        } else {
            still.wrapping_add(1)
        };
        if still == 2 {
            return Ok(true);
        }
    }
    Ok(false)
}

/// Each router says something to each neighbour, which hears it if the link carries it. Then a tick passes at each
/// router. Returns whether anything has changed at these routers.
pub fn exchange_all(
    world: &mut World,
    links: &Links,
    patience: Option<u32>,
    looked_at: u32,
) -> Result<bool, NodeFault> {
    let mut before = [Seen::default(); MOST_ROUTERS];
    for (x, it) in before.iter_mut().enumerate() {
        *it = world.seen(x as u32);
    }
    for x in 0..world.count() {
        for w in 0..world.count() {
            if links.joins(x, w)
                && let Some(message) = world.say(x, w)?
                && links.carries(x, w)
            {
                world.hear(&message)?;
            }
        }
        world.look();
    }
    if let Some(patience) = patience {
        for x in 0..world.count() {
            world.tick(x, patience)?;
        }
        world.look();
    }
    let changed = routers_where(
        world.count(),
        |x| before.get(x as usize) != Some(&world.seen(x)),
    );
    Ok(changed & looked_at != 0)
}

/// Whether each of these routers has a way, and is let in at each of its ways. The ways form no loop, so packets arrive.
fn are_served(world: &World, some: u32) -> bool {
    for x in 0..world.count() {
        let ways = world.seen(x).ways;
        let open = routers_where(world.count(), |w| is_set(world.seen(w).gates, x));
        if is_set(some, x) && (ways == 0 || ways & !open != 0) {
            return false;
        }
    }
    true
}

fn cost_at(least: &[u32; MOST_ROUTERS], x: u32) -> u32 {
    least.get(x as usize).copied().unwrap_or(CUT_OFF)
}

/// Whether the height of each router is the least cost, and also its distance if it has one. The first way is on a route
/// of this cost, and the neighbour there lets packets in. A router that is not joined has no distance.
fn are_shortest(
    world: &World,
    least: &[u32; MOST_ROUTERS],
    joined: u32,
) -> Result<bool, NodeFault> {
    for x in 0..world.count() {
        let cost = cost_at(least, x);
        let seen = world.seen(x);
        if seen.height != u64::from(cost) {
            return Ok(false);
        }
        if cost != CUT_OFF || !is_set(joined, x) {
            let is_first = match world.first_way(x)? {
                _ if cost == 0 => true,
                None => cost == CUT_OFF,
                Some(way) => {
                    cost_at(least, way.neighbour).saturating_add(world.cost(x, way.neighbour))
                        == cost
                        && way.distance == cost
                        && (cost == CUT_OFF || is_set(world.seen(way.neighbour).gates, x))
                }
            };
            if seen.distance != cost || !is_first {
                return Ok(false);
            }
        }
    }
    Ok(true)
}

/// Whether one of these routers has announced more than it may.
fn is_above(world: &World, limits: &[u64; MOST_ROUTERS], some: u32) -> bool {
    for (x, limit) in limits.iter().enumerate() {
        if is_set(some, x as u32) && world.announced(x as u32) > *limit {
            return true;
        }
    }
    false
}
