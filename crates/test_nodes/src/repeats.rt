//! One old message that is heard again and again.

use crate::kinds::Kind;
use crate::links::Links;
use crate::rest::{exchange_all, set_links};
use crate::world::World;
use fr_node::{Message, NodeFault};
use std::alloc::Global;

/// The routers of the line.
const ROUTERS: u32 = 4;

/// Routers whose distances change under the same number.
pub const KINDS: [Kind; 1] = [Kind::Lowering];

/// How often one old message changes a router of a line. Router 1 says to router 2 that it knows no distance, before it hears
/// of the gateway, which is router 0. Once all is quiet, that message is heard so often. It has the number of the last
/// announcement of router 1, so router 2 would take it but for its stamp. With later stamps, router 2 takes it each time, as
/// if it took old ones.
pub fn changes(alloc: Global, kind: Kind, times: u32, is_late: bool) -> Result<u32, NodeFault> {
    let mut world = World::new(alloc, kind, (ROUTERS, 1), 1)?;
    let line = Links::line(0, 3);
    set_links(&mut world, &line)?;
    exchange_often(&mut world, &Links::line(1, 3))?;
    let Some(old) = world.say(1, 2)? else {
        return Ok(u32::MAX);
    };
    exchange_often(&mut world, &line)?;
    let mut count = 0u32;
    for _ in 0..times {
        let stamp = match world.say(1, 2)? {
            Some(now) if is_late => now.stamp,
            _ => old.stamp,
        };
        let before = world.seen(2);
        world.hear(&Message { stamp, ..old })?;
        if world.seen(2) != before {
            count = count.wrapping_add(1);
        }
        exchange_often(&mut world, &line)?;
    }
    Ok(count)
}

fn exchange_often(world: &mut World, links: &Links) -> Result<(), NodeFault> {
    for _ in 0..6 {
        exchange_all(world, links, None, u32::MAX)?;
    }
    Ok(())
}
