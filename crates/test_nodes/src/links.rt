//! The links that stay at the end of a history.

ghost use Rattle.std.specs.Prelude.{◌<◌};

use crate::draws::Draws;
use crate::world::{MOST_ROUTERS, World};
use fr_node::CUT_OFF;

/// The greatest cost of a link.
pub const MOST_COST: u32 = 9;

/// What it costs router x to send a packet to router w at first. In every other world each link costs 1, and otherwise the two
/// directions of a link may have different costs.
pub fn cost(seed: u64, x: u32, w: u32) -> u32
    ensures { 0 < result }
{
    if seed % 2 == 0 {
        return 1;
    }
    let pair = seed
        .wrapping_mul(256)
        .wrapping_add(u64::from(x.wrapping_mul(16).wrapping_add(w)));
    Draws::from(pair).below(MOST_COST).saturating_add(1)
}

/// The links that stay, as the neighbours of each router, a bit for each.
#[derive(Clone, Copy)]
pub struct Links {
    rows: [u32; MOST_ROUTERS],
    /// The neighbours that hear nothing of each router.
    deaf: [u32; MOST_ROUTERS],
}

impl Links {
    /// Links between so many routers, about three for each.
    pub fn drawn(draws: &mut Draws, routers: u32) -> Links {
        let mut rows = [0; MOST_ROUTERS];
        for x in 0..routers {
            for w in 0..x {
                if draws.below(routers) < 3 {
                    set(&mut rows, x, w);
                    set(&mut rows, w, x);
                }
            }
        }
        Links {
            rows,
            deaf: [0; MOST_ROUTERS],
        }
    }

    /// The same links, of which about one of six does not work both ways.
    pub fn with_one_way(self, draws: &mut Draws, routers: u32) -> Links {
        let mut deaf = self.deaf;
        for x in 0..routers {
            for w in 0..routers {
                if self.joins(x, w) && draws.below(12) == 0 {
                    set(&mut deaf, x, w);
                }
            }
        }
        Links { deaf, ..self }
    }

    /// Links between routers whose numbers follow one another, from `first` up to `last`.
    pub fn line(first: u32, last: u32) -> Links {
        let mut rows = [0; MOST_ROUTERS];
        for x in first..last {
            set(&mut rows, x, x.wrapping_add(1));
            set(&mut rows, x.wrapping_add(1), x);
        }
        Links {
            rows,
            deaf: [0; MOST_ROUTERS],
        }
    }

    pub fn joins(&self, x: u32, w: u32) -> bool {
        is_set(row_of(&self.rows, x), w)
    }

    /// Whether w hears what x says.
    pub fn carries(&self, x: u32, w: u32) -> bool {
        self.joins(x, w) && !is_set(row_of(&self.deaf, x), w)
    }

    pub fn works(&self, x: u32, w: u32) -> bool {
        self.carries(x, w) && self.carries(w, x)
    }

    /// The least cost of a route from each router to one of these over links that work both ways, `CUT_OFF` if there is
    /// none. A cost counts only if it is below the ceiling of each router of the route.
    pub fn least_costs(
        &self,
        some: u32,
        ceilings: &[u32; MOST_ROUTERS],
        world: &World,
    ) -> [u32; MOST_ROUTERS] {
        let mut least = [CUT_OFF; MOST_ROUTERS];
        for (x, it) in least.iter_mut().enumerate() {
            if is_set(some, x as u32) {
                *it = 0;
            }
        }
        for _ in 0..MOST_ROUTERS {
            for x in 0..MOST_ROUTERS as u32 {
                let ceiling = ceilings.get(x as usize).copied().unwrap_or(0);
                for w in 0..MOST_ROUTERS as u32 {
                    let beyond = least.get(w as usize).copied().unwrap_or(CUT_OFF);
                    let over = beyond.saturating_add(world.cost(x, w));
                    if let Some(it) = least.get_mut(x as usize)
                        && self.works(x, w)
                        && over < ceiling
                    {
                        *it = over.min(*it);
                    }
                }
            }
        }
        least
    }

    /// The routers that are connected to one of these by links that work both ways, a bit for each.
    pub fn joined_to(&self, some: u32, routers: u32) -> u32 {
        let mut joined = some;
        for _ in 0..routers {
            for x in 0..routers {
                for w in 0..routers {
                    if is_set(joined, x) && self.works(x, w) {
                        joined |= 1u32.wrapping_shl(w);
                    }
                }
            }
        }
        joined
    }
}

pub fn is_set(bits: u32, at: u32) -> bool {
    bits.wrapping_shr(at) & 1 == 1
}

/// Of so many routers those of which this holds, a bit for each.
pub fn routers_where<F: Fn(u32) -> bool>(routers: u32, holds: F) -> u32
    requires { F.IsAlwaysCallable holds }
{
    let mut bits = 0u32;
    for x in 0..routers {
        bits |= u32::from(holds(x)).wrapping_shl(x);
    }
    bits
}

fn row_of(rows: &[u32; MOST_ROUTERS], x: u32) -> u32 {
    rows.get(x as usize).copied().unwrap_or(0)
}

fn set(rows: &mut [u32; MOST_ROUTERS], x: u32, w: u32) {
    if let Some(row) = rows.get_mut(x as usize) {
        *row |= 1u32.wrapping_shl(w);
    }
}
