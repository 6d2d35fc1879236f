//! How the routers of a world raise and lower their heights.

use crate::draws::Draws;
use crate::links::MOST_COST;
use fr_node::{Policy, Rise};

#[derive(Clone, Copy, Debug)]
pub enum Kind {
    /// All have this policy.
    Same(Policy),
    /// Full reversal without `lower`.
    Full,
    /// Full reversal with `lower`.
    Lowering,
    /// Routes of least cost, with a ceiling above all costs.
    Top,
    /// The same with a ceiling that is too low.
    LowCeiling,
    /// Routes of least cost, each router with a ceiling of its own.
    Ceilings,
    /// Any policies and ceilings.
    Mixed,
}

/// What is promised of a history.
#[derive(Clone, Copy, Debug)]
pub enum Promise {
    /// That routers use no loop.
    NoLoop,
    /// Besides, routers that are connected to a gateway come to rest, and are served then.
    Served,
    /// Besides, none of them announces more heights than there are links on a path to a gateway, and announcements that
    /// were not heard along it.
    Bounded,
    /// All routers come to rest, and those that are connected to a gateway are served then.
    AllRest,
    /// All routers come to rest. Those with a route to a gateway are served then, over a route of least cost, and those
    /// that are not connected to a gateway know it.
    Shortest,
}

impl Kind {
    /// The policy of one of so many routers.
    pub fn policy(self, draws: &mut Draws, routers: u32) -> Policy {
        let wait = draws.below(2) == 1;
        match self {
            Kind::Same(policy) => policy,
            Kind::Full => Policy {
                rise: Rise::Full,
                lower: false,
                wait,
            },
            Kind::Lowering => Policy {
                rise: Rise::Full,
                lower: true,
                wait,
            },
            Kind::Top => Policy {
                rise: Rise::Top(routers.saturating_mul(MOST_COST)),
                lower: false,
                wait,
            },
            Kind::LowCeiling => Policy {
                rise: Rise::Top(1),
                lower: false,
                wait,
            },
            Kind::Ceilings => Policy {
                rise: Rise::Top(draws.below(30)),
                lower: false,
                wait,
            },
            Kind::Mixed => Policy {
                rise: if draws.below(2) == 1 {
                    Rise::Full
                } else {
                    Rise::Top(draws.below(20))
                },
                lower: draws.below(2) == 1,
                wait,
            },
        }
    }
}
