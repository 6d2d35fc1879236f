//! Drawn changes of a router. After each one the router must be equal to one that is opened anew, and the pushes of ways
//! that the change lists must be those that lead from the ways before it.

use crate::routers::state_text;
use crate::telling::{put, put_word, tell};
use fr_net::{Edit, Net, Request, read_line};
use fr_route::{Change, Reroutes, Router};
use fr_ways::{PushList, Pushes, WayTable};
use rand_core::SeedableRng;
use rand_core::utils::NextWord;
use rand_pcg::Lcg64Xsh32;
use std::alloc::{AllocError, Global};

/// Makes so many changes, drawn from a seed, of a router on the network of a line, and prints whether each has the
/// result that it must have. The network has nine nodes.
pub fn tell_drawn<R: AllocGlobal + Print>(rt: &R, seed: u64, steps: u32, line: &str) -> Option<()> {
    let mut generator = Lcg64Xsh32::seed_from_u64(seed);
    let mut router = opened(rt.alloc(), line)?;
    let mut reroutes = Reroutes::none(rt.alloc()).ok()?;
    for step in 0..steps {
        let change = drawn_change(rt.alloc(), &mut generator).ok()?;
        if !changes_as_opened(rt.alloc(), &mut router, change, &mut reroutes) {
            let _ = println!(rt; "  but step {step}");
            return Some(());
        }
    }
    tell(
        rt,
        "each as opened anew, with its pushes, or refused by both",
    );
    Some(())
}

/// The router on the network of a line.
fn opened(alloc: Global, line: &str) -> Option<Router> {
    match read_line(alloc, line.as_bytes()) {
        Ok(Request::Network { nodes, dest, links }) => {
            Router::open_alone(alloc, Net::new(alloc, nodes, &links).ok()?, dest).ok()
        }
        _ => None,
    }
}

/// A change of a network of nine nodes, from the next words of a generator: most often an edit, otherwise a batch of
/// three edits or a new destination.
fn drawn_change(alloc: Global, generator: &mut Lcg64Xsh32) -> Result<Change, AllocError> {
    let kind = generator.next_word() % 8;
    let (u, v) = (generator.next_word() % 9, generator.next_word() % 9);
    Ok(match kind {
        0 | 1 => Change::Cut { u, v },
        2 | 3 => Change::Add { u, v },
        4 | 5 => Change::Join { u, v },
        6 => {
            let w = generator.next_word() % 9;
            let edits = [
                Edit::Join { u, v },
                Edit::Join { u: v, v: w },
                Edit::Cut { u, v },
            ];
            Change::Batch(edits.to_vec(alloc)?)
        }
        _ => Change::Destination { dest: u },
    })
}

/// Whether a change leaves the router in the state of one that is opened on the changed network; or, if the change is
/// impossible, it is refused and leaves the state unchanged. And whether the change lists the pushes of ways that it must.
fn changes_as_opened(
    alloc: Global,
    router: &mut Router,
    change: Change,
    reroutes: &mut Reroutes,
) -> bool {
    let anew = opened_anew(alloc, router, &change);
    let wanted = match &anew {
        Some(anew) => state_text(alloc, anew),
        None => state_text(alloc, router),
    };
    let Ok(before) = router.all_ways(alloc) else {
        return false;
    };
    let end = router.change_with_ways_alone(alloc, change, reroutes);
    end.is_ok() == anew.is_some()
        && state_text(alloc, router) == wanted
        && (end.is_err() || lists_pushes_from(alloc, router, &before, reroutes))
}

/// Whether these are the pushes that lead from a table of ways to those of the router.
fn lists_pushes_from(
    alloc: Global,
    router: &Router,
    before: &WayTable,
    reroutes: &Reroutes,
) -> bool {
    match router.phases(alloc, before) {
        Ok(phases) => {
            are_same(reroutes.shrink(), &phases.shrink) && are_same(reroutes.grow(), &phases.grow)
        }
        Err(_) => false,
    }
}

/// Whether two lists have the same pushes.
fn are_same(list: PushList<'_>, pushes: &Pushes) -> bool {
    let other = pushes.as_list();
    list.nodes == other.nodes && list.starts == other.starts && list.list == other.list
}

/// The router on the changed network of another router, if the change is possible.
fn opened_anew(alloc: Global, router: &Router, change: &Change) -> Option<Router> {
    let dest = match change {
        Change::Destination { dest } => *dest,
        _ => router.dest(),
    };
    let net = changed(alloc, router.net(), change)?;
    Router::open_alone(alloc, net, dest).ok()
}

/// The changed network, if the change is possible.
fn changed(alloc: Global, net: &Net, change: &Change) -> Option<Net> {
    match change {
        Change::Cut { u, v } => net.with_cut(alloc, *u, *v).ok(),
        Change::Add { u, v } => net.with_link(alloc, *u, *v).ok(),
        Change::Join { u, v } => net.with_join(alloc, *u, *v).ok(),
        Change::Batch(edits) => net.with_edits(alloc, edits).ok(),
        Change::Destination { .. } => net.copied(alloc).ok(),
    }
}
