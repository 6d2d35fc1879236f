//! What to push in two phases, from the ways that routers hold to those of a session.

ghost use Rattle.std.specs.Prelude.{◌≡◌, ◌≤◌, ◌⊎◌, ◌↔◌, List, None, ℕ, IfErr, IfOk};
ghost use Rattle.fr_ways.specs.PushLists.{AreListed};
ghost use Rattle.revroute_c.specs.Phases.{ArePushesOf, HoldNoTable, IsPlannedFor, numbers_of};
ghost use Rattle.revroute_c.specs.Replies.{outcome, GivesList};

use crate::replies::hand_out;
use crate::statuses::{ANSWERED, NO_MEMORY, NO_NETWORK, NO_TABLE, TOO_SHORT};
use fr_route::Session;
use fr_ways::{PushList, TwoPhases, WayTable, WaysFault};
use std::alloc::{AllocError, Global};

/// One of the two phases in which ways are pushed.
#[derive(Clone, Copy)]
pub(crate) enum Phase {
    Shrink,
    Grow,
}

/// What a caller asks for: the pushes of a phase, from a table of ways. The table has where the ways of each node begin,
/// and the ways of all nodes.
#[derive(Drop)]
pub(crate) struct PhaseRequest<'a> {
    pub(crate) phase: Phase,
    pub(crate) starts: &'a [usize],
    pub(crate) ways: &'a [u32],
}

/// The two phases from the table to the ways of the session, or the status that says why there are none.
fn phases_from(session: &Session, alloc: Global, asked: &PhaseRequest<'_>) -> Result<TwoPhases, u32>
    ensures phases { IfOk result (IsPlannedFor session.now asked.now.starts.now asked.now.ways.now) }
    ensures no_network { IfErr result (λ status. (status ≡ NO_NETWORK) ↔ (session.now ≡ None)) }
    ensures no_table { IfErr result
        (λ status. status ≡ NO_TABLE → HoldNoTable session.now asked.now.starts.now asked.now.ways.now) }
    ensures no_memory { IfErr result (λ status. status ≡ NO_MEMORY
        → ¬ HoldNoTable session.now asked.now.starts.now asked.now.ways.now) }
    ensures status { IfErr result (λ status. (status ≡ NO_NETWORK) ⊎ (status ≡ NO_TABLE) ⊎ (status ≡ NO_MEMORY)) }
{
    let Some(router) = session.router() else {
        return Err(NO_NETWORK);
    };
    if asked.starts.len() != router.net().nodes() as usize + 1 {
        return Err(NO_TABLE);
    }
    let Ok(table) = WayTable::from_rows(alloc, asked.starts, asked.ways) else {
        return Err(NO_MEMORY);
    };
    let Some(table) = table else {
        return Err(NO_TABLE);
    };
    match router.phases(alloc, &table) {
        Ok(phases) => Ok(phases),
        Err(WaysFault::Memory) => Err(NO_MEMORY),
        Err(WaysFault::Length | WaysFault::Range(_) | WaysFault::Cycle(_)) => unreachable!(),
    }
}

/// The pushes of a phase as numbers: for each push its node, how many ways the node gets, and these ways. Fails also for
/// more ways of a node than fit into a number. No network has so many.
fn numbers_of_pushes(alloc: Global, list: &PushList<'_>) -> Result<Vec<u32>, AllocError>
    requires { (pushes : List (ℕ × List ℕ)) × AreListed pushes list.now }
    ensures { IfOk result (λ numbers. (pushes : List (ℕ × List ℕ)) → AreListed pushes list.now
        → numbers.items ≡ numbers_of pushes) }
{
    let room = list.nodes.len().saturating_mul(2);
    let room = room.saturating_add(list.list.len());
    let mut numbers = Vec::with_capacity(alloc, room)?;
    for k in 0..list.nodes.len() {
        let ways = list.row(k);
        if ways.len() > u32::MAX as usize {
            return Err(AllocError);
        }
        numbers.push(list.nodes[k])?;
        numbers.push(ways.len() as u32)?;
        numbers.extend_from_slice(ways)?;
    }
    Ok(numbers)
}

/// Writes these pushes as numbers.
pub(crate) fn hand_out_pushes(
    alloc: Global,
    list: &PushList<'_>,
    place: &mut [u32],
    size: &mut usize,
) -> u32
    requires listed { (pushes : List (ℕ × List ℕ)) × AreListed pushes list.now }
    requires size { size.old ≡ 0 }
    ensures gives { (pushes : List (ℕ × List ℕ)) → AreListed pushes list.now
        → GivesList (λ numbers. numbers ≡ numbers_of pushes) (outcome result place.old place.new size.new) }
    ensures status { (result ≡ ANSWERED) ⊎ (result ≡ TOO_SHORT) ⊎ (result ≡ NO_MEMORY) }
{
    match numbers_of_pushes(alloc, list) {
        Ok(numbers) => hand_out(&numbers, place, size),
        Err(_memory) => NO_MEMORY,
    }
}

/// Writes the pushes that the caller asks for. `size` must be 0.
pub(crate) fn write_way_pushes(
    session: &Session,
    alloc: Global,
    asked: &PhaseRequest<'_>,
    pushes: &mut [u32],
    size: &mut usize,
) -> u32
    requires { size.old ≡ 0 }
    ensures gives { GivesList (ArePushesOf asked.now session.now)
        (outcome result pushes.old pushes.new size.new) }
    ensures no_network { (result ≡ NO_NETWORK) ↔ (session.now ≡ None) }
    ensures no_table { result ≡ NO_TABLE
        → HoldNoTable session.now asked.now.starts.now asked.now.ways.now }
    ensures no_memory { result ≡ NO_MEMORY
        → ¬ HoldNoTable session.now asked.now.starts.now asked.now.ways.now }
    ensures status { (result ≡ ANSWERED) ⊎ ((TOO_SHORT ≤ result) × (result ≤ NO_NETWORK)) ⊎ (result ≡ NO_TABLE) }
{
    let phases = match phases_from(session, alloc, asked) {
        Ok(phases) => phases,
        Err(status) => return status,
    };
    match asked.phase {
        Phase::Shrink => hand_out_pushes(alloc, &phases.shrink.as_list(), pushes, size),
        Phase::Grow => hand_out_pushes(alloc, &phases.grow.as_list(), pushes, size),
    }
}
