//! What a change does to the ways of nodes, which a session keeps for questions.

ghost use Rattle.std.specs.Prelude.{◌≡◌, ◌≢◌, ◌≤◌, ◌↔◌, ◌+◌, ◌++◌, [], IfOk, IfSome, IsTrue, None, OnErr, OnOk, Some, false};
ghost use Rattle.std.specs.Prelude.{length, slice_get, string_bytes, vec_capacity};
ghost use Rattle.fr_readers.specs.Answers.{ChangesRouter};
ghost use Rattle.fr_readers.specs.Inside.{pushes_in};
ghost use Rattle.fr_route.specs.Changes.{MayLackMemory};
ghost use Rattle.fr_route.specs.Reroutes.{TellsRerouted};
ghost use Rattle.fr_route.specs.WayPushes.{AreWayChanges};
ghost use Rattle.fr_ways.specs.PushLists.{AreListed};

use fr_graph::MAX_EDITS;
use fr_route::{AnswerFault, Change, NotMade, Report, Reroutes, Router};
use fr_ways::PushList;
use std::alloc::{AllocError, Global};

/// Whether a change has no fault that is tested without memory.
fn passes_early_tests(router: &Router, change: &Change) -> bool
    ensures { IsTrue result ↔ MayLackMemory router.now change.now }
{
    match change {
        Change::Batch(edits) => edits.len() <= MAX_EDITS,
        Change::Destination { dest } => *dest < router.net().nodes(),
        Change::Cut { .. } => true,
        Change::Add { .. } => true,
        Change::Join { .. } => true,
    }
}

/// Takes the memory for the reroutes of a change, which cannot fail once it is made: that of their notes, and room for
/// this many nodes in the list.
fn make_room(
    alloc: Global,
    nodes: u32,
    rerouted: &mut Vec<u32>,
    reroutes: &mut Option<Reroutes>,
) -> Result<(), AllocError>
    ensures some { OnOk result (reroutes.new ≢ None) }
    ensures room { OnOk result (nodes ≤ vec_capacity rerouted.new) }
    ensures list { rerouted.new.items ≡ rerouted.old.items }
    ensures pushes { pushes_in reroutes.new ≡ pushes_in reroutes.old }
{
    rerouted.reserve((nodes as usize).saturating_sub(rerouted.len()))?;
    if reroutes.is_none() {
        *reroutes = Some(Reroutes::none(alloc)?);
    }
    Ok(())
}

/// Appends these nodes to a list, which has room for them.
pub(crate) fn push_nodes(list: &mut Vec<u32>, nodes: &[u32])
    requires { length list.old.items + length nodes.now ≤ vec_capacity list.old }
    ensures items { list.new.items ≡ list.old.items ++ nodes.now }
    ensures room { vec_capacity list.new ≡ vec_capacity list.old }
{
    for x in nodes {
        list.push_reserved(*x);
    }
}

/// No pushes.
fn empty_pushes() -> PushList<'static>
    ensures { AreListed [] result }
{
    PushList {
        nodes: &[],
        starts: &[0],
        list: &[],
    }
}

/// The first phase of these reroutes; nothing if there are none.
pub(crate) fn shrink_of(reroutes: &Option<Reroutes>) -> PushList<'_>
    ensures { AreListed (pushes_in reroutes.now).shrink result }
{
    match reroutes {
        Some(reroutes) => reroutes.shrink(),
        None => empty_pushes(),
    }
}

/// Their second phase.
pub(crate) fn grow_of(reroutes: &Option<Reroutes>) -> PushList<'_>
    ensures { AreListed (pushes_in reroutes.now).grow result }
{
    match reroutes {
        Some(reroutes) => reroutes.grow(),
        None => empty_pushes(),
    }
}

/// Changes a router, lists the nodes that this reroutes, and notes what it does to the ways of nodes.
pub(crate) fn change_and_note(
    alloc: Global,
    router: &mut Router,
    change: Change,
    rerouted: &mut Vec<u32>,
    reroutes: &mut Option<Reroutes>,
) -> Result<Report, NotMade>
    ensures changes { ChangesRouter router.old change result router.new }
    ensures told { TellsRerouted router.old result router.new rerouted.old.items rerouted.new.items }
    ensures ways { IfOk result (λ _. AreWayChanges router.old router.new
        (pushes_in reroutes.new).shrink (pushes_in reroutes.new).grow) }
    ensures kept { OnErr result (pushes_in reroutes.new ≡ pushes_in reroutes.old) }
{
    if !passes_early_tests(router, &change) {
        // This refuses it.
        return router.change_telling_alone(alloc, change, rerouted);
    }
    make_room(alloc, router.net().nodes(), rerouted, reroutes)?;
    let Some(noted) = reroutes else {
        unreachable!()
    };
    let report = router.change_with_ways_alone(alloc, change, noted)?;
    rerouted.clear();
    push_nodes(rerouted, noted.nodes());
    Ok(report)
}

/// Whether an answer to a line reports a round. A report is the only answer that begins with a `t`, and every other
/// answer leaves the session unchanged.
pub(crate) fn is_round_report(answer: &Result<Option<String>, AnswerFault>) -> bool
    ensures { result ≡ false → IfOk answer.now
        (λ answer. IfSome answer (λ text. slice_get (string_bytes text) 0 ≢ Some 116)) }
{
    match answer {
        Ok(Some(text)) => text.as_bytes().first() == Some(&b't'),
        _ => false,
    }
}
