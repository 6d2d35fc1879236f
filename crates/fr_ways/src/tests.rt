ghost use Rattle.std.specs.Prelude.{ℕ, ◌<◌, ◌^◌, List, length};
ghost use Rattle.fr_ways.specs.PushLists.{AreListed};
ghost use Rattle.fr_ways.specs.Ways.{IsInRange};

use crate::{
    PushList, Pushes, TwoPhases, WayChanges, WayTable, WaysFault, first_outside, known_phases,
    phases,
};
use std::alloc::{AllocError, Global};
use std::test::Fail;

fn table(alloc: Global, rows: &[&[u32]]) -> Result<WayTable, AllocError> {
    let mut table = WayTable::with_capacity(alloc, rows.len(), 0)?;
    for row in rows {
        table.push_row(row)?;
    }
    Ok(table)
}

fn are(pushes: &Pushes, nodes: &[u32], starts: &[usize], list: &[u32]) -> bool {
    pushes.nodes.as_slice() == nodes
        && pushes.lists.starts() == starts
        && pushes.lists.list() == list
}

/// Node 3 had ways to 5 and 2, and now has 5 and 7. Node 5 keeps its way to 2 and loses 7. Node 6 loses all. Node 7
/// gets its first way. Node 4 gets the same ways in another order. Node 1 only loses.
#[test]
fn shrinks_before_it_grows(rt: HostRuntime) -> Result<(), Fail> {
    let alloc = rt.alloc();
    let old = table(
        alloc,
        &[&[], &[0, 2], &[0], &[5, 2], &[1, 2], &[7, 2], &[1], &[]],
    )?;
    let new = table(alloc, &[&[], &[0], &[0], &[5, 7], &[2, 1], &[2], &[], &[0]])?;
    let plan = phases(alloc, &old, &new).expect(&rt, "phases");
    assert!(rt; are(&plan.shrink, &[1, 3, 5, 6], &[0, 1, 2, 3, 3], &[0, 5, 2]));
    assert!(rt; are(&plan.grow, &[3, 4, 7], &[0, 2, 4, 5], &[5, 7, 2, 1, 0]));
    let none = phases(alloc, &new, &new).expect(&rt, "phases");
    assert!(rt; are(&none.shrink, &[], &[0], &[]));
    assert!(rt; are(&none.grow, &[], &[0], &[]));
    Ok(())
}

/// A node that keeps no way comes after all that keep one, whatever its number.
#[test]
fn empties_last(rt: HostRuntime) -> Result<(), Fail> {
    let alloc = rt.alloc();
    let old = table(alloc, &[&[1, 9], &[2], &[3, 0]])?;
    let new = table(alloc, &[&[], &[], &[0]])?;
    let plan = phases(alloc, &old, &new).expect(&rt, "phases");
    assert!(rt; are(&plan.shrink, &[2, 0, 1], &[0, 1, 1, 1], &[0]));
    assert!(rt; are(&plan.grow, &[], &[0], &[]));
    Ok(())
}

fn is_cycle(answer: Result<TwoPhases, WaysFault>, cycle: &[u32]) -> bool {
    match answer {
        Err(WaysFault::Cycle(nodes)) => nodes.as_slice() == cycle,
        _ => false,
    }
}

fn is_fault(answer: Result<TwoPhases, WaysFault>, fault: WaysFault) -> bool {
    match answer {
        Err(other) => other == fault,
        Ok(_) => false,
    }
}

/// Each fault, and which comes first.
#[test]
fn refuses_bad_tables(rt: HostRuntime) -> Result<(), Fail> {
    let alloc = rt.alloc();
    let old = table(alloc, &[&[], &[0], &[0]])?;
    let short = table(alloc, &[&[], &[7]])?;
    let outside = table(alloc, &[&[], &[0, 2], &[1, 3, 4]])?;
    let cycle = table(alloc, &[&[1], &[0, 2], &[1]])?;
    let alone = table(alloc, &[&[], &[], &[0, 2]])?;
    assert!(rt; is_fault(phases(alloc, &old, &short), WaysFault::Length));
    assert!(rt; is_fault(phases(alloc, &old, &outside), WaysFault::Range(3)));
    assert!(rt; is_cycle(phases(alloc, &old, &cycle), &[0, 1]));
    assert!(rt; is_cycle(phases(alloc, &old, &alone), &[2]));
    // The old table may be any.
    let plan = phases(alloc, &outside, &old).expect(&rt, "phases");
    assert!(rt; are(&plan.shrink, &[1, 2], &[0, 1, 1], &[0]));
    assert!(rt; are(&plan.grow, &[2], &[0, 1], &[0]));
    Ok(())
}

/// The ways of a node, and of one that is not in the table.
#[test]
fn reads_rows(rt: HostRuntime) -> Result<(), Fail> {
    let alloc = rt.alloc();
    let ways = table(alloc, &[&[], &[2, 0], &[0]])?;
    assert!(rt; ways.len() == 3);
    assert!(rt; ways.row(0).is_empty());
    assert!(rt; ways.row(1) == [2, 0].as_slice());
    assert!(rt; ways.row(3).is_empty());
    assert!(rt; ways.starts() == [0, 0, 2, 3].as_slice());
    assert!(rt; ways.list() == [2, 0, 0].as_slice());
    Ok(())
}

/// Notes the nodes whose lists differ.
fn note_all(changes: &mut WayChanges, old: &WayTable, new: &WayTable) -> Result<(), AllocError>
    requires few { length new.now < 2 ^ 32 }
    requires range { IsInRange new.now }
{
    changes.make_room(new.len(), new.list().len())?;
    changes.clear();
    for x in 0..new.len() as u32 {
        let was = old.row(x);
        let now = new.row(x);
        if was != now {
            changes.note(x, was, now);
        }
    }
    changes.finish();
    Ok(())
}

fn is_same(list: PushList<'_>, other: PushList<'_>) -> bool {
    list.nodes == other.nodes && list.starts == other.starts && list.list == other.list
}

/// Whether the pushes for the differing nodes are those for the whole tables.
fn agree(
    alloc: Global,
    changes: &mut WayChanges,
    old: &WayTable,
    new: &WayTable,
) -> Result<bool, AllocError> {
    match first_outside(new) {
        None if new.len() < 100 => {
            note_all(changes, old, new)?;
            let plan = known_phases(alloc, old, new)?;
            Ok(
                is_same(changes.shrink(), plan.shrink.as_list())
                    && is_same(changes.grow(), plan.grow.as_list()),
            )
        }
        _ => Ok(false),
    }
}

/// One change after another, each with the memory of those before.
#[test]
fn changes_list_what_whole_tables_do(rt: HostRuntime) -> Result<(), Fail> {
    let alloc = rt.alloc();
    let old = table(
        alloc,
        &[&[], &[0, 2], &[0], &[5, 2], &[1, 2], &[7, 2], &[1], &[]],
    )?;
    let new = table(alloc, &[&[], &[0], &[0], &[5, 7], &[2, 1], &[2], &[], &[0]])?;
    // Ways that name no node, and nodes that are missing.
    let outside = table(alloc, &[&[], &[9, 0, 1000], &[0, 9]])?;
    // Only the order of the ways of node 1.
    let turned = table(
        alloc,
        &[&[], &[2, 0], &[0], &[5, 2], &[1, 2], &[7, 2], &[1], &[]],
    )?;
    let emptied = table(alloc, &[&[], &[], &[], &[0], &[], &[], &[], &[]])?;
    let mut changes = WayChanges::new(alloc)?;
    assert!(rt; agree(alloc, &mut changes, &old, &new)?);
    assert!(rt; changes.shrink().nodes == [1, 3, 5, 6].as_slice());
    assert!(rt; changes.shrink().list == [0, 5, 2].as_slice());
    assert!(rt; changes.grow().nodes == [3, 4, 7].as_slice());
    assert!(rt; agree(alloc, &mut changes, &new, &old)?);
    assert!(rt; agree(alloc, &mut changes, &old, &turned)?);
    assert!(rt; changes.shrink().nodes.is_empty());
    assert!(rt; changes.grow().nodes == [1].as_slice());
    assert!(rt; agree(alloc, &mut changes, &old, &emptied)?);
    assert!(rt; changes.shrink().nodes == [1, 2, 3, 4, 5, 6].as_slice());
    assert!(rt; agree(alloc, &mut changes, &outside, &old)?);
    assert!(rt; agree(alloc, &mut changes, &new, &new)?);
    assert!(rt; changes.shrink().nodes.is_empty());
    assert!(rt; changes.grow().nodes.is_empty());
    Ok(())
}

/// The list at this place, or none if there is no such place.
fn list_at<'a>(pushes: &PushList<'a>, i: usize) -> &'a [u32]
    requires { (listed : List (ℕ × List ℕ)) × AreListed listed pushes.now }
{
    if i < pushes.nodes.len() {
        pushes.row(i)
    } else {
        &[]
    }
}

/// The list of each node of a phase.
#[test]
fn reads_push_lists(rt: HostRuntime) -> Result<(), Fail> {
    let alloc = rt.alloc();
    let old = table(alloc, &[&[], &[], &[1, 0], &[2]])?;
    let new = table(alloc, &[&[], &[0], &[0], &[0, 2]])?;
    let mut changes = WayChanges::new(alloc)?;
    assert!(rt; agree(alloc, &mut changes, &old, &new)?);
    let shrink = changes.shrink();
    assert!(rt; shrink.nodes == [2].as_slice());
    assert!(rt; list_at(&shrink, 0) == [0].as_slice());
    let grow = changes.grow();
    assert!(rt; grow.nodes == [1, 3].as_slice());
    assert!(rt; list_at(&grow, 0) == [0].as_slice());
    assert!(rt; list_at(&grow, 1) == [0, 2].as_slice());
    assert!(rt; list_at(&grow, 2).is_empty());
    Ok(())
}
