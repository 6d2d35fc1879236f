ghost use Rattle.std.specs.Prelude.{◌≡◌, ◌<◌};
ghost use Rattle.fr_tables.specs.Pushes.{IsPushOrder};
ghost use Rattle.fr_shared.specs.HopTables.{IsTable, last_hops, padded};

use crate::hops::{Past, Publisher, Reader, WalkEnd, open};
use fr_tables::{Hop, push_order};
use std::test::Fail;
use std::thread::{Threads, join};

fn push(mut publisher: Publisher, new: &[Hop], order: &[u32]) -> Publisher
    requires table { IsTable publisher.nodes (padded publisher.nodes new.now) }
    requires order { IsPushOrder (last_hops publisher) (padded publisher.nodes new.now) order.now }
    ensures { (result.nodes ≡ publisher.nodes) × (result.table ≡ publisher.table) }
{
    publisher.push_all(new, order);
    publisher
}

/// Whether node 2 is cut off at first, and sends on to node 1 from some moment on.
fn read_often(mut reader: Reader) -> bool
    requires { 2 < reader.nodes }
{
    let mut right = true;
    let mut is_pushed = false;
    for _read in 0..10_000u32 {
        let hop = reader.hop(2);
        right = right && (hop == Hop::To(1) || (hop == Hop::CutOff && !is_pushed));
        is_pushed = hop == Hop::To(1);
    }
    right
}

fn read_beside<R: Threads + Sync>(
    rt: &R,
    publisher: Publisher,
    reader: Reader,
    new: &[Hop],
    order: &[u32],
) -> (Publisher, bool)
    requires table { IsTable publisher.nodes (padded publisher.nodes new.now) }
    requires order { IsPushOrder (last_hops publisher) (padded publisher.nodes new.now) order.now }
    requires node { 2 < reader.nodes }
    ensures { (result.0.nodes ≡ publisher.nodes) × (result.0.table ≡ publisher.table) }
{
    join(
        rt,
        move || -> Publisher
            requires table { IsTable publisher.nodes (padded publisher.nodes new.now) }
            requires order { IsPushOrder (last_hops publisher) (padded publisher.nodes new.now) order.now }
            ensures { (result.nodes ≡ publisher.nodes) × (result.table ≡ publisher.table) }
        { push(publisher, new, order) },
        move || -> bool
            requires { 2 < reader.nodes }
        { read_often(reader) },
    )
}

/// The hop of node 2 that a reader has in another thread, once it has learned what was handed there.
fn learned_beside<R: Threads + Sync>(rt: &R, mut reader: Reader, past: Past) -> Hop
    requires table { past.table ≡ reader.table }
    requires node { 2 < reader.nodes }
{
    let (hop, _) = join(
        rt,
        move || -> Hop
            requires table { past.table ≡ reader.table }
            requires node { 2 < reader.nodes }
        {
            reader.learn(past);
            reader.hop(2)
        },
        || (),
    );
    hop
}

/// Opens a table for 5 nodes, pushes the hops of 3 while another thread reads, and reads and walks it.
#[test]
fn reads_while_hops_are_pushed(rt: HostRuntime) -> Result<(), Fail> {
    let (publisher, mut reader) = open(rt.alloc(), 5)?;
    let early = reader.try_clone()?;
    let old = [Hop::CutOff, Hop::CutOff, Hop::CutOff];
    let new = [Hop::Here, Hop::To(0), Hop::To(1)];
    let order = push_order(rt.alloc(), &old, &new).expect(&rt, "a push order");
    let (mut publisher, right) = read_beside(&rt, publisher, reader, &new, order.as_slice());
    assert!(rt; right && publisher.hop(2) == Hop::To(1) && publisher.hop(4) == Hop::CutOff);
    let past = publisher.past();
    assert!(rt; learned_beside(&rt, early, past) == Hop::To(1));
    let mut other = publisher.reader()?;
    assert!(rt; other.hop(0) == Hop::Here && other.hop(1) == Hop::To(0));
    let mut room = [9, 9, 9];
    let walk = other.walk(2, &mut room);
    assert!(rt; walk.count == 2 && walk.end == WalkEnd::Arrived && room == [1, 0, 9]);
    let walk = other.walk(2, &mut room[..1]);
    assert!(rt; walk.count == 1 && walk.end == WalkEnd::Longer);
    let walk = other.walk(3, &mut room);
    assert!(rt; walk.count == 0 && walk.end == WalkEnd::CutOff);
    Ok(())
}
