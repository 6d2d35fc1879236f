ghost use Rattle.std.specs.Prelude.{◌≡◌, ◌<◌, ℕ, All, IfOk};
ghost use Rattle.fr_ways.specs.Ways.{Sends};
ghost use Rattle.fr_shared.specs.WayTables.{IsTable};

use crate::ways::{FirstWays, Past, Publisher, Reader, open};
use std::alloc::{AllocError, Global};
use std::test::Fail;
use std::thread::{Threads, join};

/// A table of 8 nodes without ways.
fn blank(alloc: Global) -> Result<FirstWays, AllocError>
    ensures { IfOk result (λ table. IsTable 8 table × ((y z : ℕ) → Sends table y z → z < y)) }
{
    let table = FirstWays::new(alloc, 8)?;
    Ok(table)
}

/// Gives a node ways to nodes with lower numbers. So the table has no cycle.
fn set(table: &mut FirstWays, x: u32, ways: &[u32])
    requires node { x < 8 }
    requires lower { All (λ (y : ℕ). y < x) ways.now }
    requires table { IsTable 8 table.old × ((y z : ℕ) → Sends table.old y z → z < y) }
    ensures { IsTable 8 table.new × ((y z : ℕ) → Sends table.new y z → z < y) }
{
    table.set(x, ways);
}

fn push(mut publisher: Publisher, new: &FirstWays) -> Publisher
    requires { IsTable publisher.nodes new.now }
    ensures { (result.nodes ≡ publisher.nodes) × (result.table ≡ publisher.table) }
{
    publisher.push_phases(new);
    publisher
}

/// Whether node 2 has no way at first, and the ways 1 and 0 from some moment on.
fn read_often(mut reader: Reader) -> bool
    requires { 2 < reader.nodes }
{
    let mut right = true;
    let mut are_pushed = false;
    for _read in 0..10_000u32 {
        let mut list = [9; 5];
        let count = reader.ways(2, &mut list);
        right = right
            && ((count == 2 && list == [1, 0, 9, 9, 9])
                || (count == 0 && list == [9, 9, 9, 9, 9] && !are_pushed));
        are_pushed = count == 2;
    }
    right
}

fn read_beside<R: Threads + Sync>(
    rt: &R,
    publisher: Publisher,
    reader: Reader,
    new: &FirstWays,
) -> (Publisher, bool)
    requires table { IsTable publisher.nodes new.now }
    requires node { 2 < reader.nodes }
    ensures { (result.0.nodes ≡ publisher.nodes) × (result.0.table ≡ publisher.table) }
{
    join(
        rt,
        move || -> Publisher
            requires { IsTable publisher.nodes new.now }
            ensures { (result.nodes ≡ publisher.nodes) × (result.table ≡ publisher.table) }
        { push(publisher, new) },
        move || -> bool
            requires { 2 < reader.nodes }
        { read_often(reader) },
    )
}

/// The way that a reader in another thread chooses for node 2, once it has learned what was handed there.
fn learned_beside<R: Threads + Sync>(rt: &R, mut reader: Reader, past: Past) -> Option<u32>
    requires table { past.table ≡ reader.table }
    requires node { 2 < reader.nodes }
{
    let (way, _) = join(
        rt,
        move || -> Option<u32>
            requires table { past.table ≡ reader.table }
            requires node { 2 < reader.nodes }
        {
            reader.learn(past);
            reader.way(2, 5)
        },
        || (),
    );
    way
}

/// Opens a table for 8 nodes, pushes ways while another thread reads them, and then others in their place.
#[test]
fn reads_while_ways_are_pushed(rt: HostRuntime) -> Result<(), Fail> {
    let (publisher, mut reader) = open(rt.alloc(), 8)?;
    let early = reader.try_clone()?;
    let mut new = blank(rt.alloc())?;
    set(&mut new, 1, &[0]);
    set(&mut new, 2, &[1, 0]);
    set(&mut new, 7, &[6, 5, 4, 3, 2, 1]);
    let (mut publisher, right) = read_beside(&rt, publisher, reader, &new);
    assert!(rt; right);
    let past = publisher.past();
    assert!(rt; learned_beside(&rt, early, past) == Some(0));
    let mut other = publisher.reader()?;
    let mut list = [9; 5];
    assert!(rt; other.ways(7, &mut list) == 5 && list == [6, 5, 4, 3, 2]);
    assert!(rt; other.ways(1, &mut list) == 1 && list == [0, 5, 4, 3, 2]);
    assert!(rt;
        other.way(2, 0) == Some(1) && other.way(2, 1) == Some(0) && other.way(2, 2) == Some(1)
    );
    assert!(rt; other.way(7, 4_294_967_295) == Some(6) && other.way(0, 3) == None);
    set(&mut new, 2, &[0]);
    set(&mut new, 3, &[2, 1]);
    set(&mut new, 7, &[]);
    publisher.push_phases(&new);
    assert!(rt;
        other.way(2, 1) == Some(0) && other.way(3, 1) == Some(1) && other.way(7, 0) == None
    );
    Ok(())
}
