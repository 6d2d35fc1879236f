ghost use Rattle.std.specs.Prelude.{◌≡◌, ◌<◌};

use crate::{PublishedSession, WayReader};
use fr_route::{Change, Hop};
use std::alloc::Global;
use std::test::Fail;

/// One reader reads the hops of two networks, and of changes between them.
#[test]
fn a_reader_outlives_a_network(rt: HostRuntime) -> Result<(), Fail> {
    let mut session = PublishedSession::new(rt.alloc());
    let mut reader = session.reader(rt.alloc())?;
    session.table_law();
    assert!(rt; reader.hop(2) == Hop::CutOff && reader.hop(4095) == Hop::CutOff);
    session
        .answer_line(rt.alloc(), b"[\"net\",3,0,[[1,0],[2,1],[2,0]]]")
        .expect(&rt, "an answer");
    assert!(rt; reader.hop(0) == Hop::Here && reader.hop(2) == Hop::To(0));
    session
        .answer_line(rt.alloc(), b"[\"cut\",2,0]")
        .expect(&rt, "an answer");
    assert!(rt; reader.hop(2) == Hop::To(1));
    session
        .answer_line(rt.alloc(), b"[\"net\",2,1,[[0,1]]]")
        .expect(&rt, "an answer");
    let mut other = session.reader(rt.alloc())?;
    session.table_law();
    assert!(rt;
        reader.hop(0) == Hop::To(1) && reader.hop(2) == Hop::CutOff && other.hop(1) == Hop::Here
    );
    Ok(())
}

/// One reader reads the ways in two networks, and after changes between them.
#[test]
fn a_reader_of_ways_outlives_a_network(rt: HostRuntime) -> Result<(), Fail> {
    let mut session = PublishedSession::new(rt.alloc());
    let mut reader = session.way_reader(rt.alloc())?;
    session.table_law();
    assert!(rt; reader.way(2, 0) == None && reader.way(4095, 7) == None);
    session
        .answer_line(rt.alloc(), b"[\"net\",3,0,[[1,0],[2,1],[2,0]]]")
        .expect(&rt, "an answer");
    let mut list = [9; 5];
    assert!(rt; reader.ways(2, &mut list) == 2 && list == [0, 1, 9, 9, 9]);
    assert!(rt; reader.way(2, 1) == Some(1) && reader.way(1, 1) == Some(0));
    session
        .answer_line(rt.alloc(), b"[\"cut\",2,0]")
        .expect(&rt, "an answer");
    assert!(rt; reader.way(2, 0) == Some(1) && reader.way(2, 1) == Some(1));
    session
        .answer_line(rt.alloc(), b"[\"net\",2,1,[[0,1]]]")
        .expect(&rt, "an answer");
    let mut other = session.way_reader(rt.alloc())?;
    session.table_law();
    assert!(rt; reader.way(0, 3) == Some(1) && reader.way(2, 0) == None && other.way(1, 0) == None);
    Ok(())
}

/// Whether a reader reads these ways of node `x`, and no others.
fn has_ways(reader: &mut WayReader, x: u32, ways: &[u32]) -> bool
    requires { x < reader.old.nodes }
    ensures { reader.new.nodes ≡ reader.old.nodes }
{
    let mut list = [0; 5];
    let count = reader.ways(x, &mut list);
    list.get(..count) == Some(ways)
}

/// How many nodes are cut off after a change; `None` if it is refused.
fn cut_by(alloc: Global, session: &mut PublishedSession, change: Change) -> Option<u64> {
    let report = session.change(alloc, change)?.ok()?;
    Some(report.cut)
}

/// Whether a line has an answer, or is blank.
fn answers(alloc: Global, session: &mut PublishedSession, line: &[u8]) -> bool {
    session.answer_line(alloc, line).is_ok()
}

/// The nodes that lose a link shrink, and those that turn get other ways. A node that is cut off has none until it is
/// joined again.
fn follows_changes(alloc: Global, session: &mut PublishedSession, reader: &mut WayReader) -> bool
    requires { 4 < reader.old.nodes }
{
    let line = b"[\"net\",5,0,[[1,0],[2,0],[3,1],[3,2],[4,3]]]";
    let opened = answers(alloc, session, line) & has_ways(reader, 3, &[1, 2]);
    // Node 1 turns.
    let one_turns = (cut_by(alloc, session, Change::Cut { u: 1, v: 0 }) == Some(0))
        & has_ways(reader, 1, &[3])
        & has_ways(reader, 2, &[0])
        & has_ways(reader, 3, &[2]);
    // Only the destination is left.
    let none_left = (cut_by(alloc, session, Change::Cut { u: 2, v: 0 }) == Some(4))
        & has_ways(reader, 1, &[])
        & has_ways(reader, 3, &[])
        & has_ways(reader, 4, &[]);
    // Nodes 1, 2 and 3 turn.
    let joined = (cut_by(alloc, session, Change::Join { u: 4, v: 0 }) == Some(0))
        & has_ways(reader, 1, &[3])
        & has_ways(reader, 2, &[3])
        & has_ways(reader, 3, &[4])
        & has_ways(reader, 4, &[0]);
    opened & one_turns & none_left & joined
}

#[test]
fn a_reader_of_ways_follows_changes(rt: HostRuntime) -> Result<(), Fail> {
    let mut session = PublishedSession::new(rt.alloc());
    let mut reader = session.way_reader(rt.alloc())?;
    session.table_law();
    assert!(rt; follows_changes(rt.alloc(), &mut session, &mut reader));
    Ok(())
}

/// `change` and `change_with_ways` take turns, and only the second keeps its pushes. A refused change pushes nothing.
fn follows_both_calls(alloc: Global, session: &mut PublishedSession, reader: &mut WayReader) -> bool
    requires { 3 < reader.old.nodes }
{
    let line = b"[\"net\",4,0,[[1,0],[2,1],[3,2]]]";
    let opened = answers(alloc, session, line) & has_ways(reader, 3, &[2]);
    let added = (cut_by(alloc, session, Change::Add { u: 3, v: 0 }) == Some(0))
        & has_ways(reader, 3, &[0, 2])
        & session.grow().nodes.is_empty();
    let kept = session
        .change_with_ways(alloc, Change::Add { u: 3, v: 1 })
        .is_some()
        & has_ways(reader, 3, &[0, 1, 2])
        & (session.grow().nodes == [3].as_slice())
        & (session.grow().list == [0, 1, 2].as_slice());
    // The destination moves, and nodes 0 and 1 turn.
    let moved = (cut_by(alloc, session, Change::Destination { dest: 2 }) == Some(0))
        & has_ways(reader, 0, &[3])
        & has_ways(reader, 1, &[2, 3, 0])
        & has_ways(reader, 2, &[])
        & has_ways(reader, 3, &[2])
        & (session.grow().nodes == [3].as_slice())
        & session.shrink().nodes.is_empty();
    let refused = cut_by(alloc, session, Change::Cut { u: 2, v: 0 }).is_none()
        & has_ways(reader, 1, &[2, 3, 0]);
    opened & added & kept & moved & refused
}

#[test]
fn a_reader_of_ways_follows_both_calls(rt: HostRuntime) -> Result<(), Fail> {
    let mut session = PublishedSession::new(rt.alloc());
    let mut reader = session.way_reader(rt.alloc())?;
    session.table_law();
    assert!(rt; follows_both_calls(rt.alloc(), &mut session, &mut reader));
    Ok(())
}

/// Node 8 has seven ways, and readers read the first five. Then the others come up, at last by a line.
fn reads_five(alloc: Global, session: &mut PublishedSession, reader: &mut WayReader) -> bool
    requires { 8 < reader.old.nodes }
    ensures { reader.new.nodes ≡ reader.old.nodes }
{
    let line =
        b"[\"net\",9,0,[[1,0],[2,0],[3,0],[4,0],[5,0],[6,0],[7,0],[8,1],[8,2],[8,3],[8,4],[8,5],[8,6],[8,7]]]";
    let opened = answers(alloc, session, line) & has_ways(reader, 8, &[1, 2, 3, 4, 5]);
    let past = (cut_by(alloc, session, Change::Cut { u: 8, v: 7 }) == Some(0))
        & has_ways(reader, 8, &[1, 2, 3, 4, 5]);
    let next = (cut_by(alloc, session, Change::Cut { u: 1, v: 8 }) == Some(0))
        & has_ways(reader, 8, &[2, 3, 4, 5, 6]);
    let batch = answers(
        alloc,
        session,
        b"[\"batch\",[[\"cut\",8,2],[\"cut\",8,3],[\"add\",8,0]]]",
    ) & has_ways(reader, 8, &[0, 4, 5, 6]);
    opened & past & next & batch
}

/// Then a question, a refused line and a blank line leave the table as it is. A new network has fewer nodes.
fn follows_lines(alloc: Global, session: &mut PublishedSession, reader: &mut WayReader) -> bool
    requires { 8 < reader.old.nodes }
{
    let left = answers(alloc, session, b"[\"ways\"]")
        & answers(alloc, session, b"[\"cut\",8,1]")
        & answers(alloc, session, b" ")
        & has_ways(reader, 8, &[0, 4, 5, 6]);
    let fewer = answers(alloc, session, b"[\"net\",3,2,[[0,2],[1,0],[1,2]]]")
        & has_ways(reader, 8, &[])
        & has_ways(reader, 1, &[2, 0]);
    let last = (cut_by(alloc, session, Change::Cut { u: 1, v: 2 }) == Some(0))
        & has_ways(reader, 1, &[0])
        & has_ways(reader, 0, &[2]);
    left & fewer & last
}

#[test]
fn a_reader_of_ways_reads_five(rt: HostRuntime) -> Result<(), Fail> {
    let mut session = PublishedSession::new(rt.alloc());
    let mut reader = session.way_reader(rt.alloc())?;
    session.table_law();
    assert!(rt; reads_five(rt.alloc(), &mut session, &mut reader));
    assert!(rt; follows_lines(rt.alloc(), &mut session, &mut reader));
    Ok(())
}
