//! The rows of a network with one link removed or added, changed in place.

ghost use Rattle.std.specs.Prelude.{◌≡◌, ℕ, ◌<◌, ◌≤◌, ◌++◌, [], ◌∷◌, length, map, insert, remove, Contains};
ghost use Rattle.std.specs.List.Sorted.{IsStrictlyIncreasing};
ghost use Rattle.fr_graph.specs.Network.{Network};
ghost use Rattle.fr_graph.specs.Edits.{without};
ghost use Rattle.fr_graph.specs.Halves.{IsPlaceIn};
ghost use Rattle.fr_graph.specs.KeptRows.{AreRows, ShowsLink, ShowsNoLink};
ghost use Rattle.fr_graph.specs.Limits.{most_nodes};
ghost use Rattle.fr_graph.specs.Tables.{HasRoomIn, HaveRoom, row_of, with_row};

use crate::first::First;
use crate::row::place_in_row;
use crate::row_table::RowTable;

/// Removes the entry of `w` from the row of `x`. There must be one.
fn remove_entry(rows: &mut RowTable, x: u32, w: u32)
    requires row { x < length rows.old.rows }
    requires rising { IsStrictlyIncreasing (map (λ (e : ℕ × First). e.0) (row_of rows.old x)) }
    requires stands { Contains (map (λ (e : ℕ × First). e.0) (row_of rows.old x)) w }
    ensures { (place : ℕ) × IsPlaceIn (row_of rows.old x) w place
        × (rows.new ≡ with_row rows.old x (remove (row_of rows.old x) place)) }
{
    let place = place_in_row(rows.row(x), w);
    rows.remove(x, place);
}

/// Removes the link between two nodes, whichever way it points, from the rows of both.
pub(crate) fn remove_link_from_rows(rows: &mut RowTable, u: u32, v: u32)
    requires { (net : Network) × ShowsLink net u v rows.old }
    ensures rows { (net : Network) → ShowsLink net u v rows.old → AreRows net.nodes (without u v net.links) rows.new }
    ensures rooms { rows.new.rooms ≡ rows.old.rooms }
{
    remove_entry(rows, u, v);
    remove_entry(rows, v, u);
}

/// Inserts an entry for `w` at its place in the row of `x`, which must have room for it.
fn insert_entry(rows: &mut RowTable, x: u32, w: u32, first: First)
    requires row { x < length rows.old.rows }
    requires rising { IsStrictlyIncreasing (map (λ (e : ℕ × First). e.0) (row_of rows.old x)) }
    requires few { w < most_nodes }
    requires room { HasRoomIn rows.old x }
    ensures { (place : ℕ) × IsPlaceIn (row_of rows.old x) w place
        × (rows.new ≡ with_row rows.old x (insert (row_of rows.old x) place (w, first))) }
{
    let place = place_in_row(rows.row(x), w);
    rows.insert(x, place, (w as u16, first));
}

/// Inserts a link in the rows of both its ends. No link may join them yet, and both rows must have room.
pub(crate) fn insert_link_in_rows(rows: &mut RowTable, tail: u32, head: u32)
    requires shown { (net : Network) × ShowsNoLink net tail head rows.old }
    requires few { length rows.old.rows ≤ most_nodes }
    requires room { HaveRoom rows.old tail head }
    ensures rows { (net : Network) → ShowsNoLink net tail head rows.old
        → AreRows net.nodes (net.links ++ (tail, head) ∷ []) rows.new }
    ensures rooms { rows.new.rooms ≡ rows.old.rooms }
{
    insert_entry(rows, tail, head, First::Outward);
    insert_entry(rows, head, tail, First::Inward);
}
