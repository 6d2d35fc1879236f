//! Rows turned by counts, in place.

ghost use Rattle.std.specs.Prelude.{◌≡◌, ℕ, ◌<◌, Bool, false, length, slice_index};
ghost use Rattle.fr_graph.specs.Network.{Network};
ghost use Rattle.fr_graph.specs.TurnedRows.{ArePartTurned, all_done, is_done, none_done, seen_too};

use crate::row_table::RowTable;
use crate::turns::Turns;

/// Turns the row of `x`, which has turned, as the counts say, and the entries of `x` in the rows of neighbours that
/// have not turned.
fn turn_node(rows: &mut RowTable, x: u32, counts: &[u64])
    requires node { x < length counts.now }
    requires turned { 0 < slice_index counts.now x }
    requires rows { (net : Network) × (seen : ℕ → Bool) × (seen x ≡ false)
        × ArePartTurned net counts.now (is_done counts.now seen) rows.old }
    ensures { (net : Network) (seen : ℕ → Bool) → seen x ≡ false
        → ArePartTurned net counts.now (is_done counts.now seen) rows.old
        → ArePartTurned net counts.now (is_done counts.now (seen_too x seen)) rows.new }
{
    rows.turn_row(x, counts);
    for place in 0..rows.row(x).len() {
        let w = rows.row(x)[place].0 as u32;
        if counts[w as usize] == 0 {
            rows.reverse_entry(w, x);
        }
    }
}

/// Turns the rows as these turns say. It changes only the rows of nodes that have turned, and their entries in other
/// rows.
pub(crate) fn turn_rows(rows: &mut RowTable, turns: &Turns)
    requires rows { (net : Network) × ArePartTurned net turns.now none_done rows.old }
    ensures { (net : Network) → ArePartTurned net turns.now none_done rows.old
        → ArePartTurned net turns.now all_done rows.new }
{
    for x in turns.nodes() {
        turn_node(rows, *x, turns.counts());
    }
}
