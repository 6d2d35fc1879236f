//! Work in one row: finding the place of a neighbour, turning all entries, reversing one of them.

ghost use Rattle.std.specs.Prelude.{◌≡◌, ℕ, ◌<◌, ◌≤◌, length, map, slice_index_or, All, Contains};
ghost use Rattle.std.specs.List.Sorted.{IsNonDecreasingBy, IsStrictlyIncreasing};
ghost use Rattle.fr_graph.specs.RowLists.{turned_entry};
ghost use Rattle.fr_graph.specs.TurnedRows.{reversed_at};

use crate::first::First;

/// The first place in the row whose neighbour is not less than `w`. The row must be sorted by neighbour.
pub(crate) fn place_in_row(row: &[(u16, First)], w: u32) -> usize
    requires { IsNonDecreasingBy (λ (e : ℕ × First). e.0) row.now }
    ensures inside { result ≤ length row.now }
    ensures before { (k : ℕ) (d : ℕ × First) → k < result → (slice_index_or row.now k d).0 < w }
    ensures stops { (k : ℕ) (d : ℕ × First) → result ≤ k → k < length row.now → w ≤ (slice_index_or row.now k d).0 }
{
    row.partition_point(|entry| (entry.0 as u32) < w)
}

/// An entry of the row of `x`, turned as the counts say.
fn entry_after_turns(entry: (u16, First), x: u32, counts: &[u64]) -> (u16, First)
    requires node { x < length counts.now }
    requires neighbour { entry.0 < length counts.now }
    ensures { result ≡ turned_entry counts.now x entry }
{
    let (w, first) = entry;
    if counts[w as usize] == counts[x as usize] {
        entry
    } else {
        (w, first.opposite())
    }
}

/// Turns each link of the row of `x` as the counts say.
pub(crate) fn turn_row(row: &mut [(u16, First)], x: u32, counts: &[u64])
    requires node { x < length counts.now }
    requires below { All (λ (e : ℕ × First). e.0 < length counts.now) row.old }
    ensures { row.new ≡ map (turned_entry counts.now x) row.old }
{
    for entry in row.iter_mut() {
        *entry = entry_after_turns(*entry, x, counts);
    }
}

/// Reverses the entry of `w` in the row. There must be one.
pub(crate) fn reverse_entry(row: &mut [(u16, First)], w: u32)
    requires rising { IsStrictlyIncreasing (map (λ (e : ℕ × First). e.0) row.old) }
    requires stands { Contains (map (λ (e : ℕ × First). e.0) row.old) w }
    ensures { row.new ≡ map (reversed_at w) row.old }
{
    let place = place_in_row(row, w);
    let (neighbour, first) = row[place];
    row[place] = (neighbour, first.opposite());
}
