//! The links of a network, read from its rows one after the other.

ghost use Rattle.std.specs.Prelude.{◌≡◌, ℕ, ◌<◌, ◌^◌, ◌∷◌, [], length, IfSome, IfNone};
ghost use Rattle.std.specs.Iterator.{YieldsFirst, item_count};
ghost use Rattle.fr_graph.specs.KeptRows.{links_in};
ghost use Rattle.fr_graph.specs.RowLists.{out_links};

use crate::first::First;
use crate::row_table::RowTable;
use std::iter::FusedIterator;
use std::marker::Model;

/// The links of a network that are left to read, by tail and then by head, as [`Net::links`](crate::Net::links) returns
/// them. It does not allocate. `len` takes O(1), and all calls of `next` together O(n + m). The value in contracts is
/// the list of the links that are left.
#[derive(Debug, Drop)]
pub struct Links<'a> {
    rows: &'a RowTable,
    // The part of the row of `next - 1` that is left, and the node whose row is read after it.
    row: &'a [(u16, First)],
    next: u32,
    left: usize,
}

impl<'a> Model for Links<'a> {
    ghost use Rattle.std.specs.Prelude.{ℕ, List};

    ghost Value = { List (ℕ × ℕ) };

    ghost use Rattle.fr_graph.specs.LinksLeft.{links_left, IsReading};

    ghost view = { links_left };

    ghost invariant = { IsReading };
}

/// The head of the first link of a row that points away from its node, and the entries after it.
fn first_outward(row: &[(u16, First)]) -> Option<(u32, &[(u16, First)])>
    ensures some { IfSome result (λ found. (x : ℕ) → out_links x row.now ≡ (x, found.0) ∷ out_links x found.1.now) }
    ensures none { IfNone result ((x : ℕ) → out_links x row.now ≡ []) }
{
    for place in 0..row.len() {
        let (w, first) = row[place];
        if first == First::Outward {
            return Some((w as u32, &row[place + 1..]));
        }
    }
    None
}

impl<'a> Links<'a> {
    /// The links that these rows contain; `count` is how many they are.
    pub(crate) fn of_rows(rows: &'a RowTable, count: usize) -> Links<'a>
        requires few { length rows.now.rows < 2 ^ 32 }
        requires counted { count ≡ length (links_in (length rows.now.rows) rows.now) }
        ensures { result ≡ links_in (length rows.now.rows) rows.now }
    {
        Links {
            rows,
            row: &[],
            next: 0,
            left: count,
        }
    }
}

impl<'a> Iterator for Links<'a> {
    type Item = (u32, u32);

    ghost next_gives = { YieldsFirst (λ s. s) };

    ghost remaining = { item_count (λ s. s) };

    fn next(&mut self) -> Option<(u32, u32)> {
        let left = self.left.checked_sub(1)?;
        let rows = self.rows;
        let mut row = self.row;
        let mut next = self.next;
        loop {
            if let Some((head, rest)) = first_outward(row) {
                *self = Links {
                    rows,
                    row: rest,
                    next,
                    left,
                };
                return Some((next - 1, head));
            }
            row = rows.row(next);
            next += 1;
        }
    }

    fn size_hint(&self) -> (usize, Option<usize>) {
        (self.left, Some(self.left))
    }
}

impl<'a> ExactSizeIterator for Links<'a> {
    fn len(&self) -> usize {
        self.left
    }
}

impl<'a> FusedIterator for Links<'a> {}
