//! A table of ways: the ways of all nodes in one list.

ghost use Rattle.std.specs.Prelude.{◌≡◌, ◌+◌, ◌++◌, ◌↔◌, [], ◌∷◌, IfErr, IfOk, IsTrue, List, MatchOption, OnErr, OnOk, length, ℕ};
ghost use Rattle.std.specs.List.{concat};
ghost use Rattle.fr_ways.specs.Rows.{AreBounds, AreStarts, IsLaidOut};
ghost use Rattle.fr_ways.specs.Ways.{ways};

use std::alloc::{AllocError, Global};
use std::marker::Model;

/// The ways of each node: the nodes to which it may send on. The value in contracts is a list of lists, one for each
/// node.
///
/// All ways lie in one list, in compressed sparse rows, so other languages can read [`WayTable::starts`] and
/// [`WayTable::list`] as they are.
#[derive(Debug, Drop)]
pub struct WayTable {
    // Where the ways of each node begin, and after the last node the length of the list.
    starts: Vec<usize>,
    list: Vec<u32>,
}

impl Model for WayTable {
    ghost use Rattle.std.specs.Prelude.{ℕ, List};

    ghost Value = { List (List ℕ) };

    ghost use Rattle.fr_ways.specs.Rows.{table_of, IsTable};

    ghost view = { table_of };

    ghost invariant = { IsTable };
}

impl WayTable {
    /// Makes an empty table, with room for this many nodes, and for this many ways in total. Fails with `AllocError` if an
    /// allocation is refused. O(nodes + ways).
    pub fn with_capacity(alloc: Global, nodes: usize, ways: usize) -> Result<WayTable, AllocError>
        ensures { IfOk result (λ table. table ≡ []) }
    {
        let mut starts = Vec::with_capacity(alloc, nodes.saturating_add(1))?;
        starts.push(0)?;
        Ok(WayTable {
            starts,
            list: Vec::with_capacity(alloc, ways)?,
        })
    }

    /// The table whose ways lie in `list`, in the form of [`WayTable::starts`] and [`WayTable::list`]. `None` if no table
    /// has this form: `starts` must begin with 0, must not fall, and must end with the length of `list`. Fails with
    /// `AllocError` if an allocation is refused. O(n + m).
    pub fn from_rows(
        alloc: Global,
        starts: &[usize],
        list: &[u32],
    ) -> Result<Option<WayTable>, AllocError>
        // `None` exactly if the lists hold no table.
        ensures made { IfOk result (λ made. MatchOption made
            ((table : List (List ℕ)) → ¬ IsLaidOut starts.now list.now table) (IsLaidOut starts.now list.now)) }
        // Only if the lists hold a table.
        ensures memory { IfErr result (λ fault. (table : List (List ℕ)) × IsLaidOut starts.now list.now table) }
    {
        if !are_bounds(starts, list.len()) {
            return Ok(None);
        }
        Ok(Some(WayTable {
            starts: starts.to_vec(alloc)?,
            list: list.to_vec(alloc)?,
        }))
    }

    /// Adds a node that has these ways. It gets the next number. Fails with `AllocError` if an allocation is refused;
    /// then the table is unchanged. O(1) and the time to copy the ways, in the mean of many calls.
    pub fn push_row(&mut self, ways: &[u32]) -> Result<(), AllocError>
        ensures added { OnOk result (self.new ≡ self.old ++ ways.now ∷ []) }
        ensures unchanged { OnErr result (self.new ≡ self.old) }
    {
        self.starts.reserve(1)?;
        self.list.extend_from_slice(ways)?;
        self.starts.push_reserved(self.list.len());
        Ok(())
    }

    /// Removes all nodes. The memory stays. O(1).
    pub fn clear(&mut self)
        ensures { self.new ≡ [] }
    {
        self.list.clear();
        self.starts.truncate(1);
    }

    /// How many nodes there are. O(1).
    pub fn len(&self) -> usize
        ensures { result ≡ length self.now }
    {
        self.starts.len() - 1
    }

    /// The ways of node `x`, in their order. A node that is not in the table has none. O(1).
    pub fn row(&self, x: u32) -> &[u32]
        ensures { result.now ≡ ways self.now x }
    {
        let x = x as usize;
        if x < self.len() {
            let start = self.starts[x];
            let end = self.starts[x + 1];
            &self.list[start..end]
        } else {
            &[]
        }
    }

    /// Where the ways of each node begin in [`WayTable::list`], and after the last node the number of all ways. O(1).
    pub fn starts(&self) -> &[usize]
        ensures { AreStarts self.now result.now }
    {
        self.starts.as_slice()
    }

    /// The ways of all nodes, node by node. O(1).
    pub fn list(&self) -> &[u32]
        ensures { result.now ≡ concat self.now }
    {
        self.list.as_slice()
    }
}

/// Whether lists can begin and end at these places, one after the other, up to this length in all.
fn are_bounds(starts: &[usize], length: usize) -> bool
    ensures { IsTrue result ↔ AreBounds starts.now length }
{
    if starts.is_empty() || starts[0] != 0 || starts[starts.len() - 1] != length {
        return false;
    }
    for k in 1..starts.len() {
        if starts[k - 1] > starts[k] {
            return false;
        }
    }
    true
}
