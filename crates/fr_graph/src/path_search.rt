//! The search for a path from one node to another. It starts at both ends: one side goes along the links, the other
//! against them. Each step reads one row, most often on the side with fewer rows left to read. All links fall, so a
//! side skips nodes beyond the height of the other end. The search ends when the sides meet, or when one side has
//! nothing left to read. So it reads few rows if few nodes lie between the ends on either side.

ghost use Rattle.std.specs.Prelude.{◌≡◌, ◌≢◌, ℕ, ◌<◌, ◌≤◌, ◌⊎◌, ◌↔◌, length, slice_index, IfOk, IsTrue};
ghost use Rattle.fr_graph.specs.KeptRows.{net_in};
ghost use Rattle.fr_graph.specs.RowLists.{opposite};
ghost use Rattle.fr_graph.specs.PathSearch.{AreFallingRows, HasBegun, HasMet, HasMetMore, HasRoom, IsBeyond};
ghost use Rattle.fr_graph.specs.PathSearch.{IsPast, IsPathAnswer, IsReadAnswer, IsSide};
ghost use Rattle.fr_graph.specs.PathSearch.{LiesOn, MeetsNew, met_by, start_of, unread_count, answer_of_ended};

use crate::first::First;
use crate::heights::Heights;
use crate::row_table::RowTable;
use std::alloc::{AllocError, Global};

/// Which side of the search has met a node.
#[derive(Drop, Clone, Copy, PartialEq, Eq)]
enum Met {
    Never,
    Forward,
    Backward,
}

impl Met {
    /// The mark of the nodes that the side going this way has met.
    fn of_direction(first: First) -> Met
        ensures { result ≡ met_by first }
    {
        match first {
            First::Outward => Met::Forward,
            First::Inward => Met::Backward,
        }
    }
}

/// Whether links lead from one node to another.
#[derive(Drop)]
pub(crate) enum PathAnswer {
    /// Yes: the sides of the search have met.
    Leads,
    /// No. Once these nodes have heights between the two, all links fall, and a link back would fall too.
    Ends {
        /// All nodes that the finished side of the search has met.
        nodes: Vec<u32>,
        /// The lower one of the heights.
        low: u64,
        /// The higher one of the heights.
        high: u64,
    },
}

/// The side with fewer rows left to read may have read this many times as many rows as the other side. So the search
/// reads few rows whenever one side is soon done.
const LEAD: usize = 4;

/// One side of the search. It follows the links that leave a node in one direction.
#[derive(Drop)]
struct Side {
    first: First,
    // The height of the node that it looks for. It skips nodes beyond this height.
    limit: u64,
    // The height of the nearest node that it has skipped. At first it lies beyond all nodes.
    edge: u64,
    // The nodes that it has met, in this order.
    nodes: Vec<u32>,
    // How many of their rows it has read.
    read: usize,
}

impl Side {
    /// The side that goes this way from `start` up to the height `limit`, with room for `nodes` nodes.
    fn from_start(
        alloc: Global,
        first: First,
        start: u32,
        limit: u64,
        nodes: usize,
    ) -> Result<Side, AllocError>
        requires { start < nodes }
        ensures { IfOk result (HasBegun first start limit nodes) }
    {
        let mut met = Vec::with_capacity(alloc, nodes)?;
        met.push_reserved(start);
        let edge = match first {
            First::Outward => 0,
            First::Inward => u64::MAX,
        };
        Ok(Side {
            first,
            limit,
            edge,
            nodes: met,
            read: 0,
        })
    }

    /// Whether the side goes on from a node of height `own` to a neighbour of this height. The link between them must
    /// lead that way, which the heights show because all links fall, and the neighbour must be within the limit.
    fn may_extend_to(&self, own: u64, height: u64) -> bool
        ensures lies { IsTrue result → LiesOn self.now.first own height }
        ensures within { IsTrue result → ¬ IsBeyond self.now.first self.now.limit height }
        ensures beyond { ¬ IsTrue result → LiesOn self.now.first own height
            → IsBeyond self.now.first self.now.limit height }
    {
        match self.first {
            First::Outward => self.limit <= height && height < own,
            First::Inward => own < height && height <= self.limit,
        }
    }

    /// The nearer of two heights: the edge, and the height of a neighbour if it lies beyond the limit.
    fn nearer_height(&self, edge: u64, height: u64) -> u64
        ensures past { IsBeyond self.now.first self.now.limit height → IsPast self.now.first result height }
        ensures nearer { (other : ℕ) → IsPast self.now.first edge other → IsPast self.now.first result other }
    {
        match self.first {
            First::Outward if height < self.limit => edge.max(height),
            First::Inward if height > self.limit => edge.min(height),
            _ => edge,
        }
    }

    /// Whether it has met a node whose row it has not read.
    fn has_unread_rows(&self) -> bool
        ensures { IsTrue result ↔ self.now.read < length self.now.nodes.items }
    {
        self.read < self.nodes.len()
    }

    /// How many nodes it has met whose rows it has not read.
    fn unread_row_count(&self) -> usize
        ensures { result ≡ unread_count self.now }
    {
        self.nodes.len().saturating_sub(self.read)
    }

    /// Whether this side reads the next row. The side with fewer rows left to read does, because it is likely to be
    /// done first, unless it has already read far more rows.
    fn should_read_next(&self, other: &Side) -> bool {
        if self.unread_row_count() <= other.unread_row_count() {
            self.read / LEAD <= other.read
        } else {
            other.read / LEAD > self.read
        }
    }

    /// Marks a node as met, unless a side has met it. The node is within the limit and in the row that this side reads.
    /// Returns whether the other side has met it.
    fn mark_if_unmet(&mut self, node: u32, met: &mut [Met]) -> bool
        requires node { node < length met.old }
        requires room { HasRoom self.old met.old }
        ensures other { IsTrue result → HasMet (opposite self.old.first) met.new node }
        ensures met { ¬ IsTrue result → HasMet self.old.first met.new node }
        ensures change { ((self.new ≡ self.old) × (met.new ≡ met.old))
            ⊎ MeetsNew self.old self.new met.old met.new node }
    {
        let own = Met::of_direction(self.first);
        match met[node as usize] {
            Met::Never => {
                met[node as usize] = own;
                self.nodes.push_reserved(node);
                false
            }
            side => side != own,
        }
    }

    /// The answer if this side has nothing left to read: its nodes, and the heights between which they can be put.
    fn answer_without_path(self) -> PathAnswer
        ensures { result ≡ answer_of_ended self }
    {
        let (low, high) = match self.first {
            First::Outward => (self.edge, self.limit),
            First::Inward => (self.limit, self.edge),
        };
        PathAnswer::Ends {
            nodes: self.nodes,
            low,
            high,
        }
    }

    /// Reads the row of the next node, up to the first link that leads on to a node of the other side. Returns whether
    /// there is one.
    fn read_next_row(&mut self, rows: &RowTable, heights: &Heights, met: &mut [Met]) -> bool
        requires rows { AreFallingRows rows.now heights.now.heights }
        requires side { IsSide (net_in rows.now) heights.now.heights self.old.first
            (start_of self.old) self.old.limit met.old self.old }
        requires unread { self.old.read < length self.old.nodes.items }
        ensures answer { IsReadAnswer (net_in rows.now).links met.new self.old self.new result }
        ensures side { IsSide (net_in rows.now) heights.now.heights self.old.first
            (start_of self.old) self.old.limit met.new self.new }
        ensures more { HasMetMore self.old self.new met.old met.new }
    {
        let node = self.nodes[self.read];
        let own = heights.height(node);
        let row = rows.row(node);
        // Most entries lead nowhere, so one test skips them. The edge is a local variable for speed too.
        let mut edge = self.edge;
        for (neighbour, _) in row {
            let neighbour = *neighbour as u32;
            let height = heights.height(neighbour);
            edge = self.nearer_height(edge, height);
            if self.may_extend_to(own, height) && self.mark_if_unmet(neighbour, met) {
                return true;
            }
        }
        self.edge = edge;
        self.read += 1;
        false
    }
}

/// Whether a path leads from `from` to `to`. All links must fall, and `to` must not be higher than `from`.
pub(crate) fn path_between(
    alloc: Global,
    rows: &RowTable,
    heights: &Heights,
    from: u32,
    to: u32,
) -> Result<PathAnswer, AllocError>
    requires rows { AreFallingRows rows.now heights.now.heights }
    requires from { from < length rows.now.rows }
    requires to { to < length rows.now.rows }
    requires apart { from ≢ to }
    requires no_higher { slice_index heights.now.heights to ≤ slice_index heights.now.heights from }
    ensures { IfOk result (IsPathAnswer (net_in rows.now) heights.now.heights from to) }
{
    let nodes = rows.len();
    let mut table = vec![in alloc; Met::Never; nodes]?;
    let met = table.as_mut_slice();
    met[from as usize] = Met::Forward;
    met[to as usize] = Met::Backward;
    let (high, low) = (heights.height(from), heights.height(to));
    let mut ahead = Side::from_start(alloc, First::Outward, from, low, nodes)?;
    let mut behind = Side::from_start(alloc, First::Inward, to, high, nodes)?;
    while ahead.has_unread_rows() && behind.has_unread_rows() {
        let meets = if ahead.should_read_next(&behind) {
            ahead.read_next_row(rows, heights, met)
        } else {
            behind.read_next_row(rows, heights, met)
        };
        if meets {
            return Ok(PathAnswer::Leads);
        }
    }
    Ok(if ahead.has_unread_rows() {
        behind.answer_without_path()
    } else {
        ahead.answer_without_path()
    })
}
