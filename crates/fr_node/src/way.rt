//! A way: a neighbour to which a router may send packets.

ghost use Rattle.std.specs.Prelude.{◌≡◌};
ghost use Rattle.std.specs.List.Sorted.{IsNonDecreasingBy, IsPermutation};
ghost use Rattle.fr_node.specs.Distances.{rank_of};

/// A neighbour to which a router may send packets.
#[derive(Clone, Copy, Debug, PartialEq, Eq)]
pub struct Way {
    /// The neighbour.
    pub neighbour: u32,
    /// The cost of the route to a gateway over this neighbour: its distance and the cost of the link.
    /// [`CUT_OFF`](crate::CUT_OFF) if the neighbour knew no distance.
    pub distance: u32,
}

impl Way {
    /// The number by which ways are sorted.
    fn sort_key(&self) -> u64
        ensures { result ≡ rank_of self.now }
    {
        self.distance as u64 * (1 << 32) + self.neighbour as u64
    }
}

/// Sorts ways, the nearest first, and equally near ones by number.
pub(crate) fn sort_ways(ways: &mut [Way])
    ensures same { IsPermutation ways.old ways.new }
    ensures order { IsNonDecreasingBy rank_of ways.new }
{
    ways.sort_unstable_by_key(|way| way.sort_key());
}
