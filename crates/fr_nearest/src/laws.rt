//! The laws of distances and ways. Each clause is a law of `specs/Laws.antt`, proved. The functions do nothing.

ghost use Rattle.fr_nearest.specs.Laws.{DistanceIsUnique, FirstWayIsNearer, TableIsUnique, WalkIsShortest};
ghost use Rattle.fr_nearest.specs.Laws.{WaysAreFew, WaysAreUnique, WaysHaveNoLoop};

/// Links determine the distance of each node and the table of distances.
pub fn distance_law()
    ensures distance { DistanceIsUnique }
    ensures table { TableIsUnique }
{}

/// A node has one list of ways, and all lists together have at most as many ways as there are links. The first way of a
/// node is one link nearer, and by first ways it has a shortest walk to the destination. Whichever ways a packet takes,
/// it visits no node twice, because the links contain no cycle.
pub fn nearest_law()
    ensures unique { WaysAreUnique }
    ensures few { WaysAreFew }
    ensures nearer { FirstWayIsNearer }
    ensures shortest { WalkIsShortest }
    ensures loop_free { WaysHaveNoLoop }
{}
