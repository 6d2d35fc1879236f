//! The laws of push orders. Each clause is a law of `specs/Laws.antt`, proved. The functions do nothing.

ghost use Rattle.fr_tables.specs.Laws.{StartsAsOld, PushIsOneMore, NoLoopIsNew, NeverLoops, PushedIsRight};
ghost use Rattle.fr_tables.specs.Laws.{ComesTwiceAtMost, BeginningIsClosed, GroupsAreClosed, AnyBetweenIsClosed};
ghost use Rattle.fr_tables.specs.Laws.{EndsAsNew, OrderExists, OrderIsUnique};
ghost use Rattle.fr_tables.specs.Laws.{NoRouteIsLost, RoutesAreKept, BeginningIsRoutedFirst, OrderKeepsRoutes};

/// If the new table has no loop, pushing nodes that are closed downstream makes no new loop. In whatever order pushes
/// are made, each loop of the mixed table was in the old table. If the old table had no loop either, a packet that
/// moves meanwhile visits no node more than twice.
pub fn push_law()
    ensures start { StartsAsOld }
    ensures step { PushIsOneMore }
    ensures loops { NoLoopIsNew }
    ensures loop_free { NeverLoops }
    ensures right { PushedIsRight }
    ensures twice { ComesTwiceAtMost }
{}

/// The pushed nodes of a push order are closed downstream at each moment. So they are even if the nodes of one group
/// are pushed in any order, and even if routers are slow to confirm a push. The last push makes the new table. Two
/// tables have exactly one push order.
pub fn push_order_law()
    ensures beginnings { BeginningIsClosed }
    ensures groups { GroupsAreClosed }
    ensures between { AnyBetweenIsClosed }
    ensures whole { EndsAsNew }
    ensures exists { OrderExists }
    ensures unique { OrderIsUnique }
{}

/// No node loses a route that it has in the old and in the new table, if withdrawals come last. They are the pushes
/// of nodes without a route in the new table, and a push order has them last.
pub fn route_law()
    ensures unlost { NoRouteIsLost }
    ensures kept { RoutesAreKept }
    ensures beginnings { BeginningIsRoutedFirst }
    ensures order { OrderKeepsRoutes }
{}
