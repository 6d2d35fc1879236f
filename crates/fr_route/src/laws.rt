//! The laws of routes and answers. Each clause is a law of `specs/Laws.antt`, proved. The functions do nothing.

ghost use Rattle.fr_route.specs.Laws.{RoundIsUnique, RoundLeavesNoLoop, RoundKeepsJoined, ReportIsUnique};
ghost use Rattle.fr_route.specs.Laws.{RoutesLeadHome, RouteIsUnique, RouteIsSimple, HopIsUnique};
ghost use Rattle.fr_route.specs.Laws.{HopsHaveNoLoop, ReroutedAreTold};
ghost use Rattle.fr_route.specs.Laws.{ChangeKeepsRoutes, PushesKeepRoutes, ReplacingKeepsRoutes};
ghost use Rattle.fr_route.specs.Laws.{AnswerInIsUnique, AnswerIsUnique, LineAnswerIsUnique};

/// The first links determine the state after a round, and so the report. The links after a round contain no cycle, and
/// the same nodes are connected to the destination as before.
pub fn round_law()
    ensures unique { RoundIsUnique }
    ensures acyclic { RoundLeavesNoLoop }
    ensures joined { RoundKeepsJoined }
    ensures report { ReportIsUnique }
{}

/// After a round, exactly the nodes that are connected to the destination have a route. A node has only one route. It is
/// a simple path along the links to the destination.
pub fn route_law()
    ensures home { RoutesLeadHome }
    ensures unique { RouteIsUnique }
    ensures simple { RouteIsSimple }
    ensures hop { HopIsUnique }
{}

/// The hops of a settled network are a table without loops, in which each hop names a node. So the laws of push orders
/// apply to them ([`push_law`](fr_tables::laws::push_law)). Exactly the nodes whose hop has changed are reported as
/// rerouted. While these nodes are pushed, a node that has a route before and after the change has one at each moment.
/// The same holds while a new network replaces an old one, and while the hops are pushed into any other table.
pub fn hops_law()
    ensures no_loop { HopsHaveNoLoop }
    ensures told { ReroutedAreTold }
    ensures kept { ChangeKeepsRoutes }
    ensures replaced { ReplacingKeepsRoutes }
    ensures pushed { PushesKeepRoutes }
{}

/// The state and the request determine the answer and the state after it. The same holds for a line in either form, with
/// its number.
pub fn answer_law()
    ensures request { AnswerIsUnique }
    ensures line { LineAnswerIsUnique }
    ensures form { AnswerInIsUnique }
{}
