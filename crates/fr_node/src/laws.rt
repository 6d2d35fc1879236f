//! The laws of networks of routers. Each clause is a law of `specs/`, proved. The functions do nothing.

ghost use Rattle.fr_node.specs.Bytes.{OneMessage};
ghost use Rattle.fr_node.specs.Daemons.{DaemonsHaveNoLoop};
ghost use Rattle.fr_node.specs.Prefixes.{PrefixesHaveNoLoop, SomePrefixIsLonger};
ghost use Rattle.fr_node.specs.Tables.{SomeTablesLetThrough, TablesHaveNoLoop};
ghost use Rattle.fr_node.specs.Heights.{CallsActBeside, CostsStay, SameHeightIsBounded, SomeHeightComesBack};
ghost use Rattle.fr_node.specs.Laws.{NeverALoop, PacketsArrive, SomeLinkIsUsed};
ghost use Rattle.fr_node.specs.Lowerings.{CallsKeepLinksOrFall, LinkBoundsWithFalls, PathBoundsWithFalls};
ghost use Rattle.fr_node.specs.Lowerings.{SomeRouterFalls};
ghost use Rattle.fr_node.specs.Repeats.{RepeatsAreIgnored};
ghost use Rattle.fr_node.specs.Rests.{AnnouncementsEnd, CallsStayBelow, SomeRoutersAnnounce, TestsLeadDown};
ghost use Rattle.fr_node.specs.Shortest.{LostRoutersKnow, RoutesAreShortest, SomeRouteIsShortest};
ghost use Rattle.fr_node.specs.OneWay.{DeafLinksAreLost, DeafLinksHoldNothingBack, SilenceIsTold};
ghost use Rattle.fr_node.specs.Paths.{BoundIsReached, CallsKeepLinks, DownPathIsQuiet, LinkBoundsAnnouncements};
ghost use Rattle.fr_node.specs.Paths.{PathBoundsAnnouncements, UnheardAreAnnouncements};

/// At no moment do the links that routers use contain a loop, whatever happens to messages and whichever routers
/// restart. In some run a router restarts, and a link is used then.
pub fn routers_law()
    ensures safe { NeverALoop }
    ensures possible { SomeLinkIsUsed }
{}

/// At no moment do the tables of routers, which are written late and in steps, contain a loop. Meanwhile each router
/// hears more, and it may restart and find the table of its earlier process. A router has to close gates before it
/// changes ways, and to change ways before it opens gates. It may say nothing before its table is confirmed. In some
/// run the tables let packets through.
pub fn tables_law()
    ensures safe { TablesHaveNoLoop }
    ensures possible { SomeTablesLetThrough }
    ensures calls { DaemonsHaveNoLoop }
{}

/// Forwarding by the longest prefix makes no loop either. Routers may know different prefixes, and a packet goes by the
/// longest one that its router knows. A packet never meets a router again if the tables of no prefix have a loop, and if
/// each router that lets in anything from a neighbour knows each prefix for which that neighbour has it as a way. Then
/// the prefix by which the packet goes never gets shorter. In some network a packet comes to a longer prefix.
pub fn prefixes_law()
    ensures safe { PrefixesHaveNoLoop }
    ensures possible { SomePrefixIsLonger }
{}

/// Once all messages have arrived and no router changes its height, packets of each router that has a link come to a
/// gateway. The routers have `Rise::Full`. Packets arrive whichever ways they take, and each router that they reach lets them in.
pub fn ways_law()
    ensures { PacketsArrive }
{}

/// With `Rise::Top`, once all messages have arrived and no router changes its height, routes have the least costs. A
/// path of links that are up counts if the cost from each of its routers on is below the ceiling of that router. The
/// height of a router with such a path to a gateway, and its distance, are the least cost of these paths. Its packets
/// come to a gateway, whichever ways they take, and over links of this cost together if they take nearest ways. Each
/// router that they reach lets them in. A router that no path of links that are up connects to a gateway has no
/// distance. A gateway and a router meet these premises.
pub fn shortest_law()
    ensures least { RoutesAreShortest }
    ensures lost { LostRoutersKnow }
    ensures possible { SomeRouteIsShortest }
{}

/// Routers that stay below a ceiling come to rest, also those that are cut off: while no link goes up or down, no cost
/// changes and no router restarts, they announce a bounded number of heights together, whatever happens to messages. Each of them
/// acts as in `heights_law`, and may do so by a test of its own, if only heights below its own are low enough. Such
/// tests are whether a neighbour is lower, and whether it offers the height: its height and the cost of the link to it
/// are together below the ceiling, and at most the height. Instead of heights below the ceiling they may announce one
/// that is not. In some run routers announce four heights. A call of a `Node` with `Rise::Top` that starts below the
/// ceiling or at the top stays there.
pub fn ceiling_law()
    ensures rest { AnnouncementsEnd }
    ensures tests { TestsLeadDown }
    ensures possible { SomeRoutersAnnounce }
    ensures calls { CallsStayBelow }
{}

/// While a path to a gateway stays up and none of its routers restarts, they announce a bounded number of heights. They
/// have `Rise::Full` without `lower`. After anything that can have happened, and whatever happens to other links and routers meanwhile,
/// each of them announces at most one height for each link of the path, and one for each announcement that a router
/// of the path has not heard of the next one. If the path leads down, and all of it is heard, none of them announces
/// anything. In some run two heights are due, and announced. Each call of a `Node` is a step of these laws beside
/// each link that is up.
pub fn paths_law()
    ensures link { LinkBoundsAnnouncements }
    ensures path { PathBoundsAnnouncements }
    ensures known { UnheardAreAnnouncements }
    ensures quiet { DownPathIsQuiet }
    ensures possible { BoundIsReached }
    ensures calls { CallsKeepLinks }
{}

/// With `lower`, each fall on the path adds at most two announcements to the bound of `paths_law`. The routers have
/// `Rise::Full`. In some run it announces as many.
pub fn lowering_law()
    ensures link { LinkBoundsWithFalls }
    ensures path { PathBoundsWithFalls }
    ensures possible { SomeRouterFalls }
    ensures calls { CallsKeepLinksOrFall }
{}

/// A router announces the same height again only after a lower announcement, or one low enough for it. It rises only
/// if no neighbour is known to be low enough for its height, and falls to a height only if one is known to be low
/// enough for that. Any test may say what is low enough. In some run a height comes back as often as the law allows.
/// Each call of a `Node` is a step of this law: with `Rise::Full` by the test whether a neighbour is lower, and with
/// `Rise::Top` by the test whether it offers the height. Only `set_cost` changes the cost of a link, so this test stays until it is called.
pub fn heights_law()
    ensures again { SameHeightIsBounded }
    ensures possible { SomeHeightComesBack }
    ensures calls { CallsActBeside }
    ensures costs { CostsStay }
{}

/// A link that works one way soon counts at neither end, and holds no router back. A link does not count as up after
/// as many ticks as the caller's patience in which the neighbour seemed deaf: what was taken of it was for another
/// start of the router, and it did not start again. If each other neighbour was heard, and none is lower, then the
/// router is a sink. After as many ticks in which no message of a neighbour was taken, the router seems deaf to that
/// neighbour: so the link counts at neither end.
pub fn one_way_law()
    ensures lost { DeafLinksAreLost }
    ensures free { DeafLinksHoldNothingBack }
    ensures told { SilenceIsTold }
{}

/// No two messages have the same bytes. So `Message::read` returns the message that `Message::write` wrote. Once a node
/// has heard a message that is for it and from a known neighbour, it never takes this message again, nor one that the
/// neighbour said before it. By the contract of `hear` such a message changes nothing at all.
pub fn messages_law()
    ensures once { OneMessage }
    ensures repeats { RepeatsAreIgnored }
{}
