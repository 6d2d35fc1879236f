//! The laws of full reversal with counts. Each clause is a law of `specs/Laws.antt`, proved. The functions do nothing.
//! They are the table of contents of the mathematics on which the other contracts are based.

ghost use Rattle.fr_core.specs.Laws.{NoLoopStands, LinksComeFromFirst, SenseShowsTheLink};
ghost use Rattle.fr_core.specs.Laws.{LawfulGivesANet, ZerosGiveFirst, OrderDoesNotMatter};
ghost use Rattle.fr_core.specs.Laws.{TurnIsACount, RunKeepsLawful, MomentIsAfter};
ghost use Rattle.fr_core.specs.Laws.{NoLoopEverStands, RunAddsUp, LawfulIsReached, SinkByCounts};
ghost use Rattle.fr_core.specs.Laws.{LawfulIsAtMostAway, NoTurnLeftIsSettled};
ghost use Rattle.fr_core.specs.Laws.{SettledLeavesNoTurn, SettledIsUnique, LawfulIsAtMostSettled};
ghost use Rattle.fr_core.specs.Laws.{ZeroIsAPath, CapIsNotJoined, JoinedIsBelowCap, JoinedByCounts};
ghost use Rattle.fr_core.specs.Laws.{EachNetSettles, EachRunSettles, RunsEndAlike, RunLeadsToSettled, TurnsAreBounded};
ghost use Rattle.fr_core.specs.Work.{BadAreCounted, NoLevelIsEmpty, EachIsAtMostBad, RunIsAtMostTriangle};
ghost use Rattle.fr_core.specs.Work.{ConnectedIsAtMostHalfSquare, TriangleIsMet};
ghost use Rattle.fr_core.specs.Laws.{MissedBoundHolds, SeenBoundsSink, MachineRuns, PartsAreReplies};
ghost use Rattle.fr_core.specs.Laws.{BadIsNoRun, RunOrBad, OneIsBad};

/// The links that counts give contain no cycle, and those of lawful counts are a network.
pub fn links_law()
    ensures acyclic { NoLoopStands }
    ensures comes { LinksComeFromFirst }
    ensures sense { SenseShowsTheLink }
    ensures net { LawfulGivesANet }
    ensures start { ZerosGiveFirst }
    ensures order { OrderDoesNotMatter }
{}

/// A turn changes the links exactly as its count does. So counts stay lawful in a run, and the links never contain a
/// cycle. The lawful counts are exactly those to which runs lead from the counts 0.
pub fn run_law()
    ensures one { TurnIsACount }
    ensures all { RunKeepsLawful }
    ensures after { MomentIsAfter }
    ensures acyclic { NoLoopEverStands }
    ensures adds { RunAddsUp }
    ensures reached { LawfulIsReached }
{}

/// Counts show whether a node is a sink, even if they were loaded one after the other while other nodes turned. A
/// neighbour that missed its bound holds the node. If all neighbours had met their bounds, the node is a sink, provided
/// that it has kept its own count.
pub fn sink_law()
    ensures sink { SinkByCounts }
    ensures missed { MissedBoundHolds }
    ensures seen { SeenBoundsSink }
{}

/// If no node can turn, the counts are settled. There is exactly one list of settled counts, and no lawful count is
/// greater than the settled one.
pub fn settled_law()
    ensures bound { LawfulIsAtMostAway }
    ensures settled { NoTurnLeftIsSettled }
    ensures last { SettledLeavesNoTurn }
    ensures unique { SettledIsUnique }
    ensures most { LawfulIsAtMostSettled }
{}

/// Which settled counts are 0, which are the cap, and how they show which nodes are connected to the destination.
pub fn count_law()
    ensures zero { ZeroIsAPath }
    ensures cap { CapIsNotJoined }
    ensures below { JoinedIsBelowCap }
    ensures joined { JoinedByCounts }
{}

/// Every run can be continued until no node can turn, and all such runs end at the same counts.
pub fn schedule_law()
    ensures exists { EachNetSettles }
    ensures each { EachRunSettles }
    ensures alike { RunsEndAlike }
    ensures leads { RunLeadsToSettled }
    ensures bounded { TurnsAreBounded }
{}

/// How many turns a run can make. In a connected network of which b nodes are bad (no path leads from them to the
/// destination), no run makes more than 1 + 2 + .. + b turns. A chain whose links all point away from the destination
/// takes that many. In other networks each node that has links, but is cut off, adds at most n turns.
pub fn work_law()
    ensures counted { BadAreCounted }
    ensures levels { NoLevelIsEmpty }
    ensures each { EachIsAtMostBad }
    ensures turns { RunIsAtMostTriangle }
    ensures connected { ConnectedIsAtMostHalfSquare }
    ensures tight { TriangleIsMet }
{}

/// The machine under every schedule: the entries that it decides are a run, and each worker's part of them is its
/// replies.
pub fn machine_law()
    ensures run { MachineRuns }
    ensures parts { PartsAreReplies }
{}

/// Each history either is a run, or has exactly one first entry that is not legal.
pub fn check_law()
    ensures excludes { BadIsNoRun }
    ensures either { RunOrBad }
    ensures one { OneIsBad }
{}
