//! The laws of a shared table of hops. Each clause is a law of `specs/Laws.antt` or `specs/HopLaws.antt`, proved. The
//! functions do nothing.

ghost use Rattle.fr_shared.specs.HopLaws.{RoutesAreKept, VisitsTwiceAtMost};
ghost use Rattle.fr_shared.specs.HopTables.{hop_codec};
ghost use Rattle.fr_shared.specs.Laws.{EveryStepKeepsTheRule, IsTableAtEachMoment, LearnedIsRead};
ghost use Rattle.fr_shared.specs.Laws.{NoOtherStateIsFirst, OneHistoryExplainsAll, RuleHoldsAtFirst};

/// At each moment, whatever the threads do, the words are a table without loops: the last table of one history of
/// pushes. The publisher knows the whole history, and each reader knows a prefix of it. This follows from a rule.
/// The rule holds when a table is opened, with every node cut off, and each step of a thread keeps it. An open table
/// keeps the rule, because its `Table` is one of `Rule`.
///
/// A reader that has learned of pushes answers from their last table or a later one. A walk that sees only pushes of
/// one push order visits no node more than twice. Its reader has to know all pushes before this order, as it does once
/// it has learned what the publisher knew then.
pub fn shared_law()
    ensures moment { IsTableAtEachMoment hop_codec }
    ensures history { OneHistoryExplainsAll hop_codec }
    ensures first { RuleHoldsAtFirst hop_codec }
    ensures only { NoOtherStateIsFirst hop_codec }
    ensures kept { EveryStepKeepsTheRule hop_codec }
    ensures learned { LearnedIsRead hop_codec }
    ensures twice { VisitsTwiceAtMost }
{}

/// While the publisher pushes one push order, a node that has a route before and after it has one at each moment.
pub fn route_law()
    ensures kept { RoutesAreKept }
{}
