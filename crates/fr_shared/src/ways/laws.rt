//! The laws of a shared table of ways. Each clause is a law of `specs/Laws.antt` or `specs/WayLaws.antt`, proved. The
//! function does nothing.

ghost use Rattle.fr_shared.specs.Laws.{EveryStepKeepsTheRule, IsTableAtEachMoment, LearnedIsRead};
ghost use Rattle.fr_shared.specs.Laws.{NoOtherStateIsFirst, OneHistoryExplainsAll, RuleHoldsAtFirst};
ghost use Rattle.fr_shared.specs.WayLaws.{VisitsTwiceByAnyWays};
ghost use Rattle.fr_shared.specs.WayTables.{way_codec};

/// At each moment, whatever the threads do, the words are a table without cycles: the last table of one history of
/// pushes. The publisher knows the whole history, and each reader knows a prefix of it. This follows from a rule.
/// The rule holds when a table is opened, with no way for any node, and each step of a thread keeps it. An open table
/// keeps the rule, because its `Table` is one of `Rule`.
///
/// A reader that has learned of pushes answers from their last table or a later one. A walk that sees only pushes
/// which lead to one new table visits no node more than twice, whichever ways it takes. Its reader has to know all
/// pushes before them, as it does once it has learned what the publisher knew then.
pub fn shared_law()
    ensures moment { IsTableAtEachMoment way_codec }
    ensures history { OneHistoryExplainsAll way_codec }
    ensures first { RuleHoldsAtFirst way_codec }
    ensures only { NoOtherStateIsFirst way_codec }
    ensures kept { EveryStepKeepsTheRule way_codec }
    ensures learned { LearnedIsRead way_codec }
    ensures twice { VisitsTwiceByAnyWays }
{}
