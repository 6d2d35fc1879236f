//! The laws of a round. Each clause is a law of `specs/Laws.antt`, proved. The functions do nothing.

ghost use Rattle.fr_round.specs.Laws.{OneHistoryStandsBehindAll, RuleHoldsAtFirst, NoOtherStateIsFirst};
ghost use Rattle.fr_round.specs.Laws.{EveryStepKeepsTheRule, EveryStepGrowsTheList};
ghost use Rattle.fr_round.specs.Laws.{OwnLoadIsTheMachines, NeighbourLoadIsTheMachines, ExchangeIsTheMachines};
ghost use Rattle.fr_round.specs.Laws.{LookBeginsAsTheMachines, LookEndsAsTheMachines};

/// At each moment of a round, all calls so far form one list of legal replies. Each reply is the one that full
/// reversal on one thread (E. Gafni and D. Bertsekas, 1981) gives at that point. Its counts are the words, and its
/// links, which the words give, contain no cycle. Each worker knows a prefix of the list; its own calls are in the
/// list in their order; and no two workers have the same number.
///
/// This follows from a rule. The rule holds when a round is opened, with the empty list, and each step at a seat keeps
/// it, whatever the other threads do. An open round is in a state that the rule allows, because its table is one of
/// `Rule`. Of the states in which no number was given out, the rule allows only the one with all words 0.
/// `Round::close` returns the words of a state that the rule allows.
///
/// The list only grows, at its end: each step leaves it as it was, or adds the call that this step decides. What
/// follows for the order of calls in time, linearizability (M. Herlihy and J. Wing, 1990), is `linear_law` of fr_laws.
pub fn round_law()
    ensures run { OneHistoryStandsBehindAll }
    ensures first { RuleHoldsAtFirst }
    ensures only { NoOtherStateIsFirst }
    ensures kept { EveryStepKeepsTheRule }
    ensures grows { EveryStepGrowsTheList }
{}

/// Each load and each exchange that a worker makes on the words is a step of the machine of `fr_core` with the same
/// words. The words after it are the machine's counts. If the machine decides a call, the worker's known history gains
/// that entry. If it does not, the machine's worker continues with the node and the count of the worker's call.
pub fn step_law()
    ensures own { OwnLoadIsTheMachines }
    ensures neighbour { NeighbourLoadIsTheMachines }
    ensures exchange { ExchangeIsTheMachines }
    ensures look_begins { LookBeginsAsTheMachines }
    ensures look_ends { LookEndsAsTheMachines }
{}
