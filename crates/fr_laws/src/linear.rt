//! The order of calls in time. Each clause is a law of `specs/Linear.antt`, proved. The function does nothing.

ghost use Rattle.fr_laws.specs.Linear.{CallsAreLinearizable, KnowledgeIsKept, LaterIsBehind, LaterIsFresh};
ghost use Rattle.fr_laws.specs.Linear.{HeldAfterATurn, NoneHoldsTheDestination};

/// Calls of a round are *linearizable* (M. Herlihy and J. Wing, 1990): at each time all calls so far form one list,
/// in which each reply is the right one. Each call enters the list by one step between its beginning and its end, so
/// a call that ended before another one began comes first.
///
/// An execution starts as a round is opened, and each of its steps is one that [`round_law`](fr_round::round_law) lists.
/// That the list only grows, and where a call enters it, follows from the clause `grows` of that law. A call is known by
/// its worker: of its own calls the worker knows one more at the end than at the beginning.
///
/// Callers see what their workers know. Suppose that a worker knew an earlier call when it made its own: the earlier call
/// was its own, or another worker handed it on. Then the earlier call comes first, and the later reply is right after it:
/// no count at that place is below those that the earlier worker had seen. Only the old count in `Moved` may be older.
pub fn linear_law()
    ensures time { CallsAreLinearizable }
    ensures kept { KnowledgeIsKept }
    ensures order { LaterIsBehind }
    ensures fresh { LaterIsFresh }
    ensures held { HeldAfterATurn }
    ensures destination { NoneHoldsTheDestination }
{}
