//! When a network is quiet: each clause is a law of `specs/Quiet.antt`, proved. The function does nothing.

ghost use Rattle.fr_laws.specs.Quiet.{QuietIsSettled, QuietIsForGood, SettledCanBeQuiet};
ghost use Rattle.fr_laws.specs.Quiet.{QuietRoundIsSettled, WorkerKnowsQuiet};

/// Replies alone can show that a network is settled. Suppose that since the last turn every node with a link, except
/// the destination, was held or cut. Then the counts are the settled ones, and no node turns any more. If the counts
/// are settled, such replies can be had. In a round the words are the settled counts then. If one worker knows such a
/// history, that is enough, whatever the others have done since.
pub fn quiet_law()
    ensures settled { QuietIsSettled }
    ensures for_good { QuietIsForGood }
    ensures shown { SettledCanBeQuiet }
    ensures round { QuietRoundIsSettled }
    ensures worker { WorkerKnowsQuiet }
{}
