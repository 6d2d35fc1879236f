//! Next hops while a round goes on: each clause is a law of `specs/Hops.antt`, proved. The function does nothing.

ghost use Rattle.fr_laws.specs.Hops.{RoundNeverLoops, RunNeverLoops, SomeLoopOverTime};
ghost use Rattle.fr_laws.specs.Hops.{RepliesNeverLoop, QuietHopsLeadHome};

/// At each moment of a round, next hops along its links have no loop. Let each node send on along any link that
/// points away from it at that moment: no packet goes round in a loop, although the round has not ended. Hops that
/// were read at several moments may have a loop: `one_moment` has an example. Hops may be read from replies that say
/// who holds a node, if no node turned between the calls. Once the replies show that the network is quiet, these hops
/// lead to the destination.
pub fn hop_law()
    ensures round { RoundNeverLoops }
    ensures run { RunNeverLoops }
    ensures one_moment { SomeLoopOverTime }
    ensures replies { RepliesNeverLoop }
    ensures home { QuietHopsLeadHome }
{}
