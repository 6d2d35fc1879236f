//! Which nodes gain a way by a change. Each clause is a law of `specs/Gains.antt`, proved. The function does nothing.

ghost use Rattle.fr_laws.specs.Gains.{AddGrowsItsTail, CutGrowsTurned, JoinGrowsATail, StillLeadsHome};

/// Which nodes gain a way by a change of a settled network. The ways of a node are the nodes to which its links point, if
/// it is connected with the destination.
///
/// After a cut, only nodes that turned gain a way. An added link, or a join, gives at most its tail a way, and of the
/// nodes that were connected before, no other one gains any. After any change, a connected node that did not turn has all
/// its ways from before the round. If the others use only such ways too, each of its walks goes on until it arrives, and
/// meets only nodes that did not turn. So routers that first drop their lost ways (the others may be empty meanwhile)
/// serve these nodes all the time.
pub fn gains_law()
    ensures cut { CutGrowsTurned }
    ensures added { AddGrowsItsTail }
    ensures joined { JoinGrowsATail }
    ensures home { StillLeadsHome }
{}
