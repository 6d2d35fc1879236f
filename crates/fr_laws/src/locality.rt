//! Which nodes a change touches. Each clause is a law of `specs/Locality.antt`, proved. The function does nothing.

ghost use Rattle.fr_laws.specs.Locality.{ChangeIsARound, WhoTurns, LinksStand};
ghost use Rattle.fr_laws.specs.Locality.{AddSparesJoined, JoinSparesJoined, CutSparesOthers};

/// After a change, exactly the nodes turn that have a link and no path along the changed links. Links between the other
/// nodes are unchanged.
///
/// An added link turns no node that was connected to the destination, and of these nodes it changes at most the hop of
/// its tail. Of the nodes that were connected to the destination, a cut turns exactly those that keep a link and had no
/// path that avoids the cut link. It turns none of them if another link points away from the tail.
pub fn locality_law()
    ensures round { ChangeIsARound }
    ensures turns { WhoTurns }
    ensures links { LinksStand }
    ensures added { AddSparesJoined }
    ensures joined { JoinSparesJoined }
    ensures cut { CutSparesOthers }
{}
