//! The laws of rows, of joins and of faults. Each clause is a law of `specs/Laws.antt`, proved. The functions do
//! nothing.

ghost use Rattle.fr_graph.specs.Laws.{OutwardIsALinkTo, InwardIsALinkFrom, LinksAreSeenFromBothEnds, NeighboursRise};
ghost use Rattle.fr_graph.specs.Laws.{OneWayIsFree, LinksHaveOneFault, EditsHaveOneFault, BatchesHaveOneFault};

/// What the rows of a network say about its links, and in which order.
pub fn rows_law()
    ensures outward { OutwardIsALinkTo }
    ensures inward { InwardIsALinkFrom }
    ensures both { LinksAreSeenFromBothEnds }
    ensures rising { NeighboursRise }
{}

/// Two nodes that no link joins can be joined in at least one direction.
pub fn join_law()
    ensures { OneWayIsFree }
{}

/// What has a fault determines its kind and its evidence: links, a refused edit, or a refused batch.
pub fn evidence_law()
    ensures links { LinksHaveOneFault }
    ensures edit { EditsHaveOneFault }
    ensures batch { BatchesHaveOneFault }
{}
