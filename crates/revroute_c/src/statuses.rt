//! The results of calls, with the numbers of the header.

/// The result is written.
pub(crate) const ANSWERED: u32 = 0;

/// The line is blank, and has no answer.
pub(crate) const BLANK: u32 = 1;

/// There is too little room, and nothing has changed.
pub(crate) const TOO_SHORT: u32 = 2;

/// An allocation was refused, and nothing has changed.
pub(crate) const NO_MEMORY: u32 = 3;

/// There is no network yet.
pub(crate) const NO_NETWORK: u32 = 4;

/// The node has no route to the destination.
pub(crate) const NO_ROUTE: u32 = 5;

/// The call is refused, and nothing has changed.
pub(crate) const REFUSED: u32 = 6;

/// The edits or the network are not refused for a cycle.
pub(crate) const NO_WALK: u32 = 7;

/// No line has ended, and the bytes are kept.
pub(crate) const BEGUN: u32 = 8;

/// The line is longer than the limit.
pub(crate) const TOO_LONG: u32 = 9;

/// The table does not have one hop for each node, or one of its hops does not name a node.
pub(crate) const NO_TABLE: u32 = 10;

// 11 is a status of the header alone.

/// The ways and gates of the node are not written yet.
pub(crate) const UNWRITTEN: u32 = 12;

/// The bytes are not a message.
pub(crate) const NO_MESSAGE: u32 = 13;

/// The neighbour is not known, or the link to it is down.
pub(crate) const LINK_DOWN: u32 = 14;

/// An event came after the ways and gates were handed out.
pub(crate) const OUTDATED: u32 = 15;

/// A neighbour knows a later start of this router.
pub(crate) const LATER_START: u32 = 16;
