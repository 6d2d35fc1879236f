//! The entries of a history.

/// The reply to a call on a node.
#[derive(Debug, Drop, Clone, Copy, PartialEq, Eq)]
pub enum Reply {
    /// The node was a sink and turned. `count` is how often it has turned in the round, including this turn.
    Turned { count: u64 },
    /// The link between the node and its neighbour `by` points to `by`, so the node is not a sink.
    Held { by: u32 },
    /// The node had turned `had` times. Another worker has turned it since, and it has turned `count` times now.
    Moved { had: u64, count: u64 },
    /// The node has turned as often as there are nodes, and turns no more.
    Cut,
    /// All links of the node point to it. Only a look has this reply, and it turns nothing.
    Sink,
}

/// A decided call of a worker on a node.
#[derive(Debug, Drop, Clone, Copy, PartialEq, Eq)]
pub struct Entry {
    /// The worker that made the call. It does not matter for whether a history is legal, so it may be any number.
    pub worker: u32,
    /// The node of the call.
    pub node: u32,
    /// The reply to the call.
    pub reply: Reply,
}
