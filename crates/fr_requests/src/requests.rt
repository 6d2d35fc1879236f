//! The requests that a line can be, and why a line is not a request.

ghost use Rattle.std.specs.Prelude.{◌≡◌};
ghost use Rattle.fr_requests.specs.declared.requests.LineFault.TheVariants.{Memory};

use fr_graph::Edit;
use fr_tables::Hop;
use fr_ways::WayTable;
use std::alloc::{AllocError, AllocFailed};
use thiserror::Error;

/// What a line asks for. The numbers are those of the line, from 0 to 4,294,967,295. Whoever uses the request has to
/// test whether they are nodes, and whether the links make a network.
#[derive(Debug, Drop)]
pub enum Request {
    /// Use this network from now on: `["net", nodes, dest, links]`.
    Network {
        /// The number of nodes.
        nodes: u32,
        /// The destination.
        dest: u32,
        /// The links in the order of the line, each from its tail to its head.
        links: Vec<(u32, u32)>,
    },
    /// Remove the link between two nodes, whichever way it points: `["cut", u, v]`.
    Cut {
        /// One end of the link.
        u: u32,
        /// The other end.
        v: u32,
    },
    /// Add a link: `["add", u, v]`.
    Add {
        /// The tail of the link.
        u: u32,
        /// Its head.
        v: u32,
    },
    /// Join two nodes by a link, in a direction that closes no cycle: `["join", u, v]`.
    Join {
        /// The tail of the link, unless that would close a cycle.
        u: u32,
        /// The head of the link then.
        v: u32,
    },
    /// Make these edits in order: `["batch", [["cut", u, v], ["add", u, v], ["join", u, v], ..]]`.
    Batch {
        /// The edits in the order of the line.
        edits: Vec<Edit>,
    },
    /// Use another destination: `["dest", dest]`.
    Destination {
        /// The destination.
        dest: u32,
    },
    /// Ask for the route from a node to the destination: `["walk", x]`. This changes nothing.
    Walk {
        /// The first node of the route.
        x: u32,
    },
    /// Ask a question. This changes nothing.
    Ask(Question),
    /// Ask a question about one node: `["ways", x]` or `["nearest", x]`. This changes nothing.
    AskNode {
        /// What is asked.
        question: NodeQuestion,
        /// The node.
        x: u32,
    },
    /// Ask which hops to push, in which order, from one table of hops to another: `["pushes", table]` or
    /// `["pushes", table, wanted]`. A node that is missing at the end of a table is cut off. This changes nothing.
    Pushes {
        /// The table before the pushes.
        table: Vec<Hop>,
        /// The table after them. Without it, they lead to the next hops of the network in use.
        wanted: Option<Vec<Hop>>,
    },
    /// Ask which ways to push, in two phases, from one table of ways to the ways of the network in use:
    /// `["phases", table]`. A node that is missing at the end of the table has no ways. This changes nothing.
    Phases {
        /// The table before the pushes.
        table: WayTable,
    },
}

/// What can be asked about the network in use.
#[derive(Clone, Copy, Debug, PartialEq, Eq)]
pub enum Question {
    /// The links, in their current directions: `["links"]`.
    Links,
    /// How often each node has turned: `["counts"]`.
    Counts,
    /// The next hop of each node on its way to the destination: `["hops"]`.
    Hops,
    /// All nodes to which each node may send on, nearest first: `["ways"]`.
    Ways,
}

/// What can be asked about one node of the network in use.
#[derive(Clone, Copy, Debug, PartialEq, Eq)]
pub enum NodeQuestion {
    /// All nodes to which the node may send on, nearest first: `["ways", x]`.
    Ways,
    /// A route of the fewest links along the ways: `["nearest", x]`.
    Nearest,
}

/// Why a line is not a request.
#[derive(Debug, Drop, Error, PartialEq, Eq)]
pub enum LineFault {
    /// The line is not one JSON value: it is not UTF-8 or not JSON, it has no value or more than one, or it nests
    /// deeper than 127.
    #[error("the line is not JSON")]
    NotJson,
    /// The line is a JSON value that is not a request.
    #[error("the line is not a request")]
    NotRequest,
    /// An allocation was refused. This says nothing about the line.
    #[error("no memory")]
    Memory,
}

// Written by hand, because clauses say which fault a `?` returns.
impl From<AllocError> for LineFault {
    ghost from_gives = { λ _ fault. fault ≡ Memory };

    fn from(_refused: AllocError) -> LineFault {
        LineFault::Memory
    }
}

impl<T: Drop> From<AllocFailed<T>> for LineFault {
    ghost from_gives = { λ _ fault. fault ≡ Memory };

    fn from(_refused: AllocFailed<T>) -> LineFault {
        LineFault::Memory
    }
}
