//! What the seats of a round know. These types are only for contracts: no code makes a value of them.

use fr_core::Entry;
use std::collections::LinkedList;

/// The setup of a round: the number of nodes, the destination, the first links, and the number of workers.
pub struct Setup {
    pub nodes: u32,
    pub dest: u32,
    pub links: LinkedList<(u32, u32)>,
    pub workers: u32,
}

/// What one seat knows about the round with this setup.
pub struct View {
    pub setup: Setup,
    /// Whether this is a worker's seat.
    pub works: bool,
    /// The number of the seat's worker.
    pub number: u32,
    /// The history up to the worker's last call, or up to where it learned another worker's.
    pub known: LinkedList<Entry>,
    /// The history that was handed to it last.
    pub received: LinkedList<Entry>,
    /// Counts that the nodes had reached by then.
    pub seen: LinkedList<u64>,
    /// The node of the current call.
    pub node: u32,
    /// The count of that node, after the call has loaded it.
    pub count: u64,
    /// Whether this is the seat that gives out the workers' numbers.
    pub opens: bool,
    /// The next number that it gives out.
    pub next: u32,
    /// Whether this is a seat that takes workers back.
    pub closes: bool,
    /// The number and the history of each worker that it took back.
    pub taken: LinkedList<(u32, LinkedList<Entry>)>,
}
