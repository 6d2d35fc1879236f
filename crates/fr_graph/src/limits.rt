//! How large a network may be. `specs/Limits.antt` has the same numbers for contracts.

/// The greatest number of nodes of a network.
pub const MAX_NODES: u32 = 4096;

// Rows keep nodes, and workers keep counts, as `u16`.
const _: () = prove!(MAX_NODES < 65_536);

/// The greatest number of links of a network.
pub const MAX_LINKS: usize = 32768;

/// The greatest number of edits of a batch.
pub const MAX_EDITS: usize = 1024;
