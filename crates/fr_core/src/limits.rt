//! How many workers there may be. `specs/Limits.antt` has the same number for contracts.

/// The greatest number of workers that may turn the nodes of one network at once.
pub const MAX_WORKERS: u32 = 16;
