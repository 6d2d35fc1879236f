//! What one round changes in a network.

use fr_graph::Edit;

/// What one round changes in a network: edits, and the destination after them.
#[derive(Clone, Copy)]
pub(crate) struct Revision<'a> {
    pub(crate) edits: &'a [Edit],
    pub(crate) dest: u32,
}
