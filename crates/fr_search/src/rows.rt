//! What the search reads.

ghost use Rattle.std.specs.Prelude.{◌≡◌, ℕ, ◌<◌, Option, map};
ghost use Rattle.fr_search.specs.Heads.{HeadRows};

/// Rows of entries, one for each node. An entry can have a head: the node to which it leads.
pub trait Rows {
    /// An entry of a row.
    type Entry: Copy + Drop;

    // The number of the rows, and the heads of the entries of each row.
    ghost shown: { Self → HeadRows };

    ghost head: { Self.Entry → Option ℕ };

    /// The row of a node.
    fn row(&self, node: u32) -> &[Self::Entry]
        requires { node < (shown self.now).size }
        ensures { map head result.now ≡ (shown self.now).heads node };

    /// The head of an entry, if it has one.
    fn head_of(entry: Self::Entry) -> Option<u32>
        ensures { result ≡ head entry };
}
