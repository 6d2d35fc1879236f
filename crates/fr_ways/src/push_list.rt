//! The pushes of a phase in plain lists.

ghost use Rattle.std.specs.Prelude.{◌≡◌, ℕ, ◌<◌, List, length, map};
ghost use Rattle.fr_ways.specs.PushLists.{AreListed};
ghost use Rattle.fr_ways.specs.Ways.{ways};

/// The pushes of one phase, wherever they are kept: for code that writes them in a form of its own, and for other
/// languages.
#[derive(Clone, Copy, Debug)]
pub struct PushList<'a> {
    /// The nodes that get a list, in the order in which to push.
    pub nodes: &'a [u32],
    /// Where the list of each of these nodes begins in `list`, and after the last one the length of `list`.
    pub starts: &'a [usize],
    /// The lists of these nodes, one after another.
    pub list: &'a [u32],
}

impl<'a> PushList<'a> {
    /// The list that the node at this place gets. O(1).
    pub fn row(&self, i: usize) -> &'a [u32]
        requires { (pushes : List (ℕ × List ℕ)) × AreListed pushes self.now × (i < length pushes) }
        ensures { (pushes : List (ℕ × List ℕ)) → AreListed pushes self.now
            → result.now ≡ ways (map (λ p. p.1) pushes) i }
    {
        let start = self.starts[i];
        let end = self.starts[i + 1];
        &self.list[start..end]
    }
}
