//! What a node of a shared table has.

/// What a node has in a table. Each word of a table holds one.
pub trait Item {
    ghost use Rattle.fr_shared.specs.Codec.{Codec};

    // How a word holds an item, and which tables have no loop.
    ghost codec: { Codec Self };
}
