//! The word that holds a hop.

ghost use Rattle.std.specs.Prelude.{◌≡◌};
ghost use Rattle.fr_shared.specs.HopTables.{hop_of, word_of};

use fr_tables::Hop;

/// The word of the destination. It is greater than the number of any node.
pub const HERE: u64 = 0x1_0000_0000;

/// The word of a node that is cut off.
pub(crate) const CUT_OFF: u64 = 0x1_0000_0001;

/// The word of this hop.
pub(crate) fn word(hop: Hop) -> u64
    ensures word { result ≡ word_of hop }
    ensures held { hop_of result ≡ hop }
{
    match hop {
        Hop::Here => HERE,
        Hop::To(next) => u64::from(next),
        Hop::CutOff => CUT_OFF,
    }
}

/// The hop that a word holds.
pub(crate) fn hop_in(word: u64) -> Hop
    ensures { result ≡ hop_of word }
{
    if word < HERE {
        Hop::To(word as u32)
    } else if word == HERE {
        Hop::Here
    } else {
        Hop::CutOff
    }
}
