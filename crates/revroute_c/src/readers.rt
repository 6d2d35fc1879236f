//! Readers, which other threads use while the session changes.

ghost use Rattle.std.specs.Prelude.{◌≡◌, ◌⊎◌, IfOk};
ghost use Rattle.fr_shared.specs.HopTables.{hop_of};
ghost use Rattle.revroute_c.specs.Questions.{number_of};
ghost use Rattle.revroute_c.specs.Readers.{ReadsOn, TellsHopRead, TellsWalk};
ghost use Rattle.revroute_c.specs.Replies.{outcome};

use crate::questions::{CUT_OFF, HERE, HOP_OF_NO_NODE};
use crate::statuses::{ANSWERED, NO_ROUTE, TOO_SHORT};
use fr_shared::hops::{Reader, WalkEnd};
use std::alloc::{AllocError, Global};

/// One more reader of the same table.
pub(crate) fn copy_reader(reader: &mut Reader, alloc: Global) -> Result<Box<Reader>, AllocError>
    ensures same { reader.new ≡ reader.old }
    ensures other { IfOk result (λ other. other.value ≡ reader.old) }
{
    let other = reader.try_clone()?;
    Ok(Box::new(alloc, other)?)
}

/// The hop of a node as a number.
pub(crate) fn read_hop(reader: &mut Reader, node: u32) -> u32
    ensures { TellsHopRead reader.old reader.new node result }
{
    if node >= reader.nodes() {
        return HOP_OF_NO_NODE;
    }
    number_in(reader.word(node))
}

/// The hop that a word holds, as a number. This is faster than through a `Hop`.
fn number_in(word: u64) -> u32
    ensures { result ≡ number_of (hop_of word) }
{
    if word < fr_shared::hops::HERE {
        word as u32
    } else if word == fr_shared::hops::HERE {
        HERE
    } else {
        CUT_OFF
    }
}

/// Walks from a node hop by hop, and writes it and the nodes after it to the front of the place. `size` must be 0.
pub(crate) fn read_walk(reader: &mut Reader, node: u32, place: &mut [u32], size: &mut usize) -> u32
    requires { size.old ≡ 0 }
    ensures reads_on { ReadsOn reader.old reader.new }
    ensures walk { TellsWalk reader.old reader.new node (outcome result place.old place.new size.new) }
    ensures status { (result ≡ ANSWERED) ⊎ (result ≡ TOO_SHORT) ⊎ (result ≡ NO_ROUTE) }
{
    if node >= reader.nodes() {
        return NO_ROUTE;
    }
    if place.is_empty() {
        *size = 1;
        return TOO_SHORT;
    }
    place[0] = node;
    let walk = reader.walk(node, &mut place[1..]);
    match walk.end {
        WalkEnd::Arrived => {
            *size = walk.count + 1;
            ANSWERED
        }
        WalkEnd::CutOff => NO_ROUTE,
        WalkEnd::Longer => {
            *size = walk.count + 2;
            TOO_SHORT
        }
    }
}
