//! Calls of readers, which other threads use while the session changes.

ghost use Rattle.std.specs.Prelude.{◌≡◌, ◌≢◌, ◌⊎◌, ◌↔◌, None};
ghost use denote.RawPtr.{null_ptr};
ghost use Rattle.fr_shared.specs.Knowledge.{past_of};
ghost use Rattle.fr_shared.specs.Reading.{LearnsPast};
ghost use Rattle.fr_shared.specs.HopTables.{hop_codec};
ghost use Rattle.revroute_c.specs.Lending.{held_by};
ghost use Rattle.revroute_c.specs.Questions.{no_network};
ghost use Rattle.revroute_c.specs.ReaderLending.{IsSameReader};
ghost use Rattle.revroute_c.specs.ReaderOpening.{OpensTable, ReadsTableOf};
ghost use Rattle.revroute_c.specs.Readers.{ReadsOn, TellsHopRead, TellsLearned, TellsWalk, no_reader};
ghost use Rattle.revroute_c.specs.Replies.{outcome};
ghost use Rattle.revroute_c.specs.Statuses.{REVROUTE_ANSWERED, REVROUTE_TOO_SHORT};
ghost use Rattle.revroute_c.specs.Statuses.{REVROUTE_NO_MEMORY, REVROUTE_NO_NETWORK, REVROUTE_NO_ROUTE};

use crate::handle::Handle;
use crate::questions::HOP_OF_NO_NETWORK;
use crate::reader_handle::ReaderHandle;
use crate::reader_opening::{reader_in, reader_of_new_session};
use crate::readers::{copy_reader, read_hop, read_walk};
use crate::statuses::{ANSWERED, NO_MEMORY, NO_NETWORK, TOO_SHORT};
use std::alloc::Global;

/// Opens a reader of the session's hops, which knows all pushes made so far, and puts it into `reader`. A reader that
/// was there is closed. From then on, each accepted round pushes the changed hops, in push order, before its call
/// returns. The session may be one without a network; then each node is cut off. A reader can be used after its session
/// is closed, and reads the last hops then.
///
/// Returns `NO_MEMORY` if an allocation was refused. Then the reader is unchanged and the session answers as before,
/// although the table for its readers may be there now. O(4,096 + n) for the first reader of a session, and O(1) for
/// each later one.
#[unsafe(no_mangle)]
pub extern "C" fn revroute_reader_open(
    alloc: Global,
    handle: &mut Handle,
    reader: &mut ReaderHandle,
) -> u32
    // The session is unchanged. A table that is already open stays as it is.
    ensures opens { OpensTable (held_by handle.old) (held_by handle.new) }
    // The reader knows all pushes made before it was opened. Each accepted round is then pushed, in push order,
    // before its call returns.
    ensures reader { result ≡ REVROUTE_ANSWERED → ReadsTableOf (held_by handle.new) reader.new.reading }
    ensures kept { ¬ (result ≡ REVROUTE_ANSWERED) → reader.new ≡ reader.old }
    ensures handle { (handle.new.at ≡ handle.old.at) ⊎ ((handle.old.at ≡ null_ptr) × (result ≡ REVROUTE_ANSWERED)) }
    ensures status { (result ≡ REVROUTE_ANSWERED) ⊎ (result ≡ REVROUTE_NO_MEMORY) }
{
    let opened = match handle.pointer().value_mut() {
        Some(state) => reader_in(state, alloc),
        None => reader_of_new_session(handle, alloc),
    };
    match opened {
        Ok(opened) => {
            reader.pointer().put(alloc, opened);
            ANSWERED
        }
        Err(_) => NO_MEMORY,
    }
}

/// Opens one more reader of the same table, for another thread, and puts it into `other`. A reader that was there is
/// closed. The new reader knows what `reader` knows. Returns `ANSWERED`, or:
///
/// - `NO_NETWORK`: `reader` is null.
/// - `NO_MEMORY`: an allocation was refused.
///
/// In both cases `other` is unchanged. O(1).
#[unsafe(no_mangle)]
pub extern "C" fn revroute_reader_copy(
    alloc: Global,
    reader: &mut ReaderHandle,
    other: &mut ReaderHandle,
) -> u32
    ensures same { IsSameReader reader.old reader.new }
    // It knows what the reader knows that it copies.
    ensures copied { result ≡ REVROUTE_ANSWERED → other.new.reading ≡ reader.old.reading }
    ensures kept { ¬ (result ≡ REVROUTE_ANSWERED) → other.new ≡ other.old }
    ensures no_network { (result ≡ REVROUTE_NO_NETWORK) ↔ (reader.old.at ≡ null_ptr) }
    ensures status { (result ≡ REVROUTE_ANSWERED) ⊎ (result ≡ REVROUTE_NO_MEMORY) ⊎ (result ≡ REVROUTE_NO_NETWORK) }
{
    let Some(held) = reader.pointer().value_mut() else {
        return NO_NETWORK;
    };
    let Ok(copy) = copy_reader(held, alloc) else {
        return NO_MEMORY;
    };
    other.pointer().put(alloc, copy);
    ANSWERED
}

/// Lets `reader` learn all pushes that `other` knows. From then on it never answers from an earlier table than the last
/// one that `other` knew. So a thread that has changed the session can open a reader, and another thread learns from it:
/// it then answers from the hops of that change, or from later ones. `other` is unchanged. Returns `ANSWERED`, or:
///
/// - `NO_NETWORK`: one of the readers is null. Then both are unchanged.
///
/// Both must be readers of one session. The call cannot test this, because two readers do not show whether they share
/// a table. It makes three loads, and does not allocate or wait. O(1).
#[unsafe(no_mangle)]
pub extern "C" fn revroute_reader_learn(reader: &mut ReaderHandle, other: &mut ReaderHandle) -> u32
    // Both readers read the same table.
    requires one_table { reader.old.at ≢ null_ptr → other.old.at ≢ null_ptr
        → other.old.reading.table ≡ reader.old.reading.table }
    // The reader then answers from the last table that the other reader knew, or from a later one. So it sees a
    // change of the session, if the other reader was opened after that change.
    ensures learns { TellsLearned (LearnsPast hop_codec reader.old.reading (past_of other.old.reading) reader.new.reading)
        reader.old.reading reader.new.reading result }
    ensures same { IsSameReader other.old other.new }
    ensures same_handle { reader.new.at ≡ reader.old.at }
    // Exactly if one of the readers is null.
    ensures no_network { (result ≡ REVROUTE_NO_NETWORK) ↔ ((reader.old.at ≡ null_ptr) ⊎ (other.old.at ≡ null_ptr)) }
    ensures status { (result ≡ REVROUTE_ANSWERED) ⊎ (result ≡ REVROUTE_NO_NETWORK) }
{
    let Some(held) = reader.pointer().value_mut() else {
        return NO_NETWORK;
    };
    let Some(knowing) = other.pointer().value_mut() else {
        return NO_NETWORK;
    };
    held.learn(knowing.past());
    ANSWERED
}

/// Returns the next hop of a node, as [`revroute_next_hop`] does, by one load. It does not wait, and other threads may
/// use the session and other readers meanwhile. A number below 4,096 that is not a node of the network is cut off; a
/// number of 4,096 or more is not a node. For a null reader it returns that there is no network. O(1).
#[unsafe(no_mangle)]
pub extern "C" fn revroute_reader_next_hop(reader: &mut ReaderHandle, node: u32) -> u32
    ensures null { reader.old.at ≡ null_ptr → (result ≡ no_network) × (reader.new.reading ≡ reader.old.reading) }
    // The hop in the last table that the reader then knows. Its tables continue what it knew, and none has a loop,
    // even after the session is closed.
    ensures hop { reader.old.at ≢ null_ptr → TellsHopRead reader.old.reading reader.new.reading node result }
    ensures same_handle { reader.new.at ≡ reader.old.at }
{
    match reader.pointer().value_mut() {
        Some(held) => read_hop(held, node),
        None => HOP_OF_NO_NETWORK,
    }
}

/// Walks hop by hop from a node. Writes this node and those after it to the front of `nodes`, and their number to
/// `size`. The walk makes one load for each node. While hops are pushed, each load can read a later table. Returns
/// `ANSWERED` if the walk reaches the destination, or:
///
/// - `TOO_SHORT`: `nodes` is full before the walk has ended. `size` is one more than there is room for.
/// - `NO_ROUTE`: the last node is cut off, or the first number is 4,096 or more. While hops are pushed, a walk can end
///   like this although its first node has a route before and after.
/// - `NO_NETWORK`: the reader is null.
///
/// `size` is 0 in the last two cases. In each case the front of `nodes` has the nodes walked so far, and the rest is
/// unchanged. It does not allocate or wait. O(r) for a walk of r nodes.
#[unsafe(no_mangle)]
pub extern "C" fn revroute_reader_walk(
    reader: &mut ReaderHandle,
    node: u32,
    nodes: &mut [u32],
    size: &mut usize,
) -> u32
    // Each hop is from a table that the reader then knew. `ANSWERED` only if the last node is the destination.
    // `NO_ROUTE` only if the walk ends at a number that is cut off or not a node, `TOO_SHORT` only if the buffer is
    // full. The rest of the buffer is unchanged.
    ensures walk { TellsWalk reader.old.reading reader.new.reading node
        (outcome result nodes.old nodes.new size.new) }
    ensures reads_on { ReadsOn reader.old.reading reader.new.reading }
    ensures same_handle { reader.new.at ≡ reader.old.at }
    ensures no_network { (result ≡ REVROUTE_NO_NETWORK) ↔ (reader.old.at ≡ null_ptr) }
    ensures status { (result ≡ REVROUTE_ANSWERED) ⊎ (result ≡ REVROUTE_TOO_SHORT) ⊎ (result ≡ REVROUTE_NO_NETWORK)
        ⊎ (result ≡ REVROUTE_NO_ROUTE) }
{
    *size = 0;
    match reader.pointer().value_mut() {
        Some(held) => read_walk(held, node, nodes, size),
        None => NO_NETWORK,
    }
}

/// Closes a reader. The handle is then null. The table is released once its session and its last reader are closed.
/// O(1), and O(4,096) when the table is released.
#[unsafe(no_mangle)]
pub extern "C" fn revroute_reader_close(alloc: Global, reader: &mut ReaderHandle)
    ensures none { reader.new.reading ≡ no_reader }
    ensures null { reader.new.at ≡ null_ptr }
{
    drop(reader.pointer().take(alloc));
}
