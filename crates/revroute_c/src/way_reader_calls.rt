//! The calls by which C reads the ways of nodes from any thread while the session changes.

ghost use Rattle.std.specs.Prelude.{◌≡◌, ◌≢◌, ◌⊎◌, ◌↔◌};
ghost use denote.RawPtr.{null_ptr};
ghost use Rattle.fr_shared.specs.Knowledge.{past_of};
ghost use Rattle.fr_shared.specs.Reading.{LearnsPast};
ghost use Rattle.fr_shared.specs.WayTables.{way_codec};
ghost use Rattle.revroute_c.specs.Lending.{held_by};
ghost use Rattle.revroute_c.specs.Questions.{no_network};
ghost use Rattle.revroute_c.specs.ReaderOpening.{OpensWays, ReadsWaysOf};
ghost use Rattle.revroute_c.specs.Readers.{TellsLearned};
ghost use Rattle.revroute_c.specs.Replies.{outcome};
ghost use Rattle.revroute_c.specs.Statuses.{REVROUTE_ANSWERED, REVROUTE_NO_MEMORY, REVROUTE_NO_NETWORK};
ghost use Rattle.revroute_c.specs.Statuses.{REVROUTE_NO_ROUTE, REVROUTE_TOO_SHORT};
ghost use Rattle.revroute_c.specs.WayReaderLending.{IsSameWayReader};
ghost use Rattle.revroute_c.specs.WayReaders.{TellsWayRead, TellsWaysRead, no_way_reader};

use crate::handle::Handle;
use crate::questions::HOP_OF_NO_NETWORK;
use crate::statuses::{ANSWERED, NO_MEMORY, NO_NETWORK};
use crate::way_reader_handle::WayReaderHandle;
use crate::way_reader_opening::{way_reader_in, way_reader_of_new_session};
use crate::way_readers::{copy_way_reader, read_way, read_ways};
use std::alloc::Global;

/// Opens a reader of the session's ways, which knows all pushes made so far, and puts it into `reader`. A reader that
/// was there is closed. From then on, each accepted line or round pushes the ways, all shrinks before all grows, before
/// its call returns. The session may be one without a network; then each node has no way. A reader can be used after
/// its session is closed, and reads the last ways then.
///
/// Returns `NO_MEMORY` if an allocation was refused. Then the reader is unchanged and the session answers as before,
/// although the table for its readers of ways may be there now. The first reader of a session costs what
/// [`PublishedSession::way_reader`](fr_readers::PublishedSession::way_reader) costs, and each later one O(1).
#[unsafe(no_mangle)]
pub extern "C" fn revroute_way_reader_open(
    alloc: Global,
    handle: &mut Handle,
    reader: &mut WayReaderHandle,
) -> u32
    // The session is unchanged. A table that is already open stays as it is.
    ensures opens { OpensWays (held_by handle.old) (held_by handle.new) }
    // The reader knows all pushes made before it was opened, and reads the session's first ways. Each accepted line
    // or round then pushes exactly the shrinks and then the grows to the new ways, before its call returns.
    ensures reader { result ≡ REVROUTE_ANSWERED → ReadsWaysOf (held_by handle.new) reader.new.reading }
    ensures kept { ¬ (result ≡ REVROUTE_ANSWERED) → reader.new ≡ reader.old }
    ensures handle { (handle.new.at ≡ handle.old.at) ⊎ ((handle.old.at ≡ null_ptr) × (result ≡ REVROUTE_ANSWERED)) }
    ensures status { (result ≡ REVROUTE_ANSWERED) ⊎ (result ≡ REVROUTE_NO_MEMORY) }
{
    let opened = match handle.pointer().value_mut() {
        Some(state) => way_reader_in(state, alloc),
        None => way_reader_of_new_session(handle, alloc),
    };
    match opened {
        Ok(opened) => {
            reader.pointer().put(alloc, opened);
            ANSWERED
        }
        Err(_) => NO_MEMORY,
    }
}

/// Opens one more reader of the same table, for another thread, and puts it into `other`. All else is as for
/// [`revroute_reader_copy`](crate::revroute_reader_copy). O(1).
#[unsafe(no_mangle)]
pub extern "C" fn revroute_way_reader_copy(
    alloc: Global,
    reader: &mut WayReaderHandle,
    other: &mut WayReaderHandle,
) -> u32
    ensures same { IsSameWayReader reader.old reader.new }
    // It knows what the reader knows that it copies.
    ensures copied { result ≡ REVROUTE_ANSWERED → other.new.reading ≡ reader.old.reading }
    ensures kept { ¬ (result ≡ REVROUTE_ANSWERED) → other.new ≡ other.old }
    ensures no_network { (result ≡ REVROUTE_NO_NETWORK) ↔ (reader.old.at ≡ null_ptr) }
    ensures status { (result ≡ REVROUTE_ANSWERED) ⊎ (result ≡ REVROUTE_NO_MEMORY) ⊎ (result ≡ REVROUTE_NO_NETWORK) }
{
    let Some(held) = reader.pointer().value_mut() else {
        return NO_NETWORK;
    };
    let Ok(copy) = copy_way_reader(held, alloc) else {
        return NO_MEMORY;
    };
    other.pointer().put(alloc, copy);
    ANSWERED
}

/// Lets `reader` learn all pushes that `other` knows, as [`revroute_reader_learn`](crate::revroute_reader_learn) does
/// for readers of hops. Both must be readers of one session. Returns `NO_NETWORK` if one of them is null; then both are
/// unchanged. It makes three loads, and does not allocate or wait. O(1).
#[unsafe(no_mangle)]
pub extern "C" fn revroute_way_reader_learn(
    reader: &mut WayReaderHandle,
    other: &mut WayReaderHandle,
) -> u32
    // Both readers read the same table.
    requires one_table { reader.old.at ≢ null_ptr → other.old.at ≢ null_ptr
        → other.old.reading.table ≡ reader.old.reading.table }
    // The reader then answers from the last table that the other reader knew, or from a later one.
    ensures learns { TellsLearned (LearnsPast way_codec reader.old.reading (past_of other.old.reading) reader.new.reading)
        reader.old.reading reader.new.reading result }
    ensures same { IsSameWayReader other.old other.new }
    ensures same_handle { reader.new.at ≡ reader.old.at }
    // Exactly if one of the readers is null.
    ensures no_network { (result ≡ REVROUTE_NO_NETWORK) ↔ ((reader.old.at ≡ null_ptr) ⊎ (other.old.at ≡ null_ptr)) }
    ensures status { (result ≡ REVROUTE_ANSWERED) ⊎ (result ≡ REVROUTE_NO_NETWORK) }
{
    let Some(held) = reader.pointer().value_mut() else {
        return NO_NETWORK;
    };
    let Some(knowing) = other.pointer().value_mut() else {
        return NO_NETWORK;
    };
    held.learn(knowing.past());
    ANSWERED
}

/// Writes the first ways of a node, nearest first, to the front of `ways`, and their number to `size`. They are at most
/// five, and all of one moment. A number below 4,096 has none if it is the destination, if it is cut off, or if it is
/// not a node of the network. Returns `ANSWERED`, or:
///
/// - `TOO_SHORT`: there is too little room. `size` is the number of ways.
/// - `NO_ROUTE`: the number is 4,096 or more.
/// - `NO_NETWORK`: the reader is null.
///
/// `size` is 0 in the last two cases. In all three cases `ways` is unchanged. The call makes one load, and does not
/// allocate or wait. Other threads may use the session and other readers meanwhile. O(1).
#[unsafe(no_mangle)]
pub extern "C" fn revroute_way_reader_ways(
    reader: &mut WayReaderHandle,
    node: u32,
    ways: &mut [u32],
    size: &mut usize,
) -> u32
    // The ways are those in the last table that the reader then knows, read by one load. Its tables continue what it
    // knew, and none has a cycle. `TOO_SHORT` comes with the number of ways, at most five. `NO_ROUTE` only for a
    // number that no table has.
    ensures ways { TellsWaysRead reader.old.reading reader.new.reading node
        (outcome result ways.old ways.new size.new) }
    ensures same_handle { reader.new.at ≡ reader.old.at }
    // Exactly for a null reader.
    ensures no_network { (result ≡ REVROUTE_NO_NETWORK) ↔ (reader.old.at ≡ null_ptr) }
    ensures status { (result ≡ REVROUTE_ANSWERED) ⊎ (result ≡ REVROUTE_TOO_SHORT) ⊎ (result ≡ REVROUTE_NO_NETWORK)
        ⊎ (result ≡ REVROUTE_NO_ROUTE) }
{
    *size = 0;
    match reader.pointer().value_mut() {
        Some(held) => read_ways(held, node, ways, size),
        None => NO_NETWORK,
    }
}

/// Returns one of the first ways of a node: the one at the place `choice` modulo their number, where `choice` can be a
/// hash of a packet's flow. If the node has none, returns the value for a node that is cut off. A number of 4,096 or
/// more is not a node. For a null reader it returns that there is no network. It makes one load, and does not allocate
/// or wait. O(1).
#[unsafe(no_mangle)]
pub extern "C" fn revroute_way_reader_way(
    reader: &mut WayReaderHandle,
    node: u32,
    choice: u32,
) -> u32
    // A null reader has no network.
    ensures null { reader.old.at ≡ null_ptr → (result ≡ no_network) × (reader.new.reading ≡ reader.old.reading) }
    // The way at the index `choice` modulo the number of first ways, as `revroute_way_reader_ways` would read them.
    ensures way { reader.old.at ≢ null_ptr
        → TellsWayRead reader.old.reading reader.new.reading node choice result }
    ensures same_handle { reader.new.at ≡ reader.old.at }
{
    match reader.pointer().value_mut() {
        Some(held) => read_way(held, node, choice),
        None => HOP_OF_NO_NETWORK,
    }
}

/// Closes a reader of ways. The handle is then null. The table is released once its session and its last reader are
/// closed. O(1), and O(4,096) when the table is released.
#[unsafe(no_mangle)]
pub extern "C" fn revroute_way_reader_close(alloc: Global, reader: &mut WayReaderHandle)
    ensures none { reader.new.reading ≡ no_way_reader }
    ensures null { reader.new.at ≡ null_ptr }
{
    drop(reader.pointer().take(alloc));
}
