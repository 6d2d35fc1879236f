//! Closing a round: taking its workers back and reading its words.

ghost use Rattle.std.specs.Prelude.{◌≡◌, ◌+◌, ◌≤◌, ◌++◌, map, length, vec_capacity};
ghost use Rattle.std.specs.List.{AllByRecursion as Each};
ghost use Rattle.std.specs.Slots.{slots_items, IsFull};
ghost use Rattle.fr_round.specs.Calls.{IsClosing, IsSameSeat};
ghost use Rattle.fr_round.specs.Knowledge.{Knowledge};
ghost use Rattle.fr_round.specs.Closing.{number_and_known, number_and_turns};

use crate::rule::TakeWorker;
use crate::turn_call::RoundSeat;
use crate::words::RoundTable;
use crate::worker::Worker;
use atomic_table::Closed as ClosedWords;
use fr_graph::Net;
use std::alloc::Global;

/// A closed round.
#[derive(Debug, Drop)]
pub struct Closed {
    /// The network, with its first links.
    pub net: Net,
    /// How often each node has turned.
    pub counts: Vec<u64>,
    /// The number of each worker that was given back, and how often its own calls turned a node.
    pub turned: Vec<(u32, u64)>,
}

/// Takes the workers back at a closing seat, and lists their numbers and turns.
pub(crate) fn take_back_workers(
    table: &RoundTable,
    seat: &mut RoundSeat,
    turned: &mut Vec<(u32, u64)>,
    workers: Vec<Worker>,
)
    requires closing { IsClosing table.now.shared.table_id seat.old }
    requires own { Each (λ (k : Knowledge). k.table ≡ table.now.shared.table_id) workers.items }
    requires room { length turned.old.items + length workers.items ≤ vec_capacity turned.old }
    ensures seat { IsSameSeat seat.old seat.new }
    ensures taken { seat.new.me.0
        ≡ record seat.old.me.0 { taken = seat.old.me.0.taken ++ map number_and_known workers.items } }
    ensures turned { turned.new.items ≡ turned.old.items ++ map number_and_turns workers.items }
{
    for worker in workers {
        turned.push_reserved((worker.number(), worker.turned()));
        table
            .shared
            .join_seat::<TakeWorker>(seat, worker.into_seat());
    }
}

/// Reads the words into the list that was allocated for them.
pub(crate) fn read_counts(closed: &ClosedWords<(), Global>, counts: &mut [u64])
    requires full { IsFull closed.now.words }
    requires long { length (slots_items closed.now.words) ≡ length counts.old }
    ensures { counts.new ≡ slots_items closed.now.words }
{
    for i in 0..counts.len() {
        counts[i] = closed.word(i);
    }
}
