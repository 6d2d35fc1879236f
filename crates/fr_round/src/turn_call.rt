//! The steps of a call on a node, on atomic words: the exchange, and those loads of the machine of `fr_core` whose
//! result is not already known from what was seen.

ghost use Rattle.std.specs.Prelude.{◌≡◌, ◌<◌, IfNone, IfSome, slice_index};
ghost use Rattle.std.specs.List.{Contains};
ghost use Rattle.fr_graph.specs.Rows.{row};
ghost use Rattle.fr_core.specs.Replies.{IsReplyToTurn};
ghost use Rattle.fr_core.specs.Targets.{IsTurnable};
ghost use Rattle.fr_core.specs.declared.entry.Reply.TheVariants.{Held};
ghost use Rattle.fr_round.specs.Setups.{setup_of};
ghost use Rattle.fr_round.specs.Calls.{IsAtWords, IsInCall, AllMeet};
ghost use Rattle.fr_round.specs.Callers.{IsCaller, LoadsNeighbour, Tests, Passes, Makes};

use crate::rule::{Exchange, LoadInwardNeighbour, LoadOutwardNeighbour, LoadOwn};
use crate::seen_counts::Seen;
use crate::view::View;
use crate::words::Words;
use atomic_table::Seat;
use fr_core::Reply;
use fr_graph::First;

/// A seat at the words of a round.
pub type RoundSeat = Seat<(), View>;

/// The caller of the steps of a call: a worker's seat, and what the worker has seen.
#[derive(Drop)]
pub(crate) struct CallingWorker {
    pub seat: RoundSeat,
    pub seen: Seen,
}

/// Loads the count of a neighbour of the call's node. If it misses its bound, the call is decided.
fn load_neighbour_count(words: &Words, seat: &mut RoundSeat, entry: (u16, First)) -> u64
    requires table { IsAtWords words.now seat.old }
    requires call { IsInCall (setup_of words.now.round_setup) seat.old.me.0.node seat.old.me.0.count seat.old.me.0 }
    requires entry { let b = setup_of words.now.round_setup in Contains (row b.nodes b.links seat.old.me.0.node) entry }
    ensures { LoadsNeighbour seat.old entry result seat.new }
{
    let (neighbour, first) = entry;
    let at = neighbour as usize;
    let shared = &words.table.shared;
    match first {
        First::Outward => shared.load::<LoadOutwardNeighbour>(seat, at),
        First::Inward => shared.load::<LoadInwardNeighbour>(seat, at),
    }
}

impl CallingWorker {
    /// Whether a neighbour of `x` meets its bound for the count `c` of `x`, from what was seen or by a load. If it does
    /// not, the call is decided.
    fn meets_bound(&mut self, words: &Words, x: u32, c: u64, entry: (u16, First)) -> bool
        requires caller { IsCaller words.now self.old }
        requires call { IsInCall (setup_of words.now.round_setup) x c self.old.seat.me.0 }
        requires entry { Contains (row words.now.round_setup.net.nodes words.now.round_setup.net.links x) entry }
        ensures { Tests words.now self.old x c entry result self.new }
    {
        if !self.seen.misses_bound(entry, c) {
            return true;
        }
        let found = load_neighbour_count(words, &mut self.seat, entry);
        self.seen
            .raise_seen_count(&words.round_setup.net, entry.0 as u32, found);
        !self.seen.misses_bound(entry, c)
    }

    /// The first neighbour of `x`, in the order of its row, that misses its bound for the count `c` of `x`. It decides
    /// the call.
    pub(crate) fn find_holder(&mut self, words: &Words, x: u32, c: u64) -> Option<u32>
        requires caller { IsCaller words.now self.old }
        requires call { IsInCall (setup_of words.now.round_setup) x c self.old.seat.me.0 }
        ensures held { IfSome result (λ by. Makes words.now self.old x (Held by) self.new) }
        ensures passed { IfNone result (Passes words.now self.old x c self.new) }
    {
        words.round_setup.net.network_law();
        for entry in words.round_setup.net.row(x) {
            if !self.meets_bound(words, x, c, *entry) {
                return Some(entry.0 as u32);
            }
        }
        None
    }

    /// Exchanges the seen count `c` of node `x` for the next one, which decides the call.
    #[inline(always)]
    fn exchange_seen_count(&mut self, words: &Words, x: u32, c: u64) -> Reply
        requires caller { IsCaller words.now self.old }
        requires node { IsTurnable words.now.round_setup.net.nodes words.now.round_setup.dest words.now.round_setup.net.links x }
        requires count { (c ≡ slice_index self.old.seat.me.0.seen x) × (c < words.now.round_setup.net.nodes) }
        requires met { AllMeet words.now.round_setup.net.links self.old.seat.me.0.seen x c }
        ensures made { Makes words.now self.old x result self.new }
        ensures kind { IsReplyToTurn result }
    {
        let shared = &words.table.shared;
        let found = shared.compare_exchange::<Exchange>(&mut self.seat, x as usize, c, c + 1);
        if found == c {
            self.seen.raise_seen_count(&words.round_setup.net, x, c + 1);
            Reply::Turned { count: c + 1 }
        } else {
            self.seen.raise_seen_count(&words.round_setup.net, x, found);
            Reply::Moved {
                had: c,
                count: found,
            }
        }
    }

    /// Makes one call on node `x`, up to the step that decides it. If every neighbour was seen to meet its bound for
    /// the seen count of `x`, the call is only the exchange of that count. Otherwise it loads the count of `x`; then
    /// those of the neighbours that were not seen to meet their bounds for it, in the order of the row; and then it
    /// exchanges the count of `x`.
    pub(crate) fn turn_at(&mut self, words: &Words, x: u32) -> Reply
        requires caller { IsCaller words.now self.old }
        requires node { IsTurnable words.now.round_setup.net.nodes words.now.round_setup.dest words.now.round_setup.net.links x }
        ensures made { Makes words.now self.old x result self.new }
        ensures kind { IsReplyToTurn result }
    {
        let nodes = u64::from(words.round_setup.net.nodes());
        let had = self.seen.count(x);
        if had < nodes && self.seen.all_meet_bounds(x) {
            return self.exchange_seen_count(words, x, had);
        }
        let shared = &words.table.shared;
        let c = shared.load::<LoadOwn>(&mut self.seat, x as usize);
        self.seen.raise_seen_count(&words.round_setup.net, x, c);
        if c == nodes {
            return Reply::Cut;
        }
        match self.find_holder(words, x, c) {
            Some(by) => Reply::Held { by },
            None => self.exchange_seen_count(words, x, c),
        }
    }
}
