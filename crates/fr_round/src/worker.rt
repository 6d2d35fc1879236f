//! The workers of a round.

ghost use Rattle.std.specs.Prelude.{◌≡◌, ◌<◌, [], true, cond, slice_index};
ghost use Rattle.fr_core.specs.History.{is_turned, part, turn_count};
ghost use Rattle.fr_core.specs.Replies.{IsReplyToTurn, IsReplyToLook};
ghost use Rattle.fr_core.specs.Targets.{IsTurnable, IsLookable};
ghost use Rattle.fr_round.specs.Missing.{IsCounted};
ghost use Rattle.fr_round.specs.Calls.{IsNewView};
ghost use Rattle.fr_round.specs.Callers.{IsOfWords};
ghost use Rattle.fr_round.specs.Knowledge.{IsKnowledge, KeepsWorker, LearnsPast, LearnsReply, new_worker, past_of};
ghost use Rattle.fr_round.specs.Closing.{number_and_known};

use crate::past::Past;
use crate::rule::{CatchUp, HandOn, Receive};
use crate::seen_counts::Seen;
use crate::turn_call::{CallingWorker, RoundSeat};
use crate::words::Words;
use fr_core::Reply;
use std::marker::Model;

/// A worker of a round, which one thread at a time holds. The value in contracts is what it knows: the history up to
/// its last call, and counts that the nodes had reached.
#[derive(Drop)]
pub struct Worker {
    caller: CallingWorker,
    number: u32,
    turned: u64,
}

impl Model for Worker {
    ghost use Rattle.fr_round.specs.Knowledge.{Knowledge};

    ghost Value = { Knowledge };

    ghost use Rattle.fr_round.specs.WorkerInside.{knowledge_of, IsSoundWorker};

    ghost view = { knowledge_of };

    ghost invariant = { IsSoundWorker };
}

/// How many turns a call with this reply made: 1 or 0.
fn turns_of_reply(reply: Reply) -> u64
    ensures { result ≡ cond (is_turned reply) 1 0 }
{
    match reply {
        Reply::Turned { .. } => 1,
        _ => 0,
    }
}

impl Worker {
    /// A worker before its first call.
    pub(crate) fn new(seat: RoundSeat, number: u32, seen: Seen) -> Worker
        requires view { (seat.me.1 ≡ []) × IsNewView seat.me.0 number }
        requires seen { (seat.me.0.seen ≡ seen.counts.items)
            × IsCounted seat.me.0.setup.nodes seat.me.0.setup.links seen }
        ensures { result ≡ new_worker seat.table_id seat.me.0.setup number }
    {
        Worker {
            caller: CallingWorker { seat, seen },
            number,
            turned: 0,
        }
    }

    /// Returns only the seat.
    pub(crate) fn into_seat(self) -> RoundSeat
        ensures { (result.table_id ≡ self.table) × (result.me.1 ≡ []) × (result.me.0.works ≡ true)
            × (result.me.0.setup ≡ self.setup) × ((result.me.0.number, result.me.0.known) ≡ number_and_known self) }
    {
        let Worker {
            caller: CallingWorker { seat, seen: _ },
            number: _,
            turned: _,
        } = self;
        seat
    }

    /// The worker's number in the round, counted from 0. O(1).
    pub fn number(&self) -> u32
        ensures { result ≡ self.now.number }
    {
        self.number
    }

    /// How often the worker's own calls turned a node. O(1).
    pub fn turned(&self) -> u64
        ensures { result ≡ turn_count (part self.now.number self.now.known) }
    {
        self.turned
    }

    /// A count that node `x` had reached by the worker's last call. The node must be in the network. The count never
    /// falls, and the call takes no step. O(1).
    pub fn seen(&self, x: u32) -> u64
        requires { x < self.now.setup.nodes }
        ensures seen { result ≡ slice_index self.now.seen x }
        ensures known { IsKnowledge self.now }
    {
        self.caller.seen.count(x)
    }

    /// Makes one call to turn node `x`, on the words of the worker's round.
    pub(crate) fn turn(&mut self, words: &Words, x: u32) -> Reply
        requires own { IsOfWords words.now self.old }
        requires node { IsTurnable words.now.round_setup.net.nodes words.now.round_setup.dest words.now.round_setup.net.links x }
        ensures keeps { KeepsWorker self.old self.new }
        ensures learns { LearnsReply self.old x result self.new }
        ensures kind { IsReplyToTurn result }
    {
        words.round_setup.net.network_law();
        let reply = self.caller.turn_at(words, x);
        self.turned += turns_of_reply(reply);
        reply
    }

    /// What it knows, as a value of its own.
    pub(crate) fn past(&mut self, words: &Words) -> Past
        requires own { IsOfWords words.now self.old }
        requires some { 0 < words.now.round_setup.net.nodes }
        ensures kept { self.new ≡ self.old }
        ensures past { result ≡ past_of self.old }
    {
        let shared = &words.table.shared;
        Past::new(shared.split_seat::<HandOn>(&mut self.caller.seat))
    }

    /// It learns what another worker knew.
    pub(crate) fn learn(&mut self, words: &Words, past: Past)
        requires own { IsOfWords words.now self.old }
        requires past { past.table ≡ self.old.table }
        requires some { 0 < words.now.round_setup.net.nodes }
        ensures { LearnsPast self.old past self.new }
    {
        let shared = &words.table.shared;
        shared.join_seat::<Receive>(&mut self.caller.seat, past.into_seat());
        shared.load::<CatchUp>(&mut self.caller.seat, 0);
    }

    /// Makes one look at node `x`, on the words of the worker's round.
    pub(crate) fn look(&mut self, words: &Words, x: u32) -> Reply
        requires own { IsOfWords words.now self.old }
        requires node { IsLookable words.now.round_setup.net.nodes words.now.round_setup.net.links x }
        ensures keeps { KeepsWorker self.old self.new }
        ensures learns { LearnsReply self.old x result self.new }
        ensures kind { IsReplyToLook result }
    {
        self.caller.look_at(words, x)
    }
}
