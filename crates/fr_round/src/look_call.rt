//! The steps of a look at a node, on atomic words. They are those loads of the machine of `fr_core` whose result is not
//! already known from what was seen.

ghost use Rattle.fr_core.specs.Replies.{IsReplyToLook};
ghost use Rattle.fr_core.specs.Targets.{IsLookable};
ghost use Rattle.fr_round.specs.Setups.{setup_of};
ghost use Rattle.fr_round.specs.Calls.{AllMeet, IsInCall};
ghost use Rattle.fr_round.specs.Callers.{IsCaller, Makes};

use crate::rule::{LoadToConfirm, LoadToLook};
use crate::turn_call::CallingWorker;
use crate::words::Words;
use fr_core::Reply;

impl CallingWorker {
    /// Loads the own count of node `x` a second time, which decides the call: if it is still `c`, the node was a sink
    /// then.
    fn confirm_own_count(&mut self, words: &Words, x: u32, c: u64) -> Reply
        requires caller { IsCaller words.now self.old }
        requires call { IsInCall (setup_of words.now.round_setup) x c self.old.seat.me.0 }
        requires node { IsLookable words.now.round_setup.net.nodes words.now.round_setup.net.links x }
        requires met { AllMeet words.now.round_setup.net.links self.old.seat.me.0.seen x c }
        ensures made { Makes words.now self.old x result self.new }
        ensures kind { IsReplyToLook result }
    {
        let shared = &words.table.shared;
        let found = shared.load::<LoadToConfirm>(&mut self.seat, x as usize);
        self.seen.raise_seen_count(&words.round_setup.net, x, found);
        if found == c {
            Reply::Sink
        } else {
            Reply::Moved {
                had: c,
                count: found,
            }
        }
    }

    /// Makes one look at node `x`, up to the step that decides it. It loads the count of `x`; then those of the
    /// neighbours that were not seen to meet their bounds for it, in the order of the row; and then the count of `x`
    /// again.
    pub(crate) fn look_at(&mut self, words: &Words, x: u32) -> Reply
        requires caller { IsCaller words.now self.old }
        requires node { IsLookable words.now.round_setup.net.nodes words.now.round_setup.net.links x }
        ensures made { Makes words.now self.old x result self.new }
        ensures kind { IsReplyToLook result }
    {
        words.round_setup.net.network_law();
        let shared = &words.table.shared;
        let c = shared.load::<LoadToLook>(&mut self.seat, x as usize);
        self.seen.raise_seen_count(&words.round_setup.net, x, c);
        match self.find_holder(words, x, c) {
            Some(by) => Reply::Held { by },
            None => self.confirm_own_count(words, x, c),
        }
    }
}
