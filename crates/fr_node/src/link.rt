//! What a router knows of one neighbour.

ghost use Rattle.std.specs.Prelude.{◌≡◌, ◌≢◌, ◌<◌, ◌≤◌, ◌⊎◌, ◌↔◌, IsTrue, MatchOption, false, true};
ghost use Rattle.fr_node.specs.Distances.{distance_over, way_of};
ghost use Rattle.fr_node.specs.Links.{IsHeard, IsNewer, after_tick, echo_of, has_answered, is_lost, is_lower, is_offer, is_way, lasts, offer_of, one_more, with_carrier, with_cost};

use crate::message::{CUT_OFF, Message};
use crate::own::Own;
use crate::way::Way;

/// What a router knows of one neighbour, and whether the link to it counts as up.
#[derive(Clone, Copy, Debug, PartialEq, Eq)]
pub(crate) struct Link {
    pub(crate) neighbour: u32,
    /// What it costs to send a packet over the link: 1 or more.
    pub(crate) cost: u32,
    /// The neighbour's distance, which came with its height.
    pub(crate) distance: u32,
    /// For how many ticks the neighbour has seemed deaf: since it last said something to this start of the router,
    /// since it started again, or since the link came up.
    pub(crate) deaf: u32,
    /// For how many ticks the neighbour has been silent: since its last message was taken.
    pub(crate) silent: u32,
    /// Whether the caller says that the link is up.
    pub(crate) carrier: bool,
    /// Whether the link counts as up: there is a carrier, and the neighbour did not seem deaf for too many ticks.
    pub(crate) up: bool,
    /// Whether the neighbour was heard lately: it was not silent for too many ticks.
    pub(crate) is_heard: bool,
    /// The greatest start of the neighbour that is known. 0: none.
    pub(crate) peer: u64,
    /// The greatest stamp of a message that was taken of that start. 0: none.
    pub(crate) stamp: u64,
    /// The greatest number that was heard of that start. 0: none.
    pub(crate) heard: u64,
    /// The height that came with it.
    pub(crate) seen: u64,
    /// The number of the router's announcements that the neighbour has acknowledged. 0: none.
    pub(crate) acked: u64,
    /// The last message that was said to the neighbour, without its stamp.
    pub(crate) said: Option<Message>,
}

impl Link {
    /// A link of this cost that is down, to a neighbour of which nothing is known.
    pub(crate) fn new(neighbour: u32, cost: u32) -> Link
        ensures { result ≡ record {
          neighbour = neighbour;
          cost = cost;
          distance = CUT_OFF;
          deaf = 0;
          silent = 0;
          carrier = false;
          up = false;
          is_heard = false;
          peer = 0;
          stamp = 0;
          heard = 0;
          seen = 0;
          acked = 0;
          said = None;
        } }
    {
        Link {
            neighbour,
            cost,
            distance: CUT_OFF,
            deaf: 0,
            silent: 0,
            carrier: false,
            up: false,
            is_heard: false,
            peer: 0,
            stamp: 0,
            heard: 0,
            seen: 0,
            acked: 0,
            said: None,
        }
    }

    /// Whether a message from this neighbour is newer than all that were taken.
    pub(crate) fn takes(&self, message: &Message) -> bool
        ensures { IsTrue result ↔ IsNewer self.now.peer self.now.stamp message.now }
    {
        message.boot > self.peer || message.boot == self.peer && message.stamp > self.stamp
    }

    /// After a newer message from this neighbour. What it says to an earlier start of the router is ignored.
    pub(crate) fn after_message(self, message: &Message, own: &Own) -> Link
        requires { IsNewer self.peer self.stamp message.now }
        ensures { IsHeard own.now message.now self result }
    {
        let known = self.for_start_of(message);
        if message.echo == own.boot {
            known
                .with_acknowledgement(message, own)
                .with_announcement(message)
                .heard_both_ways()
        } else {
            known
        }
    }

    /// With the message's stamp, and with what is known of its start: nothing, if it is greater.
    fn for_start_of(self, message: &Message) -> Link
        ensures same { message.now.boot ≡ self.peer
            → result ≡ record self { is_heard = true; silent = 0; stamp = message.now.stamp } }
        ensures other { message.now.boot ≢ self.peer → result ≡ record self {
          deaf = 0;
          is_heard = true;
          silent = 0;
          peer = message.now.boot;
          stamp = message.now.stamp;
          heard = 0;
          seen = 0;
          distance = CUT_OFF;
          acked = 0;
        } }
    {
        let stamp = message.stamp;
        if message.boot == self.peer {
            return Link {
                is_heard: true,
                silent: 0,
                stamp,
                ..self
            };
        }
        Link {
            deaf: 0,
            is_heard: true,
            silent: 0,
            peer: message.boot,
            stamp,
            heard: 0,
            seen: 0,
            distance: CUT_OFF,
            acked: 0,
            ..self
        }
    }

    /// After a message that the neighbour says to this start of the router: the link works both ways.
    fn heard_both_ways(self) -> Link
        ensures { result ≡ record self { up = self.carrier; deaf = 0 } }
    {
        Link {
            up: self.carrier,
            deaf: 0,
            ..self
        }
    }

    /// If it costs so much to send a packet over the link.
    pub(crate) fn with_cost(self, cost: u32) -> Link
        ensures { result ≡ with_cost cost self }
    {
        Link { cost, ..self }
    }

    /// With what the caller says: that the link is up, or that it is down.
    pub(crate) fn with_carrier(self, up: bool) -> Link
        ensures { result ≡ with_carrier up self }
    {
        Link {
            carrier: up,
            up,
            deaf: 0,
            ..self
        }
    }

    /// Whether the link counts as up, and the next tick ends that.
    pub(crate) fn is_lost(&self, patience: u32) -> bool
        ensures { result ≡ is_lost patience self.now }
    {
        self.up && self.deaf.saturating_add(1) >= patience
    }

    /// After a tick.
    pub(crate) fn after_tick(self, patience: u32) -> Link
        ensures { result ≡ after_tick patience self }
    {
        Link {
            up: lasts(self.up, self.deaf, patience),
            deaf: one_more(self.up, self.deaf),
            is_heard: lasts(self.is_heard, self.silent, patience),
            silent: one_more(self.is_heard, self.silent),
            ..self
        }
    }

    /// The start of the neighbour that the router says it knows: none if it has not heard the neighbour lately.
    pub(crate) fn echo(&self) -> u64
        ensures { result ≡ echo_of self.now }
    {
        if self.is_heard { self.peer } else { 0 }
    }

    /// With the neighbour's acknowledgement. One of a number that was not announced is ignored.
    fn with_acknowledgement(self, message: &Message, own: &Own) -> Link
        ensures kept { (own.now.number < message.now.heard) ⊎ (message.now.heard ≤ self.acked) → result ≡ self }
        ensures taken { message.now.heard ≤ own.now.number → self.acked < message.now.heard
            → result ≡ record self { acked = message.now.heard } }
    {
        if message.heard > own.number || message.heard <= self.acked {
            return self;
        }
        Link {
            acked: message.heard,
            ..self
        }
    }

    /// With the neighbour's announcement, if no later one was heard. The same one may come with another distance.
    fn with_announcement(self, message: &Message) -> Link
        ensures kept { message.now.number < self.heard → result ≡ self }
        ensures taken { self.heard ≤ message.now.number → result ≡ record self {
          heard = message.now.number;
          seen = message.now.height;
          distance = message.now.distance;
        } }
    {
        if message.number < self.heard {
            return self;
        }
        Link {
            heard: message.number,
            seen: message.height,
            distance: message.distance,
            ..self
        }
    }

    /// Whether the router may send packets to the neighbour.
    pub(crate) fn is_way(&self, own: &Own) -> bool
        ensures { result ≡ is_way own.now self.now }
    {
        self.up && self.is_lower(own)
    }

    /// Whether the neighbour is known to be lower than the router.
    pub(crate) fn is_lower(&self, own: &Own) -> bool
        ensures { result ≡ is_lower own.now self.now }
    {
        let is_first = self.neighbour < own.me;
        self.heard > 0 && (self.seen < own.used || self.seen == own.used && is_first)
    }

    /// What the neighbour offers: the cost of a route over it, if that is below the ceiling.
    pub(crate) fn offer(&self, ceiling: u32) -> Option<u32>
        ensures { MatchOption result (is_offer ceiling self.now ≡ false)
            (λ v. (is_offer ceiling self.now ≡ true) × (v ≡ offer_of self.now)) }
    {
        let cost = self.seen.saturating_add(u64::from(self.cost));
        if self.up && self.heard > 0 && cost < u64::from(ceiling) {
            Some(cost as u32)
        } else {
            None
        }
    }

    /// The distance over the link: that of the neighbour and the cost of the link, if the neighbour has one.
    pub(crate) fn distance_over(&self) -> u32
        ensures { result ≡ distance_over self.now }
    {
        self.distance.saturating_add(self.cost)
    }

    /// Whether the neighbour has acknowledged enough to be let in.
    pub(crate) fn has_answered(&self, own: &Own) -> bool
        ensures { result ≡ has_answered own.now self.now }
    {
        self.acked >= own.used_since
    }

    /// Whether this message without a stamp was the last one that was said to the neighbour.
    pub(crate) fn was_last_said(&self, message: &Message) -> bool
        ensures { IsTrue result ↔ (self.now.said ≡ Some message.now) }
    {
        match &self.said {
            Some(said) => *said == *message,
            None => false,
        }
    }

    /// The neighbour as a way.
    pub(crate) fn way(&self) -> Way
        ensures { result ≡ way_of self.now }
    {
        Way {
            neighbour: self.neighbour,
            distance: self.distance_over(),
        }
    }
}

/// Whether something that has lasted for so many ticks lasts for one tick more.
fn lasts(is_so: bool, ticks: u32, patience: u32) -> bool
    ensures { result ≡ lasts is_so ticks patience }
{
    is_so && ticks.saturating_add(1) < patience
}

/// One tick more, if they are counted.
fn one_more(is_counted: bool, ticks: u32) -> u32
    ensures { result ≡ one_more is_counted ticks }
{
    if is_counted {
        ticks.saturating_add(1)
    } else {
        ticks
    }
}
