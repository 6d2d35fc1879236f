//! The state machine of one router.

ghost use Rattle.std.specs.Prelude.{◌≡◌, ◌≢◌, ◌<◌, ◌≤◌, ◌+◌, ◌++◌, ◌%◌, ◌^◌, ◌↔◌, ◌⊎◌, ◌&&◌, ◌||◌, true, false, not, [], ◌∷◌, filter, map, min, length, nat_le, nat_lt, ℕ, ⊤};
ghost use Rattle.std.specs.Prelude.{IsTrue, IfErr, IfOk, IsSome, IfSome, IfNone, MatchOption, MatchResult, OnErr, OnOk, vec_capacity, vec_len};
ghost use Rattle.std.specs.List.{list_all, list_any, position};
ghost use Rattle.fr_node.specs.Histories.{Announces};
ghost use Rattle.fr_node.specs.declared.fault.NodeFault.TheVariants.{Itself, LaterStart, Memory, Outdated, TooHigh, Unwritten};
ghost use Rattle.fr_node.specs.Links.{Hears, IsKnown, IsTaken, SetsCost, SetsUp, after_tick, has_answered, is_lost, is_lower, is_offer, is_way, leads_to, link_to, offer_of, unknown};
ghost use Rattle.fr_node.specs.Distances.{AreWays, HasNoWay, IsDistance, IsLeast, IsNearest, NonePasses, ways_of};
ghost use Rattle.fr_node.specs.Policies.{Acts, Announcement, FallsTo, IsAboveAll, IsAtDistance, IsAtOffer, IsAtTop, IsBestOrNone, MayUseAnnounced, RisesTo, better_of, is_higher, is_up};
ghost use Rattle.fr_node.specs.Nodes.{IsMessageTo, Steps, lets_in, sends_to};
ghost use Rattle.fr_node.specs.Events.{IsAfterEvent, IsNews, IsStarted, KnowsLaterStart, SaysTo, gates_of, is_gate};
ghost use Rattle.fr_node.specs.Histories.{IsHistory};
ghost use Rattle.fr_node.specs.Nodes.{router};
ghost use Rattle.fr_node.specs.Routers.{IsOpen, IsWay};

use crate::fault::NodeFault;
use crate::link::Link;
use crate::message::{CUT_OFF, Message};
use crate::own::Own;
use crate::policy::{Policy, Rise};
use crate::way::{Way, sort_ways};
use std::alloc::Global;

/// A router starts below this height. So it and its neighbours have room to rise.
pub const START_HEIGHTS: u64 = 1 << 63;

/// One router, for one destination.
///
/// After an event it says nothing until the caller has said that the ways and gates are written to its table. `link_up`,
/// `link_down` and `set_cost` are events, `hear` of a message that is taken, `tick` if a link counts as up no longer, and
/// `act` if it changes something. A table that was written before the last event cannot be confirmed: each event gives the ways
/// and gates another number, their [`state`](Node::state).
#[derive(Drop)]
pub struct Node {
    own: Own,
    gateway: bool,
    policy: Policy,
    links: Vec<Link>,
    /// How many events there were, modulo 2^64.
    events: u64,
    /// Whether the ways and gates after the last event are written.
    is_written: bool,
    /// The stamp of the last message that was said. 0: none.
    stamp: u64,
}

impl Node {
    /// A router that starts at this height. `me` is its number, which no other router has. `boot` must be greater than
    /// at each of its earlier starts: then it is a restart of the law, whatever it knew before. Its table is empty, and
    /// that counts as written. It takes no memory. O(1).
    ///
    /// Fails with `TooHigh` if the height is not below [`START_HEIGHTS`].
    pub fn new(
        alloc: Global,
        me: u32,
        boot: u64,
        height: u64,
        policy: Policy,
    ) -> Result<Node, NodeFault>
        // This is a restart by `routers_law`, if the start number is greater than every earlier one.
        ensures started { IfOk result (IsStarted me boot height) }
        ensures router { IfOk result (λ n. (n.gateway ≡ false) × (n.policy ≡ policy)) }
        // `TooHigh` exactly for a height of 2^63 or more.
        ensures fault { MatchResult result (λ _. height < START_HEIGHTS) (λ f. (f ≡ TooHigh) × (START_HEIGHTS ≤ height)) }
    {
        if height >= START_HEIGHTS {
            return Err(NodeFault::TooHigh);
        }
        Ok(Node {
            own: Own::new(me, boot, height),
            gateway: false,
            policy,
            links: Vec::new(alloc),
            events: 0,
            is_written: true,
            stamp: 0,
        })
    }

    /// A gateway that starts: it takes packets out of the network and sends on nothing. Several routers may be gateways
    /// for one destination. `boot` as for [`Node::new`]. O(1).
    pub fn gateway(alloc: Global, me: u32, boot: u64) -> Node
        // As for `Node::new`.
        ensures started { IsStarted me boot 0 result }
        ensures gateway { result.gateway ≡ true }
    {
        Node {
            own: Own::new(me, boot, 0),
            gateway: true,
            policy: Policy {
                rise: Rise::Full,
                lower: false,
                wait: false,
            },
            links: Vec::new(alloc),
            events: 0,
            is_written: true,
            stamp: 0,
        }
    }

    /// Makes a neighbour known. `cost` is what it costs this router to send a packet to it: the neighbour may know
    /// another cost for the other direction. The link is down, until it comes up. A neighbour that is known stays as it
    /// is, with the cost that it had: [`set_cost`](Node::set_cost) changes that. This is the only call that takes memory,
    /// and it is no event. O(d) for d known neighbours.
    ///
    /// Fails with `Itself` if the neighbour is this router, and with `Memory` if an allocation was refused, which never
    /// happens for a neighbour that is known. Then nothing has changed.
    pub fn know(&mut self, neighbour: u32, cost: u32) -> Result<(), NodeFault>
        requires { 0 < cost }
        // `Itself` exactly if the neighbour is this router.
        ensures itself { neighbour ≡ self.old.own.me ↔ (result ≡ Err Itself) }
        // A neighbour that is known stays as it is.
        ensures known { neighbour ≢ self.old.own.me → IsKnown self.old.links.items neighbour → self.new ≡ self.old }
        // The link to it has this cost.
        ensures new { OnOk result (¬ IsKnown self.old.links.items neighbour
            → self.new.links.items ≡ self.old.links.items ++ record unknown { neighbour = neighbour; cost = cost } ∷ []) }
        ensures same { self.new ≡ record self.old { links = self.new.links } }
        ensures err { IfErr result (λ f. ((f ≡ Itself) ⊎ (f ≡ Memory)) × (self.new.links.items ≡ self.old.links.items)) }
        // Only for a neighbour that is not known.
        ensures memory { result ≡ Err Memory → ¬ IsKnown self.old.links.items neighbour }
        // A step of `routers_law`. It is no event.
        ensures step { Steps [] self.old self.new }
    {
        if neighbour == self.own.me {
            return Err(NodeFault::Itself);
        }
        if self.index_of(neighbour).is_none() {
            self.links.reserve(1)?;
            self.links.push_reserved(Link::new(neighbour, cost));
        }
        Ok(())
    }

    /// Call this when the link to a neighbour comes up. It counts as up then, until [`tick`](Node::tick) ends that. If
    /// the neighbour is not known, no link changes. The policy may change the height. Then the ways and gates have to
    /// be written. It does not allocate. O(d) for d known neighbours.
    pub fn link_up(&mut self, neighbour: u32)
        // The link counts as up until `link_down`, or until a tick ends that.
        ensures set { SetsUp neighbour true self.old.links.items self.new.links.items }
        // A step of `routers_law`, and an event: the ways and gates get the next number, modulo 2^64, and are not
        // written. The height changes exactly as the policy says. With `Rise::Full` a router without a way rises to
        // one more than the greatest height of its neighbours; with `lower` it falls to its distance if a nearer way
        // stays a way. With `Rise::Top` a router rises to the top if no neighbour offers its height or less, and falls to
        // its best offer once all its gates are open; a neighbour offers its height and the cost of the link together,
        // if that is below the ceiling. A greater height is used at once, or with `wait` once each open gate stays open.
        ensures after { IsAfterEvent [] self.old self.new }
    {
        self.set_link_up(neighbour, true);
        self.finish_event();
    }

    /// Call this when the link to a neighbour goes down. The neighbour is no longer a way, and its gate closes. The node
    /// still knows what it has heard from it. All else is as for [`link_up`](Node::link_up). O(d).
    pub fn link_down(&mut self, neighbour: u32)
        ensures set { SetsUp neighbour false self.old.links.items self.new.links.items }
        // An event, as for `link_up`.
        ensures after { IsAfterEvent [] self.old self.new }
    {
        self.set_link_up(neighbour, false);
        self.finish_event();
    }

    /// Changes what it costs this router to send a packet to a neighbour, as when the bandwidth of the link changes. What
    /// was heard on the link stays. If the neighbour is not known, no link changes. All else is as for
    /// [`link_up`](Node::link_up). O(d).
    pub fn set_cost(&mut self, neighbour: u32, cost: u32)
        requires { 0 < cost }
        // The link to the neighbour has this cost, and all else that is known of neighbours stays.
        ensures set { SetsCost neighbour cost self.old.links.items self.new.links.items }
        // An event, as for `link_up`.
        ensures after { IsAfterEvent [] self.old self.new }
    {
        self.set_link_cost(neighbour, cost);
        self.finish_event();
    }

    /// Call this at a steady interval, such as that at which messages are said again. A link counts as up no longer
    /// once the neighbour has said nothing to this start of the router for as many ticks as `patience`: because it does
    /// not hear the router, or is not heard. Then the neighbour is no way, its gate closes, and the router does not
    /// wait for it. What it says to this start later makes the link count as up again. Ticks are counted anew when the
    /// link comes up, and when the neighbour starts again.
    ///
    /// A neighbour of which no message was taken for as many ticks is told so by what the router says to it: `echo` is
    /// 0 there. So the link counts at neither end if it works one way.
    ///
    /// Returns whether a link was lost so. That is an event as [`link_down`](Node::link_down): the policy may change
    /// the height, and the ways and gates have to be written. Otherwise this was no event. It does not allocate. O(d).
    pub fn tick(&mut self, patience: u32) -> bool
        // For each link that counts as up, ticks are counted in which the neighbour has seemed deaf. Once these are
        // as many as the patience, the link counts no longer.
        ensures links { self.new.links.items ≡ map (after_tick patience) self.old.links.items }
        // The result says whether a link was lost.
        ensures lost { result ≡ list_any (is_lost patience) self.old.links.items }
        // Then this was an event.
        ensures after { IsTrue result → IsAfterEvent [] self.old self.new }
        // Otherwise only ticks are counted.
        ensures kept { ¬ IsTrue result → self.new ≡ record self.old { links = self.new.links } }
    {
        if !self.tick_all(patience) {
            return false;
        }
        self.finish_event();
        true
    }

    /// Lets the policy change the height once more. Returns whether it has changed what this router knows of itself. Then
    /// the ways and gates have to be written, as after each event. If not, nothing has changed, and this was no event: the
    /// policy rests until the next one. Each event takes one step of the policy, so call this after it until it returns
    /// `false`. It does not allocate. O(d) for d known neighbours.
    pub fn act(&mut self) -> bool
        // The policy takes one more step.
        ensures policy { Acts self.old self.new.own }
        ensures links { self.new.links ≡ self.old.links }
        // The result says whether that has changed something.
        ensures changed { IsTrue result ↔ (self.new.own ≢ self.old.own) }
        // Then this was an event.
        ensures after { IsTrue result → IsAfterEvent [] self.old self.new }
        // Otherwise nothing changes.
        ensures kept { ¬ IsTrue result → self.new ≡ self.old }
    {
        let before = self.own;
        self.apply_policy();
        if self.own == before {
            return false;
        }
        self.count_event();
        true
    }

    /// Hears a message, and takes it if it is for this router, from a known neighbour, and newer than all that were taken
    /// from it: of a greater start, or of the same start with a greater stamp. Then the router knows more of the sender,
    /// unless the message is for an earlier start of this router. The height may change by the policy, and the ways and
    /// gates have to be written. A message that is not taken changes nothing, and is no event: a repeated one, for example,
    /// or one that was overtaken. It takes no memory. O(d).
    ///
    /// Fails with `LaterStart` if the message is for this router and from a known neighbour, and this neighbour knows a
    /// start of this router with a greater number. Then the number of this start was not greater than all before it, or
    /// another router has the same number. Nothing has changed, and this node should be given up: it hears nothing from
    /// such neighbours.
    pub fn hear(&mut self, message: &Message) -> Result<(), NodeFault>
        // The node learns exactly what the rules say. The link counts as up again after a message for this start of
        // the router, if the caller says that it is up.
        ensures heard { OnOk result (Hears self.old.own message.now self.old.links.items self.new.links.items) }
        // A message that is taken is an event. It is of a greater start than all that were taken from the neighbour,
        // or of the same one with a greater stamp.
        ensures after { OnOk result (IsTaken self.old.own message.now self.old.links.items
            → IsAfterEvent (message.now ∷ []) self.old self.new) }
        // Any other message changes nothing.
        ensures ignored { ¬ IsTaken self.old.own message.now self.old.links.items → self.new ≡ self.old }
        ensures kept { OnErr result (self.new ≡ self.old) }
        ensures neighbours { map (λ l. l.neighbour) self.new.links.items ≡ map (λ l. l.neighbour) self.old.links.items }
        // `LaterStart` exactly if a known neighbour says that it knows a later start of this router.
        ensures fault { MatchResult result (λ _. ¬ KnowsLaterStart self.old message.now)
            (λ f. (f ≡ LaterStart) × KnowsLaterStart self.old message.now) }
    {
        if self.is_outdated_by(message) {
            return Err(NodeFault::LaterStart);
        }
        if self.take_message(message) {
            self.finish_event();
        }
        Ok(())
    }

    /// The number of the ways and gates: how many events there were, modulo 2^64. O(1).
    pub fn state(&self) -> u64
        ensures { result ≡ self.now.events }
    {
        self.events
    }

    /// Whether the ways and gates after the last event are written. O(1).
    pub fn is_written(&self) -> bool
        ensures { result ≡ self.now.is_written }
    {
        self.is_written
    }

    /// The caller says that the ways and gates with this [`state`](Node::state) are written. From then on messages may be
    /// said. O(1).
    ///
    /// Fails with `Outdated` if an event came after this state. Then nothing has changed: write the ways and gates as they
    /// are now.
    pub fn written(&mut self, state: u64) -> Result<(), NodeFault>
        ensures written { OnOk result (self.new ≡ record self.old { is_written = true }) }
        ensures kept { OnErr result (self.new ≡ self.old) }
        // `Outdated` exactly for a number that is not the present one.
        ensures fault { MatchResult result (λ _. state ≡ self.old.events)
            (λ f. (f ≡ Outdated) × (state ≢ self.old.events)) }
    {
        if state != self.events {
            return Err(NodeFault::Outdated);
        }
        self.is_written = true;
        Ok(())
    }

    /// The message for a neighbour now. `None` if the neighbour is not known, or the caller has not said that the link
    /// to it is up. It has a message also if the link does not count as up since a [`tick`](Node::tick). It may be said
    /// as often as the caller likes, and has another stamp each time: the neighbour takes it after all that were said
    /// before, and ignores it once it has taken a later one. O(d).
    ///
    /// Fails with `Unwritten` if the ways and gates after the last event are not written. Then nothing has changed.
    pub fn say(&mut self, neighbour: u32) -> Result<Option<Message>, NodeFault>
        // The message says what the router knows, true by `routers_law`, and is only for a neighbour whose link is up
        // as the caller says. To a neighbour that was silent for too many ticks it says that it knows no start of it.
        // It has the next stamp, as long as this has 64 bits.
        ensures says { IfOk result (SaysTo neighbour self.old self.new) }
        ensures kept { OnErr result (self.new ≡ self.old) }
        // `Unwritten` exactly until the caller says that the present ways and gates are written.
        ensures fault { MatchResult result (λ _. self.old.is_written ≡ true)
            (λ f. (f ≡ Unwritten) × (self.old.is_written ≡ false)) }
    {
        if !self.is_written {
            return Err(NodeFault::Unwritten);
        }
        Ok(self.say_written(neighbour))
    }

    /// The message for a neighbour, if the link to it has a carrier.
    fn say_written(&mut self, neighbour: u32) -> Option<Message>
        ensures { SaysTo neighbour self.old self.new result }
    {
        let Some(i) = self.index_of(neighbour) else {
            return None;
        };
        if !self.links[i].carrier {
            return None;
        }
        let message = self.message_at(i);
        self.links[i].said = Some(message);
        self.stamp = self.stamp.saturating_add(1);
        Some(Message {
            stamp: self.stamp,
            ..message
        })
    }

    /// Whether there is news for a neighbour: there is a message for it ([`say`](Node::say)), which differs from the
    /// last one that was said, by more than its stamp. O(d).
    ///
    /// Fails with `Unwritten` if the ways and gates after the last event are not written.
    pub fn has_news(&self, neighbour: u32) -> Result<bool, NodeFault>
        // A message is news if it differs from the last one that the node said by more than its stamp.
        ensures news { IfOk result (IsNews neighbour self.now) }
        // As for `say`.
        ensures fault { MatchResult result (λ _. self.now.is_written ≡ true)
            (λ f. (f ≡ Unwritten) × (self.now.is_written ≡ false)) }
    {
        if !self.is_written {
            return Err(NodeFault::Unwritten);
        }
        Ok(self.has_other_message(neighbour))
    }

    /// Whether the message for a neighbour at a link that has a carrier differs from the last one that was said.
    fn has_other_message(&self, neighbour: u32) -> bool
        ensures { IsNews neighbour self.now result }
    {
        match self.index_of(neighbour) {
            Some(i) => self.links[i].carrier && !self.links[i].was_last_said(&self.message_at(i)),
            None => false,
        }
    }

    /// Whether packets from this neighbour are let in: a gate for them is to be open. All other packets are dropped. O(d).
    pub fn lets_in(&self, neighbour: u32) -> bool
        // Exactly by the rules.
        ensures open { result ≡ lets_in self.now neighbour }
        // An open gate is one of `routers_law`.
        ensures safe { IsTrue result → (h : ℕ → ℕ) → IsHistory self.now.own h → IsOpen (router self.now h) neighbour }
    {
        match self.index_of(neighbour) {
            Some(i) => self.is_open(&self.links[i]),
            None => false,
        }
    }

    /// Whether packets that come over a link are let in.
    fn is_open(&self, link: &Link) -> bool
        ensures { result ≡ is_gate self.now link.now }
    {
        link.up && (self.gateway || link.has_answered(&self.own))
    }

    /// Whether packets may be sent to this neighbour. O(d).
    pub fn sends_to(&self, neighbour: u32) -> bool
        // Exactly by the rules.
        ensures way { result ≡ sends_to self.now neighbour }
        // A way is one of `routers_law`.
        ensures safe { IsTrue result → (h : ℕ → ℕ) → IsWay (router self.now h) self.now.own.me neighbour }
    {
        match self.index_of(neighbour) {
            Some(i) => !self.gateway && self.links[i].is_way(&self.own),
            None => false,
        }
    }

    /// Lists the ways, the nearest first, and equally near ones by number. The list keeps its capacity, so no memory is
    /// taken. O(d log d) for d known neighbours.
    pub fn list_ways(&self, ways: &mut Vec<Way>)
        requires { vec_len self.now.links ≤ vec_capacity ways.old }
        ensures ways { AreWays self.now ways.new.items }
        ensures room { vec_capacity ways.new ≡ vec_capacity ways.old }
    {
        ways.clear();
        if !self.gateway {
            push_ways(&self.links, &self.own, ways);
        }
        sort_ways(ways);
    }

    /// Lists the neighbours that are let in, in the order in which they were made known. The list keeps its capacity, so no
    /// memory is taken. O(d) for d known neighbours.
    pub fn list_gates(&self, gates: &mut Vec<u32>)
        requires { vec_len self.now.links ≤ vec_capacity gates.old }
        ensures gates { gates.new.items ≡ gates_of self.now }
        ensures room { vec_capacity gates.new ≡ vec_capacity gates.old }
    {
        gates.clear();
        self.push_gates(&self.links, gates);
    }

    /// Lists the neighbours at these links that are let in.
    fn push_gates(&self, links: &[Link], gates: &mut Vec<u32>)
        requires none { gates.old.items ≡ [] }
        requires room { length links.now ≤ vec_capacity gates.old }
        ensures gates { gates.new.items ≡ map (λ l. l.neighbour) (filter (is_gate self.now) links.now) }
        ensures room { vec_capacity gates.new ≡ vec_capacity gates.old }
    {
        for link in links {
            if self.is_open(link) {
                gates.push_reserved(link.neighbour);
            }
        }
    }

    /// The number of the router.
    pub fn me(&self) -> u32
        ensures { result ≡ self.now.own.me }
    {
        self.own.me
    }

    /// How many neighbours are known.
    pub fn neighbours(&self) -> usize
        ensures { result ≡ vec_len self.now.links }
    {
        self.links.len()
    }

    /// The height in use.
    pub fn height(&self) -> u64
        ensures { result ≡ self.now.own.used }
    {
        self.own.used
    }

    /// The cost of the nearest route from this router to a gateway, by what it has heard: 0 at a gateway, else that over
    /// its nearest way. `CUT_OFF` if it has no way, or if that has no distance. O(d).
    pub fn distance(&self) -> u32
        ensures { IsDistance self.now result }
    {
        if self.gateway {
            return 0;
        }
        nearest_way_distance(&self.links, &self.own).unwrap_or(CUT_OFF)
    }

    /// The index of the link to a neighbour.
    fn index_of(&self, neighbour: u32) -> Option<usize>
        ensures { result ≡ position (leads_to neighbour) self.now.links.items }
    {
        self.links
            .iter()
            .position(|link| link.neighbour == neighbour)
    }

    /// The message for the neighbour at an index.
    fn message_at(&self, i: usize) -> Message
        requires { i < vec_len self.now.links }
        ensures content { (w : ℕ) → position (leads_to w) self.now.links.items ≡ Some i → IsMessageTo self.now w result }
        ensures stamp { result.stamp ≡ 0 }
    {
        let link = &self.links[i];
        Message {
            from: self.own.me,
            to: link.neighbour,
            boot: self.own.boot,
            echo: link.echo(),
            number: self.own.number,
            height: self.own.announced,
            heard: link.heard,
            distance: self.distance(),
            stamp: 0,
        }
    }

    fn set_link_up(&mut self, neighbour: u32, up: bool)
        ensures same { self.new ≡ record self.old { links = self.new.links } }
        ensures set { SetsUp neighbour up self.old.links.items self.new.links.items }
    {
        if let Some(i) = self.index_of(neighbour) {
            self.links[i] = self.links[i].with_carrier(up);
        }
    }

    fn set_link_cost(&mut self, neighbour: u32, cost: u32)
        ensures same { self.new ≡ record self.old { links = self.new.links } }
        ensures set { SetsCost neighbour cost self.old.links.items self.new.links.items }
    {
        if let Some(i) = self.index_of(neighbour) {
            self.links[i] = self.links[i].with_cost(cost);
        }
    }

    /// Lets a tick pass on all links. Returns whether one counts as up no longer.
    fn tick_all(&mut self, patience: u32) -> bool
        ensures same { self.new ≡ record self.old { links = self.new.links } }
        ensures links { self.new.links.items ≡ map (after_tick patience) self.old.links.items }
        ensures lost { result ≡ list_any (is_lost patience) self.old.links.items }
    {
        let is_lost = will_lose(&self.links, patience);
        tick_links(&mut self.links, patience);
        is_lost
    }

    /// Takes a message if it is to be taken, and returns whether it is.
    fn take_message(&mut self, message: &Message) -> bool
        ensures same { self.new ≡ record self.old { links = self.new.links } }
        ensures heard { Hears self.old.own message.now self.old.links.items self.new.links.items }
        ensures taken { IsTrue result ↔ IsTaken self.old.own message.now self.old.links.items }
        ensures kept { ¬ IsTrue result → self.new ≡ self.old }
    {
        if message.to != self.own.me {
            return false;
        }
        let Some(i) = self.index_of(message.from) else {
            return false;
        };
        let link = self.links[i];
        if !link.takes(message) {
            return false;
        }
        self.links[i] = link.after_message(message, &self.own);
        true
    }

    /// Whether the sender of a message knows a later start of this router.
    fn is_outdated_by(&self, message: &Message) -> bool
        ensures { IsTrue result ↔ KnowsLaterStart self.now message.now }
    {
        message.to == self.own.me
            && message.echo > self.own.boot
            && self.index_of(message.from).is_some()
    }

    /// Changes the height by the policy. Then the ways and gates have to be written.
    fn finish_event(&mut self)
        ensures same { self.new ≡ record self.old {
          own = self.new.own;
          events = (self.old.events + 1) % 2 ^ 64;
          is_written = false;
        } }
        ensures own { Announces self.old.own self.new.own }
        ensures policy { Acts self.old self.new.own }
    {
        self.apply_policy();
        self.count_event();
    }

    /// After this the ways and gates have to be written.
    fn count_event(&mut self)
        ensures { self.new ≡ record self.old { events = (self.old.events + 1) % 2 ^ 64; is_written = false } }
    {
        self.events = self.events.wrapping_add(1);
        self.is_written = false;
    }

    /// Changes the height by the policy.
    fn apply_policy(&mut self)
        ensures same { self.new ≡ record self.old { own = self.new.own } }
        ensures own { Announces self.old.own self.new.own }
        ensures policy { Acts self.old self.new.own }
    {
        self.own = self.after_announcement();
        if self.may_use_announced() {
            self.own = self.own.with_announced_used();
        }
    }

    /// What the router knows of itself after an announcement, if the policy wants one.
    fn after_announcement(&self) -> Own
        ensures own { Announces self.now.own result }
        ensures policy { Announcement self.now result }
    {
        if self.gateway || self.own.number == u64::MAX || !self.own.uses_announced() {
            return self.own;
        }
        if let Some(height) = self.lower_height() {
            return self.own.announce_lowered(height);
        }
        match self.greater_height() {
            Some(height) if height > self.own.announced => self.own.announce_raised(height),
            _ => self.own,
        }
    }

    /// Whether the last height that was announced may be used: always if the policy does not wait, and otherwise if each
    /// open gate stays open.
    fn may_use_announced(&self) -> bool
        ensures { IsTrue result ↔ MayUseAnnounced self.now }
    {
        !self.policy.wait || will_gates_stay_open(&self.links, &self.own)
    }

    /// The height to which the policy lowers the router.
    fn lower_height(&self) -> Option<u64>
        ensures { MatchOption result ((v : ℕ) → ¬ FallsTo self.now v) (FallsTo self.now) }
    {
        match self.policy.rise {
            Rise::Full => self.height_at_distance(),
            Rise::Top(ceiling) => self.height_at_offer(ceiling),
        }
    }

    /// The distance, if the router lowers its height to it.
    fn height_at_distance(&self) -> Option<u64>
        ensures { MatchOption result ((v : ℕ) → ¬ IsAtDistance self.now v) (IsAtDistance self.now) }
    {
        let distance = self.distance();
        let height = distance as u64;
        if !self.policy.lower || distance == CUT_OFF || height >= self.own.used {
            return None;
        }
        let lower = Own {
            used: height,
            ..self.own
        };
        if has_way(&self.links, &lower, distance) {
            Some(height)
        } else {
            None
        }
    }

    /// The height to which the policy raises the router.
    fn greater_height(&self) -> Option<u64>
        ensures { MatchOption result ((v : ℕ) → ¬ RisesTo self.now v) (RisesTo self.now) }
    {
        match self.policy.rise {
            Rise::Full => self.height_above_all(),
            Rise::Top(ceiling) => self.height_at_top(ceiling),
        }
    }

    /// Above all neighbours, if all are known to be higher.
    fn height_above_all(&self) -> Option<u64>
        ensures { MatchOption result ((v : ℕ) → ¬ IsAboveAll self.now v) (IsAboveAll self.now) }
    {
        if !is_sink(&self.links, &self.own) {
            return None;
        }
        let highest = highest_link(&self.links)?;
        highest.seen.checked_add(1)
    }

    /// The best offer, if it is lower and each neighbour is let in.
    fn height_at_offer(&self, ceiling: u32) -> Option<u64>
        ensures { MatchOption result ((v : ℕ) → ¬ IsAtOffer self.now ceiling v) (IsAtOffer self.now ceiling) }
    {
        match best_offer(&self.links, ceiling) {
            Some(offer)
                if u64::from(offer) < self.own.used && are_gates_open(&self.links, &self.own) => {
                Some(u64::from(offer))
            }
            _ => None,
        }
    }

    /// The height of a router without a route, if no neighbour offers the height that was
    /// announced, or less.
    fn height_at_top(&self, ceiling: u32) -> Option<u64>
        ensures { MatchOption result ((v : ℕ) → ¬ IsAtTop self.now ceiling v) (IsAtTop self.now ceiling) }
    {
        match best_offer(&self.links, ceiling) {
            Some(offer) if u64::from(offer) <= self.own.announced => None,
            _ => Some(u64::from(CUT_OFF)),
        }
    }
}

/// Whether a tick ends that one of these links counts as up.
fn will_lose(links: &[Link], patience: u32) -> bool
    ensures { result ≡ list_any (is_lost patience) links.now }
{
    links.iter().any(|link| link.is_lost(patience))
}

/// What the links are after a tick.
fn tick_links(links: &mut [Link], patience: u32)
    ensures { links.new ≡ map (after_tick patience) links.old }
{
    for link in links.iter_mut() {
        *link = link.after_tick(patience);
    }
}

/// Whether each neighbour that is let in has acknowledged the last height that was announced.
fn will_gates_stay_open(links: &[Link], own: &Own) -> bool
    ensures { result
        ≡ list_all (λ l. not (l.up && has_answered own.now l) || nat_le own.now.announced_since l.acked) links.now }
{
    links.iter().all(|link| !(link.up && link.has_answered(own))
        || link.acked >= own.announced_since)
}

/// Whether all gates are open: each neighbour at a link that is up is let in.
fn are_gates_open(links: &[Link], own: &Own) -> bool
    ensures { result ≡ list_all (λ l. not l.up || has_answered own.now l) links.now }
{
    links.iter().all(|link| !link.up || link.has_answered(own))
}

/// Whether there is a way to a neighbour whose distance is less than this one.
fn has_way(links: &[Link], own: &Own, distance: u32) -> bool
    ensures { result ≡ list_any (λ l. is_way own.now l && nat_lt l.distance distance) links.now }
{
    links
        .iter()
        .any(|link| link.is_way(own) && link.distance < distance)
}

/// Whether each neighbour at a link that is up has been heard, and none is lower.
fn is_sink(links: &[Link], own: &Own) -> bool
    ensures { result ≡ list_all (λ l. not l.up || (nat_lt 0 l.heard && not (is_lower own.now l))) links.now }
{
    links
        .iter()
        .all(|link| !link.up || link.heard > 0 && !link.is_lower(own))
}

/// A link that is up, with the greatest height that was heard on such links.
fn highest_link(links: &[Link]) -> Option<Link>
    ensures { IsBestOrNone is_up is_higher links.now result }
{
    let mut best = None;
    for link in links {
        if link.up {
            best = Some(higher_link(best, *link));
        }
    }
    best
}

/// The link with the greater height, of which the first may not be known.
fn higher_link(best: Option<Link>, link: Link) -> Link
    ensures { MatchOption best (result ≡ link) (λ b. result ≡ better_of is_higher b link) }
{
    match best {
        Some(b) if link.seen <= b.seen => b,
        _ => link,
    }
}

/// Lists the ways among these links.
fn push_ways(links: &[Link], own: &Own, ways: &mut Vec<Way>)
    requires none { ways.old.items ≡ [] }
    requires room { length links.now ≤ vec_capacity ways.old }
    ensures ways { ways.new.items ≡ ways_of own.now links.now }
    ensures room { vec_capacity ways.new ≡ vec_capacity ways.old }
{
    for link in links {
        if link.is_way(own) {
            ways.push_reserved(link.way());
        }
    }
}

/// The least distance over a neighbour to which packets may be sent.
fn nearest_way_distance(links: &[Link], own: &Own) -> Option<u32>
    ensures { MatchOption result (HasNoWay own.now links.now) (IsNearest own.now links.now) }
{
    let mut nearest = None;
    for link in links {
        if link.is_way(own) {
            nearest = Some(lesser(nearest, link.distance_over()));
        }
    }
    nearest
}

/// The best of all offers: the least one.
fn best_offer(links: &[Link], ceiling: u32) -> Option<u32>
    ensures { MatchOption result (NonePasses (is_offer ceiling) links.now) (IsLeast (is_offer ceiling) offer_of links.now) }
{
    let mut best = None;
    for link in links {
        if let Some(offer) = link.offer(ceiling) {
            best = Some(lesser(best, offer));
        }
    }
    best
}

/// The lesser of two numbers, of which the first may not be known.
fn lesser(least: Option<u32>, number: u32) -> u32
    ensures { MatchOption least (result ≡ number) (λ d. result ≡ min d number) }
{
    match least {
        Some(d) => d.min(number),
        None => number,
    }
}
