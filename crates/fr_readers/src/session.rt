//! A session whose next hops and ways other threads read.

ghost use Rattle.std.specs.Prelude.{◌≡◌, ◌↔◌, ◌<◌, [], None, Some, IfErr, IfOk, IfSome, OnErr, OnOk};
ghost use Rattle.fr_readers.specs.Answers.{AnswersLine, MakesChange, Notes, NotesPushes, PutsRouter};
ghost use Rattle.fr_readers.specs.Inside.{pushes_in};
ghost use Rattle.fr_readers.specs.Published.{HasHopsOf, HasWaysOf, no_pushes, published};
ghost use Rattle.std.specs.Option.{option_map};
ghost use Rattle.fr_shared.specs.Knowledge.{past_of};
ghost use Rattle.fr_ways.specs.PushLists.{AreListed};
ghost use Rattle.fr_route.specs.NodeWays.{AreNodeWays, HasDistance, IsNearest};
ghost use Rattle.fr_route.specs.declared.fault.RouteFault.TheVariants.{Memory};

use crate::noting::{change_and_note, grow_of, is_round_report, shrink_of};
use crate::publishing::{nodes_rerouted_by, open_hop_table, publish_rerouted_hops, session_law};
use crate::ways::{WayTables, publish_changes, publish_ways};
use fr_route::{
    AnswerFault, Change, NotMade, Report, Reroutes, RouteFault, Router, Session, Walked,
};
use fr_shared::hops::{Past, Publisher, Reader};
use fr_shared::ways as shared_ways;
use fr_ways::PushList;
use std::alloc::{AllocError, Global};
use std::marker::Model;

/// A session whose next hops and ways other threads read. The value in contracts is the state of the session, the nodes
/// that its last accepted round rerouted, once there are readers of hops or of ways, their tables with all pushes, and
/// the pushes of both phases of the last change that
/// [`change_with_ways`](PublishedSession::change_with_ways) made.
#[derive(Drop)]
pub struct PublishedSession {
    session: Session,
    rerouted: Vec<u32>,
    publisher: Option<Publisher>,
    ways: Option<WayTables>,
    reroutes: Option<Reroutes>,
    // What `change` notes for the readers of ways.
    noted: Option<Reroutes>,
}

impl Model for PublishedSession {
    ghost use Rattle.fr_readers.specs.Published.{Published};

    ghost Value = { Published };

    ghost use Rattle.fr_readers.specs.Inside.{IsInStep, published_in};

    ghost view = { published_in };

    ghost invariant = { IsInStep };
}

impl PublishedSession {
    /// A session without a network and without readers. It does not allocate. O(1).
    pub fn new(alloc: Global) -> PublishedSession
        ensures { result ≡ published None [] None None no_pushes }
    {
        PublishedSession {
            session: Session::new(),
            rerouted: Vec::new(alloc),
            publisher: None,
            ways: None,
            reroutes: None,
            noted: None,
        }
    }

    /// The session, for questions. O(1).
    pub fn session(&self) -> &Session
        ensures { result.now ≡ self.now.session }
    {
        &self.session
    }

    /// The nodes that the last accepted round rerouted, in push order. O(1).
    pub fn rerouted(&self) -> &[u32]
        ensures { result.now ≡ self.now.rerouted }
    {
        &self.rerouted
    }

    /// What to push first to routers that hold all their ways, once
    /// [`change_with_ways`](PublishedSession::change_with_ways) has made a change: the nodes that lose ways, each with
    /// those that it keeps, in the order of [`Reroutes::shrink`]. It is empty before the first such change. No other
    /// call changes it, so after another change or a new network it is about an earlier one. O(1).
    pub fn shrink(&self) -> PushList<'_>
        ensures { AreListed self.now.pushes.shrink result }
    {
        shrink_of(&self.reroutes)
    }

    /// What to push once routers have confirmed all pushes of [`shrink`](PublishedSession::shrink): the nodes whose list
    /// still differs, each with its new list, in the order of [`Reroutes::grow`]. All else is as for
    /// [`shrink`](PublishedSession::shrink).
    pub fn grow(&self) -> PushList<'_>
        ensures { AreListed self.now.pushes.grow result }
    {
        grow_of(&self.reroutes)
    }

    /// Between two calls, the tables of the readers have the hops and the ways of the session. The function does
    /// nothing.
    pub fn table_law(&self)
        // A number that is not a node is cut off.
        ensures hops { IfSome self.now.table (HasHopsOf self.now.session) }
        // The first five ways of each node, or all of them if there are fewer.
        ensures ways { IfSome self.now.ways (HasWaysOf self.now.session) }
    {
        // A field has to be read, because only then the proof can use the invariant.
        let _rerouted = self.rerouted.len();
    }

    /// Makes a reader of the hops, which knows all pushes made so far. The first call opens the table, for as many
    /// nodes as the largest network has, so that the table can be used for every later network. A number that is not a
    /// node is cut off in the table.
    ///
    /// Fails with `AllocError` if an allocation is refused, or if the table already has 2^63 readers. Then nothing has
    /// changed. The first reader takes 32 KiB and O(4,096 + n) time. Each later one takes O(1) time and does not
    /// allocate.
    pub fn reader(&mut self, alloc: Global) -> Result<Reader, AllocError>
        ensures session { (self.new.session ≡ self.old.session) × (self.new.rerouted ≡ self.old.rerouted)
            × (self.new.ways ≡ self.old.ways) × (self.new.pushes ≡ self.old.pushes) }
        // The first reader opens the table. An open table stays as it is.
        ensures kept { IfSome self.old.table (λ k. self.new.table ≡ Some k) }
        ensures reader { IfOk result (λ reader. self.new.table ≡ Some reader) }
        ensures unchanged { OnErr result (self.new ≡ self.old) }
    {
        if let Some(publisher) = &mut self.publisher {
            return publisher.reader();
        }
        let mut publisher = open_hop_table(alloc, &self.session)?;
        let reader = publisher.reader()?;
        self.publisher = Some(publisher);
        Ok(reader)
    }

    /// Makes a reader of the ways, which knows all pushes made so far. It reads the first five ways of each node, or
    /// all if there are fewer. The first call opens the table, for as many nodes as the largest network has, so that
    /// the table can be used for every later network. A number that is not a node has no way in the table.
    ///
    /// Fails with `AllocError` if an allocation is refused, or if the table already has 2^63 readers. Then nothing has
    /// changed. The first reader takes 112 KiB: the table, the ways that are to be pushed, space to list those of one
    /// node, and space for the nodes of a change. It takes the time that publishing takes in
    /// [`answer_line`](PublishedSession::answer_line) after a new network. Each later one takes O(1) time and does not
    /// allocate.
    ///
    /// Once there is a reader, the first [`change`](PublishedSession::change) measures the distances and takes memory for
    /// notes of all nodes and links.
    pub fn way_reader(&mut self, alloc: Global) -> Result<shared_ways::Reader, AllocError>
        ensures session { (self.new.session ≡ self.old.session) × (self.new.rerouted ≡ self.old.rerouted)
            × (self.new.table ≡ self.old.table) × (self.new.pushes ≡ self.old.pushes) }
        // The first reader opens the table. An open table stays as it is.
        ensures kept { IfSome self.old.ways (λ k. self.new.ways ≡ Some k) }
        ensures reader { IfOk result (λ reader. self.new.ways ≡ Some reader) }
        ensures unchanged { OnErr result (self.new ≡ self.old) }
    {
        if let Some(ways) = &mut self.ways {
            return ways.reader();
        }
        session_law(&self.session);
        let mut ways = WayTables::open(alloc)?;
        ways.push_session_ways(&mut self.session);
        let reader = ways.reader()?;
        self.ways = Some(ways);
        Ok(reader)
    }

    /// What readers can learn: all pushes so far, with those of the last change. `None` if there is no reader yet.
    ///
    /// Hand it to the thread of a reader after a change. Once the reader has learned it, by [`Reader::learn`], the reader
    /// answers from the hops that the session has now, or from later ones.
    ///
    /// It makes one load, and does not allocate or wait. O(1).
    pub fn past(&mut self) -> Option<Past>
        ensures kept { self.new ≡ self.old }
        // After a change, a reader learns all pushes by it.
        ensures past { result ≡ option_map past_of self.old.table }
    {
        let publisher = self.publisher.as_mut()?;
        Some(publisher.past())
    }

    /// Lists the ways of node `x`, which must be in the network, as [`Router::ways`] does. Returns `None` if there is no
    /// network yet.
    pub fn ways(&mut self, x: u32, list: &mut Vec<u32>) -> Option<Result<(), AllocError>>
        requires { IfSome self.old.session (λ s. x < s.nodes) }
        ensures same { self.new ≡ self.old }
        // `None` exactly if there is no network.
        ensures none { result ≡ None ↔ (self.old.session ≡ None) }
        ensures ways { IfSome result (λ made. OnOk made
            (IfSome self.old.session (λ s. AreNodeWays s x list.new.items))) }
    {
        let router = self.session.router_mut()?;
        Some(router.ways(x, list))
    }

    /// The distance of node `x`, which must be in the network, as [`Router::distance`] returns it. Returns `None` if
    /// there is no network yet.
    pub fn distance(&mut self, x: u32) -> Option<Option<u32>>
        requires { IfSome self.old.session (λ s. x < s.nodes) }
        ensures same { self.new ≡ self.old }
        // `None` exactly if there is no network.
        ensures none { result ≡ None ↔ (self.old.session ≡ None) }
        ensures distance { IfSome result (λ distance. IfSome self.old.session (λ s. HasDistance s x distance)) }
    {
        let router = self.session.router_mut()?;
        Some(router.distance(x))
    }

    /// The nearest route from node `x`, which must be in the network, as [`Router::nearest`] returns it. Returns `None`
    /// if there is no network yet.
    pub fn nearest(&mut self, alloc: Global, x: u32) -> Option<Result<Walked, RouteFault>>
        requires { IfSome self.old.session (λ s. x < s.nodes) }
        ensures same { self.new ≡ self.old }
        // `None` exactly if there is no network.
        ensures none { result ≡ None ↔ (self.old.session ≡ None) }
        ensures walked { IfSome result (λ made. IfOk made
            (λ walked. IfSome self.old.session (λ s. IsNearest s x walked))) }
        // `Memory` is the only fault.
        ensures memory { IfSome result (λ made. IfErr made (λ fault. fault ≡ Memory)) }
    {
        let router = self.session.router_mut()?;
        Some(router.nearest(alloc, x))
    }

    /// Answers a line, and lists and publishes the nodes that it reroutes. The answer, the faults and the cost are
    /// those of [`answer_line_telling_alone`](fr_route::Session::answer_line_telling_alone). Once there is a reader,
    /// each line also costs one load, and each rerouted node one store.
    ///
    /// It also publishes the ways, once there is a reader of them: all shrinks before all grows. A new network and an
    /// accepted change then cost O(4,096 + m log d) more for m links and at most d links of a node, because the ways of
    /// all nodes are listed again. [`change`](PublishedSession::change) lists only those that a change has altered. A
    /// question, a refused line and a blank line cost one test more.
    pub fn answer_line(&mut self, alloc: Global, line: &[u8]) -> Result<Option<String>, AnswerFault>
        // The answer is that of `Session::answer_line_telling_alone`. Then the rerouted nodes are pushed in push
        // order, and the table has the session's hops. To readers of ways exactly the shrinks, and then the grows, to
        // the new ways are pushed. The pushes of a change are kept. After a refusal or a fault, the list of rerouted
        // nodes and the tables are unchanged.
        ensures { AnswersLine self.old line.now result self.new }
    {
        session_law(&self.session);
        let answer = self
            .session
            .answer_line_telling_alone(alloc, line, &mut self.rerouted);
        session_law(&self.session);
        publish_rerouted_hops(&mut self.publisher, &self.session, &self.rerouted);
        publish_ways(&mut self.ways, &mut self.session, is_round_report(&answer));
        answer
    }

    /// Changes the network, and lists and publishes the nodes that this reroutes. The report, the faults and the cost
    /// are those of [`change_telling_alone`](fr_route::Router::change_telling_alone). Returns `None` if there is no
    /// network yet.
    ///
    /// It also publishes the ways, once there is a reader of them. Then its cost and its memory are those of
    /// [`change_with_ways`](PublishedSession::change_with_ways).
    pub fn change(&mut self, alloc: Global, change: Change) -> Option<Result<Report, NotMade>>
        // The change is that of `Router::change_telling_alone`, with its faults. It is published as by `answer_line`.
        ensures changes { MakesChange self.old change result self.new }
        // The pushes of an earlier `change_with_ways` are kept.
        ensures pushes { self.new.pushes ≡ self.old.pushes }
    {
        if self.ways.is_none() {
            return self.change_hops(alloc, change);
        }
        let mut noted = self.noted.take();
        let answer = self.change_ways(alloc, change, &mut noted);
        self.noted = noted;
        answer
    }

    /// Changes the network as [`change`](PublishedSession::change) does, and keeps what has to be pushed to routers that
    /// hold all their ways, for [`shrink`](PublishedSession::shrink) and [`grow`](PublishedSession::grow). These are the
    /// pushes that [`phases`](fr_route::Router::phases) lists from the ways before the change. If the change fails, the
    /// pushes of the change before are kept.
    ///
    /// The cost is that of
    /// [`change_with_ways_alone`](fr_route::Router::change_with_ways_alone), and one step for each rerouted node.
    /// The first call takes the memory for the notes, and all later ones use it again. Publishing the ways to readers
    /// costs O(k (log k + d log d)) more, for the k nodes whose ways the change has altered and at most d links of each:
    /// no other node is looked at.
    pub fn change_with_ways(
        &mut self,
        alloc: Global,
        change: Change,
    ) -> Option<Result<Report, NotMade>>
        // As for `change`, also report, rerouted nodes, faults and readers.
        ensures changes { MakesChange self.old change result self.new }
        // The pushes lead from the ways of all nodes before the change to those after it. The session keeps them
        // until the next change by `change_with_ways`.
        ensures pushes { NotesPushes self.old result self.new }
    {
        let mut reroutes = self.reroutes.take();
        let answer = self.change_ways(alloc, change, &mut reroutes);
        self.reroutes = reroutes;
        answer
    }

    /// Makes a change while there is no reader of ways.
    fn change_hops(&mut self, alloc: Global, change: Change) -> Option<Result<Report, NotMade>>
        requires { self.old.ways ≡ None }
        ensures changes { MakesChange self.old change result self.new }
        ensures pushes { self.new.pushes ≡ self.old.pushes }
    {
        session_law(&self.session);
        let router = self.session.router_mut()?;
        let answer = router.change_telling_alone(alloc, change, &mut self.rerouted);
        session_law(&self.session);
        publish_rerouted_hops(&mut self.publisher, &self.session, &self.rerouted);
        Some(answer)
    }

    /// Makes a change, and notes what it does to the ways of nodes. If there is a reader of ways, it publishes them.
    fn change_ways(
        &mut self,
        alloc: Global,
        change: Change,
        reroutes: &mut Option<Reroutes>,
    ) -> Option<Result<Report, NotMade>>
        ensures changes { MakesChange self.old change result self.new }
        ensures pushes { self.new.pushes ≡ self.old.pushes }
        ensures noted { Notes self.old.session result self.new.session (pushes_in reroutes.old) (pushes_in reroutes.new) }
    {
        session_law(&self.session);
        let router = self.session.router_mut()?;
        let answer = change_and_note(alloc, router, change, &mut self.rerouted, reroutes);
        publish_changes(&mut self.ways, router, reroutes, answer.is_ok());
        session_law(&self.session);
        publish_rerouted_hops(&mut self.publisher, &self.session, &self.rerouted);
        Some(answer)
    }

    /// Replaces the router of the session, or sets the first one. Lists and publishes the nodes that this reroutes,
    /// as [`changed_since`](fr_route::Router::changed_since) lists them.
    ///
    /// Fails with `AllocError` if an allocation is refused. Then nothing has changed. O(n) for the n nodes of the
    /// larger network. It publishes the ways as [`answer_line`](PublishedSession::answer_line) does after a new network,
    /// at the same cost.
    pub fn put_router(&mut self, alloc: Global, router: Router) -> Result<(), AllocError>
        // The router is published as by `answer_line`.
        ensures { PutsRouter self.old router result self.new }
    {
        session_law(&self.session);
        let rerouted = nodes_rerouted_by(alloc, self.session.router(), &router)?;
        self.rerouted = rerouted;
        self.session.put_router(router);
        session_law(&self.session);
        publish_rerouted_hops(&mut self.publisher, &self.session, &self.rerouted);
        publish_ways(&mut self.ways, &mut self.session, true);
        Ok(())
    }
}
