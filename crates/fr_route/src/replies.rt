//! How a session answers a request, in each form and by any way to settle networks.

ghost use Rattle.std.specs.Prelude.{◌≡◌, ◌≢◌, ◌<◌, ◌≤◌, length, slice_get, Ok, Some, None};
ghost use Rattle.std.specs.Prelude.{IfOk, IfErr, OnErr, OnOk, IfSome, string_bytes};
ghost use Rattle.std.specs.Option.{option_copied};
ghost use Rattle.std.specs.Prelude.{option_map};
ghost use Rattle.std.specs.declared.alloc.Global.{Global};
ghost use Rattle.std.specs.declared.vec.Vec.{Vec};
ghost use Rattle.fr_tables.specs.declared.hop.Hop.{Hop};
ghost use Rattle.fr_requests.specs.Requests.{ask, ask_node, make_edits, move_dest, new_network, order_pushes, push_ways};
ghost use Rattle.fr_requests.specs.Requests.{plain, reading, walk_from};
ghost use Rattle.fr_route.specs.Ways.{Settles, NeverStarts};
ghost use Rattle.fr_route.specs.Answers.{IsAccepted};
ghost use Rattle.fr_route.specs.Json.{ends};
ghost use Rattle.fr_route.specs.Listing.{IsListing, nodes_told};
ghost use Rattle.fr_route.specs.Replies.{answer_form, answered, HasList, IsLineAnsweredIn, IsLineReplied, IsReplied};
ghost use Rattle.fr_route.specs.Replies.{IsReportIn, IsRevised, IsStillReply, request_of_edit, written};
ghost use Rattle.fr_route.specs.Sessions.{IsAnswered, IsLineAnswered};
ghost use Rattle.fr_route.specs.Reroutes.{AreReplaced};
ghost use Rattle.fr_route.specs.Texts.{longest_report};
ghost use Rattle.fr_route.specs.Refusals.{IsNewFault};
ghost use Rattle.fr_route.specs.declared.fault.AnswerFault.TheVariants.{Memory};
ghost use Rattle.fr_route.specs.declared.fault.RouteFault.TheVariants.{Start as RouteStart};
ghost use Rattle.fr_route.specs.declared.form.Form.TheVariants.{JsonWithWays, Text};

use crate::blank::is_blank;
use crate::changed_nodes::ChangedNodes;
use crate::fault::{AnswerFault, NotMade, RouteFault};
use crate::form::{Answer, Draft, Form, Line};
use crate::outcome::ends_of_edit as ends_of;
use crate::pushing::{pushes_between, pushes_from};
use crate::questions::{node_question_in_form, phases_in_form, question_in_form, walk_in_form};
use crate::refusals::Reason;
use crate::refusing::{refuse, refuse_for};
use crate::reports::{begin_report, push_report_in_form, write_new_report};
use crate::revision::Revision;
use crate::router::Router;
use crate::session::Session;
use crate::settling::Settler;
use crate::space::AnswerSpace;
use fr_crew::CrewFault;
use fr_graph::{Edit, MAX_EDITS, MAX_NODES, Net, NetFault, Turns};
use fr_requests::{LineFault, NodeQuestion, Question, Request};
use fr_tables::Hop;
use fr_ways::WayTable;
use std::alloc::Global;

impl Session {
    /// Puts a router in place once its answer is written, and lists the nodes whose hop has changed if the caller asks for
    /// them.
    fn replace_router(
        &mut self,
        alloc: Global,
        draft: &mut Draft,
        router: Router,
        told: &mut ChangedNodes,
    ) -> Result<(), AnswerFault>
        ensures report { HasList draft.old.form told.old → OnOk result
            (IsReportIn draft.old.form (AreReplaced self.old router) self.old router (string_bytes draft.new.text)) }
        ensures put { OnOk result (self.new ≡ Some router) }
        ensures told { IsListing told.old → OnOk result (AreReplaced self.old router (nodes_told told.new)) }
        ensures unchanged { OnErr result ((self.new ≡ self.old) × (nodes_told told.new ≡ nodes_told told.old)) }
        ensures short { draft.old.form ≡ Text → OnOk result (length (string_bytes draft.new.text) ≤ longest_report) }
        ensures memory { IfErr result (λ fault. fault ≡ Memory) }
    {
        router.state_law();
        let replaced = replaced_nodes(alloc, self.router.as_ref(), &router, told)?;
        write_new_report(alloc, draft, self.router.as_ref(), &router, &replaced)?;
        told.replace_list(replaced);
        self.put_router(router);
        Ok(())
    }

    /// Writes the answer to a request for the route from a node.
    fn walk(&self, alloc: Global, draft: &mut Draft, x: u32) -> Result<bool, AnswerFault>
        ensures reply { IfOk result
            (λ refused. IsStillReply (answer_form draft.old) self.now (walk_from x) (written draft.new refused)) }
        ensures memory { IfErr result (λ fault. fault ≡ Memory) }
    {
        let Some(router) = &self.router else {
            return refuse(draft, Reason::NoNetwork, &[], None);
        };
        if x >= router.net().nodes() {
            return refuse(draft, Reason::NoNode, &[x], None);
        }
        walk_in_form(alloc, draft, router, x)?;
        Ok(false)
    }

    /// Writes the answer to a question.
    pub(crate) fn question(
        &self,
        alloc: Global,
        draft: &mut Draft,
        question: Question,
    ) -> Result<bool, AnswerFault>
        ensures reply { IfOk result
            (λ refused. IsStillReply (answer_form draft.old) self.now (ask question) (written draft.new refused)) }
        ensures memory { IfErr result (λ fault. fault ≡ Memory) }
    {
        let Some(router) = &self.router else {
            return refuse(draft, Reason::NoNetwork, &[], None);
        };
        question_in_form(alloc, draft, router, question)?;
        Ok(false)
    }

    /// Writes the answer to a question about one node.
    fn node_question(
        &mut self,
        alloc: Global,
        draft: &mut Draft,
        question: NodeQuestion,
        x: u32,
    ) -> Result<bool, AnswerFault>
        ensures same { self.new ≡ self.old }
        ensures reply { IfOk result
            (λ refused. IsStillReply (answer_form draft.old) self.old (ask_node question x) (written draft.new refused)) }
        ensures memory { IfErr result (λ fault. fault ≡ Memory) }
    {
        let Some(router) = &mut self.router else {
            return refuse(draft, Reason::NoNetwork, &[], None);
        };
        if x >= router.net().nodes() {
            return refuse(draft, Reason::NoNode, &[x], None);
        }
        node_question_in_form(alloc, draft, router, question, x)?;
        Ok(false)
    }

    /// Writes the answer to a request for the pushes from a table to the wanted one, or to the next hops if none is given.
    fn pushes(
        &self,
        alloc: Global,
        draft: &mut Draft,
        table: &[Hop],
        wanted: &Option<Vec<Hop>>,
    ) -> Result<bool, AnswerFault>
        ensures reply { IfOk result (λ refused. IsStillReply (answer_form draft.old) self.now
            (order_pushes table.now (option_map (λ (t : Vec Hop Global). t.items) wanted.now)) (written draft.new refused)) }
        ensures memory { IfErr result (λ fault. fault ≡ Memory) }
    {
        match wanted {
            Some(wanted) => pushes_between(alloc, draft, table, wanted),
            None => self.pushes_to_hops(alloc, draft, table),
        }
    }

    /// Writes the answer to a request for the pushes from a table to the next hops.
    fn pushes_to_hops(
        &self,
        alloc: Global,
        draft: &mut Draft,
        table: &[Hop],
    ) -> Result<bool, AnswerFault>
        ensures reply { IfOk result
            (λ refused. IsStillReply (answer_form draft.old) self.now (order_pushes table.now None) (written draft.new refused)) }
        ensures memory { IfErr result (λ fault. fault ≡ Memory) }
    {
        let Some(router) = &self.router else {
            return refuse(draft, Reason::NoNetwork, &[], None);
        };
        pushes_from(alloc, draft, table, router.hops())
    }

    /// Writes the answer to a request for the pushes from a table of ways to the ways of each node.
    fn way_pushes(
        &self,
        alloc: Global,
        draft: &mut Draft,
        table: &WayTable,
    ) -> Result<bool, AnswerFault>
        ensures reply { IfOk result
            (λ refused. IsStillReply (answer_form draft.old) self.now (push_ways table.now) (written draft.new refused)) }
        ensures memory { IfErr result (λ fault. fault ≡ Memory) }
    {
        let Some(router) = &self.router else {
            return refuse(draft, Reason::NoNetwork, &[], None);
        };
        if table.len() > MAX_NODES as usize {
            return refuse(draft, Reason::TooMany, &[], None);
        }
        let nodes = router.net().nodes();
        if table.len() > nodes as usize {
            return refuse(draft, Reason::NoNode, &[nodes], None);
        }
        phases_in_form(alloc, draft, router, table)?;
        Ok(false)
    }
}

/// The parts of a request for a network.
#[derive(Clone, Copy)]
struct Parts<'a> {
    nodes: u32,
    dest: u32,
    links: &'a [(u32, u32)],
}

/// The nodes that a new router reroutes when it replaces the one before it, if there was one, and if the caller asks for
/// them.
fn replaced_nodes(
    alloc: Global,
    before: Option<&Router>,
    router: &Router,
    told: &ChangedNodes,
) -> Result<Vec<u32>, AnswerFault>
    ensures told { IsListing told.now
        → IfOk result (λ nodes. AreReplaced (option_copied before.entry) router.now nodes.items) }
    ensures memory { IfErr result (λ fault. fault ≡ Memory) }
{
    match told {
        ChangedNodes::Unlisted => Ok(Vec::new(alloc)),
        ChangedNodes::InList(_, _) => match router.changed_since(alloc, before) {
            Ok(nodes) => Ok(nodes),
            Err(_) => Err(AnswerFault::Memory),
        },
    }
}

/// The ends of the edit at a place.
fn ends_of_edit_at(edits: &[Edit], at: usize) -> [u32; 2]
    ensures { IfSome (slice_get edits.now at) (λ edit. result ≡ ends edit) }
{
    match edits.get(at) {
        Some(edit) => {
            let (u, v) = ends_of(*edit);
            [u, v]
        }
        None => [0, 0],
    }
}

impl<'a, F: Fn(&Net, u32, Option<&[u32]>, Turns) -> Result<Turns, CrewFault>> Settler<'a, F> {
    /// The answer to a line as text, or `None` for a blank one.
    pub(crate) fn text_for_line(
        &self,
        session: &mut Session,
        line: &[u8],
        told: &mut ChangedNodes,
    ) -> Result<Option<String>, AnswerFault>
        requires { Settles F.pre F.post self.now.settle.now }
        ensures { IsLineAnswered
            (NeverStarts F.post self.now.settle.now) session.old line.now told.old result session.new told.new }
    {
        let mut draft = Draft::text(self.alloc);
        match self.reply_line(session, &mut draft, line, told)? {
            Some(_) => Ok(Some(draft.text)),
            None => Ok(None),
        }
    }

    /// The answer to a request as text.
    pub(crate) fn text_for_request(
        &self,
        session: &mut Session,
        request: &Request,
        told: &mut ChangedNodes,
    ) -> Result<String, AnswerFault>
        requires { Settles F.pre F.post self.now.settle.now }
        ensures { IsAnswered (NeverStarts F.post self.now.settle.now) session.old
            (Ok (plain request.now)) told.old result session.new told.new }
    {
        let mut draft = Draft::text(self.alloc);
        self.reply(session, &mut draft, request, told)?;
        Ok(draft.text)
    }

    /// The answer to a line in this form, or `None` for a blank one.
    pub(crate) fn reply_line_in(
        &self,
        session: &mut Session,
        form: Form,
        line: Line<'_>,
        space: &mut AnswerSpace,
    ) -> Result<Option<Answer>, AnswerFault>
        requires { Settles F.pre F.post self.now.settle.now }
        ensures { IsLineAnsweredIn (NeverStarts F.post self.now.settle.now) form line.entry.number session.old
            line.entry.bytes.now result session.new }
    {
        let mut draft = Draft {
            form,
            number: line.number,
            text: space.text(self.alloc),
        };
        match self.write_reply(session, &mut draft, line.bytes, space)? {
            Some(refused) => Ok(Some(Answer {
                text: draft.text,
                refused,
            })),
            None => {
                space.reuse(draft.text);
                Ok(None)
            }
        }
    }

    /// Writes the answer to a line, and returns whether the line is refused, or `None` for a blank one. Lists rerouted
    /// nodes only for JSON, and notes ways only for JSON with ways.
    fn write_reply(
        &self,
        session: &mut Session,
        draft: &mut Draft,
        line: &[u8],
        space: &mut AnswerSpace,
    ) -> Result<Option<bool>, AnswerFault>
        requires { Settles F.pre F.post self.now.settle.now }
        ensures { IsLineAnsweredIn (NeverStarts F.post self.now.settle.now) draft.old.form draft.old.number session.old
            line.now (answered result draft.new) session.new }
    {
        match draft.form {
            Form::Text => self.reply_line(session, draft, line, &mut ChangedNodes::Unlisted),
            Form::Json => {
                let mut told = space.take_list(self.alloc);
                let refused = self.reply_line(session, draft, line, &mut told);
                space.put_back(told);
                refused
            }
            Form::JsonWithWays => self.reply_with_ways(session, draft, line, space),
        }
    }

    /// Answers a line in JSON with ways. It is not inlined, so that other answers do not pay for its local variables.
    #[inline(never)]
    fn reply_with_ways(
        &self,
        session: &mut Session,
        draft: &mut Draft,
        line: &[u8],
        space: &mut AnswerSpace,
    ) -> Result<Option<bool>, AnswerFault>
        requires settles { Settles F.pre F.post self.now.settle.now }
        requires form { draft.old.form ≡ JsonWithWays }
        ensures { IsLineAnsweredIn (NeverStarts F.post self.now.settle.now) JsonWithWays draft.old.number session.old
            line.now (answered result draft.new) session.new }
    {
        if is_blank(line) {
            return Ok(None);
        }
        let mut told = space.take_with_notes(self.alloc)?;
        let refused = self.reply_line(session, draft, line, &mut told);
        space.put_back(told);
        refused
    }

    /// Writes the answer to a line, and returns whether the line is refused, or `None` for a blank one.
    fn reply_line(
        &self,
        session: &mut Session,
        draft: &mut Draft,
        line: &[u8],
        told: &mut ChangedNodes,
    ) -> Result<Option<bool>, AnswerFault>
        requires settles { Settles F.pre F.post self.now.settle.now }
        requires lists { HasList draft.old.form told.old }
        ensures { IsLineReplied
            (NeverStarts F.post self.now.settle.now) (answer_form draft.old) session.old line.now told.old result draft.new
            session.new told.new }
    {
        if is_blank(line) {
            return Ok(None);
        }
        Ok(Some(self.reply_nonblank_line(session, draft, line, told)?))
    }

    /// Writes the answer to a line that is not blank.
    fn reply_nonblank_line(
        &self,
        session: &mut Session,
        draft: &mut Draft,
        line: &[u8],
        told: &mut ChangedNodes,
    ) -> Result<bool, AnswerFault>
        requires settles { Settles F.pre F.post self.now.settle.now }
        requires lists { HasList draft.old.form told.old }
        ensures { IsReplied (NeverStarts F.post self.now.settle.now) (answer_form draft.old) session.old
            (reading line.now) told.old result draft.new session.new told.new }
    {
        match session.read(self.alloc, line) {
            Ok(request) => self.reply(session, draft, &request, told),
            Err(LineFault::NotJson) => refuse(draft, Reason::NotJson, &[], None),
            Err(LineFault::NotRequest) => refuse(draft, Reason::NotRequest, &[], None),
            Err(LineFault::Memory) => Err(AnswerFault::Memory),
        }
    }

    /// Writes the answer to a request.
    fn reply(
        &self,
        session: &mut Session,
        draft: &mut Draft,
        request: &Request,
        told: &mut ChangedNodes,
    ) -> Result<bool, AnswerFault>
        requires settles { Settles F.pre F.post self.now.settle.now }
        requires lists { HasList draft.old.form told.old }
        ensures { IsReplied (NeverStarts F.post self.now.settle.now) (answer_form draft.old) session.old
            (Ok (plain request.now)) told.old result draft.new session.new told.new }
    {
        match request {
            Request::Network { nodes, dest, links } => {
                let parts = Parts {
                    nodes: *nodes,
                    dest: *dest,
                    links,
                };
                self.reply_network(session, draft, parts, told)
            }
            Request::Cut { u, v } => {
                self.reply_edit(session, draft, Edit::Cut { u: *u, v: *v }, told)
            }
            Request::Add { u, v } => {
                self.reply_edit(session, draft, Edit::Add { u: *u, v: *v }, told)
            }
            Request::Join { u, v } => {
                self.reply_edit(session, draft, Edit::Join { u: *u, v: *v }, told)
            }
            Request::Batch { edits } => self.reply_batch(session, draft, edits, told),
            Request::Destination { dest } => self.reply_move(session, draft, *dest, told),
            Request::Walk { x } => session.walk(self.alloc, draft, *x),
            Request::Ask(question) => session.question(self.alloc, draft, *question),
            Request::AskNode { question, x } => {
                session.node_question(self.alloc, draft, *question, *x)
            }
            Request::Pushes { table, wanted } => session.pushes(self.alloc, draft, table, wanted),
            Request::Phases { table } => session.way_pushes(self.alloc, draft, table),
        }
    }

    /// Writes the answer to a request for a network. It is not inlined, so that other requests do not pay for the router that
    /// is a local variable here.
    #[inline(never)]
    fn reply_network(
        &self,
        session: &mut Session,
        draft: &mut Draft,
        parts: Parts<'_>,
        told: &mut ChangedNodes,
    ) -> Result<bool, AnswerFault>
        requires settles { Settles F.pre F.post self.now.settle.now }
        requires lists { HasList draft.old.form told.old }
        ensures { IsReplied (NeverStarts F.post self.now.settle.now) (answer_form draft.old) session.old
            (Ok (new_network parts.entry.nodes parts.entry.dest parts.entry.links.now)) told.old result draft.new session.new
            told.new }
    {
        let Parts { nodes, dest, links } = parts;
        match self.open_network(nodes, dest, links) {
            Ok(router) => {
                session.replace_router(self.alloc, draft, router, told)?;
                Ok(false)
            }
            Err(fault) => refuse_for(draft, fault, &[dest], None),
        }
    }

    /// The router of a network of these links.
    fn open_network(
        &self,
        nodes: u32,
        dest: u32,
        links: &[(u32, u32)],
    ) -> Result<Router, RouteFault>
        requires { Settles F.pre F.post self.now.settle.now }
        ensures accepted { IfOk result (IsAccepted None (new_network nodes dest links.now)) }
        ensures refused { IfErr result (IsNewFault nodes dest links.now) }
        ensures no_start { NeverStarts F.post self.now.settle.now → IfErr result (λ fault. fault ≢ RouteStart) }
    {
        let net = Net::new(self.alloc, nodes, links)?;
        self.open(net, dest)
    }

    /// Writes the answer to an edit.
    fn reply_edit(
        &self,
        session: &mut Session,
        draft: &mut Draft,
        edit: Edit,
        told: &mut ChangedNodes,
    ) -> Result<bool, AnswerFault>
        requires settles { Settles F.pre F.post self.now.settle.now }
        requires lists { HasList draft.old.form told.old }
        ensures { IsReplied (NeverStarts F.post self.now.settle.now) (answer_form draft.old) session.old
            (Ok (request_of_edit edit)) told.old result draft.new session.new told.new }
    {
        let Some(router) = &mut session.router else {
            return refuse(draft, Reason::NoNetwork, &[], None);
        };
        let dest = router.dest();
        let edits = &[edit];
        match self.edit_and_report(router, &Revision { edits, dest }, draft, told) {
            Ok(()) => Ok(false),
            Err(undone) => refuse_for(draft, undone.fault, &ends_of_edit_at(edits, 0), None),
        }
    }

    /// Writes the answer to a batch of edits. It is not inlined, so that other requests do not pay for its local variables.
    #[inline(never)]
    fn reply_batch(
        &self,
        session: &mut Session,
        draft: &mut Draft,
        edits: &[Edit],
        told: &mut ChangedNodes,
    ) -> Result<bool, AnswerFault>
        requires settles { Settles F.pre F.post self.now.settle.now }
        requires lists { HasList draft.old.form told.old }
        ensures { IsReplied (NeverStarts F.post self.now.settle.now) (answer_form draft.old) session.old
            (Ok (make_edits edits.now)) told.old result draft.new session.new told.new }
    {
        let Some(router) = &mut session.router else {
            return refuse(draft, Reason::NoNetwork, &[], None);
        };
        let dest = router.dest();
        match self.edit_and_report(router, &Revision { edits, dest }, draft, told) {
            Ok(()) => Ok(false),
            Err(undone) => {
                let at = undone.at;
                refuse_for(draft, undone.fault, &ends_of_edit_at(edits, at), Some(at))
            }
        }
    }

    /// Writes the answer to a request to move the destination. It is not inlined, for the same reason.
    #[inline(never)]
    fn reply_move(
        &self,
        session: &mut Session,
        draft: &mut Draft,
        dest: u32,
        told: &mut ChangedNodes,
    ) -> Result<bool, AnswerFault>
        requires settles { Settles F.pre F.post self.now.settle.now }
        requires lists { HasList draft.old.form told.old }
        ensures { IsReplied (NeverStarts F.post self.now.settle.now) (answer_form draft.old) session.old
            (Ok (move_dest dest)) told.old result draft.new session.new told.new }
    {
        let Some(router) = &mut session.router else {
            return refuse(draft, Reason::NoNetwork, &[], None);
        };
        if dest >= router.net().nodes() {
            return refuse(draft, Reason::NoNode, &[dest], None);
        }
        let edits = &[];
        match self.edit_and_report(router, &Revision { edits, dest }, draft, told) {
            Ok(()) => Ok(false),
            Err(undone) => refuse_for(draft, undone.fault, &[], None),
        }
    }

    /// Makes these edits, and writes the report of the round into the draft. Too many edits are refused first. Room for the
    /// report is taken before anything is changed.
    fn edit_and_report(
        &self,
        router: &mut Router,
        revision: &Revision<'_>,
        draft: &mut Draft,
        told: &mut ChangedNodes,
    ) -> Result<(), NotMade>
        requires settles { Settles F.pre F.post self.now.settle.now }
        requires lists { HasList draft.old.form told.old }
        requires node { revision.now.dest < router.old.nodes }
        ensures revised { IsRevised (NeverStarts F.post self.now.settle.now) draft.old.form router.old revision.now told.old
            result draft.new.text router.new told.new }
        ensures same { answer_form draft.new ≡ answer_form draft.old }
    {
        if revision.edits.len() > MAX_EDITS {
            return Err(NotMade {
                at: MAX_EDITS,
                fault: RouteFault::Net(NetFault::TooMany),
            });
        }
        let net = router.net();
        net.network_law();
        let links = net.link_count() + revision.edits.len();
        begin_report(&mut draft.text, draft.form, net.nodes(), links)?;
        let report = self.edit(router, revision, told)?;
        router.state_law();
        // There is room, so this does not fail.
        push_report_in_form(&mut draft.text, draft.form, report, told, router.hops())?;
        Ok(())
    }
}
