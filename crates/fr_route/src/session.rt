//! The state that the requests so far have made, and the answer to the next request.

ghost use Rattle.std.specs.Prelude.{◌≡◌, ◌≢◌, ◌≤◌, ◌⊎◌, ◌↔◌, length, true, false, Ok, Err, Some, None};
ghost use Rattle.std.specs.Prelude.{IfOk, IfErr, OnErr, IfSome, IfNone, IsTrue, MatchOption, string_bytes};
ghost use Rattle.std.specs.Option.{option_copied};
ghost use Rattle.std.specs.declared.alloc.Global.{Global};
ghost use Rattle.std.specs.declared.vec.Vec.{Vec};
ghost use Rattle.fr_requests.specs.Requests.{ask, plain, reading};
ghost use Rattle.fr_requests.specs.declared.requests.LineFault.TheVariants.{Memory as NoMemory};
ghost use Rattle.fr_crew.specs.Settlements.{CanBegin};
ghost use Rattle.fr_route.specs.Blank.{is_blank as is_blank_line};
ghost use Rattle.fr_route.specs.Answers.{IsAnswer, IsLineAnswer, MayStartFor, MayStartForLine};
ghost use Rattle.fr_route.specs.Forms.{IsAnswerIn, IsLineRefused};
ghost use Rattle.fr_route.specs.Telling.{IsTold, TellsOfLine};
ghost use Rattle.fr_route.specs.Texts.{longest_report};
ghost use Rattle.fr_route.specs.declared.fault.AnswerFault.TheVariants.{Start, Memory};

use crate::changed_nodes::ChangedNodes;
use crate::fault::AnswerFault;
use crate::form::{Answer, Draft, Form, Line};
use crate::router::Router;
use crate::settling::{Settler, counts_without_crew};
use crate::space::AnswerSpace;
use fr_crew::{Crew, Gate, Plan, settled_counts};
use fr_graph::Net;
use fr_requests::{LineFault, LineReader, Question, Request};
use std::alloc::Global;
use std::marker::Model;
use std::sync::Wait;
use std::thread::Threads;

/// A session: the router of the last accepted network, if there is one, and memory for reading lines. The value in
/// contracts is the state of the router.
#[derive(Debug)]
pub struct Session {
    pub(crate) router: Option<Router>,
    reader: LineReader,
}

// Written by hand: code that drops a session proves this one call. With a derived Drop it proves how each part is dropped.
impl Drop for Session {
    fn drop(self) {
        let Session { router, reader } = self;
        drop(router);
        drop(reader);
    }
}

impl Model for Session {
    ghost use Rattle.std.specs.Prelude.{Option};
    ghost use Rattle.fr_route.specs.States.{State};

    ghost Value = { Option State };

    ghost view = { λ s. s.router };
}

impl Session {
    ghost use Rattle.std.specs.Borrow.{sem};
    ghost use Rattle.fr_route.specs.Lending.{LendsRouter};

    /// A session without a network. O(1).
    pub fn new() -> Session
        ensures { result ≡ None }
    {
        Session {
            router: None,
            reader: LineReader::default(),
        }
    }

    /// The router of the last accepted network, or `None` if there is none yet. O(1).
    pub fn router(&self) -> Option<&Router>
        ensures { option_copied result ≡ self.now }
    {
        self.router.as_ref()
    }

    /// The same router, for changes in place. Its state after the changes is the state of the session. O(1).
    pub fn router_mut(&mut self) -> Option<&mut Router>
        // The session keeps what the caller changed.
        ensures* writes_back { sem 𝓛 (LendsRouter self.entry result) }
        ensures value { MatchOption result (self.old ≡ None) (λ router. self.old ≡ Some router.now) }
    {
        match &mut self.router {
            Some(router) => Some(router),
            None => None,
        }
    }

    /// Replaces the router of the session, or sets the first one. O(1), and the cost of dropping the old one.
    pub fn put_router(&mut self, router: Router)
        ensures { self.new ≡ Some router }
    {
        self.router = Some(router);
    }

    /// Reads a line as a request.
    #[inline(always)]
    pub(crate) fn read(&mut self, alloc: Global, line: &[u8]) -> Result<Request, LineFault>
        ensures same { self.new ≡ self.old }
        ensures ok { IfOk result (λ request. reading line.now ≡ Ok (plain request)) }
        ensures refused { IfErr result (λ fault. fault ≢ NoMemory → reading line.now ≡ Err fault) }
    {
        self.reader.read(alloc, line)
    }

    /// Answers a line, or returns `None` for a blank one. `specs/Answers.antt` defines the answer. The session is then
    /// in the state after the line; a refused line does not change it. Networks are settled with this plan and gate; no
    /// answer depends on them.
    ///
    /// Fails with `Start` if a thread could not be started, and with `Memory` if an allocation is refused. Then the
    /// session is unchanged. It fails with `Start` only if a network or a change is accepted and a node can turn, and
    /// never if the budget is 0 or there is one worker.
    ///
    /// O(b) for b bytes of answer, the cost of [`LineReader::read`], and for the request the cost of [`Net::new`] and
    /// of the router's calls.
    pub fn answer_line<R: Threads + Wait + Sync, G: Gate + Sync>(
        &mut self,
        rt: &R,
        alloc: Global,
        line: &[u8],
        plan: &Plan,
        gate: &G,
    ) -> Result<Option<String>, AnswerFault>
        // `None` only for a blank line.
        ensures blank { IfOk result
            (λ answer. IfNone answer ((is_blank_line line.now ≡ true) × (self.new ≡ self.old))) }
        // The answer, and the state after it, are those of the definitions. Pushes lead from a table to the settled
        // hops or to another table, in push order, or a fault says why there are no pushes. A refusal has the number
        // of the first fault.
        ensures text { IfOk result (λ answer. IfSome answer (λ text. (is_blank_line line.now ≡ false)
            × IsLineAnswer self.old (reading line.now) (string_bytes text) self.new)) }
        ensures unchanged { OnErr result ((is_blank_line line.now ≡ false) × (self.new ≡ self.old)) }
        // `Start` only for an accepted change.
        ensures start { IfErr result (λ fault. fault ≡ Start → MayStartForLine self.old (reading line.now)) }
        ensures one_worker { plan.now.workers ≡ 1 → IfErr result (λ fault. fault ≢ Start) }
        ensures no_start { plan.now.budget ≡ 0 → IfErr result (λ fault. fault ≢ Start) }
    {
        let crew = Crew {
            rt,
            alloc,
            plan,
            gate,
        };
        // As text, an answer does not depend on the number of its line.
        let line = Line {
            number: 0,
            bytes: line,
        };
        match self.answer_line_in(&crew, Form::Text, line, &mut AnswerSpace::new(alloc))? {
            Some(answer) => Ok(Some(answer.text)),
            None => Ok(None),
        }
    }

    /// Answers a line as [`answer_line`](Self::answer_line) does, on the calling thread. It starts no thread, does not
    /// wait, and never fails with `Start`. The cost is the same, with the router's calls that end in `_alone`.
    pub fn answer_line_alone(
        &mut self,
        alloc: Global,
        line: &[u8],
    ) -> Result<Option<String>, AnswerFault>
        ensures blank { IfOk result
            (λ answer. IfNone answer ((is_blank_line line.now ≡ true) × (self.new ≡ self.old))) }
        ensures text { IfOk result (λ answer. IfSome answer (λ text. (is_blank_line line.now ≡ false)
            × IsLineAnswer self.old (reading line.now) (string_bytes text) self.new)) }
        ensures unchanged { OnErr result ((is_blank_line line.now ≡ false) × (self.new ≡ self.old)) }
        // An answer that changes the session has at most 52 bytes.
        ensures short { IfOk result
            (λ answer. IfSome answer (λ text. (self.new ≡ self.old) ⊎ (length (string_bytes text) ≤ longest_report))) }
        ensures no_start { IfErr result (λ fault. fault ≢ Start) }
    {
        Settler::new(alloc, &counts_without_crew).text_for_line(
            self,
            line,
            &mut ChangedNodes::Unlisted,
        )
    }

    /// Answers a line as [`answer_line_alone`](Self::answer_line_alone) does, and lists the nodes that the line
    /// reroutes in the caller's list, in push order: after a change as [`Router::change_telling_alone`] does, after a
    /// new network as [`Router::changed_since`] does. Any other answer leaves the list unchanged, and so does a
    /// failure. The list gets room for all nodes before anything is changed, and keeps it. The cost is the same, with
    /// the router's calls that list rerouted nodes.
    pub fn answer_line_telling_alone(
        &mut self,
        alloc: Global,
        line: &[u8],
        rerouted: &mut Vec<u32>,
    ) -> Result<Option<String>, AnswerFault>
        ensures blank { IfOk result
            (λ answer. IfNone answer ((is_blank_line line.now ≡ true) × (self.new ≡ self.old))) }
        ensures text { IfOk result (λ answer. IfSome answer (λ text. (is_blank_line line.now ≡ false)
            × IsLineAnswer self.old (reading line.now) (string_bytes text) self.new)) }
        // Exactly the nodes whose hop a change or a new network alters.
        ensures told { TellsOfLine self.old (reading line.now) result self.new rerouted.old.items rerouted.new.items }
        ensures unchanged { OnErr result ((is_blank_line line.now ≡ false) × (self.new ≡ self.old)) }
        ensures short { IfOk result
            (λ answer. IfSome answer (λ text. ((self.new ≡ self.old) × (rerouted.new.items ≡ rerouted.old.items))
            ⊎ (length (string_bytes text) ≤ longest_report))) }
        ensures no_start { IfErr result (λ fault. fault ≢ Start) }
    {
        let mut told = ChangedNodes::from_list(rerouted, alloc);
        let answer = Settler::new(alloc, &counts_without_crew).text_for_line(self, line, &mut told);
        *rerouted = told.into_list(alloc);
        answer
    }

    /// Answers a request, as `answer_line` answers the line of the request, with the same faults. The text does not end
    /// in a newline. O(b) for b bytes of answer, and for the request the cost of [`Net::new`] and of the router's
    /// calls.
    pub fn answer<R: Threads + Wait + Sync, G: Gate + Sync>(
        &mut self,
        rt: &R,
        alloc: Global,
        request: &Request,
        plan: &Plan,
        gate: &G,
    ) -> Result<String, AnswerFault>
        ensures text { IfOk result (λ text. IsAnswer self.old (plain request.now) (string_bytes text) self.new) }
        ensures unchanged { OnErr result (self.new ≡ self.old) }
        ensures start { IfErr result (λ fault. fault ≡ Start → MayStartFor self.old (plain request.now)) }
        ensures one_worker { plan.now.workers ≡ 1 → IfErr result (λ fault. fault ≢ Start) }
        ensures no_start { plan.now.budget ≡ 0 → IfErr result (λ fault. fault ≢ Start) }
    {
        let crew = Crew {
            rt,
            alloc,
            plan,
            gate,
        };
        Settler::new(
            alloc,
            &|net, dest, from, turns|
                requires { CanBegin net.now dest from turns }
            { settled_counts(&crew, net, dest, from, turns) },
        )
        .text_for_request(self, request, &mut ChangedNodes::Unlisted)
    }

    /// Answers a request as [`answer`](Self::answer) does, on the calling thread, and lists the nodes that the request
    /// reroutes in the caller's list, as [`Session::answer_line_telling_alone`] does for a line. It starts no thread,
    /// does not wait, and never fails with `Start`. The cost is the same, with the router's calls that list rerouted
    /// nodes.
    pub fn answer_telling_alone(
        &mut self,
        alloc: Global,
        request: &Request,
        rerouted: &mut Vec<u32>,
    ) -> Result<String, AnswerFault>
        ensures text { IfOk result (λ text. IsAnswer self.old (plain request.now) (string_bytes text) self.new) }
        ensures told { IfOk result
            (λ _. IsTold self.old (plain request.now) self.new rerouted.old.items rerouted.new.items) }
        ensures unchanged { OnErr result ((self.new ≡ self.old) × (rerouted.new.items ≡ rerouted.old.items)) }
        ensures short { IfOk result (λ text. ((self.new ≡ self.old) × (rerouted.new.items ≡ rerouted.old.items))
            ⊎ (length (string_bytes text) ≤ longest_report)) }
        ensures no_start { IfErr result (λ fault. fault ≢ Start) }
    {
        let mut told = ChangedNodes::from_list(rerouted, alloc);
        let answer = Settler::new(alloc, &counts_without_crew).text_for_request(
            self, request, &mut told,
        );
        *rerouted = told.into_list(alloc);
        answer
    }

    /// Answers a line, or returns `None` for a blank one, in this form. `specs/Json.antt` defines the answers in JSON.
    /// A refusal in JSON has the number of the line. `space` is memory for the call: pass the same one each time.
    ///
    /// The session and the faults are as for [`Session::answer_line`]. So is the cost; an answer in JSON to a change
    /// also takes space of O(n) and puts the rerouted nodes in push order. A report with ways takes space of O(n + m).
    /// Its cost is that of [`Router::change_with_ways_alone`], and after a new network that of
    /// [`Router::all_ways`] for the network and for the one before it.
    pub fn answer_line_in<R: Threads + Wait + Sync, G: Gate + Sync>(
        &mut self,
        crew: &Crew<'_, R, G>,
        form: Form,
        line: Line<'_>,
        space: &mut AnswerSpace,
    ) -> Result<Option<Answer>, AnswerFault>
        ensures blank { IfOk result
            (λ answer. IfNone answer ((is_blank_line line.entry.bytes.now ≡ true) × (self.new ≡ self.old))) }
        // The defined answer in this form, to the byte. A JSON answer has the changed hops in push order, or the
        // fault of a refusal with its nodes and the line. With `JsonWithWays` a report also has the pushes of both
        // phases, from the ways before the change or before the new network.
        ensures answer { IfOk result (λ answer. IfSome answer (λ it. (is_blank_line line.entry.bytes.now ≡ false)
            × IsAnswerIn form line.entry.number self.old (reading line.entry.bytes.now)
            (string_bytes it.text) self.new)) }
        // The answer says that it is a refusal exactly if the line is refused.
        ensures refused { IfOk result
            (λ answer. IfSome answer (λ it. IsTrue it.refused
            ↔ IsLineRefused self.old (reading line.entry.bytes.now))) }
        ensures unchanged { OnErr result ((is_blank_line line.entry.bytes.now ≡ false) × (self.new ≡ self.old)) }
        ensures start { IfErr result (λ fault. fault ≡ Start
            → MayStartForLine self.old (reading line.entry.bytes.now)) }
        ensures one_worker { crew.now.plan.now.workers ≡ 1 → IfErr result (λ fault. fault ≢ Start) }
        ensures no_start { crew.now.plan.now.budget ≡ 0 → IfErr result (λ fault. fault ≢ Start) }
    {
        Settler::new(
            crew.alloc,
            &|net, dest, from, turns|
                requires { CanBegin net.now dest from turns }
            { settled_counts(crew, net, dest, from, turns) },
        )
        .reply_line_in(self, form, line, space)
    }

    /// Answers a line in this form as [`answer_line_in`](Self::answer_line_in) does, on the calling thread. It starts
    /// no thread, does not wait, and never fails with `Start`. The cost is the same, with the router's calls that end
    /// in `_alone`.
    pub fn answer_line_in_alone(
        &mut self,
        alloc: Global,
        form: Form,
        line: Line<'_>,
        space: &mut AnswerSpace,
    ) -> Result<Option<Answer>, AnswerFault>
        ensures blank { IfOk result
            (λ answer. IfNone answer ((is_blank_line line.entry.bytes.now ≡ true) × (self.new ≡ self.old))) }
        ensures answer { IfOk result (λ answer. IfSome answer (λ it. (is_blank_line line.entry.bytes.now ≡ false)
            × IsAnswerIn form line.entry.number self.old (reading line.entry.bytes.now)
            (string_bytes it.text) self.new)) }
        ensures refused { IfOk result
            (λ answer. IfSome answer (λ it. IsTrue it.refused
            ↔ IsLineRefused self.old (reading line.entry.bytes.now))) }
        ensures unchanged { OnErr result ((is_blank_line line.entry.bytes.now ≡ false) × (self.new ≡ self.old)) }
        ensures no_start { IfErr result (λ fault. fault ≢ Start) }
    {
        Settler::new(alloc, &counts_without_crew).reply_line_in(self, form, line, space)
    }

    /// Answers a question, as [`Session::answer`] does. This changes nothing. Fails only with `Memory`. O(b) for b
    /// bytes of answer, and for the ways of all nodes the cost of [`Router::all_ways`].
    pub fn answer_question(&self, alloc: Global, question: Question) -> Result<String, AnswerFault>
        ensures text { IfOk result (λ text. IsAnswer self.now (ask question) (string_bytes text) self.now) }
        ensures memory { IfErr result (λ fault. fault ≡ Memory) }
    {
        let mut draft = Draft::text(alloc);
        self.question(alloc, &mut draft, question)?;
        Ok(draft.text)
    }
}
