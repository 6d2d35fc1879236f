//! The answers to questions about a router, in each form. Both forms of JSON have the same.

ghost use Rattle.std.specs.Prelude.{◌≡◌, ◌==◌, ℕ, ◌<◌, None, IfErr, OnOk, string_bytes};
ghost use Rattle.fr_requests.specs.Requests.{ask, ask_node, push_ways, walk_from};
ghost use Rattle.fr_requests.specs.declared.requests.NodeQuestion.TheVariants.{Nearest, Ways};
ghost use Rattle.fr_requests.specs.declared.requests.Question.TheVariants.{Ways as WaysOfAll};
ghost use Rattle.fr_route.specs.Answers.{IsWalkLine};
ghost use Rattle.fr_route.specs.Json.{IsJsonWalk};
ghost use Rattle.fr_route.specs.NodeWays.{AreNodeWays, IsNearest};
ghost use Rattle.fr_route.specs.Replies.{IsTextIn};
ghost use Rattle.fr_route.specs.States.{State};
ghost use Rattle.fr_route.specs.declared.fault.AnswerFault.TheVariants.{Memory};

use crate::fault::AnswerFault;
use crate::form::{Draft, Form};
use crate::hops::Walked;
use crate::json::{
    counts_object, hops_object, links_object, nearest_object, no_nearest_object, no_walk_object,
    node_ways_object, phases_object, walk_object, ways_object,
};
use crate::listed_phases::from_plan;
use crate::router::{ROUTE_ROOM, Router};
use crate::texts::{
    begin, counts_line_into, hops_line, links_line_into, nearest_line, no_nearest_line,
    no_walk_line, node_ways_line, phases_line, push_text_and_number, ways_line,
};
use fr_requests::{NodeQuestion, Question};
use fr_tables::Hop;
use fr_ways::{WayTable, known_phases};
use itoa::Buffer;
use std::alloc::{AllocError, Global};

/// Writes the answer to a question.
pub(crate) fn question_in_form(
    alloc: Global,
    draft: &mut Draft,
    router: &Router,
    question: Question,
) -> Result<(), AllocError>
    ensures { OnOk result (IsTextIn draft.old.form None (ask question) router.now (string_bytes draft.new.text)) }
{
    let form = draft.form;
    let line = &mut draft.text;
    match (form, question) {
        (Form::Text, Question::Links) => links_line_into(line, router.net().links()),
        (Form::Text, Question::Counts) => counts_line_into(line, router.counts()),
        (Form::Text, Question::Hops) => hops_line(line, router.hops()),
        (_, Question::Ways) => all_ways_in_form(alloc, form, router, line),
        (_, Question::Links) => links_object(line, router.net().links()),
        (_, Question::Counts) => counts_object(line, router.counts()),
        (_, Question::Hops) => hops_object(line, router.hops()),
    }
}

/// Writes the answer to a request for the ways of each node.
fn all_ways_in_form(
    alloc: Global,
    form: Form,
    router: &Router,
    line: &mut String,
) -> Result<(), AllocError>
    ensures { OnOk result (IsTextIn form None (ask WaysOfAll) router.now (string_bytes line.new)) }
{
    // By this law, the number of nodes fits.
    router.net().network_law();
    let table = router.all_ways(alloc)?;
    match form {
        Form::Text => ways_line(line, router.dest(), &table),
        _ => ways_object(line, router.dest(), &table),
    }
}

/// Writes the answer to a request for the pushes from these ways to those of each node.
pub(crate) fn phases_in_form(
    alloc: Global,
    draft: &mut Draft,
    router: &Router,
    table: &WayTable,
) -> Result<(), AllocError>
    ensures { OnOk result (IsTextIn draft.old.form None (push_ways table.now) router.now (string_bytes draft.new.text)) }
{
    // By this law, the number of nodes fits.
    router.net().network_law();
    let wanted = router.all_ways(alloc)?;
    let phases = known_phases(alloc, table, &wanted)?;
    match draft.form {
        Form::Text => phases_line(&mut draft.text, &phases),
        _ => phases_object(&mut draft.text, from_plan(&phases)),
    }
}

/// Writes the answer to a request for the route from a node of the network.
pub(crate) fn walk_in_form(
    alloc: Global,
    draft: &mut Draft,
    router: &Router,
    x: u32,
) -> Result<(), AnswerFault>
    requires { x < router.now.nodes }
    ensures text { OnOk result (IsTextIn draft.old.form None (walk_from x) router.now (string_bytes draft.new.text)) }
    ensures memory { IfErr result (λ fault. fault ≡ Memory) }
{
    match draft.form {
        Form::Text => Ok(route_line(&mut draft.text, router, x)?),
        _ => route_object(alloc, &mut draft.text, router, x),
    }
}

/// Writes `walk`, and then a space and the number of each node of the route from `x`. The line is written hop by hop, so
/// there is no list of the nodes. If `x` is cut off, the line says so.
fn route_line(line: &mut String, router: &Router, x: u32) -> Result<(), AllocError>
    requires { x < router.now.nodes }
    ensures { OnOk result (IsWalkLine router.now x (string_bytes line.new)) }
{
    router.state_law();
    let net = router.net();
    net.network_law();
    if router.next_hop(x) == Hop::CutOff {
        return no_walk_line(line, x);
    }
    begin(line, "walk", ROUTE_ROOM)?;
    let mut buffer = Buffer::new();
    push_text_and_number(line, " ", u64::from(x), &mut buffer)?;
    let mut at = x;
    // No route has more nodes than the network, so the walk ends.
    let mut count = 1_u32;
    'hops: while let Hop::To(next) = router.next_hop(at) {
        push_text_and_number(line, " ", u64::from(next), &mut buffer)?;
        at = next;
        count += 1;
    }
    Ok(())
}

/// Writes the route from node `x` in JSON, or `null` if it is cut off.
fn route_object(
    alloc: Global,
    line: &mut String,
    router: &Router,
    x: u32,
) -> Result<(), AnswerFault>
    requires { x < router.now.nodes }
    ensures text { OnOk result (IsJsonWalk router.now x (string_bytes line.new)) }
    ensures memory { IfErr result (λ fault. fault ≡ Memory) }
{
    match router.walk(alloc, x) {
        Ok(Walked::Route(nodes)) => Ok(walk_object(line, &nodes)?),
        Ok(Walked::CutOff) => Ok(no_walk_object(line)?),
        Err(_) => Err(AnswerFault::Memory),
    }
}

/// Writes the answer to a question about a node of the network.
pub(crate) fn node_question_in_form(
    alloc: Global,
    draft: &mut Draft,
    router: &mut Router,
    question: NodeQuestion,
    x: u32,
) -> Result<(), AnswerFault>
    requires { x < router.old.nodes }
    ensures same { router.new ≡ router.old }
    ensures text { OnOk result
        (IsTextIn draft.old.form None (ask_node question x) router.old (string_bytes draft.new.text)) }
    ensures memory { IfErr result (λ fault. fault ≡ Memory) }
{
    match question {
        NodeQuestion::Ways => {
            let mut ways = Vec::new(alloc);
            router.ways(x, &mut ways)?;
            Ok(node_ways_in_form(draft, x == router.dest(), &ways)?)
        }
        NodeQuestion::Nearest => {
            let Ok(walked) = router.nearest(alloc, x) else {
                return Err(AnswerFault::Memory);
            };
            Ok(nearest_in_form(draft, x, &walked)?)
        }
    }
}

/// Writes the answer for these ways of a node. `home` says whether it is the destination.
fn node_ways_in_form(draft: &mut Draft, home: bool, ways: &[u32]) -> Result<(), AllocError>
    ensures { OnOk result ((s : State) (x : ℕ) → AreNodeWays s x ways.now → home ≡ (x == s.dest)
        → IsTextIn draft.old.form None (ask_node Ways x) s (string_bytes draft.new.text)) }
{
    match draft.form {
        Form::Text => node_ways_line(&mut draft.text, home, ways),
        _ => node_ways_object(&mut draft.text, home, ways),
    }
}

/// Writes the answer for this nearest route from node `x`.
fn nearest_in_form(draft: &mut Draft, x: u32, walked: &Walked) -> Result<(), AllocError>
    ensures { OnOk result ((s : State) → IsNearest s x walked.now
        → IsTextIn draft.old.form None (ask_node Nearest x) s (string_bytes draft.new.text)) }
{
    let line = &mut draft.text;
    match (draft.form, walked) {
        (Form::Text, Walked::Route(nodes)) => nearest_line(line, nodes),
        (Form::Text, Walked::CutOff) => no_nearest_line(line, x),
        (_, Walked::Route(nodes)) => nearest_object(line, nodes),
        (_, Walked::CutOff) => no_nearest_object(line),
    }
}
