//! The answers that refuse a line.

ghost use Rattle.std.specs.Prelude.{◌≡◌, ◌≢◌, ◌↔◌, IfErr, IfOk};
ghost use Rattle.fr_route.specs.Json.{PlainRefusal, refusal_for};
ghost use Rattle.fr_route.specs.Replies.{answer_form, RefusesBy, written};
ghost use Rattle.fr_route.specs.Refusals.{IsRefusalOf, number_of};
ghost use Rattle.fr_graph.specs.declared.fault.NetFault.TheVariants.{Memory as NetMemory};
ghost use Rattle.fr_route.specs.declared.fault.AnswerFault.TheVariants.{Memory, Start};
ghost use Rattle.fr_route.specs.declared.fault.RouteFault.TheVariants.{Start as RouteStart};

use crate::fault::{AnswerFault, RouteFault};
use crate::form::{Draft, Form};
use crate::json::refusal_object;
use crate::refusals::{Reason, Refusal};
use crate::texts::refusal_line;
use fr_graph::NetFault;

/// Writes the answer that refuses a line for this reason, and returns that it is refused. These nodes show it. `edit` is
/// the place of the refused edit of a batch.
pub(crate) fn refuse(
    draft: &mut Draft,
    reason: Reason,
    nodes: &[u32],
    edit: Option<usize>,
) -> Result<bool, AnswerFault>
    ensures refuses { IfOk result (λ refused. RefusesBy (answer_form draft.old)
        (record { number = number_of reason; nodes = nodes.now; edit = edit }) (written draft.new refused)) }
    ensures memory { IfErr result (λ fault. fault ≡ Memory) }
{
    let refusal = Refusal {
        reason,
        nodes,
        edit,
    };
    match draft.form {
        Form::Text => refusal_line(&mut draft.text, reason)?,
        _ => refusal_object(&mut draft.text, &refusal, draft.number)?,
    }
    Ok(true)
}

/// Writes the answer that refuses a line for the fault with which a request fails, and returns that it is refused.
/// `named` are nodes of the request: the two that no link joins, or the one that is not a node. A fault that is not a
/// refusal is returned.
fn refuse_fault(
    draft: &mut Draft,
    fault: &RouteFault,
    named: &[u32],
    edit: Option<usize>,
) -> Result<bool, AnswerFault>
    ensures refuses { IfOk result (λ refused. (refusal : PlainRefusal) × IsRefusalOf fault.now named.now edit refusal
        × RefusesBy (answer_form draft.old) refusal (written draft.new refused)) }
    ensures start { IfErr result (λ why. (why ≡ Start) ↔ (fault.now ≡ RouteStart)) }
{
    match fault {
        RouteFault::Net(fault) => refuse_net_fault(draft, fault, named, edit),
        RouteFault::Range => refuse(draft, Reason::NoNode, named, edit),
        RouteFault::Start => Err(AnswerFault::Start),
        RouteFault::Memory => Err(AnswerFault::Memory),
    }
}

/// Refuses a line as [`refuse_fault`] does, and drops the fault.
pub(crate) fn refuse_for(
    draft: &mut Draft,
    fault: RouteFault,
    named: &[u32],
    edit: Option<usize>,
) -> Result<bool, AnswerFault>
    ensures refuses { IfOk result (λ refused. (refusal : PlainRefusal) × IsRefusalOf fault named.now edit refusal
        × RefusesBy (answer_form draft.old) refusal (written draft.new refused)) }
    ensures start { IfErr result (λ why. (why ≡ Start) ↔ (fault ≡ RouteStart)) }
{
    refuse_fault(draft, &fault, named, edit)
}

/// Refuses a line as [`refuse_fault`] does, for a fault of links or of an edit.
fn refuse_net_fault(
    draft: &mut Draft,
    fault: &NetFault,
    named: &[u32],
    edit: Option<usize>,
) -> Result<bool, AnswerFault>
    ensures refuses { IfOk result (λ refused.
        RefusesBy (answer_form draft.old) (refusal_for fault.now named.now edit) (written draft.new refused)) }
    ensures refused { IfOk result (λ _. fault.now ≢ NetMemory) }
    ensures memory { IfErr result (λ why. why ≡ Memory) }
{
    match fault {
        NetFault::TooMany => refuse(draft, Reason::TooMany, &[], edit),
        NetFault::Range(x) => refuse(draft, Reason::NoNode, &[*x], edit),
        NetFault::SelfLink(u) => refuse(draft, Reason::SelfLink, &[*u], edit),
        NetFault::Twice(u, v) => refuse(draft, Reason::Twice, &[*u, *v], edit),
        NetFault::Cycle(walk) => refuse(draft, Reason::Cycle, walk, edit),
        NetFault::NoLink => refuse(draft, Reason::NoLink, named, edit),
        NetFault::Memory => Err(AnswerFault::Memory),
    }
}
