//! The answers to requests for the pushes between two tables of hops.

ghost use Rattle.std.specs.Prelude.{◌≡◌, ℕ, ◌<◌, ◌++◌, ◌∷◌, [], List, Option, None, Some};
ghost use Rattle.std.specs.Prelude.{IfErr, IfOk, OnOk, length, slice_index, string_bytes};
ghost use Rattle.fr_requests.specs.Requests.{order_pushes};
ghost use Rattle.fr_route.specs.Pushing.{IsTablesFault, changes_of};
ghost use Rattle.fr_route.specs.Replies.{answer_form, IsFromReply, IsStillReply, RefusesBy, pushes_in, written};
ghost use Rattle.fr_route.specs.States.{State};
ghost use Rattle.fr_route.specs.declared.fault.AnswerFault.TheVariants.{Memory};
ghost use Rattle.fr_tables.specs.Faults.{IsFaultOf};

use crate::fault::AnswerFault;
use crate::form::{Draft, Form};
use crate::hops::resized_hops;
use crate::json::pushes_object;
use crate::refusals::Reason;
use crate::refusing::refuse;
use crate::texts::pushes_line;
use fr_graph::MAX_NODES;
use fr_tables::{Hop, TableFault, push_order};
use std::alloc::{AllocError, Global};

/// Writes the answer to a request for the pushes from one table to another. A node that is missing at the end of a table is
/// cut off.
pub(crate) fn pushes_between(
    alloc: Global,
    draft: &mut Draft,
    table: &[Hop],
    wanted: &[Hop],
) -> Result<bool, AnswerFault>
    ensures reply { IfOk result (λ refused. (s : Option State)
        → IsStillReply (answer_form draft.old) s (order_pushes table.now (Some wanted.now)) (written draft.new refused)) }
    ensures memory { IfErr result (λ fault. fault ≡ Memory) }
{
    let nodes = table.len().max(wanted.len());
    if nodes > MAX_NODES as usize {
        return refuse(draft, Reason::TooMany, &[], None);
    }
    let hops = resized_hops(alloc, wanted, nodes as u32)?;
    pushes_from(alloc, draft, table, &hops)
}

/// Writes the answer to a request for the pushes from a table to these hops.
pub(crate) fn pushes_from(
    alloc: Global,
    draft: &mut Draft,
    table: &[Hop],
    hops: &[Hop],
) -> Result<bool, AnswerFault>
    ensures reply { IfOk result
        (λ refused. IsFromReply (answer_form draft.old) table.now hops.now (written draft.new refused)) }
    ensures memory { IfErr result (λ fault. fault ≡ Memory) }
{
    if table.len().max(hops.len()) > MAX_NODES as usize {
        return refuse(draft, Reason::TooMany, &[], None);
    }
    let nodes = hops.len() as u32;
    if table.len() > hops.len() {
        return refuse(draft, Reason::NoNode, &[nodes], None);
    }
    let old = resized_hops(alloc, table, nodes)?;
    match push_order(alloc, &old, hops) {
        Ok(order) => {
            write_pushes(draft, &order, hops)?;
            Ok(false)
        }
        Err(fault) => refuse_tables(draft, fault, &old, hops),
    }
}

/// Writes the pushes of these nodes, each with its hop in this table.
fn write_pushes(draft: &mut Draft, nodes: &[u32], hops: &[Hop]) -> Result<(), AllocError>
    ensures { OnOk result
        (string_bytes draft.new.text ≡ pushes_in draft.old.form (changes_of hops.now nodes.now)) }
{
    match draft.form {
        Form::Text => pushes_line(&mut draft.text, nodes, hops),
        _ => pushes_object(&mut draft.text, nodes, hops),
    }
}

/// Writes the answer that refuses these tables. They have one length, so `Length` is not the fault.
fn refuse_tables(
    draft: &mut Draft,
    fault: TableFault,
    _old: &[Hop],
    _new: &[Hop],
) -> Result<bool, AnswerFault>
    requires { IsFaultOf _old.now _new.now fault }
    ensures refuses { IfOk result (λ refused. (number : ℕ) × (nodes : List ℕ)
        × IsTablesFault _old.now _new.now number nodes × RefusesBy (answer_form draft.old)
        (record { number = number; nodes = nodes; edit = None }) (written draft.new refused)) }
    ensures memory { IfErr result (λ why. why ≡ Memory) }
{
    match fault {
        TableFault::Range(x) => refuse(draft, Reason::NoNode, &[x], None),
        TableFault::Loop(nodes) => {
            let nodes = closed_loop(nodes)?;
            refuse(draft, Reason::Cycle, &nodes, None)
        }
        TableFault::Length | TableFault::Memory => Err(AnswerFault::Memory),
    }
}

/// A loop with its first node again at its end, as all cycles are named.
fn closed_loop(mut nodes: Vec<u32>) -> Result<Vec<u32>, AllocError>
    requires { 0 < length nodes.items }
    ensures { IfOk result (λ named. named.items ≡ nodes.items ++ slice_index nodes.items 0 ∷ []) }
{
    let first = nodes[0];
    nodes.push(first)?;
    Ok(nodes)
}
