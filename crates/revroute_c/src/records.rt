//! The structs of C: links, edits, the report of a round, refusals.

ghost use Rattle.std.specs.Prelude.{◌≡◌, map, position, IfOk};
ghost use Rattle.revroute_c.specs.Records.{edit_of, is_unknown, link_of};

use fr_graph::Edit;
use fr_route::Report;
use std::alloc::{AllocError, Global};

/// A link.
#[repr(C)]
#[derive(Clone, Copy)]
pub struct Link {
    /// The node from which it points.
    pub tail: u32,
    /// The node to which it points.
    pub head: u32,
}

/// An edit of the link between two nodes.
#[repr(C)]
#[derive(Clone, Copy)]
pub struct LinkEdit {
    /// What it does: one of [`CUT`], [`ADD`] and [`JOIN`].
    pub kind: u32,
    /// One node.
    pub u: u32,
    /// The other node.
    pub v: u32,
}

/// The report of a round.
#[repr(C)]
#[derive(Clone, Copy)]
pub struct Round {
    /// How many turns it took.
    pub turned: u64,
    /// How many nodes are cut off.
    pub cut_off: u64,
}

/// Why a call is refused, with the evidence.
#[repr(C)]
#[derive(Clone, Copy)]
pub struct Refusal {
    /// The number that lines use for the reason.
    pub number: u32,
    /// One node of the evidence.
    pub u: u32,
    /// The other node, or the same one.
    pub v: u32,
    /// The place of the refused edit, counted from 0.
    pub at: usize,
}

/// The link is removed, whichever way it points.
const CUT: u32 = 0;

/// The link from `u` to `v` is added.
const ADD: u32 = 1;

/// The nodes are joined by a link, in a direction that closes no cycle.
const JOIN: u32 = 2;

/// The links as pairs of tail and head.
pub(crate) fn pairs_of(alloc: Global, links: &[Link]) -> Result<Vec<(u32, u32)>, AllocError>
    ensures { IfOk result (λ pairs. pairs.items ≡ map link_of links.now) }
{
    let mut pairs = Vec::with_capacity(alloc, links.len())?;
    for link in links {
        pairs.push((link.tail, link.head))?;
    }
    Ok(pairs)
}

/// The place of the first edit with an unknown kind, if there is one.
pub(crate) fn first_unknown(edits: &[LinkEdit]) -> Option<usize>
    ensures { result ≡ position is_unknown edits.now }
{
    edits.iter().position(|edit| edit.kind > JOIN)
}

/// The refusal of an edit of an unknown kind at this place.
pub(crate) fn unknown_at(at: usize) -> Refusal
    ensures { result ≡ record { number = 2; u = 0; v = 0; at = at } }
{
    Refusal {
        number: fr_route::Reason::NotRequest.number(),
        u: 0,
        v: 0,
        at,
    }
}

/// The edits of a network. Each kind must be known.
pub(crate) fn edits_of(alloc: Global, edits: &[LinkEdit]) -> Result<Vec<Edit>, AllocError>
    ensures { IfOk result (λ made. made.items ≡ map edit_of edits.now) }
{
    let mut made = Vec::with_capacity(alloc, edits.len())?;
    for edit in edits {
        made.push(network_edit(*edit))?;
    }
    Ok(made)
}

/// The edit of a network. A kind that is not `CUT` or `ADD` counts as `JOIN`.
fn network_edit(edit: LinkEdit) -> Edit
    ensures { result ≡ edit_of edit }
{
    let LinkEdit { kind, u, v } = edit;
    match kind {
        CUT => Edit::Cut { u, v },
        ADD => Edit::Add { u, v },
        _ => Edit::Join { u, v },
    }
}

/// The report of a round, for C.
pub(crate) fn round_of(report: Report) -> Round
    ensures turned { result.turned ≡ report.turned }
    ensures cut_off { result.cut_off ≡ report.cut }
{
    Round {
        turned: report.turned,
        cut_off: report.cut,
    }
}
