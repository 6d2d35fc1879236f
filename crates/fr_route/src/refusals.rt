//! Why a line is refused, and the number of the refusal in its answer.

ghost use Rattle.std.specs.Prelude.{◌≡◌, IfNone, IfSome};
ghost use Rattle.fr_route.specs.Json.{fault_name};
ghost use Rattle.fr_route.specs.Answers.{fault_number as fault_number_of};
ghost use Rattle.fr_route.specs.Refusals.{number_of};
ghost use Rattle.fr_route.specs.Texts.{refusal_text};

use fr_graph::NetFault;

/// Why a line is refused. The answer contains the number of the refusal, from 1 to 9.
#[derive(Clone, Copy, Debug, Drop, PartialEq, Eq)]
pub enum Reason {
    /// The line is not JSON.
    NotJson,
    /// The line is JSON, but not a request.
    NotRequest,
    /// There is no network yet.
    NoNetwork,
    /// A number that has to be that of a node is not, or there are no nodes.
    NoNode,
    /// A link would join a node with itself.
    SelfLink,
    /// Two links would join the same nodes.
    Twice,
    /// The links would contain a cycle.
    Cycle,
    /// No link joins the two nodes.
    NoLink,
    /// There would be too many nodes or links, or there are too many edits.
    TooMany,
}

impl Reason {
    /// The refusal for a fault of links or of an edit. `None` for `Memory`. O(1).
    pub fn of(fault: &NetFault) -> Option<Reason>
        ensures number { IfSome result (λ refusal. fault_number_of fault.now ≡ number_of refusal) }
        ensures none { IfNone result (fault_number_of fault.now ≡ 0) }
    {
        match fault {
            NetFault::TooMany => Some(Reason::TooMany),
            NetFault::Range(_) => Some(Reason::NoNode),
            NetFault::SelfLink(_) => Some(Reason::SelfLink),
            NetFault::Twice(_, _) => Some(Reason::Twice),
            NetFault::Cycle(_) => Some(Reason::Cycle),
            NetFault::NoLink => Some(Reason::NoLink),
            NetFault::Memory => None,
        }
    }

    /// The number of the refusal in an answer. O(1).
    pub fn number(self) -> u32
        ensures { result ≡ number_of self }
    {
        match self {
            Reason::NotJson => 1,
            Reason::NotRequest => 2,
            Reason::NoNetwork => 3,
            Reason::NoNode => 4,
            Reason::SelfLink => 5,
            Reason::Twice => 6,
            Reason::Cycle => 7,
            Reason::NoLink => 8,
            Reason::TooMany => 9,
        }
    }

    /// The answer as text to a line that is refused for this reason. These are constants because they are the answers
    /// to most short lines.
    pub(crate) fn answer(self) -> &'static str
        ensures { result.now ≡ refusal_text (number_of self) }
    {
        match self {
            Reason::NotJson => "refused 1",
            Reason::NotRequest => "refused 2",
            Reason::NoNetwork => "refused 3",
            Reason::NoNode => "refused 4",
            Reason::SelfLink => "refused 5",
            Reason::Twice => "refused 6",
            Reason::Cycle => "refused 7",
            Reason::NoLink => "refused 8",
            Reason::TooMany => "refused 9",
        }
    }

    /// The name of the fault in an answer in JSON. O(1).
    pub fn name(self) -> &'static str
        ensures { result.now ≡ fault_name (number_of self) }
    {
        match self {
            Reason::NotJson => "not JSON",
            Reason::NotRequest => "not a request",
            Reason::NoNetwork => "no network",
            Reason::NoNode => "no such node",
            Reason::SelfLink => "self link",
            Reason::Twice => "linked twice",
            Reason::Cycle => "cycle",
            Reason::NoLink => "no such link",
            Reason::TooMany => "too many",
        }
    }
}

/// Why a line is refused, with the nodes that show it, and the place of the refused edit in a batch.
#[derive(Clone, Copy)]
pub(crate) struct Refusal<'a> {
    pub(crate) reason: Reason,
    pub(crate) nodes: &'a [u32],
    pub(crate) edit: Option<usize>,
}

/// The number in an answer for a fault of links or of an edit, from 4 to 9. For `Memory`, which is not a refusal, it is
/// 0. O(1).
pub fn fault_number(fault: &NetFault) -> u32
    ensures { result ≡ fault_number_of fault.now }
{
    match Reason::of(fault) {
        Some(refusal) => refusal.number(),
        None => 0,
    }
}
