//! The story of an input: the answer to each line, why a request was refused, and each round turn by turn, with what it
//! changed and the nodes that get new hops.

ghost use Rattle.std.specs.Prelude.{◌≡◌, ◌++◌, ℕ, IfOk, List, [], None, Ok, OnOk, codes, string_bytes};
ghost use Rattle.fr_requests.specs.Requests.{plain, reading};
ghost use Rattle.fr_route.specs.Json.{EndsHere, IsJsonLineAnswer};
ghost use Rattle.fr_route.specs.Refusals.{number_of};
ghost use Rattle.fr_route.specs.Texts.{refusal_text};
ghost use Rattle.revdot.specs.Stories.{IsAnsweredBlock, IsBlock, IsMark, IsRequestBlock, IsStep, IsStory, answer_text};
ghost use Rattle.revdot.specs.Stories.{refusal_line};
ghost use Rattle.revdot.specs.Stories.{makes_round as makes_round_of};
ghost use Rattle.revdot.specs.Stories.{AreWaysBefore, is_marked as is_marked_at, net_before as net_before_of};

use crate::asked::push_asked;
use crate::comments::{is_comment, push_comment};
use crate::rounds::{is_told, push_round, push_settled_lines};
use fr_bytes::Lines;
use fr_graph::Net;
use fr_requests::{LineFault, Request, read_line};
use fr_route::{AnswerSpace, Form, Line, Reason, Session, is_blank};
use fr_ways::WayTable;
use std::alloc::{AllocError, Global};
use std::fmt::Write;

/// The story has the whole state after each line whose number is a multiple of this.
const LINES_BETWEEN_STATES: u64 = 256;

/// Appends the story of an input. It starts no thread.
pub fn push_story(story: &mut String, alloc: Global, input: &[u8]) -> Result<(), AllocError>
    ensures { OnOk result ((told : List ℕ) × IsStory input.now told
        × (string_bytes story.new ≡ string_bytes story.old ++ told)) }
{
    let mut session = Session::new();
    let mut number = 0u64;
    for line in Lines::new(input) {
        number += 1;
        push_step(story, alloc, &mut session, number, line)?;
    }
    Ok(())
}

/// Appends the story of a line, and after some lines the whole state.
fn push_step(
    story: &mut String,
    alloc: Global,
    session: &mut Session,
    number: u64,
    line: &[u8],
) -> Result<(), AllocError>
    ensures { OnOk result ((step : List ℕ) × IsStep session.old number line.now session.new step
        × (string_bytes story.new ≡ string_bytes story.old ++ step)) }
{
    push_line(story, alloc, session, number, line)?;
    push_mark(story, alloc, session, number)
}

/// Appends the whole state if it follows the line with this number.
fn push_mark(
    story: &mut String,
    alloc: Global,
    session: &Session,
    number: u64,
) -> Result<(), AllocError>
    ensures { OnOk result ((mark : List ℕ) × IsMark number session.now mark
        × (string_bytes story.new ≡ string_bytes story.old ++ mark)) }
{
    if !is_marked(session, number) {
        return Ok(());
    }
    story.push_str("state\n")?;
    push_settled_lines(story, alloc, session)
}

/// Whether the whole state follows the line with this number.
fn is_marked(session: &Session, number: u64) -> bool
    ensures { result ≡ is_marked_at number session.now }
{
    match session.router() {
        Some(router) => number % LINES_BETWEEN_STATES == 0 && is_told(router),
        None => false,
    }
}

/// Appends the story of a line. A comment has no answer.
fn push_line(
    story: &mut String,
    alloc: Global,
    session: &mut Session,
    number: u64,
    line: &[u8],
) -> Result<(), AllocError>
    ensures { OnOk result ((block : List ℕ) × IsBlock session.old number line.now block session.new
        × (string_bytes story.new ≡ string_bytes story.old ++ block)) }
{
    if is_comment(line) {
        return push_comment(story, line);
    }
    push_request_line(story, alloc, session, number, line)
}

/// Appends the story of a line that is not a comment: nothing if the line is blank.
fn push_request_line(
    story: &mut String,
    alloc: Global,
    session: &mut Session,
    number: u64,
    line: &[u8],
) -> Result<(), AllocError>
    ensures { OnOk result ((block : List ℕ) × IsRequestBlock session.old number line.now block session.new
        × (string_bytes story.new ≡ string_bytes story.old ++ block)) }
{
    if is_blank(line) {
        return Ok(());
    }
    match read_line(alloc, line) {
        Ok(request) => {
            let line = Line {
                number,
                bytes: line,
            };
            push_answered_line(story, alloc, session, line, &request)
        }
        Err(LineFault::NotJson) => push_unreadable_line(story, number, Reason::NotJson),
        Err(LineFault::NotRequest) => push_unreadable_line(story, number, Reason::NotRequest),
        Err(LineFault::Memory) => Err(AllocError),
    }
}

/// Appends the number of a line that is not a request, and its answer.
fn push_unreadable_line(story: &mut String, number: u64, refusal: Reason) -> Result<(), AllocError>
    ensures { OnOk result (string_bytes story.new
        ≡ string_bytes story.old ++ answer_text number (refusal_text (number_of refusal))) }
{
    writeln!(story, "line {number}\nrefused {}", refusal.number())
}

/// Appends the number of a line, the answer to its request, what it asks, and why it was refused or the round that it
/// began.
fn push_answered_line(
    story: &mut String,
    alloc: Global,
    session: &mut Session,
    line: Line<'_>,
    request: &Request,
) -> Result<(), AllocError>
    requires { reading line.bytes.now ≡ Ok (plain request.now) }
    ensures { OnOk result ((block : List ℕ)
        × IsAnsweredBlock session.old line.entry.number (Ok (plain request.now)) block session.new
        × (string_bytes story.new ≡ string_bytes story.old ++ block)) }
{
    let before = net_before(alloc, session, request)?;
    let mut rerouted = Vec::new(alloc);
    let Ok(answer) = session.answer_telling_alone(alloc, request, &mut rerouted) else {
        return Err(AllocError);
    };
    let number = line.number;
    writeln!(story, "line {number}\n{answer}")?;
    push_asked(story, request)?;
    if answer.starts_with("refused") {
        push_refusal(story, alloc, session, line)
    } else if makes_round(request) {
        push_round(story, alloc, &before, session, &rerouted)
    } else {
        Ok(())
    }
}

/// Appends the answer in JSON to a line that the session refuses. It names the nodes that show the fault.
fn push_refusal(
    story: &mut String,
    alloc: Global,
    session: &mut Session,
    line: Line<'_>,
) -> Result<(), AllocError>
    ensures { OnOk result ((refusal : List ℕ) × IsJsonLineAnswer EndsHere line.entry.number session.old
        (reading line.entry.bytes.now) refusal session.new
        × (string_bytes story.new ≡ string_bytes story.old ++ refusal_line refusal)) }
{
    let mut space = AnswerSpace::new(alloc);
    // A blank line has no answer, and never comes here.
    let Ok(Some(refusal)) = session.answer_line_in_alone(alloc, Form::Json, line, &mut space) else {
        return Err(AllocError);
    };
    writeln!(story, "refusal {}", refusal.text)
}

/// Whether a request begins a round if it is accepted: it is a network or a change.
fn makes_round(request: &Request) -> bool
    ensures { result ≡ makes_round_of (plain request.now) }
{
    !matches!(
        request,
        Request::Walk { .. }
            | Request::Ask(_)
            | Request::AskNode { .. }
            | Request::Pushes { .. }
            | Request::Phases { .. }
    )
}

/// What a request may change.
pub struct Before {
    /// The network, if rounds on it are told. A new network changes none.
    pub net: Option<Net>,
    /// The ways of this network, or no table.
    pub ways: WayTable,
}

// A call, so that each return of a function that owns this has little to prove.
impl Drop for Before {
    fn drop(self) {
        let Before { net, ways } = self;
        drop(net);
        drop(ways);
    }
}

/// The network that a request changes if it is accepted, and if it is told.
fn net_before(alloc: Global, session: &Session, request: &Request) -> Result<Before, AllocError>
    ensures net { IfOk result (λ before. before.net ≡ net_before_of session.now (plain request.now)) }
    ensures ways { IfOk result
        (λ before. AreWaysBefore session.now (net_before_of session.now (plain request.now)) before.ways) }
{
    let Some(router) = session.router() else {
        return no_network_before(alloc);
    };
    if matches!(
        request,
        Request::Network { .. }
            | Request::Walk { .. }
            | Request::Ask(_)
            | Request::AskNode { .. }
            | Request::Pushes { .. }
            | Request::Phases { .. }
    ) || !is_told(router)
    {
        return no_network_before(alloc);
    }
    let ways = router.all_ways(alloc)?;
    let net = Some(router.net().copied(alloc)?);
    Ok(Before { net, ways })
}

/// What a request may change that changes no network whose rounds are told.
fn no_network_before(alloc: Global) -> Result<Before, AllocError>
    ensures net { IfOk result (λ before. before.net ≡ None) }
    ensures ways { IfOk result (λ before. before.ways ≡ []) }
{
    Ok(Before {
        net: None,
        ways: WayTable::with_capacity(alloc, 0, 0)?,
    })
}
