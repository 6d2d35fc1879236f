//! The part of a story about a round: its turns, its result, and the nodes that get new hops.

ghost use Rattle.std.specs.Prelude.{◌≡◌, ◌++◌, ℕ, List, Some, true, IfOk, OnOk, string_bytes};
ghost use Rattle.revdot.specs.Replays.{IsReplay, moment_of};
ghost use Rattle.revdot.specs.Strips.{AreAllTurns, beginning};
ghost use Rattle.fr_route.specs.Texts.{spaced};
ghost use Rattle.revdot.specs.Stories.{IsRoundStory, IsResult, AreListed, AreSettledLines, IsAnswerLine, turns_line};
ghost use Rattle.revdot.specs.Stories.{is_told as is_told_of, most_told_turns, net_text};

use crate::changes::{follow_law, push_changes, push_listed, push_pushes};
use crate::story::Before;
use crate::turns::Replay;
use fr_requests::Question;
use fr_route::{Router, Session};
use fr_ways::WayTable;
use std::alloc::{AllocError, Global};
use std::fmt::Write;

/// The greatest number of nodes of a network whose rounds are told.
const MOST_NODES: u32 = 256;

/// The greatest number of turns of a round that are told.
const MOST_TURNS: u64 = 4_096;

/// Appends the story of the last round of a session. The round changed the network `before`, or began a new network,
/// and gave the nodes of `rerouted` new hops.
pub fn push_round(
    story: &mut String,
    alloc: Global,
    before: &Before,
    session: &Session,
    rerouted: &[u32],
) -> Result<(), AllocError>
    ensures { OnOk result ((told : List ℕ)
        × IsRoundStory true before.now.net before.now.ways session.now rerouted.now told
        × (string_bytes story.new ≡ string_bytes story.old ++ told)) }
{
    let Some(router) = session.router() else {
        return Ok(());
    };
    push_net(story, router.net().nodes(), router.dest())?;
    if !is_told(router) {
        return story.push_str("omitted\n");
    }
    push_turns(story, alloc, router)?;
    push_result(story, alloc, before, session, router)?;
    push_pushes(story, router.hops(), rerouted)
}

/// Appends the number of nodes and the destination.
fn push_net(story: &mut String, nodes: u32, dest: u32) -> Result<(), AllocError>
    ensures { OnOk result (string_bytes story.new ≡ string_bytes story.old ++ net_text nodes dest) }
{
    writeln!(story, "net {nodes} {dest}")
}

/// Whether rounds of this router's network are told.
pub fn is_told(router: &Router) -> bool
    ensures { result ≡ is_told_of router.now }
{
    router.net().nodes() <= MOST_NODES
}

/// Appends the first turns of a round, all if they are few.
fn push_turns(story: &mut String, alloc: Global, router: &Router) -> Result<(), AllocError>
    ensures { OnOk result ((turns : List ℕ)
        × AreAllTurns most_told_turns router.now.nodes router.now.dest (beginning router.now) turns
        × (string_bytes story.new ≡ string_bytes story.old ++ turns_line turns)) }
{
    let replay = Replay::begin(alloc, router)?;
    let turns = turns_of(alloc, router, replay)?;
    story.push_str("turns")?;
    push_nodes(story, &turns)?;
    story.push_str("\n")
}

/// Appends what a round changed in the network `before`, or the whole state of a new network.
fn push_result(
    story: &mut String,
    alloc: Global,
    before: &Before,
    session: &Session,
    router: &Router,
) -> Result<(), AllocError>
    requires { session.now ≡ Some router.now }
    ensures { OnOk result ((left : List ℕ) × IsResult before.now.net before.now.ways router.now left
        × (string_bytes story.new ≡ string_bytes story.old ++ left)) }
{
    match &before.net {
        Some(net) => {
            let after = router.net();
            follow_law(net, after);
            push_changes(story, alloc, net, after, router.counts())?;
            push_changed_ways(story, alloc, &before.ways, router)
        }
        None => push_settled_lines(story, alloc, session),
    }
}

/// Appends the nodes whose ways a round changed. Before it they were `old`.
fn push_changed_ways(
    story: &mut String,
    alloc: Global,
    old: &WayTable,
    router: &Router,
) -> Result<(), AllocError>
    ensures { OnOk result ((listed : List ℕ) × AreListed old.now router.now listed
        × (string_bytes story.new ≡ string_bytes story.old ++ listed)) }
{
    let new = router.all_ways(alloc)?;
    push_listed(story, router.net().nodes(), old, &new)
}

fn push_nodes(story: &mut String, nodes: &[u32]) -> Result<(), AllocError>
    ensures { OnOk result (string_bytes story.new ≡ string_bytes story.old ++ spaced nodes.now) }
{
    for node in nodes {
        write!(story, " {}", *node)?;
    }
    Ok(())
}

/// The nodes that turn in a round, one after the other, up to the limit.
fn turns_of(alloc: Global, router: &Router, mut replay: Replay) -> Result<Vec<u32>, AllocError>
    requires replay { IsReplay router.now replay }
    requires first { moment_of replay ≡ beginning router.now }
    ensures { IfOk result
        (λ turns. AreAllTurns most_told_turns router.now.nodes router.now.dest (beginning router.now) turns.items) }
{
    let mut turns = Vec::new(alloc);
    for turn in 0..MOST_TURNS {
        let Some(x) = replay.next_to_turn(alloc, router)? else {
            return Ok(turns);
        };
        turns.push(x)?;
        replay.turn(x);
    }
    Ok(turns)
}

/// Appends a whole state: the links, the counts, the hops and the ways, as a session answers them.
pub fn push_settled_lines(
    story: &mut String,
    alloc: Global,
    session: &Session,
) -> Result<(), AllocError>
    ensures { OnOk result ((told : List ℕ) × AreSettledLines session.now told
        × (string_bytes story.new ≡ string_bytes story.old ++ told)) }
{
    push_answer_to(story, alloc, session, Question::Links)?;
    push_answer_to(story, alloc, session, Question::Counts)?;
    push_answer_to(story, alloc, session, Question::Hops)?;
    push_answer_to(story, alloc, session, Question::Ways)
}

/// Appends the answer of a session to a question.
fn push_answer_to(
    story: &mut String,
    alloc: Global,
    session: &Session,
    question: Question,
) -> Result<(), AllocError>
    ensures { OnOk result ((answer : List ℕ) × IsAnswerLine session.now question answer
        × (string_bytes story.new ≡ string_bytes story.old ++ answer)) }
{
    let Ok(answer) = session.answer_question(alloc, question) else {
        return Err(AllocError);
    };
    writeln!(story, "{answer}")
}
