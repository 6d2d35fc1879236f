//! A graph for each turn of the last round.

ghost use Rattle.std.specs.Prelude.{◌≡◌, ◌++◌, ◌<◌, ◌≤◌, ℕ, List, length, map, IfOk, OnOk, string_bytes};
ghost use Rattle.std.specs.List.{range_with_len, zip};
ghost use Rattle.revdot.specs.Replays.{IsReplay, moment_of};
ghost use Rattle.revdot.specs.Strips.{IsStripOf, AreAllTurns, most_turns, beginning, last_label, turn_style};
ghost use Rattle.revdot.specs.Strips.{turn_node as turn_node_of, turn_link, turn_text, turns_text};

use crate::graphs::{
    Direction, DrawnLink, DrawnNode, Label, LinkStyle, NodeStyle, Title, push_graph,
};
use crate::settled::push_settled;
use crate::turns::Replay;
use fr_route::Router;
use std::alloc::{AllocError, Global};

/// The greatest number of turns that are drawn.
const MAX_TURNS: u32 = 1_000;

/// Appends a graph for each turn of the last round, and then one of the settled network. The text below that says how
/// many turns are left out.
pub fn push_strip(
    text: &mut String,
    alloc: Global,
    router: &Router,
    direction: Direction,
) -> Result<(), AllocError>
    ensures { OnOk result ((strip : List ℕ) × IsStripOf direction router.now strip
        × (string_bytes text.new ≡ string_bytes text.old ++ strip)) }
{
    push_turns(text, alloc, router, direction)?;
    let turned = router.report().turned;
    let label = label_at_end(turned.saturating_sub(MAX_TURNS as u64));
    push_settled(text, alloc, router, direction, label)
}

/// The text below the last graph, where so many turns have no graph.
fn label_at_end(turns: u64) -> Label
    ensures { result ≡ last_label turns }
{
    if turns == 0 {
        Label::Plain
    } else {
        Label::LeftOut(turns)
    }
}

/// Appends a graph for each turn of the last round.
fn push_turns(
    text: &mut String,
    alloc: Global,
    router: &Router,
    direction: Direction,
) -> Result<(), AllocError>
    ensures { OnOk result ((turns : List ℕ)
        × AreAllTurns most_turns router.now.nodes router.now.dest (beginning router.now) turns
        × (string_bytes text.new
        ≡ string_bytes text.old ++ turns_text direction router.now (beginning router.now) 1 turns)) }
{
    let mut replay = Replay::begin(alloc, router)?;
    for turn in 0..MAX_TURNS {
        let Some(node) = replay.next_to_turn(alloc, router)? else {
            return Ok(());
        };
        let title = Title {
            turn: turn + 1,
            node,
        };
        push_turn(text, alloc, router, direction, &replay, title)?;
        replay.turn(node);
    }
    Ok(())
}

/// Appends the graph of the next turn of a round.
fn push_turn(
    text: &mut String,
    alloc: Global,
    router: &Router,
    direction: Direction,
    replay: &Replay,
    title: Title,
) -> Result<(), AllocError>
    requires { IsReplay router.now replay.now }
    ensures { OnOk result
        (string_bytes text.new
        ≡ string_bytes text.old ++ turn_text direction router.now (moment_of replay.now) title.turn title.node) }
{
    let x = title.node;
    let nodes = turn_nodes(
        alloc,
        router.net().nodes(),
        router.dest(),
        &replay.counts,
        x,
    )?;
    let links = turn_links(alloc, &replay.settled, &replay.links, x)?;
    push_graph(
        text,
        direction,
        Label::Turn(title),
        router.dest(),
        &nodes,
        &links,
    )
}

/// The nodes at the turn of `x`.
fn turn_nodes(
    alloc: Global,
    nodes: u32,
    dest: u32,
    counts: &[u64],
    x: u32,
) -> Result<Vec<DrawnNode>, AllocError>
    requires { length counts.now ≡ nodes }
    ensures { IfOk result (λ drawn. drawn.items ≡ map (turn_node_of dest counts.now x) (range_with_len 0 nodes)) }
{
    let mut drawn = Vec::new(alloc);
    for y in 0..nodes {
        drawn.push(DrawnNode {
            node: y,
            count: counts[y as usize],
            style: style_at_turn(y, dest, x),
        })?;
    }
    Ok(drawn)
}

/// How node `y` is drawn at the turn of `x`.
fn style_at_turn(y: u32, dest: u32, x: u32) -> NodeStyle
    ensures { result ≡ turn_style dest x y }
{
    if y == dest {
        NodeStyle::Destination
    } else if y == x {
        NodeStyle::Turning
    } else {
        NodeStyle::Plain
    }
}

/// The links at the turn of `x`. They are placed as the settled links, and have their directions before the turn.
fn turn_links(
    alloc: Global,
    settled: &[(u32, u32)],
    links: &[(u32, u32)],
    x: u32,
) -> Result<Vec<DrawnLink>, AllocError>
    ensures { IfOk result (λ drawn. drawn.items ≡ map (turn_link x) (zip settled.now links.now)) }
{
    let mut drawn = Vec::new(alloc);
    for (stands, points) in settled.iter().zip(links.iter()) {
        drawn.push(link_at_turn(*stands, *points, x))?;
    }
    Ok(drawn)
}

fn link_at_turn(stands: (u32, u32), points: (u32, u32), x: u32) -> DrawnLink
    ensures { result ≡ turn_link x (stands, points) }
{
    let style = if points.1 == x {
        LinkStyle::Turning
    } else {
        LinkStyle::Plain
    };
    DrawnLink {
        tail: stands.0,
        head: stands.1,
        style,
        back: points.0 != stands.0,
    }
}
