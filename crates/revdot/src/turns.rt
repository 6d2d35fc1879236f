//! The turns of the last round.

ghost use Rattle.std.specs.Prelude.{◌≡◌, ◌<◌, ◌^◌, length, map, slice_index, IfOk, IfSome, MatchOption};
ghost use Rattle.fr_graph.specs.Links.{AreBelow};
ghost use Rattle.fr_graph.specs.Turn.{turn as turn_of, turned_link};
ghost use Rattle.fr_core.specs.Legal.{NoneCanTurn};
ghost use Rattle.fr_route.specs.States.{State};
ghost use Rattle.revdot.specs.Strips.{first_link as first_link_of, after_turn, beginning, moment, IsNext};
ghost use Rattle.revdot.specs.Replays.{IsReplay, moment_of};
ghost use Rattle.revdot.specs.Ends.{HaveEnds};

use fr_graph::Net;
use fr_route::Router;
use std::alloc::{AllocError, Global};

/// The last round of a router, replayed turn by turn.
#[derive(Drop)]
pub struct Replay {
    /// The links after the round.
    pub settled: Vec<(u32, u32)>,
    /// The same links with their directions before the next turn.
    pub links: Vec<(u32, u32)>,
    /// How often each node has turned before the next turn.
    pub counts: Vec<u64>,
}

impl Replay {
    /// The round before its first turn.
    pub fn begin(alloc: Global, router: &Router) -> Result<Replay, AllocError>
        ensures replay { IfOk result (IsReplay router.now) }
        ensures first { IfOk result (λ replay. moment_of replay ≡ beginning router.now) }
    {
        let net = router.net();
        net.network_law();
        let settled = links_of(alloc, net)?;
        let links = first_links(alloc, &settled, router.counts())?;
        let counts = vec![in alloc; 0u64; net.nodes() as usize]?;
        Ok(Replay {
            settled,
            links,
            counts,
        })
    }

    /// The next node to turn: the one with the lowest number that can.
    pub fn next_to_turn(&self, alloc: Global, router: &Router) -> Result<Option<u32>, AllocError>
        requires { IsReplay router.now self.now }
        ensures next { IfOk result (λ next. MatchOption next
            (NoneCanTurn router.now.nodes router.now.dest (moment_of self.now))
            (IsNext router.now.nodes router.now.dest (moment_of self.now))) }
        ensures node { IfOk result (λ next. IfSome next (λ x. x < router.now.nodes)) }
        ensures few { IfOk result (λ next. IfSome next (λ x. slice_index self.now.counts.items x < 2 ^ 32)) }
    {
        next_to_turn(
            alloc,
            router.net().nodes(),
            router.dest(),
            &self.links,
            &self.counts,
        )
    }

    /// Turns a node.
    pub fn turn(&mut self, x: u32)
        requires node { x < length self.old.counts.items }
        requires few { slice_index self.old.counts.items x < 2 ^ 32 }
        ensures turned { moment_of self.new ≡ after_turn (moment_of self.old) x }
        ensures replay { (s : State) → IsReplay s self.old → IsReplay s self.new }
    {
        turn_node(&mut self.links, x);
        self.counts[x as usize] += 1;
    }
}

/// A list of the links of a network.
fn links_of(alloc: Global, net: &Net) -> Result<Vec<(u32, u32)>, AllocError>
    ensures { IfOk result (λ links. links.items ≡ net.now.links) }
{
    net.links().collect(alloc)
}

/// The directions of the settled links before the round.
fn first_links(
    alloc: Global,
    settled: &[(u32, u32)],
    counts: &[u64],
) -> Result<Vec<(u32, u32)>, AllocError>
    requires { AreBelow (length counts.now) settled.now }
    ensures { IfOk result (λ links. links.items ≡ map (first_link_of counts.now) settled.now) }
{
    let mut links = Vec::new(alloc);
    for link in settled {
        links.push(first_link(counts, *link))?;
    }
    Ok(links)
}

/// The direction of a settled link before the round.
fn first_link(counts: &[u64], link: (u32, u32)) -> (u32, u32)
    requires tail { link.0 < length counts.now }
    requires head { link.1 < length counts.now }
    ensures { result ≡ first_link_of counts.now link }
{
    if counts[link.0 as usize] == counts[link.1 as usize] {
        link
    } else {
        (link.1, link.0)
    }
}

/// For each node whether a link points away from it, and whether one points to it.
#[derive(Drop)]
struct Ends {
    /// Whether the node is the tail of a link.
    tails: Vec<bool>,
    /// Whether the node is the head of a link.
    heads: Vec<bool>,
}

/// The ends of these links, for this many nodes.
fn ends_of(alloc: Global, nodes: u32, links: &[(u32, u32)]) -> Result<Ends, AllocError>
    requires { AreBelow nodes links.now }
    ensures { IfOk result (λ ends. HaveEnds nodes ends.tails.items ends.heads.items links.now) }
{
    let mut tails = vec![in alloc; false; nodes as usize]?;
    let mut heads = vec![in alloc; false; nodes as usize]?;
    for (tail, head) in links {
        tails[*tail as usize] = true;
        heads[*head as usize] = true;
    }
    Ok(Ends { tails, heads })
}

/// The next node to turn: the one with the lowest number that can.
fn next_to_turn(
    alloc: Global,
    nodes: u32,
    dest: u32,
    links: &[(u32, u32)],
    counts: &[u64],
) -> Result<Option<u32>, AllocError>
    requires below { AreBelow nodes links.now }
    requires one_each { length counts.now ≡ nodes }
    ensures next { IfOk result (λ next. MatchOption next
        (NoneCanTurn nodes dest (moment links.now counts.now)) (IsNext nodes dest (moment links.now counts.now))) }
    ensures node { IfOk result (λ next. IfSome next (λ x. x < nodes)) }
{
    let Ends { tails, heads } = ends_of(alloc, nodes, links)?;
    for x in 0..nodes {
        let place = x as usize;
        if x != dest && heads[place] && !tails[place] && counts[place] < u64::from(nodes) {
            return Ok(Some(x));
        }
    }
    Ok(None)
}

/// Turns a node. Afterwards each of its links points away from it.
fn turn_node(links: &mut [(u32, u32)], x: u32)
    ensures { links.new ≡ turn_of x links.old }
{
    for link in links.iter_mut() {
        *link = link_after_turn(*link, x);
    }
}

/// The link after the turn of `x`.
fn link_after_turn(link: (u32, u32), x: u32) -> (u32, u32)
    ensures { result ≡ turned_link x link }
{
    if link.1 == x { (x, link.0) } else { link }
}
