//! Networks as text: made from links, copied, and turned by counts.

ghost use Rattle.std.specs.Prelude.{◌≡◌, ◌<◌, All, IfOk, IsTrue, length};
ghost use Rattle.fr_graph.specs.Counts.{IsKept};

use crate::answers::Answer;
use crate::cases::{counts, links, number};
use fr_net::laws::rows_law;
use fr_net::{MAX_NODES, Net, NetFault, Turns};
use serde_json::Value;
use std::alloc::{AllocError, Global};

/// Answers a question about links that may be those of a network. Returns whether it is such a question.
pub fn answer(answer: &mut Answer, asked: &str, given: &[Value]) -> bool {
    match (asked, given) {
        ("made", [nodes, links]) => made(answer, nodes, links),
        ("counted", [nodes, links]) => counted(answer, nodes, links),
        ("turned", [links, counts]) => turned(answer, links, counts),
        _ => return false,
    }
    true
}

/// Answers a question about a network. Returns whether it is such a question.
pub fn answer_network_case(answer: &mut Answer, net: &Net, asked: &str, given: &[Value]) -> bool {
    match (asked, given) {
        ("rows", []) => rows(answer, net),
        ("copied", []) => copied(answer, net),
        _ => return false,
    }
    true
}

/// The network with these links, or the fault of them.
pub fn network(answer: &mut Answer, nodes: &Value, given: &Value) -> Result<Net, NetFault> {
    let nodes = number(answer, nodes);
    let links = links(answer, given);
    Net::new(answer.alloc, nodes, &links)
}

/// Writes the links of a network, or the fault.
pub fn tell(answer: &mut Answer, made: Result<Net, NetFault>) {
    match made {
        Ok(net) => tell_links(answer, &net),
        Err(fault) => tell_fault(answer, fault),
    }
}

/// A list of the links of a network.
fn listed(alloc: Global, net: &Net) -> Result<Vec<(u32, u32)>, AllocError>
    ensures { IfOk result (λ listed. listed.items ≡ net.now.links) }
{
    net.links().collect(alloc)
}

/// Writes the links of a network.
pub fn tell_links(answer: &mut Answer, net: &Net) {
    match listed(answer.alloc, net) {
        Ok(links) => answer.put(&links),
        Err(fault) => answer.put(&fault),
    }
}

/// Writes a fault, with its evidence.
pub fn tell_fault(answer: &mut Answer, fault: NetFault) {
    answer.put(&fault);
}

fn made(answer: &mut Answer, nodes: &Value, links: &Value) {
    let made = network(answer, nodes, links);
    tell(answer, made);
}

/// How many links are given, and how many a network of them has, which lists them in order; or the fault.
fn counted(answer: &mut Answer, nodes: &Value, given: &Value) {
    let nodes = number(answer, nodes);
    let links = links(answer, given);
    answer.put(&links.len());
    answer.say(" links, ");
    match Net::new(answer.alloc, nodes, &links) {
        Ok(net) => tell_count(answer, &net, &links),
        Err(fault) => tell_fault(answer, fault),
    }
}

/// Writes how many links a network has, and whether it lists these links.
fn tell_count(answer: &mut Answer, net: &Net, links: &[(u32, u32)]) {
    answer.put(&net.link_count());
    let shown = net.links();
    let same = shown.len() == links.len() && shown.zip(links).all(|(shown, link)| shown == *link);
    answer.say(if same {
        " in the network, the same"
    } else {
        " in the network, others"
    });
}

/// Writes the rows of a network, after calls of its laws.
fn rows(answer: &mut Answer, net: &Net) {
    rows_law();
    tell_rows(answer, net);
}

/// Writes the rows of a network, by each call that returns them.
fn tell_rows(answer: &mut Answer, net: &Net) {
    for x in 0..net.nodes() {
        tell_row(answer, net, x);
    }
}

/// Writes the row of a node.
fn tell_row(answer: &mut Answer, net: &Net, x: u32)
    requires { x < net.now.nodes }
{
    net.network_law();
    answer.comma();
    answer.put(&net.degree(x));
    answer.say(" ");
    answer.put(&net.row(x));
    if net.degree(x) > 0 {
        answer.say(" ");
        answer.put(&net.neighbour(x, 0));
    }
}

/// Writes whether a network has the same rows as another one.
fn tell_alike(answer: &mut Answer, net: &Net, other: &Net) {
    let mut rows = Answer::new(answer.alloc);
    tell_rows(&mut rows, net);
    let mut others = Answer::new(answer.alloc);
    tell_rows(&mut others, other);
    answer.say(if rows.text() == others.text() {
        ", the same rows"
    } else {
        ", other rows"
    });
}

/// Writes whether a network has the rows of a network that is made from its links.
pub fn tell_anew(answer: &mut Answer, net: &Net) {
    match anew(answer, net) {
        Ok(made) => tell_alike(answer, net, &made),
        Err(fault) => tell_fault(answer, fault),
    }
}

fn anew(answer: &Answer, net: &Net) -> Result<Net, NetFault> {
    let links = listed(answer.alloc, net)?;
    Net::new(answer.alloc, net.nodes(), &links)
}

/// The links of a copy, and whether its rows are those of the network.
fn copied(answer: &mut Answer, net: &Net) {
    match net.copied(answer.alloc) {
        Ok(copy) => {
            tell_links(answer, &copy);
            tell_alike(answer, net, &copy);
        }
        Err(fault) => answer.put(&fault),
    }
}

/// The links that counts give, one for each node: in a new network, and in the same network.
fn turned(answer: &mut Answer, given: &Value, given_counts: &Value) {
    let links = links(answer, given);
    let counts = counts(answer, given_counts);
    let nodes = counts.len().min(MAX_NODES as usize + 1) as u32;
    match Net::new(answer.alloc, nodes, &links) {
        Ok(net) => turned_if_kept(answer, net, counts),
        Err(fault) => tell_fault(answer, fault),
    }
}

/// Writes the links that counts give, if each link is kept or reversed by them.
fn turned_if_kept(answer: &mut Answer, net: Net, counts: Vec<u64>) {
    match listed(answer.alloc, &net) {
        Ok(listed) if counts.len() == net.nodes() as usize && are_kept(&listed, &counts) => {
            tell_turned(answer, net, counts)
        }
        _ => answer.note_no_case(),
    }
}

/// Writes the links that counts give, in a new network and in the same one.
fn tell_turned(answer: &mut Answer, mut net: Net, counts: Vec<u64>)
    requires one_each { length counts.items ≡ net.nodes }
    requires kept { All (IsKept counts.items) net.links }
{
    answer.say("beside ");
    let beside = net.turned_by(answer.alloc, &counts);
    tell(answer, beside);
    net.network_law();
    match Turns::of(answer.alloc, counts) {
        Ok(turns) => net.turn(&turns),
        Err(_) => answer.note(false),
    }
    answer.say(", in place ");
    tell_links(answer, &net);
    tell_anew(answer, &net);
}

/// Whether each link is kept or reversed by these counts, as `turned_by` and `turn` require.
fn are_kept(links: &[(u32, u32)], counts: &[u64]) -> bool
    ensures { IsTrue result → All (IsKept counts.now) links.now }
{
    for (tail, head) in links {
        if *tail as usize >= counts.len() || *head as usize >= counts.len() {
            return false;
        }
        let before = counts[*tail as usize];
        let after = counts[*head as usize];
        if after < before || after - before > 1 {
            return false;
        }
    }
    true
}
