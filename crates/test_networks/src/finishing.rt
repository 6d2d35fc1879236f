//! Counts: which are lawful, the results of `finish`, `finish_turns`, `finish_from` and `finish_if_few`, which nodes are
//! sinks, and in which direction a link points.

ghost use Rattle.std.specs.Prelude.{◌≡◌, ℕ, ◌<◌, IsTrue, All, false};
ghost use Rattle.std.specs.List.{Contains};
ghost use Rattle.fr_graph.specs.Counts.{AreLawful};
ghost use Rattle.fr_core.specs.Finish.{HoldsAllThatCanTurn};
ghost use Rattle.fr_core.specs.History.{moment_of};
ghost use Rattle.fr_core.specs.Legal.{CanTurn};

use crate::answers::Answer;
use crate::cases::{count, counts, items, number, numbers, word};
use crate::tables::none;
use fr_core::{
    are_settled, can_turn, finish, finish_from, finish_if_few, finish_turns, is_sink, lawful, sense,
};
use fr_net::{First, Net, Turns};
use serde_json::Value;

/// Answers in which direction a link points. Returns whether that is the question.
pub fn answer(answer: &mut Answer, asked: &str, given: &[Value]) -> bool {
    match (asked, given) {
        ("sense", [first, x, w]) => put_sense(answer, first, x, w),
        _ => return false,
    }
    true
}

/// Answers a question about the counts of a network. Returns whether it is such a question. The destination is node 0,
/// unless steps name another.
pub fn answer_network_case(answer: &mut Answer, net: &Net, asked: &str, given: &[Value]) -> bool {
    match (asked, given) {
        ("finish_turns", []) => finished(answer, net, true),
        ("turn_count", []) => finished(answer, net, false),
        ("finish", [counts]) => finished_counts(answer, net, counts),
        ("finishes", [steps]) => finishes(answer, net, steps),
        ("lawful", [counts]) => tell_lawful(answer, net, counts),
        ("sinks", [counts]) => sinks(answer, net, counts),
        _ => return false,
    }
    true
}

fn put_sense(answer: &mut Answer, first: &Value, x: &Value, w: &Value) {
    let (x, w) = (count(answer, x), count(answer, w));
    match word(answer, first) {
        "outward" => answer.put(&sense(First::Outward, x, w)),
        "inward" => answer.put(&sense(First::Inward, x, w)),
        _ => answer.note_no_case(),
    }
}

/// Whether a destination is a node and counts are lawful.
fn is_lawful(net: &Net, dest: u32, counts: &[u64]) -> bool
    ensures node { IsTrue result → dest < net.now.nodes }
    ensures lawful { IsTrue result → AreLawful net.now.nodes dest net.now.links counts.now }
{
    if dest >= net.nodes() {
        return false;
    }
    lawful(net, dest, counts)
}

fn tell_lawful(answer: &mut Answer, net: &Net, given: &Value) {
    let counts = counts(answer, given);
    answer.put(&is_lawful(net, 0, &counts));
}

/// How many turns `finish_turns` makes from the counts 0, and the counts if the case asks for them.
fn finished(answer: &mut Answer, net: &Net, with_counts: bool) {
    match none(answer, net.nodes()) {
        Some(mut turns) if is_lawful(net, 0, turns.counts()) => {
            answer.put(&finish_turns(net, 0, &mut turns));
            if with_counts {
                answer.say(" ");
                answer.put(&turns.counts());
            }
        }
        _ => answer.note_no_case(),
    }
}

/// How many turns `finish` makes from these counts, and its result.
fn finished_counts(answer: &mut Answer, net: &Net, given: &Value) {
    let mut counts = counts(answer, given);
    if !is_lawful(net, 0, &counts) {
        return answer.note_no_case();
    }
    answer.put(&finish(net, 0, &mut counts));
    answer.say(" ");
    answer.put(&counts);
}

/// Takes steps with a table of the turns of a network, which is empty at first.
fn finishes(answer: &mut Answer, net: &Net, steps: &Value) {
    if let Some(mut turns) = none(answer, net.nodes()) {
        take_all(answer, net, &mut turns, steps);
    }
}

fn take_all(answer: &mut Answer, net: &Net, turns: &mut Turns, steps: &Value) {
    for step in items(answer, steps) {
        take(answer, net, turns, step);
    }
}

/// Takes one step.
fn take(answer: &mut Answer, net: &Net, turns: &mut Turns, step: &Value) {
    match items(answer, step) {
        [asked] => tell_or_clear(answer, turns, asked),
        [asked, dest, from] => go_on(answer, net, turns, asked, (dest, from)),
        _ => answer.note_no_case(),
    }
}

/// Writes the counts or the number of turns, or clears the table.
fn tell_or_clear(answer: &mut Answer, turns: &mut Turns, asked: &Value) {
    match word(answer, asked) {
        "counts" => {
            answer.comma();
            answer.put(&turns.counts());
        }
        "total" => {
            answer.comma();
            answer.put(&turns.total());
        }
        "clear" => turns.clear(),
        _ => answer.note_no_case(),
    }
}

/// Continues to the settled counts, and writes whether it reached them.
fn go_on(
    answer: &mut Answer,
    net: &Net,
    turns: &mut Turns,
    asked: &Value,
    (dest, from): (&Value, &Value),
) {
    let dest = number(answer, dest);
    let from = numbers(answer, from);
    if !is_lawful(net, dest, turns.counts()) || !hold_all(net, dest, turns.counts(), &from) {
        return answer.note_no_case();
    }
    answer.comma();
    match word(answer, asked) {
        "from" => finish_from(net, dest, turns, &from),
        "soon" => answer.say(if finish_if_few(net, dest, turns, &from) {
            "all turned, "
        } else {
            "gave up, "
        }),
        _ => answer.note_no_case(),
    }
    tell_state(answer, net, dest, turns.counts());
}

/// Writes whether counts are lawful, and whether they are the settled ones.
fn tell_state(answer: &mut Answer, net: &Net, dest: u32, counts: &[u64]) {
    answer.say(if !is_lawful(net, dest, counts) {
        "not lawful"
    } else if are_settled(net, dest, counts) {
        "settled"
    } else {
        "not settled"
    });
}

/// Whether these are nodes that include all that can turn, as `finish_from` and `finish_if_few` require.
fn hold_all(net: &Net, dest: u32, counts: &[u64], from: &[u32]) -> bool
    requires { AreLawful net.now.nodes dest net.now.links counts.now }
    ensures { IsTrue result → HoldsAllThatCanTurn net.now.nodes dest net.now.links counts.now from.now }
{
    // By this law, a node that can turn is in the network.
    net.network_law();
    are_nodes(net, from) && miss_none(net, dest, counts, from)
}

/// Whether these are nodes.
fn are_nodes(net: &Net, from: &[u32]) -> bool
    ensures { IsTrue result → All (λ x. x < net.now.nodes) from.now }
{
    let nodes = net.nodes();
    from.iter().all(|x| *x < nodes)
}

/// Whether each node that can turn is among these.
fn miss_none(net: &Net, dest: u32, counts: &[u64], from: &[u32]) -> bool
    requires { AreLawful net.now.nodes dest net.now.links counts.now }
    ensures { IsTrue result → (x : ℕ) → x < net.now.nodes
        → CanTurn net.now.nodes dest (moment_of net.now.links counts.now) x → Contains from.now x }
{
    for x in 0..net.nodes() {
        if misses(net, dest, counts, from, x) {
            return false;
        }
    }
    true
}

/// Whether a node can turn, and is not among these.
fn misses(net: &Net, dest: u32, counts: &[u64], from: &[u32], x: u32) -> bool
    requires lawful { AreLawful net.now.nodes dest net.now.links counts.now }
    requires node { x < net.now.nodes }
    ensures { result ≡ false
        → CanTurn net.now.nodes dest (moment_of net.now.links counts.now) x → Contains from.now x }
{
    can_turn(net, dest, counts, x) && !is_among(from, x)
}

/// Whether a number is in a list.
fn is_among(list: &[u32], x: u32) -> bool
    ensures { IsTrue result → Contains list.now x }
{
    list.contains(&x)
}

/// Writes the nodes that are sinks at these counts, with destination 0.
fn sinks(answer: &mut Answer, net: &Net, given: &Value) {
    let counts = counts(answer, given);
    if !is_lawful(net, 0, &counts) {
        return answer.note_no_case();
    }
    for x in 0..net.nodes() {
        if is_sink(net, &counts, x) {
            answer.comma();
            answer.put(&x);
        }
    }
}
