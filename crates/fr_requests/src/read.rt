//! The request of a line by its value of JSON. `specs/Requests.antt` defines which line is which request.

ghost use Rattle.std.specs.Prelude.{◌≡◌, ◌≢◌, ◌∷◌, [], Ok, Err, Some, None, IfOk, IfErr};
ghost use Rattle.std.specs.Prelude.{OnOk, map, ok_or, option_and_then, option_map};
ghost use Rattle.serde_json.specs.Find.{as_str};
ghost use Rattle.serde_json.specs.Read.{read};
ghost use Rattle.fr_requests.specs.declared.requests.LineFault.TheVariants.{NotJson, NotRequest, Memory};
ghost use Rattle.fr_requests.specs.Returned.{IsReadNext, Tells};
ghost use Rattle.fr_requests.specs.Requests.{plain, reading, request_of, request_of_word, cut_link, add_link};
ghost use Rattle.fr_requests.specs.Requests.{join_nodes, move_dest, walk_from, network_request, pair_request};
ghost use Rattle.fr_requests.specs.Requests.{batch_request, node_request, ask_request, items_in, link_in, edit_in};
ghost use Rattle.fr_requests.specs.Requests.{edit_of_word, number_pair, read_all, single_number, number_in};
ghost use Rattle.fr_requests.specs.Requests.{ask_node, hop_in, numbers_in, phases_request, pushes_request};
ghost use Rattle.fr_requests.specs.Requests.{way_table_in, ways_in, ways_of_word, ways_request};
ghost use Rattle.fr_requests.specs.Values.{view};

use crate::lists::OfValue;
use crate::numbers::{is_readable, natural};
use crate::requests::{LineFault, NodeQuestion, Question, Request};
use fr_graph::Edit;
use fr_tables::Hop;
use fr_ways::WayTable;
use json::{Error, Reader, Scratch, Value};
use std::alloc::Global;

/// How deep arrays and objects may nest.
const MAX_DEPTH: usize = 127;

/// The request of a line. It is not inlined, so that lines that are read by their bytes do not pay for its local
/// variables.
#[inline(never)]
pub(crate) fn read_value(
    alloc: Global,
    line: &[u8],
    scratch: &mut Scratch,
) -> Result<Request, LineFault>
    ensures { Tells (reading line.now) result }
{
    let Ok(text) = std::str::from_utf8(line) else {
        return Err(LineFault::NotJson);
    };
    let value = value_of(alloc, text, scratch)?;
    request_in(alloc, &value)
}

/// The value of a text.
fn value_of<'a>(
    alloc: Global,
    text: &'a str,
    scratch: &'a mut Scratch,
) -> Result<Value<'a>, LineFault>
    ensures ok { IfOk result (λ value. read text.now ≡ Some (view value)) }
    ensures refused { IfErr result (λ fault. fault ≢ Memory → (fault ≡ NotJson) × (read text.now ≡ None)) }
{
    let mut reader = Reader::new(text, scratch)?;
    let value = match Value::read(alloc, &mut reader, MAX_DEPTH) {
        Ok(value) => value,
        Err(Error::OutOfMemory) => return Err(LineFault::Memory),
        Err(_) => return Err(LineFault::NotJson),
    };
    if reader.next().is_some() {
        return Err(LineFault::NotJson);
    }
    if is_readable(&value) {
        Ok(value)
    } else {
        Err(LineFault::NotJson)
    }
}

/// The request of a value of JSON.
fn request_in(alloc: Global, value: &Value<'_>) -> Result<Request, LineFault>
    ensures { Tells (ok_or (request_of (view value.now)) NotRequest) result }
{
    let Some([first, rest @ ..]) = items_of(value) else {
        return Err(LineFault::NotRequest);
    };
    let Some(word) = word_in(first) else {
        return Err(LineFault::NotRequest);
    };
    request_by_word(alloc, word, rest)
}

/// The request of a word and the items after it, with an arm for each word.
#[tactic(auto, unfolding(crate::specs::Requests::request_of_word))]
fn request_by_word(alloc: Global, word: &str, rest: &[Value<'_>]) -> Result<Request, LineFault>
    ensures { Tells (ok_or (request_of_word word.now (map view rest.now)) NotRequest) result }
{
    match word {
        "net" => read_network(alloc, rest),
        "cut" => read_cut(rest),
        "add" => read_add(rest),
        "join" => read_join(rest),
        "batch" => read_batch(alloc, rest),
        "dest" => read_destination(rest),
        "walk" => read_walk(rest),
        "links" => read_question(Question::Links, rest),
        "counts" => read_question(Question::Counts, rest),
        "hops" => read_question(Question::Hops, rest),
        "ways" => read_ways(rest),
        "nearest" => read_node_question(NodeQuestion::Nearest, rest),
        "pushes" => read_pushes(alloc, rest),
        "phases" => read_phases(alloc, rest),
        _ => Err(LineFault::NotRequest),
    }
}

/// A cut, if exactly the two ends of a link follow its word.
fn read_cut(rest: &[Value<'_>]) -> Result<Request, LineFault>
    ensures ok { IfOk result (λ request. pair_request cut_link (map view rest.now) ≡ Some (plain request)) }
    ensures refused { IfErr result (λ fault. ok_or (pair_request cut_link (map view rest.now)) NotRequest ≡ Err fault) }
{
    let (u, v) = two_numbers(rest).ok_or(LineFault::NotRequest)?;
    Ok(Request::Cut { u, v })
}

/// An added link, if exactly its tail and its head follow the word.
fn read_add(rest: &[Value<'_>]) -> Result<Request, LineFault>
    ensures ok { IfOk result (λ request. pair_request add_link (map view rest.now) ≡ Some (plain request)) }
    ensures refused { IfErr result (λ fault. ok_or (pair_request add_link (map view rest.now)) NotRequest ≡ Err fault) }
{
    let (u, v) = two_numbers(rest).ok_or(LineFault::NotRequest)?;
    Ok(Request::Add { u, v })
}

/// A join, if exactly the two nodes follow its word.
fn read_join(rest: &[Value<'_>]) -> Result<Request, LineFault>
    ensures ok { IfOk result (λ request. pair_request join_nodes (map view rest.now) ≡ Some (plain request)) }
    ensures refused { IfErr result
        (λ fault. ok_or (pair_request join_nodes (map view rest.now)) NotRequest ≡ Err fault) }
{
    let (u, v) = two_numbers(rest).ok_or(LineFault::NotRequest)?;
    Ok(Request::Join { u, v })
}

/// A walk, if exactly its first node follows the word.
fn read_walk(rest: &[Value<'_>]) -> Result<Request, LineFault>
    ensures ok { IfOk result (λ request. node_request walk_from (map view rest.now) ≡ Some (plain request)) }
    ensures refused { IfErr result
        (λ fault. ok_or (node_request walk_from (map view rest.now)) NotRequest ≡ Err fault) }
{
    let x = one_number(rest).ok_or(LineFault::NotRequest)?;
    Ok(Request::Walk { x })
}

/// A batch, if exactly an array of edits follows the word.
fn read_batch(alloc: Global, rest: &[Value<'_>]) -> Result<Request, LineFault>
    ensures { Tells (ok_or (batch_request (map view rest.now)) NotRequest) result }
{
    let [edits] = rest else {
        return Err(LineFault::NotRequest);
    };
    let edits = item_list(alloc, edits)?;
    Ok(Request::Batch { edits })
}

/// Another destination, if exactly its number follows the word.
fn read_destination(rest: &[Value<'_>]) -> Result<Request, LineFault>
    ensures ok { IfOk result (λ request. node_request move_dest (map view rest.now) ≡ Some (plain request)) }
    ensures refused { IfErr result
        (λ fault. ok_or (node_request move_dest (map view rest.now)) NotRequest ≡ Err fault) }
{
    let dest = one_number(rest).ok_or(LineFault::NotRequest)?;
    Ok(Request::Destination { dest })
}

/// A question, if nothing follows its word.
fn read_question(question: Question, rest: &[Value<'_>]) -> Result<Request, LineFault>
    ensures ok { IfOk result (λ request. ask_request question (map view rest.now) ≡ Some (plain request)) }
    ensures refused { IfErr result (λ fault. ok_or (ask_request question (map view rest.now)) NotRequest ≡ Err fault) }
{
    match rest {
        [] => Ok(Request::Ask(question)),
        _ => Err(LineFault::NotRequest),
    }
}

/// A question about one node, if exactly this node follows its word.
fn read_node_question(question: NodeQuestion, rest: &[Value<'_>]) -> Result<Request, LineFault>
    ensures ok { IfOk result
        (λ request. node_request (ask_node question) (map view rest.now) ≡ Some (plain request)) }
    ensures refused { IfErr result
        (λ fault. ok_or (node_request (ask_node question) (map view rest.now)) NotRequest ≡ Err fault) }
{
    let x = one_number(rest).ok_or(LineFault::NotRequest)?;
    Ok(Request::AskNode { question, x })
}

/// The ways of all nodes, if nothing follows the word, or those of the node that follows it.
fn read_ways(rest: &[Value<'_>]) -> Result<Request, LineFault>
    ensures ok { IfOk result (λ request. ways_request (map view rest.now) ≡ Some (plain request)) }
    ensures refused { IfErr result (λ fault. ok_or (ways_request (map view rest.now)) NotRequest ≡ Err fault) }
{
    if rest.is_empty() {
        return Ok(Request::Ask(Question::Ways));
    }
    read_node_question(NodeQuestion::Ways, rest)
}

/// A network, if exactly three items follow the word: the number of nodes, the destination, the links.
fn read_network(alloc: Global, rest: &[Value<'_>]) -> Result<Request, LineFault>
    ensures { Tells (ok_or (network_request (map view rest.now)) NotRequest) result }
{
    let [nodes, dest, links] = rest else {
        return Err(LineFault::NotRequest);
    };
    let (Some(nodes), Some(dest)) = (number(nodes), number(dest)) else {
        return Err(LineFault::NotRequest);
    };
    let links = item_list(alloc, links)?;
    Ok(Request::Network { nodes, dest, links })
}

/// Pushes, if exactly a table or two tables of hops follow the word.
fn read_pushes(alloc: Global, rest: &[Value<'_>]) -> Result<Request, LineFault>
    ensures { Tells (ok_or (pushes_request (map view rest.now)) NotRequest) result }
{
    match rest {
        [table] => pushes_from(alloc, table),
        [table, wanted] => pushes_between(alloc, table, wanted),
        _ => Err(LineFault::NotRequest),
    }
}

/// Pushes from a table of hops to the next hops.
fn pushes_from(alloc: Global, table: &Value<'_>) -> Result<Request, LineFault>
    ensures { Tells (ok_or (pushes_request (view table.now ∷ [])) NotRequest) result }
{
    let table = item_list(alloc, table)?;
    Ok(Request::Pushes {
        table,
        wanted: None,
    })
}

/// Pushes from one table of hops to another.
fn pushes_between(
    alloc: Global,
    table: &Value<'_>,
    wanted: &Value<'_>,
) -> Result<Request, LineFault>
    ensures { Tells (ok_or (pushes_request (view table.now ∷ view wanted.now ∷ [])) NotRequest) result }
{
    let table = item_list(alloc, table)?;
    let wanted = Some(item_list(alloc, wanted)?);
    Ok(Request::Pushes { table, wanted })
}

/// The two phases, if exactly a table of ways follows the word.
fn read_phases(alloc: Global, rest: &[Value<'_>]) -> Result<Request, LineFault>
    ensures { Tells (ok_or (phases_request (map view rest.now)) NotRequest) result }
{
    let [table] = rest else {
        return Err(LineFault::NotRequest);
    };
    let table = way_table(alloc, table)?;
    Ok(Request::Phases { table })
}

/// A table of ways: an array that has the ways of each node.
fn way_table(alloc: Global, value: &Value<'_>) -> Result<WayTable, LineFault>
    ensures ok { IfOk result (λ table. way_table_in (view value.now) ≡ Some table) }
    ensures refused { IfErr result (λ fault. fault ≢ Memory
        → (fault ≡ NotRequest) × (way_table_in (view value.now) ≡ None)) }
{
    let Some(values) = items_of(value) else {
        return Err(LineFault::NotRequest);
    };
    let mut table = WayTable::with_capacity(alloc, values.len(), 0)?;
    for item in values {
        push_ways(alloc, &mut table, item)?;
    }
    Ok(table)
}

/// Appends the ways that a value describes.
fn push_ways(alloc: Global, table: &mut WayTable, value: &Value<'_>) -> Result<(), LineFault>
    ensures ok { OnOk result (IsReadNext ways_in table.old (view value.now) table.new) }
    ensures refused { IfErr result (λ fault. fault ≢ Memory
        → (fault ≡ NotRequest) × (ways_in (view value.now) ≡ None)) }
{
    let list = ways_of_node(alloc, value)?;
    table.push_row(&list)?;
    Ok(())
}

/// The ways of a node: an array of nodes, or a word for a node that has none.
fn ways_of_node(alloc: Global, value: &Value<'_>) -> Result<Vec<u32>, LineFault>
    ensures ok { IfOk result (λ list. ways_in (view value.now) ≡ Some list.items) }
    ensures refused { IfErr result (λ fault. fault ≢ Memory
        → (fault ≡ NotRequest) × (ways_in (view value.now) ≡ None)) }
{
    let Some(word) = word_in(value) else {
        return item_list(alloc, value);
    };
    match word {
        "here" | "cut" => Ok(Vec::new(alloc)),
        _ => Err(LineFault::NotRequest),
    }
}

/// The items of an array.
fn item_list<T: OfValue>(alloc: Global, value: &Value<'_>) -> Result<Vec<T>, LineFault>
    ensures ok { IfOk result
        (λ items. option_and_then (read_all T.in_data) (items_in (view value.now)) ≡ Some items.items) }
    ensures refused { IfErr result (λ fault. fault ≢ Memory
        → (fault ≡ NotRequest) × (option_and_then (read_all T.in_data) (items_in (view value.now)) ≡ None)) }
{
    let Some(values) = items_of(value) else {
        return Err(LineFault::NotRequest);
    };
    let mut items = Vec::new(alloc);
    for item in values {
        push_item(&mut items, item)?;
    }
    Ok(items)
}

/// Appends the item that a value describes.
#[inline(always)]
fn push_item<T: OfValue>(items: &mut Vec<T>, value: &Value<'_>) -> Result<(), LineFault>
    ensures ok { OnOk result (IsReadNext T.in_data items.old.items (view value.now) items.new.items) }
    ensures refused { IfErr result (λ fault. fault ≢ Memory
        → (fault ≡ NotRequest) × (T.in_data (view value.now) ≡ None)) }
{
    let Some(item) = T::from_value(value) else {
        return Err(LineFault::NotRequest);
    };
    items.push(item)?;
    Ok(())
}

/// A link: an array of its tail and its head.
pub(crate) fn link(value: &Value<'_>) -> Option<(u32, u32)>
    ensures { result ≡ link_in (view value.now) }
{
    two_numbers(items_of(value)?)
}

/// An edit: an array of its word and two nodes.
pub(crate) fn edit(value: &Value<'_>) -> Option<Edit>
    ensures { result ≡ edit_in (view value.now) }
{
    let [first, rest @ ..] = items_of(value)? else {
        return None;
    };
    edit_by_word(word_in(first)?, rest)
}

/// A hop: the number of the next node, or a word.
pub(crate) fn hop(value: &Value<'_>) -> Option<Hop>
    ensures { result ≡ hop_in (view value.now) }
{
    if let Some(next) = number(value) {
        return Some(Hop::To(next));
    }
    match word_in(value)? {
        "here" => Some(Hop::Here),
        "cut" => Some(Hop::CutOff),
        _ => None,
    }
}

/// The edit of a word and the items after it, with an arm for each word.
#[tactic(auto, unfolding(crate::specs::Requests::edit_of_word))]
fn edit_by_word(word: &str, rest: &[Value<'_>]) -> Option<Edit>
    ensures { result ≡ edit_of_word word.now (map view rest.now) }
{
    let (u, v) = two_numbers(rest)?;
    match word {
        "cut" => Some(Edit::Cut { u, v }),
        "add" => Some(Edit::Add { u, v }),
        "join" => Some(Edit::Join { u, v }),
        _ => None,
    }
}

/// A string.
#[inline(always)]
fn word_in<'a>(value: &Value<'a>) -> Option<&'a str>
    ensures { option_map (λ word. word.now) result ≡ as_str (view value.now) }
{
    value.as_str()
}

/// The values of an array.
#[inline(always)]
fn items_of<'v, 'a>(value: &'v Value<'a>) -> Option<&'v [Value<'a>]>
    ensures { option_map (λ items. map view items.now) result ≡ items_in (view value.now) }
{
    match value {
        Value::Array(items) => Some(items),
        _ => None,
    }
}

/// The number, if there is exactly one item and it is a number.
fn one_number(items: &[Value<'_>]) -> Option<u32>
    ensures { result ≡ single_number (map view items.now) }
{
    let [x] = items else {
        return None;
    };
    number(x)
}

/// The two numbers, if there are exactly two items and both are numbers.
fn two_numbers(items: &[Value<'_>]) -> Option<(u32, u32)>
    ensures { result ≡ number_pair (map view items.now) }
{
    let [u, v] = items else {
        return None;
    };
    Some((number(u)?, number(v)?))
}

/// A number from 0 to 4,294,967,295.
pub(crate) fn number(value: &Value<'_>) -> Option<u32>
    ensures { result ≡ number_in (view value.now) }
{
    u32::try_from(natural(value.as_number()?)?).ok()
}
