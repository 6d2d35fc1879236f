//! Edits of networks (cut, add, join) as text.

use crate::answers::Answer;
use crate::cases::{items, length, number, word};
use crate::networks::{tell, tell_anew, tell_fault, tell_links};
use fr_net::laws::join_law;
use fr_net::{Edit, EditFault, Net, NetFault, NotEdited};
use serde_json::Value;

/// Answers a question about edits of a network. Returns whether it is such a question.
pub fn answer_network_case(
    answer: &mut Answer,
    net: &mut Net,
    asked: &str,
    given: &[Value],
) -> bool {
    match (asked, given) {
        ("edits", [edits]) => several(answer, net, edits),
        ("edit_if", [edits, most]) => in_place(answer, net, edits, most),
        (_, [u, v]) => one(answer, net, asked, u, v),
        _ => return false,
    }
    true
}

/// The edit of two nodes with this word.
fn edit_of(answer: &mut Answer, named: &str, u: &Value, v: &Value) -> Edit {
    let (u, v) = (number(answer, u), number(answer, v));
    match named {
        "cut" => return Edit::Cut { u, v },
        "add" => return Edit::Add { u, v },
        "join" => {}
        _ => answer.note_no_case(),
    }
    Edit::Join { u, v }
}

/// Edits: a list of them, or `["times", count, edit]`.
fn edits(answer: &mut Answer, value: &Value) -> Vec<Edit> {
    let mut edits = Vec::new(answer.alloc);
    match items(answer, value) {
        [word, count, edit] if word.as_str() == Some("times") => {
            let count = length(answer, count);
            push_times(answer, &mut edits, count, edit);
        }
        items => push_all(answer, &mut edits, items),
    }
    edits
}

fn push_all(answer: &mut Answer, edits: &mut Vec<Edit>, given: &[Value]) {
    for edit in given {
        push(answer, edits, edit);
    }
}

fn push_times(answer: &mut Answer, edits: &mut Vec<Edit>, count: usize, edit: &Value) {
    for _ in 0..count {
        push(answer, edits, edit);
    }
}

/// Adds an edit: its word, and two nodes.
fn push(answer: &mut Answer, edits: &mut Vec<Edit>, given: &Value) {
    match items(answer, given) {
        [named, u, v] => {
            let named = word(answer, named);
            let edit = edit_of(answer, named, u, v);
            answer.note(edits.push(edit).is_ok());
        }
        _ => answer.note_no_case(),
    }
}

/// The network after one edit.
fn edited(answer: &Answer, net: &Net, edit: Edit) -> Result<Net, NetFault> {
    join_law();
    match edit {
        Edit::Cut { u, v } => net.with_cut(answer.alloc, u, v),
        Edit::Add { u, v } => net.with_link(answer.alloc, u, v),
        Edit::Join { u, v } => net.with_join(answer.alloc, u, v),
    }
}

fn one(answer: &mut Answer, net: &Net, named: &str, u: &Value, v: &Value) {
    let edit = edit_of(answer, named, u, v);
    let edited = edited(answer, net, edit);
    tell(answer, edited);
}

/// The network after edits in order, or the place of the first one that is refused and why.
fn several(answer: &mut Answer, net: &Net, given: &Value) {
    let edits = edits(answer, given);
    match net.with_edits(answer.alloc, &edits) {
        Ok(net) => tell_links(answer, &net),
        Err(refused) => tell_refused(answer, refused),
    }
}

/// Writes the place of a refused edit, and why it is refused.
fn tell_refused(answer: &mut Answer, refused: EditFault) {
    answer.put(&refused.at);
    answer.say(" ");
    tell_fault(answer, refused.fault);
}

/// Writes the result if edits may leave so many links, the links that are left, and whether the rows are those of a
/// network made from these links.
fn in_place(answer: &mut Answer, net: &mut Net, given: &Value, most: &Value) {
    let most = length(answer, most);
    let edits = edits(answer, given);
    edit_if_few(answer, net, &edits, most);
    tell_links(answer, net);
    tell_anew(answer, net);
}

/// Makes edits in place, if they leave at most so many links, and writes the result.
fn edit_if_few(answer: &mut Answer, net: &mut Net, edits: &[Edit], most: usize) {
    let way = |made: &Net| {
        let links = made.link_count();
        if links <= most { Ok(links) } else { Err(links) }
    };
    match net.edit_if(answer.alloc, edits, way) {
        Ok(links) => tell_links_left(answer, "", links),
        Err(NotEdited::Fault(links)) => tell_links_left(answer, "not ", links),
        Err(NotEdited::Refused(refused)) => {
            tell_refused(answer, refused);
            answer.say(" ");
        }
    }
}

/// Writes how many links edits leave, after a word.
fn tell_links_left(answer: &mut Answer, word: &str, links: usize) {
    answer.say(word);
    answer.put(&links);
    answer.say(" links ");
}
