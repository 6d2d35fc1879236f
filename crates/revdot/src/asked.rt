//! The line of a story that says what a request asks.

ghost use Rattle.std.specs.Prelude.{◌≡◌, ◌++◌, Ok, OnOk, codes, decimal, string_bytes};
ghost use Rattle.fr_requests.specs.Requests.{plain};
ghost use Rattle.fr_route.specs.Texts.{spaced_links};
ghost use Rattle.revdot.specs.Asked.{asked_text, edit_text, node_question_text, pair_text, question_text};
ghost use Rattle.revdot.specs.Asked.{request_text, spaced_edits};

use crate::links::push_links;
use fr_graph::Edit;
use fr_requests::{NodeQuestion, Question, Request};
use std::alloc::AllocError;
use std::fmt::Write;

/// Appends the line that says what a request asks.
pub fn push_asked(story: &mut String, request: &Request) -> Result<(), AllocError>
    ensures { OnOk result (string_bytes story.new ≡ string_bytes story.old ++ asked_text (Ok (plain request.now))) }
{
    story.push_str("asks ")?;
    push_request(story, request)?;
    story.push_str("\n")
}

fn push_request(story: &mut String, request: &Request) -> Result<(), AllocError>
    ensures { OnOk result (string_bytes story.new ≡ string_bytes story.old ++ request_text (plain request.now)) }
{
    match request {
        Request::Network { nodes, dest, links } => push_network(story, *nodes, *dest, links),
        Request::Cut { u, v } => push_pair(story, "cut", *u, *v),
        Request::Add { u, v } => push_pair(story, "add", *u, *v),
        Request::Join { u, v } => push_pair(story, "join", *u, *v),
        Request::Batch { edits } => push_batch(story, edits),
        Request::Destination { dest } => push_single(story, "dest", *dest),
        Request::Walk { x } => push_single(story, "walk", *x),
        Request::Ask(question) => push_question(story, *question),
        Request::AskNode { question, x } => push_node_question(story, *question, *x),
        Request::Pushes { .. } => story.push_str("pushes"),
        Request::Phases { .. } => story.push_str("phases"),
    }
}

fn push_network(
    story: &mut String,
    nodes: u32,
    dest: u32,
    links: &[(u32, u32)],
) -> Result<(), AllocError>
    ensures { OnOk result
        (string_bytes story.new
        ≡ string_bytes story.old ++ (pair_text (codes "net") nodes dest ++ spaced_links links.now)) }
{
    push_pair(story, "net", nodes, dest)?;
    push_links(story, links)
}

fn push_batch(story: &mut String, edits: &[Edit]) -> Result<(), AllocError>
    ensures { OnOk result
        (string_bytes story.new ≡ string_bytes story.old ++ (codes "batch" ++ spaced_edits edits.now)) }
{
    story.push_str("batch")?;
    push_edits(story, edits)
}

fn push_edits(story: &mut String, edits: &[Edit]) -> Result<(), AllocError>
    ensures { OnOk result (string_bytes story.new ≡ string_bytes story.old ++ spaced_edits edits.now) }
{
    for edit in edits {
        push_edit(story, *edit)?;
    }
    Ok(())
}

/// Appends a space and an edit.
fn push_edit(story: &mut String, edit: Edit) -> Result<(), AllocError>
    ensures { OnOk result (string_bytes story.new ≡ string_bytes story.old ++ (codes " " ++ edit_text edit)) }
{
    story.push_str(" ")?;
    match edit {
        Edit::Cut { u, v } => push_pair(story, "cut", u, v),
        Edit::Add { u, v } => push_pair(story, "add", u, v),
        Edit::Join { u, v } => push_pair(story, "join", u, v),
    }
}

/// Appends a word and two numbers.
fn push_pair(story: &mut String, word: &str, u: u32, v: u32) -> Result<(), AllocError>
    ensures { OnOk result (string_bytes story.new ≡ string_bytes story.old ++ pair_text word.now u v) }
{
    story.push_str(word)?;
    push_space_and_number(story, u)?;
    push_space_and_number(story, v)
}

/// Appends a word and a number.
fn push_single(story: &mut String, word: &str, number: u32) -> Result<(), AllocError>
    ensures { OnOk result
        (string_bytes story.new ≡ string_bytes story.old ++ (word.now ++ (codes " " ++ decimal number))) }
{
    story.push_str(word)?;
    push_space_and_number(story, number)
}

/// Appends a space and a number.
fn push_space_and_number(story: &mut String, number: u32) -> Result<(), AllocError>
    ensures { OnOk result (string_bytes story.new ≡ string_bytes story.old ++ (codes " " ++ decimal number)) }
{
    write!(story, " {number}")
}

fn push_question(story: &mut String, question: Question) -> Result<(), AllocError>
    ensures { OnOk result (string_bytes story.new ≡ string_bytes story.old ++ question_text question) }
{
    match question {
        Question::Links => story.push_str("links"),
        Question::Counts => story.push_str("counts"),
        Question::Hops => story.push_str("hops"),
        Question::Ways => story.push_str("ways"),
    }
}

fn push_node_question(story: &mut String, question: NodeQuestion, x: u32) -> Result<(), AllocError>
    ensures { OnOk result (string_bytes story.new
        ≡ string_bytes story.old ++ (node_question_text question ++ (codes " " ++ decimal x))) }
{
    match question {
        NodeQuestion::Ways => push_single(story, "ways", x),
        NodeQuestion::Nearest => push_single(story, "nearest", x),
    }
}
