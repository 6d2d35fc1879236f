//! The requests, by the word that begins them and the bytes of a line. White space is allowed wherever JSON allows it.

ghost use Rattle.std.specs.Prelude.{◌≡◌, ◌∷◌, [], IfOk, IfErr, IfSome};
ghost use Rattle.json.specs.Lex.{token, comma};
ghost use Rattle.json.specs.Token.{begin_array, end_array};
ghost use Rattle.fr_requests.specs.declared.requests.LineFault.TheVariants.{Memory};
ghost use Rattle.fr_requests.specs.declared.words.Word.TheVariants.{Network, Batch, Destination, Walk, Ask};
ghost use Rattle.fr_requests.specs.LineLexemes.{Begins, IsReadAs, letters, letters_of_edit, number_lexeme, plain_brief};
ghost use Rattle.fr_requests.specs.Requests.{plain};

use crate::fronts::{ends_line, is_only_space, number_before, skip_mark};
use crate::lists::{edit_after, items_to_end};
use crate::requests::{LineFault, Question, Request};
use crate::words::{EditWord, Word};
use fr_graph::Edit;
use std::alloc::Global;

/// A request without a list. It is small, so that moving it costs little.
#[derive(Clone, Copy)]
pub(crate) enum ShortRequest {
    Edit(Edit),
    Destination(u32),
    Walk(u32),
    Ask(Question),
}

/// The request without a list of a line that begins with this word. Returns `None` for a line with a list, signs,
/// fractions, exponents or escapes, although it may be a request.
#[inline(always)]
pub(crate) fn short_request_after(word: Word, rest: &[u8]) -> Option<ShortRequest>
    ensures { IfSome result (λ brief. IsReadAs (letters word) rest.now (plain_brief brief)) }
{
    match word {
        Word::Edit(word) => edit_request(word, rest),
        Word::Destination => destination_request(rest),
        Word::Walk => walk_request(rest),
        Word::Ask(question) => short_question(question, rest),
        Word::Network | Word::Batch => None,
    }
}

/// The request with a list of a line that begins with this word. Returns `None` for a line without a list, or with
/// signs, fractions, exponents, escapes or an empty list, although it may be a request.
pub(crate) fn list_request_after(
    alloc: Global,
    word: Word,
    rest: &[u8],
) -> Result<Option<Request>, LineFault>
    ensures ok { IfOk result (λ found. IfSome found (λ request. IsReadAs (letters word) rest.now (plain request))) }
    ensures refused { IfErr result (λ fault. fault ≡ Memory) }
{
    match word {
        Word::Network => network_request(alloc, rest),
        Word::Batch => batch_request(alloc, rest),
        Word::Edit(_) | Word::Destination | Word::Walk | Word::Ask(_) => Ok(None),
    }
}

/// A request without a list, as a request.
#[inline(always)]
pub(crate) fn request_of(brief: ShortRequest) -> Request
    ensures { plain result ≡ plain_brief brief }
{
    match brief {
        ShortRequest::Edit(Edit::Cut { u, v }) => Request::Cut { u, v },
        ShortRequest::Edit(Edit::Add { u, v }) => Request::Add { u, v },
        ShortRequest::Edit(Edit::Join { u, v }) => Request::Join { u, v },
        ShortRequest::Destination(dest) => Request::Destination { dest },
        ShortRequest::Walk(x) => Request::Walk { x },
        ShortRequest::Ask(question) => Request::Ask(question),
    }
}

/// An edit: `["cut",u,v]`, `["add",u,v]` or `["join",u,v]`.
#[inline(always)]
fn edit_request(word: EditWord, rest: &[u8]) -> Option<ShortRequest>
    ensures { IfSome result (λ brief. IsReadAs (letters_of_edit word) rest.now (plain_brief brief)) }
{
    let (edit, behind) = edit_after(word, rest)?;
    is_only_space(behind).then_some(ShortRequest::Edit(edit))
}

/// Another destination: `["dest",d]`.
#[inline(always)]
fn destination_request(rest: &[u8]) -> Option<ShortRequest>
    ensures { IfSome result (λ brief. IsReadAs (letters Destination) rest.now (plain_brief brief)) }
{
    let dest = last_number(rest)?;
    Some(ShortRequest::Destination(dest))
}

/// A walk: `["walk",x]`.
#[inline(always)]
fn walk_request(rest: &[u8]) -> Option<ShortRequest>
    ensures { IfSome result (λ brief. IsReadAs (letters Walk) rest.now (plain_brief brief)) }
{
    let x = last_number(rest)?;
    Some(ShortRequest::Walk(x))
}

/// The number after a comma, if only the bracket of the line follows it.
#[inline(always)]
fn last_number(rest: &[u8]) -> Option<u32>
    ensures { IfSome result (λ n. Begins rest.now (comma ∷ number_lexeme n ∷ token end_array ∷ []) []) }
{
    let (n, behind) = number_before(b']', skip_mark(b',', rest)?)?;
    is_only_space(behind).then_some(n)
}

/// A question about all nodes: `["links"]`, `["counts"]`, `["hops"]` or `["ways"]`.
#[inline(always)]
fn short_question(question: Question, rest: &[u8]) -> Option<ShortRequest>
    ensures { IfSome result (λ brief. IsReadAs (letters (Ask question)) rest.now (plain_brief brief)) }
{
    ends_line(b']', rest).then_some(ShortRequest::Ask(question))
}

/// A network with at least one link: `["net",n,d,[[u,v],..]]`.
#[inline(never)]
fn network_request(alloc: Global, rest: &[u8]) -> Result<Option<Request>, LineFault>
    ensures ok { IfOk result (λ found. IfSome found (λ request. IsReadAs (letters Network) rest.now (plain request))) }
    ensures refused { IfErr result (λ fault. fault ≡ Memory) }
{
    let Some((nodes, dest, items)) = network_head(rest) else {
        return Ok(None);
    };
    match items_to_end(alloc, items)? {
        Some(links) => Ok(Some(Request::Network { nodes, dest, links })),
        None => Ok(None),
    }
}

/// The number of nodes and the destination of a network, and the text after the bracket that opens its links.
fn network_head(rest: &[u8]) -> Option<(u32, u32, &[u8])>
    ensures { IfSome result
        (λ head. Begins rest.now (comma ∷ number_lexeme head.0 ∷ comma ∷ number_lexeme head.1 ∷ comma
        ∷ token begin_array ∷ []) head.2.now) }
{
    let (nodes, rest) = number_before(b',', skip_mark(b',', rest)?)?;
    let (dest, rest) = number_before(b',', rest)?;
    Some((nodes, dest, skip_mark(b'[', rest)?))
}

/// A batch with at least one edit: `["batch",[["cut",u,v],..]]`.
#[inline(never)]
fn batch_request(alloc: Global, rest: &[u8]) -> Result<Option<Request>, LineFault>
    ensures ok { IfOk result (λ found. IfSome found (λ request. IsReadAs (letters Batch) rest.now (plain request))) }
    ensures refused { IfErr result (λ fault. fault ≡ Memory) }
{
    let Some(items) = batch_head(rest) else {
        return Ok(None);
    };
    match items_to_end(alloc, items)? {
        Some(edits) => Ok(Some(Request::Batch { edits })),
        None => Ok(None),
    }
}

/// The text after the bracket that opens the edits of a batch.
fn batch_head(rest: &[u8]) -> Option<&[u8]>
    ensures { IfSome result (λ items. Begins rest.now (comma ∷ token begin_array ∷ []) items.now) }
{
    skip_mark(b'[', skip_mark(b',', rest)?)
}
