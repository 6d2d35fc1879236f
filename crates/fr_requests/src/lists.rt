//! The links of a network and the edits of a batch, as values of JSON and by the bytes of a line.

ghost use Rattle.std.specs.Prelude.{◌≡◌, ◌∷◌, ◌++◌, [], List, Option, IfOk, IfErr, IfSome, true};
ghost use Rattle.serde_json.specs.Data.{Data};
ghost use Rattle.fr_requests.specs.Requests.{edit_in, hop_in, link_in, number_in};
ghost use Rattle.json.specs.Lex.{Lexeme, token, comma};
ghost use Rattle.json.specs.Token.{end_array};
ghost use Rattle.fr_requests.specs.declared.requests.LineFault.TheVariants.{Memory};
ghost use Rattle.fr_requests.specs.LineLexemes.{Begins, Each, AreSmall, HasSmallEnds, letters_of_edit, ends_lexemes};
ghost use Rattle.fr_requests.specs.Values.{view};
ghost use Rattle.fr_requests.specs.LineLexemes.{link_lexemes, edit_lexemes, list_lexemes, word_of, edit_ends};

use crate::fronts::{ends_line, number_before, skip_mark};
use crate::read::{edit, hop, link, number};
use crate::requests::LineFault;
use crate::words::{EditWord, Word, opening_word};
use fr_graph::Edit;
use fr_tables::Hop;
use json::Value;
use std::alloc::Global;

/// An item of a list that is read by its bytes: a link or an edit.
pub(crate) trait Item: Drop {
    ghost lexemes: { Self → List Lexeme };

    ghost IsSmall: { Self → Type 0 };

    /// The item at the front, and the text after it.
    fn parse_front(text: &[u8]) -> Option<(Self, &[u8])>
        ensures read { IfSome result (λ next. Begins text.now (lexemes next.0) next.1.now) }
        ensures small { IfSome result (λ next. IsSmall next.0) };
}

/// An item of a list that is read as a value of JSON: a link, an edit, a hop or a node.
pub(crate) trait OfValue: Drop {
    ghost in_data: { Data → Option Self };

    /// The item that a value of JSON describes.
    fn from_value(value: &Value<'_>) -> Option<Self>
        ensures { result ≡ in_data (view value.now) };
}

impl Item for (u32, u32) {
    ghost lexemes = { link_lexemes };

    ghost IsSmall = { AreSmall };

    #[inline(always)]
    fn parse_front(text: &[u8]) -> Option<((u32, u32), &[u8])> {
        link_ends(skip_mark(b'[', text)?)
    }
}

impl OfValue for (u32, u32) {
    ghost in_data = { link_in };

    fn from_value(value: &Value<'_>) -> Option<(u32, u32)> {
        link(value)
    }
}

impl Item for Edit {
    ghost lexemes = { edit_lexemes };

    ghost IsSmall = { HasSmallEnds };

    #[inline(always)]
    fn parse_front(text: &[u8]) -> Option<(Edit, &[u8])> {
        let (Word::Edit(word), rest) = opening_word(text)? else {
            return None;
        };
        edit_after(word, rest)
    }
}

impl OfValue for Edit {
    ghost in_data = { edit_in };

    fn from_value(value: &Value<'_>) -> Option<Edit> {
        edit(value)
    }
}

impl OfValue for Hop {
    ghost in_data = { hop_in };

    fn from_value(value: &Value<'_>) -> Option<Hop> {
        hop(value)
    }
}

impl OfValue for u32 {
    ghost in_data = { number_in };

    fn from_value(value: &Value<'_>) -> Option<u32> {
        number(value)
    }
}

/// The items of a list, if only the bracket of the list and that of the line follow them.
#[inline(never)]
pub(crate) fn items_to_end<T: Item>(alloc: Global, text: &[u8]) -> Result<Option<Vec<T>>, LineFault>
    ensures ok { IfOk result (λ found. IfSome found (λ items.
        Begins text.now (list_lexemes T.lexemes items.items ++ token end_array ∷ []) [] × Each T.IsSmall items.items)) }
    ensures refused { IfErr result (λ fault. fault ≡ Memory) }
{
    let mut items = Vec::new(alloc);
    let mut rest = text;
    'items: loop {
        let Some((item, behind)) = T::parse_front(rest) else {
            return Ok(None);
        };
        items.push(item)?;
        match skip_mark(b',', behind) {
            Some(next) => rest = next,
            None => return Ok(ends_list(behind).then_some(items)),
        }
    }
}

/// Whether only the closing brackets of a list and of its line are left.
fn ends_list(text: &[u8]) -> bool
    ensures { result ≡ true → Begins text.now (token end_array ∷ token end_array ∷ []) [] }
{
    match skip_mark(b']', text) {
        Some(behind) => ends_line(b']', behind),
        None => false,
    }
}

/// The edit with this word, and the text after its bracket.
#[inline(always)]
pub(crate) fn edit_after(word: EditWord, rest: &[u8]) -> Option<(Edit, &[u8])>
    ensures word { IfSome result (λ next. word_of next.0 ≡ letters_of_edit word) }
    ensures ends { IfSome result (λ next. Begins rest.now (comma ∷ ends_lexemes (edit_ends next.0)) next.1.now) }
    ensures small { IfSome result (λ next. HasSmallEnds next.0) }
{
    let ((u, v), behind) = link_ends(skip_mark(b',', rest)?)?;
    Some((edit_of(word, u, v), behind))
}

/// The edit of a word and two nodes.
#[inline(always)]
fn edit_of(word: EditWord, u: u32, v: u32) -> Edit
    ensures word { word_of result ≡ letters_of_edit word }
    ensures ends { edit_ends result ≡ (u, v) }
{
    match word {
        EditWord::Cut => Edit::Cut { u, v },
        EditWord::Add => Edit::Add { u, v },
        EditWord::Join => Edit::Join { u, v },
    }
}

/// The two ends of a link, and the text after the bracket that closes its array.
#[inline(always)]
fn link_ends(text: &[u8]) -> Option<((u32, u32), &[u8])>
    ensures read { IfSome result (λ next. Begins text.now (ends_lexemes next.0) next.1.now) }
    ensures small { IfSome result (λ next. AreSmall next.0) }
{
    let (u, rest) = number_before(b',', text)?;
    let (v, behind) = number_before(b']', rest)?;
    Some(((u, v), behind))
}
