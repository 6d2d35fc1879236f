//! The words that begin requests and edits, by the bytes of a line.

ghost use Rattle.std.specs.Prelude.{◌≡◌, ◌∷◌, ◌++◌, [], IfSome};
ghost use Rattle.fr_requests.specs.LineLexemes.{Begins, letters, opening};

use crate::fronts::{skip_mark, skip_space};
use crate::requests::Question;

/// The word of a request.
#[derive(Clone, Copy)]
pub(crate) enum Word {
    Network,
    Edit(EditWord),
    Batch,
    Destination,
    Walk,
    Ask(Question),
}

/// The word of an edit.
#[derive(Clone, Copy)]
pub(crate) enum EditWord {
    Cut,
    Add,
    Join,
}

/// The word at the start of the array at the front, and the text after it.
#[inline(always)]
pub(crate) fn opening_word(text: &[u8]) -> Option<(Word, &[u8])>
    ensures { IfSome result (λ next. Begins text.now (opening (letters next.0)) next.1.now) }
{
    let (word, rest) = word_at_front(skip_space(skip_mark(b'[', text)?))?;
    Some((word, rest))
}

/// The word in quotes at the front, and the text after its quotes.
#[inline(always)]
fn word_at_front(text: &[u8]) -> Option<(Word, &[u8])>
    ensures { IfSome result (λ next. text.now ≡ (34 ∷ (letters next.0 ++ 34 ∷ [])) ++ next.1.now) }
{
    let [b'"', quoted @ ..] = text else {
        return None;
    };
    match quoted {
        [..=b'c', ..] => word_from_a_to_c(quoted),
        [..=b'l', ..] => word_from_d_to_l(quoted),
        _ => word_from_n_to_w(quoted),
    }
}

// Each word is compared as a constant, which costs a few instructions. `strip_prefix` would call a function that
// compares texts of any length. The words are in three functions, because the proof of one with all words takes long.

/// A word from `add` to `cut` with a quote behind it, and the text after the quote.
#[inline(always)]
fn word_from_a_to_c(text: &[u8]) -> Option<(Word, &[u8])>
    ensures { IfSome result (λ next. text.now ≡ (letters next.0 ++ 34 ∷ []) ++ next.1.now) }
{
    match text {
        [b'a', b'd', b'd', b'"', rest @ ..] => Some((Word::Edit(EditWord::Add), rest)),
        [b'b', b'a', b't', b'c', b'h', b'"', rest @ ..] => Some((Word::Batch, rest)),
        [b'c', b'u', b't', b'"', rest @ ..] => Some((Word::Edit(EditWord::Cut), rest)),
        [b'c', b'o', b'u', b'n', b't', b's', b'"', rest @ ..] => Some((
            Word::Ask(Question::Counts),
            rest,
        )),
        _ => None,
    }
}

/// A word from `dest` to `links` with a quote behind it, and the text after the quote.
#[inline(always)]
fn word_from_d_to_l(text: &[u8]) -> Option<(Word, &[u8])>
    ensures { IfSome result (λ next. text.now ≡ (letters next.0 ++ 34 ∷ []) ++ next.1.now) }
{
    match text {
        [b'd', b'e', b's', b't', b'"', rest @ ..] => Some((Word::Destination, rest)),
        [b'h', b'o', b'p', b's', b'"', rest @ ..] => Some((Word::Ask(Question::Hops), rest)),
        [b'j', b'o', b'i', b'n', b'"', rest @ ..] => Some((Word::Edit(EditWord::Join), rest)),
        [b'l', b'i', b'n', b'k', b's', b'"', rest @ ..] => Some((Word::Ask(Question::Links), rest)),
        _ => None,
    }
}

/// A word from `net` to `ways` with a quote behind it, and the text after the quote.
#[inline(always)]
fn word_from_n_to_w(text: &[u8]) -> Option<(Word, &[u8])>
    ensures { IfSome result (λ next. text.now ≡ (letters next.0 ++ 34 ∷ []) ++ next.1.now) }
{
    match text {
        [b'n', b'e', b't', b'"', rest @ ..] => Some((Word::Network, rest)),
        [b'w', b'a', b'l', b'k', b'"', rest @ ..] => Some((Word::Walk, rest)),
        [b'w', b'a', b'y', b's', b'"', rest @ ..] => Some((Word::Ask(Question::Ways), rest)),
        _ => None,
    }
}
