//! The front of a JSON text, read by its bytes: white space, a mark, a number.

ghost use Rattle.std.specs.Prelude.{◌≡◌, ◌<◌, ◌∷◌, ◌++◌, [], true, IfSome, decimal};
ghost use Rattle.json.specs.Lex.{operator_lexeme};
ghost use Rattle.json.specs.Word.{is_operator};
ghost use Rattle.fr_requests.specs.LineLexemes.{unspaced, Begins, number_lexeme};

/// A number greater than this is too large once another digit follows it.
const TENTH: u64 = 429_496_729;

/// The text after any white space at its front. Most lines have none.
#[inline(always)]
pub(crate) fn skip_space(text: &[u8]) -> &[u8]
    ensures { result.now ≡ unspaced text.now }
{
    match text {
        [] | [b'!'..=u8::MAX, ..] => text,
        _ => skip_some_space(text),
    }
}

/// The text after white space. It is not inlined, so that it does not slow down lines without white space.
#[inline(never)]
fn skip_some_space(text: &[u8]) -> &[u8]
    ensures { result.now ≡ unspaced text.now }
{
    let mut rest = text;
    'spaces: while let [b' ' | b'\t' | b'\n' | b'\r', behind @ ..] = rest {
        rest = behind;
    }
    rest
}

/// The text after this mark, if the mark comes next.
#[inline(always)]
pub(crate) fn skip_mark(mark: u8, text: &[u8]) -> Option<&[u8]>
    requires { is_operator mark ≡ true }
    ensures bytes { IfSome result (λ behind. unspaced text.now ≡ mark ∷ behind.now) }
    ensures read { IfSome result (λ behind. Begins text.now (operator_lexeme mark ∷ []) behind.now) }
{
    match text {
        [first, behind @ ..] if *first == mark => Some(behind),
        [] | [b'!'..=u8::MAX, ..] => None,
        _ => skip_space_and_mark(mark, text),
    }
}

/// The text after this mark, if the mark comes next after white space.
#[inline(always)]
fn skip_space_and_mark(mark: u8, text: &[u8]) -> Option<&[u8]>
    ensures { IfSome result (λ behind. unspaced text.now ≡ mark ∷ behind.now) }
{
    match skip_some_space(text) {
        [first, behind @ ..] if *first == mark => Some(behind),
        _ => None,
    }
}

/// Whether only white space is left.
#[inline(always)]
pub(crate) fn is_only_space(text: &[u8]) -> bool
    ensures bytes { result ≡ true → unspaced text.now ≡ [] }
    ensures read { result ≡ true → Begins text.now [] [] }
{
    skip_space(text).is_empty()
}

/// Whether only this mark and white space are left.
pub(crate) fn ends_line(mark: u8, text: &[u8]) -> bool
    requires { is_operator mark ≡ true }
    ensures { result ≡ true → Begins text.now (operator_lexeme mark ∷ []) [] }
{
    match skip_mark(mark, text) {
        Some(behind) => is_only_space(behind),
        None => false,
    }
}

/// The number that comes next, and the text after the mark, if this mark follows the number.
#[inline(always)]
pub(crate) fn number_before(mark: u8, text: &[u8]) -> Option<(u32, &[u8])>
    requires { is_operator mark ≡ true }
    ensures { IfSome result (λ next. Begins text.now (number_lexeme next.0 ∷ operator_lexeme mark ∷ []) next.1.now) }
{
    let (n, rest) = number(skip_space(text))?;
    let behind = skip_mark(mark, rest)?;
    Some((n, behind))
}

/// The number at the front, and the text after it.
#[inline(always)]
pub(crate) fn number(text: &[u8]) -> Option<(u32, &[u8])>
    ensures { IfSome result (λ next. text.now ≡ decimal next.0 ++ next.1.now) }
{
    match text {
        [b'0', behind @ ..] => Some((0, behind)),
        [first @ b'1'..=b'9', behind @ ..] => more_digits(u32::from(first - b'0'), behind),
        _ => None,
    }
}

/// The number whose first digits are those of `start` and whose other digits come next, and the text after it.
#[inline(always)]
fn more_digits(start: u32, digits: &[u8]) -> Option<(u32, &[u8])>
    requires { 0 < start }
    ensures { IfSome result (λ next. decimal start ++ digits.now ≡ decimal next.0 ++ next.1.now) }
{
    let mut number = u64::from(start);
    let mut rest = digits;
    'more: while let [digit @ b'0'..=b'9', behind @ ..] = rest {
        if number > TENTH {
            return None;
        }
        number = number * 10 + u64::from(digit - b'0');
        rest = behind;
    }
    Some((u32::try_from(number).ok()?, rest))
}
