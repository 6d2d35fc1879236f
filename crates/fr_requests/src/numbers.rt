//! Numbers of JSON, as `serde_json` reads them.

ghost use Rattle.std.specs.Prelude.{◌≡◌, ◌==◌, ◌<◌, IsTrue, is_some, length, option_and_then, slice_index};
ghost use Rattle.std.specs.Prelude.{true, false};
ghost use Rattle.fast_float.specs.Text.{Parts};
ghost use Rattle.json.specs.Value.{items_view, members_view, value_view};
ghost use Rattle.serde_json.specs.Find.{as_u64};
ghost use Rattle.serde_json.specs.Read.{number_from, number_of};
ghost use Rattle.fr_requests.specs.Values.{are_items_readable, are_members_readable, is_json_readable};

use fast_float::Numeral;
use json::Value;

/// Whether a number begins with a minus.
#[inline(always)]
fn has_minus(number: &[u8]) -> bool
    ensures value { result ≡ (slice_index number.now 0 == 45) }
    ensures some { IsTrue result → 0 < length number.now }
{
    !number.is_empty() && number[0] == b'-'
}

/// The value of a number without a sign, a fraction and an exponent, if it is below 2^64.
#[inline(always)]
pub(crate) fn natural(text: &str) -> Option<u64>
    ensures { result ≡ option_and_then as_u64 (number_of text.now) }
{
    let number = text.as_bytes();
    if has_minus(number) {
        return None;
    }
    unsigned_natural(&Numeral::scan(number))
}

/// What [`natural`] returns for a number that begins with no minus.
#[inline(always)]
fn unsigned_natural(numeral: &Numeral<'_>) -> Option<u64>
    ensures { result ≡ option_and_then as_u64 (number_from false numeral.now) }
{
    numeral.to_u64()
}

/// Whether `serde_json` reads a number: not if it is too large for a float.
fn is_in_range(text: &str) -> bool
    ensures { result ≡ is_some (number_of text.now) }
{
    let number = text.as_bytes();
    if has_minus(number) {
        is_negative_in_range(&Numeral::scan(&number[1..]))
    } else {
        is_unsigned_in_range(&Numeral::scan(number))
    }
}

/// Whether `serde_json` reads a number that begins with no minus.
#[inline(always)]
fn is_unsigned_in_range(numeral: &Numeral<'_>) -> bool
    ensures { result ≡ is_some (number_from false numeral.now) }
{
    numeral.to_u64().is_some() || numeral.to_float::<f64>(false).is_finite()
}

/// Whether `serde_json` reads a number whose digits follow a minus.
fn is_negative_in_range(numeral: &Numeral<'_>) -> bool
    ensures { result ≡ is_some (number_from true numeral.now) }
{
    match numeral.to_i64(true) {
        Some(n) if n < 0 => true,
        _ => numeral.to_float::<f64>(true).is_finite(),
    }
}

/// Whether `serde_json` reads each number of a value.
#[cycle(readable)]
pub(crate) fn is_readable(value: &Value<'_>) -> bool
    ensures { result ≡ is_json_readable (value_view value.now) }
{
    match value {
        Value::Number(text) => is_in_range(text),
        Value::Array(items) => are_readable(items),
        Value::Object(members) => have_readable_values(members),
        Value::Null | Value::Bool(_) | Value::String(_) => true,
    }
}

/// Whether `serde_json` reads each number of the items of an array.
#[cycle(readable)]
fn are_readable(items: &[Value<'_>]) -> bool
    ensures { result ≡ are_items_readable (items_view items.now) }
{
    for item in items {
        if !is_readable(item) {
            return false;
        }
    }
    true
}

/// Whether `serde_json` reads each number of the members of an object.
#[cycle(readable)]
fn have_readable_values(members: &[(&str, Value<'_>)]) -> bool
    ensures { result ≡ are_members_readable (members_view members.now) }
{
    for member in members {
        if !is_readable(&member.1) {
            return false;
        }
    }
    true
}
