//! Reads the numbers of a JSON text.
ghost use Rattle.std.specs.Prelude.{◌≡◌, ◌==◌, ◌<◌, length, true, false, IsTrue};
ghost use Rattle.std.specs.Prelude.{IfSome, option_map, slice_index};
ghost use Rattle.std.specs.Str.Parse.{IsNumeral, digits_value};
ghost use Rattle.serde_json.specs.Read.{number_of, number_from, float_of};
ghost use Rattle.serde_json.specs.View.{number_view};

use fast_float::{Numeral, parse_u64};
use serde_json::Number;

/// The number of a JSON number token, or `None` if it is out of range. Most tokens are only digits,
/// so these are tried first.
pub(crate) fn number_of(text: &str) -> Option<Number>
    ensures { option_map number_view result ≡ number_of text.now }
{
    let bytes = text.as_bytes();
    if let Some(n) = digits_alone(bytes) {
        return Number::from_u128(n as u128);
    }
    if has_minus(bytes) {
        negative(&Numeral::scan(&bytes[1..]))
    } else {
        unsigned(&Numeral::scan(bytes))
    }
}

/// The number, if the token is only digits and fits 64 bits. After `None`, the token is read in
/// full.
fn digits_alone(bytes: &[u8]) -> Option<u64>
    ensures { IfSome result (λ n. IsNumeral 10 bytes.now × (n ≡ digits_value 10 bytes.now)) }
{
    if bytes.starts_with(b"+") {
        return None;
    }
    parse_u64(bytes).ok()
}

/// The number without a sign: whole if it fits 64 bits, otherwise the nearest float.
fn unsigned(numeral: &Numeral<'_>) -> Option<Number>
    ensures { option_map number_view result ≡ number_from false numeral.now }
{
    match numeral.to_u64() {
        Some(n) => Number::from_u128(n as u128),
        None => nearest(false, numeral),
    }
}

/// The number after a minus sign: whole if it fits 64 bits and isn't 0, otherwise the nearest
/// float.
fn negative(numeral: &Numeral<'_>) -> Option<Number>
    ensures { option_map number_view result ≡ number_from true numeral.now }
{
    if let Some(n) = numeral.to_i64(true) {
        if n < 0 {
            return Number::from_i128(n as i128);
        }
    }
    nearest(true, numeral)
}

/// The nearest float, or `None` if it isn't finite.
fn nearest(negative: bool, numeral: &Numeral<'_>) -> Option<Number>
    ensures { option_map number_view result ≡ float_of negative numeral.now }
{
    Number::from_f64(numeral.to_float::<f64>(negative))
}

/// Whether the text starts with a minus sign.
fn has_minus(bytes: &[u8]) -> bool
    ensures value { result ≡ (slice_index bytes.now 0 == 45) }
    ensures len { IsTrue result → 0 < length bytes.now }
{
    !bytes.is_empty() && bytes[0] == b'-'
}
