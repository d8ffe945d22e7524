//! Takes a whole number off the front of a text.
ghost use Rattle.std.specs.Prelude.{◌≡◌, ◌<◌, ◌^◌, List, ℕ, Some, MatchOption};
ghost use Rattle.std.specs.List.{prefix_len};
ghost use Rattle.std.specs.Str.Parse.{IsNumeral, digits_value};
ghost use Rattle.std.specs.Char.{is_ascii_digit};
ghost use Rattle.json.specs.Token.{number};
ghost use Rattle.json.specs.Word.{ends_word, is_operator};
ghost use Rattle.json.specs.Lex.{token};
ghost use Rattle.serde_json.specs.Read.{number_of};
ghost use Rattle.serde_json.specs.View.{number_view};
ghost use Rattle.borrowed_json.specs.Plain.{IsPlain};
ghost use Rattle.borrowed_json.specs.Steps.{Takes, Lacks};

use crate::plain::lexeme::{from_lexeme, is_space};
use fast_float::parse_u64;
use json::is_number;
use serde_json::Number;

/// The number that is the first lexeme, and the rest. Returns `None` if there is no number, or if
/// the number has a sign, isn't whole or doesn't fit 64 bits.
#[inline(always)]
pub(crate) fn whole_number(text: &str) -> Option<(Number, &str)>
    ensures { MatchOption result
        (IsPlain text.now → (s : List ℕ) → Lacks text.now (token (number s)))
        (λ r. (s : List ℕ) × Takes text.now (token (number s)) r.1.now
        × (number_of s ≡ Some (number_view r.0))) }
{
    let start = from_lexeme(text);
    let len = digits_len(start);
    let digits = &start[..len];
    let rest = &start[len..];
    if !ends_word(rest) {
        return None;
    }
    if !is_number(digits) {
        return None;
    }
    let Some(n) = digits_alone(digits.as_bytes()) else {
        return None;
    };
    Some((Number::from(n), rest))
}

/// The number, if the text is only digits and fits 64 bits.
fn digits_alone(bytes: &[u8]) -> Option<u64>
    ensures { MatchOption result
        (IsNumeral 10 bytes.now → digits_value 10 bytes.now < 2 ^ 64 → ⊥)
        (λ n. IsNumeral 10 bytes.now × (n ≡ digits_value 10 bytes.now)) }
{
    if bytes.is_empty() {
        return None;
    }
    if bytes[0] == b'+' {
        return None;
    }
    let Ok(n) = parse_u64(bytes) else {
        return None;
    };
    Some(n)
}

/// The number of digits that a text begins with.
#[inline(always)]
fn digits_len(text: &str) -> usize
    ensures { result ≡ prefix_len is_ascii_digit text.now }
{
    let bytes = text.as_bytes();
    let mut len = 0;
    while len < bytes.len() && bytes[len].is_ascii_digit() {
        len += 1;
    }
    len
}

/// Whether a word ends where the text begins: at a bracket, a comma, a colon, a space or the end.
#[inline(always)]
fn ends_word(text: &str) -> bool
    ensures { result ≡ ends_word text.now }
{
    let bytes = text.as_bytes();
    if bytes.is_empty() {
        return true;
    }
    is_operator(bytes[0]) | is_space(bytes[0])
}

/// Whether a byte is a bracket, a comma or a colon.
#[inline(always)]
fn is_operator(byte: u8) -> bool
    ensures { result ≡ is_operator byte }
{
    (byte == b'{')
        | (byte == b'}')
        | (byte == b'[')
        | (byte == b']')
        | (byte == b':')
        | (byte == b',')
}
