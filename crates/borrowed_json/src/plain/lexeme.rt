//! Takes lexemes off the front of a text.
ghost use Rattle.std.specs.Prelude.{◌≡◌, ◌≢◌, ◌<◌, ◌≤◌, ◌∷◌, []};
ghost use Rattle.std.specs.Prelude.{List, ℕ, true, length, drop, MatchOption, IsTrue};
ghost use Rattle.json.specs.Token.{string};
ghost use Rattle.json.specs.Word.{head, is_operator, is_space};
ghost use Rattle.json.specs.Lex.{token, between, lex, class, operator_lexeme};
ghost use Rattle.json.specs.Align.{is_blank};
ghost use Rattle.borrowed_json.specs.Plain.{IsPlain};
ghost use Rattle.borrowed_json.specs.Steps.{Takes, Lacks};

use crate::plain::run::plain_len;

/// The text after its first byte, if that is this ASCII byte.
#[inline(always)]
fn after_byte(text: &str, byte: u8) -> Option<&str>
    requires { byte < 128 }
    ensures { MatchOption result ((rest : List ℕ) → text.now ≢ byte ∷ rest)
        (λ rest. text.now ≡ byte ∷ rest.now) }
{
    let bytes = text.as_bytes();
    if bytes.is_empty() {
        return None;
    }
    if bytes[0] != byte {
        return None;
    }
    Some(&text[1..])
}

/// The text from its first lexeme on.
#[inline(always)]
pub(crate) fn from_lexeme(text: &str) -> &str
    ensures lexemes { lex between result.now ≡ lex between text.now }
    ensures plain { IsPlain text.now → IsPlain result.now }
    ensures shorter { length result.now ≤ length text.now }
    ensures begins { is_blank (class (head result.now)) ≡ true → result.now ≡ [] }
{
    match after_space(text) {
        Some(rest) => after_spaces(rest),
        None => text,
    }
}

/// The same, out of line: most texts have no spaces between lexemes.
#[cold]
#[inline(never)]
fn after_spaces(text: &str) -> &str
    ensures lexemes { lex between result.now ≡ lex between text.now }
    ensures plain { IsPlain text.now → IsPlain result.now }
    ensures shorter { length result.now ≤ length text.now }
    ensures begins { is_blank (class (head result.now)) ≡ true → result.now ≡ [] }
{
    let mut left = text;
    while let Some(rest) = after_space(left) {
        left = rest;
    }
    left
}

/// The text after its first byte, if that is a space, a tab, a line feed or a carriage return.
#[inline(always)]
fn after_space(text: &str) -> Option<&str>
    ensures { MatchOption result (is_blank (class (head text.now)) ≡ true → text.now ≡ [])
        (λ rest. (lex between rest.now ≡ lex between text.now)
        × (IsPlain text.now → IsPlain rest.now) × (length rest.now < length text.now)) }
{
    let bytes = text.as_bytes();
    if bytes.is_empty() {
        return None;
    }
    if !is_space(bytes[0]) {
        return None;
    }
    Some(&text[1..])
}

/// Whether a byte is a space, a tab, a line feed or a carriage return.
#[inline(always)]
pub(crate) fn is_space(byte: u8) -> bool
    ensures space { result ≡ is_space byte }
    ensures blank { result ≡ is_blank (class byte) }
    ensures ascii { IsTrue result → byte < 128 }
{
    (byte == b' ') | (byte == b'\t') | (byte == b'\n') | (byte == b'\r')
}

/// The text after its first lexeme, if that is this bracket, comma or colon.
#[inline(always)]
pub(crate) fn after(text: &str, operator: u8) -> Option<&str>
    requires { is_operator operator ≡ true }
    ensures { MatchOption result (Lacks text.now (operator_lexeme operator))
        (λ rest. Takes text.now (operator_lexeme operator) rest.now) }
{
    let Some(rest) = after_byte(from_lexeme(text), operator) else {
        return None;
    };
    Some(rest)
}

/// The text of the string that is the first lexeme, and the rest. Returns `None` if there is no
/// string, or if the string has an escape.
#[inline(always)]
pub(crate) fn string(text: &str) -> Option<(&str, &str)>
    ensures { MatchOption result
        (IsPlain text.now → (s : List ℕ) → Lacks text.now (token (string s)))
        (λ r. Takes text.now (token (string r.0.now)) r.1.now) }
{
    let Some(inside) = after_byte(from_lexeme(text), b'"') else {
        return None;
    };
    let end = plain_len(inside);
    let Some(rest) = after_byte(&inside[end..], b'"') else {
        return None;
    };
    Some((&inside[..end], rest))
}
