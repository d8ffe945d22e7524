//! The codes of things.
ghost use Rattle.std.specs.Prelude.{◌≡◌, ◌++◌, None, Some, OnOk, OnErr, MatchResult, string_bytes};
ghost use Rattle.std.specs.Prelude.{◌≤◌, ◌<◌, length, MatchOption};
ghost use Rattle.codes_core.specs.Grammar.{is_digits, is_right_number, numbers_of};
ghost use Rattle.codes_core.specs.Thing.{thing_kind, without_letter, is_object_shape};
ghost use Rattle.codes_core.specs.Thing.{has_object_numbers, is_thing_shape, has_thing_numbers};
ghost use Rattle.codes_core.specs.Thing.{thing_fault};

use crate::digits::{is_digits, is_right_number};
use crate::fault::test;
use crate::groups::numbers_of;
use crate::spelling::Spelling;
use crate::{CodeFault, NoMemory};
use std::alloc::Global;
use std::marker::Model;

/// The kinds of things.
#[derive(Clone, Copy, Debug, PartialEq, Eq)]
pub enum ThingKind {
    /// An object that the museum owns.
    Own,
    /// An object on loan to the museum.
    Borrowed,
    /// A crate, box or tray.
    Container,
}

/// A thing's code. Contracts see it as its bytes.
///
/// - An own object: any four digits, one to three times a dot and a number, and at most one letter
///   `a` to `z` (`2001.4.2a`).
/// - A borrowed object: `L` and the same (`L1999.7`).
/// - A container: `C` and a number (`C17`).
///
/// A number is from 1 to 999,999 without a leading 0.
#[derive(Clone, Copy, Debug, PartialEq, Eq, Hash)]
pub struct ThingCode {
    // at most `L`, four digits, three times a dot and six digits, and a letter
    spelling: Spelling<27>,
}

impl Model for ThingCode {
    ghost use Rattle.std.specs.Prelude.{List, ℕ, ◌≡◌, None};
    ghost use Rattle.codes_core.specs.Thing.{thing_fault};

    ghost Value = { List ℕ };

    ghost view = { λ c. c.spelling };

    ghost invariant = { λ c. thing_fault c.spelling ≡ None };

    ghost inverse = { λ v. record { spelling = v } };
}

impl ThingCode {
    /// Returns the code that the bytes spell. Fails with the first of `Empty`, `BadShape` and
    /// `BadNumber` that applies.
    pub fn parse(bytes: &[u8]) -> Result<ThingCode, CodeFault>
        // The code is the bytes themselves. Parsing fails only for bytes that are not a code.
        ensures exact { MatchResult result
            (λ code. (code ≡ bytes.now) × (thing_fault bytes.now ≡ None))
            (λ fault. thing_fault bytes.now ≡ Some fault) }
    {
        test(bytes, thing_numbers(bytes))?;
        Ok(ThingCode {
            spelling: Spelling::new(bytes),
        })
    }

    /// The code as text.
    pub fn as_str(&self) -> &str
        ensures text { result.now ≡ self.now }
        ensures code { thing_fault self.now ≡ None }
    {
        self.spelling.as_str()
    }

    /// The code with room for only `K` bytes, or `None` if it is longer.
    pub fn shortened<const K: usize>(&self) -> Option<Spelling<K>>
        requires { K ≤ 27 }
        ensures { MatchOption result (K < length self.now)
            (λ short. (short ≡ self.now) × (thing_fault self.now ≡ None)) }
    {
        self.spelling.shortened()
    }

    /// The code as bytes.
    pub fn as_bytes(&self) -> &[u8]
        ensures text { result.now ≡ self.now }
        ensures code { thing_fault self.now ≡ None }
    {
        self.spelling.as_bytes()
    }

    /// Appends the code. Fails with `NoMemory`, and then `out` is unchanged.
    pub fn write(&self, _alloc: Global, out: &mut String) -> Result<(), NoMemory>
        ensures ok { OnOk result (string_bytes out.new ≡ string_bytes out.old ++ self.now) }
        ensures err { OnErr result (string_bytes out.new ≡ string_bytes out.old) }
    {
        self.spelling.write(out)
    }

    /// The kind of the thing, by the first letter of its code.
    pub fn kind(&self) -> ThingKind
        ensures { result ≡ thing_kind self.now }
    {
        match self.spelling.as_bytes() {
            [b'C', ..] => ThingKind::Container,
            [b'L', ..] => ThingKind::Borrowed,
            _ => ThingKind::Own,
        }
    }
}

/// The text without the one letter `a` to `z` that may end it.
fn without_letter(text: &[u8]) -> &[u8]
    ensures { result.now ≡ without_letter text.now }
{
    match text {
        [front @ .., last] if last.is_ascii_lowercase() => front,
        _ => text,
    }
}

/// Whether the numbers in an own object's code are valid. `None` if the text does not have the
/// shape of one.
fn object_numbers(text: &[u8]) -> Option<bool>
    ensures { result ≡ numbers_of (is_object_shape text.now) (has_object_numbers text.now) }
{
    numbers_of(without_letter(text), 3)
}

/// Whether the numbers in a thing's code are valid. `None` if the text does not have the shape of
/// one.
fn thing_numbers(text: &[u8]) -> Option<bool>
    ensures { result ≡ numbers_of (is_thing_shape text.now) (has_thing_numbers text.now) }
{
    match text {
        [] => None,
        [b'C', rest @ ..] => container_number(rest),
        [b'L', rest @ ..] => object_numbers(rest),
        _ => object_numbers(text),
    }
}

/// Whether the number in a container's code, after the `C`, is valid. `None` if it is not digits.
fn container_number(digits: &[u8]) -> Option<bool>
    ensures { result ≡ numbers_of (is_digits digits.now) (is_right_number digits.now) }
{
    if !is_digits(digits) {
        return None;
    }
    Some(is_right_number(digits))
}
