//! The codes of places.
ghost use Rattle.std.specs.Prelude.{◌≡◌, ◌++◌, ◌≤◌, not, ◌==◌, length, take_while, None, Some};
ghost use Rattle.std.specs.Prelude.{OnOk, OnErr, MatchResult, string_bytes, ◌<◌, MatchOption};
ghost use Rattle.std.specs.List.{list_all};
ghost use Rattle.codes_core.specs.Place.{is_segment, is_segment_byte, is_place_shape, place_fault};
ghost use Rattle.codes_core.specs.Place.{lies_in, ends_segment};

use crate::fault::test;
use crate::spelling::Spelling;
use crate::{CodeFault, NoMemory};
use std::alloc::Global;
use std::marker::Model;

/// A place's code (`S1-A`): one to four segments joined by dashes, from the building down to the
/// shelf. A segment is 1 to 8 of `A` to `Z` and `0` to `9`. Contracts see the code as its bytes.
#[derive(Clone, Copy, Debug, PartialEq, Eq, Hash)]
pub struct PlaceCode {
    // at most four segments of 8 bytes and three dashes
    spelling: Spelling<35>,
}

impl Model for PlaceCode {
    ghost use Rattle.std.specs.Prelude.{List, ℕ, ◌≡◌, None};
    ghost use Rattle.codes_core.specs.Place.{place_fault};

    ghost Value = { List ℕ };

    ghost view = { λ c. c.spelling };

    ghost invariant = { λ c. place_fault c.spelling ≡ None };

    ghost inverse = { λ v. record { spelling = v } };
}

impl PlaceCode {
    /// Returns the code that the bytes spell. Fails with the first of `Empty` and `BadShape` that
    /// applies.
    pub fn parse(bytes: &[u8]) -> Result<PlaceCode, CodeFault>
        // The code is the bytes themselves. Parsing fails only for bytes that are not a code.
        ensures exact { MatchResult result
            (λ code. (code ≡ bytes.now) × (place_fault bytes.now ≡ None))
            (λ fault. place_fault bytes.now ≡ Some fault) }
    {
        // A place's code has no numbers that could be wrong.
        let numbers = is_place_shape(bytes, 4).then_some(true);
        test(bytes, numbers)?;
        Ok(PlaceCode {
            spelling: Spelling::new(bytes),
        })
    }

    /// The code as text.
    pub fn as_str(&self) -> &str
        ensures text { result.now ≡ self.now }
        ensures code { place_fault self.now ≡ None }
    {
        self.spelling.as_str()
    }

    /// The code with room for only `K` bytes, or `None` if it is longer.
    pub fn shortened<const K: usize>(&self) -> Option<Spelling<K>>
        requires { K ≤ 35 }
        ensures { MatchOption result (K < length self.now)
            (λ short. (short ≡ self.now) × (place_fault self.now ≡ None)) }
    {
        self.spelling.shortened()
    }

    /// The code as bytes.
    pub fn as_bytes(&self) -> &[u8]
        ensures text { result.now ≡ self.now }
        ensures code { place_fault self.now ≡ None }
    {
        self.spelling.as_bytes()
    }

    /// Appends the code. Fails with `NoMemory`, and then `out` is unchanged.
    pub fn write(&self, _alloc: Global, out: &mut String) -> Result<(), NoMemory>
        ensures ok { OnOk result (string_bytes out.new ≡ string_bytes out.old ++ self.now) }
        ensures err { OnErr result (string_bytes out.new ≡ string_bytes out.old) }
    {
        self.spelling.write(out)
    }

    /// Whether this place is `other` or lies in it: `S1-A` lies in `S1`, and `S10` does not.
    pub fn lies_in(&self, other: &PlaceCode) -> bool
        ensures { result ≡ lies_in self.now other.now }
    {
        lies_in(self.spelling.as_bytes(), other.spelling.as_bytes())
    }
}

fn lies_in(place: &[u8], other: &[u8]) -> bool
    ensures { result ≡ lies_in place.now other.now }
{
    match place.strip_prefix(other) {
        None => false,
        Some(behind) => ends_segment(behind),
    }
}

/// Whether a segment ends before this text: it is empty, or starts with a dash.
fn ends_segment(behind: &[u8]) -> bool
    ensures { result ≡ ends_segment behind.now }
{
    match behind {
        [] => true,
        [b, ..] => *b == b'-',
    }
}

/// The number of bytes before the first dash.
fn segment_length(text: &[u8]) -> usize
    ensures count { result ≡ length (take_while (λ b. not (b == 45)) text.now) }
    ensures within { result ≤ length text.now }
{
    text.iter().take_while(|b| **b != b'-').count()
}

fn are_segment_bytes(text: &[u8]) -> bool
    ensures { result ≡ list_all is_segment_byte text.now }
{
    text.iter()
        .all(|b| b.is_ascii_uppercase() || b.is_ascii_digit())
}

fn is_segment(text: &[u8]) -> bool
    ensures { result ≡ is_segment text.now }
{
    !text.is_empty() && text.len() <= 8 && are_segment_bytes(text)
}

fn is_place_shape(text: &[u8], segments: u32) -> bool
    ensures { result ≡ is_place_shape segments text.now }
{
    if segments == 0 {
        return false;
    }
    let (first, rest) = text.split_at(segment_length(text));
    if !is_segment(first) {
        return false;
    }
    match rest {
        [] => true,
        [_, after @ ..] => is_place_shape(after, segments - 1),
    }
}
