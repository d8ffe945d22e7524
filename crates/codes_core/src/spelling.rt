//! A short text that is kept in place, without an allocation.
ghost use Rattle.std.specs.Prelude.{◌≡◌, ◌++◌, ◌≤◌, ◌<◌, ◌-◌, length, replicate, OnOk, OnErr};
ghost use Rattle.std.specs.Prelude.{MatchOption, string_bytes};
ghost use Rattle.std.specs.Str.{bytes_eq, IsAscii};
ghost use Rattle.std.specs.Cmp.Rules.{comparing, hashing};
ghost use Rattle.std.proofs.Common.{rules};

use crate::NoMemory;
use std::fmt;
use std::hash::{Hash, Hasher};
use std::marker::Model;

/// An ASCII text of at most `N` bytes, padded with zeros. Contracts see it as its bytes, without
/// the padding. The length takes only one byte, so `N` must be below 256.
#[derive(Clone, Copy)]
pub struct Spelling<const N: usize> {
    text: [u8; N],
    len: u8,
}

impl<const N: usize> Model for Spelling<N> {
    ghost use Rattle.std.specs.Prelude.{List, ℕ, ◌≤◌, ◌≡◌, ◌-◌, ◌++◌, take, drop, length};
    ghost use Rattle.std.specs.Prelude.{replicate};
    ghost use Rattle.std.specs.Str.{IsAscii};
    ghost use Rattle.codes_core.specs.Padded.{padded-take};

    ghost Value = { List ℕ };

    ghost view = { λ s. take s.len s.text };

    ghost invariant = { λ s. IsAscii (take s.len s.text) × (length s.text ≡ N) × (s.len ≤ N)
        × (drop s.len s.text ≡ replicate (N - s.len) 0) };

    ghost inverse = { λ v. record { text = v ++ replicate (N - length v) 0; len = length v } };

    ghost inverse_ok = { λ a h. padded-take N a h.1 h.2 h.3 };
}

impl<const N: usize> Spelling<N> {
    /// Keeps this text, which must be ASCII of at most `N` bytes. `N` must be below 256.
    pub fn new(text: &[u8]) -> Spelling<N>
        requires fits { length text.now ≤ N }
        requires ascii { IsAscii text.now }
        requires short { N < 256 }
        ensures { result ≡ text.now }
    {
        Spelling {
            text: padded(text),
            len: text.len() as u8,
        }
    }

    /// The text with room for only `K` bytes, or `None` if it is longer.
    pub(crate) fn shortened<const K: usize>(&self) -> Option<Spelling<K>>
        requires { K ≤ N }
        ensures { MatchOption result (K < length self.now) (λ short. short ≡ self.now) }
    {
        if self.len as usize > K {
            return None;
        }
        let mut text = [0u8; K];
        text.copy_from_slice(&self.text[..K]);
        Some(Spelling {
            text,
            len: self.len,
        })
    }

    /// The text as bytes, without the padding.
    pub fn as_bytes(&self) -> &[u8]
        ensures { result.now ≡ self.now }
    {
        &self.text[..self.len as usize]
    }

    /// The text.
    pub fn as_str(&self) -> &str
        ensures { result.now ≡ self.now }
    {
        str::from_utf8(&self.text[..self.len as usize]).unwrap()
    }

    /// Appends the text. Fails with `NoMemory`, and then `out` is unchanged.
    pub fn write(&self, out: &mut String) -> Result<(), NoMemory>
        ensures ok { OnOk result (string_bytes out.new ≡ string_bytes out.old ++ self.now) }
        ensures err { OnErr result (string_bytes out.new ≡ string_bytes out.old) }
    {
        out.push_str(self.as_str())?;
        Ok(())
    }
}

/// The text, padded with zeros.
fn padded<const N: usize>(text: &[u8]) -> [u8; N]
    requires { length text.now ≤ N }
    ensures { result ≡ text.now ++ replicate (N - length text.now) 0 }
{
    let mut all = [0u8; N];
    all[..text.len()].copy_from_slice(text);
    all
}

impl<const N: usize> PartialEq for Spelling<N> {
    ghost eq = { bytes_eq };

    ghost laws = { Prim.search (comparing, rules) };

    fn eq(&self, other: &Spelling<N>) -> bool {
        self.as_bytes() == other.as_bytes()
    }
}

impl<const N: usize> Eq for Spelling<N> {
    ghost laws = { Prim.search (comparing, rules) };
}

/// Hashes the text as one slice, so that a hasher can read it in whole words.
impl<const N: usize> Hash for Spelling<N> {
    ghost use Rattle.std.specs.Prelude.{◌∷◌, []};

    ghost hash_input = { λ text. text ∷ [] };

    ghost respects_eq = { Prim.search (hashing, rules) };

    fn hash<H: Hasher>(&self, state: &mut H) {
        state.write(self.as_bytes());
    }
}

impl<const N: usize> fmt::Debug for Spelling<N> {
    ghost use Rattle.std.specs.Prelude.{Some};

    ghost debug_output = { λ text. Some text };

    fn fmt<W: fmt::Write>(&self, f: &mut fmt::Formatter<W>) -> fmt::Result {
        f.write_str(self.as_str())
    }
}
