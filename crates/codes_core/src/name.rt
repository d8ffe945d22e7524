//! Names of people who authorise a loan or sign a station off.
ghost use Rattle.std.specs.Prelude.{◌≡◌, ◌++◌, OnOk, OnErr, IfOk, MatchResult, string_bytes};
ghost use Rattle.codes_core.specs.Name.{IsName, IsNameFault, is_name_byte};
ghost use Rattle.std.specs.List.{list_all};

use crate::{LONGEST_NAME, NameFault, NoMemory};
use std::alloc::Global;
use std::marker::Model;

/// A person's name as it was written: UTF-8 of 1 to 60 bytes ([`LONGEST_NAME`]), none of them below
/// 32 or equal to 127. Contracts see it as its bytes.
#[derive(Debug, Drop)]
pub struct Name {
    text: String,
}

impl Model for Name {
    ghost use Rattle.std.specs.Prelude.{List, ℕ, string_bytes};
    ghost use Rattle.codes_core.specs.Name.{IsName};

    ghost Value = { List ℕ };

    ghost view = { λ n. string_bytes n.text };

    ghost invariant = { λ n. IsName (string_bytes n.text) };
}

impl Name {
    /// Returns the name with these bytes. Fails with the first of `Empty`, `BadShape` and
    /// `NoMemory` that applies.
    pub fn new(alloc: Global, bytes: &[u8]) -> Result<Name, NameFault>
        // NoMemory can come for any bytes that are a name, and for no others.
        ensures exact { MatchResult result (λ name. (name ≡ bytes.now) × IsName bytes.now)
            (λ fault. IsNameFault fault bytes.now) }
    {
        if bytes.is_empty() {
            return Err(NameFault::Empty);
        }
        if bytes.len() > LONGEST_NAME || !are_name_bytes(bytes) {
            return Err(NameFault::BadShape);
        }
        match str::from_utf8(bytes) {
            Ok(text) => Ok(Name {
                text: String::from_str(alloc, text)?,
            }),
            Err(_) => Err(NameFault::BadShape),
        }
    }

    /// The name's text.
    pub fn as_str(&self) -> &str
        ensures text { result.now ≡ self.now }
        ensures name { IsName self.now }
    {
        self.text.as_str()
    }

    /// Returns a copy. Fails with `NoMemory`.
    pub fn copy(&self, alloc: Global) -> Result<Name, NoMemory>
        ensures { IfOk result (λ copy. copy ≡ self.now) }
    {
        Ok(Name {
            text: String::from_str(alloc, self.text.as_str())?,
        })
    }

    /// Appends the name. Fails with `NoMemory`, and then `out` is unchanged.
    pub fn write(&self, _alloc: Global, out: &mut String) -> Result<(), NoMemory>
        ensures ok { OnOk result (string_bytes out.new ≡ string_bytes out.old ++ self.now) }
        ensures err { OnErr result (string_bytes out.new ≡ string_bytes out.old) }
    {
        out.push_str(self.text.as_str())?;
        Ok(())
    }
}

fn are_name_bytes(text: &[u8]) -> bool
    ensures { result ≡ list_all is_name_byte text.now }
{
    text.iter().all(|b| *b >= 32 && *b != 127)
}
