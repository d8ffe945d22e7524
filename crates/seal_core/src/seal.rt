//! Seals and their text.
ghost use Rattle.std.specs.Prelude.{◌≡◌, IfOk, string_bytes};
ghost use Rattle.seal_core.specs.Seals.{check_text, seal_text};

use codes_core::NoMemory;
use posting_core::EntryNo;
use std::alloc::Global;

/// The seal of the first entries of a record.
#[derive(Clone, Copy, Debug, PartialEq, Eq)]
pub struct Seal {
    /// The number of entries that are sealed, which is also the number of the last one.
    pub entries: EntryNo,
    /// The head of the tree of their lines: 32 bytes of SHA-256.
    pub head: [u8; 32],
}

/// Returns a seal as a line without a line feed: `80000 sha256:1029..`, with the 64 hexadecimal
/// digits of the head in lower case. Fails with `NoMemory`.
pub fn seal_text(alloc: Global, seal: &Seal) -> Result<String, NoMemory>
    ensures { IfOk result (λ text. string_bytes text ≡ seal_text seal.now) }
{
    let entries = seal.entries;
    let digits = hex::encode(alloc, seal.head)?;
    Ok(format!(in alloc; "{entries} sha256:{digits}")?)
}

/// Returns the line that reports a check of a seal, without a line feed: `80000 holds` or
/// `79000 broken`. Fails with `NoMemory`.
pub fn check_text(alloc: Global, seal: &Seal, holds: bool) -> Result<String, NoMemory>
    ensures { IfOk result (λ text. string_bytes text ≡ check_text seal.now.entries holds) }
{
    let entries = seal.entries;
    let word = if holds { "holds" } else { "broken" };
    Ok(format!(in alloc; "{entries} {word}")?)
}
