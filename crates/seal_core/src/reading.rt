//! Reads the text of a seal.
ghost use Rattle.std.specs.Prelude.{◌≡◌, ◌<◌, ◌^◌, ℕ, List, Ok, Some, IfErr, IfOk, IfSome, decimal};
ghost use Rattle.std.specs.Prelude.{is_some, length};
ghost use Rattle.hex.specs.Hex.{IsBytes, encode_lower};
ghost use Rattle.seal_core.specs.declared.seal.Seal as seals;
ghost use Rattle.seal_core.specs.Readings.{IsFirstFault, IsSeal, digits_part, has_mark};
ghost use Rattle.seal_core.specs.Readings.{number_part};
ghost use Rattle.seal_core.specs.Seals.{seal_text};

use crate::seal::Seal;
use hex::FromHex;
use posting_core::EntryNo;
use thiserror::Error;

/// The text between the number and the digits of a seal.
const MARK: &[u8] = b" sha256:";

/// The length of the mark and the 64 digits.
const TAIL: usize = 72;

/// Why a line is not the text of a seal. If several apply, the first in this order is returned.
#[derive(Clone, Copy, Debug, PartialEq, Eq, Error)]
pub enum LineFault {
    /// The line does not end with a space, `sha256:` and 64 more bytes.
    #[error("not a number, sha256: and 64 digits")]
    NoMark,
    /// The text before them is not a number below 2^32 without leading zeros.
    #[error("not a number of entries")]
    BadNumber,
    /// The 64 bytes are not hexadecimal digits in lower case.
    #[error("not 64 hexadecimal digits in lower case")]
    BadDigits,
}

/// Reads a line, without its line feed, that [`seal_text`](crate::seal_text) wrote. Rejects any
/// other.
///
/// Faults, in this order: `NoMark`, `BadNumber`, `BadDigits`.
pub fn read_seal(line: &[u8]) -> Result<Seal, LineFault>
    ensures reads { IfOk result (λ seal. seal_text seal ≡ line.now) }
    ensures accepts { (seal : seals.Seal) → IsSeal seal → seal_text seal ≡ line.now
        → result ≡ Ok seal }
    ensures fault { IfErr result (λ fault. IsFirstFault line.now fault) }
{
    let Some((number, digits)) = parts_of(line) else {
        return Err(LineFault::NoMark);
    };
    let Some(entries) = read_count(number) else {
        return Err(LineFault::BadNumber);
    };
    let Some(head) = read_head(digits) else {
        return Err(LineFault::BadDigits);
    };
    Ok(Seal { entries, head })
}

/// The text before the mark and the text after it. `None` if the mark is not 72 bytes before the
/// end.
fn parts_of(line: &[u8]) -> Option<(&[u8], &[u8])>
    ensures marked { is_some result ≡ has_mark line.entry.now }
    ensures number { IfSome result (λ parts. parts.0.now ≡ number_part line.entry.now) }
    ensures digits { IfSome result (λ parts. parts.1.now ≡ digits_part line.entry.now) }
{
    let (number, rest) = line.split_at(line.len().saturating_sub(TAIL));
    if rest.starts_with(MARK) {
        Some((number, &rest[MARK.len()..]))
    } else {
        None
    }
}

/// The number that the text spells in decimal. `None` if there is none below 2^32, or if the text
/// has a sign or leading zeros.
fn read_count(text: &[u8]) -> Option<EntryNo>
    ensures reads { IfSome result (λ number. decimal number ≡ text.now) }
    ensures accepts { (number : ℕ) → number < 2 ^ 32 → text.now ≡ decimal number
        → result ≡ Some number }
{
    let number = parse_count(text)?;
    let mut buffer = itoa::Buffer::new();
    if buffer.format(number).as_bytes() == text {
        Some(number)
    } else {
        None
    }
}

/// The number that the text spells in decimal, possibly with a sign or leading zeros.
fn parse_count(text: &[u8]) -> Option<EntryNo>
    ensures { (number : ℕ) → number < 2 ^ 32 → text.now ≡ decimal number
        → result ≡ Some number }
{
    match str::from_utf8(text) {
        Ok(text) => text.parse().ok(),
        Err(_) => None,
    }
}

/// The 32 bytes that the text spells in hexadecimal digits in lower case.
pub(crate) fn read_head(text: &[u8]) -> Option<[u8; 32]>
    ensures reads { IfSome result (λ head. encode_lower head ≡ text.now) }
    ensures accepts { (bytes : List ℕ) → length bytes ≡ 32 → IsBytes bytes
        → text.now ≡ encode_lower bytes → result ≡ Some bytes }
{
    let Ok(head) = <[u8; 32]>::from_hex(text) else {
        return None;
    };
    let mut digits = [0; 64];
    hex::encode_to_slice(head, &mut digits).unwrap();
    if &digits[..] == text {
        Some(head)
    } else {
        None
    }
}
