//! Takes a byte order mark off a reader.
ghost use Rattle.std.specs.Prelude.{◌≡◌, ◌≢◌, ◌∷◌, [], Ok, Some, true, false, take};
ghost use Rattle.std.specs.Prelude.{IfOk, OnErr, IfErr, IfSome, option_map};
ghost use Rattle.std.specs.IoError.{error_kind};
ghost use Rattle.std.specs.Io.Chain.{chain_remaining};
ghost use Rattle.std.specs.Io.KnownBytes.{Consumes, Keeps, prepend_known};
ghost use Rattle.csv.specs.Reading.{strip_bom};
ghost use Rattle.table_core.specs.Marks.{TakesOfMark, TakesPart};

use std::io;
use std::io::{BufRead, Chain, ErrorKind, Read};

/// Returns a reader of the same bytes without the byte order mark at their start, if there is one.
/// Only the first mark is dropped. Reads and fails as [`skip_mark`] does. After a fault the reader
/// is gone; call [`skip_mark`] to keep it.
#[tactic(auto, using(crate::proofs::Skips::chained))]
pub fn without_mark<R: BufRead>(mut reader: R) -> io::Result<Chain<&'static [u8], R>>
where
    R: Drop,
    ensures bytes { IfOk result (λ whole. Keeps (option_map strip_bom (R.remaining reader))
        (chain_remaining (λ first. Some first.now) R.remaining whole)) }
    ensures retried { IfErr result (λ error. error_kind error ≢ ErrorKind.Interrupted) }
{
    let first = skip_mark(&mut reader)?;
    Ok(first.chain(reader))
}

/// Returns the bytes without the byte order mark at their start, if there is one. Only the first
/// mark is dropped.
pub fn past_mark(bytes: &[u8]) -> &[u8]
    ensures { result.now ≡ strip_bom bytes.now }
{
    if bytes.starts_with(&[0xEF, 0xBB, 0xBF]) {
        return bytes.split_at(3).1;
    }
    bytes
}

/// Takes a byte order mark off the start of the reader. If the input begins with only one or two
/// bytes of a mark, these are taken as well, and returned: they come before the rest of the input.
/// Otherwise returns no bytes.
///
/// Waits for the first byte or the end of the input, and for the next one only if all bytes so far
/// are a mark's. So at most three bytes are waited for. An interrupted read is tried again.
///
/// Faults: those of the reader; TimedOut after 4,294,967,295 interrupted reads in a row. One or two
/// bytes of a mark may then be taken, and no other byte.
pub fn skip_mark<R: BufRead>(reader: &mut R) -> io::Result<&'static [u8]>
    // If the reader's bytes are known: those returned and those left are its bytes without a mark.
    ensures bytes { IfOk result (λ first. Keeps (option_map strip_bom (R.remaining reader.old))
        (prepend_known first.now (R.remaining reader.new))) }
    ensures taken { IfOk result
        (λ first. TakesOfMark (R.remaining reader.old) (R.remaining reader.new) first.now) }
    ensures fault { OnErr result (TakesPart (R.remaining reader.old) (R.remaining reader.new)) }
    ensures retried { IfErr result (λ error. error_kind error ≢ ErrorKind.Interrupted) }
{
    if !skip_byte(reader, 0xEF)? {
        return Ok(b"");
    }
    if !skip_byte(reader, 0xBB)? {
        return Ok(b"\xEF");
    }
    if !skip_byte(reader, 0xBF)? {
        return Ok(b"\xEF\xBB");
    }
    Ok(b"")
}

/// Takes the next byte if it is this one, and returns true. Returns false, and takes nothing, if
/// another byte comes next, or none. Faults: as [`skip_mark`].
#[tactic(auto, using(crate::proofs::Skips::then_consumed, crate::proofs::Skips::then_other))]
fn skip_byte<R: BufRead>(reader: &mut R, byte: u8) -> io::Result<bool>
    ensures taken { result ≡ Ok true
        → Consumes (R.remaining reader.old) (R.remaining reader.new) (byte ∷ []) }
    ensures kept { result ≢ Ok true → Keeps (R.remaining reader.old) (R.remaining reader.new) }
    ensures other { result ≡ Ok false
        → IfSome (R.remaining reader.old) (λ bytes. take 1 bytes ≢ byte ∷ []) }
    ensures retried { IfErr result (λ error. error_kind error ≢ ErrorKind.Interrupted) }
{
    for _ in 0..u32::MAX {
        match skip_shown(reader, byte) {
            Ok(found) => return Ok(found),
            Err(error) => {
                if error.kind() != ErrorKind::Interrupted {
                    return Err(error);
                }
            }
        }
    }
    Err(io::Error::from(ErrorKind::TimedOut))
}

/// The same with a single read, which may be interrupted.
fn skip_shown<R: BufRead>(reader: &mut R, byte: u8) -> io::Result<bool>
    ensures taken { result ≡ Ok true
        → Consumes (R.remaining reader.old) (R.remaining reader.new) (byte ∷ []) }
    ensures kept { result ≢ Ok true → Keeps (R.remaining reader.old) (R.remaining reader.new) }
    ensures other { result ≡ Ok false
        → IfSome (R.remaining reader.old) (λ bytes. take 1 bytes ≢ byte ∷ []) }
{
    let shown = reader.fill_buf()?;
    let found = shown.first() == Some(&byte);
    if found {
        reader.consume(1);
    }
    Ok(found)
}
